//! Laws of directories, and of the card's block that names one. Each function does nothing: its contract is the law.

ghost use Rattle.crash_core.specs.DirectoryLaws.{BlocksAreReadBack, DirectoriesAreOpened, DirectoriesHaveEntries};

/// The card's block that names a directory is read back.
pub fn blocks_are_read_back()
    ensures { BlocksAreReadBack }
{}

/// Which entries a directory has is told by what its reference opens to.
pub fn directories_are_opened()
    ensures { DirectoriesAreOpened }
{}

/// A directory that is read has 256 entries in their forms, no two of one name or one file.
pub fn directories_have_entries()
    ensures { DirectoriesHaveEntries }
{}

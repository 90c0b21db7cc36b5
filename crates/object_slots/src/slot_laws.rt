//! Laws of slots. Each function does nothing: its contract is the law.

ghost use Rattle.object_slots.specs.Fronts.{LoadedHaveFronts, MadeHaveFronts, StagesKeepFronts};
ghost use Rattle.object_slots.specs.Gives.{ChangesGive, ReadsTell};
ghost use Rattle.object_slots.specs.SlotVersions.{LoadedAreVersions, MadeAreVersions, RefusedAreDamaged, StagesAreVersions, VersionsAreHeld};

/// An object that is loaded by its entry, from an honest file in which the entry's version stands, is the one of that version.
pub fn loaded_are_versions()
    ensures { LoadedAreVersions }
{}

/// Where loading is refused as corrupt, over such a file, the version's object is damaged.
pub fn refused_are_damaged()
    ensures { RefusedAreDamaged }
{}

/// While a version stands in its file, the object that is of it holds what the version has.
pub fn versions_are_held()
    ensures { VersionsAreHeld }
{}

/// A settled stage of an honest file leaves a version that stands in it: the old object, changed.
pub fn stages_are_versions()
    ensures { StagesAreVersions }
{}

/// An object that was made in an honest file is of a version that stands in it.
pub fn made_are_versions()
    ensures { MadeAreVersions }
{}

/// Whatever the file is, the node of block 0 of an object that is loaded seals its attributes.
pub fn loaded_have_fronts()
    ensures { LoadedHaveFronts }
{}

/// So does that of an object that is made.
pub fn made_have_fronts()
    ensures { MadeHaveFronts }
{}

/// It does still once a change of the data is adopted.
pub fn stages_keep_fronts()
    ensures { StagesKeepFronts }
{}

/// Whatever the file is, a read that succeeds was given each block that it asked, and its bytes are those that these tell.
pub fn reads_tell()
    ensures { ReadsTell }
{}

/// So was a change given each block that it needs, where these were read: for a stage, and where a draw failed.
pub fn changes_give()
    ensures { ChangesGive }
{}

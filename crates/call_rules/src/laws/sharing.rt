//! Laws of the table of open handles: sharing by file is sharing by name.

ghost use Rattle.call_rules.specs.SharingLaws.{FilesAllowAsNames, FilesAreOpenAsNames};

/// The table allows a handle on an entry's file where each session allows one on its object.
pub fn files_allow_as_names()
    ensures { FilesAllowAsNames }
{}

/// The table has a handle on an entry's file where some session has one on its object.
pub fn files_are_open_as_names()
    ensures { FilesAreOpenAsNames }
{}

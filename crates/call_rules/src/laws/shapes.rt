//! Laws of names and sizes.

ghost use Rattle.call_rules.specs.ChangeLaws.{ChangesKeepShape};
ghost use Rattle.call_rules.specs.LookLaws.{ApplicationsAreListed, FreePlacesAreRoom, NamedEntriesAreObjects, NextEntriesAreNextObjects};
ghost use Rattle.call_rules.specs.MappedLaws.{LandedEntriesHaveShape, MappedEntriesHaveShape};
ghost use Rattle.call_rules.specs.ShapeLaws.{HeldNamesAreListed, ObjectsAreEntries, ObjectsFitEntries, TotalsAreOfEntries};

/// A map that is in step with the history has the names and the sizes of the directory's entries.
pub fn mapped_entries_have_shape()
    ensures { MappedEntriesHaveShape }
{}

/// So it has once the commit in doubt landed, beside the directory with its change.
pub fn landed_entries_have_shape()
    ensures { LandedEntriesHaveShape }
{}

/// A change that a commit makes keeps the shape.
pub fn changes_keep_shape()
    ensures { ChangesKeepShape }
{}

/// There are as many objects as entries that are not free.
pub fn objects_are_entries()
    ensures { ObjectsAreEntries }
{}

/// There are at most as many objects as places of entries.
pub fn objects_fit_entries()
    ensures { ObjectsFitEntries }
{}

/// An application has as many objects, and as many bytes of data, as the entries tell.
pub fn totals_are_of_entries()
    ensures { TotalsAreOfEntries }
{}

/// A name that is held is that of an entry.
pub fn held_names_are_listed()
    ensures { HeldNamesAreListed }
{}

/// A name is held exactly where an entry has it, and its object has that entry's size.
pub fn named_entries_are_objects()
    ensures { NamedEntriesAreObjects }
{}

/// A name lacks room exactly where it is not held and no entry is free.
pub fn free_places_are_room()
    ensures { FreePlacesAreRoom }
{}

/// The next object has the identifier and the size of the next entry.
pub fn next_entries_are_next_objects()
    ensures { NextEntriesAreNextObjects }
{}

/// An application has an object exactly where it has an entry.
pub fn applications_are_listed()
    ensures { ApplicationsAreListed }
{}

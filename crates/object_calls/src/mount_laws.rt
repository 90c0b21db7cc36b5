//! Laws of mounted stores. Each function does nothing: its contract is the law.

ghost use Rattle.object_calls.specs.MountLaws.{MountedSlotsAreGuarded, MountsBeginGates, MountsTellEntries};

/// The mount tells of the directory's entries and of nothing else, and each version is real.
pub fn mounts_tell_entries()
    ensures { MountsTellEntries }
{}

/// A history without events is a journal of the store, to which the entries are tied; and no handle is open.
pub fn mounts_begin_gates()
    ensures { MountsBeginGates }
{}

/// A free slot of each file may stand behind its lock.
pub fn mounted_slots_are_guarded()
    ensures { MountedSlotsAreGuarded }
{}

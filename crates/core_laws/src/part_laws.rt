//! Laws of the parts. Each function does nothing: its contract is the law.

ghost use Rattle.core_laws.specs.Finished.{FinishMounts, HonestFinishMounts};
ghost use Rattle.core_laws.specs.GateLaws.{DirectoryRunsAreSteps, SealsAreSteps};
ghost use Rattle.core_laws.specs.Joined.{PartsAreACore};
ghost use Rattle.core_laws.specs.Listed.{CommitsKeepListed};
ghost use Rattle.core_laws.specs.Moves.{MovesAreARun};
ghost use Rattle.core_laws.specs.Opened.{OpeningsHold};
ghost use Rattle.core_laws.specs.SlotLaws.{OwnEventsKeep, RenewedSlotsHold, SlotStepsKeep};
ghost use Rattle.core_laws.specs.SlotSteps.{FileRunsAreSteps};

/// The parts, each with its own fact, are one state of the core machine.
pub fn parts_are_a_core()
    ensures { PartsAreACore }
{}

/// Moves of the parts, in whatever order they come, are one run of the core machine.
pub fn moves_are_a_run()
    ensures { MovesAreARun }
{}

/// Once all parts are at rest, every picture mounts to the map that the history leaves, or to that with the commit in doubt. Nothing is
/// said of objects in files that are not honest, nor where the directory's file is not.
pub fn finish_mounts()
    ensures { FinishMounts }
{}

/// Where every file is honest, it mounts to that map itself.
pub fn honest_finish_mounts()
    ensures { HonestFinishMounts }
{}

/// Each part of a store that is mounted and synced has its fact.
pub fn openings_hold()
    ensures { OpeningsHold }
{}

/// A commit leaves the same entries in the gate's directory and in the history's.
pub fn commits_keep_listed()
    ensures { CommitsKeepListed }
{}

/// Calls of a slot's file that write beside the one tree that the slot knows are steps of the slot.
pub fn file_runs_are_steps()
    ensures { FileRunsAreSteps }
{}

/// A slot's own steps keep its fact, whatever the other parts do.
pub fn slot_steps_keep()
    ensures { SlotStepsKeep }
{}

/// A slot's fact stays, where its seat sees the whole history.
pub fn renewed_slots_hold()
    ensures { RenewedSlotsHold }
{}

/// An event of a slot's object keeps the slot's fact, where the version that it makes known stands in the file.
pub fn own_events_keep()
    ensures { OwnEventsKeep }
{}

/// Calls of the directory's file that write beside the committed tree are steps of the gate.
pub fn directory_runs_are_steps()
    ensures { DirectoryRunsAreSteps }
{}

/// The write of the card is a step of the gate, where the slot that it is handed shows what is put.
pub fn seals_are_steps()
    ensures { SealsAreSteps }
{}

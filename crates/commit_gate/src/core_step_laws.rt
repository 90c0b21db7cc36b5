//! Laws of the gate's part. Each function does nothing: its contract is the law.

ghost use Rattle.commit_gate.specs.CommitFacts.{DirectoryRunsKeep, SealsKeep};
ghost use Rattle.commit_gate.specs.CommitSteps.{CommitsAreSteps};
ghost use Rattle.commit_gate.specs.ClosedStores.{ClosedStoresMount, TamperedFilesAreSupposed, HonestStoresMount, TiedStoresMount};
ghost use Rattle.commit_gate.specs.EventSteps.{UnchangedEventsAreSteps};
ghost use Rattle.commit_gate.specs.Finishing.{FinishedPhasesMount};
ghost use Rattle.commit_gate.specs.GateMoves.{RestingGatesMove};
ghost use Rattle.commit_gate.specs.ReserveSteps.{ReleasesAreSteps, ReservesAreSteps};
ghost use Rattle.commit_gate.specs.Resolves.{ResolvesAreSteps};
ghost use Rattle.commit_gate.specs.Resting.{RestingGatesHold};
ghost use Rattle.commit_gate.specs.CoreTies.{TiesTell};

/// What ties a gate to its history, whatever the files are, ties it so under each tamper scenario.
pub fn ties_tell()
    ensures { TiesTell }
{}

/// Between two calls a gate that is tied to its history is a part of the core machine, at rest.
pub fn resting_gates_hold()
    ensures { RestingGatesHold }
{}

/// Once a phase has ended, every picture of the store mounts to the map that its history leaves, or to that with the commit in doubt.
/// Nothing is said of objects in files that are not honest, nor where the directory's file is not.
pub fn closed_stores_mount()
    ensures { ClosedStoresMount }
{}

/// Whatever became of the history, every picture mounts to the entries that its records leave, and shows of each file that is honest the
/// object of the version that they give. Nothing is said where the directory's file is not honest.
pub fn tied_stores_mount()
    ensures { TiedStoresMount }
{}

/// Where every file is honest, it mounts to that map itself.
pub fn honest_stores_mount()
    ensures { HonestStoresMount }
{}

/// The tamper scenario that has just those files as not honest that are not, has them all.
pub fn tampered_files_are_supposed()
    ensures { TamperedFilesAreSupposed }
{}

/// A phase that finished: under a tamper scenario that has all files as not honest that are not, every picture mounts to what the history
/// leaves, or the promises end at a first event.
pub fn finished_phases_mount()
    ensures { FinishedPhasesMount }
{}

/// A commit of the gate, however it ends, is with its event a list of steps of the core machine, from one part at rest to the next.
pub fn commits_are_steps()
    ensures { CommitsAreSteps }
{}

/// Amid a commit the calls of the directory's file keep the gate's fact, so that other parts may move between them.
pub fn directory_runs_keep()
    ensures { DirectoryRunsKeep }
{}

/// So does the seal.
pub fn seals_keep()
    ensures { SealsKeep }
{}

/// The resolving of a doubt is a list of steps from one part at rest to the next, whichever answer it finds.
pub fn resolves_are_steps()
    ensures { ResolvesAreSteps }
{}

/// So is an event that changes nothing.
pub fn unchanged_events_are_steps()
    ensures { UnchangedEventsAreSteps }
{}

/// So is the reserving of a free file for a session.
pub fn reserves_are_steps()
    ensures { ReservesAreSteps }
{}

/// So is the release of a session's file.
pub fn releases_are_steps()
    ensures { ReleasesAreSteps }
{}

/// Such steps are a move of the gate as `core_parts` has it, and keep its fact.
pub fn resting_gates_move()
    ensures { RestingGatesMove }
{}

//! Laws of the service's parts. Each function does nothing: its contract is the law.

ghost use Rattle.call_steps.specs.AnswerMoves.{AnswersAreSteps};
ghost use Rattle.call_steps.specs.CommitMoves.{ObjectCommitsAreSteps};
ghost use Rattle.call_steps.specs.FileHoldMoves.{ReleasedFilesAreSteps, ReservedFilesAreSteps};
ghost use Rattle.call_steps.specs.CoreMoves.{GuardedStepsAreMoves};
ghost use Rattle.call_steps.specs.ServiceCores.{GuardedGatesRest};
ghost use Rattle.call_steps.specs.ResolveMoves.{ResolvedDoubtsAreSteps};
ghost use Rattle.call_steps.specs.HandedSlots.{HandedSlotsShow};

use rpmb_card::RpmbPort;
use tee_ports::{Entropy, StoreFile};

/// Between two calls a gate behind its lock is the gate's part of the core machine, at rest.
pub fn guarded_gates_rest<F: StoreFile, R: RpmbPort>()
    ensures { GuardedGatesRest F R }
{}

/// An answer that changes nothing is a step.
pub fn answers_are_steps<F: StoreFile, R: RpmbPort>()
    ensures { AnswersAreSteps F R }
{}

/// The reserving of a file for a session is a list of steps.
pub fn reserved_files_are_steps<F: StoreFile, R: RpmbPort>()
    ensures { ReservedFilesAreSteps F R }
{}

/// So is the release of a session's file.
pub fn released_files_are_steps<F: StoreFile, R: RpmbPort>()
    ensures { ReleasedFilesAreSteps F R }
{}

/// So is the resolving of a commit in doubt, whichever answer the card gives.
pub fn resolved_doubts_are_steps<F: StoreFile, R: RpmbPort>()
    ensures { ResolvedDoubtsAreSteps F R }
{}

/// The slot that a commit is handed shows in its file what the machine's change puts.
pub fn handed_slots_show()
    ensures { HandedSlotsShow }
{}

/// A commit that is brought with the slot of its object is a list of steps, however it ends; or the promises end at its call.
pub fn object_commits_are_steps<F: StoreFile, R: RpmbPort, E: Entropy>()
    ensures { ObjectCommitsAreSteps F R E E.is_reliable E.faults }
{}

/// Such steps are a move of the gate as `core_parts` has it, and keep its fact.
pub fn guarded_steps_are_moves<F: StoreFile, R: RpmbPort>()
    ensures { GuardedStepsAreMoves F R }
{}

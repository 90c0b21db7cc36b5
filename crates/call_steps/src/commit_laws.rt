//! Laws of commits that are brought with a slot. Each function does nothing: its contract is the law.

ghost use Rattle.call_steps.specs.CommittableSlots.{ShownSeatsSeeWhole, StagedSlotsAreCommittable, StagesAreVersions};
ghost use Rattle.call_steps.specs.DataCommitLaws.{TruncationsMayCommit, WritesMayCommit};
ghost use Rattle.call_steps.specs.CreateLaws.{CreatesMayCommit, NewSeatsAreGuarded, NewSlotsAreCommittable};
ghost use Rattle.call_steps.specs.StageEndLaws.{CommitsEndSlots, EndedSlotsAreGuarded};
ghost use Rattle.call_steps.specs.NameLaws.{DeletesMayCommit, HandlesAreOwn, RenamesMayCommit, WholeSlotsAreCommittable};

use rpmb_card::RpmbPort;
use tee_ports::{Entropy, StoreFile};

/// A write that was staged may be brought to the gate, whatever its object's file is: the entry with the new version takes the place of the
/// object's own.
pub fn writes_may_commit<F: StoreFile, R: RpmbPort, E: Entropy>()
    ensures { WritesMayCommit F R E }
{}

/// So may a truncation.
pub fn truncations_may_commit<F: StoreFile, R: RpmbPort, E: Entropy>()
    ensures { TruncationsMayCommit F R E }
{}

/// A rename of an object of the session's own application may be brought to the gate: the version stays.
pub fn renames_may_commit<F: StoreFile, R: RpmbPort, E: Entropy>()
    ensures { RenamesMayCommit F R E }
{}

/// So may a delete: no version is left.
pub fn deletes_may_commit<F: StoreFile, R: RpmbPort, E: Entropy>()
    ensures { DeletesMayCommit F R E }
{}

/// So may a create: its entry takes the place of the one of its name, or a free one.
pub fn creates_may_commit<F: StoreFile, R: RpmbPort, E: Entropy>()
    ensures { CreatesMayCommit F R E }
{}

/// A free slot of a file that no entry names may stand behind its lock with a new seat, which knows no version of the file.
pub fn new_seats_are_guarded<F: StoreFile, R: RpmbPort>()
    ensures { NewSeatsAreGuarded F R }
{}

/// A slot with an object that was made is brought to the gate as a create wants it.
pub fn new_slots_are_committable()
    ensures { NewSlotsAreCommittable }
{}

/// A live handle of a session is on an object of its application, wherever the history is answered.
pub fn handles_are_own<E: Entropy>()
    ensures { HandlesAreOwn E }
{}

/// A slot that has no stage is brought to the gate for a rename as it is, and for a delete once it is free.
#[tactic(auto, using(crate::proofs::WholeSlots::whole_committable))]
pub fn whole_slots_are_committable()
    ensures { WholeSlotsAreCommittable }
{}

/// A change that was staged, whatever its object's file is, left a version that may be brought to the gate.
#[tactic(auto, using(crate::proofs::CommittableSlots::stages_versions))]
pub fn stages_are_versions()
    ensures { StagesAreVersions }
{}

/// A slot with a stage is brought to the gate as a commit wants it.
pub fn staged_slots_are_committable()
    ensures { StagedSlotsAreCommittable }
{}

/// A seat that is shown the whole history sees it.
pub fn shown_seats_see_whole()
    ensures { ShownSeatsSeeWhole }
{}

/// Each end of a commit that was brought with its slot is an event of the slot's object.
pub fn commits_end_slots<F: StoreFile, R: RpmbPort, E: Entropy>()
    ensures { CommitsEndSlots F R E }
{}

/// Behind it the slot may stand behind its lock.
#[tactic(auto, using(crate::proofs::SlotEnds::ended_guarded))]
pub fn ended_slots_are_guarded()
    ensures { EndedSlotsAreGuarded }
{}

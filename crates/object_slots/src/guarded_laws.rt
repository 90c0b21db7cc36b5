//! Laws of locked slots. Each function does nothing: its contract is the law.

ghost use Rattle.object_slots.specs.Learning.{SlotsLearn};
ghost use Rattle.object_slots.specs.LiveSlots.{LiveSlotsGiveVersions};
ghost use Rattle.object_slots.specs.FirstSlots.{FirstSlotsAreGuarded};
ghost use Rattle.object_slots.specs.OwnEvents.{DoubtfulEventsKeepSlots, MadeEventsKeepSlots, UnchangedEventsKeepSlots};

/// A free slot may stand behind its lock as a phase begins.
#[tactic(auto, using(crate::proofs::SlotOpenings::first_slots_are_guarded))]
pub fn first_slots_are_guarded()
    ensures { FirstSlotsAreGuarded }
{}

/// A slot whose seat sees the whole history may stand behind its lock again, once its doubt is still open, or was adopted or dropped.
pub fn slots_learn()
    ensures { SlotsLearn }
{}

/// An event of the slot's object that changes nothing leaves what it holds.
#[tactic(auto, using(crate::proofs::OwnRecords::unchanged_keep))]
pub fn unchanged_events_keep_slots()
    ensures { UnchangedEventsKeepSlots }
{}

/// Behind a commit that was made the slot holds what is of the version that the commit left.
#[tactic(auto, using(crate::proofs::OwnRecords::made_keep))]
pub fn made_events_keep_slots()
    ensures { MadeEventsKeepSlots }
{}

/// Behind a commit in doubt it holds what is of either version.
#[tactic(auto, using(crate::proofs::OwnRecords::doubtful_keep))]
pub fn doubtful_events_keep_slots()
    ensures { DoubtfulEventsKeepSlots }
{}

/// A slot behind its lock that has an object, and no doubt, holds the object of a version that its view gives.
pub fn live_slots_give_versions()
    ensures { LiveSlotsGiveVersions }
{}

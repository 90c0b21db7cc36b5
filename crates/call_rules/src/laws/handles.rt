//! Laws of the open handles of the machine.

ghost use Rattle.call_rules.specs.HandleLaws.{AnsweredHandlesAreWellOpened, CallsKeepWellOpened, LandingsKeepWellOpened, LegalDoubtsAreDue, OpeningsAreWellOpened, ReplaysKeepWellOpened};

/// A phase opens without handles.
#[tactic(auto, using(crate::proofs::HandleLaws::openings_are_well_opened))]
pub fn openings_are_well_opened()
    ensures { OpeningsAreWellOpened }
{}

/// Whatever a call is answered, the object of each live handle is then there and sound, and handles on one object are compatible.
#[tactic(auto, using(crate::proofs::HandleLaws::calls_keep_well_opened))]
pub fn calls_keep_well_opened()
    ensures { CallsKeepWellOpened }
{}

/// So it is after the landing of a commit in doubt that is the machine's.
#[tactic(auto, using(crate::proofs::HandleLaws::landings_keep_well_opened))]
pub fn landings_keep_well_opened()
    ensures { LandingsKeepWellOpened }
{}

/// So it is along every history, legal or not, in which no commit is left in doubt but one that is the machine's.
#[tactic(auto, using(crate::proofs::HandleLaws::replays_keep_well_opened))]
pub fn replays_keep_well_opened<Root>()
    ensures { ReplaysKeepWellOpened Root }
{}

/// A legal history leaves no other in doubt.
#[tactic(auto, using(crate::proofs::HandleLaws::legal_doubts_are_due))]
pub fn legal_doubts_are_due<Root>()
    ensures { LegalDoubtsAreDue Root }
{}

/// Nor does one that is answered under a tamper scenario.
#[tactic(auto, using(crate::proofs::HandleLaws::answered_handles_are_well_opened))]
pub fn answered_handles_are_well_opened()
    ensures { AnsweredHandlesAreWellOpened }
{}

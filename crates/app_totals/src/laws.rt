//! Laws of what a call would leave its application. Each function does nothing: its contract is the law.

ghost use Rattle.app_totals.specs.Laws.{CallsKeepOwnHandles, CommitsLeaveWhatIsMeant, LandingsKeepOwnHandles, MisusesAreMeant, RefusalsRaiseNothing, RepliesAreMeant, ReplaysKeepOwnHandles};

/// A commit leaves its application the totals that the call was meant to leave.
#[tactic(auto, using(crate::proofs::MeantTotals::commits_leave_what_is_meant))]
pub fn commits_leave_what_is_meant()
    ensures { CommitsLeaveWhatIsMeant }
{}

/// A call that is meant to be refused raises no number of its application.
#[tactic(auto, using(crate::proofs::MeantTotals::refusals_raise_nothing))]
pub fn refusals_raise_nothing()
    ensures { RefusalsRaiseNothing }
{}

/// A call is answered what is meant, but where damage has the blame, or a create was granted.
#[tactic(auto, using(crate::proofs::MeantTotals::replies_are_meant))]
pub fn replies_are_meant()
    ensures { RepliesAreMeant }
{}

/// A call is meant to be a misuse exactly where it is one.
#[tactic(auto, using(crate::proofs::MeantTotals::misuses_are_meant))]
pub fn misuses_are_meant()
    ensures { MisusesAreMeant }
{}

/// A call leaves each application's handles on objects of its own.
#[tactic(auto, using(crate::proofs::OwnHandles::calls_keep_own_handles))]
pub fn calls_keep_own_handles()
    ensures { CallsKeepOwnHandles }
{}

/// So does a commit in doubt that landed.
#[tactic(auto, using(crate::proofs::OwnHandles::landings_keep_own_handles))]
pub fn landings_keep_own_handles()
    ensures { LandingsKeepOwnHandles }
{}

/// So does a history, legal or not.
#[tactic(auto, using(crate::proofs::ReplayedHandles::replays_keep_own_handles))]
pub fn replays_keep_own_handles<Root>()
    ensures { ReplaysKeepOwnHandles Root }
{}

//! Laws of quotas. Each function does nothing: its contract is the law.

ghost use Rattle.app_quota.specs.Laws.{ApplicationsAreIsolated, CallsOfOthersStayApart, CommitmentsAreSums, DistinctAppsAreApart, EventsStayWithin, ForecastsTellBeyond, LetThroughMeetsNoOthers, OtherCallsAreWithin, OwnCallsJoin, OwnCallsStandAlone, PartsTellBeyond, QuietRecordsStayApart, QuietSessionsAreWithin, QuotasIsolate, QuotasLeaveRoom, SessionsWithinAreWithin, UndoneCallsAreWithin};

/// A call of another application leaves an application's part of the state.
#[tactic(auto, using(crate::proofs::OtherCalls::calls_of_others_stay_apart))]
pub fn calls_of_others_stay_apart()
    ensures { CallsOfOthersStayApart }
{}

/// A call is answered by its application's part of the state alone.
#[tactic(auto, using(crate::proofs::PartNames::own_calls_stand_alone))]
pub fn own_calls_stand_alone()
    ensures { OwnCallsStandAlone }
{}

/// In a phase whose calls were let through each application's calls are answered by its own calls alone, from its own objects; or a device
/// has the blame.
#[tactic(auto, using(crate::proofs::IsolatedEvents::applications_are_isolated))]
pub fn applications_are_isolated<Root>()
    ensures { ApplicationsAreIsolated Root }
{}

/// Records without an event of an application leave its part of the state.
#[tactic(auto, using(crate::proofs::QuietRecords::quiet_records_stay_apart))]
pub fn quiet_records_stay_apart<Root>()
    ensures { QuietRecordsStayApart Root }
{}

/// A create that quotas let through meets the limit of all applications' objects nowhere but among its own.
#[tactic(auto, using(crate::proofs::Rooms::let_through_meets_no_others))]
pub fn let_through_meets_no_others()
    ensures { LetThroughMeetsNoOthers }
{}

/// Quotas that are not over-committed leave each application room up to its own.
#[tactic(auto, using(crate::proofs::Rooms::quotas_leave_room))]
pub fn quotas_leave_room()
    ensures { QuotasLeaveRoom }
{}

/// In a phase whose quotas are not over-committed each application's calls are answered by its own calls alone; or a device has the blame.
#[tactic(auto, using(crate::proofs::Bounded::quotas_isolate))]
pub fn quotas_isolate<Root>()
    ensures { QuotasIsolate Root }
{}

/// An event that raises a number of an application leaves it within its quota, where each call was within.
#[tactic(auto, using(crate::proofs::Raises::events_stay_within))]
pub fn events_stay_within<Root>()
    ensures { EventsStayWithin Root }
{}

/// A forecast tells whether its call is beyond its application's limit.
#[tactic(auto, using(crate::proofs::Raises::forecasts_tell_beyond))]
pub fn forecasts_tell_beyond()
    ensures { ForecastsTellBeyond }
{}

/// Where each session's calls are within their limits, all are.
#[tactic(auto, using(crate::proofs::SessionLimits::sessions_within_are_within))]
pub fn sessions_within_are_within<Root>()
    ensures { SessionsWithinAreWithin Root }
{}

/// A session without a call in the records has none beyond its limit.
#[tactic(auto, using(crate::proofs::SessionLimits::quiet_sessions_are_within))]
pub fn quiet_sessions_are_within<Root>()
    ensures { QuietSessionsAreWithin Root }
{}

/// What is within before and behind a place is within.
#[tactic(auto, using(crate::proofs::SessionLimits::own_calls_join))]
pub fn own_calls_join<Root>()
    ensures { OwnCallsJoin Root }
{}

/// A call that may not grow an object, and makes none, is beyond no limit.
#[tactic(auto, using(crate::proofs::SessionLimits::other_calls_are_within))]
pub fn other_calls_are_within()
    ensures { OtherCallsAreWithin }
{}

/// A misuse is beyond no limit, and a call that was not done for a device was within, as far as limits ask.
pub fn undone_calls_are_within()
    ensures { UndoneCallsAreWithin }
{}

/// What a call of an application would leave is told by its part of the state.
#[tactic(auto, using(crate::proofs::SessionLimits::parts_tell_beyond))]
pub fn parts_tell_beyond()
    ensures { PartsTellBeyond }
{}

/// Applications that are told each once are distinct, and each is among them.
#[tactic(auto, using(crate::proofs::Commitments::distinct_apps_are_apart))]
pub fn distinct_apps_are_apart()
    ensures { DistinctAppsAreApart }
{}

/// What is committed is all objects, and what each application may have beyond what it has.
#[tactic(auto, using(crate::proofs::Commitments::commitments_are_sums))]
pub fn commitments_are_sums()
    ensures { CommitmentsAreSums }
{}

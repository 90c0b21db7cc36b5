//! Laws of quotas over one history. Each function does nothing: its contract is the law.

ghost use Rattle.quota_store.specs.QuietForecasts.{QuietForecastsHold};
ghost use Rattle.quota_store.specs.QuotaHistories.{KeptApplicationsAreIsolated, KeptCallsAreWithin, KeptEventsStayWithin, NewSessionsHaveKept, RefusedCallsStand};

/// What a call of an application would leave stays the same, while no session of the application has an event and no commit of it lands.
#[tactic(auto, using(crate::proofs::QuietForecasts::quiet_forecasts_hold))]
pub fn quiet_forecasts_hold()
    ensures { QuietForecastsHold }
{}

/// A session begins within any limits.
#[tactic(auto, using(crate::proofs::QuotaHistories::new_sessions_have_kept))]
pub fn new_sessions_have_kept<E>()
    ensures { NewSessionsHaveKept E }
{}

/// In a history whose sessions each kept within their limits each call was within what its application may have.
pub fn kept_calls_are_within<E>()
    ensures { KeptCallsAreWithin E }
{}

/// Each event of it that raises a number of an application leaves it within its limit.
pub fn kept_events_stay_within<E>()
    ensures { KeptEventsStayWithin E }
{}

/// In it each application's calls are answered by its own calls alone, where the limits were not over-committed; or a device has the blame.
pub fn kept_applications_are_isolated<E>()
    ensures { KeptApplicationsAreIsolated E }
{}

/// A call that was refused is one that quotas refuse where the history stood.
#[tactic(auto, using(crate::proofs::QuotaHistories::refused_calls_stand))]
pub fn refused_calls_stand<E>()
    ensures { RefusedCallsStand E }
{}

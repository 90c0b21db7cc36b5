//! What applications may have, and how that isolates them: each is answered as if it were alone.
#![tactic(auto)]

mod laws;
mod quotas;

pub use laws::{
    applications_are_isolated, calls_of_others_stay_apart, commitments_are_sums,
    distinct_apps_are_apart, events_stay_within, forecasts_tell_beyond,
    let_through_meets_no_others, other_calls_are_within, own_calls_join, own_calls_stand_alone,
    parts_tell_beyond, quiet_records_stay_apart, quiet_sessions_are_within, quotas_isolate,
    quotas_leave_room, sessions_within_are_within, undone_calls_are_within,
};
pub use quotas::{Quota, limit_of, tells_beyond};

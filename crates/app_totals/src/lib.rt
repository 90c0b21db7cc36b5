//! What an application has in the store: how many objects, and how many bytes of data; and what a call would leave it.
#![tactic(auto)]

mod entries;
mod growing;
mod laws;
mod numbers;

pub use entries::entry_totals;
pub use growing::may_grow;
pub use laws::{
    calls_keep_own_handles, commits_leave_what_is_meant, landings_keep_own_handles,
    misuses_are_meant, refusals_raise_nothing, replays_keep_own_handles, replies_are_meant,
};
pub use numbers::{Forecast, Grown, Totals};

//! A store that threads serve under quotas: each application is answered as if it were alone.
//!
//! The seat of each session is in halves. One is its caller's; the others of one application's sessions stand behind the application's lock,
//! which a call takes before all others. So while a call is forecast and served, no other session of its application has an event: what the
//! call was forecast to leave is what it leaves.
#![tactic(auto)]

mod app_halves;
mod joining;
mod laws;
mod looks;
mod places;
mod quota_call;
mod quota_room;
mod quota_session;
mod quota_store;
mod sharing;

pub use app_halves::AppHalves;
pub use joining::join_sessions;
pub use laws::{
    kept_applications_are_isolated, kept_calls_are_within, kept_events_stay_within,
    new_sessions_have_kept, quiet_forecasts_hold, refused_calls_stand,
};
pub use quota_room::{JoinRoom, QuotaRoom};
pub use quota_session::QuotaSession;
pub use quota_store::QuotaStore;
pub use shared_store::{
    DevicesName, GuardedSlot, PlacedReply, QuotaOutcome, Session, SharedGate, SharedSlot,
    SharedStore,
};
pub use sharing::{SharedSessions, share_sessions};

//! The store as one thread of calls sees it: objects, the machine, histories, and which histories are legal.
#![tactic(auto)]

mod event;
mod history;
pub mod laws;
mod name;
mod object;
mod session;
mod state;

pub use event::{Event, Mark};
pub use history::{EventRoom, History};
pub use name::ObjectName;
pub use session::{Handle, Session};
pub use state::State;

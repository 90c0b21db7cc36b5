//! The enumerators of a session, by number
//! (TEE Internal Core API, Trusted Storage: persistent object enumeration functions).
#![tactic(auto)]

mod cursor;
mod enumerators;
mod laws;
mod places;

pub use cursor::{Cursor, EnumFault};
pub use enumerators::Enumerators;
pub use laws::{freed_numbers_stay_freed, numbers_count_up};
pub use places::place_of;

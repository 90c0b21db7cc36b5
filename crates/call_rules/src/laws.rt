//! Laws of the machine's shape. Each function does nothing: its contract is the law.

pub mod events;
pub mod handles;
pub mod opens;
pub mod shapes;
pub mod sharing;

//! The host of the replay-protected memory block, RPMB (JEDEC eMMC standard JESD84-B51, 6.6.22): reads and writes whose
//! answers are authenticated, over any port to a card.
#![tactic(auto)]

mod fault;
mod host;
mod requests;
mod verdict;

pub use fault::HostFault;
pub use hmac_keys::SecretKey;
pub use host::Host;
pub use verdict::Wanted;

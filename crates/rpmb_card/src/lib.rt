//! The card of the replay-protected memory block, RPMB (JEDEC eMMC standard JESD84-B51, 6.6.22): a simulated card
//! as a function of its state and a frame, the port that carries frames to a card, and the faults that a simulator
//! can be told to make.
#![tactic(auto)]

mod arms;
mod card;
mod card_rig;
mod frames;
mod heard;
mod port;
mod protocol;
mod sim_port;

pub use card::{Register, SimCard};
pub use card_rig::CardRig;
pub use frames::empty_frame;
pub use heard::Heard;
pub use port::RpmbPort;
pub use protocol::{
    ADDRESS_FAILURE, AUTHENTICATION_FAILURE, BLOCK_READ, BLOCK_WRITTEN, COUNTER_EXPIRED,
    COUNTER_FAILURE, COUNTER_READ, DONE, GENERAL_FAILURE, KEY_NOT_PROGRAMMED, KEY_PROGRAMMED,
    PROGRAM_KEY, READ_BLOCK, READ_COUNTER, READ_RESULT, WRITE_BLOCK, WRITE_FAILURE,
};
pub use sim_port::SimPort;

/// Memory ran out.
pub type NoMemory = std::alloc::AllocError;

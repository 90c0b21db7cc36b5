//! The numbers of the card's protocol (JESD84-B51, 6.6.22): kinds of requests and responses, and results.

/// The request that programs the card's key, once.
pub const PROGRAM_KEY: u16 = 1;

/// The request for the write counter.
pub const READ_COUNTER: u16 = 2;

/// The request that writes one block, under the card's key.
pub const WRITE_BLOCK: u16 = 3;

/// The request for one block.
pub const READ_BLOCK: u16 = 4;

/// The request for the result of the last programming or write.
pub const READ_RESULT: u16 = 5;

/// The response to `READ_RESULT` after `PROGRAM_KEY`.
pub const KEY_PROGRAMMED: u16 = 0x0100;

/// The response to `READ_COUNTER`.
pub const COUNTER_READ: u16 = 0x0200;

/// The response to `READ_RESULT` after `WRITE_BLOCK`.
pub const BLOCK_WRITTEN: u16 = 0x0300;

/// The response to `READ_BLOCK`.
pub const BLOCK_READ: u16 = 0x0400;

/// The result of a request that was done.
pub const DONE: u16 = 0;

/// The result of a request that the card does not know, or that came out of turn.
pub const GENERAL_FAILURE: u16 = 1;

/// The result of a write whose MAC is wrong.
pub const AUTHENTICATION_FAILURE: u16 = 2;

/// The result of a write whose counter is not the card's.
pub const COUNTER_FAILURE: u16 = 3;

/// The result of a request for a block that the card does not have.
pub const ADDRESS_FAILURE: u16 = 4;

/// The result of a write that can't be done.
pub const WRITE_FAILURE: u16 = 5;

/// The result of a request that needs a key, on a card that has none.
pub const KEY_NOT_PROGRAMMED: u16 = 7;

/// The bit of a result that says that the write counter has reached its end.
pub const COUNTER_EXPIRED: u16 = 0x80;

//! The block cipher AES-128 (FIPS 197), one block at a time and eight at once, and the key of a file
//! wrapped in one block.
#![tactic(auto)]

mod block_cipher;
mod inverse_planes;
mod key_schedule;
mod key_wrap;
mod laws;
mod plane_steps;
mod planes;
mod round_key;
mod s_box_planes;
mod transpose;

pub use block_cipher::Aes128;
pub use key_wrap::{unwrap_key, wrap};
pub use laws::deciphering_undoes_enciphering;

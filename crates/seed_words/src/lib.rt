//! What follows from a seed alone: random bytes, and the script of a soak.
//!
//! Random bytes are the key stream of ChaCha20 (RFC 8439), cut into streams by number. A soak is a script of eight applications that call
//! beside each other, and the lines that say what came of it.
#![tactic(auto)]

mod seed_entropy;
mod soak_commits;
mod soak_laws;
mod soak_numbers;
mod soak_outcome;
mod soak_texts;
mod soak_words;
mod stream_laws;

pub use seed_entropy::SeedEntropy;
pub use soak_laws::soak_texts_are_scripts;
pub use soak_numbers::soak_number;
pub use soak_outcome::soak_lines;
pub use soak_texts::{soak_script, soak_text};
pub use stream_laws::words_are_apart;

//! Hash trees in a file: 1 to 256 blocks of 4,096 bytes, each enciphered and authenticated with AES-128-GCM, and a tree of
//! SHA-256 hashes over them whose root is named by a reference that is kept elsewhere.
//!
//! A tree is made whole, or loaded from a file that may hold anything. What is loaded is verified against the reference:
//! a page that is read is the deciphering of a ciphertext with the tag that a verified node has for it.
//!
//! A tree is changed by a stage, which writes what changes, and nothing else, into the version that the committed tree does not
//! select. A stage is settled and then adopted, or dropped. On an honest file a crash meanwhile leaves a firm tree as it was
//! committed: in a file of format 2 no write meets a sector of a committed part. A tree in a file of format 1, where parts share
//! sectors, is never changed; it can be copied into a file of format 2.
#![tactic(auto)]

mod change;
mod copying;
mod device;
mod fault;
mod laws;
mod opening;
mod pages;
mod parts;
mod reading;
mod sealing;
mod staging;
mod table;
mod tree;
mod version;
mod write_set;

pub use change::BlockChange;
pub use copying::copy_tree;
pub use fault::{Broken, Page, TreeFault};
pub use gcm_mode::ComputedTag;
pub use laws::{firm_opens_alike, read_keeps_firm, selection_names_tree};
pub use opening::check_hashes;
pub use pages::open_page;
pub use tree::Tree;

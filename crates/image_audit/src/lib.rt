//! Certificates of objects. A certificate shows, to who has the keys and the bytes of the card's block 0, that an object stands
//! under that block: it has the parts of the directory and of the object's tree that lead from the block to the object.
//!
//! `check` reads a certificate, and answers what it says or the first test that it fails. What is accepted holds in every
//! store that was read under the block, or there is a collision or a forgery.
#![tactic(auto)]

mod audit;
mod card;
mod directory;
mod entry;
mod fault;
mod front;
mod laws;
mod object;
mod reading;
mod trees;

pub use audit::{audit_object, begin_certificate, end_certificate};
pub use fault::{CertFault, Listed, ProofFault};
pub use laws::{
    accepted_are_certificates, audits_are_accepted, certificates_hold, certificates_hold_in_stores,
    objects_have_certificates,
};
pub use reading::check;

//! The rule by which open handles share one object
//! (TEE Internal Core API, Trusted Storage: TEE_OpenPersistentObject, the table of sharing).
#![tactic(auto)]

ghost use Rattle.std.specs.Prelude.{◌≡◌};
ghost use Rattle.std.specs.List.{list_all};
ghost use Rattle.tee_types.specs.Rights.{are_compatible};

mod laws;

pub use laws::{
    handles_without_rights_are_compatible, sharing_is_symmetric, write_meta_is_exclusive,
};
use tee_types::Flags;

/// Whether handles with these flags may be open on one object side by side: neither has WRITE_META; if either has
/// READ, both have SHARE_READ; and if either has WRITE, both have SHARE_WRITE.
pub fn compatible(a: Flags, b: Flags) -> bool
    ensures { result ≡ are_compatible a b }
{
    a.is_compatible_with(b)
}

/// Whether a new handle with these flags may be opened on an object beside the handles that are open on it.
pub fn may_open(new: Flags, held: &[Flags]) -> bool
    ensures { result ≡ list_all (are_compatible new) held.now }
{
    held.iter().all(|flags| compatible(new, *flags))
}

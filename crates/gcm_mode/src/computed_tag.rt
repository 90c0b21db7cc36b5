// A tag that was computed of a ciphertext that has another one.

use byte_fields::equal_bytes;
use std::fmt;
use std::marker::Model;

/// The tag that was computed of a ciphertext whose given tag is another one, or nothing where it was
/// taken out. Contracts see its bytes.
///
/// Who altered the ciphertext must never learn it: the given tag XOR the computed one is a multiple of
/// a power of the hash subkey, and the subkey makes any text pass under the given tag. So `Debug`
/// shows no byte of it.
#[derive(Clone, Copy)]
pub struct ComputedTag {
    tag: Option<[u8; 16]>,
}

impl Model for ComputedTag {
    ghost use Rattle.std.specs.Prelude.{ℕ, List};
    ghost use Rattle.gcm_mode.specs.ComputedTags.{IsTag, tag_bytes, tag_of_bytes, tag_of_bytes-tag_bytes};

    ghost Value = { List ℕ };

    ghost view = { λ t. tag_bytes t.tag };

    ghost invariant = { λ t. IsTag t.tag };

    ghost inverse = { λ bytes. record { tag = tag_of_bytes bytes } };

    ghost inverse_ok = { λ t h i. record { tag = tag_of_bytes-tag_bytes t.tag h i } };
}

impl ComputedTag {
    ghost use Rattle.std.specs.Prelude.{◌≡◌, [], MatchOption};

    pub(crate) fn new(tag: [u8; 16]) -> ComputedTag
        ensures { result ≡ tag }
    {
        ComputedTag { tag: Some(tag) }
    }

    /// A tag that was taken out.
    pub fn none() -> ComputedTag
        ensures { result ≡ [] }
    {
        ComputedTag { tag: None }
    }

    /// The tag, for the text of a run over simulated devices, whose keys everyone knows. It goes into no
    /// log, and to no one who can write the file.
    pub fn of_simulated_store(&self) -> Option<[u8; 16]>
        ensures { MatchOption result (self.now ≡ []) (λ tag. self.now ≡ tag) }
    {
        self.tag
    }
}

impl PartialEq for ComputedTag {
    ghost use Rattle.std.specs.Prelude.{nat_eq};
    ghost use Rattle.std.specs.Cmp.Lexicographic.{pointwise, nat_list_eq_equiv};
    ghost use Rattle.std.specs.Cmp.{partial_equiv_from_equiv};

    ghost eq = { pointwise nat_eq };

    ghost laws = { partial_equiv_from_equiv nat_list_eq_equiv };

    fn eq(&self, other: &ComputedTag) -> bool {
        match (&self.tag, &other.tag) {
            (Some(one), Some(other)) => equal_bytes(one, other),
            (None, None) => true,
            _ => false,
        }
    }
}

impl Eq for ComputedTag {
    ghost use Rattle.std.specs.Cmp.Lexicographic.{nat_list_eq_equiv};

    ghost laws = { nat_list_eq_equiv };
}

impl fmt::Debug for ComputedTag {
    fn fmt<W: fmt::Write>(&self, f: &mut fmt::Formatter<W>) -> fmt::Result {
        f.write_str("ComputedTag")
    }
}

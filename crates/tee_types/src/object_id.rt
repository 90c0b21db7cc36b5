//! The identifier of an object.

use crate::limits::MAX_IDENTIFIER;
use std::cmp::Ordering;
use std::marker::Model;

/// These bytes are no identifier: there are none, or more than 64.
#[derive(Clone, Copy, Debug, PartialEq, Eq)]
pub struct BadId {
    /// How many bytes there are.
    pub length: usize,
}

/// The identifier of an object among those of its application, 1 to 64 bytes. A contract sees them as a list.
/// Identifiers are ordered by bytes, a prefix first.
#[derive(Clone, Copy, Debug)]
pub struct ObjectId {
    // the bytes of the identifier, then zero bytes
    bytes: [u8; MAX_IDENTIFIER],
    used: usize,
}

impl Model for ObjectId {
    ghost use Rattle.std.specs.Prelude.{ℕ, List, length, take};
    ghost use Rattle.tee_types.specs.Identifier.{IsPadded, padded, padded-take, length-take_padded};

    ghost Value = { List ℕ };

    ghost view = { λ a. take a.used a.bytes };

    ghost invariant = { λ a. IsPadded a.bytes a.used };

    ghost inverse = { λ id. record { bytes = padded id; used = length id } };

    ghost inverse_ok = { λ a h i. record { bytes = padded-take a.bytes a.used h i; used = length-take_padded a.bytes a.used h i } };
}

impl ObjectId {
    ghost use Rattle.std.specs.Prelude.{◌≡◌, ◌↔◌, length, IsOk, IfOk, IfErr};
    ghost use Rattle.tee_types.specs.Identifier.{IsIdentifier};

    /// The identifier of these bytes. `BadId` comes exactly where there are none or more than 64.
    pub fn new(bytes: &[u8]) -> Result<ObjectId, BadId>
        ensures fits { IsOk result ↔ IsIdentifier bytes.now }
        ensures ok { IfOk result (λ id. id ≡ bytes.now) }
        ensures err { IfErr result (λ bad. bad.length ≡ length bytes.now) }
    {
        let length = bytes.len();
        if length == 0 || MAX_IDENTIFIER < length {
            return Err(BadId { length });
        }
        let mut padded = [0; MAX_IDENTIFIER];
        padded[..length].copy_from_slice(bytes);
        Ok(ObjectId {
            bytes: padded,
            used: length,
        })
    }

    /// The bytes of the identifier, 1 to 64.
    pub fn bytes(&self) -> &[u8]
        ensures value { result.now ≡ self.now }
        ensures fits { IsIdentifier result.now }
    {
        &self.bytes[..self.used]
    }
}

impl PartialEq for ObjectId {
    ghost use Rattle.std.specs.Prelude.{nat_eq};
    ghost use Rattle.std.specs.Cmp.Lexicographic.{pointwise, nat_list_eq_equiv};
    ghost use Rattle.std.specs.Cmp.{partial_equiv_from_equiv};

    ghost eq = { pointwise nat_eq };

    ghost laws = { partial_equiv_from_equiv nat_list_eq_equiv };

    fn eq(&self, other: &ObjectId) -> bool {
        self.bytes() == other.bytes()
    }
}

impl Eq for ObjectId {
    ghost use Rattle.std.specs.Cmp.Lexicographic.{nat_list_eq_equiv};

    ghost laws = { nat_list_eq_equiv };
}

impl PartialOrd for ObjectId {
    ghost use Rattle.std.specs.Prelude.{Some};
    ghost use Rattle.std.specs.Cmp.Lexicographic.{texts_po};
    ghost use Rattle.tee_types.specs.Identifier.{bytes_cmp};

    ghost partial_cmp = { λ x y. Some (bytes_cmp x y) };

    ghost laws = { texts_po };

    fn partial_cmp(&self, other: &ObjectId) -> Option<Ordering> {
        Some(self.cmp(other))
    }
}

impl Ord for ObjectId {
    ghost use Rattle.std.specs.Prelude.{refl};
    ghost use Rattle.std.specs.Cmp.Lexicographic.{nat_list_cmp_total, texts_ties};
    ghost use Rattle.tee_types.specs.Identifier.{bytes_cmp};

    ghost cmp = { bytes_cmp };

    ghost total = { nat_list_cmp_total };

    ghost matches_partial_cmp = { λ x y. refl };

    ghost matches_eq = { texts_ties };

    fn cmp(&self, other: &ObjectId) -> Ordering {
        self.bytes().cmp(other.bytes())
    }
}

//! The name of an object, as a list of names gives it.

use std::cmp::Ordering;
use tee_types::{AppId, ObjectId};

/// The name of an object, and how many bytes it has.
/// Names are ordered by the bytes of the application, then by those of the identifier, then by the size.
#[derive(Clone, Copy, Debug)]
pub struct CardName {
    /// The application that the object belongs to.
    pub app: AppId,
    /// The object's identifier there.
    pub id: ObjectId,
    /// How many bytes it has, at most 16,384.
    pub size: u16,
}

impl PartialEq for CardName {
    ghost use Rattle.std.proofs.Common.{rules};
    ghost use Rattle.std.specs.Cmp.Rules.{comparing};
    ghost use Rattle.card_maps.specs.NameOrder.{card_name_eq};

    ghost eq = { card_name_eq };

    ghost laws = { Prim.search (comparing, rules) };

    fn eq(&self, other: &CardName) -> bool {
        self.app == other.app && self.id == other.id && self.size == other.size
    }
}

impl Eq for CardName {
    ghost use Rattle.std.proofs.Common.{rules};
    ghost use Rattle.std.specs.Cmp.Rules.{comparing};

    ghost laws = { Prim.search (comparing, rules) };
}

impl PartialOrd for CardName {
    ghost use Rattle.std.proofs.Common.{rules};
    ghost use Rattle.std.specs.Cmp.Rules.{comparing};
    ghost use Rattle.std.specs.Cmp.{partial_order_from_own_ties};
    ghost use Rattle.std.specs.Ordering.{as_partial_cmp};
    ghost use Rattle.card_maps.specs.NameOrder.{card_name_cmp};

    ghost partial_cmp = { as_partial_cmp card_name_cmp };

    ghost laws = { partial_order_from_own_ties (Prim.search (comparing, rules)) (Prim.search (comparing, rules)) };

    fn partial_cmp(&self, other: &CardName) -> Option<Ordering> {
        Some(self.cmp(other))
    }
}

impl Ord for CardName {
    ghost use Rattle.std.proofs.Common.{rules};
    ghost use Rattle.std.specs.Cmp.Rules.{comparing};
    ghost use Rattle.card_maps.specs.NameOrder.{card_name_cmp};

    ghost cmp = { card_name_cmp };

    ghost total = { Prim.search (comparing, rules) };

    ghost matches_partial_cmp = { Prim.search (comparing, rules) };

    ghost matches_eq = { Prim.search (comparing, rules) };

    fn cmp(&self, other: &CardName) -> Ordering {
        self.app
            .cmp(&other.app)
            .then(self.id.cmp(&other.id))
            .then(self.size.cmp(&other.size))
    }
}

//! Names of objects in the whole store.

use std::cmp::Ordering;
use tee_types::{AppId, ObjectId};

/// The name of an object: its application and its identifier there.
/// Names are ordered by the bytes of the application, then by those of the identifier.
#[derive(Clone, Copy, Debug)]
pub struct ObjectName {
    /// The application that the object belongs to.
    pub app: AppId,
    /// The object's identifier there.
    pub id: ObjectId,
}

impl PartialEq for ObjectName {
    ghost use Rattle.std.proofs.Common.{rules};
    ghost use Rattle.std.specs.Cmp.Rules.{comparing};
    ghost use Rattle.store_model.specs.Name.{name_eq};

    ghost eq = { name_eq };

    ghost laws = { Prim.search (comparing, rules) };

    fn eq(&self, other: &ObjectName) -> bool {
        self.app == other.app && self.id == other.id
    }
}

impl Eq for ObjectName {
    ghost use Rattle.std.proofs.Common.{rules};
    ghost use Rattle.std.specs.Cmp.Rules.{comparing};

    ghost laws = { Prim.search (comparing, rules) };
}

impl PartialOrd for ObjectName {
    ghost use Rattle.std.proofs.Common.{rules};
    ghost use Rattle.std.specs.Cmp.Rules.{comparing};
    ghost use Rattle.std.specs.Cmp.{partial_order_from_own_ties};
    ghost use Rattle.std.specs.Ordering.{as_partial_cmp};
    ghost use Rattle.store_model.specs.Name.{name_cmp};

    ghost partial_cmp = { as_partial_cmp name_cmp };

    ghost laws = { partial_order_from_own_ties (Prim.search (comparing, rules)) (Prim.search (comparing, rules)) };

    fn partial_cmp(&self, other: &ObjectName) -> Option<Ordering> {
        Some(self.cmp(other))
    }
}

impl Ord for ObjectName {
    ghost use Rattle.std.proofs.Common.{rules};
    ghost use Rattle.std.specs.Cmp.Rules.{comparing};
    ghost use Rattle.store_model.specs.Name.{name_cmp};

    ghost cmp = { name_cmp };

    ghost total = { Prim.search (comparing, rules) };

    ghost matches_partial_cmp = { Prim.search (comparing, rules) };

    ghost matches_eq = { Prim.search (comparing, rules) };

    fn cmp(&self, other: &ObjectName) -> Ordering {
        self.app.cmp(&other.app).then(self.id.cmp(&other.id))
    }
}

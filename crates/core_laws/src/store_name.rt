//! The name of a store.

use std::marker::Brand;

/// Stands for the store of one phase: one history table, its mount, its devices and its applications. What lies behind different locks
/// is known to belong together by it.
pub trait StoreName {
    ghost use Rattle.core_laws.specs.Stores.{Store};

    ghost store: { Store };
}

impl StoreName for Brand {
    ghost use Rattle.core_laws.specs.Stores.{no_store};

    ghost store = { no_store };
}

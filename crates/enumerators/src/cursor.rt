//! What an enumerator has given, and why a call on it is refused.

use std::alloc::AllocFailed;
use tee_types::ObjectId;

/// How far an enumerator has come. It gives identifiers by rising bytes.
#[derive(Clone, Copy, Debug, PartialEq, Eq)]
pub enum Cursor {
    /// Not started.
    Idle,
    /// Started, and nothing was given yet.
    First,
    /// Started, and this identifier was the last one given.
    After(ObjectId),
}

/// Why a call on the enumerators is refused. Nothing changed.
#[derive(Clone, Copy, Debug, PartialEq, Eq)]
pub enum EnumFault {
    /// There are as many live enumerators as there may be, or all numbers were given.
    TooMany,
    /// No live enumerator has that number.
    BadEnumerator,
    /// There is no memory for one more.
    NoMemory,
}

impl<T: Drop> From<AllocFailed<T>> for EnumFault {
    ghost use Rattle.std.specs.Prelude.{◌≡◌};
    ghost use Rattle.enumerators.specs.declared.cursor.EnumFault.TheVariants.{NoMemory};

    ghost from_gives = { λ _ fault. fault ≡ NoMemory };

    fn from(_refused: AllocFailed<T>) -> EnumFault {
        EnumFault::NoMemory
    }
}

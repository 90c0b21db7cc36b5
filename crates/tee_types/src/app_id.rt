//! The name of an application.

use std::marker::Model;
use uuid::Uuid;

/// The name of an application, its UUID. A contract sees its 16 bytes, in the order of the text form.
/// Applications are ordered by these bytes.
#[derive(Clone, Copy, Debug, PartialEq, Eq, PartialOrd, Ord)]
pub struct AppId(Uuid);

impl Model for AppId {
    ghost use Rattle.std.specs.Prelude.{ℕ, List};

    ghost Value = { List ℕ };

    ghost view = { λ a. a.0 };

    ghost inverse = { λ bytes. record { 0 = bytes } };
}

impl AppId {
    ghost use Rattle.std.specs.Prelude.{◌≡◌};

    /// The application of this UUID.
    pub fn from_uuid(uuid: Uuid) -> AppId
        ensures { result ≡ uuid }
    {
        AppId(uuid)
    }

    /// The 16 bytes of the UUID, as its text form has them from left to right.
    pub fn bytes(&self) -> [u8; 16]
        ensures { result ≡ self.now }
    {
        self.0.into_bytes()
    }
}

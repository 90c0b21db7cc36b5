// A key that is neither copied nor shown by chance.

ghost use Rattle.std.specs.Prelude.{◌≡◌};

use std::marker::Model;

/// A key of 32 bytes that lives as long as a store is served: the storage key of a device, or the key that a host shares
/// with a card. It has no `Copy` and no `Debug`: who wants a second one says so.
///
/// In a contract a `SecretKey` is its bytes.
#[derive(Drop)]
pub struct SecretKey {
    bytes: [u8; 32],
}

impl Model for SecretKey {
    ghost use Rattle.std.specs.Prelude.{ℕ, List};

    ghost Value = { List ℕ };

    ghost view = { λ key. key.bytes };
}

impl SecretKey {
    /// The key of these bytes.
    pub fn new(bytes: [u8; 32]) -> SecretKey
        ensures { result ≡ bytes }
    {
        SecretKey { bytes }
    }

    /// A second one of the same bytes.
    pub fn copy(&self) -> SecretKey
        ensures { result ≡ self.now }
    {
        SecretKey { bytes: self.bytes }
    }

    /// Its bytes.
    pub fn bytes(&self) -> &[u8; 32]
        ensures { result.now ≡ self.now }
    {
        &self.bytes
    }
}

//! HMAC with SHA-256 (RFC 2104), and the keys that a device derives from its hardware unique key.
//!
//! All keys and texts are bytes in order; a MAC or a derived key has 32 bytes. SHA-256 is the crate
//! `sha2`, whose word `sha256` the definitions cite.
#![tactic(auto)]

ghost use Rattle.std.specs.Prelude.{◌≡◌, ◌≤◌, ◌^◌, ◌-◌, ◌++◌, codes, length, replicate};
ghost use Rattle.hmac_keys.specs.Hmac.{block_key, hmac, xor_each};
ghost use Rattle.hmac_keys.specs.KeyTable.{dir_tsk, rpmb_key, ssk, tsk};
ghost use Rattle.sha2.specs.Sha256.{sha256};

pub use byte_fields::wipe;
pub use secret_key::SecretKey;
use sha2::{Digest, Sha256};

mod secret_key;

// The length of a block of SHA-256 in bytes.
const BLOCK: usize = 64;

// The bytes of section 2 of RFC 2104 that make two keys out of one.
const INNER_PAD: u8 = 0x36;

const OUTER_PAD: u8 = 0x5c;

// What the text of SSK ends with, and the text of the frame key.
const SSK_LABEL: &[u8; 19] = b"trusted storage key";

const RPMB_LABEL: &[u8; 8] = b"RPMB key";

/// What a device has from its maker: the hardware unique key, and the chip's identity. It has no `Copy` and no `Debug`: who
/// wants a second one says so.
#[derive(Drop)]
pub struct Keys {
    pub huk: [u8; 16],
    pub chip: [u8; 32],
}

impl Keys {
    /// The same keys once more.
    pub fn copy(&self) -> Keys
        ensures { result ≡ self.now }
    {
        Keys {
            huk: self.huk,
            chip: self.chip,
        }
    }
}

// A part of a block, filled with zero bytes.
fn filled(part: &[u8]) -> [u8; BLOCK]
    requires { length part.now ≤ 64 }
    ensures { result ≡ part.now ++ replicate (64 - length part.now) 0 }
{
    let mut block = [0; BLOCK];
    block[..part.len()].copy_from_slice(part);
    block
}

#[tactic(auto, using(crate::proofs::BlockKeys::block_key_long, crate::proofs::BlockKeys::block_key_short))]
fn block_key(key: &[u8]) -> [u8; BLOCK]
    ensures { result ≡ block_key key.now }
{
    if key.len() > BLOCK {
        filled(&Sha256::digest(key))
    } else {
        filled(key)
    }
}

fn xor_each(pad: u8, block: &[u8; BLOCK]) -> [u8; BLOCK]
    ensures { result ≡ xor_each pad block.now }
{
    let mut padded = *block;
    for byte in padded.iter_mut() {
        *byte ^= pad;
    }
    padded
}

// The digest of two pieces, one after the other.
fn digest_of_two(first: &[u8], second: &[u8]) -> [u8; 32]
    ensures { result ≡ sha256 (first.now ++ second.now) }
{
    let mut hasher = Sha256::new();
    hasher.update(first);
    hasher.update(second);
    hasher.finalize()
}

/// HMAC-SHA-256 of a text under a key of any length (RFC 2104, section 2). A key of more than 64
/// bytes is hashed first. The text has at most 2^24 bytes.
pub fn hmac(key: &[u8], text: &[u8]) -> [u8; 32]
    requires { length text.now ≤ 2 ^ 24 }
    ensures { result ≡ hmac key.now text.now }
{
    let block = block_key(key);
    let inner = digest_of_two(&xor_each(INNER_PAD, &block), text);
    digest_of_two(&xor_each(OUTER_PAD, &block), &inner)
}

// The chip's identity and the text after it.
fn ssk_text(chip: &[u8; 32]) -> [u8; 51]
    ensures { result ≡ chip.now ++ codes "trusted storage key" }
{
    let mut text = [0; 51];
    text[..32].copy_from_slice(chip);
    text[32..].copy_from_slice(SSK_LABEL);
    text
}

/// SSK, the secure storage key of the device.
pub fn ssk(k: &Keys) -> SecretKey
    ensures { result ≡ ssk k.now.huk k.now.chip }
{
    SecretKey::new(hmac(&k.huk, &ssk_text(&k.chip)))
}

/// TSK, the storage key of the trusted application whose UUID has the bytes `app`.
pub fn tsk(ssk: &SecretKey, app: &[u8; 16]) -> [u8; 32]
    ensures { result ≡ tsk ssk.now app.now }
{
    hmac(ssk.bytes(), app)
}

/// The storage key of the directory.
pub fn dir_tsk(ssk: &SecretKey) -> [u8; 32]
    ensures { result ≡ dir_tsk ssk.now }
{
    hmac(ssk.bytes(), &[0])
}

/// The key that authenticates frames of the replay-protected memory block (RPMB).
pub fn rpmb_key(k: &Keys) -> SecretKey
    ensures { result ≡ rpmb_key k.now.huk }
{
    SecretKey::new(hmac(&k.huk, RPMB_LABEL))
}

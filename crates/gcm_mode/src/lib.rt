//! Galois/Counter Mode with AES-128 (NIST SP 800-38D): authenticated encryption with additional data.
//!
//! The initialization vector has any length but 0, and each part has at most 2^24 bytes. A tag has 16
//! bytes. Texts are enciphered and deciphered in place.
#![tactic(auto)]

ghost use Rattle.std.specs.Prelude.{◌≡◌, ◌≢◌, List, ◌≤◌, ◌^◌, ℕ, length, MatchResult};
ghost use Rattle.aes_block.specs.Cipher.{cipher};
ghost use Rattle.gcm_mode.specs.Gcm.{gcm_tag, gcm_text};

use aes_block::Aes128;
use byte_fields::equal_bytes;
pub use computed_tag::ComputedTag;
use counter_mode::{apply_stream, inc32};
use ghash_field::Ghash;
use tags::{hash_subkey, pre_counter_block, tag_of};

mod computed_tag;
mod counter_mode;
mod hash_input;
mod tags;

/// The tag that was given is not the tag of the additional data and the ciphertext.
#[derive(Clone, Copy, PartialEq, Eq, Debug)]
pub struct BadTag {
    /// The tag that was given.
    pub want: [u8; 16],
    /// The tag that was computed. It is shown to nobody.
    pub found: ComputedTag,
}

/// Enciphers `text` in place, and gives the tag of the additional data and the ciphertext (7.1).
pub fn seal(key: &Aes128, iv: &[u8], aad: &[u8], text: &mut [u8]) -> [u8; 16]
    requires iv_low { 1 ≤ length iv.now }
    requires iv_high { length iv.now ≤ 2 ^ 24 }
    requires aad { length aad.now ≤ 2 ^ 24 }
    requires text { length text.old ≤ 2 ^ 24 }
    ensures text { text.new ≡ gcm_text (cipher key.now) iv.now text.old }
    ensures tag { result ≡ gcm_tag (cipher key.now) iv.now aad.now text.new }
{
    let mut hash = Ghash::of_zero();
    hash.begin(hash_subkey(key));
    let first = pre_counter_block(&mut hash, iv);
    let mut counter = first;
    inc32(&mut counter);
    apply_stream(key, &counter, text);
    tag_of(key, &mut hash, &first, aad, text)
}

/// Deciphers `text` in place where `tag` is the tag of the additional data and the ciphertext (7.2).
/// Where it is not, `text` stays as it was, and both tags are given, the computed one unreadable.
pub fn open_text(
    key: &Aes128,
    iv: &[u8],
    aad: &[u8],
    text: &mut [u8],
    tag: &[u8; 16],
) -> Result<(), BadTag>
    requires iv_low { 1 ≤ length iv.now }
    requires iv_high { length iv.now ≤ 2 ^ 24 }
    requires aad { length aad.now ≤ 2 ^ 24 }
    requires text { length text.old ≤ 2 ^ 24 }
    ensures tags { let found = gcm_tag (cipher key.now) iv.now aad.now text.old in MatchResult result
        (λ _. (tag.now ≡ found) × (text.new ≡ gcm_text (cipher key.now) iv.now text.old))
        (λ bad. (tag.now ≢ found) × (text.new ≡ text.old) × (bad ≡ record { want = tag.now; found = found })) }
    // What `seal` made of a plaintext opens to that plaintext.
    ensures undoes_seal { (plain : List ℕ) → text.old ≡ gcm_text (cipher key.now) iv.now plain
        → tag.now ≡ gcm_tag (cipher key.now) iv.now aad.now text.old → (result ≡ Ok tt) × (text.new ≡ plain) }
{
    let mut hash = Ghash::of_zero();
    hash.begin(hash_subkey(key));
    let first = pre_counter_block(&mut hash, iv);
    let found = tag_of(key, &mut hash, &first, aad, text);
    if !equal_bytes(&found, tag) {
        return Err(BadTag {
            want: *tag,
            found: ComputedTag::new(found),
        });
    }
    let mut counter = first;
    inc32(&mut counter);
    apply_stream(key, &counter, text);
    Ok(())
}

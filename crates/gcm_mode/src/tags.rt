// The hash subkey, the pre-counter block and the tag (SP 800-38D, 7.1).

ghost use Rattle.std.specs.Prelude.{◌≡◌, List, [], ◌^◌, ◌<◌, ℕ, length};
ghost use Rattle.aes_block.specs.Cipher.{cipher};
ghost use Rattle.ghash_field.specs.Hasher.{Holds};
ghost use Rattle.gcm_mode.specs.Gcm.{gcm_tag, hash_subkey, pre_counter_block};

use crate::counter_mode::apply_stream;
use crate::hash_input::{absorb, lengths};
use aes_block::Aes128;
use ghash_field::Ghash;

pub(crate) fn hash_subkey(key: &Aes128) -> u128
    ensures { result ≡ hash_subkey (cipher key.now) }
{
    // Eight blocks at once take less time than `encrypt` takes for one.
    let mut blocks = [[0; 16]; 8];
    key.encrypt_eight(&mut blocks);
    u128::from_be_bytes(blocks[0])
}

/// The pre-counter block. The hasher begins and ends with no block.
pub(crate) fn pre_counter_block(hash: &mut Ghash, iv: &[u8]) -> [u8; 16]
    requires { length iv.now < 2 ^ 60 }
    ensures block { (e : List ℕ → List ℕ) → Holds hash.old (hash_subkey e) [] → result ≡ pre_counter_block e iv.now }
    ensures hash { (h : ℕ) → Holds hash.old h [] → Holds hash.new h [] }
{
    if iv.len() == 12 {
        let mut block = [0u8; 16];
        block[..12].copy_from_slice(iv);
        block[15] = 1;
        return block;
    }
    absorb(hash, iv);
    hash.update(&lengths(0, iv.len()));
    let block = hash.finish();
    hash.restart();
    block
}

/// The tag of the additional data and the ciphertext, from the pre-counter block `first`, by a hasher
/// that begins with no block.
pub(crate) fn tag_of(
    key: &Aes128,
    hash: &mut Ghash,
    first: &[u8; 16],
    aad: &[u8],
    text: &[u8],
) -> [u8; 16]
    requires aad { length aad.now < 2 ^ 60 }
    requires text { length text.now < 2 ^ 60 }
    ensures { (iv : List ℕ) → Holds hash.old (hash_subkey (cipher key.now)) [] → first.now ≡ pre_counter_block (cipher key.now) iv
        → result ≡ gcm_tag (cipher key.now) iv aad.now text.now }
{
    absorb(hash, aad);
    absorb(hash, text);
    hash.update(&lengths(aad.len(), text.len()));
    let mut tag = hash.finish();
    apply_stream(key, first, &mut tag);
    tag
}

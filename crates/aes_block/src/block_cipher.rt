ghost use Rattle.std.specs.Prelude.{◌≡◌, ℕ, ◌<◌, List, [], length, slice_index_or};
ghost use Rattle.aes_block.specs.Cipher.{cipher};
ghost use Rattle.aes_block.specs.InverseCipher.{inv_cipher};
ghost use Rattle.aes_block.specs.State.{IsBytes};

use crate::inverse_planes::{inv_mix_planes, inv_shift_planes, inv_sub_planes};
use crate::key_schedule::{ROUND_CONSTANTS, next_round_key};
use crate::plane_steps::{add_key, mix_planes, shift_planes};
use crate::planes::{bytes_of, key_planes, pack, planes_of, unpack};
use crate::round_key::RoundKey;
use crate::s_box_planes::sub_planes;
use std::marker::Model;

/// AES-128 (FIPS 197) under one key, which is expanded once, to the keys of its eleven rounds (5.2).
/// Each is kept as planes that have it in each of eight blocks.
///
/// In a contract an `Aes128` is its key, the list of 16 bytes.
#[derive(Drop)]
pub struct Aes128 {
    keys: [RoundKey; 11],
}

impl Model for Aes128 {
    ghost use Rattle.std.specs.Prelude.{ℕ, List};
    ghost use Rattle.aes_block.specs.RoundKeys.{AreRoundKeys, first_key};

    ghost Value = { List ℕ };

    ghost view = { λ a. first_key a.keys };

    ghost invariant = { λ a. AreRoundKeys a.keys };
}

impl Aes128 {
    /// The cipher under `key`, with the key expanded.
    pub fn new(key: &[u8; 16]) -> Aes128
        ensures { result ≡ key.now }
    {
        let first = key_planes(key);
        let mut keys = [RoundKey { planes: first }; 11];
        let mut x = planes_of(&first);
        'expand: for n in 0..10 {
            let next = next_round_key(x, ROUND_CONSTANTS[n]);
            keys[n + 1] = RoundKey {
                planes: bytes_of(next),
            };
            x = next;
        }
        Aes128 { keys }
    }

    /// Enciphers `block` in place (FIPS 197, 5.1), with no table: it is the first of eight blocks.
    pub fn encrypt(&self, block: &mut [u8; 16])
        ensures { block.new ≡ cipher self.now block.old }
    {
        let mut blocks = [[0; 16]; 8];
        blocks[0] = *block;
        self.encrypt_eight(&mut blocks);
        *block = blocks[0];
    }

    /// Deciphers `block` in place (FIPS 197, 5.3), with no table. Of a block that `encrypt` made
    /// under the same key, this is the block that `encrypt` was given.
    pub fn decrypt(&self, block: &mut [u8; 16])
        ensures value { block.new ≡ inv_cipher self.now block.old }
        ensures undoes { (b : List ℕ) → IsBytes b → length b ≡ 16 → block.old ≡ cipher self.now b → block.new ≡ b }
    {
        let mut blocks = [[0; 16]; 8];
        blocks[0] = *block;
        self.decrypt_eight(&mut blocks);
        *block = blocks[0];
    }

    /// Enciphers each of the eight blocks in place, as `encrypt` does, but all at once in vectors,
    /// and with no table.
    pub fn encrypt_eight(&self, blocks: &mut [[u8; 16]; 8])
        ensures { (t : ℕ) → t < 8 → slice_index_or blocks.new t [] ≡ cipher self.now (slice_index_or blocks.old t []) }
    {
        let mut x = add_key(pack(blocks), &self.keys[0].planes);
        'eight_rounds: for n in 0..9 {
            let next = add_key(
                mix_planes(shift_planes(sub_planes(x))),
                &self.keys[n + 1].planes,
            );
            x = next;
        }
        *blocks = unpack(add_key(shift_planes(sub_planes(x)), &self.keys[10].planes));
    }

    // Deciphers each of the eight blocks in place.
    fn decrypt_eight(&self, blocks: &mut [[u8; 16]; 8])
        ensures value { (t : ℕ) → t < 8 → slice_index_or blocks.new t [] ≡ inv_cipher self.now (slice_index_or blocks.old t []) }
        ensures undoes { (t : ℕ) (b : List ℕ) → t < 8 → IsBytes b → length b ≡ 16 → slice_index_or blocks.old t [] ≡ cipher self.now b → slice_index_or blocks.new t [] ≡ b }
    {
        let mut x = add_key(pack(blocks), &self.keys[10].planes);
        'inv_rounds: for n in 0..9 {
            let next = inv_mix_planes(add_key(
                inv_sub_planes(inv_shift_planes(x)),
                &self.keys[9 - n].planes,
            ));
            x = next;
        }
        *blocks = unpack(add_key(inv_sub_planes(inv_shift_planes(x)), &self.keys[0].planes));
    }
}

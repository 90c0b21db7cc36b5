// The kinds of work that are measured.

use aes_block::Aes128;
use gcm_mode::{open_text, seal};
use ghash_field::Ghash;
use hmac_keys::hmac;

const KEY: [u8; 16] = [0, 1, 2, 3, 4, 5, 6, 7, 8, 9, 10, 11, 12, 13, 14, 15];

// The lengths of a block's initialization vector and of its additional data in a file.
const IV: [u8; 16] = [0x5a; 16];

const AAD: [u8; 20] = [0xa5; 20];

/// How many bytes a round of any work takes in.
pub const BYTES_A_ROUND: u32 = 4096;

/// A kind of work. Each round works on what the round before left.
#[derive(Clone, Copy)]
pub enum Work {
    /// 256 blocks, enciphered one by one.
    Blocks,
    /// 256 blocks, enciphered by eights.
    Eights,
    /// GHASH of 256 blocks.
    Hash,
    /// A text of 4,096 bytes, sealed.
    Seal,
    /// A text of 4,096 bytes, opened.
    Open,
    /// 64 MACs of 64 bytes.
    ShortMac,
    /// A MAC of 4,096 bytes.
    LongMac,
}

impl Work {
    pub const ALL: [Work; 7] = [
        Work::Blocks,
        Work::Eights,
        Work::Hash,
        Work::Seal,
        Work::Open,
        Work::ShortMac,
        Work::LongMac,
    ];

    pub fn name(self) -> &'static str {
        match self {
            Work::Blocks => "aes",
            Work::Eights => "aes-eight",
            Work::Hash => "ghash",
            Work::Seal => "seal-4096",
            Work::Open => "open-4096",
            Work::ShortMac => "hmac-64",
            Work::LongMac => "hmac-4096",
        }
    }

    /// A digest of what so many rounds leave.
    pub fn digest_after(self, rounds: u32) -> [u8; 32] {
        match self {
            Work::Blocks => blocks_after(rounds),
            Work::Eights => eights_after(rounds),
            Work::Hash => hash_after(rounds),
            Work::Seal => seal_after(rounds),
            Work::Open => open_after(rounds),
            Work::ShortMac => short_mac_after(rounds),
            Work::LongMac => long_mac_after(rounds),
        }
    }
}

// A digest of the blocks: their MAC.
fn digest_of(blocks: &[[u8; 16]; 8]) -> [u8; 32] {
    let mut bytes = [0; 128];
    for i in 0..8 {
        bytes[16 * i..16 * i + 16].copy_from_slice(&blocks[i]);
    }
    hmac(&KEY, &bytes)
}

fn blocks_after(rounds: u32) -> [u8; 32] {
    let key = Aes128::new(&KEY);
    let mut blocks = [KEY; 8];
    for _ in 0..rounds {
        for _ in 0..32u32 {
            for i in 0..8 {
                key.encrypt(&mut blocks[i]);
            }
        }
    }
    digest_of(&blocks)
}

fn eights_after(rounds: u32) -> [u8; 32] {
    let key = Aes128::new(&KEY);
    let mut blocks = [KEY; 8];
    for _ in 0..rounds {
        for _ in 0..32u32 {
            key.encrypt_eight(&mut blocks);
        }
    }
    digest_of(&blocks)
}

fn hash_after(rounds: u32) -> [u8; 32] {
    let mut block = KEY;
    for _ in 0..rounds {
        let mut hash = Ghash::new(u128::from_be_bytes(KEY));
        for _ in 0..256u32 {
            hash.update(&block);
        }
        block = hash.finish();
    }
    hmac(&KEY, &block)
}

fn seal_after(rounds: u32) -> [u8; 32] {
    let key = Aes128::new(&KEY);
    let mut text = [0; 4096];
    for _ in 0..rounds {
        let tag = seal(&key, &IV, &AAD, &mut text);
        text[..16].copy_from_slice(&tag);
    }
    hmac(&KEY, &text)
}

fn open_after(rounds: u32) -> [u8; 32] {
    let key = Aes128::new(&KEY);
    let mut sealed = [0; 4096];
    let tag = seal(&key, &IV, &AAD, &mut sealed);
    let mut text = sealed;
    let mut opened = 0u32;
    for _ in 0..rounds {
        text = sealed;
        if open_text(&key, &IV, &AAD, &mut text, &tag).is_ok() {
            opened = opened.wrapping_add(1);
        }
    }
    text[..4].copy_from_slice(&opened.to_be_bytes());
    hmac(&KEY, &text)
}

fn short_mac_after(rounds: u32) -> [u8; 32] {
    let mut mac = [0; 32];
    for _ in 0..rounds {
        for _ in 0..64u32 {
            mac = hmac(&mac, &[0x5a; 64]);
        }
    }
    mac
}

fn long_mac_after(rounds: u32) -> [u8; 32] {
    let mut mac = [0; 32];
    for _ in 0..rounds {
        mac = hmac(&mac, &[0x5a; 4096]);
    }
    mac
}

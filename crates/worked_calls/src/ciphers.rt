// Products and hashes of blocks, sealed texts of each length, and digests.

use crate::report::Report;
use aes_block::Aes128;
use gcm_mode::{open_text, seal};
use ghash_field::{Ghash, mul};
use sha2::{Digest, Sha256};

// The fourth test case of AES-128 in the submission of GCM: the hash subkey, the blocks of the
// additional data, the ciphertext and the lengths, and their GHASH.
const SUBKEY: u128 = 0xb83b533708bf535d0aa6e52980d53b78;

const BLOCKS: [u128; 7] = [
    0xfeedfacedeadbeeffeedfacedeadbeef,
    0xabaddad2000000000000000000000000,
    0x42831ec2217774244b7221b784d0d49c,
    0xe3aa212f2c02a4e035c17e2329aca12e,
    0x21d514b25466931c7d8f6a5aac84aa05,
    0x1ba30b396a0aac973d58e09100000000,
    0x00000000000000a000000000000001e0,
];

const HASH: u128 = 0x698e57f70e6ecc7fd9463b7260a9ae5f;

/// GHASH of the blocks, by products alone.
fn hash_by_products() -> u128 {
    let mut sum = 0;
    for block in &BLOCKS {
        sum = mul(sum ^ *block, SUBKEY);
    }
    sum
}

/// Whether the hasher and products give the same for so many blocks.
fn products_agree(length: u32) -> bool {
    let h = mul(SUBKEY, SUBKEY ^ u128::from(length));
    let mut hasher = Ghash::new(h);
    let mut sum = 0;
    for i in 0..length {
        let block = mul(HASH, HASH ^ u128::from(i));
        hasher.update(&block.to_be_bytes());
        sum = mul(sum ^ block, h);
    }
    hasher.finish() == sum.to_be_bytes()
}

/// Of so many lengths, in how many blocks, those where the hasher and products agree.
fn lengths_that_agree() -> u32 {
    let mut agreed = 0u32;
    for length in 0..300 {
        if products_agree(length) {
            agreed = agreed.saturating_add(1);
        }
    }
    agreed
}

fn add_products(report: &mut Report) {
    report.hex(
        "ghash_field: published hash by products",
        &hash_by_products().to_be_bytes(),
    );
    report.line(
        "ghash_field: of 0 to 299 blocks, lengths where the hasher and products agree",
        &lengths_that_agree(),
    );
}

/// FNV-1a of bytes that follow those of `digest`.
fn digest_after(mut digest: u64, bytes: &[u8]) -> u64 {
    for byte in bytes {
        digest = (digest ^ u64::from(*byte)).wrapping_mul(0x100000001b3);
    }
    digest
}

/// The bytes 7 i + 3 modulo 256.
fn pattern_bytes() -> [u8; 300] {
    let mut pattern = [0; 300];
    for (i, byte) in pattern.iter_mut().enumerate() {
        *byte = ((7 * i + 3) % 256) as u8;
    }
    pattern
}

/// The digest behind a text of so many bytes, sealed, and its tag; none where it does not open as it was.
fn sealed_digest(key: &Aes128, digest: u64, length: u16) -> Option<u64> {
    let length = usize::from(length).min(300);
    let pattern = pattern_bytes();
    let iv = &pattern[length % 20..length % 20 + length % 40 + 8];
    let aad = &pattern[..length % 50];
    let mut buffer = pattern;
    let text = &mut buffer[..length];
    let tag = seal(key, iv, aad, text);
    let digest = digest_after(digest_after(digest, text), &tag);
    if open_text(key, iv, aad, text, &tag).is_err() || &*text != &pattern[..length] {
        return None;
    }
    Some(digest)
}

// The digest of all ciphertexts and tags of texts of 0 to 300 bytes, one after the other; none where a text does not open as it was.
fn digest_of_lengths() -> Option<u64> {
    let key = Aes128::new(&0xfeffe9928665731c6d6a8f9467308308u128.to_be_bytes());
    let mut digest = 0xcbf29ce484222325;
    for length in 0..301 {
        digest = sealed_digest(&key, digest, length)?;
    }
    Some(digest)
}

// The expected digest (FNV-1a) is that of what Python's `cryptography` gives.
fn add_lengths(report: &mut Report) {
    match digest_of_lengths() {
        Some(digest) => report.hex(
            "gcm_mode: digest of texts of 0 to 300 bytes, sealed",
            &digest.to_be_bytes(),
        ),
        None => report.line("gcm_mode: do sealed texts open as they were", &false),
    }
}

// The second published case of AES-128, opened with its tag's last bit turned. The tag that was computed must not be in the line.
fn add_refused(report: &mut Report) {
    let key = Aes128::new(&[0; 16]);
    let mut text = 0x0388dace60b6a392f328c2b971b2fe78u128.to_be_bytes();
    let tag = 0xab6e47d42cec13bdf53a67b21257bddeu128.to_be_bytes();
    let answer = open_text(&key, &[0; 12], &[], &mut text, &tag);
    report.line("gcm_mode: a tag with a bit turned", &answer);
    report.hex("gcm_mode: the text that was refused", &text);
}

/// Adds the calls of `ghash_field`, `gcm_mode` and `sha2`.
pub fn add_calls(report: &mut Report) {
    add_products(report);
    add_lengths(report);
    add_refused(report);
    report.hex("sha2: of abc", &Sha256::digest(b"abc"));
    report.hex("sha2: of nothing", &Sha256::digest(b""));
}

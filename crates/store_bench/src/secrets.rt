//! Work on secrets, each kind in a function of its own that stays out of line, done with a hundred keys and texts. What it
//! takes of the processor must not tell one secret from another: `docs/count_secrets` counts the instructions of each call.

use aes_block::{Aes128, unwrap_key, wrap};
use gcm_mode::{open_text, seal};
use hmac_keys::hmac;
use rpmb_frame::verify;

const SECRETS: u8 = 100;

const IV: [u8; 12] = [0x5a; 12];

const AAD: [u8; 20] = [0xa5; 20];

// Secrets of a number: another for each use.
fn secret(number: u8, purpose: u8) -> [u8; 32] {
    hmac(&[number], &[purpose])
}

fn half(secret: &[u8; 32]) -> [u8; 16] {
    let mut key = [0; 16];
    key.copy_from_slice(&secret[..16]);
    key
}

// A text that looks like none of another number.
fn text_of(number: u8) -> [u8; 4096] {
    let mut text = [0; 4096];
    for i in 0..128 {
        text[32 * i..32 * i + 32].copy_from_slice(&hmac(&[number], &[0, i as u8]));
    }
    text
}

#[inline(never)]
fn expanded(key: &[u8; 16]) -> Aes128 {
    Aes128::new(key)
}

#[inline(never)]
fn sealed(key: &Aes128, text: &mut [u8; 4096]) -> [u8; 16] {
    seal(key, &IV, &AAD, text)
}

#[inline(never)]
fn unsealed(key: &Aes128, text: &mut [u8; 4096], tag: &[u8; 16]) -> bool {
    open_text(key, &IV, &AAD, text, tag).is_ok()
}

// A tag that is not the text's: it differs in one bit, of another byte for each number.
#[inline(never)]
fn refused(key: &Aes128, text: &mut [u8; 4096], tag: &[u8; 16]) -> bool {
    open_text(key, &IV, &AAD, text, tag).is_err()
}

#[inline(never)]
fn wrapped(tsk: &[u8; 32], fek: &[u8; 16]) -> [u8; 16] {
    wrap(tsk, fek)
}

#[inline(never)]
fn unwrapped(tsk: &[u8; 32], block: &[u8; 16]) -> [u8; 16] {
    unwrap_key(tsk, block)
}

#[inline(never)]
fn signed(key: &[u8; 32], text: &[u8; 64]) -> [u8; 32] {
    hmac(key, text)
}

// A frame whose MAC is not the key's.
#[inline(never)]
fn unverified(key: &[u8; 32], frame: &[u8; 512]) -> bool {
    verify(frame, key).is_err()
}

// Two digests, one after the other.
fn joined(first: &[u8; 32], second: &[u8; 32]) -> [u8; 64] {
    let mut both = [0; 64];
    both[..32].copy_from_slice(first);
    both[32..].copy_from_slice(second);
    both
}

// A text sealed, refused under a tag that differs in one bit, and opened. What came out, in one value.
fn seal_work(number: u8) -> [u8; 32] {
    let key = expanded(&half(&secret(number, 1)));
    let mut text = text_of(number);
    let tag = sealed(&key, &mut text);
    let mut other = tag;
    other[usize::from(number % 16)] ^= 1;
    let refused = refused(&key, &mut text, &other);
    let opened = unsealed(&key, &mut text, &tag);
    hmac(&tag, &[u8::from(refused), u8::from(opened)])
}

// A key wrapped and unwrapped, a frame refused, a text signed. What came out, in one value.
fn key_work(number: u8) -> [u8; 32] {
    let tsk = secret(number, 2);
    let block = wrapped(&tsk, &half(&secret(number, 3)));
    let fek = unwrapped(&tsk, &block);
    let mut frame = [number; 512];
    frame[196..228].copy_from_slice(&secret(number, 4));
    let refused = unverified(&tsk, &frame);
    signed(
        &tsk,
        &joined(&hmac(&block, &fek), &hmac(&[1], &[u8::from(refused)])),
    )
}

/// What came out of all work with a hundred secrets, in one value.
pub fn digest() -> [u8; 32] {
    let mut digest = [0; 32];
    for number in 0..SECRETS {
        let both = joined(&seal_work(number), &key_work(number));
        digest = hmac(&digest, &both);
    }
    digest
}

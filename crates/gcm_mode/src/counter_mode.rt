// The counter mode (SP 800-38D, 6.5), in place.

ghost use Rattle.std.specs.Prelude.{◌≡◌, ℕ, [], ◌*◌, ◌/◌, ◌%◌, ◌<◌, ◌≤◌, length, bit_xor, slice_index, slice_index_or};
ghost use Rattle.aes_block.specs.Cipher.{cipher};
ghost use Rattle.gcm_mode.specs.CounterMode.{counter_block, gctr, inc32};

use aes_block::Aes128;

// Adds a block of the stream to a part of the text.
fn xor_into(part: &mut [u8], stream: &[u8; 16])
    requires { length part.old ≤ 16 }
    ensures { (k : ℕ) → k < length part.old → slice_index part.new k ≡ bit_xor (slice_index part.old k) (slice_index stream.now k) }
{
    for i in 0..part.len() {
        part[i] ^= stream[i];
    }
}

// Adds eight blocks of the stream to eight blocks of the text.
fn xor_eight(part: &mut [u8], streams: &[[u8; 16]; 8])
    requires { length part.old ≡ 128 }
    ensures { (k : ℕ) → k < 128 → slice_index part.new k ≡ bit_xor (slice_index part.old k) (slice_index (slice_index_or streams.now (k / 16) []) (k % 16)) }
{
    for j in 0..8 {
        xor_into(&mut part[16 * j..16 * j + 16], &streams[j]);
    }
}

pub(crate) fn inc32(block: &mut [u8; 16])
    ensures { block.new ≡ inc32 block.old }
{
    let count = u32::from_be_bytes([block[12], block[13], block[14], block[15]]);
    block[12..].copy_from_slice(&count.wrapping_add(1).to_be_bytes());
}

// The counter block and the seven after it. The counter moves on by eight.
fn next_eight(counter: &mut [u8; 16]) -> [[u8; 16]; 8]
    ensures blocks { (j : ℕ) → j < 8 → slice_index_or result j [] ≡ counter_block counter.old j }
    ensures counter { counter.new ≡ counter_block counter.old 8 }
{
    let mut made = [[0u8; 16]; 8];
    for j in 0..8 {
        made[j] = *counter;
        inc32(counter);
    }
    made
}

// Adds the stream to the last part of the text, which is shorter than eight blocks.
fn xor_last(part: &mut [u8], streams: &[[u8; 16]; 8])
    requires { length part.old < 128 }
    ensures { (k : ℕ) → k < length part.old → slice_index part.new k ≡ bit_xor (slice_index part.old k) (slice_index (slice_index_or streams.now (k / 16) []) (k % 16)) }
{
    for i in 0..part.len() {
        part[i] ^= streams[i / 16][i % 16];
    }
}

// GCTR of the last part of the text. Eight blocks at once take no more time than one does.
fn apply_last(key: &Aes128, first: &[u8; 16], text: &mut [u8])
    requires { length text.old < 128 }
    ensures { text.new ≡ gctr (cipher key.now) first.now text.old }
{
    if text.len() > 0 {
        let mut counter = *first;
        let mut streams = next_eight(&mut counter);
        key.encrypt_eight(&mut streams);
        xor_last(text, &streams);
    }
}

/// GCTR of the text from the counter block `first`, in groups of eight blocks.
pub(crate) fn apply_stream(key: &Aes128, first: &[u8; 16], text: &mut [u8])
    ensures { text.new ≡ gctr (cipher key.now) first.now text.old }
{
    let mut counter = *first;
    let groups = text.len() / 128;
    'groups: for g in 0..groups {
        let mut streams = next_eight(&mut counter);
        key.encrypt_eight(&mut streams);
        xor_eight(&mut text[128 * g..128 * g + 128], &streams);
    }
    apply_last(key, &counter, &mut text[128 * groups..]);
}

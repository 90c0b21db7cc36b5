//! The form of the map block and of an entry.

ghost use Rattle.std.specs.Prelude.{◌≡◌, ℕ, ◌+◌, ◌-◌, ◌*◌, ◌/◌, ◌<◌, ◌≤◌, ◌==◌, ◌&&◌, ◌||◌, not, nat_le, length, slice_index_or, nat_lt, false, true, Some, None, IfNone};
ghost use Rattle.std.specs.List.{list_any};
ghost use Rattle.std.specs.Int.{w16, from_be_bytes};
ghost use Rattle.byte_fields.specs.Field.{field};
ghost use Rattle.store_model.specs.Name.{name_eq};
ghost use Rattle.card_maps.specs.Form.{byte_at, first_wrong, field_fault, front_fault, id_fault, id_length, is_field, is_id_byte, is_live, is_map_byte, map_fault, name_in, or_next, rest_fault, size_in};
ghost use Rattle.card_maps.specs.CardMaps.{has_number};
ghost use Rattle.card_maps.specs.Puts.{bit, live_byte, map_block};
ghost use Rattle.card_maps.specs.Tables.{entry_fault_in, fresh_fault, has_name, is_fresh, named};

use crate::CardEntry;
use crate::entry::{BLOCK, data_blocks};
use byte_fields::field;
use tee_types::{AppId, MAX_IDENTIFIER, ObjectId};
use uuid::Uuid;

/// The greatest number of bytes of an object.
pub const MAX_CARD_BYTES: usize = 16_384;

/// A block is a live entry by the map block.
pub fn is_live(block: &[u8; 256], b: u8) -> bool
    ensures { result ≡ is_live block.now b }
{
    let bits = block[usize::from(b / 8)];
    bits >> (b % 8) & 1 == 1
}

// A byte of the map block has its form.
fn is_map_byte(block: &[u8; 256], at: usize) -> bool
    requires { at < 256 }
    ensures { result ≡ is_map_byte block.now at }
{
    if at == 0 {
        block[0] % 4 == 0
    } else {
        at < 32 || block[at] == 0
    }
}

/// The first byte of the map block that is outside its form.
pub fn map_fault(block: &[u8; 256]) -> Option<u8>
    ensures { result ≡ map_fault block.now }
{
    for at in 0..256usize {
        if !is_map_byte(block, at) {
            return Some(at as u8);
        }
    }
    None
}

/// The map block of these entries.
pub fn map_block(live: &[bool; 256]) -> [u8; 256]
    ensures { result ≡ map_block (λ c. slice_index_or live.now c false) }
{
    let mut block = [0; 256];
    for j in 0..32usize {
        block[j] = live_byte(live, j);
    }
    block
}

fn live_byte(live: &[bool; 256], j: usize) -> u8
    requires { j < 32 }
    ensures { result ≡ live_byte (λ c. slice_index_or live.now c false) j }
{
    let k = 8 * j;
    let low = bit(live[k]) + 2 * bit(live[k + 1]) + 4 * bit(live[k + 2]) + 8 * bit(live[k + 3]);
    let high = bit(live[k + 4])
        + 2 * bit(live[k + 5])
        + 4 * bit(live[k + 6])
        + 8 * bit(live[k + 7]);
    low + 16 * high
}

fn bit(is_set: bool) -> u8
    ensures value { result ≡ bit is_set }
    ensures small { result ≤ 1 }
{
    u8::from(is_set)
}

/// The size in an entry's block.
pub(crate) fn size_in(block: &[u8; 256]) -> u16
    ensures { result ≡ size_in block.now }
{
    u16::from_be_bytes(field(block, 82))
}

/// The identifier's bytes in an entry's block, as far as the block reaches.
fn id_bytes(block: &[u8; 256]) -> &[u8]
    ensures { result.now ≡ field 16 (id_length block.now) block.now }
{
    let end = (16 + usize::from(block[80])).min(BLOCK);
    &block[16..end]
}

/// The block has that name.
pub(crate) fn is_named(block: &[u8; 256], app: &[u8], id: &[u8]) -> bool
    ensures { result ≡ name_eq (name_in block.now) (named app.now id.now) }
{
    &block[..16] == app && id_bytes(block) == id
}

// An entry has the name that is in a block.
fn has_name(entry: &Option<CardEntry>, block: &[u8; 256]) -> bool
    ensures { result ≡ has_name (name_in block.now) entry.now }
{
    match entry {
        Some(entry) => is_named(&entry.block(), &block[..16], id_bytes(block)),
        None => false,
    }
}

// A byte behind the identifier's length is zero.
fn is_id_byte(block: &[u8; 256], at: usize) -> bool
    requires { at < 256 }
    ensures { result ≡ is_id_byte block.now at }
{
    at < 16 + usize::from(block[80]) || block[at] == 0
}

fn id_fault(block: &[u8; 256]) -> Option<u8>
    ensures { result ≡ id_fault block.now }
{
    for at in 16..80usize {
        if !is_id_byte(block, at) {
            return Some(at as u8);
        }
    }
    None
}

// A field behind the identifier has its form: its length, a zero, the size.
fn is_field(block: &[u8; 256], at: usize) -> bool
    requires { at < 256 }
    ensures { result ≡ is_field block.now at }
{
    match at {
        80 => 1 <= block[80] && usize::from(block[80]) <= MAX_IDENTIFIER,
        81 => block[81] == 0,
        _ => usize::from(size_in(block)) <= MAX_CARD_BYTES,
    }
}

fn field_fault(block: &[u8; 256]) -> Option<u8>
    ensures { result ≡ field_fault block.now }
{
    for at in 80..83usize {
        if !is_field(block, at) {
            return Some(at as u8);
        }
    }
    None
}

// The first byte of an entry's block before its numbers that is outside the form.
fn front_fault(block: &[u8; 256]) -> Option<u8>
    ensures { result ≡ front_fault block.now }
{
    match id_fault(block) {
        Some(at) => Some(at),
        None => field_fault(block),
    }
}

// A byte is zero.
fn is_zero(block: &[u8; 256], at: usize) -> bool
    requires { at < 256 }
    ensures { result ≡ (byte_at block.now at == 0) }
{
    block[at] == 0
}

fn rest_fault(block: &[u8; 256]) -> Option<u8>
    requires { size_in block.now ≤ 16384 }
    ensures { result ≡ rest_fault block.now }
{
    for at in 84 + data_blocks(size_in(block))..256usize {
        if !is_zero(block, at) {
            return Some(at as u8);
        }
    }
    None
}

// A number is from 2 on, and not used.
fn is_free_number(used: &[bool; 256], d: u8) -> bool
    ensures value { result ≡ (nat_le 2 d && not (slice_index_or used.now d true)) }
    ensures small { d < 256 }
{
    2 <= d && !used[usize::from(d)]
}

/// Uses the blocks that an entry names, or tells the first number that is below 2 or used already.
fn use_numbers(used: &mut [bool; 256], block: &[u8; 256]) -> Option<u8>
    requires { size_in block.now ≤ 16384 }
    ensures fault { result ≡ fresh_fault (λ d. slice_index_or used.old d true) block.now }
    ensures used { IfNone result ((d : ℕ) → d < 256 → slice_index_or used.new d true ≡ (slice_index_or used.old d true || has_number block.now d)) }
{
    for i in 0..data_blocks(size_in(block)) {
        let d = block[84 + i];
        if !is_free_number(used, d) {
            return Some((84 + i) as u8);
        }
        used[usize::from(d)] = true;
    }
    None
}

// An entry has the name that is in a block.
fn is_repeated(entries: &[Option<CardEntry>], block: &[u8; 256]) -> bool
    ensures { result ≡ list_any (has_name (name_in block.now)) entries.now }
{
    entries.iter().any(|entry| has_name(entry, block))
}

// The first number outside the form, or the first byte behind the numbers.
fn numbers_fault(used: &mut [bool; 256], block: &[u8; 256]) -> Option<u8>
    requires { size_in block.now ≤ 16384 }
    ensures fault { result ≡ or_next (fresh_fault (λ d. slice_index_or used.old d true) block.now) (rest_fault block.now) }
    ensures used { IfNone result ((d : ℕ) → d < 256 → slice_index_or used.new d true ≡ (slice_index_or used.old d true || has_number block.now d)) }
{
    match use_numbers(used, block) {
        Some(at) => Some(at),
        None => rest_fault(block),
    }
}

// The first byte outside the form, but for the name.
fn shape_fault(used: &mut [bool; 256], block: &[u8; 256]) -> Option<u8>
    ensures fault { result ≡ or_next (front_fault block.now) (or_next (fresh_fault (λ d. slice_index_or used.old d true) block.now) (rest_fault block.now)) }
    ensures front { IfNone result (front_fault block.now ≡ None) }
    ensures used { IfNone result ((d : ℕ) → d < 256 → slice_index_or used.new d true ≡ (slice_index_or used.old d true || has_number block.now d)) }
{
    match front_fault(block) {
        Some(at) => Some(at),
        None => numbers_fault(used, block),
    }
}

/// The first byte of one more entry's block that is outside the form. Where there is none, the blocks that it names are used.
pub(crate) fn entry_fault(
    entries: &[Option<CardEntry>],
    used: &mut [bool; 256],
    block: &[u8; 256],
) -> Option<u8>
    ensures fault { result ≡ entry_fault_in entries.now (λ d. slice_index_or used.old d true) block.now }
    ensures front { IfNone result (front_fault block.now ≡ None) }
    ensures used { IfNone result ((d : ℕ) → d < 256 → slice_index_or used.new d true ≡ (slice_index_or used.old d true || has_number block.now d)) }
{
    if is_repeated(entries, block) {
        return Some(0);
    }
    shape_fault(used, block)
}

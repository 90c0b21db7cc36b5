//! The values that words stand for.

ghost use Rattle.std.specs.Prelude.{◌≡◌, ◌<◌, ◌≤◌, ◌+◌, ◌==◌, ◌||◌, ◌^◌, true, min, length, IfOk, IfSome};
ghost use Rattle.std.specs.Char.{digit_value};
ghost use Rattle.std.specs.Str.Parse.{digits_value};
ghost use Rattle.std.specs.List.{list_any, list_all};
ghost use Rattle.script_text.specs.Words.{same_word, is_name, has_name_form, mark_of, uuid_of, id_of, bytes_of, mask_of, letter_flags_of, bits_of, flags_of, numeral_of, number_of, object_count_of, positive_of, place_of_call, seed_of, device_of, file_of, offset_of, whence_of, count_of, are_digits, is_digit, is_small_letter, reserved_words};

use std::alloc::Global;
use tee_types::{
    AppId, Bytes, Device, Flags, MAX_FILE, MAX_OBJECTS, NoMemory, OVERWRITE, ObjectId, READ,
    SHARE_READ, SHARE_WRITE, WRITE, WRITE_META, Whence,
};
use uuid::Uuid;

/// The UUID that a word is.
pub fn uuid(word: &[u8]) -> Option<AppId>
    ensures { result ≡ uuid_of word.now }
{
    match Uuid::try_parse_ascii(word) {
        Ok(uuid) => Some(AppId::from_uuid(uuid)),
        Err(_) => None,
    }
}

/// How often a letter stands in a word.
fn count(word: &[u8], letter: u8) -> usize
    ensures count { result ≡ count_of word.now letter }
    ensures most { result ≤ length word.now }
{
    word.iter().filter(|b| **b == letter).count()
}

/// Whether the words are alike.
pub fn same(a: &[u8], b: &[u8]) -> bool
    ensures { result ≡ same_word a.now b.now }
{
    a == b
}

/// The flags that letters stand for.
#[tactic(auto, unfolding(crate::specs::Words::letter_flags_of))]
fn letter_flags(word: &[u8]) -> Option<Flags>
    ensures { result ≡ letter_flags_of word.now }
{
    if same(word, b"-") {
        return Some(Flags { bits: 0 });
    }
    let read = count(word, b'r');
    let write = count(word, b'w');
    let meta = count(word, b'm');
    let share_read = count(word, b'R');
    let share_write = count(word, b'W');
    let overwrite = count(word, b'o');
    let once = read <= 1
        && write <= 1
        && meta <= 1
        && share_read <= 1
        && share_write <= 1
        && overwrite <= 1;
    if word.is_empty()
        || !once
        || read + write + meta + share_read + share_write + overwrite != word.len()
    {
        return None;
    }
    Some(Flags {
        bits: read as u32 * READ
            + write as u32 * WRITE
            + meta as u32 * WRITE_META
            + share_read as u32 * SHARE_READ
            + share_write as u32 * SHARE_WRITE
            + overwrite as u32 * OVERWRITE,
    })
}

/// The flags whose bits are 1 to 8 hex digits.
#[tactic(auto, unfolding(crate::specs::Words::bits_of))]
fn bits(digits: &[u8]) -> Option<Flags>
    ensures { result ≡ bits_of digits.now }
{
    if 8 < digits.len() {
        return None;
    }
    let bits = numeral(digits, 16, u32::MAX as u64)?;
    Some(Flags { bits: bits as u32 })
}

/// The flags that a word stands for.
#[tactic(auto, unfolding(crate::specs::Words::flags_of))]
pub(crate) fn flags(word: &[u8]) -> Option<Flags>
    ensures { result ≡ flags_of word.now }
{
    if word.starts_with(b"0x") {
        bits(&word[2..])
    } else {
        letter_flags(word)
    }
}

/// The value of a digit or a letter, from 0 for `0` to 35 for `z`, and 36 for another byte.
fn digit_value(byte: u8) -> u8
    ensures value { result ≡ digit_value byte }
    ensures small { result ≤ 36 }
{
    match byte {
        b'0'..=b'9' => byte - b'0',
        b'A'..=b'Z' => byte - b'A' + 10,
        b'a'..=b'z' => byte - b'a' + 10,
        _ => 36,
    }
}

/// Whether each byte is a digit in that base.
fn are_digits(base: u8, word: &[u8]) -> bool
    ensures { result ≡ are_digits base word.now }
{
    word.iter().all(|b| digit_value(*b) < base)
}

/// The number of these digits, or `limit` where it is above that.
fn capped(base: u8, limit: u128, digits: &[u8]) -> u128
    requires base { 1 ≤ base }
    requires limit { limit ≤ 2 ^ 64 }
    ensures { result ≡ min (digits_value base digits.now) limit }
{
    let mut value = 0u128;
    for digit in digits {
        value = (value * base as u128 + digit_value(*digit) as u128).min(limit);
    }
    value
}

/// The number of these digits, at least one, up to the greatest.
#[tactic(auto, unfolding(crate::specs::Words::numeral_of))]
fn numeral(word: &[u8], base: u8, greatest: u64) -> Option<u64>
    requires { 1 ≤ base }
    ensures number { result ≡ numeral_of base greatest word.now }
    ensures within { IfSome result (λ number. number ≤ greatest) }
{
    if word.is_empty() || !are_digits(base, word) {
        return None;
    }
    let greatest = greatest as u128;
    let value = capped(base, greatest + 1, word);
    if value <= greatest {
        Some(value as u64)
    } else {
        None
    }
}

/// The number that a word of decimal digits stands for, at most 4,294,967,295.
pub fn number(word: &[u8]) -> Option<u32>
    ensures { result ≡ number_of word.now }
{
    let number = numeral(word, 10, u32::MAX as u64)?;
    Some(number as u32)
}

/// The number of objects that a word of decimal digits stands for, at most 256.
pub(crate) fn object_count(word: &[u8]) -> Option<u16>
    ensures { result ≡ object_count_of word.now }
{
    let count = numeral(word, 10, MAX_OBJECTS as u64)?;
    Some(count as u16)
}

/// The number of these decimal digits, from 1 up to the greatest.
#[tactic(auto, unfolding(crate::specs::Words::positive_of))]
fn positive(word: &[u8], greatest: u64) -> Option<u64>
    ensures number { result ≡ positive_of greatest word.now }
    ensures within { IfSome result (λ number. number ≤ greatest) }
{
    let number = numeral(word, 10, greatest)?;
    if number == 0 { None } else { Some(number) }
}

/// The number of a call of a device, 1 to 4,294,967,295.
pub(crate) fn place_of_call(word: &[u8]) -> Option<u32>
    ensures { result ≡ place_of_call word.now }
{
    let place = positive(word, u32::MAX as u64)?;
    Some(place as u32)
}

/// The seed that a word of decimal digits stands for.
pub(crate) fn seed(word: &[u8]) -> Option<u64>
    ensures { result ≡ seed_of word.now }
{
    numeral(word, 10, u64::MAX)
}

/// The file that a word names: `dir`, or the number of an object's file.
#[tactic(auto, unfolding(crate::specs::Words::file_of))]
pub(crate) fn file(word: &[u8]) -> Option<Device>
    ensures { result ≡ file_of word.now }
{
    if same(word, b"dir") {
        return Some(Device::Dir);
    }
    let file = positive(word, MAX_FILE as u64)?;
    Some(Device::File(file as u16))
}

/// The device that a word names: a file, or `card`.
#[tactic(auto, unfolding(crate::specs::Words::device_of))]
pub(crate) fn device(word: &[u8]) -> Option<Device>
    ensures { result ≡ device_of word.now }
{
    if same(word, b"card") {
        return Some(Device::Card);
    }
    file(word)
}

/// The offset that a word stands for.
#[tactic(auto, unfolding(crate::specs::Words::offset_of))]
pub(crate) fn offset(word: &[u8]) -> Option<i64>
    ensures { result ≡ offset_of word.now }
{
    if word.is_empty() {
        return None;
    }
    if word[0] == b'-' {
        let size = numeral(&word[1..], 10, i64::MAX as u64)?;
        return Some(-(size as i64));
    }
    let digits = if word[0] == b'+' { &word[1..] } else { word };
    let size = numeral(digits, 10, i64::MAX as u64)?;
    Some(size as i64)
}

/// From where a word says that a seek counts.
#[tactic(auto, unfolding(crate::specs::Words::whence_of))]
pub(crate) fn whence(word: &[u8]) -> Option<Whence>
    ensures { result ≡ whence_of word.now }
{
    if same(word, b"set") {
        Some(Whence::Set)
    } else if same(word, b"cur") {
        Some(Whence::Cur)
    } else if same(word, b"end") {
        Some(Whence::End)
    } else {
        None
    }
}

/// The bytes that a word stands for.
#[tactic(auto, unfolding(crate::specs::Words::bytes_of))]
pub fn bytes(alloc: Global, word: &[u8]) -> Result<Option<Bytes>, NoMemory>
    ensures { IfOk result (λ bytes. bytes ≡ bytes_of word.now) }
{
    if same(word, b"-") {
        return Ok(Some(Bytes::empty(alloc)));
    }
    if word.len() < 2 {
        return Ok(None);
    }
    match hex::decode(alloc, word) {
        Ok(bytes) => Ok(Some(Bytes::from_vec(bytes))),
        Err(hex::FromHexError::OutOfMemory) => Err(NoMemory {}),
        Err(_) => Ok(None),
    }
}

/// The bytes of the mask that a word is, one at least.
#[tactic(auto, unfolding(crate::specs::Words::mask_of))]
pub(crate) fn mask(alloc: Global, word: &[u8]) -> Result<Option<Bytes>, NoMemory>
    ensures { IfOk result (λ mask. mask ≡ mask_of word.now) }
{
    if same(word, b"-") {
        return Ok(None);
    }
    bytes(alloc, word)
}

/// The identifier that a word stands for.
#[tactic(auto, unfolding(crate::specs::Words::id_of))]
pub fn id(word: &[u8]) -> Option<ObjectId>
    ensures { result ≡ id_of word.now }
{
    if word.len() < 2 || 128 < word.len() || word.len() % 2 == 1 {
        return None;
    }
    let mut bytes = [0; 64];
    let bytes = &mut bytes[..word.len() / 2];
    match hex::decode_to_slice(word, &mut *bytes) {
        Ok(()) => ObjectId::new(bytes).ok(),
        Err(_) => None,
    }
}

/// Whether each byte is one that a name may have.
fn has_name_bytes(word: &[u8]) -> bool
    ensures { result ≡ list_all (λ byte. is_small_letter byte || is_digit byte || (byte == 95)) word.now }
{
    word.iter().all(|b| b.is_ascii_lowercase() || b.is_ascii_digit() || *b == b'_')
}

/// Whether a word has a meaning of its own, and so is no name.
fn is_reserved(word: &[u8]) -> bool
    ensures { result ≡ list_any (same_word word.now) reserved_words }
{
    same(word, b"app")
        || same(word, b"serial")
        || same(word, b"threads")
        || same(word, b"phase")
        || same(word, b"list")
        || same(word, b"stop")
        || same(word, b"fail")
        || same(word, b"lose")
        || same(word, b"taint")
        || same(word, b"flip")
        || same(word, b"quota")
        || same(word, b"crash")
        || same(word, b"save")
        || same(word, b"restore")
}

/// Whether a word has the form of a name.
fn has_name_form(word: &[u8]) -> bool
    ensures { result ≡ has_name_form word.now }
{
    if word.is_empty() || 16 < word.len() {
        return false;
    }
    has_name_bytes(word) && word[0].is_ascii_lowercase()
}

/// Whether a word may be the name of an application.
#[tactic(auto, unfolding(crate::specs::Words::is_name))]
pub(crate) fn is_name(word: &[u8]) -> bool
    ensures { result ≡ is_name word.now }
{
    has_name_form(word) && !is_reserved(word)
}

/// The mark that a word is.
#[tactic(auto, unfolding(crate::specs::Words::mark_of))]
pub(crate) fn mark(alloc: Global, word: &[u8]) -> Result<Option<Bytes>, NoMemory>
    ensures { IfOk result (λ mark. mark ≡ mark_of word.now) }
{
    if !has_name_form(word) || same(word, b"app") {
        return Ok(None);
    }
    Ok(Some(Bytes::from_slice(alloc, word)?))
}

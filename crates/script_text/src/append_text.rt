//! Appending to the text of a run: numbers, bytes and flags.

ghost use Rattle.std.specs.Prelude.{◌≡◌, ◌++◌, length, take, codes, decimal, OnOk, OnErr};
ghost use Rattle.std.specs.Fmt.{signed_decimal};
ghost use Rattle.hex.specs.Hex.{encode_lower};
ghost use Rattle.script_text.specs.Forms.{bytes_text, flags_text, letters_text, letter, uuid_text};

use itoa::Buffer;
use tee_types::{
    AppId, Flags, NoMemory, OVERWRITE, READ, SHARE_READ, SHARE_WRITE, WRITE, WRITE_META,
};
use uuid::Uuid;

/// Appends a piece of text. A refusal leaves the text.
pub fn put(out: &mut Vec<u8>, piece: &[u8]) -> Result<(), NoMemory>
    ensures ok { OnOk result (out.new.items ≡ out.old.items ++ piece.now) }
    ensures err { OnErr result (out.new.items ≡ out.old.items) }
    ensures kept { take (length out.old.items) out.new.items ≡ out.old.items }
{
    out.extend_from_slice(piece)
}

/// Appends a number in decimal.
pub fn put_number(out: &mut Vec<u8>, number: u64) -> Result<(), NoMemory>
    ensures ok { OnOk result (out.new.items ≡ out.old.items ++ decimal number) }
    ensures kept { take (length out.old.items) out.new.items ≡ out.old.items }
{
    let mut buffer = Buffer::new();
    put(out, buffer.format(number).as_bytes())
}

/// Appends a number in decimal, with a minus below zero.
pub(crate) fn put_signed(out: &mut Vec<u8>, number: i64) -> Result<(), NoMemory>
    ensures ok { OnOk result (out.new.items ≡ out.old.items ++ signed_decimal number) }
    ensures kept { take (length out.old.items) out.new.items ≡ out.old.items }
{
    let mut buffer = Buffer::new();
    put(out, buffer.format(number).as_bytes())
}

/// Appends bytes in hex, small letters.
pub fn put_hex(out: &mut Vec<u8>, bytes: &[u8]) -> Result<(), NoMemory>
    ensures ok { OnOk result (out.new.items ≡ out.old.items ++ encode_lower bytes.now) }
    ensures kept { take (length out.old.items) out.new.items ≡ out.old.items }
{
    let digits = b"0123456789abcdef";
    for byte in bytes {
        let high = digits[(*byte / 16) as usize];
        let low = digits[(*byte % 16) as usize];
        put(out, &[high, low])?;
    }
    Ok(())
}

/// Appends bytes in hex, or `-` for none.
pub fn put_bytes(out: &mut Vec<u8>, bytes: &[u8]) -> Result<(), NoMemory>
    ensures ok { OnOk result (out.new.items ≡ out.old.items ++ bytes_text bytes.now) }
    ensures kept { take (length out.old.items) out.new.items ≡ out.old.items }
{
    if bytes.is_empty() {
        return put(out, b"-");
    }
    put_hex(out, bytes)
}

/// Appends the UUID of an application, hyphenated, in small letters.
#[tactic(auto, unfolding(crate::specs::Forms::uuid_text))]
pub fn put_uuid(out: &mut Vec<u8>, app: AppId) -> Result<(), NoMemory>
    ensures ok { OnOk result (out.new.items ≡ out.old.items ++ uuid_text app) }
    ensures kept { take (length out.old.items) out.new.items ≡ out.old.items }
{
    let mut buffer = Uuid::encode_buffer();
    let uuid = Uuid::from_bytes(app.bytes());
    let text = uuid.hyphenated().encode_lower(&mut buffer);
    put(out, text.as_bytes())
}

/// Appends the letter, where the bits are set.
fn put_letter(out: &mut Vec<u8>, flags: Flags, bits: u32, code: u8) -> Result<(), NoMemory>
    ensures ok { OnOk result (out.new.items ≡ out.old.items ++ letter flags bits code) }
    ensures kept { take (length out.old.items) out.new.items ≡ out.old.items }
{
    if flags.has(bits) {
        put(out, &[code])?;
    }
    Ok(())
}

/// Appends the letters of the bits that are set.
fn put_letters(out: &mut Vec<u8>, flags: Flags) -> Result<(), NoMemory>
    ensures ok { OnOk result (out.new.items ≡ out.old.items ++ letters_text flags) }
    ensures kept { take (length out.old.items) out.new.items ≡ out.old.items }
{
    put_letter(out, flags, READ, b'r')?;
    put_letter(out, flags, WRITE, b'w')?;
    put_letter(out, flags, WRITE_META, b'm')?;
    put_letter(out, flags, SHARE_READ, b'R')?;
    put_letter(out, flags, SHARE_WRITE, b'W')?;
    put_letter(out, flags, OVERWRITE, b'o')
}

/// Appends flags.
#[tactic(auto, unfolding(crate::specs::Forms::flags_text))]
pub(crate) fn put_flags(out: &mut Vec<u8>, flags: Flags) -> Result<(), NoMemory>
    ensures ok { OnOk result (out.new.items ≡ out.old.items ++ flags_text flags) }
    ensures kept { take (length out.old.items) out.new.items ≡ out.old.items }
{
    if flags.bits == 0 {
        return put(out, b"-");
    }
    if flags.known() {
        return put_letters(out, flags);
    }
    put(out, b"0x")?;
    put_hex(out, &flags.bits.to_be_bytes())
}

/// Appends a word, and flags behind it.
pub(crate) fn put_word_flags(out: &mut Vec<u8>, word: &[u8], flags: Flags) -> Result<(), NoMemory>
    ensures ok { OnOk result (out.new.items ≡ out.old.items ++ word.now ++ flags_text flags) }
    ensures kept { take (length out.old.items) out.new.items ≡ out.old.items }
{
    put(out, word)?;
    put_flags(out, flags)
}

/// Appends a word, and a signed number behind it.
pub(crate) fn put_word_signed(out: &mut Vec<u8>, word: &[u8], number: i64) -> Result<(), NoMemory>
    ensures ok { OnOk result (out.new.items ≡ out.old.items ++ word.now ++ signed_decimal number) }
    ensures kept { take (length out.old.items) out.new.items ≡ out.old.items }
{
    put(out, word)?;
    put_signed(out, number)
}

/// Appends two words, one right behind the other.
pub(crate) fn put_two(out: &mut Vec<u8>, first: &[u8], second: &[u8]) -> Result<(), NoMemory>
    ensures ok { OnOk result (out.new.items ≡ out.old.items ++ first.now ++ second.now) }
    ensures kept { take (length out.old.items) out.new.items ≡ out.old.items }
{
    put(out, first)?;
    put(out, second)
}

/// Appends a word, and bytes behind it, in hex, small letters.
pub fn put_word_hex(out: &mut Vec<u8>, word: &[u8], bytes: &[u8]) -> Result<(), NoMemory>
    ensures ok { OnOk result (out.new.items ≡ out.old.items ++ word.now ++ encode_lower bytes.now) }
    ensures kept { take (length out.old.items) out.new.items ≡ out.old.items }
{
    put(out, word)?;
    put_hex(out, bytes)
}

/// Appends a word, and bytes behind it, in hex, or `-` for none.
pub fn put_word_bytes(out: &mut Vec<u8>, word: &[u8], bytes: &[u8]) -> Result<(), NoMemory>
    ensures ok { OnOk result (out.new.items ≡ out.old.items ++ word.now ++ bytes_text bytes.now) }
    ensures kept { take (length out.old.items) out.new.items ≡ out.old.items }
{
    put(out, word)?;
    put_bytes(out, bytes)
}

/// Appends a word, and a number behind it.
pub fn put_word_number(out: &mut Vec<u8>, word: &[u8], number: u64) -> Result<(), NoMemory>
    ensures ok { OnOk result (out.new.items ≡ out.old.items ++ word.now ++ decimal number) }
    ensures kept { take (length out.old.items) out.new.items ≡ out.old.items }
{
    put(out, word)?;
    put_number(out, number)
}

/// Appends a word, and two numbers behind it.
pub(crate) fn put_word_numbers(
    out: &mut Vec<u8>,
    word: &[u8],
    first: u32,
    second: u32,
) -> Result<(), NoMemory>
    ensures ok { OnOk result (out.new.items ≡ out.old.items ++ word.now ++ decimal first ++ codes " " ++ decimal second) }
    ensures kept { take (length out.old.items) out.new.items ≡ out.old.items }
{
    put_word_number(out, word, first as u64)?;
    put_word_number(out, b" ", second as u64)
}

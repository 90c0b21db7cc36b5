// Words of a line.

ghost use Rattle.std.specs.Prelude.{◌≡◌, ◌++◌, IfOk, OnOk, codes, decimal, string_bytes};
ghost use Rattle.known_answers.specs.Lines.{hex_word, two_words};

use itoa::Buffer;
use std::alloc::{AllocError, Global};

/// Bytes in hex, or `-` for none.
pub fn word_of(alloc: Global, bytes: &[u8]) -> Result<String, AllocError>
    ensures { IfOk result (λ word. string_bytes word ≡ hex_word bytes.now) }
{
    if bytes.is_empty() {
        String::from_str(alloc, "-")
    } else {
        hex::encode(alloc, bytes)
    }
}

/// Two of them, a space apart.
pub fn two_words(alloc: Global, first: &[u8], second: &[u8]) -> Result<String, AllocError>
    ensures { IfOk result (λ words. string_bytes words ≡ two_words first.now second.now) }
{
    let mut line = word_of(alloc, first)?;
    line.push_str(" ")?;
    line.push_str(&word_of(alloc, second)?)?;
    Ok(line)
}

/// One more word, behind a space.
pub fn push_word(alloc: Global, line: &mut String, word: &[u8]) -> Result<(), AllocError>
    ensures { OnOk result (string_bytes line.new ≡ string_bytes line.old ++ (codes " " ++ hex_word word.now)) }
{
    line.push_str(" ")?;
    line.push_str(&word_of(alloc, word)?)
}

/// One more number, in decimal.
pub fn push_number(line: &mut String, number: u64) -> Result<(), AllocError>
    ensures { OnOk result (string_bytes line.new ≡ string_bytes line.old ++ decimal number) }
{
    let mut buffer = Buffer::new();
    line.push_str(buffer.format(number))
}

//! The number of a soak, read from a word.

ghost use Rattle.std.specs.Prelude.{◌≡◌};
ghost use Rattle.std.specs.List.{list_all};
ghost use Rattle.script_text.specs.Words.{is_digit};
ghost use Rattle.seed_words.specs.Numbers.{soak_number_of};

/// Whether each byte is a decimal digit.
fn are_digits(word: &[u8]) -> bool
    ensures { result ≡ list_all is_digit word.now }
{
    word.iter().all(|byte| b'0' <= *byte && *byte <= b'9')
}

/// The number that a word is: 1 to 10 decimal digits, at most 4,294,967,295. Zeros may lead.
pub fn soak_number(word: &str) -> Option<u32>
    ensures { result ≡ soak_number_of word.now }
{
    if 10 < word.len() || !are_digits(word.as_bytes()) {
        return None;
    }
    word.parse::<u32>().ok()
}

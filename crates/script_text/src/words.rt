//! A text as lines, and a line as words.

ghost use Rattle.std.specs.Prelude.{◌≡◌, ◌≢◌, ◌<◌, ◌≤◌, ◌+◌, ◌==◌, not, drop, [], ◌∷◌, length, IfSome, IsNone, IfNone, MatchOption};
ghost use Rattle.std.specs.List.{prefix_len, position_or_len};
ghost use Rattle.std.specs.Str.Lines.{strip_carriage_return};
ghost use Rattle.script_text.specs.Lines.{lines_of, words_of, is_blank, is_ascii};

/// How many bytes stand before the first LF, or how many there are.
fn line_length(text: &[u8]) -> usize
    ensures length { result ≡ position_or_len (λ b. b == 10) text.now }
    ensures within { result ≤ length text.now }
{
    for (i, byte) in text.iter().enumerate() {
        if *byte == b'\n' {
            return i;
        }
    }
    text.len()
}

/// The bytes behind the one at that place.
fn behind(bytes: &[u8], place: usize) -> &[u8]
    requires { place ≤ length bytes.now }
    ensures { result.now ≡ drop (place + 1) bytes.now }
{
    if place < bytes.len() {
        &bytes[place + 1..]
    } else {
        &bytes[place..]
    }
}

/// A line that an LF ended, without the CR before the LF.
fn without_cr(line: &[u8]) -> &[u8]
    ensures { result.now ≡ strip_carriage_return line.now }
{
    if !line.is_empty() && line[line.len() - 1] == b'\r' {
        &line[..line.len() - 1]
    } else {
        line
    }
}

/// The first line of a text, and the text behind it.
pub fn cut_line(text: &[u8]) -> Option<(&[u8], &[u8])>
    ensures none { IsNone result → text.now ≡ [] }
    ensures cut { IfSome result (λ parts. lines_of text.now ≡ parts.0.now ∷ lines_of parts.1.now) }
    ensures shorter { IfSome result (λ parts. length parts.1.now < length text.now) }
{
    if text.is_empty() {
        return None;
    }
    let end = line_length(text);
    if end == text.len() {
        return Some((text, behind(text, end)));
    }
    Some((without_cr(&text[..end]), behind(text, end)))
}

/// Whether each byte is one of ASCII.
pub fn is_ascii(line: &[u8]) -> bool
    ensures { result ≡ is_ascii line.now }
{
    line.iter().all(|b| *b < 128)
}

/// Whether a byte stands between words: a space or a tab.
fn is_blank(byte: u8) -> bool
    ensures { result ≡ is_blank byte }
{
    byte == b' ' || byte == b'\t'
}

/// How many blanks stand at the front.
fn blanks_length(line: &[u8]) -> usize
    ensures length { result ≡ prefix_len is_blank line.now }
    ensures within { result ≤ length line.now }
{
    for (i, byte) in line.iter().enumerate() {
        if !is_blank(*byte) {
            return i;
        }
    }
    line.len()
}

/// How many bytes stand before the first blank, or how many there are.
fn word_length(line: &[u8]) -> usize
    ensures length { result ≡ position_or_len is_blank line.now }
    ensures within { result ≤ length line.now }
{
    for (i, byte) in line.iter().enumerate() {
        if is_blank(*byte) {
            return i;
        }
    }
    line.len()
}

/// The first word of a line, and what is left of the line behind it.
pub fn cut_word(line: &[u8]) -> Option<(&[u8], &[u8])>
    ensures { MatchOption result (words_of line.now ≡ [])
        (λ parts. words_of line.now ≡ parts.0.now ∷ words_of parts.1.now) }
{
    let words = &line[blanks_length(line)..];
    if words.is_empty() {
        return None;
    }
    let end = word_length(words);
    Some((&words[..end], behind(words, end)))
}

/// The one word of a line.
pub fn one(line: &[u8]) -> Option<&[u8]>
    ensures found { IfSome result (λ word. words_of line.now ≡ word.now ∷ []) }
    ensures none { IfNone result (length (words_of line.now) ≢ 1) }
{
    let (word, rest) = cut_word(line)?;
    if cut_word(rest).is_some() {
        return None;
    }
    Some(word)
}

/// The two words of a line.
pub fn two(line: &[u8]) -> Option<(&[u8], &[u8])>
    ensures found { IfSome result (λ words. words_of line.now ≡ words.0.now ∷ words.1.now ∷ []) }
    ensures none { IfNone result (length (words_of line.now) ≢ 2) }
{
    let (first, rest) = cut_word(line)?;
    let second = one(rest)?;
    Some((first, second))
}

/// The three words of a line.
pub fn three(line: &[u8]) -> Option<(&[u8], &[u8], &[u8])>
    ensures found { IfSome result (λ words. words_of line.now ≡ words.0.now ∷ words.1.now ∷ words.2.now ∷ []) }
    ensures none { IfNone result (length (words_of line.now) ≢ 3) }
{
    let (first, rest) = cut_word(line)?;
    let (second, third) = two(rest)?;
    Some((first, second, third))
}

/// The four words of a line.
pub(crate) fn four(line: &[u8]) -> Option<(&[u8], &[u8], &[u8], &[u8])>
    ensures found { IfSome result (λ words. words_of line.now ≡ words.0.now ∷ words.1.now ∷ words.2.now ∷ words.3.now ∷ []) }
    ensures none { IfNone result (length (words_of line.now) ≢ 4) }
{
    let (first, rest) = cut_word(line)?;
    let (second, third, fourth) = three(rest)?;
    Some((first, second, third, fourth))
}

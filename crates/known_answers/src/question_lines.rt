// The lines that ask the questions.

ghost use Rattle.std.specs.Prelude.{◌≡◌, ◌∷◌, ◌<◌, ◌≤◌, ◌&&◌, IfOk, IsFalse, IsTrue, MatchResult, map};
ghost use Rattle.hex.specs.Hex.{decode_of};
ghost use Rattle.known_answers.specs.Forms.{are_arrays, are_parts, has_its_pages, is_argument, is_array, is_counter, is_format, is_number, is_object_image, is_tree_image, is_version};
ghost use Rattle.known_answers.specs.LineForms.{behind, has_form};
ghost use Rattle.known_answers.specs.declared.question_lines.Unreadable.TheVariants.{Form};
ghost use Rattle.known_answers.specs.Asks.{AreArrays, AreParts, AreTreePages, Asks, IsObjectImage, IsTreeImage};
ghost use Rattle.known_answers.specs.Subjects.{subject_word};
ghost use Rattle.known_answers.specs.Words.{IsArgument, IsNumber, words_of};

use crate::arguments::{
    array_and_more, object_alone, one_array, parts_alone, parts_and_tag, tree_alone, tree_pages,
    two_arguments, two_arrays, worn_card,
};
use crate::questions::{Argument, ObjectImage, Parts, Question, TreeImage, TreePages};
use crate::subjects::{Subject, subject_of};
use hex::{FromHex, FromHexError};
use itoa::Buffer;
use node_image::{RootRef, greatest_node};
use std::alloc::{AllocError, Global};

/// The most bytes of an argument of any length.
const MOST: usize = 1 << 24;

/// The most bytes that a tree holds.
const MOST_IN_A_TREE: u64 = 1 << 20;

/// Why a line was not read.
#[derive(Debug, Drop, thiserror::Error)]
pub enum Unreadable {
    #[error("the line is no question")]
    Form,
    #[error("out of memory")]
    Memory,
}

impl From<AllocError> for Unreadable {
    ghost use Rattle.std.specs.Prelude.{◌≡◌};
    ghost use Rattle.known_answers.specs.declared.question_lines.Unreadable.TheVariants.{Memory};

    ghost from_gives = { λ _ e. e ≡ Memory };

    fn from(_: AllocError) -> Self {
        Unreadable::Memory
    }
}

impl From<FromHexError> for Unreadable {
    ghost use Rattle.std.specs.Prelude.{◌≡◌};
    ghost use Rattle.known_answers.specs.Refusals.{unreadable_by};

    ghost from_gives = { λ error e. e ≡ unreadable_by error };

    fn from(error: FromHexError) -> Self {
        match error {
            FromHexError::OutOfMemory => Unreadable::Memory,
            _ => Unreadable::Form,
        }
    }
}

// A word of exactly N bytes in hex. It takes no memory.
#[tactic(auto, using(crate::proofs::Forms::array_not_read), unfolding(crate::specs::Forms::is_array))]
pub fn array_of<const N: usize>(word: &str) -> Result<[u8; N], Unreadable>
    ensures value { IfOk result (λ bytes. decode_of word.now ≡ Ok bytes) }
    ensures form { MatchResult result (λ _. IsTrue (is_array N word.now)) (λ e. (e ≡ Form) × IsFalse (is_array N word.now)) }
{
    Ok(<[u8; N] as FromHex>::from_hex(word)?)
}

// A word of any number of bytes in hex, or `-` for none.
#[tactic(auto, using(crate::proofs::Forms::argument_of_none, crate::proofs::Forms::argument_of_hex, crate::proofs::Forms::argument_of_nothing, crate::proofs::Forms::argument_not_hex, crate::proofs::Forms::argument_too_long))]
pub fn argument_of(alloc: Global, word: &str) -> Result<Argument, Unreadable>
    ensures value { IfOk result (λ argument. IsArgument word.now argument.bytes.items) }
    ensures form { MatchResult result (λ _. IsTrue (is_argument word.now)) (λ e. e ≡ Form → IsFalse (is_argument word.now)) }
{
    if word.is_empty() {
        return Err(Unreadable::Form);
    }
    let bytes = if word == "-" {
        Vec::new(alloc)
    } else {
        hex::decode(alloc, word)?
    };
    if bytes.len() > MOST {
        return Err(Unreadable::Form);
    }
    Ok(Argument { bytes })
}

#[tactic(auto, using(crate::proofs::Forms::iv_filled, crate::proofs::Forms::iv_not), unfolding(crate::specs::Asks::AreParts, crate::specs::Forms::are_parts))]
pub fn parts_of(
    alloc: Global,
    key: &str,
    iv: &str,
    aad: &str,
    text: &str,
) -> Result<Parts, Unreadable>
    ensures value { IfOk result (λ parts. AreParts key.now iv.now aad.now text.now parts) }
    ensures form { MatchResult result (λ _. IsTrue (are_parts key.now iv.now aad.now text.now)) (λ e. e ≡ Form → IsFalse (are_parts key.now iv.now aad.now text.now)) }
{
    let key = array_of(key)?;
    let iv = argument_of(alloc, iv)?.bytes;
    let aad = argument_of(alloc, aad)?.bytes;
    let text = argument_of(alloc, text)?.bytes;
    if iv.is_empty() {
        return Err(Unreadable::Form);
    }
    Ok(Parts { key, iv, aad, text })
}

pub fn arrays_of<const N: usize>(alloc: Global, words: &[&str]) -> Result<Vec<[u8; N]>, Unreadable>
    ensures value { IfOk result (λ arrays. AreArrays (map (λ w. w.now) words.now) arrays.items) }
    ensures form { MatchResult result (λ _. IsTrue (are_arrays N (map (λ w. w.now) words.now)))
        (λ e. e ≡ Form → IsFalse (are_arrays N (map (λ w. w.now) words.now))) }
{
    let mut arrays = Vec::new(alloc);
    for word in words {
        arrays.push(array_of(word)?).map_err(AllocError::from)?;
    }
    Ok(arrays)
}

// A number in decimal, without a sign or a leading zero. It takes no memory.
fn number_of(word: &str) -> Result<u64, Unreadable>
    ensures value { IfOk result (λ number. IsNumber word.now number) }
    ensures form { MatchResult result (λ _. IsTrue (is_number word.now)) (λ e. (e ≡ Form) × IsFalse (is_number word.now)) }
{
    let mut buffer = Buffer::new();
    match word.parse::<u64>() {
        Ok(number) if buffer.format(number) == word => Ok(number),
        _ => Err(Unreadable::Form),
    }
}

#[tactic(auto, using(crate::proofs::Forms::number_in_decimal), unfolding(crate::specs::Forms::is_version))]
fn version_of(word: &str) -> Result<u8, Unreadable>
    ensures number { IfOk result (λ version. IsNumber word.now version) }
    ensures bound { IfOk result (λ version. version < 2) }
    ensures form { MatchResult result (λ _. IsTrue (is_version word.now)) (λ e. (e ≡ Form) × IsFalse (is_version word.now)) }
{
    let version = number_of(word)?;
    if version > 1 {
        return Err(Unreadable::Form);
    }
    Ok(version as u8)
}

// One of the two formats of a file. It takes no memory.
#[tactic(auto, using(crate::proofs::Forms::number_in_decimal), unfolding(crate::specs::Forms::is_format))]
fn format_of(word: &str) -> Result<u8, Unreadable>
    ensures number { IfOk result (λ format. IsNumber word.now format) }
    ensures bound { IfOk result (λ format. (1 ≤ format) × (format ≤ 2)) }
    ensures form { MatchResult result (λ _. IsTrue (is_format word.now)) (λ e. (e ≡ Form) × IsFalse (is_format word.now)) }
{
    let format = number_of(word)?;
    if format == 0 || format > 2 {
        return Err(Unreadable::Form);
    }
    Ok(format as u8)
}

// A card's counter. It takes no memory.
#[tactic(auto, using(crate::proofs::Forms::number_in_decimal), unfolding(crate::specs::Forms::is_counter))]
pub fn counter_of(word: &str) -> Result<u32, Unreadable>
    ensures number { IfOk result (λ counter. IsNumber word.now counter) }
    ensures form { MatchResult result (λ _. IsTrue (is_counter word.now)) (λ e. (e ≡ Form) × IsFalse (is_counter word.now)) }
{
    let counter = number_of(word)?;
    if counter > u64::from(u32::MAX) {
        return Err(Unreadable::Form);
    }
    Ok(counter as u32)
}

#[tactic(auto, unfolding(crate::specs::Asks::IsTreeImage, crate::specs::Forms::is_tree_image))]
pub fn tree_image_of(
    alloc: Global,
    tsk: &str,
    hash: &str,
    version: &str,
    format: &str,
    image: &str,
) -> Result<TreeImage, Unreadable>
    ensures value { IfOk result (λ tree. IsTreeImage tsk.now hash.now version.now format.now image.now tree) }
    ensures form { MatchResult result (λ _. IsTrue (is_tree_image tsk.now hash.now version.now format.now image.now))
        (λ e. e ≡ Form → IsFalse (is_tree_image tsk.now hash.now version.now format.now image.now)) }
{
    let tsk = array_of(tsk)?;
    let hash = array_of(hash)?;
    let version = version_of(version)?;
    let format = format_of(format)?;
    let image = argument_of(alloc, image)?.bytes;
    let root = RootRef {
        hash,
        version,
        format,
    };
    Ok(TreeImage { tsk, root, image })
}

#[tactic(auto, unfolding(crate::specs::Asks::IsObjectImage, crate::specs::Forms::is_object_image))]
pub fn object_image_of(
    alloc: Global,
    tsk: &str,
    entry: &str,
    image: &str,
) -> Result<ObjectImage, Unreadable>
    ensures value { IfOk result (λ object. IsObjectImage tsk.now entry.now image.now object) }
    ensures form { MatchResult result (λ _. IsTrue (is_object_image tsk.now entry.now image.now)) (λ e. e ≡ Form → IsFalse (is_object_image tsk.now entry.now image.now)) }
{
    let tsk = array_of(tsk)?;
    let entry = array_of(entry)?;
    let image = argument_of(alloc, image)?.bytes;
    Ok(ObjectImage { tsk, entry, image })
}

#[tactic(auto, using(crate::proofs::Forms::number_in_decimal), unfolding(crate::specs::Asks::AreTreePages, crate::specs::Forms::has_its_pages))]
pub fn tree_pages_of(
    alloc: Global,
    tsk: &str,
    format: &str,
    bytes: &str,
    pages: &[&str],
) -> Result<TreePages, Unreadable>
    ensures value { IfOk result (λ tree. AreTreePages tsk.now format.now bytes.now (map (λ w. w.now) pages.now) tree) }
    ensures form { MatchResult result (λ _. IsTrue (is_array 32 tsk.now && is_format format.now && has_its_pages bytes.now (map (λ w. w.now) pages.now)))
        (λ e. e ≡ Form → IsFalse (is_array 32 tsk.now && is_format format.now && has_its_pages bytes.now (map (λ w. w.now) pages.now))) }
{
    let tsk = array_of(tsk)?;
    let format = format_of(format)?;
    let bytes = number_of(bytes)?;
    if bytes > MOST_IN_A_TREE || pages.len() != greatest_node(bytes) as usize {
        return Err(Unreadable::Form);
    }
    let pages = arrays_of(alloc, pages)?;
    Ok(TreePages {
        tsk,
        format,
        bytes,
        pages,
    })
}

/// The question of a line.
pub fn parse(alloc: Global, line: &str) -> Result<Question, Unreadable>
    ensures asks { IfOk result (λ question. Asks (words_of line.now) question) }
    // A line that is read has a form, and one that is refused as no question has none.
    ensures form { MatchResult result (λ _. IsTrue (has_form (words_of line.now)))
        (λ e. e ≡ Form → IsFalse (has_form (words_of line.now))) }
{
    let words = words_of(alloc, line)?;
    question_of(alloc, &words)
}

// The words of a line: what stands before, between and behind its spaces.
fn words_of(alloc: Global, line: &str) -> Result<Vec<&str>, AllocError>
    ensures { IfOk result (λ words. map (λ w. w.now) words.items ≡ words_of line.now) }
{
    line.split(' ').collect(alloc)
}

fn question_of(alloc: Global, words: &[&str]) -> Result<Question, Unreadable>
    ensures asks { IfOk result (λ question. Asks (map (λ w. w.now) words.now) question) }
    ensures form { MatchResult result (λ _. IsTrue (has_form (map (λ w. w.now) words.now)))
        (λ e. e ≡ Form → IsFalse (has_form (map (λ w. w.now) words.now))) }
{
    let [name, words @ ..] = words else {
        return Err(Unreadable::Form);
    };
    match subject_of(name) {
        Some(subject) => question_about(alloc, subject, words),
        None => Err(Unreadable::Form),
    }
}

// The question about a subject, by the words behind its word.
fn question_about(alloc: Global, subject: Subject, words: &[&str]) -> Result<Question, Unreadable>
    ensures asks { IfOk result (λ question. Asks (subject_word subject ∷ map (λ w. w.now) words.now) question) }
    ensures form { MatchResult result (λ _. IsTrue (behind subject (map (λ w. w.now) words.now)))
        (λ e. e ≡ Form → IsFalse (behind subject (map (λ w. w.now) words.now))) }
{
    match subject {
        Subject::Aes => {
            let (key, block) = two_arrays(words)?;
            Ok(Question::Aes { key, block })
        }
        Subject::AesInverse => {
            let (key, block) = two_arrays(words)?;
            Ok(Question::AesInverse { key, block })
        }
        Subject::Ghash => {
            let (subkey, blocks) = array_and_more(alloc, words)?;
            Ok(Question::Ghash { subkey, blocks })
        }
        Subject::GcmSeal => Ok(Question::GcmSeal {
            parts: parts_alone(alloc, words)?,
        }),
        Subject::GcmOpen => {
            let (parts, tag) = parts_and_tag(alloc, words)?;
            Ok(Question::GcmOpen { parts, tag })
        }
        Subject::Hmac => {
            let (key, text) = two_arguments(alloc, words)?;
            Ok(Question::Hmac { key, text })
        }
        Subject::Ssk => {
            let (huk, chip) = two_arrays(words)?;
            Ok(Question::Ssk { huk, chip })
        }
        Subject::Tsk => {
            let (ssk, app) = two_arrays(words)?;
            Ok(Question::Tsk { ssk, app })
        }
        Subject::DirTsk => Ok(Question::DirTsk {
            ssk: one_array(words)?,
        }),
        Subject::RpmbKey => Ok(Question::RpmbKey {
            huk: one_array(words)?,
        }),
        Subject::Wrap => {
            let (tsk, fek) = two_arrays(words)?;
            Ok(Question::Wrap { tsk, fek })
        }
        Subject::Unwrap => {
            let (tsk, wrapped) = two_arrays(words)?;
            Ok(Question::Unwrap { tsk, wrapped })
        }
        Subject::FrameMac => {
            let (key, frame) = two_arrays(words)?;
            Ok(Question::FrameMac { key, frame })
        }
        Subject::FrameFields => Ok(Question::FrameFields {
            frame: one_array(words)?,
        }),
        Subject::Card => {
            let (first, rest) = array_and_more(alloc, words)?;
            Ok(Question::Card { first, rest })
        }
        Subject::WornCard => Ok(Question::Worn {
            card: worn_card(alloc, words)?,
        }),
        Subject::Tree => Ok(Question::Tree {
            tree: tree_alone(alloc, words)?,
        }),
        Subject::TreeMake => Ok(Question::TreeMake {
            tree: tree_pages(alloc, words)?,
        }),
        Subject::Entry => Ok(Question::Entry {
            bytes: one_array(words)?,
        }),
        Subject::Object => Ok(Question::Object {
            object: object_alone(alloc, words)?,
        }),
    }
}

// The words behind a line's first word, by their shape.

ghost use Rattle.std.specs.Prelude.{◌≡◌, IfOk, IsFalse, IsTrue, MatchResult, map};
ghost use Rattle.known_answers.specs.LineForms.{are_arguments, are_pages, are_parts_and_tag, are_two_arrays, is_array_and_more, is_one_array, is_worn_card, parts_alone, tree_alone, object_alone};
ghost use Rattle.known_answers.specs.declared.question_lines.Unreadable.TheVariants.{Form};
ghost use Rattle.known_answers.specs.Asks.{AreArguments, ArePages, ArePartsAndTag, AreTwoArrays, IsArrayAndMore, IsOneArray, IsWornCard, PartsAlone, TreeAlone, ObjectAlone};

use crate::question_lines::{
    Unreadable, argument_of, array_of, arrays_of, counter_of, object_image_of, parts_of,
    tree_image_of, tree_pages_of,
};
use crate::questions::{Argument, ObjectImage, Parts, TreeImage, TreePages, WornCard};
use std::alloc::Global;

/// A word of bytes in hex. It takes no memory.
pub fn one_array<const N: usize>(words: &[&str]) -> Result<[u8; N], Unreadable>
    ensures value { IfOk result (λ bytes. IsOneArray (map (λ w. w.now) words.now) bytes) }
    ensures form { MatchResult result (λ _. IsTrue (is_one_array N (map (λ w. w.now) words.now)))
        (λ e. (e ≡ Form) × IsFalse (is_one_array N (map (λ w. w.now) words.now))) }
{
    let [word] = words else {
        return Err(Unreadable::Form);
    };
    array_of(word)
}

/// Two words of bytes in hex. It takes no memory.
pub fn two_arrays<const M: usize, const N: usize>(
    words: &[&str],
) -> Result<([u8; M], [u8; N]), Unreadable>
    ensures value { IfOk result (λ pair. AreTwoArrays (map (λ w. w.now) words.now) pair.0 pair.1) }
    ensures form { MatchResult result (λ _. IsTrue (are_two_arrays M N (map (λ w. w.now) words.now)))
        (λ e. (e ≡ Form) × IsFalse (are_two_arrays M N (map (λ w. w.now) words.now))) }
{
    let [first, second] = words else {
        return Err(Unreadable::Form);
    };
    Ok((array_of(first)?, array_of(second)?))
}

/// A word of bytes in hex, and any number of further ones of one length.
pub fn array_and_more<const M: usize, const N: usize>(
    alloc: Global,
    words: &[&str],
) -> Result<([u8; M], Vec<[u8; N]>), Unreadable>
    ensures value { IfOk result (λ pair. IsArrayAndMore (map (λ w. w.now) words.now) pair.0 pair.1.items) }
    ensures form { MatchResult result (λ _. IsTrue (is_array_and_more M N (map (λ w. w.now) words.now)))
        (λ e. e ≡ Form → IsFalse (is_array_and_more M N (map (λ w. w.now) words.now))) }
{
    let [first, rest @ ..] = words else {
        return Err(Unreadable::Form);
    };
    Ok((array_of(first)?, arrays_of(alloc, rest)?))
}

/// Two arguments of any length.
pub fn two_arguments(alloc: Global, words: &[&str]) -> Result<(Argument, Argument), Unreadable>
    ensures value { IfOk result (λ pair. AreArguments (map (λ w. w.now) words.now) pair.0.bytes.items pair.1.bytes.items) }
    ensures form { MatchResult result (λ _. IsTrue (are_arguments (map (λ w. w.now) words.now)))
        (λ e. e ≡ Form → IsFalse (are_arguments (map (λ w. w.now) words.now))) }
{
    let [first, second] = words else {
        return Err(Unreadable::Form);
    };
    Ok((argument_of(alloc, first)?, argument_of(alloc, second)?))
}

/// The parts of a cipher.
pub fn parts_alone(alloc: Global, words: &[&str]) -> Result<Parts, Unreadable>
    ensures value { IfOk result (λ parts. PartsAlone (map (λ w. w.now) words.now) parts) }
    ensures form { MatchResult result (λ _. IsTrue (parts_alone (map (λ w. w.now) words.now)))
        (λ e. e ≡ Form → IsFalse (parts_alone (map (λ w. w.now) words.now))) }
{
    let [key, iv, aad, text] = words else {
        return Err(Unreadable::Form);
    };
    parts_of(alloc, key, iv, aad, text)
}

/// The parts of a cipher, and a tag.
pub fn parts_and_tag(alloc: Global, words: &[&str]) -> Result<(Parts, [u8; 16]), Unreadable>
    ensures value { IfOk result (λ pair. ArePartsAndTag (map (λ w. w.now) words.now) pair.0 pair.1) }
    ensures form { MatchResult result (λ _. IsTrue (are_parts_and_tag (map (λ w. w.now) words.now)))
        (λ e. e ≡ Form → IsFalse (are_parts_and_tag (map (λ w. w.now) words.now))) }
{
    let [key, iv, aad, text, tag] = words else {
        return Err(Unreadable::Form);
    };
    Ok((parts_of(alloc, key, iv, aad, text)?, array_of(tag)?))
}

/// The image of a tree.
pub fn tree_alone(alloc: Global, words: &[&str]) -> Result<TreeImage, Unreadable>
    ensures value { IfOk result (λ tree. TreeAlone (map (λ w. w.now) words.now) tree) }
    ensures form { MatchResult result (λ _. IsTrue (tree_alone (map (λ w. w.now) words.now)))
        (λ e. e ≡ Form → IsFalse (tree_alone (map (λ w. w.now) words.now))) }
{
    let [tsk, hash, version, format, image] = words else {
        return Err(Unreadable::Form);
    };
    tree_image_of(alloc, tsk, hash, version, format, image)
}

/// The image of an object.
pub fn object_alone(alloc: Global, words: &[&str]) -> Result<ObjectImage, Unreadable>
    ensures value { IfOk result (λ object. ObjectAlone (map (λ w. w.now) words.now) object) }
    ensures form { MatchResult result (λ _. IsTrue (object_alone (map (λ w. w.now) words.now)))
        (λ e. e ≡ Form → IsFalse (object_alone (map (λ w. w.now) words.now))) }
{
    let [tsk, entry, image] = words else {
        return Err(Unreadable::Form);
    };
    object_image_of(alloc, tsk, entry, image)
}

/// The pages of a tree.
pub fn tree_pages(alloc: Global, words: &[&str]) -> Result<TreePages, Unreadable>
    ensures value { IfOk result (λ tree. ArePages (map (λ w. w.now) words.now) tree) }
    ensures form { MatchResult result (λ _. IsTrue (are_pages (map (λ w. w.now) words.now)))
        (λ e. e ≡ Form → IsFalse (are_pages (map (λ w. w.now) words.now))) }
{
    let [tsk, format, bytes, pages @ ..] = words else {
        return Err(Unreadable::Form);
    };
    tree_pages_of(alloc, tsk, format, bytes, pages)
}

/// A card with its counter moved on, and the frames that it is sent.
pub fn worn_card(alloc: Global, words: &[&str]) -> Result<WornCard, Unreadable>
    ensures value { IfOk result (λ card. IsWornCard (map (λ w. w.now) words.now) card) }
    ensures form { MatchResult result (λ _. IsTrue (is_worn_card (map (λ w. w.now) words.now)))
        (λ e. e ≡ Form → IsFalse (is_worn_card (map (λ w. w.now) words.now))) }
{
    let [counter, first, rest @ ..] = words else {
        return Err(Unreadable::Form);
    };
    let counter = counter_of(counter)?;
    let first = array_of(first)?;
    let rest = arrays_of(alloc, rest)?;
    Ok(WornCard {
        counter,
        first,
        rest,
    })
}

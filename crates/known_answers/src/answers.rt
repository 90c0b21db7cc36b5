// The answers.

ghost use Rattle.std.specs.Prelude.{◌≡◌, ◌∷◌, ◌≤◌, ◌^◌, IfOk, length, map, string_bytes};
ghost use Rattle.aes_block.specs.Cipher.{cipher};
ghost use Rattle.aes_block.specs.InverseCipher.{inv_cipher};
ghost use Rattle.gcm_mode.specs.Gcm.{gcm_tag};
ghost use Rattle.known_answers.specs.Answers.{IsAnswer, IsOpenedLine, card_answers, fields_line, ghash_of, sealed_line, worn_card};
ghost use Rattle.known_answers.specs.Lines.{hex_word, spaced};

use crate::entries::entry_line;
use crate::objects::mounted_line;
use crate::questions::{Parts, Question, WornCard};
use crate::trees::{made_tree, opened_tree};
use crate::words::{push_word, two_words, word_of};
use aes_block::{Aes128, unwrap_key, wrap};
use gcm_mode::{open_text, seal};
use ghash_field::Ghash;
use hmac_keys::{Keys, SecretKey, dir_tsk, hmac, rpmb_key, ssk, tsk};
use rpmb_card::SimCard;
use rpmb_frame::{Frame, mac};
use std::alloc::{AllocError, Global};

fn ghash(subkey: &[u8; 16], blocks: &[[u8; 16]]) -> [u8; 16]
    ensures { result ≡ ghash_of subkey.now blocks.now }
{
    let mut hash = Ghash::new(u128::from_be_bytes(*subkey));
    for block in blocks {
        hash.update(block);
    }
    hash.finish()
}

fn sealed(alloc: Global, parts: Parts) -> Result<String, AllocError>
    ensures { IfOk result (λ line. string_bytes line ≡ sealed_line parts) }
{
    let Parts {
        key,
        iv,
        aad,
        mut text,
    } = parts;
    let tag = seal(&Aes128::new(&key), &iv, &aad, &mut text);
    two_words(alloc, &text, &tag)
}

// The tag of a ciphertext: enciphered twice it is the same text again.
fn computed_tag(key: &Aes128, iv: &[u8], aad: &[u8], text: &mut [u8]) -> [u8; 16]
    requires iv_low { 1 ≤ length iv.now }
    requires iv_high { length iv.now ≤ 2 ^ 24 }
    requires aad { length aad.now ≤ 2 ^ 24 }
    requires text { length text.old ≤ 2 ^ 24 }
    ensures { result ≡ gcm_tag (cipher key.now) iv.now aad.now text.old }
{
    let _tag = seal(key, iv, aad, text);
    seal(key, iv, aad, text)
}

fn opened(alloc: Global, parts: Parts, tag: &[u8; 16]) -> Result<String, AllocError>
    ensures { IfOk result (λ line. IsOpenedLine parts tag.now (string_bytes line)) }
{
    let Parts {
        key,
        iv,
        aad,
        mut text,
    } = parts;
    let cipher = Aes128::new(&key);
    match open_text(&cipher, &iv, &aad, &mut text, tag) {
        Ok(()) => word_of(alloc, &text),
        Err(_) => {
            let found = computed_tag(&cipher, &iv, &aad, &mut text);
            let mut line = String::from_str(alloc, "bad-tag ")?;
            line.push_str(&two_words(alloc, tag, &found)?)?;
            Ok(line)
        }
    }
}

fn aes(key: &[u8; 16], mut block: [u8; 16]) -> [u8; 16]
    ensures { result ≡ cipher key.now block }
{
    Aes128::new(key).encrypt(&mut block);
    block
}

fn aes_inverse(key: &[u8; 16], mut block: [u8; 16]) -> [u8; 16]
    ensures { result ≡ inv_cipher key.now block }
{
    Aes128::new(key).decrypt(&mut block);
    block
}

// Words, a space apart.
fn spaced(alloc: Global, first: &[u8], rest: &[&[u8]]) -> Result<String, AllocError>
    ensures { IfOk result (λ line. string_bytes line ≡ spaced (first.now ∷ map (λ w. w.now) rest.now)) }
{
    let mut line = word_of(alloc, first)?;
    for word in rest {
        push_word(alloc, &mut line, word)?;
    }
    Ok(line)
}

fn frame_fields(alloc: Global, frame: &Frame) -> Result<String, AllocError>
    ensures { IfOk result (λ line. string_bytes line ≡ fields_line frame.now) }
{
    let counter = frame.counter.to_be_bytes();
    let address = frame.address.to_be_bytes();
    let count = frame.count.to_be_bytes();
    let result = frame.result.to_be_bytes();
    let kind = frame.kind.to_be_bytes();
    spaced(
        alloc,
        &frame.stuff,
        &[
            &frame.key_or_mac[..],
            &frame.block,
            &frame.nonce,
            &counter,
            &address,
            &count,
            &result,
            &kind,
        ],
    )
}

// What the card answers, one frame after the other.
fn card_answers(
    alloc: Global,
    card: &mut SimCard,
    first: &[u8; 512],
    rest: &[[u8; 512]],
) -> Result<String, AllocError>
    ensures { IfOk result (λ line. string_bytes line ≡ spaced (card_answers card.old (first.now ∷ rest.now))) }
{
    let mut line = word_of(alloc, &card.answer(first))?;
    for frame in rest {
        let answer = card.answer(frame);
        push_word(alloc, &mut line, &answer)?;
    }
    Ok(line)
}

fn worn_answers(alloc: Global, worn: &WornCard) -> Result<String, AllocError>
    ensures { IfOk result (λ line. string_bytes line ≡ spaced (card_answers (worn_card worn.now.counter) (worn.now.first ∷ worn.now.rest.items))) }
{
    let mut card = SimCard::blank();
    card.wear(worn.counter);
    card_answers(alloc, &mut card, &worn.first, &worn.rest)
}

/// The line that answers a question.
pub fn answer(alloc: Global, question: Question) -> Result<String, AllocError>
    ensures { IfOk result (λ line. IsAnswer question (string_bytes line)) }
{
    match question {
        Question::Aes { key, block } => word_of(alloc, &aes(&key, block)),
        Question::AesInverse { key, block } => word_of(alloc, &aes_inverse(&key, block)),
        Question::Ghash { subkey, blocks } => word_of(alloc, &ghash(&subkey, &blocks)),
        Question::GcmSeal { parts } => sealed(alloc, parts),
        Question::GcmOpen { parts, tag } => opened(alloc, parts, &tag),
        Question::Hmac { key, text } => word_of(alloc, &hmac(&key.bytes, &text.bytes)),
        Question::Ssk { huk, chip } => word_of(alloc, ssk(&Keys { huk, chip }).bytes()),
        Question::Tsk { ssk, app } => word_of(alloc, &tsk(&SecretKey::new(ssk), &app)),
        Question::DirTsk { ssk } => word_of(alloc, &dir_tsk(&SecretKey::new(ssk))),
        Question::RpmbKey { huk } => word_of(alloc, rpmb_key(&Keys { huk, chip: [0; 32] }).bytes()),
        Question::Wrap { tsk, fek } => word_of(alloc, &wrap(&tsk, &fek)),
        Question::Unwrap { tsk, wrapped } => word_of(alloc, &unwrap_key(&tsk, &wrapped)),
        Question::FrameMac { key, frame } => word_of(alloc, &mac(&frame, &key)),
        Question::FrameFields { frame } => frame_fields(alloc, &Frame::parse(&frame)),
        Question::Card { first, rest } => {
            card_answers(alloc, &mut SimCard::blank(), &first, &rest)
        }
        Question::Worn { card } => worn_answers(alloc, &card),
        Question::Tree { tree } => opened_tree(alloc, tree),
        Question::TreeMake { tree } => made_tree(alloc, tree),
        Question::Entry { bytes } => entry_line(alloc, &bytes),
        Question::Object { object } => mounted_line(alloc, object),
    }
}

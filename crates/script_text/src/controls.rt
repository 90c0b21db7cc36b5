//! Reading a control.

ghost use Rattle.std.specs.Prelude.{◌≡◌, IfOk};
ghost use Rattle.script_text.specs.Lines.{words_of};
ghost use Rattle.script_text.specs.Controls.{stop_words, fail_words, lose_words, taint_words, arming, crash_words, save_words, restore_words, flip_words, quota_words, alone, control_verb_of, control_words, control_of};

use crate::script::{Arm, Control, Mode};
use crate::values::{
    device, file, mark, mask, number, object_count, place_of_call, same, seed, uuid,
};
use crate::words::{cut_word, four, one, three, two};
use std::alloc::Global;
use tee_types::NoMemory;

/// The word of a control.
#[derive(Clone, Copy)]
pub(crate) enum ControlVerb {
    Serial,
    Threads,
    Phase,
    Stop,
    Fail,
    Lose,
    Taint,
    Crash,
    Save,
    Restore,
    Flip,
    Quota,
    List,
}

/// The control that a word names.
#[tactic(auto, unfolding(crate::specs::Controls::control_verb_of))]
fn control_verb_of(word: &[u8]) -> Option<ControlVerb>
    ensures { result ≡ control_verb_of word.now }
{
    if same(word, b"serial") {
        Some(ControlVerb::Serial)
    } else if same(word, b"threads") {
        Some(ControlVerb::Threads)
    } else if same(word, b"phase") {
        Some(ControlVerb::Phase)
    } else if same(word, b"stop") {
        Some(ControlVerb::Stop)
    } else if same(word, b"fail") {
        Some(ControlVerb::Fail)
    } else if same(word, b"lose") {
        Some(ControlVerb::Lose)
    } else if same(word, b"taint") {
        Some(ControlVerb::Taint)
    } else if same(word, b"crash") {
        Some(ControlVerb::Crash)
    } else if same(word, b"save") {
        Some(ControlVerb::Save)
    } else if same(word, b"restore") {
        Some(ControlVerb::Restore)
    } else if same(word, b"flip") {
        Some(ControlVerb::Flip)
    } else if same(word, b"quota") {
        Some(ControlVerb::Quota)
    } else if same(word, b"list") {
        Some(ControlVerb::List)
    } else {
        None
    }
}

/// `DEVICE N`
#[tactic(auto, unfolding(crate::specs::Controls::stop_words))]
fn stop(words: &[u8]) -> Option<Arm>
    ensures { result ≡ stop_words (words_of words.now) }
{
    let (device_word, calls_word) = two(words)?;
    let device = device(device_word)?;
    let calls = number(calls_word)?;
    Some(Arm::Stop { device, calls })
}

/// `DEVICE N`
#[tactic(auto, unfolding(crate::specs::Controls::fail_words))]
fn fail(words: &[u8]) -> Option<Arm>
    ensures { result ≡ fail_words (words_of words.now) }
{
    let (device_word, call_word) = two(words)?;
    let device = device(device_word)?;
    let call = place_of_call(call_word)?;
    Some(Arm::Fail { device, call })
}

/// `card N`
#[tactic(auto, unfolding(crate::specs::Controls::lose_words))]
fn lose(words: &[u8]) -> Option<Arm>
    ensures { result ≡ lose_words (words_of words.now) }
{
    let (card_word, call_word) = two(words)?;
    if !same(card_word, b"card") {
        return None;
    }
    let call = place_of_call(call_word)?;
    Some(Arm::Lose { call })
}

/// `FILE N OFFSET BYTES`
#[tactic(auto, unfolding(crate::specs::Controls::taint_words))]
fn taint(alloc: Global, words: &[u8]) -> Result<Option<Arm>, NoMemory>
    ensures { IfOk result (λ arm. arm ≡ taint_words (words_of words.now)) }
{
    let Some((file_word, call_word, at_word, mask_word)) = four(words) else {
        return Ok(None);
    };
    let Some(file) = file(file_word) else {
        return Ok(None);
    };
    let Some(call) = place_of_call(call_word) else {
        return Ok(None);
    };
    let Some(at) = number(at_word) else {
        return Ok(None);
    };
    let Some(mask) = mask(alloc, mask_word)? else {
        return Ok(None);
    };
    Ok(Some(Arm::Taint {
        file,
        call,
        at,
        mask,
    }))
}

/// The control that arms a device.
fn arming(arm: Option<Arm>) -> Option<Control>
    ensures { result ≡ arming arm }
{
    Some(Control::Arm(arm?))
}

/// `SEED`
#[tactic(auto, unfolding(crate::specs::Controls::crash_words))]
fn crash(words: &[u8]) -> Option<Control>
    ensures { result ≡ crash_words (words_of words.now) }
{
    let seed = seed(one(words)?)?;
    Some(Control::Crash { seed })
}

/// `MARK`
#[tactic(auto, unfolding(crate::specs::Controls::save_words))]
fn save(alloc: Global, words: &[u8]) -> Result<Option<Control>, NoMemory>
    ensures { IfOk result (λ control. control ≡ save_words (words_of words.now)) }
{
    let Some(mark_word) = one(words) else {
        return Ok(None);
    };
    let Some(mark) = mark(alloc, mark_word)? else {
        return Ok(None);
    };
    Ok(Some(Control::Save { mark }))
}

/// `FILE MARK`
#[tactic(auto, unfolding(crate::specs::Controls::restore_words))]
fn restore(alloc: Global, words: &[u8]) -> Result<Option<Control>, NoMemory>
    ensures { IfOk result (λ control. control ≡ restore_words (words_of words.now)) }
{
    let Some((file_word, mark_word)) = two(words) else {
        return Ok(None);
    };
    let Some(file) = file(file_word) else {
        return Ok(None);
    };
    let Some(mark) = mark(alloc, mark_word)? else {
        return Ok(None);
    };
    Ok(Some(Control::Restore { file, mark }))
}

/// `FILE OFFSET BYTES`
#[tactic(auto, unfolding(crate::specs::Controls::flip_words))]
fn flip(alloc: Global, words: &[u8]) -> Result<Option<Control>, NoMemory>
    ensures { IfOk result (λ control. control ≡ flip_words (words_of words.now)) }
{
    let Some((file_word, at_word, mask_word)) = three(words) else {
        return Ok(None);
    };
    let Some(file) = file(file_word) else {
        return Ok(None);
    };
    let Some(at) = number(at_word) else {
        return Ok(None);
    };
    let Some(mask) = mask(alloc, mask_word)? else {
        return Ok(None);
    };
    Ok(Some(Control::Flip { file, at, mask }))
}

/// `UUID OBJECTS BYTES`
#[tactic(auto, unfolding(crate::specs::Controls::quota_words))]
fn quota(words: &[u8]) -> Option<Control>
    ensures { result ≡ quota_words (words_of words.now) }
{
    let (app_word, objects_word, bytes_word) = three(words)?;
    let app = uuid(app_word)?;
    let objects = object_count(objects_word)?;
    let bytes = number(bytes_word)?;
    Some(Control::Quota {
        app,
        objects,
        bytes,
    })
}

/// The control, where no word stands behind it.
fn alone(control: Control, words: &[u8]) -> Option<Control>
    ensures { result ≡ alone control (words_of words.now) }
{
    match cut_word(words) {
        None => Some(control),
        Some(_) => None,
    }
}

/// The control of these words behind the verb.
fn control_of(alloc: Global, verb: ControlVerb, words: &[u8]) -> Result<Option<Control>, NoMemory>
    ensures { IfOk result (λ control. control ≡ control_words verb (words_of words.now)) }
{
    match verb {
        ControlVerb::Serial => Ok(alone(Control::Mode(Mode::Serial), words)),
        ControlVerb::Threads => Ok(alone(Control::Mode(Mode::Threads), words)),
        ControlVerb::Phase => Ok(alone(Control::Phase, words)),
        ControlVerb::Stop => Ok(arming(stop(words))),
        ControlVerb::Fail => Ok(arming(fail(words))),
        ControlVerb::Lose => Ok(arming(lose(words))),
        ControlVerb::Taint => Ok(arming(taint(alloc, words)?)),
        ControlVerb::Crash => Ok(crash(words)),
        ControlVerb::Save => save(alloc, words),
        ControlVerb::Restore => restore(alloc, words),
        ControlVerb::Flip => flip(alloc, words),
        ControlVerb::Quota => Ok(quota(words)),
        ControlVerb::List => Ok(alone(Control::List, words)),
    }
}

/// The control of a line: its first word, and the words behind it.
#[tactic(auto, unfolding(crate::specs::Controls::control_of))]
pub(crate) fn control(alloc: Global, word: &[u8], words: &[u8]) -> Result<Option<Control>, NoMemory>
    ensures { IfOk result (λ control. control ≡ control_of word.now (words_of words.now)) }
{
    let Some(verb) = control_verb_of(word) else {
        return Ok(None);
    };
    control_of(alloc, verb, words)
}

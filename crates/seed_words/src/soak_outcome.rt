//! The lines that tell what came of a soak.

ghost use Rattle.std.specs.Prelude.{◌≡◌, ◌<◌, ◌++◌, codes, decimal, length, slice_get, Some, IfOk, OnOk};
ghost use Rattle.sha2.specs.Sha256.{sha256};
ghost use Rattle.seed_words.specs.Outcome.{calls_line, commits_line, digest_line, is_good, is_refused, number_line, replies_line, soak_lines, tally_of};
ghost use Rattle.seed_words.specs.Tallies.{HasRoom, with_event};

use crate::soak_commits::commit_count;
use script_text::{put, put_word_hex, put_word_number};
use sha2::{Digest, Sha256};
use std::alloc::Global;
use store_model::{Event, History};
use tee_types::{NoMemory, Reply};

/// How many calls there are, by their replies.
#[derive(Clone, Copy, Debug)]
pub(crate) struct Tally {
    /// All calls.
    pub calls: u64,
    /// Those that were done.
    pub good: u64,
    /// Those that were refused.
    pub refused: u64,
    /// Those that were neither.
    pub other: u64,
}

/// Whether the reply says that the call was done.
fn is_good(reply: &Reply) -> bool
    ensures { result ≡ is_good reply.now }
{
    match reply {
        Reply::Done
        | Reply::Handle(_)
        | Reply::Content(_)
        | Reply::Info { .. }
        | Reply::Found { .. } => true,
        _ => false,
    }
}

/// Whether the reply is a refusal.
fn is_refused(reply: &Reply) -> bool
    ensures { result ≡ is_refused reply.now }
{
    match reply {
        Reply::Refused(_) => true,
        _ => false,
    }
}

/// The tally with one event more.
fn with_event(tally: Tally, event: &Event) -> Tally
    requires { HasRoom tally }
    ensures { result ≡ with_event tally event.now }
{
    let mut tally = tally;
    match event {
        Event::Call { reply, .. } => {
            let good = is_good(reply);
            let refused = is_refused(reply);
            tally.calls += 1;
            tally.good += u64::from(good);
            tally.refused += u64::from(refused);
            tally.other += u64::from(!(good || refused));
        }
        Event::Landed { .. } => {}
    }
    tally
}

/// The event at that place.
pub(crate) fn event_at(history: &History, place: u64) -> &Event
    requires { place < length history.now.events }
    ensures { slice_get history.now.events place ≡ Some result.now }
{
    history.get(place).unwrap()
}

/// The tally of a history.
fn tally_of(history: &History) -> Tally
    ensures { result ≡ tally_of history.now.events }
{
    let mut tally = Tally {
        calls: 0,
        good: 0,
        refused: 0,
        other: 0,
    };
    for place in 0..history.len() {
        tally = with_event(tally, event_at(history, place));
    }
    tally
}

/// The SHA-256 of some bytes.
fn digest_of(bytes: &[u8]) -> [u8; 32]
    ensures { result ≡ sha256 bytes.now }
{
    let mut hasher = Sha256::new();
    hasher.update(bytes);
    hasher.finalize()
}

/// Appends the line of the replies.
fn put_replies(out: &mut Vec<u8>, tally: Tally) -> Result<(), NoMemory>
    ensures { OnOk result (out.new.items ≡ out.old.items ++ replies_line tally) }
{
    put_word_number(out, b"ok ", tally.good)?;
    put_word_number(out, b" refused ", tally.refused)?;
    put_word_number(out, b" other ", tally.other)?;
    put(out, b"\n")
}

/// Appends the line of the commits.
fn put_commits(out: &mut Vec<u8>, commits: u64, objects: u64) -> Result<(), NoMemory>
    ensures { OnOk result (out.new.items ≡ out.old.items ++ commits_line commits objects) }
{
    put_word_number(out, b"commits ", commits)?;
    put_word_number(out, b" objects ", objects)?;
    put(out, b"\n")
}

/// Appends a word with a number behind it, as a line.
fn put_number_line(out: &mut Vec<u8>, word: &[u8], number: u64) -> Result<(), NoMemory>
    ensures { OnOk result (out.new.items ≡ out.old.items ++ (word.now ++ decimal number ++ codes "\n")) }
{
    put_word_number(out, word, number)?;
    put(out, b"\n")
}

/// Appends the line of the digest.
fn put_digest(out: &mut Vec<u8>, lines: &[u8]) -> Result<(), NoMemory>
    ensures { OnOk result (out.new.items ≡ out.old.items ++ digest_line lines.now) }
{
    put_word_hex(out, b"digest ", &digest_of(lines))?;
    put(out, b"\n")
}

/// The text of the soak of that number with this history, which left so many objects. `lines` are the lines of these objects.
#[tactic(auto, unfolding(crate::specs::Outcome::soak_lines))]
pub fn soak_lines(
    alloc: Global,
    number: u32,
    history: &History,
    objects: u64,
    lines: &[u8],
) -> Result<Vec<u8>, NoMemory>
    ensures { IfOk result (λ text. text.items ≡ soak_lines number history.now.events objects lines.now) }
{
    let tally = tally_of(history);
    let mut text = Vec::new(alloc);
    put_number_line(&mut text, b"soak ", number as u64)?;
    put_number_line(&mut text, b"apps 8 calls ", tally.calls)?;
    put_replies(&mut text, tally)?;
    put_commits(&mut text, commit_count(history), objects)?;
    put_digest(&mut text, lines)?;
    Ok(text)
}

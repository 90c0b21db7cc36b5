//! Running a script of the objects on the card alone: it is read to its end, the card is mounted, and the lines are done.

ghost use Rattle.std.specs.Prelude.{◌≡◌, ◌≢◌, ◌⊎◌, ◌≤◌, ℕ, List, [], Some, Ok, length, MatchResult};
ghost use Rattle.hmac_keys.specs.KeyTable.{rpmb_key};
ghost use Rattle.rpmb_card.specs.Port.{PortState};
ghost use Rattle.tee_ports.specs.Faults.{Rose};
ghost use Rattle.rpmb_files.specs.Devices.{devices};
ghost use Rattle.rpmb_files.specs.Stores.{store_state};
ghost use Rattle.script_runner.specs.Prints.{PrintsLines};
ghost use Rattle.script_runner.specs.CardSteps.{MountsOn};
ghost use Rattle.card_script.specs.declared.card_line.CardLine.{CardLine};
ghost use Rattle.card_script.specs.CardScripts.{script_of};
ghost use Rattle.script_runner.specs.CardRuns.{IsCardScriptError, RunsCard, RunsItsLines, RunsLines};

use crate::act_text::print_last_lines;
use crate::card_lines::do_line;
use crate::card_refusal::print_card_refusal;
use crate::card_state::{CardEnd, CardRun};
use crate::{RunEnd, Status, read_text};
use card_script::{CardScript, CardScriptFault, parse};
use hmac_keys::{Keys, SecretKey, rpmb_key};
use rpmb_card::CardRig;
use rpmb_files::{CardHalted, CardParts, CardStore};
use rpmb_host::Host;
use run_acts::Bench;
use std::alloc::Global;
use tee_ports::{Entropy, Sink, Source};

/// Puts the text that is left, where every line was done.
fn finish<K: Sink, R: CardRig + Drop, E: Entropy>(run: CardRun<R, E>, sink: &mut K) -> CardEnd<R>
    ensures card { result.card ≡ run.store.host.port }
    ensures prints { PrintsLines (Rose (K.faults sink.old) (K.faults sink.new) ⊎ K.is_full sink.new) (K.held sink.old) (K.held sink.new) run.kept.items result.status }
    ensures counted { K.faults sink.old ≤ K.faults sink.new }
{
    let CardRun { store, kept, .. } = run;
    let status = print_last_lines(kept, sink);
    let CardParts { host, .. } = store.into_parts();
    CardEnd {
        status,
        card: host.into_port(),
    }
}

/// Does the lines of a script on a store that was mounted, and writes their text.
fn do_lines<K: Sink, R: CardRig + Drop, E: Entropy>(
    alloc: Global,
    key: &SecretKey,
    script: &CardScript,
    run: CardRun<R, E>,
    sink: &mut K,
) -> CardEnd<R>
    requires key { run.store.host.key ≡ key.now }
    requires first { run.at ≡ 0 }
    requires nothing { run.kept.items ≡ [] }
    ensures { (first : E) → (E.is_reliable first → E.is_reliable run.store.entropy) → (handed : PortState)
        → MountsOn key.now (devices handed 0) (store_state R.state E.faults run.store)
        → RunsLines (E.is_reliable first) key.now (Rose (K.faults sink.old) (K.faults sink.new) ⊎ K.is_full sink.new) script.now (K.held sink.old) (K.held sink.new)
        handed (R.state result.card) result.status }
{
    let mut run = run;
    while run.at < script.lines().len() {
        match do_line(alloc, key, &script.lines()[run.at], run, sink) {
            Ok(next) => run = next,
            Err(end) => return end,
        }
    }
    finish(run, sink)
}

/// Mounts the objects of a card, does the lines of a script, and writes their text.
fn run_lines<K: Sink, R: CardRig + Drop, E: Entropy>(
    alloc: Global,
    script: &CardScript,
    sink: &mut K,
    card: R,
    keys: &Keys,
    entropy: E,
) -> CardEnd<R>
    requires { E.faults entropy ≡ 0 }
    ensures { (first : E) → (E.is_reliable first → E.is_reliable entropy)
        → RunsLines (E.is_reliable first) (rpmb_key keys.now.huk) (Rose (K.faults sink.old) (K.faults sink.new) ⊎ K.is_full sink.new) script.now
        (K.held sink.old) (K.held sink.new) (R.state card) (R.state result.card) result.status }
{
    let key = rpmb_key(keys);
    match CardStore::mount(alloc, Host::new(card, key.copy()), entropy) {
        Ok(store) => {
            let run = CardRun {
                store,
                at: 0,
                kept: Vec::new(alloc),
            };
            do_lines(alloc, &key, script, run, sink)
        }
        Err(CardHalted { host, fault, .. }) => {
            let status = print_card_refusal(fault, sink, Vec::new(alloc));
            CardEnd {
                status,
                card: host.into_port(),
            }
        }
    }
}

/// The script that a text is.
fn read_script(alloc: Global, text: &[u8]) -> Result<CardScript, Status>
    requires { length text.now ≤ 16777216 }
    ensures { MatchResult result (λ script. script_of text.now ≡ Ok script) (IsCardScriptError (script_of text.now)) }
{
    match parse(alloc, text) {
        Ok(script) => Ok(script),
        Err(CardScriptFault::BadLine(line)) => Err(Status::BadLine(line)),
        Err(CardScriptFault::NoMemory) => Err(Status::NoMemory),
    }
}

/// Reads a script of the objects on the card alone, mounts the card, does the lines, and writes their text. Nothing is formatted, and no file
/// of the bench is touched.
pub(crate) fn run_card<S: Source, K: Sink, F: Drop, R: CardRig + Drop, E: Entropy>(
    alloc: Global,
    source: &mut S,
    sink: &mut K,
    bench: Bench<F, R>,
    keys: &Keys,
    entropy: &E,
) -> RunEnd<F, R>
    ensures card { RunsCard (E.is_reliable entropy.now) (rpmb_key keys.now.huk) (S.left source.old) (S.left source.new) (K.held sink.old) (K.held sink.new) (record {
      source_failed = Rose (S.faults source.old) (S.faults source.new);
      source_ended = S.has_ended source.new;
      sink_failed = Rose (K.faults sink.old) (K.faults sink.new);
      sink_full = K.is_full sink.new;
    }) (R.state bench.card) (R.state result.bench.card) result.status }
    ensures files { result.bench.files ≡ bench.files }
    ensures usage { result.status ≢ Status.Usage }

    // A script within the limit is run, or there is no memory, where the source and the sink do not fail and the sink has room.
    ensures complete { (bytes : List ℕ) (lines : List CardLine) → S.left source.old ≡ Some bytes → length bytes ≤ 16777216 → script_of bytes ≡ Ok lines
        → ¬ Rose (S.faults source.old) (S.faults source.new)
        → ¬ Rose (K.faults sink.old) (K.faults sink.new) → ¬ K.is_full sink.new
        → RunsItsLines result.status }
{
    let text = match read_text(alloc, source) {
        Ok(text) => text,
        Err(status) => return RunEnd { status, bench },
    };
    let script = match read_script(alloc, text.as_slice()) {
        Ok(script) => script,
        Err(status) => return RunEnd { status, bench },
    };
    drop(text);
    let Bench { files, card } = bench;
    let CardEnd { status, card } = run_lines(alloc, &script, sink, card, keys, entropy.stream(0));
    RunEnd {
        status,
        bench: Bench { files, card },
    }
}

//! Running the script that a source has.

ghost use Rattle.std.specs.Prelude.{◌≡◌, ◌≤◌, Ok, length, vec_len, MatchResult};
ghost use Rattle.tee_ports.specs.Faults.{Rose};
ghost use Rattle.tee_types.specs.Limits.{file_count};
ghost use Rattle.script_text.specs.Grammar.{script_of};
ghost use Rattle.script_runner.specs.ScriptReading.{status_of, IsScriptError};
ghost use Rattle.run_acts.specs.Benches.{bench_state};
ghost use Rattle.script_runner.specs.RunReady.{IsSound};
ghost use Rattle.script_runner.specs.Runs.{RunsSource};

use crate::acts::run_script;
use crate::run_state::RunEnd;
use crate::{Excess, Status, read_text};
use hmac_keys::Keys;
use rpmb_card::CardRig;
use run_acts::Bench;
use script_text::{Script, ScriptFault, parse};
use std::alloc::Global;
use std::sync::Wait;
use std::thread::Threads;
use tee_ports::{Entropy, FileRig, Sink, Source};

/// The status of a text that is no script.
fn status_of(fault: ScriptFault) -> Status
    ensures { result ≡ status_of fault }
{
    match fault {
        ScriptFault::BadLine(line) => Status::BadLine(line),
        ScriptFault::TooManyApps(apps) => Status::TooLong(Excess::Apps(apps)),
        ScriptFault::NoMemory => Status::NoMemory,
    }
}

/// The script that a text is.
fn read_script(alloc: Global, text: &[u8]) -> Result<Script, Status>
    requires { length text.now ≤ 16777216 }
    ensures { MatchResult result
        (λ script. (script_of text.now ≡ Ok script) × IsSound script)
        (IsScriptError (script_of text.now)) }
{
    match parse(alloc, text) {
        Ok(script) => Ok(script),
        Err(fault) => Err(status_of(fault)),
    }
}

/// Reads a script, runs it and writes its text.
pub(crate) fn run_source<
    W: Threads + Wait + Sync,
    S: Source,
    K: Sink,
    F: FileRig + Drop + Send,
    R: CardRig + Drop + Send,
    E: Entropy + Drop + Send,
>(
    rt: &W,
    alloc: Global,
    source: &mut S,
    sink: &mut K,
    bench: Bench<F, R>,
    keys: &Keys,
    entropy: &mut E,
) -> RunEnd<F, R>
    requires { vec_len bench.files ≡ file_count }
    ensures run { RunsSource F.state R.state F.crash_image (E.is_reliable entropy.old) (S.left source.old) (S.left source.new) (K.held sink.old) (K.held sink.new) (record {
      source_failed = Rose (S.faults source.old) (S.faults source.new);
      source_ended = S.has_ended source.new;
      sink_failed = Rose (K.faults sink.old) (K.faults sink.new);
      sink_full = K.is_full sink.new;
    }) (E.faults entropy.old) (E.faults entropy.new) keys.now (bench_state F.state R.state bench) (bench_state F.state R.state result.bench) result.status }
    ensures counted { K.faults sink.old ≤ K.faults sink.new }
    ensures whole { vec_len result.bench.files ≡ file_count }
{
    let text = match read_text(alloc, source) {
        Ok(text) => text,
        Err(status) => return RunEnd { status, bench },
    };
    let script = match read_script(alloc, text.as_slice()) {
        Ok(script) => script,
        Err(status) => return RunEnd { status, bench },
    };
    drop(text);
    run_script(rt, alloc, &script, sink, bench, keys, entropy)
}

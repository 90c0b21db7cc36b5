//! The top call: a script is read, run on a bench and written, or a soak is, or a bench is migrated; the bench is exported into a folder, or the store
//! in a folder is audited; or a script of the objects on the card alone is run.

ghost use Rattle.std.specs.Prelude.{◌≡◌, ◌≤◌, ◌⊎◌, ◌↔◌, ℕ, List, None, Some, Ok, length, map, vec_len};
ghost use Rattle.std.specs.String.{string_bytes};
ghost use Rattle.tee_ports.specs.Faults.{Rose};
ghost use Rattle.tee_types.specs.Limits.{file_count};
ghost use Rattle.hmac_keys.specs.KeyTable.{rpmb_key};
ghost use Rattle.card_script.specs.declared.card_line.CardLine.{CardLine};
ghost use Rattle.card_script.specs.CardScripts.{script_of as card_script_of};
ghost use Rattle.folder_export.specs.Folders.{folder_count};
ghost use Rattle.folder_audit.specs.Audit.{folder_states};
ghost use Rattle.run_acts.specs.OpeningFiles.{files_of};
ghost use Rattle.script_text.specs.Script.{ScriptValue};
ghost use Rattle.script_text.specs.Grammar.{script_of};
ghost use Rattle.run_acts.specs.Benches.{bench_state};
ghost use Rattle.script_runner.specs.RunCauses.{RunsItsScript};
ghost use Rattle.script_runner.specs.Runs.{RunsSource};
ghost use Rattle.script_runner.specs.Exports.{ExportsItsScript, RunsExport};
ghost use Rattle.script_runner.specs.Forms.{form_of};
ghost use Rattle.script_runner.specs.Migrations.{RunsMigration};
ghost use Rattle.script_runner.specs.Audits.{RunsAudit};
ghost use Rattle.script_runner.specs.CardRuns.{RunsCard, RunsItsLines};
ghost use Rattle.script_runner.specs.Soaks.{RunsSoak};

use crate::Status;
use crate::audit_run::run_audit;
use crate::card_run::run_card;
use crate::export_run::run_export;
use crate::forms::{Form, form_of};
use crate::migration_run::run_migration;
use crate::run_state::RunEnd;
use crate::soak_run::run_soak;
use crate::source_run::run_source;
use hmac_keys::Keys;
use rpmb_card::CardRig;
use run_acts::Bench;
use std::alloc::Global;
use std::sync::Wait;
use std::thread::Threads;
use tee_ports::{Entropy, FileRig, Sink, Source, StoreFile};

/// Does all that the program does, in the form that the words have. `run`: reads the script from the source to its end, opens the bench, runs
/// the script's steps on it, and writes the history to the sink. `soak N`: opens the bench, makes the calls that follow from the number
/// as one phase on threads, lists the objects that it leaves, and writes five lines of what came of it; no source is read. `migrate`: moves
/// what the bench has in files of an old format into files of the current one, and writes a line of what was moved and the lines of the
/// objects; no source is read, and a card whose block 0 is blank is refused. `export PATH`: does all that `run` does, and where that is done reads
/// the card's block 0, a blank one too, and copies that and the files of the bench that it left into the folder. `audit PATH`: reads the store that
/// was exported into the folder, and writes a line for each object, with its certificate where it is whole; no source is read, and no device of
/// the bench is called. `card`: reads a script of the objects on the card alone, mounts the card, does the lines, and writes their replies; nothing is
/// formatted, and no file of the bench is called.
///
/// `rt` starts the threads of phases that have their applications on threads, and waits for them; so it is not claimed that a run comes to
/// its end. `words` are those behind the program's name. `folder` are the files of the folder that they speak of (`folder_of`): one for each
/// file of the bench, and the last for the card's block; but `export` and `audit` no form calls one. In `run`, `soak` and `export` a card whose
/// block 0 is blank is formatted. Want of memory is the one status without a cause. The bench is given back as the run left it; where there is
/// no script, it is as it was.
pub fn run<
    W: Threads + Wait + Sync,
    S: Source,
    K: Sink,
    F: FileRig + Drop + Send,
    R: CardRig + Drop + Send,
    E: Entropy + Drop + Send,
    G: StoreFile + Drop,
>(
    rt: &W,
    alloc: Global,
    words: &[String],
    source: &mut S,
    sink: &mut K,
    bench: Bench<F, R>,
    keys: &Keys,
    entropy: &mut E,
    folder: &mut Vec<G>,
) -> RunEnd<F, R>
    requires files { vec_len bench.files ≡ file_count }
    requires folder { vec_len folder.old ≡ folder_count }
    // `run`: what was taken, put and recorded, why the run ended so, and what it did to the bench.
    ensures run { form_of (map string_bytes words.now) ≡ Some Form.Run
        → RunsSource F.state R.state F.crash_image (E.is_reliable entropy.old) (S.left source.old) (S.left source.new) (K.held sink.old) (K.held sink.new) (record {
          source_failed = Rose (S.faults source.old) (S.faults source.new);
          source_ended = S.has_ended source.new;
          sink_failed = Rose (K.faults sink.old) (K.faults sink.new);
          sink_full = K.is_full sink.new;
        }) (E.faults entropy.old) (E.faults entropy.new) keys.now (bench_state F.state R.state bench) (bench_state F.state R.state result.bench) result.status }

    // A script within the limit is done, or a mount is refused or fails, or its quotas exceed the store, or there is no memory, where the source
    // and the sink do not fail and the sink has room.
    ensures complete { (bytes : List ℕ) (script : ScriptValue) → form_of (map string_bytes words.now) ≡ Some Form.Run
        → S.left source.old ≡ Some bytes → length bytes ≤ 16777216 → script_of bytes ≡ Ok script
        → ¬ Rose (S.faults source.old) (S.faults source.new)
        → ¬ Rose (K.faults sink.old) (K.faults sink.new) → ¬ K.is_full sink.new
        → RunsItsScript result.status }

    // `soak N`: what was put and recorded, why it ended so, and what it did to the bench.
    ensures soak { (number : ℕ) → form_of (map string_bytes words.now) ≡ Some (Form.Soak number)
        → RunsSoak F.state R.state F.crash_image (E.is_reliable entropy.old) keys.now number (E.faults entropy.old) (E.faults entropy.new)
        (Rose (K.faults sink.old) (K.faults sink.new) ⊎ K.is_full sink.new) (K.held sink.old) (K.held sink.new)
        (bench_state F.state R.state bench) (bench_state F.state R.state result.bench) result.status }
    ensures unread { (number : ℕ) → form_of (map string_bytes words.now) ≡ Some (Form.Soak number) → source.new ≡ source.old }

    // `migrate`: what was moved and put, why it ended so, and what it did to the bench.
    ensures migrate { form_of (map string_bytes words.now) ≡ Some Form.Migrate
        → RunsMigration F.state R.state keys.now (E.faults entropy.old) (E.faults entropy.new)
        (Rose (K.faults sink.old) (K.faults sink.new) ⊎ K.is_full sink.new) (K.held sink.old) (K.held sink.new)
        (bench_state F.state R.state bench) (bench_state F.state R.state result.bench) result.status }
    ensures unsourced { form_of (map string_bytes words.now) ≡ Some Form.Migrate → source.new ≡ source.old }

    // `export PATH`: what the run of the script did, and where that was done, what the export did to the bench and to the folder.
    ensures export { form_of (map string_bytes words.now) ≡ Some Form.Export
        → RunsExport F.state R.state F.crash_image (E.is_reliable entropy.old) (S.left source.old) (S.left source.new) (K.held sink.old) (K.held sink.new) (record {
          source_failed = Rose (S.faults source.old) (S.faults source.new);
          source_ended = S.has_ended source.new;
          sink_failed = Rose (K.faults sink.old) (K.faults sink.new);
          sink_full = K.is_full sink.new;
        }) (E.faults entropy.old) (E.faults entropy.new) keys.now (bench_state F.state R.state bench) (bench_state F.state R.state result.bench)
        (files_of G.state folder.old.items) (files_of G.state folder.new.items) result.status }

    // As `complete` says of `run`, or a call of a file failed in exporting, whose count rose.
    ensures export_complete { (bytes : List ℕ) (script : ScriptValue) → form_of (map string_bytes words.now) ≡ Some Form.Export
        → S.left source.old ≡ Some bytes → length bytes ≤ 16777216 → script_of bytes ≡ Ok script
        → ¬ Rose (S.faults source.old) (S.faults source.new)
        → ¬ Rose (K.faults sink.old) (K.faults sink.new) → ¬ K.is_full sink.new
        → ExportsItsScript result.status }

    // `audit PATH`: how the audit ended, what was put of its text, and why the run ended so. Nothing else is asked.
    ensures audit { form_of (map string_bytes words.now) ≡ Some Form.Audit
        → RunsAudit keys.now (Rose (K.faults sink.old) (K.faults sink.new) ⊎ K.is_full sink.new) (K.held sink.old) (K.held sink.new)
        (folder_states G.state folder.old.items) (folder_states G.state folder.new.items) result.status }
    ensures audit_apart { form_of (map string_bytes words.now) ≡ Some Form.Audit
        → (result.bench ≡ bench) × (source.new ≡ source.old) × (entropy.new ≡ entropy.old) }

    // `card`: what was taken and put, how the run ended, and what it did to the port to the card. No file of the bench is called, and the nonces are
    // those of a stream of the generator, so its own count stays.
    ensures card { form_of (map string_bytes words.now) ≡ Some Form.Card
        → RunsCard (E.is_reliable entropy.old) (rpmb_key keys.now.huk) (S.left source.old) (S.left source.new) (K.held sink.old) (K.held sink.new) (record {
          source_failed = Rose (S.faults source.old) (S.faults source.new);
          source_ended = S.has_ended source.new;
          sink_failed = Rose (K.faults sink.old) (K.faults sink.new);
          sink_full = K.is_full sink.new;
        }) (R.state bench.card) (R.state result.bench.card) result.status }
    ensures card_apart { form_of (map string_bytes words.now) ≡ Some Form.Card
        → (result.bench.files ≡ bench.files) × (entropy.new ≡ entropy.old) }

    // As `complete` says of `run`, of a script of the card.
    ensures card_complete { (bytes : List ℕ) (lines : List CardLine) → form_of (map string_bytes words.now) ≡ Some Form.Card
        → S.left source.old ≡ Some bytes → length bytes ≤ 16777216 → card_script_of bytes ≡ Ok lines
        → ¬ Rose (S.faults source.old) (S.faults source.new)
        → ¬ Rose (K.faults sink.old) (K.faults sink.new) → ¬ K.is_full sink.new
        → RunsItsLines result.status }

    // But `export` and `audit` no form calls a file of the folder.
    ensures folder { ¬ (form_of (map string_bytes words.now) ≡ Some Form.Export) → ¬ (form_of (map string_bytes words.now) ≡ Some Form.Audit)
        → folder.new ≡ folder.old }
    ensures folder_whole { vec_len folder.new ≡ folder_count }

    // Usage comes exactly where the words have no form, and then nothing is done.
    ensures usage { (result.status ≡ Status.Usage) ↔ (form_of (map string_bytes words.now) ≡ None) }
    ensures undone { form_of (map string_bytes words.now) ≡ None
        → (result.bench ≡ bench) × (source.new ≡ source.old) × (sink.new ≡ sink.old) × (entropy.new ≡ entropy.old) }
    ensures whole { vec_len result.bench.files ≡ file_count }
{
    match form_of(words) {
        Some(Form::Run) => run_source(rt, alloc, source, sink, bench, keys, entropy),
        Some(Form::Soak(number)) => run_soak(rt, alloc, number, sink, bench, keys, entropy),
        Some(Form::Migrate) => run_migration(alloc, sink, bench, keys, entropy),
        Some(Form::Export) => { run_export(rt, alloc, source, sink, bench, keys, entropy, folder) }
        Some(Form::Audit) => {
            let status = run_audit(alloc, sink, keys, folder);
            RunEnd { status, bench }
        }
        Some(Form::Card) => run_card(alloc, source, sink, bench, keys, &*entropy),
        None => RunEnd {
            status: Status::Usage,
            bench,
        },
    }
}

//! Laws of runs. Each function does nothing: its contract is the law.

ghost use Rattle.std.specs.Prelude.{◌⊎◌, ℕ, List};
ghost use Rattle.hmac_keys.specs.declared.Keys.{Keys};
ghost use Rattle.tee_ports.specs.Faults.{Rose};
ghost use Rattle.script_runner.specs.CountLaws.{RunsCountAsArmed};
ghost use Rattle.script_runner.specs.HeldRuns.{RunsHoldLeft};
ghost use Rattle.script_runner.specs.MigrationLaws.{MigrationsEnd, MigrationsTellNoOldFile};
ghost use Rattle.script_runner.specs.QuietLaws.{OpenedRunsAreOfMachine, QuietRunsAreOfMachine};
ghost use Rattle.script_runner.specs.QuotaRuns.{QuotaRunsIsolate};
ghost use Rattle.script_runner.specs.RunLaws.{QuietRunsEnd, RunsFindLeft};

use rpmb_card::RpmbPort;
use tee_ports::{Entropy, FileRig, Sink, Source};

/// What was answered stands in each phase and each list of a run, over crashes: each finds the objects that the acts before it leave, or these with
/// the one commit that is in doubt. No store is refused. The bench held what was left, or it was blank and nothing was left; none of its files was
/// tainted, and its port told a card with the key.
pub fn runs_find_left<S: Source, K: Sink, F: FileRig, R: RpmbPort, E: Entropy>(entropy: &E)
    ensures { (was source : S) (held sink : K) → RunsFindLeft F.state R.state F.crash_image (E.is_reliable entropy.now) (record {
      source_failed = Rose (S.faults was) (S.faults source);
      source_ended = S.has_ended source;
      sink_failed = Rose (K.faults held) (K.faults sink);
      sink_full = K.is_full sink;
    }) }
{}

/// On devices that do not fail, such a run ends with the status 0, or for want of memory, unless its quotas are over-committed.
pub fn quiet_runs_end<S: Source, K: Sink, F: FileRig, R: RpmbPort, E: Entropy>(entropy: &E)
    ensures { (was source : S) (held sink : K) → QuietRunsEnd F.state R.state F.crash_image (E.is_reliable entropy.now) (record {
      source_failed = Rose (S.faults was) (S.faults source);
      source_ended = S.has_ended source;
      sink_failed = Rose (K.faults held) (K.faults sink);
      sink_full = K.is_full sink;
    }) }
{}

/// On devices that do not fail, each phase of acts that arm nothing is the machine's.
pub fn quiet_runs_are_of_machine<F: FileRig, R: RpmbPort, E: Entropy>(entropy: &E)
    ensures { (keys : Keys) (applications : List (List ℕ)) → QuietRunsAreOfMachine F.state R.state F.crash_image (E.is_reliable entropy.now) keys applications }
{}

/// So is each phase of a bench that was quiet before its store was found or formatted.
pub fn opened_runs_are_of_machine<F: FileRig, R: RpmbPort, E: Entropy>(entropy: &E)
    ensures { (keys : Keys) (applications : List (List ℕ)) → OpenedRunsAreOfMachine F.state R.state F.crash_image (E.is_reliable entropy.now) keys applications }
{}

/// In each phase with a quota, under those that were set before it: an event that raises a number of an application leaves it within its quota, a
/// call that was refused is one that quotas refuse, and each application is answered by its own calls alone, or a device has the blame.
pub fn quota_runs_isolate<F: FileRig, R: RpmbPort, E: Entropy>(entropy: &E)
    ensures { (keys : Keys) (applications : List (List ℕ)) → QuotaRunsIsolate F.state R.state F.crash_image (E.is_reliable entropy.now) keys applications }
{}

/// A file or a card that fails only where it is armed, counts no fault over a whole run but where a line above armed it. So it is in each bench
/// that the run leaves, at whatever status it ends; of a file, but for calls that found no memory.
pub fn runs_count_as_armed<S: Source, K: Sink, F: FileRig, R: RpmbPort, E: Entropy>(entropy: &E)
    ensures { (was source : S) (held sink : K) → RunsCountAsArmed F.state R.state F.crash_image (E.is_reliable entropy.now) (record {
      source_failed = Rose (S.faults was) (S.faults source);
      source_ended = S.has_ended source;
      sink_failed = Rose (K.faults held) (K.faults sink);
      sink_full = K.is_full sink;
    }) }
{}

/// Each bench of a run holds what the records down to there leave, whether the store was found or formatted: between any two acts, and as the bench
/// is handed back, also behind a mount or a list that was refused. None of its files is tainted, and its port tells a card with the key.
pub fn runs_hold_left<S: Source, K: Sink, F: FileRig, R: RpmbPort, E: Entropy>(entropy: &E)
    ensures { (was source : S) (held sink : K) → RunsHoldLeft F.state R.state F.crash_image (E.is_reliable entropy.now) (record {
      source_failed = Rose (S.faults was) (S.faults source);
      source_ended = S.has_ended source;
      sink_failed = Rose (K.faults held) (K.faults sink);
      sink_full = K.is_full sink;
    }) }
{}

/// A migration over files that stay honest and a card that has the key, and room for what there is to move, of which no count of faults rose,
/// ends with the status 0, or for want of memory: whatever a crash might leave of the bench mounted.
pub fn migrations_end<K: Sink, F: FileRig, R: RpmbPort>()
    ensures { (held sink : K) → MigrationsEnd F.state R.state (Rose (K.faults held) (K.faults sink) ⊎ K.is_full sink) }
{}

/// No migration is refused for a file of the old format, whatever the card is.
pub fn migrations_tell_no_old_file<K: Sink, F: FileRig, R: RpmbPort>()
    ensures { (held sink : K) → MigrationsTellNoOldFile F.state R.state (Rose (K.faults held) (K.faults sink) ⊎ K.is_full sink) }
{}

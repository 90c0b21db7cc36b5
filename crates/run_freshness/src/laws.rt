//! Laws of benches between mounts. Each function does nothing: its contract is the law.

ghost use Rattle.run_freshness.specs.Course.{CoursesAreFresh};
ghost use Rattle.run_freshness.specs.Runs.{RunsAreFresh};
ghost use Rattle.run_freshness.specs.Taken.{PhasesBeginBeside};
ghost use Rattle.tee_ports.specs.Faults.{Rose};
ghost use Rattle.run_freshness.specs.Laws.{ListsAreFresh, MountsAreFresh, MountsHaveSameEntries};

use rpmb_card::RpmbPort;
use tee_ports::{Entropy, FileRig, Sink, Source, StoreFile};

/// Whatever was done to the files of a bench since it was closed: where it is mounted under the same card, the objects have the names and
/// sizes of those that the closed bench mounts to, and each part that is good in both is equal; or what was read clashes with it.
pub fn mounts_are_fresh<F: StoreFile, R: RpmbPort>()
    ensures { MountsAreFresh F.state R.state }
{}

/// And the directory's entries are the same, or there is a clash at the directory.
pub fn mounts_have_same_entries<F: StoreFile, R: RpmbPort>()
    ensures { MountsHaveSameEntries F.state R.state }
{}

/// So of a list, whatever its files are: what it shows agrees with the closed bench, or clashes with it.
pub fn lists_are_fresh<F: StoreFile, R: RpmbPort>()
    ensures { ListsAreFresh F.state R.state }
{}

/// And where files are not honest: there is a tamper scenario under which a phase begins, at each object of such a file, with no more damage than
/// the closed bench held, or what it held clashes with what the file then has; and under it the phase's history is answered, or the promises end
/// at a first event.
pub fn phases_begin_beside<F: FileRig, R: RpmbPort, E: Entropy>(entropy: &E)
    ensures { PhasesBeginBeside F.state R.state (E.is_reliable entropy.now) }
{}

/// Over the whole course of a run: each phase opens fresh, and each list shows what is fresh, beside the bench that was closed last.
pub fn courses_are_fresh<F: FileRig, R: RpmbPort, E: Entropy>(entropy: &E)
    ensures { CoursesAreFresh F.state R.state F.crash_image (E.is_reliable entropy.now) }
{}

/// So of each run of a script, whatever its words did to the bench, and at whatever status it ended: of each mount and each list that the run
/// tells of, beside the bench that was closed last before it. That is the one that the phase before it closed, or that the run formatted, or that
/// was closed before the run.
pub fn runs_are_fresh<S: Source, K: Sink, F: FileRig, R: RpmbPort, E: Entropy>(entropy: &E)
    ensures { (was source : S) (held sink : K) → RunsAreFresh F.state R.state F.crash_image (E.is_reliable entropy.now) (record {
      source_failed = Rose (S.faults was) (S.faults source);
      source_ended = S.has_ended source;
      sink_failed = Rose (K.faults held) (K.faults sink);
      sink_full = K.is_full sink;
    }) }
{}

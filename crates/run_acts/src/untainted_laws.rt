//! Laws of files that stay honest. Each function does nothing: its contract is the law.

ghost use Rattle.std.specs.Prelude.{◌≡◌, ◌≤◌, ℕ, vec_len};
ghost use Rattle.disk_model.specs.State.{no_file};
ghost use Rattle.tee_types.specs.Limits.{file_count};
ghost use Rattle.run_acts.specs.Benches.{bench_state};
ghost use Rattle.run_acts.specs.Untainted.{CrashesStayUntainted, FlipsStayUntainted, ListsStayUntainted, OpeningsStayUntainted, PhasesStayUntainted, RefusalsStayHonest, RestoresStayUntainted, UntaintedFilesAreHonest};

use object_calls::Bench;
use rpmb_card::RpmbPort;
use tee_ports::{Entropy, StoreFile};

/// A bench has no file past the last.
pub fn benches_end<F: StoreFile, R: RpmbPort>(bench: &Bench<F, R>)
    requires { vec_len bench.now.files ≡ file_count }
    ensures { (file : ℕ) → file_count ≤ file → (bench_state F.state R.state bench.now).files file ≡ no_file }
{}

/// Files that are not tainted are honest.
#[tactic(auto, using(crate::proofs::Untainted::untainted_files_are_honest))]
pub fn untainted_files_are_honest()
    ensures { UntaintedFilesAreHonest }
{}

/// They stay so in a crash, or in none.
#[tactic(auto, using(crate::proofs::Untainted::crashes_stay_untainted))]
pub fn crashes_stay_untainted()
    ensures { CrashesStayUntainted }
{}

/// Where one of them is put back.
#[tactic(auto, using(crate::proofs::Untainted::restores_stay_untainted))]
pub fn restores_stay_untainted()
    ensures { RestoresStayUntainted }
{}

/// Where a mask is laid over one of them between two phases.
#[tactic(auto, using(crate::proofs::Untainted::flips_stay_untainted))]
pub fn flips_stay_untainted()
    ensures { FlipsStayUntainted }
{}

/// In a phase that arms no mask.
pub fn phases_stay_untainted<F: StoreFile, R: RpmbPort, E: Entropy>(entropy: &E)
    ensures { PhasesStayUntainted F.state R.state (E.is_reliable entropy.now) }
{}

/// In a list.
pub fn lists_stay_untainted<F: StoreFile, R: RpmbPort>()
    ensures { ListsStayUntainted F.state R.state }
{}

/// Where the bench is opened.
pub fn openings_stay_untainted()
    ensures { OpeningsStayUntainted }
{}

/// The directory's file stays honest where a mount is refused.
#[tactic(auto, using(crate::proofs::Untainted::refusals_stay_honest))]
pub fn refusals_stay_honest()
    ensures { RefusalsStayHonest }
{}

//! Laws of benches between mounts. Each function does nothing: its contract is the law.

ghost use Rattle.object_calls.specs.declared.bench.Bench.{Bench};
ghost use Rattle.run_acts.specs.Benches.{bench_state};
ghost use Rattle.run_acts.specs.Between.{AreSound};
ghost use Rattle.run_acts.specs.MigrationLaws.{MigratedBenchesStayCurrent, MovedBenchesAreCurrent, MovedBenchesAreListed, UndisturbedBenchesAreMoved};
ghost use Rattle.run_acts.specs.MountingLaws.{HeldBenchesAreNotRefused, MountingBenchesAreNotRefused, OldBenchesAreNotMounted, OldBenchesAreRefused};
ghost use Rattle.run_acts.specs.Quiet.{OpeningsStayQuiet, QuietPhasesAreOfMachine, QuietPhasesStayQuiet};
ghost use Rattle.run_acts.specs.DeviceLaws.{BlockReadsKeep, CountersAreOfCards, CrashesKeep, CrashesKeepSteady, CrashesMayBe, DisarmedFilesAreSteady, FormedBenchesHoldNone, KeptDevicesHold, ListsKeep, ListsShowLeft, MountsOpenWithLeft, NextOpeningsAreLeft, NextPhasesOpenWithLeft, NothingMayBe, PhasesLeave, RefusedListsKeep, RefusedMountsKeep};

use object_calls::Bench;
use rpmb_card::RpmbPort;
use tee_ports::{Entropy, StoreFile};

/// What holds of every file holds of those of every bench.
pub fn benches_are_sound<F: StoreFile, R: RpmbPort>(bench: &Bench<F, R>)
    ensures { AreSound (bench_state F.state R.state bench.now).files }
{}

/// A crash of all files is one that may be, whatever image each takes of those that a crash may leave.
#[tactic(auto, using(crate::proofs::CrashedLaws::crashes_may_be))]
pub fn crashes_may_be()
    ensures { CrashesMayBe }
{}

/// Nothing may happen.
#[tactic(auto, using(crate::proofs::CrashedLaws::nothing_may_be))]
pub fn nothing_may_be()
    ensures { NothingMayBe }
{}

/// A crash leaves what the bench holds.
pub fn crashes_keep()
    ensures { CrashesKeep }
{}

/// Devices that keep their contents hold what they held.
pub fn kept_devices_hold()
    ensures { KeptDevicesHold }
{}

/// A mount that is refused leaves what the bench holds.
pub fn refused_mounts_keep()
    ensures { RefusedMountsKeep }
{}

/// Reading the card's block leaves what the bench holds.
pub fn block_reads_keep()
    ensures { BlockReadsKeep }
{}

/// A bench that was formatted holds no objects.
pub fn formed_benches_hold_none()
    ensures { FormedBenchesHoldNone }
{}

/// Once all arms were removed, a file that tells its arms is steady.
#[tactic(auto, using(crate::proofs::CrashedLaws::disarmed_files_are_steady))]
pub fn disarmed_files_are_steady()
    ensures { DisarmedFilesAreSteady }
{}

/// A crash leaves a steady file steady.
#[tactic(auto, using(crate::proofs::CrashedLaws::crashes_keep_steady))]
pub fn crashes_keep_steady()
    ensures { CrashesKeepSteady }
{}

/// Where every file is honest, a phase leaves a bench of which every picture mounts to what its history leaves, or to that with its commit
/// in doubt.
pub fn phases_leave<F: StoreFile, R: RpmbPort, E: Entropy>(entropy: &E)
    ensures { PhasesLeave F.state R.state (E.is_reliable entropy.now) }
{}

/// The counter from which a phase's history is legal is the card's.
pub fn counters_are_of_cards<F: StoreFile, R: RpmbPort, E: Entropy>(entropy: &E)
    ensures { CountersAreOfCards F.state R.state (E.is_reliable entropy.now) }
{}

/// Such a bench is mounted with just these objects.
pub fn mounts_open_with_left<F: StoreFile, R: RpmbPort>()
    ensures { MountsOpenWithLeft F.state R.state }
{}

/// So the mount after a phase, with a crash between them or none, opens with what the phase left, or with that and its commit in doubt.
pub fn next_openings_are_left<F: StoreFile, R: RpmbPort, E: Entropy>(entropy: &E)
    ensures { NextOpeningsAreLeft F.state R.state (E.is_reliable entropy.now) }
{}

/// And so does the next phase.
pub fn next_phases_open_with_left<F: StoreFile, R: RpmbPort, E: Entropy>(entropy: &E)
    ensures { NextPhasesOpenWithLeft F.state R.state (E.is_reliable entropy.now) }
{}

/// A list shows what the bench holds.
pub fn lists_show_left<F: StoreFile, R: RpmbPort>()
    ensures { ListsShowLeft F.state R.state }
{}

/// A list leaves what the bench holds.
pub fn lists_keep<F: StoreFile, R: RpmbPort>()
    ensures { ListsKeep F.state R.state }
{}

/// A list that is refused leaves it, too.
pub fn refused_lists_keep<F: StoreFile, R: RpmbPort>()
    ensures { RefusedListsKeep F.state R.state }
{}

/// A quiet bench that is opened is quiet, whether its store was found or it was formatted.
pub fn openings_stay_quiet()
    ensures { OpeningsStayQuiet }
{}

/// A phase on devices that do not fail, for which nothing is armed: the machine answers each of its calls.
pub fn quiet_phases_are_of_machine<F: StoreFile, R: RpmbPort, E: Entropy>(entropy: &E)
    ensures { QuietPhasesAreOfMachine F.state R.state (E.is_reliable entropy.now) }
{}

/// Such a phase leaves the bench quiet.
pub fn quiet_phases_stay_quiet<F: StoreFile, R: RpmbPort, E: Entropy>(entropy: &E)
    ensures { QuietPhasesStayQuiet F.state R.state (E.is_reliable entropy.now) }
{}

/// A bench that mounts is not refused.
pub fn mounting_benches_are_not_refused()
    ensures { MountingBenchesAreNotRefused }
{}

/// Nor is one that holds objects.
pub fn held_benches_are_not_refused()
    ensures { HeldBenchesAreNotRefused }
{}

/// A bench that has a file of the old format is refused for it.
pub fn old_benches_are_refused()
    ensures { OldBenchesAreRefused }
{}

/// And it is not mounted.
pub fn old_benches_are_not_mounted<F: StoreFile, R: RpmbPort>()
    ensures { OldBenchesAreNotMounted F.state R.state }
{}

/// A bench whose migration is not disturbed is migrated, unless memory runs out.
pub fn undisturbed_benches_are_moved()
    ensures { UndisturbedBenchesAreMoved }
{}

/// And then its objects are listed.
pub fn moved_benches_are_listed<F: StoreFile, R: RpmbPort>()
    ensures { MovedBenchesAreListed F.state R.state }
{}

/// No file of the old format is found behind a migration.
pub fn moved_benches_are_current<F: StoreFile, R: RpmbPort>()
    ensures { MovedBenchesAreCurrent F.state R.state }
{}

/// Once its objects were listed, all files of a bench that was migrated are of the current format still.
pub fn migrated_benches_stay_current<F: StoreFile, R: RpmbPort>()
    ensures { MigratedBenchesStayCurrent F.state R.state }
{}

//! A phase.

ghost use Rattle.std.specs.Prelude.{◌≡◌, ◌≢◌, ◌+◌, ◌*◌, ◌<◌, ◌≤◌, ◌^◌, ℕ, List, [], length, map, vec_len, All, IfErr, IfOk, MatchResult, IfNone, IfSome, OnErr, OnOk};
ghost use Rattle.tee_types.specs.Limits.{file_count};
ghost use Rattle.hmac_keys.specs.declared.Keys.{Keys};
ghost use Rattle.app_quota.specs.Commitments.{committed_objects, distinct_apps};
ghost use Rattle.app_quota.specs.Quotas.{limit_of};
ghost use Rattle.script_text.specs.Laws.{IsArm};
ghost use Rattle.store_commit.specs.Counts.{RefusalNotDrawn};
ghost use Rattle.store_model.specs.Object.{most_objects};
ghost use Rattle.object_calls.specs.Opening.{IsKeyed};
ghost use Rattle.object_calls.specs.OpeningSessions.{AreUnseated};
ghost use Rattle.run_acts.specs.Reliable.{AreFresh, AreReliable};
ghost use Rattle.run_acts.specs.ServedSteps.{AreCalls};
ghost use Rattle.run_acts.specs.Benches.{HasPassed, KeepsDevices, bench_state, opening_state};
ghost use Rattle.run_acts.specs.Between.{AreSound};
ghost use Rattle.run_acts.specs.MountedDevices.{IsMounted, objects_in};
ghost use Rattle.run_acts.specs.PhaseArms.{ArmsFront, IsReady};
ghost use Rattle.run_acts.specs.Disarming.{Disarms};
ghost use Rattle.script_text.specs.declared.script.Arm.{Arm};
ghost use Rattle.script_text.specs.declared.script.Mode.{Mode};
ghost use Rattle.script_text.specs.declared.script.Step.{Step};
ghost use Rattle.run_acts.specs.Phases.{ServesOpened};
ghost use Rattle.run_acts.specs.PhaseOutcomes.{EndsPhase, bench_left};
ghost use Rattle.run_acts.specs.PhaseRefusals.{ClosesOpened, IsGivenUp};
ghost use Rattle.run_acts.specs.QuotaRefusals.{AreRoomFor, HoldsOfAdmitted};

use crate::arming::arm_devices;
use crate::commitments::committed_objects;
use crate::disarming::disarm_bench;
use crate::quota_closed::QuotaClosed;
use crate::quota_phase::serve_within;
use crate::refused_call::RefusedCall;
use crate::sessions::open_sessions;
use crate::{had_memory, mount_bench, starved_counts};
use app_quota::Quota;
use hmac_keys::Keys;
use object_calls::{Bench, Halted, Opening};
use quota_store::Session;
use rpmb_card::CardRig;
use script_text::{Arm, Mode, Step};
use std::alloc::Global;
use std::sync::Wait;
use std::thread::Threads;
use store_commit::MountFault;
use store_model::History;
use tee_ports::{Entropy, FileRig};
use tee_types::{AppId, MAX_OBJECTS, NoMemory};

/// A phase that is to be run.
#[derive(Clone, Copy, Drop)]
pub struct Phase<'a> {
    /// Its number. The sessions draw from streams that follow from it.
    pub number: u64,
    /// How its calls are served.
    pub mode: Mode,
    /// The application of each session.
    pub applications: &'a [AppId],
    /// What applications may have at most, where it is said.
    pub quotas: &'a [Quota],
    /// What the devices are set to do once the store is mounted.
    pub arms: &'a [Arm],
    /// The calls of all sessions.
    pub calls: &'a [Step],
}

/// What a phase gives back.
#[derive(Drop)]
pub struct PhaseEnd<F, R> {
    /// The bench, disarmed.
    pub bench: Bench<F, R>,
    /// How many objects there were as it was mounted.
    pub objects: u16,
    /// The events of all sessions, in their one order.
    pub history: History,
    /// The calls that were refused under the quotas: those of the first application first, and of each in the order of their steps.
    pub refused: Vec<RefusedCall>,
}

/// What a phase comes to.
#[derive(Drop)]
pub enum PhaseOutcome<F, R> {
    /// It was served.
    Served(PhaseEnd<F, R>),
    /// The quotas commit more than 256 objects. Nothing was armed, and no call was made.
    OverCommitted {
        /// The bench, as the mount left it.
        bench: Bench<F, R>,
        /// How many objects the quotas commit.
        sum: u32,
    },
}

// A phase was given up for want of memory: its bench is disarmed.
fn starved_bench<F: FileRig + Drop, R: CardRig + Drop>(bench: Bench<F, R>) -> Halted<F, R>
    ensures fault { result.fault ≡ MountFault.NoMemory }
    ensures disarms { Disarms (bench_state F.state R.state bench) (bench_state F.state R.state result.bench) }
    ensures whole { vec_len result.bench.files ≡ vec_len bench.files }
{
    Halted {
        bench: disarm_bench(bench),
        fault: MountFault::NoMemory,
    }
}

// Mounts the bench. Where memory ran out in a call of a file since the counts were taken, it is given up for that.
fn mount_with_memory<F: FileRig + Drop, R: CardRig + Drop, E: Entropy>(
    alloc: Global,
    bench: Bench<F, R>,
    keys: &Keys,
    entropy: &mut E,
    before: &[u64],
) -> Result<Opening<F, R>, Halted<F, R>>
    requires whole { vec_len bench.files ≡ file_count }
    requires counted { before.now ≡ map (λ f. (F.state f).starved) bench.files.items }
    ensures sound { AreSound (bench_state F.state R.state bench).files }
    ensures mounts { IfOk result (IsMounted F.state R.state keys.now (bench_state F.state R.state bench)) }
    ensures keeps { IfOk result (λ o. KeepsDevices (bench_state F.state R.state bench) (opening_state F.state R.state o)) }
    ensures passed { IfOk result (λ o. HasPassed (bench_state F.state R.state bench) (opening_state F.state R.state o)) }
    ensures undrawn { IfOk result (λ o. E.faults entropy.new ≡ E.faults entropy.old) }
    ensures unopened { IfOk result (λ o. o.applications ≡ []) }
    ensures refused { (applications : List (List ℕ)) (arms : List Arm) (mode : Mode) (calls : List Step) → IfErr result (λ h. IsGivenUp F.state R.state keys.now applications arms mode calls
        (bench_state F.state R.state bench) (bench_state F.state R.state h.bench) (E.faults entropy.old) (E.faults entropy.new) h.fault) }
    ensures whole_err { IfErr result (λ h. vec_len h.bench.files ≡ file_count) }
    ensures drawn { E.is_reliable entropy.old → IfErr result (λ h. RefusalNotDrawn h.fault) }
    ensures reliable { E.is_reliable entropy.old → E.is_reliable entropy.new }
{
    match mount_bench(alloc, bench, keys, entropy) {
        Ok(opening) => Ok(opening),
        Err(halted) if had_memory(halted.bench.files.as_slice(), before) => Err(halted),
        Err(halted) => Err(starved_bench(halted.bench)),
    }
}

// Opens a session for each application, and arms the devices.
fn make_ready<F: FileRig + Drop, R: CardRig + Drop, E: Entropy>(
    alloc: Global,
    opening: &mut Opening<F, R>,
    entropy: &E,
    number: u64,
    applications: &[AppId],
    arms: &[Arm],
) -> Result<Vec<Session<E>>, NoMemory>
    requires none { opening.old.applications ≡ [] }
    requires few { length applications.now ≤ 16 }
    requires number { 16 * number + 16 < 2 ^ 32 }
    requires arms { All IsArm arms.now }
    ensures sessions { IfOk result (λ s. AreUnseated applications.now s.items) }
    ensures fresh { IfOk result (λ s. AreFresh E.faults s.items) }
    ensures reliable { E.is_reliable entropy.now → IfOk result (λ s. AreReliable E.is_reliable s.items) }
    ensures ready { OnOk result (IsReady F.state R.state applications.now arms.now opening.old opening.new) }
    ensures unready { OnErr result (ArmsFront arms.now (opening_state F.state R.state opening.old) (opening_state F.state R.state opening.new)) }
{
    let sessions = open_sessions(alloc, opening, entropy, number, applications)?;
    arm_devices(opening, arms)?;
    Ok(sessions)
}

// How many objects the quotas commit the store to, where these are more than it has room for.
fn find_excess<F: FileRig + Drop, R: CardRig + Drop>(
    opening: &Opening<F, R>,
    quotas: &[Quota],
    applications: &[AppId],
) -> Option<u32>
    requires { length applications.now ≤ 16 }
    ensures room { (keys : Keys) → IfNone result (AreRoomFor quotas.now applications.now (objects_in F.state R.state keys opening.now)) }
    ensures some { IfSome result (λ sum. quotas.now ≢ []) }
    ensures sum { (keys : Keys) → IfSome result (λ sum. sum ≡ committed_objects (limit_of quotas.now) (distinct_apps applications.now) (objects_in F.state R.state keys opening.now)) }
    ensures over { IfSome result (λ sum. most_objects < sum) }
{
    if quotas.is_empty() {
        return None;
    }
    let sum = committed_objects(opening, quotas, applications);
    if sum as usize > MAX_OBJECTS {
        Some(sum)
    } else {
        None
    }
}

// Serves the calls of a phase on a store that is mounted, and closes it.
fn serve_opened<
    W: Threads + Wait + Sync,
    F: FileRig + Drop + Send,
    R: CardRig + Drop + Send,
    E: Entropy + Drop + Send,
>(
    rt: &W,
    alloc: Global,
    opening: Opening<F, R>,
    keys: &Keys,
    entropy: &E,
    phase: &Phase,
) -> Result<QuotaClosed<F, R>, Bench<F, R>>
    requires keyed { IsKeyed keys.now opening }
    requires none { opening.applications ≡ [] }
    requires few { length phase.now.applications.now ≤ 16 }
    requires number { 16 * phase.now.number + 16 < 2 ^ 32 }
    requires arms { All IsArm phase.now.arms.now }
    requires calls { AreCalls (length phase.now.applications.now) phase.now.calls.now }
    ensures serves { IfOk result (λ c. ServesOpened F.state R.state (E.is_reliable entropy.now) keys.now phase.now.applications.now phase.now.quotas.now phase.now.arms.now phase.now.mode phase.now.calls.now opening
        (bench_state F.state R.state c.closed.bench) c.closed.history.events c.refused.items) }
    ensures early { IfErr result (λ b. HoldsOfAdmitted phase.now.quotas.now phase.now.calls.now (λ steps. ClosesOpened F.state R.state keys.now phase.now.applications.now phase.now.arms.now phase.now.mode steps opening (bench_state F.state R.state b))) }
    ensures whole { MatchResult result (λ c. vec_len c.closed.bench.files ≡ file_count) (λ b. vec_len b.files ≡ file_count) }
{
    let mut opening = opening;
    match make_ready(
        alloc,
        &mut opening,
        entropy,
        phase.number,
        phase.applications,
        phase.arms,
    ) {
        Ok(sessions) => serve_within(
            rt,
            alloc,
            opening,
            sessions,
            keys,
            phase.mode,
            phase.quotas,
            phase.calls,
        ),
        Err(NoMemory {}) => Err(opening.close()),
    }
}

/// Runs a phase: mounts the bench, opens a session for each application, arms its devices, serves the calls as the mode says, closes the
/// store, and disarms the bench. The sessions draw from streams of `entropy`, sixteen for each phase, by the phase's number.
///
/// Where there are quotas, a call that would leave its application more than it may have is refused: it has no event. Quotas that commit
/// more objects than a store has room for are told once the bench is mounted, before anything is armed.
///
/// # Errors
///
/// As `mount` says, where the bench is not mounted: nothing was armed. `NoMemory`, also where memory ran out in a call of a file, in the
/// mount too: the bench is disarmed, and the calls of the phase have no history.
pub fn run_phase<
    W: Threads + Wait + Sync,
    F: FileRig + Drop + Send,
    R: CardRig + Drop + Send,
    E: Entropy + Drop + Send,
>(
    rt: &W,
    alloc: Global,
    bench: Bench<F, R>,
    keys: &Keys,
    entropy: &mut E,
    phase: &Phase,
) -> Result<PhaseOutcome<F, R>, Halted<F, R>>
    requires whole { vec_len bench.files ≡ file_count }
    requires few { length phase.now.applications.now ≤ 16 }
    requires number { 16 * phase.now.number + 16 < 2 ^ 32 }
    requires calls { AreCalls (length phase.now.applications.now) phase.now.calls.now }
    requires arms { All IsArm phase.now.arms.now }
    ensures ends { IfOk result (EndsPhase F.state R.state (E.is_reliable entropy.old) keys.now phase.now.applications.now phase.now.quotas.now phase.now.arms.now phase.now.mode phase.now.calls.now (bench_state F.state R.state bench)) }
    ensures refused { IfErr result (λ h. HoldsOfAdmitted phase.now.quotas.now phase.now.calls.now (λ steps. IsGivenUp F.state R.state keys.now phase.now.applications.now phase.now.arms.now phase.now.mode steps
        (bench_state F.state R.state bench) (bench_state F.state R.state h.bench) (E.faults entropy.old) (E.faults entropy.new) h.fault)) }
    ensures undrawn { IfOk result (λ p. E.faults entropy.new ≡ E.faults entropy.old) }
    ensures whole { IfOk result (λ p. vec_len (bench_left p).files ≡ file_count) }
    ensures whole_err { IfErr result (λ h. vec_len h.bench.files ≡ file_count) }
    ensures drawn { E.is_reliable entropy.old → IfErr result (λ h. RefusalNotDrawn h.fault) }
    ensures reliable { E.is_reliable entropy.old → E.is_reliable entropy.new }
{
    let Ok(before) = starved_counts(alloc, &bench.files) else {
        return Err(starved_bench(bench));
    };
    let starved = before.as_slice();
    let opening = mount_with_memory(alloc, bench, keys, entropy, starved)?;
    if let Some(sum) = find_excess(&opening, phase.quotas, phase.applications) {
        return Ok(PhaseOutcome::OverCommitted {
            bench: opening.close(),
            sum,
        });
    }
    let objects = opening.objects();
    match serve_opened(rt, alloc, opening, keys, entropy, phase) {
        Ok(served) if had_memory(served.closed.bench.files.as_slice(), starved) => {
            Ok(PhaseOutcome::Served(PhaseEnd {
                bench: disarm_bench(served.closed.bench),
                objects,
                history: served.closed.history,
                refused: served.refused,
            }))
        }
        Ok(served) => Err(starved_bench(served.closed.bench)),
        Err(bench) => Err(starved_bench(bench)),
    }
}

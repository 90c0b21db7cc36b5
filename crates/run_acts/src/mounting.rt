//! Mounting a bench.

ghost use Rattle.std.specs.Prelude.{◌≡◌, [], vec_len, IfErr, IfOk, MatchResult};
ghost use Rattle.tee_types.specs.Limits.{file_count};
ghost use Rattle.store_commit.specs.Counts.{RefusalNotDrawn};
ghost use Rattle.run_acts.specs.Benches.{HasPassed, KeepsDevices, bench_state, opening_state};
ghost use Rattle.run_acts.specs.Between.{AreSound};
ghost use Rattle.run_acts.specs.MountedDevices.{IsMounted, IsMountRefused};

use hmac_keys::Keys;
use object_calls::{Bench, Halted, Opening, mount};
use rpmb_card::RpmbPort;
use std::alloc::Global;
use tee_ports::{Entropy, FileRig};

/// Mounts a bench, as the store below does. What is said of the answer is said here in the words of benches.
///
/// # Errors
///
/// As the mount says.
pub fn mount_bench<F: FileRig + Drop, R: RpmbPort + Drop, E: Entropy>(
    alloc: Global,
    bench: Bench<F, R>,
    keys: &Keys,
    entropy: &mut E,
) -> Result<Opening<F, R>, Halted<F, R>>
    requires { vec_len bench.files ≡ file_count }
    ensures sound { AreSound (bench_state F.state R.state bench).files }
    ensures mounts { IfOk result (IsMounted F.state R.state keys.now (bench_state F.state R.state bench)) }
    ensures keeps { IfOk result (λ o. KeepsDevices (bench_state F.state R.state bench) (opening_state F.state R.state o)) }
    ensures passed { IfOk result (λ o. HasPassed (bench_state F.state R.state bench) (opening_state F.state R.state o)) }
    ensures undrawn { IfOk result (λ o. E.faults entropy.new ≡ E.faults entropy.old) }
    ensures unopened { IfOk result (λ o. o.applications ≡ []) }
    ensures refused { IfErr result (λ h. IsMountRefused keys.now (bench_state F.state R.state bench) (bench_state F.state R.state h.bench)
        (E.faults entropy.old) (E.faults entropy.new) h.fault) }
    ensures keeps_err { IfErr result (λ h. KeepsDevices (bench_state F.state R.state bench) (bench_state F.state R.state h.bench)) }
    ensures whole_err { IfErr result (λ h. vec_len h.bench.files ≡ file_count) }
    ensures drawn { E.is_reliable entropy.old → IfErr result (λ h. RefusalNotDrawn h.fault) }
    ensures reliable { E.is_reliable entropy.old → E.is_reliable entropy.new }
{
    match mount(alloc, bench, keys, entropy) {
        Ok(opening) => Ok(opening),
        Err(halted) => Err(halted),
    }
}

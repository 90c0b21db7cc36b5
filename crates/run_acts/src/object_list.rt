//! The objects of a bench, listed.

ghost use Rattle.std.specs.Prelude.{◌≡◌, length, vec_len, IfErr, IfOk, MatchResult};
ghost use Rattle.tee_types.specs.Limits.{file_count};
ghost use Rattle.store_model.specs.Object.{ObjectMap};
ghost use Rattle.object_calls.specs.Opening.{bench_files, entries_in};
ghost use Rattle.store_commit.specs.Counts.{RefusalNotDrawn};
ghost use Rattle.run_acts.specs.Benches.{HadMemory, KeepsDevices, bench_state};
ghost use Rattle.run_acts.specs.ListedBenches.{IsListRefused, ListsBench, StopsListing};
ghost use Rattle.run_acts.specs.ListedObjects.{IsCutOff, IsListed, ListsNext};

use crate::memory_failures::{starved_counts, tell_fault};
use crate::mounting::mount_bench;
use crate::print_object;
use hmac_keys::Keys;
use object_calls::{Bench, Halted, Opening};
use rpmb_card::RpmbPort;
use std::alloc::Global;
use store_commit::MountFault;
use store_model::ObjectName;
use tee_ports::{Entropy, FileRig};

/// A bench, and the lines of its objects.
#[derive(Drop)]
pub struct Listing<F, R> {
    /// The bench.
    pub bench: Bench<F, R>,
    /// How many objects there are.
    pub objects: u16,
    /// The line of each object, in the order of their names.
    pub lines: Vec<u8>,
}

// Shows the object of the least name above, and prints its line. Gives its name.
fn list_next<F: FileRig + Drop, R: RpmbPort + Drop>(
    opening: &mut Opening<F, R>,
    after: Option<ObjectName>,
    lines: &mut Vec<u8>,
) -> Result<Option<ObjectName>, MountFault>
    ensures answer { ListsNext (entries_in opening.old) opening.old.storage_key after (bench_files F.state opening.old) (bench_files F.state opening.new)
        lines.old.items lines.new.items result }
    ensures same { opening.new ≡ record opening.old { files = opening.new.files } }
{
    match opening.next_object(after) {
        Ok(Some(shown)) => {
            let name = ObjectName {
                app: shown.app,
                id: shown.id,
            };
            match print_object(&shown, lines) {
                Ok(()) => Ok(Some(name)),
                Err(_) => Err(MountFault::NoMemory),
            }
        }
        Ok(None) => Ok(None),
        Err(fault) => Err(fault),
    }
}

// Prints the line of each object, in the order of their names.
fn list_opening<F: FileRig + Drop, R: RpmbPort + Drop>(
    alloc: Global,
    opening: &mut Opening<F, R>,
) -> Result<Vec<u8>, MountFault>
    ensures answer { MatchResult result
        (λ lines. IsListed (entries_in opening.old) opening.old.storage_key (bench_files F.state opening.old) (bench_files F.state opening.new) lines.items)
        (IsCutOff (entries_in opening.old) opening.old.storage_key (bench_files F.state opening.old) (bench_files F.state opening.new)) }
    ensures same { opening.new ≡ record opening.old { files = opening.new.files } }
{
    let mut lines = Vec::new(alloc);
    let mut after = None;
    'objects: loop {
        match list_next(opening, after, &mut lines) {
            Ok(Some(name)) => after = Some(name),
            Ok(None) => return Ok(lines),
            Err(fault) => return Err(fault),
        }
    }
}

// Mounts the bench, and lists its objects.
fn list_mounted<F: FileRig + Drop, R: RpmbPort + Drop, E: Entropy>(
    alloc: Global,
    bench: Bench<F, R>,
    keys: &Keys,
    entropy: &mut E,
) -> Result<Listing<F, R>, Halted<F, R>>
    requires { vec_len bench.files ≡ file_count }
    ensures answer { MatchResult result
        (λ l. (objects : ObjectMap) × (length objects ≡ l.objects)
        × ListsBench F.state R.state keys.now (bench_state F.state R.state bench) (bench_state F.state R.state l.bench) objects l.lines.items)
        (λ h. StopsListing F.state R.state keys.now (bench_state F.state R.state bench) (bench_state F.state R.state h.bench) (E.faults entropy.old) (E.faults entropy.new) h.fault) }
    ensures keeps { IfErr result (λ h. KeepsDevices (bench_state F.state R.state bench) (bench_state F.state R.state h.bench)) }
    ensures undrawn { IfOk result (λ l. E.faults entropy.new ≡ E.faults entropy.old) }
    ensures whole { IfOk result (λ l. vec_len l.bench.files ≡ file_count) }
    ensures whole_err { IfErr result (λ h. vec_len h.bench.files ≡ file_count) }
    ensures drawn { E.is_reliable entropy.old → IfErr result (λ h. RefusalNotDrawn h.fault) }
    ensures reliable { E.is_reliable entropy.old → E.is_reliable entropy.new }
{
    match mount_bench(alloc, bench, keys, entropy) {
        Ok(mounted) => {
            let mut opening = mounted;
            let objects = opening.objects();
            match list_opening(alloc, &mut opening) {
                Ok(lines) => {
                    let bench = opening.close();
                    Ok(Listing {
                        bench,
                        objects,
                        lines,
                    })
                }
                Err(fault) => {
                    let bench = opening.close();
                    Err(Halted { bench, fault })
                }
            }
        }
        Err(halted) => Err(halted),
    }
}

/// Lists the objects of a bench: mounts it, shows each object from the least name on, prints its line, and closes it. No device has
/// other contents afterwards.
///
/// # Errors
///
/// As the mount says; `Failed` where a call of an object's file failed; `NoMemory`, too where a call of a file found no memory.
pub fn list_objects<F: FileRig + Drop, R: RpmbPort + Drop, E: Entropy>(
    alloc: Global,
    bench: Bench<F, R>,
    keys: &Keys,
    entropy: &mut E,
) -> Result<Listing<F, R>, Halted<F, R>>
    requires { vec_len bench.files ≡ file_count }
    ensures lists { IfOk result (λ l. (objects : ObjectMap) × (length objects ≡ l.objects)
        × ListsBench F.state R.state keys.now (bench_state F.state R.state bench) (bench_state F.state R.state l.bench) objects l.lines.items) }
    ensures with_memory { IfOk result (λ l. HadMemory (bench_state F.state R.state bench) (bench_state F.state R.state l.bench)) }
    ensures undrawn { IfOk result (λ l. E.faults entropy.new ≡ E.faults entropy.old) }
    ensures refused { IfErr result (λ h. IsListRefused F.state R.state keys.now (bench_state F.state R.state bench) (bench_state F.state R.state h.bench)
        (E.faults entropy.old) (E.faults entropy.new) h.fault) }
    ensures whole { IfOk result (λ l. vec_len l.bench.files ≡ file_count) }
    ensures whole_err { IfErr result (λ h. vec_len h.bench.files ≡ file_count) }
    ensures drawn { E.is_reliable entropy.old → IfErr result (λ h. RefusalNotDrawn h.fault) }
    ensures reliable { E.is_reliable entropy.old → E.is_reliable entropy.new }
{
    let Ok(before) = starved_counts(alloc, &bench.files) else {
        let fault = MountFault::NoMemory;
        return Err(Halted { bench, fault });
    };
    match list_mounted(alloc, bench, keys, entropy) {
        Ok(listing) => Ok(listing),
        Err(halted) => Err(tell_fault(halted, &before)),
    }
}

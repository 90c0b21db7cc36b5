// Mounting the gate of a store all of whose files are of the current format.

ghost use Rattle.std.specs.Prelude.{◌≡◌, [], IfErr, IfOk, IsTrue};
ghost use Rattle.node_image.specs.References.{current_format};
ghost use Rattle.crash_core.specs.EntryLists.{AreCurrent};
ghost use Rattle.crash_core.specs.OldFormats.{first_old};
ghost use Rattle.store_commit.specs.Causes.{counts};
ghost use Rattle.store_commit.specs.Counts.{NoneRose, RefusalCounts, RefusalNotDrawn, RefusalNotOfCard};
ghost use Rattle.store_commit.specs.EntryForms.{AreEntriesOf};
ghost use Rattle.store_commit.specs.Gates.{gate_sides};
ghost use Rattle.store_commit.specs.Holds.{file_held};
ghost use Rattle.store_commit.specs.Mounts.{IsOfCurrentFormat, LeavesDevices, MountDiffers, OpensGate, TellsFailure};
ghost use Rattle.object_calls.specs.OldStores.{GateHeard, GateRefused};

use hmac_keys::Keys;
use rpmb_card::RpmbPort;
use std::alloc::Global;
use store_commit::{Gate, GateBroken, MountFault};
use tee_ports::{Entropy, StoreFile};

// The file of the first entry of the gate's directory whose file is of the old format, if there is one.
fn first_old<F: StoreFile + Drop, R: RpmbPort + Drop>(gate: &Gate<F, R>) -> Option<u16>
    requires { AreEntriesOf gate.now.dir.dir.entries }
    ensures { result ≡ first_old gate.now.dir.dir.entries }
{
    for index in 0..256u16 {
        if let Some(entry) = gate.entry(index) {
            if entry.format == 1 {
                return Some(entry.file);
            }
        }
    }
    None
}

/// Mounts the directory that the card names, as a gate's mount does, where its file and those of its entries are of the current format.
///
/// # Errors
///
/// `OldFormat` of file 0 where the card's block 0 is of the old format, or else of the file of the first entry that names one of the old
/// format. Besides those of a gate's mount.
pub(crate) fn mount_gate<F: StoreFile + Drop, R: RpmbPort + Drop, E: Entropy>(
    alloc: Global,
    dir: F,
    card: R,
    keys: &Keys,
    entropy: &mut E,
) -> Result<Gate<F, R>, GateBroken<F, R>>
    ensures opens { IfOk result (λ g. OpensGate (F.state dir) (R.state card) keys.now (gate_sides F.state R.state g)) }
    ensures idle { IfOk result (λ g. g.doubt ≡ None) }
    ensures unopened { IfOk result (λ g. g.open_handles.records ≡ []) }
    ensures unheld { IfOk result (λ g. (session : _) → file_held g.holds session ≡ None) }
    ensures current { IfOk result (λ g. (g.dir.dir.root.format ≡ current_format) × AreCurrent g.dir.dir.entries) }
    ensures refused { IfErr result (λ b. GateRefused (F.state dir) (F.state b.dir) (R.state card) (R.state b.card) keys.now
        (E.faults entropy.old) (E.faults entropy.new) b.fault) }
    // A directory that is refused is none of the old format.
    ensures only { IfErr result (λ b. IsOfCurrentFormat (R.state card) keys.now b.fault) }
    ensures told { IfErr result (λ b. TellsFailure b.fault) }
    ensures differs { IfErr result (λ b. MountDiffers (F.state b.dir) (R.state card) keys.now b.fault) }
    ensures heard { IfErr result (λ b. GateHeard (F.state dir) (F.state b.dir) (R.state card) (R.state b.card) keys.now b.fault) }
    ensures leaves { IfErr result (λ b. LeavesDevices (F.state dir) (F.state b.dir) (R.state card) (R.state b.card)) }
    ensures passed { IfOk result (λ g. NoneRose (counts (F.state dir) (R.state card) (E.faults entropy.old))
        (counts (F.state g.dir.file) (R.state g.host.port) (E.faults entropy.new))) }
    ensures counts { IfErr result (λ b. RefusalCounts (counts (F.state dir) (R.state card) (E.faults entropy.old))
        (counts (F.state b.dir) (R.state b.card) (E.faults entropy.new)) b.fault) }
    ensures calm { IsTrue (R.state card).calm → IfOk result (λ g. IsTrue (R.state g.host.port).calm) }
    ensures calm_err { IsTrue (R.state card).calm → IfErr result (λ b. IsTrue (R.state b.card).calm × RefusalNotOfCard b.fault) }
    ensures drawn { E.is_reliable entropy.old → IfErr result (λ b. RefusalNotDrawn b.fault) }
    ensures reliable { E.is_reliable entropy.old → E.is_reliable entropy.new }
{
    let gate = match Gate::mount(alloc, dir, card, keys, entropy) {
        Ok(gate) => gate,
        Err(broken) => return Err(broken),
    };
    let Some(file) = first_old(&gate) else {
        return Ok(gate);
    };
    let (dir, card) = gate.close();
    let fault = MountFault::OldFormat { file };
    Err(GateBroken { dir, card, fault })
}

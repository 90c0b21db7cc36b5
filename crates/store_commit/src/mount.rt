//! Mounting a gate.

ghost use Rattle.std.specs.Prelude.{◌≡◌, ◌<◌, [], length, get_or, None, IfErr, IfOk, IsTrue, OnOk};
ghost use Rattle.dir_file.specs.EntryForms.{AreEntriesOf};
ghost use Rattle.store_commit.specs.Gates.{gate_sides};
ghost use Rattle.store_commit.specs.Holds.{file_held};
ghost use Rattle.store_commit.specs.Causes.{counts};
ghost use Rattle.store_commit.specs.Counts.{NoneRose, RefusalCounts, RefusalNotDrawn, RefusalNotOfCard};
ghost use Rattle.node_image.specs.References.{current_format};
ghost use Rattle.store_commit.specs.DirectoryLooks.{Looks};
ghost use Rattle.store_commit.specs.Mounts.{IsOfCurrentFormat, LeavesDevices, MountDiffers, MountHeard, MountRefused, OpensGate, TellsFailure};
ghost use Rattle.store_commit.specs.NameIndex.{IndexesEntry, IsIndexOf};
ghost use Rattle.store_commit.specs.Sides.{IsSettled, sides};
ghost use Rattle.store_commit.specs.declared.fault.MountFault.TheVariants.{NoMemory};

use crate::block::root_served;
use crate::fault::{GateBroken, MountFault};
use crate::gate::Gate;
use crate::names::add_name;
use crate::reading::read_card;
use crate::sync::{directory_answer, open_directory};
use dir_file::{DirBroken, DirFile};
use dir_index::DirIndex;
use dir_records::DirEntry;
use hmac_keys::{Keys, dir_tsk, rpmb_key, ssk};
use open_table::OpenTable;
use rpmb_card::RpmbPort;
use rpmb_host::Host;
use std::alloc::Global;
use tee_ports::{Entropy, StoreFile};
use tee_types::{MAX_SESSIONS, NoMemory};

// Puts the name of an entry, if there is one, into an index.
fn index_entry(index: &mut DirIndex, entry: &Option<DirEntry>, place: u16) -> Result<(), NoMemory>
    ensures { OnOk result (IndexesEntry index.old index.new entry.now place) }
{
    match entry {
        Some(entry) => {
            index.reserve(1)?;
            add_name(index, entry, place);
            Ok(())
        }
        None => Ok(()),
    }
}

// The index of the names of 256 entries.
fn index_of_entries(alloc: Global, entries: &[Option<DirEntry>]) -> Result<DirIndex, NoMemory>
    requires { AreEntriesOf entries.now }
    ensures { IfOk result (λ index. IsIndexOf index entries.now) }
{
    let mut index = DirIndex::new(alloc);
    for i in 0..256u16 {
        index_entry(&mut index, &entries[i as usize], i)?;
    }
    Ok(index)
}

impl<F: StoreFile + Drop, R: RpmbPort + Drop> Gate<F, R> {
    // The gate of a directory that the card names, without open handles.
    fn new(
        alloc: Global,
        dir: DirFile<F>,
        host: Host<R>,
        counter: u32,
    ) -> Result<Gate<F, R>, GateBroken<F, R>>
        requires settled { IsSettled (sides (F.state dir.file) dir.dir (R.state host.port) host.key counter) }
        ensures made { IfOk result (λ g. (g.dir ≡ dir) × (g.host ≡ host) × (g.counter ≡ counter)) }
        ensures idle { IfOk result (λ g. g.doubt ≡ None) }
        ensures unopened { IfOk result (λ g. g.open_handles.records ≡ []) }
        ensures unheld { IfOk result (λ g. (session : _) → file_held g.holds session ≡ None) }
        ensures broken { IfErr result (λ b. (b.dir ≡ dir.file) × (b.card ≡ host.port) × (b.fault ≡ NoMemory)) }
    {
        match index_of_entries(alloc, dir.entries()) {
            Ok(index) => Ok(Gate {
                dir,
                host,
                counter,
                doubt: None,
                index,
                handles: OpenTable::new(alloc),
                holds: [None; MAX_SESSIONS],
            }),
            Err(_) => Err(GateBroken {
                dir: dir.into_file(),
                card: host.into_port(),
                fault: MountFault::NoMemory,
            }),
        }
    }

    /// Mounts the directory that the card names, where its file is of the current format: reads the card's counter and its block 0, each with
    /// a nonce that is drawn, syncs the directory's file, and loads the directory.
    ///
    /// # Errors
    ///
    /// `NoStore` and `CardBlock` by block 0; `OldFormat` of the old directory's file where block 0 names a directory of the old format;
    /// `Directory` where the directory's image is refused; `Frame` and `CardResult` as the host says; `Failed` where a call of a device
    /// failed; `NoMemory`. The card is as it was, and the file too but for that sync.
    pub fn mount<E: Entropy>(
        alloc: Global,
        dir: F,
        card: R,
        keys: &Keys,
        entropy: &mut E,
    ) -> Result<Gate<F, R>, GateBroken<F, R>>
        ensures opens { IfOk result (λ g. OpensGate (F.state dir) (R.state card) keys.now (gate_sides F.state R.state g)) }
        ensures idle { IfOk result (λ g. g.doubt ≡ None) }
        ensures unopened { IfOk result (λ g. g.open_handles.records ≡ []) }
        ensures unheld { IfOk result (λ g. (session : _) → file_held g.holds session ≡ None) }
        ensures refused { IfErr result (λ b. MountRefused (F.state dir) (F.state b.dir) (R.state card) (R.state b.card) keys.now
            (E.faults entropy.old) (E.faults entropy.new) b.fault) }
        ensures told { IfErr result (λ b. TellsFailure b.fault) }
        // Of any file.
        ensures differs { IfErr result (λ b. MountDiffers (F.state b.dir) (R.state card) keys.now b.fault) }
        // Whatever the card is.
        ensures heard { IfErr result (λ b. MountHeard (F.state b.dir) (R.state card) (R.state b.card) keys.now b.fault) }
        ensures leaves { IfErr result (λ b. LeavesDevices (F.state dir) (F.state b.dir) (R.state card) (R.state b.card)) }
        // The directory's file was synced, and then only read.
        ensures looks { IfOk result (λ g. Looks (F.state dir) (F.state g.dir.file)) }
        ensures looks_err { IfErr result (λ b. Looks (F.state dir) (F.state b.dir)) }
        // A refusal that carries a count is of the one that rose; after another, and after a mount, none did.
        ensures passed { IfOk result (λ g. NoneRose (counts (F.state dir) (R.state card) (E.faults entropy.old))
            (counts (F.state g.dir.file) (R.state g.host.port) (E.faults entropy.new))) }
        ensures counts { IfErr result (λ b. RefusalCounts (counts (F.state dir) (R.state card) (E.faults entropy.old))
            (counts (F.state b.dir) (R.state b.card) (E.faults entropy.new)) b.fault) }
        ensures calm { IsTrue (R.state card).calm → IfOk result (λ g. IsTrue (R.state g.host.port).calm) }
        ensures calm_err { IsTrue (R.state card).calm → IfErr result (λ b. IsTrue (R.state b.card).calm × RefusalNotOfCard b.fault) }
        ensures drawn { E.is_reliable entropy.old → IfErr result (λ b. RefusalNotDrawn b.fault) }
        ensures reliable { E.is_reliable entropy.old → E.is_reliable entropy.new }
        ensures current { IfOk result (λ g. g.dir.dir.root.format ≡ current_format) }
        // A directory that is refused is none of the old format.
        ensures only { IfErr result (λ b. IsOfCurrentFormat (R.state card) keys.now b.fault) }
    {
        let mut host = Host::new(card, rpmb_key(keys));
        let read = match read_card(&mut host, entropy) {
            Ok(read) => read,
            Err(fault) => {
                let card = host.into_port();
                return Err(GateBroken { dir, card, fault });
            }
        };
        let root = match root_served(&read.block) {
            Ok(root) => root,
            Err(fault) => {
                let card = host.into_port();
                return Err(GateBroken { dir, card, fault });
            }
        };
        let tsk = dir_tsk(&ssk(keys));
        match open_directory(alloc, dir, &tsk, root) {
            Ok(dir) => Gate::new(alloc, dir, host, read.counter),
            Err(DirBroken { file, fault }) => {
                let fault = directory_answer(fault);
                let card = host.into_port();
                Err(GateBroken {
                    dir: file,
                    card,
                    fault,
                })
            }
        }
    }
}

// The directory's move into its file of the current format.

ghost use Rattle.std.specs.Prelude.{◌≡◌, ◌≢◌, ◌<◌, ◌≤◌, ℕ, vec_len, IfErr, IfOk, OnOk};
ghost use Rattle.disk_model.specs.Calls.{GoesOn};
ghost use Rattle.htree_file.specs.Answers.{FilePassed, IsFailed};
ghost use Rattle.rpmb_card.specs.Card.{CardState};
ghost use Rattle.rpmb_card.specs.Protocol.{last_counter};
ghost use Rattle.rpmb_host.specs.Honest.{HadCard, HasCard};
ghost use Rattle.tee_types.specs.Limits.{file_count};
ghost use Rattle.crash_core.specs.CardBlock.{IsReference};
ghost use Rattle.store_commit.specs.Causes.{KeepsPortArms};
ghost use Rattle.store_commit.specs.Counts.{RefusalNotDrawn};
ghost use Rattle.store_commit.specs.Leaving.{KeepsPort};
ghost use Rattle.store_commit.specs.Sides.{Names};
ghost use Rattle.object_calls.specs.OpeningFiles.{files_of};
ghost use Rattle.object_calls.specs.Migrated.{MigratesBench, WritesOnceEach};
ghost use Rattle.object_calls.specs.MigrationRefusals.{MigrationRefused, SpentWithoutRoom};
ghost use Rattle.object_calls.specs.DirectoryMoves.{CopiesBetween, CopiesDirectory, DirectoryNotCopied, MovesDirectory, MovesFiles, NamesCurrent, NamesDirectory, NotNamed, RootRefused, SettlesFormat, StopsFiles, StopsFormat, cause_answer};
ghost use Rattle.store_commit.specs.declared.fault.MountFault.TheVariants.{Failed};
ghost use Rattle.tee_types.specs.declared.reply.Cause.TheVariants.{Fault};

use crate::bench::{Bench, FileParts, Halted, put_together, take_apart};
use hmac_keys::{Keys, rpmb_key};
use htree_file::{Broken, TreeFault, copy_tree};
use node_image::{FORMAT, RootRef};
use rpmb_card::RpmbPort;
use rpmb_host::Host;
use std::alloc::Global;
use store_commit::{
    CardEnd, CardRead, DirectoryRefused, MountFault, check_directory, draw_nonce, read_card,
    root_in, write_root,
};
use tee_ports::{Entropy, StoreFile};
use tee_types::{Cause, Device};

/// A bench whose directory's file is of the current format.
#[derive(Drop)]
pub(crate) struct DirectoryMoved<F, R> {
    /// The bench.
    pub(crate) bench: Bench<F, R>,
    /// Whether the directory was moved.
    pub(crate) moved: bool,
}

// The two files that a directory may have.
#[derive(Drop)]
struct DirectoryFiles<F> {
    // That of the old format.
    old: F,
    // That of the current one.
    new: F,
}

// The two, where a move was given up, and why.
#[derive(Drop)]
struct FilesHalted<F> {
    files: DirectoryFiles<F>,
    fault: MountFault,
}

/// What a failed call of a device in a copy is.
pub(crate) fn copy_answer(device: Device, fault: TreeFault) -> MountFault
    requires { IsFailed fault }
    ensures { (count : _) × (fault ≡ TreeFault.Failed count) × (result ≡ Failed (Fault device count)) }
{
    match fault {
        TreeFault::Failed { count } => MountFault::Failed(Cause::Fault { device, count }),
        _ => unreachable!(),
    }
}

/// What a card's write that was not confirmed is.
pub(crate) fn cause_answer(cause: Cause) -> MountFault
    ensures { result ≡ cause_answer cause }
{
    match cause {
        Cause::Fault { .. } => MountFault::Failed(cause),
        Cause::Frame(fault) => MountFault::Frame(fault),
        Cause::CardResult(result) => MountFault::CardResult(result),
    }
}

// Opens the directory in its old file, and copies it into the new one.
fn copy_directory<F: StoreFile + Drop>(
    alloc: Global,
    files: DirectoryFiles<F>,
    keys: &Keys,
    root: RootRef,
) -> Result<DirectoryFiles<F>, FilesHalted<F>>
    requires { root.version < 2 }
    ensures copies { IfOk result (λ d. CopiesDirectory keys.now (F.state files.old) (F.state d.old) (F.state files.new) (F.state d.new) root) }
    ensures between { IfErr result (λ h. CopiesBetween (F.state files.old) (F.state h.files.old) (F.state files.new) (F.state h.files.new)) }
    ensures refused { IfErr result (λ h. DirectoryNotCopied keys.now (F.state files.old) (F.state h.files.old) (F.state files.new) (F.state h.files.new)
        root h.fault) }
{
    let DirectoryFiles { old, new } = files;
    let mut old = match check_directory(alloc, old, keys, root) {
        Ok(old) => old,
        Err(DirectoryRefused { file: old, fault }) => {
            let files = DirectoryFiles { old, new };
            return Err(FilesHalted { files, fault });
        }
    };
    match copy_tree(&mut old, new, root, FORMAT) {
        Ok(new) => Ok(DirectoryFiles { old, new }),
        Err(Broken { file: new, fault }) => {
            let files = DirectoryFiles { old, new };
            let fault = copy_answer(Device::Dir, fault);
            Err(FilesHalted { files, fault })
        }
    }
}

// Writes the card's block 0 that names the directory. Where the write is not confirmed, the counter is read with that nonce.
fn name_directory<R: RpmbPort>(
    host: &mut Host<R>,
    counter: u32,
    nonce: &[u8; 16],
    root: &RootRef,
) -> Result<(), MountFault>
    requires { counter ≢ last_counter }
    ensures key { host.new.key ≡ host.old.key }
    ensures card { (card : CardState) → HasCard (R.state host.old.port) host.old.key card → card.counter ≡ counter →
        NamesDirectory (R.state host.new.port) host.new.key card root.now result }
    // A card that has the key after the call had it before.
    ensures was { (card : CardState) → HasCard (R.state host.new.port) host.new.key card → HadCard (R.state host.old.port) host.old.key }
    ensures cause { IfErr result (NotNamed host.old.key counter (R.state host.old.port) (R.state host.new.port)) }
    ensures counted { OnOk result ((R.state host.old.port).faults ≤ (R.state host.new.port).faults) }
    ensures arms { KeepsPortArms (R.state host.old.port) (R.state host.new.port) }
{
    match write_root(host, counter, nonce, root) {
        CardEnd::Landed => Ok(()),
        CardEnd::Lost(cause) | CardEnd::Unknown(cause) => Err(cause_answer(cause)),
    }
}

// Moves a directory that the card names in its old file, where the card has that counter.
fn move_old<F: StoreFile + Drop, R: RpmbPort, E: Entropy>(
    alloc: Global,
    files: DirectoryFiles<F>,
    host: &mut Host<R>,
    counter: u32,
    root: RootRef,
    keys: &Keys,
    entropy: &mut E,
) -> Result<DirectoryFiles<F>, FilesHalted<F>>
    requires { root.version < 2 }
    ensures key { host.new.key ≡ host.old.key }
    ensures moves { IfOk result (λ d. MovesFiles keys.now (F.state files.old) (F.state d.old) (F.state files.new) (F.state d.new) host.old.key
        (R.state host.old.port) (R.state host.new.port) counter root) }
    ensures stops { IfErr result (λ h. StopsFiles keys.now (F.state files.old) (F.state h.files.old) (F.state files.new) (F.state h.files.new) host.old.key
        (R.state host.old.port) (R.state host.new.port) (E.faults entropy.old) (E.faults entropy.new) counter root h.fault) }
    ensures undrawn { OnOk result (E.faults entropy.new ≡ E.faults entropy.old) }
    ensures arms { KeepsPortArms (R.state host.old.port) (R.state host.new.port) }
    ensures drawn { E.is_reliable entropy.old → IfErr result (λ h. RefusalNotDrawn h.fault) }
    ensures reliable { E.is_reliable entropy.old → E.is_reliable entropy.new }
{
    if counter == u32::MAX {
        let fault = MountFault::Spent;
        return Err(FilesHalted { files, fault });
    }
    let nonce = match draw_nonce(entropy) {
        Ok(nonce) => nonce,
        Err(cause) => {
            let fault = MountFault::Failed(cause);
            return Err(FilesHalted { files, fault });
        }
    };
    let files = match copy_directory(alloc, files, keys, root) {
        Ok(files) => files,
        Err(halted) => return Err(halted),
    };
    let next = RootRef {
        format: FORMAT,
        ..root
    };
    match name_directory(host, counter, &nonce, &next) {
        Ok(()) => Ok(files),
        Err(fault) => Err(FilesHalted { files, fault }),
    }
}

// The reference that the card's block 0 names, and the card's counter.
fn read_root<R: RpmbPort, E: Entropy>(
    host: &mut Host<R>,
    entropy: &mut E,
) -> Result<(RootRef, u32), MountFault>
    ensures key { host.new.key ≡ host.old.key }
    ensures stays { (R.state host.new.port).card ≡ (R.state host.old.port).card }
    ensures goes_on { KeepsPort (R.state host.old.port) (R.state host.new.port) }
    ensures form { IfOk result (λ r. IsReference r.0) }
    ensures told { IfOk result (λ r. (card : CardState) → HasCard (R.state host.old.port) host.old.key card → Names card r.0 r.1) }
    ensures refused { IfErr result (RootRefused host.old.key (R.state host.old.port) (R.state host.new.port) (E.faults entropy.old) (E.faults entropy.new)) }
    ensures passed { OnOk result (((R.state host.new.port).faults ≡ (R.state host.old.port).faults) × (E.faults entropy.new ≡ E.faults entropy.old)) }
    ensures drawn { E.is_reliable entropy.old → IfErr result RefusalNotDrawn }
    ensures reliable { E.is_reliable entropy.old → E.is_reliable entropy.new }
{
    let CardRead { counter, block } = match read_card(host, entropy) {
        Ok(read) => read,
        Err(fault) => return Err(fault),
    };
    match root_in(&block) {
        Ok(root) => Ok((root, counter)),
        Err(fault) => Err(fault),
    }
}

// Moves the directory where the card names it in its old file. Says whether it did.
fn move_files<F: StoreFile + Drop, R: RpmbPort, E: Entropy>(
    alloc: Global,
    files: DirectoryFiles<F>,
    host: &mut Host<R>,
    keys: &Keys,
    entropy: &mut E,
) -> Result<(DirectoryFiles<F>, bool), FilesHalted<F>>
    ensures key { host.new.key ≡ host.old.key }
    ensures moves { IfOk result (λ r. SettlesFormat keys.now (F.state files.old) (F.state r.0.old) (F.state files.new) (F.state r.0.new) host.old.key
        (R.state host.old.port) (R.state host.new.port) r.1) }
    ensures stops { IfErr result (λ h. StopsFormat keys.now (F.state files.old) (F.state h.files.old) (F.state files.new) (F.state h.files.new) host.old.key
        (R.state host.old.port) (R.state host.new.port) (E.faults entropy.old) (E.faults entropy.new) h.fault) }
    ensures undrawn { OnOk result (E.faults entropy.new ≡ E.faults entropy.old) }
    ensures drawn { E.is_reliable entropy.old → IfErr result (λ h. RefusalNotDrawn h.fault) }
    ensures reliable { E.is_reliable entropy.old → E.is_reliable entropy.new }
{
    let (root, counter) = match read_root(host, entropy) {
        Ok(read) => read,
        Err(fault) => return Err(FilesHalted { files, fault }),
    };
    if root.format == FORMAT {
        return Ok((files, false));
    }
    match move_old(alloc, files, host, counter, root, keys, entropy) {
        Ok(files) => Ok((files, true)),
        Err(halted) => Err(halted),
    }
}

/// Moves the directory of a bench into its file of the current format, where it is of the old one: opens it, copies it and settles the copy,
/// and writes the card's block 0 that names it there. The files of objects are not called.
///
/// # Errors
///
/// `NoStore` and `CardBlock` by block 0; `Directory` where the directory's image is refused; `Spent` where the card's counter is at its end
/// and the directory is of the old format; `Frame` and `CardResult` as the host says; `Failed` where a call of a device failed; `NoMemory`.
/// The card's block 0 is then as before, or names the copy.
pub(crate) fn move_directory<F: StoreFile + Drop, R: RpmbPort + Drop, E: Entropy>(
    alloc: Global,
    bench: Bench<F, R>,
    keys: &Keys,
    entropy: &mut E,
) -> Result<DirectoryMoved<F, R>, Halted<F, R>>
    requires { vec_len bench.files ≡ file_count }
    ensures migrates { IfOk result (λ m. MigratesBench (files_of F.state bench.files.items) (files_of F.state m.bench.files.items) (R.state bench.card) (R.state m.bench.card) keys.now) }
    ensures migrates_err { IfErr result (λ h. MigratesBench (files_of F.state bench.files.items) (files_of F.state h.bench.files.items) (R.state bench.card) (R.state h.bench.card) keys.now) }
    ensures moves { IfOk result (λ m. MovesDirectory (files_of F.state bench.files.items) (files_of F.state m.bench.files.items) (R.state bench.card) (R.state m.bench.card) keys.now m.moved) }
    ensures current { IfOk result (λ m. NamesCurrent (R.state m.bench.card) keys.now) }
    ensures writes { IfOk result (λ m. WritesOnceEach (R.state bench.card) (R.state m.bench.card) keys.now m.moved 0) }
    ensures counted { IfOk result (λ m. (R.state bench.card).faults ≤ (R.state m.bench.card).faults) }
    ensures refused { IfErr result (λ h. MigrationRefused (files_of F.state bench.files.items) (files_of F.state h.bench.files.items) (R.state bench.card) (R.state h.bench.card) keys.now
        (E.faults entropy.old) (E.faults entropy.new) h.fault) }
    ensures short { IfErr result (λ h. SpentWithoutRoom (files_of F.state bench.files.items) (files_of F.state h.bench.files.items) (R.state bench.card) keys.now h.fault) }
    ensures whole { IfOk result (λ m. vec_len m.bench.files ≡ file_count) }
    ensures whole_err { IfErr result (λ h. vec_len h.bench.files ≡ file_count) }
    ensures goes_on { IfOk result (λ m. (file : ℕ) → GoesOn (files_of F.state bench.files.items file) (files_of F.state m.bench.files.items file)) }
    ensures goes_on_err { IfErr result (λ h. (file : ℕ) → GoesOn (files_of F.state bench.files.items file) (files_of F.state h.bench.files.items file)) }
    ensures passed { IfOk result (λ m. (file : ℕ) → FilePassed (files_of F.state bench.files.items file) (files_of F.state m.bench.files.items file)) }
    ensures undrawn { IfOk result (λ m. E.faults entropy.new ≡ E.faults entropy.old) }
    ensures drawn { E.is_reliable entropy.old → IfErr result (λ h. RefusalNotDrawn h.fault) }
    ensures reliable { E.is_reliable entropy.old → E.is_reliable entropy.new }
{
    let Bench { files, card } = bench;
    let FileParts {
        spare: old,
        objects,
        dir: new,
    } = take_apart(files);
    let mut host = Host::new(card, rpmb_key(keys));
    let files = DirectoryFiles { old, new };
    match move_files(alloc, files, &mut host, keys, entropy) {
        Ok((DirectoryFiles { old, new }, moved)) => {
            let files = put_together(old, objects, new);
            let card = host.into_port();
            let bench = Bench { files, card };
            Ok(DirectoryMoved { bench, moved })
        }
        Err(
            FilesHalted {
                files: DirectoryFiles { old, new },
                fault,
            },
        ) => {
            let files = put_together(old, objects, new);
            let card = host.into_port();
            let bench = Bench { files, card };
            Err(Halted { bench, fault })
        }
    }
}

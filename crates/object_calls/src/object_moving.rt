// Moves of objects into files of the current format.

ghost use Rattle.std.specs.Prelude.{◌≡◌, ◌≢◌, ◌<◌, ◌≤◌, ◌+◌, ◌-◌, ℕ, false, None, Some, get_or, insert, remove, vec_len, IfErr, IfOk, OnOk};
ghost use Rattle.std.specs.Vec.{vec_capacity};
ghost use Rattle.disk_model.specs.Calls.{GoesOn};
ghost use Rattle.htree_file.specs.Answers.{FilePassed};
ghost use Rattle.tee_types.specs.Limits.{IsObjectFile, file_count, last_file};
ghost use Rattle.node_image.specs.References.{current_format};
ghost use Rattle.dir_records.specs.Form.{HasForm};
ghost use Rattle.rpmb_card.specs.Protocol.{last_counter};
ghost use Rattle.crash_core.specs.MountedObject.{root_of};
ghost use Rattle.store_commit.specs.Causes.{counts};
ghost use Rattle.store_commit.specs.Counts.{RefusalNotDrawn};
ghost use Rattle.store_commit.specs.declared.fault.MountFault.TheVariants.{Spent};
ghost use Rattle.object_calls.specs.OpeningFiles.{files_of, object_files};
ghost use Rattle.object_calls.specs.DirectoryMoves.{NamesCurrent};
ghost use Rattle.object_calls.specs.Migrated.{LeavesCurrent, MigratesBench, TellsMoves, WritesOnceEach};
ghost use Rattle.object_calls.specs.MigrationRefusals.{MigrationRefused, SpentWithoutRoom};
ghost use Rattle.object_calls.specs.MovedEntries.{unless_current};
ghost use Rattle.object_calls.specs.ObjectMoves.{CopyAnswer, GateGoesOn, GatePassed, IsLeftToMove, MayMove, MigratesGate, MovesEach, MovesObject, ObjectNotMoved, StopsMoving, end_fault, mount_answer, place_beside};

use crate::bench::{Bench, FileParts, Halted, put_together, take_apart};
use crate::directory_moving::{cause_answer, copy_answer};
use dir_records::DirEntry;
use hmac_keys::Keys;
use htree_file::{Broken, copy_tree};
use node_image::{FORMAT, RootRef};
use rpmb_card::RpmbPort;
use std::alloc::Global;
use store_commit::{CommitEnd, Gate, GateBroken, MountFault};
use tee_ports::{Entropy, StoreFile};
use tee_types::Device;

/// A bench whose files of objects are of the current format.
#[derive(Drop)]
pub(crate) struct ObjectsMoved<F, R> {
    /// The bench.
    pub(crate) bench: Bench<F, R>,
    /// How many objects were moved.
    pub(crate) moved: u16,
}

// The reference to the tree of an entry's object.
fn root_of(entry: &DirEntry) -> RootRef
    ensures { result ≡ root_of entry.now }
{
    RootRef {
        hash: entry.hash,
        version: entry.version,
        format: entry.format,
    }
}

// Takes the file of that number out of those of objects, file 1 first.
fn take_file<F>(files: &mut Vec<F>, file: u16) -> F
    requires whole { vec_len files.old ≡ last_file }
    requires room { file_count ≤ vec_capacity files.old }
    requires file { IsObjectFile file }
    ensures value { result ≡ get_or files.old.items (file - 1) result }
    ensures rest { files.new.items ≡ remove files.old.items (file - 1) }
    ensures room { file_count ≤ vec_capacity files.new }
{
    files.remove(usize::from(file) - 1)
}

// Puts the file of that number back. No memory is taken.
fn put_file_back<F: Drop>(files: &mut Vec<F>, file: u16, item: F)
    requires others { vec_len files.old + 1 ≡ last_file }
    requires room { file_count ≤ vec_capacity files.old }
    requires file { IsObjectFile file }
    ensures files { files.new.items ≡ insert files.old.items (file - 1) item }
    ensures whole { vec_len files.new ≡ last_file }
    ensures room { file_count ≤ vec_capacity files.new }
{
    match files.insert(usize::from(file) - 1, item) {
        Ok(()) => {}
        Err(_) => unreachable!(),
    }
}

// The place of a file among those of objects, where another one is taken out.
fn place_beside(file: u16, taken: u16) -> usize
    requires { IsObjectFile file × IsObjectFile taken × (file ≢ taken) }
    ensures { result ≡ place_beside file taken }
{
    if file < taken {
        usize::from(file) - 1
    } else {
        usize::from(file) - 2
    }
}

// Copies an object's tree into another file, in the current format. All three are among those of objects.
fn copy_object<F: StoreFile + Drop>(
    files: &mut Vec<F>,
    entry: &DirEntry,
    file: u16,
) -> Result<(), MountFault>
    requires whole { vec_len files.old ≡ last_file }
    requires room { file_count ≤ vec_capacity files.old }
    requires form { HasForm entry.now }
    requires file { IsObjectFile file × (entry.now.file ≢ file) }
    ensures answer { CopyAnswer (object_files F.state files.old.items) (object_files F.state files.new.items) entry.now file result }
    ensures whole { vec_len files.new ≡ last_file }
    ensures room { file_count ≤ vec_capacity files.new }
{
    let to = take_file(files, file);
    let from = place_beside(entry.file, file);
    match copy_tree(&mut files[from], to, root_of(entry), FORMAT) {
        Ok(copy) => {
            put_file_back(files, file, copy);
            Ok(())
        }
        Err(Broken { file: left, fault }) => {
            put_file_back(files, file, left);
            Err(copy_answer(Device::File(entry.file), fault))
        }
    }
}

// What the end of a move's commit is.
fn end_answer(end: CommitEnd) -> Result<(), MountFault>
    ensures made { OnOk result (end_fault end ≡ None) }
    ensures fault { IfErr result (λ fault. end_fault end ≡ Some fault) }
{
    match end {
        CommitEnd::Made(_) => Ok(()),
        CommitEnd::Dropped(cause) | CommitEnd::Doubtful(_, cause) => Err(cause_answer(cause)),
        CommitEnd::Spent => Err(MountFault::Spent),
    }
}

// Moves the object of an entry into the least free file: copies it, and commits that the entry names the copy. Where the card's counter is
// at its end nothing is written.
fn move_object<F: StoreFile + Drop, R: RpmbPort + Drop, E: Entropy>(
    gate: &mut Gate<F, R>,
    files: &mut Vec<F>,
    index: u16,
    entry: &DirEntry,
    entropy: &mut E,
) -> Result<(), MountFault>
    requires may { MayMove F.state R.state gate.old }
    requires at { (index < 256) × (get_or gate.old.dir.dir.entries index None ≡ Some entry.now) }
    requires whole { vec_len files.old ≡ last_file }
    requires room { file_count ≤ vec_capacity files.old }
    ensures migrates { MigratesGate F.state R.state gate.old gate.new files.old.items files.new.items }
    ensures moves { OnOk result (MovesObject F.state R.state gate.old gate.new index entry.now) }
    ensures refused { IfErr result (ObjectNotMoved (object_files F.state files.old.items) (object_files F.state files.new.items)
        (counts (F.state gate.old.dir.file) (R.state gate.old.host.port) (E.faults entropy.old))
        (counts (F.state gate.new.dir.file) (R.state gate.new.host.port) (E.faults entropy.new)) gate.old.host.key) }
    ensures spent { IfErr result (λ fault. fault ≡ Spent → gate.old.counter ≡ last_counter) }
    // Where the counter is at its end the entry is left.
    ensures left { IfErr result (λ fault. fault ≡ Spent → entry.now.format ≢ current_format → IsLeftToMove F.state R.state gate.new) }
    ensures goes_on { GateGoesOn F.state R.state gate.old gate.new files.old.items files.new.items }
    ensures passed { OnOk result (GatePassed F.state R.state gate.old gate.new files.old.items files.new.items) }
    ensures whole { vec_len files.new ≡ last_file }
    ensures room { file_count ≤ vec_capacity files.new }
    ensures undrawn { OnOk result (E.faults entropy.new ≡ E.faults entropy.old) }
    ensures drawn { E.is_reliable entropy.old → IfErr result RefusalNotDrawn }
    ensures reliable { E.is_reliable entropy.old → E.is_reliable entropy.new }
{
    if gate.counter() == u32::MAX {
        return Err(MountFault::Spent);
    }
    if gate.reserve().is_err() {
        return Err(MountFault::NoMemory);
    }
    let file = gate.reserve_file(0);
    copy_object(files, entry, file)?;
    let moved = DirEntry {
        file,
        format: FORMAT,
        ..*entry
    };
    end_answer(gate.move_entry(index, moved, entropy))
}

// The entry of that index, if its object's file is of the old format.
fn old_entry<F: StoreFile + Drop, R: RpmbPort + Drop>(
    gate: &Gate<F, R>,
    index: u16,
) -> Option<DirEntry>
    ensures { result ≡ unless_current (get_or gate.now.dir.dir.entries index None) }
{
    match gate.entry(index) {
        Some(entry) if entry.format != FORMAT => Some(entry),
        _ => None,
    }
}

// Moves each object whose file is of the old format, in the order of the entries. Gives how many they were.
fn move_each<F: StoreFile + Drop, R: RpmbPort + Drop, E: Entropy>(
    gate: &mut Gate<F, R>,
    files: &mut Vec<F>,
    entropy: &mut E,
) -> Result<u16, MountFault>
    requires may { MayMove F.state R.state gate.old }
    requires whole { vec_len files.old ≡ last_file }
    requires room { file_count ≤ vec_capacity files.old }
    ensures migrates { MigratesGate F.state R.state gate.old gate.new files.old.items files.new.items }
    ensures moves { IfOk result (λ moved. MovesEach F.state R.state gate.old gate.new moved) }
    ensures stops { IfErr result (StopsMoving F.state R.state (object_files F.state files.old.items) (object_files F.state files.new.items)
        (counts (F.state gate.old.dir.file) (R.state gate.old.host.port) (E.faults entropy.old))
        (counts (F.state gate.new.dir.file) (R.state gate.new.host.port) (E.faults entropy.new)) gate.old gate.new) }
    ensures goes_on { GateGoesOn F.state R.state gate.old gate.new files.old.items files.new.items }
    ensures passed { OnOk result (GatePassed F.state R.state gate.old gate.new files.old.items files.new.items) }
    ensures whole { vec_len files.new ≡ last_file }
    ensures room { file_count ≤ vec_capacity files.new }
    ensures undrawn { OnOk result (E.faults entropy.new ≡ E.faults entropy.old) }
    ensures drawn { E.is_reliable entropy.old → IfErr result RefusalNotDrawn }
    ensures reliable { E.is_reliable entropy.old → E.is_reliable entropy.new }
{
    let mut moved = 0u16;
    for index in 0..256u16 {
        if let Some(entry) = old_entry(gate, index) {
            move_object(gate, files, index, &entry, entropy)?;
            moved += 1;
        }
    }
    Ok(moved)
}

// What a refusal of the gate's mount is here: a directory of the old format is not the one that the card named before.
fn mount_answer(fault: MountFault) -> MountFault
    ensures { result ≡ mount_answer fault }
{
    match fault {
        MountFault::OldFormat { .. } => MountFault::CardBlock { byte: 0 },
        fault => fault,
    }
}

/// Moves the objects of a bench whose directory's file is of the current format: mounts the directory, and moves each object whose file is of
/// the old one, in the order of the entries, into the least free file, with one commit each. No other object is loaded.
///
/// # Errors
///
/// As a mount of the gate says, but `CardBlock` of byte 0 in place of `OldFormat`, which no card tells that has the key; `Spent` where the
/// card's counter is at its end and an object is left to move; `Failed` where a call of a device failed; `NoMemory`. The objects that were
/// moved stay so.
pub(crate) fn move_objects<F: StoreFile + Drop, R: RpmbPort + Drop, E: Entropy>(
    alloc: Global,
    bench: Bench<F, R>,
    keys: &Keys,
    entropy: &mut E,
) -> Result<ObjectsMoved<F, R>, Halted<F, R>>
    requires whole { vec_len bench.files ≡ file_count }
    requires current { NamesCurrent (R.state bench.card) keys.now }
    ensures migrates { IfOk result (λ m. MigratesBench (files_of F.state bench.files.items) (files_of F.state m.bench.files.items) (R.state bench.card) (R.state m.bench.card) keys.now) }
    ensures migrates_err { IfErr result (λ h. MigratesBench (files_of F.state bench.files.items) (files_of F.state h.bench.files.items) (R.state bench.card) (R.state h.bench.card) keys.now) }
    ensures moves { IfOk result (λ m. TellsMoves (files_of F.state bench.files.items) (files_of F.state m.bench.files.items) (R.state bench.card) (R.state m.bench.card) keys.now false m.moved) }
    ensures current { IfOk result (λ m. LeavesCurrent (files_of F.state m.bench.files.items) (R.state m.bench.card) keys.now) }
    ensures few { IfOk result (λ m. m.moved ≤ 256) }
    ensures writes { IfOk result (λ m. WritesOnceEach (R.state bench.card) (R.state m.bench.card) keys.now false m.moved) }
    ensures counted { IfOk result (λ m. (R.state bench.card).faults ≤ (R.state m.bench.card).faults) }
    ensures refused { IfErr result (λ h. MigrationRefused (files_of F.state bench.files.items) (files_of F.state h.bench.files.items) (R.state bench.card) (R.state h.bench.card) keys.now
        (E.faults entropy.old) (E.faults entropy.new) h.fault) }
    ensures short { IfErr result (λ h. SpentWithoutRoom (files_of F.state bench.files.items) (files_of F.state h.bench.files.items) (R.state bench.card) keys.now h.fault) }
    ensures whole { IfOk result (λ m. vec_len m.bench.files ≡ file_count) }
    ensures whole_err { IfErr result (λ h. vec_len h.bench.files ≡ file_count) }
    ensures goes_on { IfOk result (λ m. (file : ℕ) → GoesOn (files_of F.state bench.files.items file) (files_of F.state m.bench.files.items file)) }
    ensures goes_on_err { IfErr result (λ h. (file : ℕ) → GoesOn (files_of F.state bench.files.items file) (files_of F.state h.bench.files.items file)) }
    ensures passed { IfOk result (λ m. (file : ℕ) → FilePassed (files_of F.state bench.files.items file) (files_of F.state m.bench.files.items file)) }
    ensures undrawn { IfOk result (λ m. E.faults entropy.new ≡ E.faults entropy.old) }
    ensures drawn { E.is_reliable entropy.old → IfErr result (λ h. RefusalNotDrawn h.fault) }
    ensures reliable { E.is_reliable entropy.old → E.is_reliable entropy.new }
{
    let Bench { files, card } = bench;
    let FileParts {
        spare,
        mut objects,
        dir,
    } = take_apart(files);
    let mut gate = match Gate::mount(alloc, dir, card, keys, entropy) {
        Ok(gate) => gate,
        Err(GateBroken { dir, card, fault }) => {
            let files = put_together(spare, objects, dir);
            let bench = Bench { files, card };
            let fault = mount_answer(fault);
            return Err(Halted { bench, fault });
        }
    };
    let answer = move_each(&mut gate, &mut objects, entropy);
    let (dir, card) = gate.close();
    let files = put_together(spare, objects, dir);
    let bench = Bench { files, card };
    match answer {
        Ok(moved) => Ok(ObjectsMoved { bench, moved }),
        Err(fault) => Err(Halted { bench, fault }),
    }
}

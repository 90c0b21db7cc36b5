// An object that is read whole, block by block.

ghost use Rattle.std.specs.Prelude.{◌≡◌, ◌+◌, ◌*◌, ◌<◌, ◌≤◌, ℕ, false, get_or, length, vec_len, IfErr, IfOk, OnOk};
ghost use Rattle.disk_model.specs.Calls.{Rests};
ghost use Rattle.htree_file.specs.Answers.{FileFailed, FilePassed};
ghost use Rattle.tree_paths.specs.Paths.{holds};
ghost use Rattle.dir_records.specs.Form.{HasForm};
ghost use Rattle.object_file.specs.Value.{size_in};
ghost use Rattle.object_calls.specs.Next.{ShowAnswer, ShowFailed};
ghost use Rattle.object_calls.specs.ObjectReads.{ShowsLoaded, ShowsNext, ShowsPart, failure_in, object_answer};
ghost use Rattle.object_calls.specs.ShownObjects.{ShowsBlock, ShowsData, data_blocks};

use crate::shown_object::ShownObject;
use dir_records::DirEntry;
use htree_file::TreeFault;
use object_file::{ObjectBroken, ObjectFault, ObjectFile};
use std::alloc::{AllocError, Global};
use store_commit::MountFault;
use tee_ports::{Failed, StoreFile};
use tee_types::{Bytes, Cause, Device};
use tree_paths::NodeSet;

// How many bytes a block has.
const BLOCK: usize = 4096;

/// The object that an entry names, under its application's key.
#[derive(Drop)]
pub(crate) struct Wanted {
    pub(crate) alloc: Global,
    pub(crate) tsk: [u8; 32],
    pub(crate) entry: DirEntry,
}

// The failure of the file that a fault is, if it is one.
fn failure_in(fault: TreeFault) -> Option<Failed>
    ensures { result ≡ failure_in fault }
{
    match fault {
        TreeFault::Failed { count } => Some(Failed { count }),
        _ => None,
    }
}

// What a fault in loading is: the object is damaged, or it could not be loaded.
fn object_answer(fault: ObjectFault, file: u16) -> Result<ShownObject, MountFault>
    ensures { result ≡ object_answer file fault }
{
    match fault {
        ObjectFault::Tree(TreeFault::Failed { count }) => Err(MountFault::Failed(Cause::Fault {
            device: Device::File(file),
            count,
        })),
        ObjectFault::Tree(TreeFault::NoMemory) => Err(MountFault::NoMemory),
        _ => Ok(ShownObject::Damaged),
    }
}

// So many zero bytes.
fn zero_bytes(alloc: Global, count: u32) -> Result<Vec<u8>, AllocError>
    ensures { IfOk result (λ bytes. length bytes.items ≡ count) }
{
    vec![in alloc; 0; count as usize]
}

// Reads the front of data block k, counted from 0, and says whether the block is good. The bytes of a bad one become zero.
fn read_part<F: StoreFile>(
    object: &mut ObjectFile<F>,
    k: u32,
    into: &mut [u8],
) -> Result<bool, Failed>
    requires small { k < 256 }
    requires some { 0 < length into.old }
    requires few { length into.old ≤ 4096 }
    requires within { 4096 * k + length into.old ≤ size_in object.old }
    ensures shows { IfOk result (ShowsPart object.old.tree.key object.old.tree.tree (F.state object.old.tree.file) (F.state object.new.tree.file) k into.new) }
    ensures same { object.new ≡ record object.old { tree = record object.old.tree { file = object.new.tree.file } } }
    ensures rests { Rests (F.state object.old.tree.file) (F.state object.new.tree.file) }
    ensures passed { OnOk result (FilePassed (F.state object.old.tree.file) (F.state object.new.tree.file)) }
    ensures failed { IfErr result (λ e. FileFailed (F.state object.old.tree.file) (F.state object.new.tree.file) e.count) }
{
    match object.read(4096 * k, into) {
        Ok(_) => Ok(true),
        Err(fault) => match failure_in(fault) {
            Some(failed) => Err(failed),
            None => {
                into.fill(0);
                Ok(false)
            }
        },
    }
}

// Reads data block k, counted from 0, where its bytes belong.
fn read_block<F: StoreFile>(
    object: &mut ObjectFile<F>,
    k: u32,
    bytes: &mut [u8],
) -> Result<bool, Failed>
    requires small { k < 256 }
    requires whole { length bytes.old ≡ size_in object.old }
    requires block { 4096 * k < size_in object.old }
    ensures shows { IfOk result (ShowsBlock object.old.tree.key object.old.tree.tree (F.state object.old.tree.file) (F.state object.new.tree.file)
        (size_in object.old) k bytes.new) }
    ensures kept { (i : ℕ) → i < 4096 * k → get_or bytes.new i 0 ≡ get_or bytes.old i 0 }
    ensures same { object.new ≡ record object.old { tree = record object.old.tree { file = object.new.tree.file } } }
    ensures rests { Rests (F.state object.old.tree.file) (F.state object.new.tree.file) }
    ensures passed { OnOk result (FilePassed (F.state object.old.tree.file) (F.state object.new.tree.file)) }
    ensures failed { IfErr result (λ e. FileFailed (F.state object.old.tree.file) (F.state object.new.tree.file) e.count) }
{
    let begin = k as usize * BLOCK;
    let end = (begin + BLOCK).min(bytes.len());
    read_part(object, k, &mut bytes[begin..end])
}

// Reads data block k, counted from 0, and notes it where it is bad.
fn read_next<F: StoreFile>(
    object: &mut ObjectFile<F>,
    k: u32,
    bytes: &mut [u8],
    bad: &mut NodeSet,
) -> Result<(), Failed>
    requires whole { length bytes.old ≡ size_in object.old }
    requires block { 4096 * k < size_in object.old }
    requires small { k < 256 }
    requires fresh { holds bad.old (k + 1) ≡ false }
    ensures shows { OnOk result (ShowsNext object.old.tree.key object.old.tree.tree (F.state object.old.tree.file) (F.state object.new.tree.file)
        (size_in object.old) k bytes.old bytes.new bad.old bad.new) }
    ensures same { object.new ≡ record object.old { tree = record object.old.tree { file = object.new.tree.file } } }
    ensures rests { Rests (F.state object.old.tree.file) (F.state object.new.tree.file) }
    ensures passed { OnOk result (FilePassed (F.state object.old.tree.file) (F.state object.new.tree.file)) }
    ensures failed { IfErr result (λ e. FileFailed (F.state object.old.tree.file) (F.state object.new.tree.file) e.count) }
{
    if read_block(object, k, bytes)? {
        return Ok(());
    }
    bad.add(k + 1);
    Ok(())
}

// Reads all data, block by block, and gives the numbers of the bad blocks.
fn read_blocks<F: StoreFile>(
    object: &mut ObjectFile<F>,
    bytes: &mut [u8],
) -> Result<NodeSet, Failed>
    requires whole { length bytes.old ≡ size_in object.old }
    requires few { length bytes.old ≤ 1044480 }
    ensures shows { IfOk result (λ bad. ShowsData object.old.tree.key object.old.tree.tree (F.state object.old.tree.file) (F.state object.new.tree.file)
        (size_in object.old) (data_blocks (size_in object.old)) bytes.new bad) }
    ensures same { object.new ≡ record object.old { tree = record object.old.tree { file = object.new.tree.file } } }
    ensures rests { Rests (F.state object.old.tree.file) (F.state object.new.tree.file) }
    ensures passed { OnOk result (FilePassed (F.state object.old.tree.file) (F.state object.new.tree.file)) }
    ensures failed { IfErr result (λ e. FileFailed (F.state object.old.tree.file) (F.state object.new.tree.file) e.count) }
{
    let mut bad = NodeSet::none();
    let count = bytes.len().div_ceil(BLOCK) as u32;
    for k in 0..count {
        read_next(object, k, bytes, &mut bad)?;
    }
    Ok(bad)
}

// What an object that was loaded holds.
fn show_loaded<F: StoreFile>(
    alloc: Global,
    object: &mut ObjectFile<F>,
    file: u16,
) -> Result<ShownObject, MountFault>
    ensures shows { IfOk result (ShowsLoaded object.old.attributes object.old.tree.key object.old.tree.tree
        (F.state object.old.tree.file) (F.state object.new.tree.file) (size_in object.old)) }
    ensures same { object.new ≡ record object.old { tree = record object.old.tree { file = object.new.tree.file } } }
    ensures rests { Rests (F.state object.old.tree.file) (F.state object.new.tree.file) }
    ensures passed { OnOk result (FilePassed (F.state object.old.tree.file) (F.state object.new.tree.file)) }
    ensures failed { IfErr result (ShowFailed (F.state object.old.tree.file) (F.state object.new.tree.file) file) }
{
    let Ok(attributes) = Bytes::from_slice(alloc, object.attributes()) else {
        return Err(MountFault::NoMemory);
    };
    let Ok(mut bytes) = zero_bytes(alloc, object.size()) else {
        return Err(MountFault::NoMemory);
    };
    match read_blocks(object, &mut bytes) {
        Ok(bad) => Ok(ShownObject::Sound {
            attributes,
            bytes: Bytes::from_vec(bytes),
            bad,
        }),
        Err(failed) => Err(MountFault::Failed(Cause::Fault {
            device: Device::File(file),
            count: failed.count,
        })),
    }
}

/// Loads the object of an entry from its file, reads it whole, and gives the file back.
///
/// # Errors
///
/// `Failed` where a call of the file failed, and `NoMemory`.
pub(crate) fn show_object<F: StoreFile>(
    file: F,
    wanted: Wanted,
) -> (F, Result<ShownObject, MountFault>)
    requires { HasForm wanted.entry }
    ensures rests { Rests (F.state file) (F.state result.0) }
    ensures answer { ShowAnswer wanted.tsk (F.state file) (F.state result.0) wanted.entry result.1 }
{
    let Wanted { alloc, tsk, entry } = wanted;
    match ObjectFile::load(alloc, file, &tsk, &entry) {
        Ok(object) => {
            let mut object = object;
            let shown = show_loaded(alloc, &mut object, entry.file);
            (object.into_file(), shown)
        }
        Err(ObjectBroken { file, fault }) => (file, object_answer(fault, entry.file)),
    }
}

// Objects, step by step.

ghost use Rattle.std.specs.Prelude.{◌≡◌, None, IfOk, IsSome, OnErr, OnOk};

use crate::arms::Arm;
use crate::base::ATTRIBUTES;
use crate::change::{Change, new_bytes};
use crate::named::Named;
use htree_file::TreeFault;
use mem_files::MemFile;
use object_file::{ObjectBroken, ObjectFile};
use std::alloc::Global;
use tee_ports::ListEntropy;

/// The key of the application.
pub const TSK: [u8; 32] = [7; 32];

/// The file once an object was made in it, and what names the object, where it was made.
pub fn made(
    alloc: Global,
    file: MemFile,
    data: &[u8],
    entropy: &mut ListEntropy,
) -> (MemFile, Option<Named>) {
    if data.len() > 1_044_480 {
        return (file, None);
    }
    match ObjectFile::make(alloc, file, &TSK, &ATTRIBUTES, data, entropy) {
        Ok((object, root)) => {
            let named = Named::new(root, object.size(), object.attributes().len() as u16);
            (object.into_file(), named)
        }
        Err(broken) => (broken.file, None),
    }
}

/// Loads an object.
pub fn load(
    alloc: Global,
    file: MemFile,
    named: &Named,
) -> Result<ObjectFile<MemFile>, ObjectBroken<MemFile>>
    ensures idle { IfOk result (λ object. object.tree.stage ≡ None) }
    ensures format { IfOk result (λ object. object.tree.root.format ≡ 2) }
{
    ObjectFile::load(alloc, file, &TSK, &named.entry())
}

// Loads an object, or gives the file back.
fn loaded(
    alloc: Global,
    file: MemFile,
    named: &Named,
    again: bool,
) -> Result<ObjectFile<MemFile>, MemFile>
    ensures idle { IfOk result (λ object. object.tree.stage ≡ None) }
    ensures format { IfOk result (λ object. object.tree.root.format ≡ 2) }
{
    match load(alloc, file, named) {
        Ok(object) => Ok(object),
        Err(broken) => {
            if !again {
                return Err(broken.file);
            }
            match load(alloc, broken.file, named) {
                Ok(object) => Ok(object),
                Err(broken) => Err(broken.file),
            }
        }
    }
}

/// Stages a change.
pub fn stage(
    alloc: Global,
    object: &mut ObjectFile<MemFile>,
    change: Change,
    entropy: &mut ListEntropy,
) -> Result<(), TreeFault>
    requires { (object.old.tree.stage ≡ None) × (object.old.tree.root.format ≡ 2) }
    ensures open { OnOk result (IsSome object.new.tree.stage) }
    ensures none { OnErr result (object.new.tree.stage ≡ None) }
    ensures root { object.new.tree.root ≡ object.old.tree.root }
{
    match change {
        Change::Write { at, count } => {
            let bytes = new_bytes(alloc, count)?;
            object.stage_write(alloc, u32::from(at), &bytes, entropy)
        }
        Change::Truncate { size } => object.stage_truncate(alloc, u32::from(size), entropy),
    }
}

// Stages a change, maybe in two tries.
fn staged(
    alloc: Global,
    object: &mut ObjectFile<MemFile>,
    change: Change,
    arm: Arm,
) -> Result<(), TreeFault>
    requires { (object.old.tree.stage ≡ None) × (object.old.tree.root.format ≡ 2) }
    ensures open { OnOk result (IsSome object.new.tree.stage) }
{
    let mut entropy = arm.entropy();
    let answer = stage(alloc, object, change, &mut entropy);
    if answer.is_err() && arm.is_again() {
        object.drop_stage();
        return stage(alloc, object, change, &mut entropy);
    }
    answer
}

// Settles the stage, maybe in two tries, and makes it the committed object.
fn settled(object: &mut ObjectFile<MemFile>, arm: Arm) -> Option<Named>
    requires { IsSome object.old.tree.stage }
{
    let root = match object.settle() {
        Ok(root) => root,
        Err(_) => {
            if !arm.is_again() {
                return None;
            }
            object.settle().ok()?
        }
    };
    object.adopt();
    Named::new(root, object.size(), object.attributes().len() as u16)
}

/// The file after a change of its object, and what names the object then. None where a step failed.
pub fn changed(
    alloc: Global,
    file: MemFile,
    named: &Named,
    change: Change,
    arm: Arm,
) -> (MemFile, Option<Named>) {
    let mut object = match loaded(alloc, file, named, arm.is_again()) {
        Ok(object) => object,
        Err(file) => return (file, None),
    };
    let next = match staged(alloc, &mut object, change, arm) {
        Ok(()) => settled(&mut object, arm),
        Err(_) => None,
    };
    (object.into_file(), next)
}

/// All of the data. A byte more is asked for than there is.
pub fn data_of(alloc: Global, object: &mut ObjectFile<MemFile>) -> Result<Vec<u8>, TreeFault> {
    let mut bytes = vec![in alloc; 0xee; object.size() as usize + 1]?;
    let count = object.read(0, &mut bytes)?;
    bytes.truncate(count);
    Ok(bytes)
}

/// Whether the file has the object with these data, and the file.
pub fn opens(alloc: Global, file: MemFile, named: &Named, data: &[u8]) -> (MemFile, bool) {
    let mut object = match load(alloc, file, named) {
        Ok(object) => object,
        Err(broken) => return (broken.file, false),
    };
    let is_same = match data_of(alloc, &mut object) {
        Ok(bytes) => bytes.as_slice() == data && object.attributes() == ATTRIBUTES.as_slice(),
        Err(_) => false,
    };
    (object.into_file(), is_same)
}

// An object in a file in memory, and commits of one byte.

ghost use Rattle.std.specs.Prelude.{◌≡◌, ◌<◌, IfOk, IfSome};
ghost use Rattle.dir_records.specs.Form.{HasForm};

use anyhow::{Context, bail};
use dir_records::DirEntry;
use htree_file::TreeFault;
use mem_files::MemFile;
use node_image::{FORMAT, RootRef};
use object_file::ObjectFile;
use std::alloc::Global;
use tee_ports::{FileRig, ListEntropy};
use tee_types::{AppId, ObjectId};
use uuid::Uuid;

const TSK: [u8; 32] = [7; 32];

/// The application of the objects.
pub const APP: [u8; 16] = [0xab; 16];

/// A loaded object, with what its file counted before.
#[derive(Drop)]
pub struct TreeBench {
    pub object: ObjectFile<MemFile>,
    calls: u64,
    bytes: u64,
    ghost format: { object.tree.root.format ≡ 2 },
}

// The entry of an object of so many blocks of data.
fn entry_of(root: RootRef, blocks: u8) -> Option<DirEntry>
    ensures form { IfSome result HasForm }
    ensures format { IfSome result (λ entry. entry.format ≡ 2) }
{
    if root.version > 1 {
        return None;
    }
    let hash = root.hash;
    Some(DirEntry {
        app: AppId::from_uuid(Uuid::from_bytes(APP)),
        id: ObjectId::new(b"key").unwrap(),
        version: root.version,
        file: 1,
        hash,
        size: 4096 * u32::from(blocks),
        attributes: 0,
        format: FORMAT,
        generation: 0,
    })
}

/// The file of a new object with so many blocks of data under a key, its entry, and its reference.
pub fn made(
    alloc: Global,
    tsk: &[u8; 32],
    blocks: u8,
) -> anyhow::Result<(MemFile, DirEntry, RootRef)>
    ensures version { IfOk result (λ made. made.2.version < 2) }
    ensures form { IfOk result (λ made. HasForm made.1) }
    ensures format { IfOk result (λ made. made.1.format ≡ 2) }
{
    let data = vec![in alloc; 0x5a; 4096 * usize::from(blocks)]?;
    let mut entropy = ListEntropy::new([0; 16]);
    let (file, root) = match ObjectFile::make(
        alloc,
        MemFile::new(alloc),
        tsk,
        &[],
        &data,
        &mut entropy,
    ) {
        Ok((object, root)) => (object.into_file(), root),
        Err(_) => bail!("not made"),
    };
    let entry = entry_of(root, blocks).context("no entry")?;
    Ok((file, entry, root))
}

/// Loads an object under a key.
pub fn load(
    alloc: Global,
    file: MemFile,
    tsk: &[u8; 32],
    entry: &DirEntry,
) -> anyhow::Result<ObjectFile<MemFile>>
    requires form { HasForm entry.now }
    requires format { entry.now.format ≡ 2 }
    ensures { IfOk result (λ object. object.tree.root.format ≡ 2) }
{
    match ObjectFile::load(alloc, file, tsk, entry) {
        Ok(object) => Ok(object),
        Err(_) => bail!("not loaded"),
    }
}

impl TreeBench {
    /// An object with so many blocks of data.
    pub fn new(alloc: Global, blocks: u8) -> anyhow::Result<TreeBench> {
        let (mut file, entry, _) = made(alloc, &TSK, blocks)?;
        file.disarm();
        let mut file = load(alloc, file, &TSK, &entry)?.into_file();
        let (calls, bytes) = (file.calls(), file.written());
        file.disarm();
        let object = load(alloc, file, &TSK, &entry)?;
        Ok(TreeBench {
            object,
            calls,
            bytes,
        })
    }

    /// How many calls the file took since it was loaded, and how many bytes were written.
    pub fn taken(self) -> (u64, u64) {
        let TreeBench {
            object,
            calls,
            bytes,
        } = self;
        let file = object.into_file();
        (
            file.calls().saturating_sub(calls),
            file.written().saturating_sub(bytes),
        )
    }
}

// Writes a byte at the end of the data.
fn commit(
    alloc: Global,
    object: &mut ObjectFile<MemFile>,
    entropy: &mut ListEntropy,
) -> Result<RootRef, TreeFault>
    requires { object.old.tree.root.format ≡ 2 }
    ensures { object.new.tree.root.format ≡ 2 }
{
    object.drop_stage();
    let at = object.size().saturating_sub(1);
    object.stage_write(alloc, at, &[0xa5], entropy)?;
    let root = object.settle()?;
    object.adopt();
    Ok(root)
}

/// Commits so many times.
pub fn commits(alloc: Global, object: &mut ObjectFile<MemFile>, rounds: u32) -> anyhow::Result<()>
    requires { object.old.tree.root.format ≡ 2 }
    ensures { object.new.tree.root.format ≡ 2 }
{
    let mut entropy = ListEntropy::new([0; 16]);
    for _ in 0..rounds {
        if commit(alloc, object, &mut entropy).is_err() {
            bail!("no commit");
        }
    }
    Ok(())
}

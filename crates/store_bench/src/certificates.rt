// The certificate of an object of 255 blocks, checked, beside a whole read of the object from its file.

ghost use Rattle.std.specs.Prelude.{◌≡◌, ◌<◌, ◌+◌, ◌*◌, IfOk, length, vec_len};
ghost use Rattle.dir_records.specs.Form.{HasForm};

use crate::trees::{APP, load, made};
use anyhow::bail;
use dir_records::DirEntry;
use hmac_keys::{Keys, dir_tsk, ssk, tsk};
use htree_file::Tree;
use image_audit::{audit_object, check};
use mem_files::MemFile;
use node_image::{FORMAT, RootRef};
use std::alloc::Global;
use store_commit::root_block;
use tee_ports::ListEntropy;

fn device_keys() -> Keys {
    Keys {
        huk: [7; 16],
        chip: [1; 32],
    }
}

/// How many blocks of data the object has.
pub const BLOCKS: u8 = 255;

/// An object, the block of the card under which it stands, and its certificate.
#[derive(Drop)]
pub struct Certified {
    file: MemFile,
    entry: DirEntry,
    block: [u8; 256],
    certificate: Vec<u8>,
    ghost form: { HasForm entry },
    ghost format: { entry.format ≡ 2 },
}

// The key of the object's application.
fn object_key() -> [u8; 32] {
    tsk(&ssk(&device_keys()), &APP)
}

// The directory's first page, with one entry.
fn first_page(entry: &DirEntry) -> [u8; 4096] {
    let mut page = [0; 4096];
    page[..128].copy_from_slice(&entry.to_bytes());
    page
}

// The directory with one entry, in its tree.
fn directory_of(alloc: Global, entry: &DirEntry) -> anyhow::Result<(Tree<MemFile>, RootRef)> {
    let mut pages = vec![in alloc; [0u8; 4096]; 8]?;
    pages[0] = first_page(entry);
    let mut entropy = ListEntropy::new([0; 16]);
    match Tree::make(
        alloc,
        MemFile::new(alloc),
        FORMAT,
        &dir_tsk(&ssk(&device_keys())),
        32_768,
        &pages,
        &mut entropy,
    ) {
        Ok(made) => Ok(made),
        Err(_) => bail!("no directory"),
    }
}

// The certificate of entry 0 of the directory.
fn certificate_of(
    alloc: Global,
    dir: &mut Tree<MemFile>,
    object: &mut Tree<MemFile>,
) -> anyhow::Result<Vec<u8>> {
    if dir.head().greatest != 8 {
        bail!("a directory has 8 blocks");
    }
    match audit_object(alloc, dir, 0, object) {
        Ok(certificate) => Ok(certificate),
        Err(_) => bail!("no certificate"),
    }
}

impl Certified {
    /// Makes the object, its directory and its certificate.
    pub fn new(alloc: Global) -> anyhow::Result<Certified> {
        let (file, entry, root) = made(alloc, &object_key(), BLOCKS)?;
        let (mut dir, dir_root) = directory_of(alloc, &entry)?;
        let mut object = match Tree::load(alloc, file, &object_key(), root) {
            Ok(tree) => tree,
            Err(_) => bail!("no tree"),
        };
        let certificate = certificate_of(alloc, &mut dir, &mut object)?;
        Ok(Certified {
            file: object.into_file(),
            entry,
            block: root_block(&dir_root),
            certificate,
        })
    }

    /// How many bytes the certificate has.
    pub fn len(&self) -> usize {
        self.certificate.len()
    }

    /// Checks the certificate, and gives how many bytes of data the object then has.
    pub fn check(&self, alloc: Global) -> anyhow::Result<usize> {
        match check(
            alloc,
            &self.block,
            &device_keys(),
            self.certificate.as_slice(),
        ) {
            Ok(listed) => Ok(listed.bytes.len()),
            Err(_) => bail!("not accepted"),
        }
    }

    /// Loads the object from its file and reads all its data, and gives how many bytes these are.
    pub fn read(self, alloc: Global) -> anyhow::Result<usize> {
        let Certified { file, entry, .. } = self;
        let mut object = load(alloc, file, &object_key(), &entry)?;
        let mut data = vec![in alloc; 0u8; 4096 * usize::from(BLOCKS)]?;
        match object.read(0, &mut data) {
            Ok(count) => Ok(count),
            Err(_) => bail!("not read"),
        }
    }
}

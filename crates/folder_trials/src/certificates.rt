// The certificate of the object in a folder, and what is said of it once it is changed.

ghost use Rattle.std.specs.Prelude.{◌<◌, vec_len};

use anyhow::{Context, bail};
use dir_file::DirFile;
use hmac_keys::{Keys, dir_tsk, ssk, tsk};
use htree_file::Tree;
use image_audit::{CertFault, ProofFault, audit_object, check};
use mem_files::MemFile;
use node_image::RootRef;
use std::alloc::{AllocError, Global};
use store_commit::root_in;
use tee_ports::FileRig;
use tee_types::{BENCH_FILES, DIRECTORY_FILE};
use trial_runs::simulator_keys;

// A file that reads as the folder's of a number.
fn copy_of(alloc: Global, folder: &[MemFile], number: u16) -> anyhow::Result<MemFile> {
    let file = folder.get(usize::from(number)).context("no file")?;
    let mut copy = MemFile::new(alloc);
    copy.restore(&file.save()?)?;
    Ok(copy)
}

// The card's block.
fn block_of(folder: &[MemFile]) -> anyhow::Result<[u8; 256]> {
    let file = folder.get(BENCH_FILES).context("no file")?;
    let mut block = [0; 256];
    let image = file.save()?;
    match image.bytes().get(..256) {
        Some(bytes) => block.copy_from_slice(bytes),
        None => bail!("a short block"),
    }
    Ok(block)
}

// The tree of a reference in the folder's file of a number.
fn tree_in(
    alloc: Global,
    folder: &[MemFile],
    number: u16,
    key: &[u8; 32],
    root: RootRef,
) -> anyhow::Result<Tree<MemFile>> {
    if root.version > 1 {
        bail!("no version");
    }
    match Tree::load(alloc, copy_of(alloc, folder, number)?, key, root) {
        Ok(tree) => Ok(tree),
        Err(_) => bail!("no tree"),
    }
}

// The certificate of the first entry of the directory.
fn certificate_in(
    alloc: Global,
    keys: &Keys,
    folder: &[MemFile],
    root: RootRef,
) -> anyhow::Result<Vec<u8>> {
    let key = dir_tsk(&ssk(keys));
    let mut dir = tree_in(alloc, folder, DIRECTORY_FILE, &key, root)?;
    if root.version > 1 || dir.head().greatest != 8 {
        bail!("no directory");
    }
    let Ok(listed) = DirFile::load(alloc, copy_of(alloc, folder, DIRECTORY_FILE)?, &key, root)
    else {
        bail!("no directory");
    };
    let entry = listed
        .entries()
        .first()
        .context("no entry")?
        .as_ref()
        .context("no object")?;
    let reference = RootRef {
        hash: entry.hash,
        version: entry.version,
        format: entry.format,
    };
    let wrap = tsk(&ssk(keys), &entry.app.bytes());
    let mut object = tree_in(alloc, folder, entry.file, &wrap, reference)?;
    match audit_object(alloc, &mut dir, 0, &mut object) {
        Ok(certificate) => Ok(certificate),
        Err(_) => bail!("no certificate"),
    }
}

// The block of the object that is told as bad.
fn bad_block(
    alloc: Global,
    block: &[u8; 256],
    keys: &Keys,
    certificate: &[u8],
) -> anyhow::Result<u32> {
    match check(alloc, block, keys, certificate) {
        Err(CertFault::Object(ProofFault::BadTag { block, .. })) => Ok(block),
        _ => bail!("no bad block"),
    }
}

// Where the form is told to end.
fn form_end(
    alloc: Global,
    block: &[u8; 256],
    keys: &Keys,
    certificate: &[u8],
) -> anyhow::Result<u32> {
    match check(alloc, block, keys, certificate) {
        Err(CertFault::Form { at }) => Ok(at),
        _ => bail!("no other form"),
    }
}

/// The line of the certificate of the first object in a folder.
pub fn certificate_line(alloc: Global, folder: &[MemFile]) -> anyhow::Result<String> {
    let keys = simulator_keys();
    let block = block_of(folder)?;
    let Ok(root) = root_in(&block) else {
        bail!("no reference");
    };
    let mut certificate = certificate_in(alloc, &keys, folder, root)?;
    let Ok(listed) = check(alloc, &block, &keys, certificate.as_slice()) else {
        bail!("not accepted");
    };
    let length = certificate.len();
    let last = certificate.pop().context("no bytes")?;
    let end = form_end(alloc, &block, &keys, certificate.as_slice())?;
    certificate.push(last ^ 1)?;
    let bad = bad_block(alloc, &block, &keys, certificate.as_slice())?;
    let line: Result<String, AllocError> = format!(in alloc;
        "a certificate of {length} bytes is of {} bytes of data; without its last byte the form ends at {end}, and with another last byte block {bad} is bad",
        listed.bytes.len()
    );
    line.context("no memory")
}

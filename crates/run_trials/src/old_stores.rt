// A store of the old format, as a migration finds it.

ghost use Rattle.std.specs.Prelude.{◌≡◌, vec_len, IfOk, IfSome};
ghost use Rattle.tee_types.specs.Limits.{file_count};

use anyhow::{Context, bail};
use byte_fields::put;
use dir_records::DirEntry;
use hmac_keys::{dir_tsk, rpmb_key, ssk, tsk};
use htree_file::{Page, Tree};
use mem_files::MemFile;
use node_image::{RootRef, block_offset, greatest_node, node_offset};
use rpmb_host::Host;
use std::alloc::{AllocError, Global};
use store_commit::root_block;
use tee_ports::{FileRig, ListEntropy};
use tee_types::{AppId, ObjectId};
use trial_runs::{Bench, CardPort, SimBench, blank_bench, simulator_keys};
use uuid::Uuid;

/// The old format.
const OLD: u8 = 1;

/// The application of all objects.
const APPLICATION: [u8; 16] = [0, 0, 0, 0, 0, 0, 0, 0, 0, 0, 0, 0, 0, 0, 0, 1];

/// How many bytes a directory has.
const DIRECTORY: usize = 32_768;

/// What is wrong with an object.
#[derive(Clone, Copy, PartialEq, Eq)]
enum Harm {
    Unharmed,
    /// Block 1 has not the tag of its node.
    BadBlock,
    /// Node 1 has not the hash of the reference.
    Damage,
}

/// An object: so many data bytes, all of this value.
#[derive(Clone, Copy)]
struct OldObject {
    id: &'static [u8],
    value: u8,
    size: u32,
    harm: Harm,
}

/// The objects, in files 1, 2 and 3.
const OBJECTS: [OldObject; 3] = [
    OldObject {
        id: b"k1",
        value: 0x11,
        size: 5,
        harm: Harm::Unharmed,
    },
    OldObject {
        id: b"k2",
        value: 0x22,
        size: 4100,
        harm: Harm::BadBlock,
    },
    OldObject {
        id: b"k3",
        value: 0x33,
        size: 3,
        harm: Harm::Damage,
    },
];

/// How a list shows them.
pub const LISTED: &str = "# 00000000-0000-0000-0000-000000000001 6b31 5 - 1111111111
# 00000000-0000-0000-0000-000000000001 6b32 4100 - bad:1
# 00000000-0000-0000-0000-000000000001 6b33 3 damaged
";

// The page of these bytes from that place on, with zeros behind their end.
fn page_at(bytes: &[u8], place: usize) -> Page {
    let mut page = [0; 4096];
    for i in 0..4096usize {
        if let Some(byte) = bytes.get(place.saturating_add(i)) {
            page[i] = *byte;
        }
    }
    page
}

// The pages of these bytes, behind so many pages of zeros.
fn pages_of(alloc: Global, blank: usize, bytes: &[u8]) -> Result<Vec<Page>, AllocError> {
    let mut pages = Vec::new(alloc);
    for _ in 0..blank {
        pages.push([0; 4096])?;
    }
    for page in 0..bytes.len().div_ceil(4096) {
        pages.push(page_at(bytes, page.saturating_mul(4096)))?;
    }
    Ok(pages)
}

// A tree of the old format in a new file.
fn made(
    alloc: Global,
    wrap: &[u8; 32],
    bytes: u64,
    pages: &[Page],
    entropy: &mut ListEntropy,
) -> anyhow::Result<(MemFile, RootRef)> {
    if bytes > 1_048_576 || pages.len() as u64 != u64::from(greatest_node(bytes)) {
        bail!("pages of no tree");
    }
    match Tree::make(alloc, MemFile::new(alloc), OLD, wrap, bytes, pages, entropy) {
        Ok((tree, root)) => Ok((tree.into_file(), root)),
        Err(_) => bail!("not made"),
    }
}

// Harms the file of an object.
fn harm_file(file: &mut MemFile, harm: Harm) {
    match harm {
        Harm::Unharmed => {}
        Harm::BadBlock => file.flip(block_offset(OLD, 1, 0), &[1]),
        Harm::Damage => file.flip(node_offset(OLD, 1, 0), &[1]),
    }
}

// The entry of an object in that file.
fn entry_of(object: &OldObject, file: u16, root: &RootRef) -> anyhow::Result<DirEntry> {
    let id = ObjectId::new(object.id).ok().context("no identifier")?;
    Ok(DirEntry {
        app: AppId::from_uuid(Uuid::from_bytes(APPLICATION)),
        id,
        version: root.version,
        file,
        hash: root.hash,
        size: object.size,
        attributes: 0,
        format: OLD,
        generation: 1,
    })
}

// An object in its file, harmed, and its entry.
fn object_in(
    alloc: Global,
    object: &OldObject,
    number: u16,
    entropy: &mut ListEntropy,
) -> anyhow::Result<(MemFile, DirEntry)> {
    let key = tsk(&ssk(&simulator_keys()), &APPLICATION);
    let data = vec![in alloc; object.value; object.size as usize]?;
    let pages = pages_of(alloc, 1, &data)?;
    let bytes = u64::from(object.size).saturating_add(4096);
    let (mut file, root) = made(alloc, &key, bytes, &pages, entropy)?;
    harm_file(&mut file, object.harm);
    let entry = entry_of(object, number, &root)?;
    Ok((file, entry))
}

// The bytes of a directory with these entries at its front.
fn directory_bytes(alloc: Global, entries: &[DirEntry]) -> anyhow::Result<Vec<u8>> {
    let mut bytes = vec![in alloc; 0; DIRECTORY]?;
    for (index, entry) in entries.iter().enumerate() {
        let place = index.saturating_mul(128);
        if bytes.len() < 128 || bytes.len() - 128 < place {
            bail!("too many entries");
        }
        put(&mut bytes, place, &entry.to_bytes());
    }
    Ok(bytes)
}

// Makes the files of all objects. Gives their entries.
fn put_objects(
    alloc: Global,
    files: &mut Vec<MemFile>,
    entropy: &mut ListEntropy,
) -> anyhow::Result<Vec<DirEntry>>
    ensures { vec_len files.new ≡ vec_len files.old }
{
    let mut entries = Vec::new(alloc);
    for (index, object) in OBJECTS.iter().enumerate() {
        let number = index.saturating_add(1);
        let (file, entry) = object_in(alloc, object, number as u16, entropy)?;
        let place = files.get_mut(number).context("no file")?;
        *place = file;
        entries.push(entry)?;
    }
    Ok(entries)
}

// Writes the card's block 0, which no write came before.
fn card_naming(card: CardPort, root: &RootRef) -> anyhow::Result<CardPort> {
    let mut host = Host::new(card, rpmb_key(&simulator_keys()));
    if host.write_block(0, 0, &root_block(root)).is_err() {
        bail!("not written");
    }
    Ok(host.into_port())
}

/// Devices with a store of the old format. Of its three objects one has a bad block, and one is damaged.
pub fn old_bench(alloc: Global) -> anyhow::Result<SimBench>
    ensures { IfOk result (λ bench. vec_len bench.files ≡ file_count) }
{
    let mut entropy = ListEntropy::new([0; 16]);
    let Bench { mut files, card } = blank_bench(alloc)?;
    let entries = put_objects(alloc, &mut files, &mut entropy)?;
    let bytes = directory_bytes(alloc, &entries)?;
    let pages = pages_of(alloc, 0, &bytes)?;
    let wrap = dir_tsk(&ssk(&simulator_keys()));
    let (file, root) = made(alloc, &wrap, DIRECTORY as u64, &pages, &mut entropy)?;
    let place = files.get_mut(0).context("no file")?;
    *place = file;
    let card = card_naming(card, &root)?;
    Ok(Bench { files, card })
}

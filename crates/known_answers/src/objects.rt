// Objects that entries of the directory mount as.

ghost use Rattle.std.specs.Prelude.{◌≡◌, ◌+◌, ◌-◌, ◌*◌, ◌<◌, ◌≤◌, ◌++◌, ◌∷◌, [], length, min, take, is_none, if◌then◌else◌, IfOk, IsOk, OnOk, string_bytes};
ghost use Rattle.node_image.specs.Layout.{greatest_of};
ghost use Rattle.page_bytes.specs.Pages.{page_at};
ghost use Rattle.dir_records.specs.Form.{HasForm};
ghost use Rattle.store_model.specs.Data.{bytes_at};
ghost use Rattle.store_model.specs.Object.{Damaged, Sound};
ghost use Rattle.crash_core.specs.MountedObject.{mounted_object};
ghost use Rattle.object_file.specs.Held.{held_in, pages_in};
ghost use Rattle.object_file.specs.Loading.{IsOutsideObject};
ghost use Rattle.object_file.specs.Value.{size_in};
ghost use Rattle.known_answers.specs.Files.{IsKept};
ghost use Rattle.known_answers.specs.Objects.{bad_word, bytes_word, content_word, object_line, object_words};

use crate::entries::bad_line;
use crate::questions::ObjectImage;
use crate::trees::file_of;
use crate::words::{push_number, push_word, word_of};
use dir_records::DirEntry;
use htree_file::{Page, TreeFault};
use node_image::greatest_node;
use object_file::{ObjectFault, ObjectFile};
use sha2::{Digest, Sha256};
use std::alloc::{AllocError, Global};
use tee_ports::StoreFile;

/// The most bytes that stand in a line themselves, and not by their hash.
const MOST_IN_FULL: usize = 64;

// Bytes, or their hash.
fn bytes_word(alloc: Global, bytes: &[u8]) -> Result<String, AllocError>
    ensures { IfOk result (λ word. string_bytes word ≡ bytes_word bytes.now) }
{
    if bytes.len() <= MOST_IN_FULL {
        return word_of(alloc, bytes);
    }
    let mut word = String::from_str(alloc, "sha256:")?;
    word.push_str(&hex::encode(alloc, Sha256::digest(bytes))?)?;
    Ok(word)
}

// The numbers of bad blocks.
fn bad_word(alloc: Global, first: u32, rest: &[u32]) -> Result<String, AllocError>
    ensures { IfOk result (λ word. string_bytes word ≡ bad_word first rest.now) }
{
    let mut word = String::from_str(alloc, "bad:")?;
    push_number(&mut word, u64::from(first))?;
    for block in rest {
        word.push_str(",")?;
        push_number(&mut word, u64::from(*block))?;
    }
    Ok(word)
}

// The content of an object of these bytes and bad blocks.
fn content_word(alloc: Global, bytes: &[u8], bad: &[u32]) -> Result<String, AllocError>
    ensures { IfOk result (λ word. string_bytes word ≡ content_word bytes.now bad.now) }
{
    match bad {
        [] => bytes_word(alloc, bytes),
        [first, rest @ ..] => bad_word(alloc, *first, rest),
    }
}

/// The words on a sound object.
pub fn object_words(
    alloc: Global,
    attributes: &[u8],
    bytes: &[u8],
    bad: &[u32],
) -> Result<String, AllocError>
    ensures { IfOk result (λ line. string_bytes line ≡
        object_words (Sound (record { attributes = attributes.now; bytes = bytes.now; bad = bad.now }))) }
{
    let mut line = String::new(alloc);
    push_number(&mut line, bytes.len() as u64)?;
    push_word(alloc, &mut line, attributes)?;
    line.push_str(" ")?;
    line.push_str(&content_word(alloc, bytes, bad)?)?;
    Ok(line)
}

/// The words on a damaged object.
pub fn damaged_words(alloc: Global, size: u32) -> Result<String, AllocError>
    ensures { IfOk result (λ line. string_bytes line ≡ object_words (Damaged size)) }
{
    let mut line = String::new(alloc);
    push_number(&mut line, u64::from(size))?;
    line.push_str(" damaged")?;
    Ok(line)
}

// How many blocks the tree of an object has, with the one that has the attributes.
fn block_count<F: StoreFile>(object: &ObjectFile<F>) -> u32
    ensures needed { result ≡ greatest_of object.now.tree.tree.head.length }
    ensures all { result ≡ length object.now.tree.tree.nodes }
{
    greatest_node(4096 + u64::from(object.size()))
}

// Reads the bytes of data block k into the front of a page, zero bytes where it is bad, and says whether it is.
fn read_data<F: StoreFile>(
    object: &mut ObjectFile<F>,
    block: u32,
    page: &mut Page,
) -> Result<bool, AllocError>
    requires block { (1 ≤ block) × (4096 * block < object.old.tree.tree.head.length) }
    requires few { size_in object.old ≤ 1044480 }
    requires kept { IsKept (F.state object.old.tree.file) (F.state object.old.tree.file).reads }
    ensures bytes { OnOk result (take (min 4096 (size_in object.old - 4096 * (block - 1))) page.new
        ≡ bytes_at (held_in object.old (F.state object.old.tree.file).reads).bytes (4096 * (block - 1)) 4096) }
    ensures bad { IfOk result (λ bad. bad ≡ is_none (page_at (pages_in object.old.tree (F.state object.old.tree.file).reads) block)) }
    ensures same { object.new ≡ record object.old { tree = record object.old.tree { file = object.new.tree.file } } }
    ensures kept { IsKept (F.state object.new.tree.file) (F.state object.old.tree.file).reads }
{
    match object.read(4096 * (block - 1), page) {
        Ok(_) => Ok(false),
        Err(TreeFault::BadTag { .. }) => {
            page.fill(0);
            Ok(true)
        }
        Err(_) => Err(AllocError),
    }
}

// Adds the number of a block where it is bad.
fn add_bad(bad: &mut Vec<u32>, block: u32, is_bad: bool) -> Result<(), AllocError>
    ensures { OnOk result (bad.new.items ≡ bad.old.items ++ (if is_bad then block ∷ [] else [])) }
{
    if is_bad {
        bad.push(block).map_err(AllocError::from)?;
    }
    Ok(())
}

// Adds what data block k has to what the blocks before it have.
fn add_block<F: StoreFile>(
    object: &mut ObjectFile<F>,
    block: u32,
    bytes: &mut Vec<u8>,
    bad: &mut Vec<u32>,
) -> Result<(), AllocError>
    requires block { (1 ≤ block) × (4096 * block < object.old.tree.tree.head.length) }
    requires kept { IsKept (F.state object.old.tree.file) (F.state object.old.tree.file).reads }
    ensures bytes { OnOk result (bytes.new.items ≡ bytes.old.items
        ++ bytes_at (held_in object.old (F.state object.old.tree.file).reads).bytes (4096 * (block - 1)) 4096) }
    ensures bad { OnOk result (bad.new.items ≡ bad.old.items
        ++ (if is_none (page_at (pages_in object.old.tree (F.state object.old.tree.file).reads) block) then block ∷ [] else [])) }
    ensures same { object.new ≡ record object.old { tree = record object.old.tree { file = object.new.tree.file } } }
    ensures kept { IsKept (F.state object.new.tree.file) (F.state object.old.tree.file).reads }
{
    let mut page = [0; 4096];
    let rest = object.size() - 4096 * (block - 1);
    let is_bad = read_data(object, block, &mut page)?;
    bytes.extend_from_slice(&page[..rest.min(4096) as usize])?;
    add_bad(bad, block, is_bad)
}

// The data of an object, and the numbers of its bad blocks.
fn data_of<F: StoreFile>(
    alloc: Global,
    object: &mut ObjectFile<F>,
) -> Result<(Vec<u8>, Vec<u32>), AllocError>
    requires kept { IsKept (F.state object.old.tree.file) (F.state object.old.tree.file).reads }
    ensures bytes { IfOk result (λ d. d.0.items ≡ (held_in object.old (F.state object.old.tree.file).reads).bytes) }
    ensures bad { IfOk result (λ d. d.1.items ≡ (held_in object.old (F.state object.old.tree.file).reads).bad) }
    ensures attributes { OnOk result (object.new.attributes ≡ object.old.attributes) }
{
    let mut bytes = Vec::new(alloc);
    let mut bad = Vec::new(alloc);
    for block in 1..block_count(object) {
        add_block(object, block, &mut bytes, &mut bad)?;
    }
    Ok((bytes, bad))
}

// The words on an object that was loaded.
fn held_words<F: StoreFile>(alloc: Global, object: &mut ObjectFile<F>) -> Result<String, AllocError>
    requires kept { IsKept (F.state object.old.tree.file) (F.state object.old.tree.file).reads }
    ensures { IfOk result (λ line. string_bytes line ≡ object_words (Sound (held_in object.old (F.state object.old.tree.file).reads))) }
{
    let (bytes, bad) = data_of(alloc, object)?;
    object_words(alloc, object.attributes(), &bytes, &bad)
}

// The words on an object that was not loaded. A fault from outside is want of memory.
fn broken_words(alloc: Global, size: u32, fault: ObjectFault) -> Result<String, AllocError>
    ensures words { IfOk result (λ line. string_bytes line ≡ object_words (Damaged size)) }
    ensures inside { IsOk result → IsOutsideObject fault → ⊥ }
{
    match fault {
        ObjectFault::Tree(TreeFault::Failed { .. } | TreeFault::NoMemory) => Err(AllocError),
        _ => damaged_words(alloc, size),
    }
}

// The words on the object that an entry mounts as over an image.
fn mounted_words(
    alloc: Global,
    tsk: &[u8; 32],
    entry: &DirEntry,
    image: Vec<u8>,
) -> Result<String, AllocError>
    requires { HasForm entry.now }
    ensures { IfOk result (λ line. string_bytes line ≡ object_words (mounted_object tsk.now image.items entry.now)) }
{
    let file = file_of(alloc, image)?;
    match ObjectFile::load(alloc, file, tsk, entry) {
        Ok(mut object) => held_words(alloc, &mut object),
        Err(broken) => broken_words(alloc, entry.size, broken.fault),
    }
}

/// The line that tells what an entry mounts as over an image.
pub fn mounted_line(alloc: Global, question: ObjectImage) -> Result<String, AllocError>
    ensures { IfOk result (λ line. string_bytes line ≡ object_line question) }
{
    let ObjectImage { tsk, entry, image } = question;
    match DirEntry::from_bytes(&entry) {
        Ok(Some(entry)) => mounted_words(alloc, &tsk, &entry, image),
        Ok(None) => String::from_str(alloc, "free"),
        Err(bad) => bad_line(alloc, bad.offset),
    }
}

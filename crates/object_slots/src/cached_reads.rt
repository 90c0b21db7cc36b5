// Reads of an object's data that keep the pages that they read.
ghost use Rattle.std.specs.Prelude.{◌≡◌, ◌+◌, ◌-◌, ◌<◌, ◌≤◌, ◌++◌, length, drop, min, IfErr, IfOk, OnOk};
ghost use Rattle.disk_model.specs.Calls.{Rests};
ghost use Rattle.htree_file.specs.Answers.{HasCause};
ghost use Rattle.htree_file.specs.Opening.{IsVerified};
ghost use Rattle.htree_file.specs.Pages.{page_in};
ghost use Rattle.htree_file.specs.Standing.{Told};
ghost use Rattle.page_bytes.specs.Pages.{bytes_from};
ghost use Rattle.page_bytes.specs.Ranges.{meets, read_range};
ghost use Rattle.block_file.specs.Parts.{PartAnswer};
ghost use Rattle.block_file.specs.Reads.{AreReadBytes, BlocksAnswer, IsPage, IsReadFault, blocks_of};
ghost use Rattle.object_slots.specs.CachedPages.{AreKept};
ghost use Rattle.object_slots.specs.SlotReads.{AsksAtMost};

use crate::page_cache::PageCache;
use htree_file::{Page, TreeFault};
use object_file::ObjectFile;
use page_bytes::ByteRange;
use tee_ports::StoreFile;

/// How many bytes the block with the attributes has, which stands before the data.
pub(crate) const FIRST_BLOCK: u64 = 4096;

// How many bytes the object's tree has.
fn tree_length<F: StoreFile>(object: &ObjectFile<F>) -> u64
    ensures length { result ≡ object.now.tree.tree.head.length }
    ensures few { result ≤ 1048576 }
    ensures verified { IsVerified object.now.tree.root object.now.tree.tree }
{
    FIRST_BLOCK + u64::from(object.size())
}

// Reads block `k` into the page, and copies those of its bytes that are in the range where they belong.
fn read_through<F: StoreFile>(
    object: &mut ObjectFile<F>,
    range: ByteRange,
    k: u32,
    page: &mut Page,
    into: &mut [u8],
) -> Result<(), TreeFault>
    requires block { k < object.old.tree.tree.head.greatest }
    requires room { range.last ≤ range.first + length into.old }
    ensures answer { PartAnswer object.old.tree.key object.old.tree.tree (F.state object.old.tree.file) (F.state object.new.tree.file)
        range k into.old into.new result }
    ensures page { OnOk result (IsPage object.old.tree.key object.old.tree.tree
        (F.state object.old.tree.file) (F.state object.new.tree.file) k page.new) }
    ensures asks { AsksAtMost 1 (F.state object.old.tree.file) (F.state object.new.tree.file) }
    ensures same { object.new ≡ record object.old { tree = record object.old.tree { file = object.new.tree.file } } }
    ensures rests { Rests (F.state object.old.tree.file) (F.state object.new.tree.file) }
    ensures cause { HasCause (F.state object.old.tree.file) (F.state object.new.tree.file) result }
{
    object.read_page(k, page)?;
    range.copy_out(k, page, into);
    Ok(())
}

// The same, with a page that is then kept, unless the block is bad.
fn read_to_keep<F: StoreFile>(
    object: &mut ObjectFile<F>,
    pages: &mut PageCache,
    range: ByteRange,
    k: u32,
    mut page: Vec<u8>,
    into: &mut [u8],
) -> Result<(), TreeFault>
    requires kept { AreKept F.state object.old.tree pages.old }
    requires block { k < object.old.tree.tree.head.greatest }
    requires room { range.last ≤ range.first + length into.old }
    requires long { length page.items ≡ 4096 }
    ensures kept { AreKept F.state object.new.tree pages.new }
    ensures answer { PartAnswer object.old.tree.key object.old.tree.tree (F.state object.old.tree.file) (F.state object.new.tree.file)
        range k into.old into.new result }
    ensures asks { AsksAtMost 1 (F.state object.old.tree.file) (F.state object.new.tree.file) }
    ensures same { object.new ≡ record object.old { tree = record object.old.tree { file = object.new.tree.file } } }
    ensures rests { Rests (F.state object.old.tree.file) (F.state object.new.tree.file) }
    ensures cause { HasCause (F.state object.old.tree.file) (F.state object.new.tree.file) result }
{
    let room = page.first_chunk_mut::<4096>().unwrap();
    read_through(object, range, k, room, into)?;
    pages.keep(k, page);
    Ok(())
}

// Reads block `k`, whose page is not kept. Where no memory is found for the page, it is left out.
fn read_missing<F: StoreFile>(
    object: &mut ObjectFile<F>,
    pages: &mut PageCache,
    range: ByteRange,
    k: u32,
    into: &mut [u8],
) -> Result<(), TreeFault>
    requires kept { AreKept F.state object.old.tree pages.old }
    requires block { k < object.old.tree.tree.head.greatest }
    requires room { range.last ≤ range.first + length into.old }
    ensures kept { AreKept F.state object.new.tree pages.new }
    ensures answer { PartAnswer object.old.tree.key object.old.tree.tree (F.state object.old.tree.file) (F.state object.new.tree.file)
        range k into.old into.new result }
    ensures asks { AsksAtMost 1 (F.state object.old.tree.file) (F.state object.new.tree.file) }
    ensures same { object.new ≡ record object.old { tree = record object.old.tree { file = object.new.tree.file } } }
    ensures rests { Rests (F.state object.old.tree.file) (F.state object.new.tree.file) }
    ensures cause { HasCause (F.state object.old.tree.file) (F.state object.new.tree.file) result }
{
    match pages.new_page() {
        Ok(page) => read_to_keep(object, pages, range, k, page, into),
        Err(_) => read_through(object, range, k, &mut [0; 4096], into),
    }
}

// Puts the bytes of the range that block `k` has where they belong: from its page where that is kept, and else by a read of the file.
fn read_part<F: StoreFile>(
    object: &mut ObjectFile<F>,
    pages: &mut PageCache,
    range: ByteRange,
    k: u32,
    into: &mut [u8],
) -> Result<(), TreeFault>
    requires kept { AreKept F.state object.old.tree pages.old }
    requires block { k < object.old.tree.tree.head.greatest }
    requires room { range.last ≤ range.first + length into.old }
    ensures kept { AreKept F.state object.new.tree pages.new }
    ensures answer { PartAnswer object.old.tree.key object.old.tree.tree (F.state object.old.tree.file) (F.state object.new.tree.file)
        range k into.old into.new result }
    ensures asks { AsksAtMost 1 (F.state object.old.tree.file) (F.state object.new.tree.file) }
    ensures same { object.new ≡ record object.old { tree = record object.old.tree { file = object.new.tree.file } } }
    ensures rests { Rests (F.state object.old.tree.file) (F.state object.new.tree.file) }
    ensures cause { HasCause (F.state object.old.tree.file) (F.state object.new.tree.file) result }
{
    if pages.copy_out(range, k, into) {
        Ok(())
    } else {
        read_missing(object, pages, range, k, into)
    }
}

/// Reads bytes of an object's tree from the place `at` on into the front of `into`, fewer where the end is nearer, and says how many. It
/// reads each block that has one of these bytes and whose page is not kept, once, and keeps the page where memory is found for it.
pub(crate) fn read_bytes<F: StoreFile>(
    object: &mut ObjectFile<F>,
    pages: &mut PageCache,
    at: u64,
    into: &mut [u8],
) -> Result<usize, TreeFault>
    requires kept { AreKept F.state object.old.tree pages.old }
    ensures kept { AreKept F.state object.new.tree pages.new }
    ensures count { IfOk result (λ n. n ≡ min (length into.old) (object.old.tree.tree.head.length - at)) }
    // Of any file.
    ensures bytes { IfOk result (λ n. AreReadBytes object.old.tree.key object.old.tree.tree
        (F.state object.old.tree.file) (F.state object.new.tree.file) at into.new n) }
    ensures blocks { BlocksAnswer object.old.tree.key object.old.tree.tree (F.state object.old.tree.file) (F.state object.new.tree.file)
        (meets at (at + min (length into.old) (object.old.tree.tree.head.length - at))) result }
    // At most each block is read, once, and nothing else is asked of the file.
    ensures asks { IfOk result (λ n. AsksAtMost (blocks_of (read_range object.old.tree.tree.head.length at (length into.old)))
        (F.state object.old.tree.file) (F.state object.new.tree.file)) }
    // Of a file that can be followed.
    ensures content { IfOk result (λ n. Told (F.state object.old.tree.file) (F.state object.new.tree.file) →
        into.new ≡ bytes_from (page_in (F.state object.old.tree.file).reads object.old.tree.key object.old.tree.tree) at n ++ drop n into.old) }
    ensures rest { drop (min (length into.old) (object.old.tree.tree.head.length - at)) into.new
        ≡ drop (min (length into.old) (object.old.tree.tree.head.length - at)) into.old }
    ensures verified { IsVerified object.old.tree.root object.old.tree.tree }
    ensures same { object.new ≡ record object.old { tree = record object.old.tree { file = object.new.tree.file } } }
    ensures rests { Rests (F.state object.old.tree.file) (F.state object.new.tree.file) }
    ensures cause { HasCause (F.state object.old.tree.file) (F.state object.new.tree.file) result }
    ensures fault { IfErr result IsReadFault }
{
    let range = ByteRange::of_read(tree_length(object), at, into.len() as u64);
    for k in range.first_block()..range.end_block() {
        read_part(object, pages, range, k, into)?;
    }
    Ok((range.last - range.first) as usize)
}

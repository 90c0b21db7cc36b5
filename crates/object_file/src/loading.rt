// What an entry asks of the tree that holds its object.

ghost use Rattle.std.specs.Prelude.{◌≡◌, ◌+◌, ◌≤◌, length, take, Some, IfErr, IfOk, IsTrue, OnOk};
ghost use Rattle.disk_model.specs.Arms.{count_call};
ghost use Rattle.disk_model.specs.Calls.{Rests};
ghost use Rattle.htree_file.specs.Answers.{HasCause, HasFaultWidths};
ghost use Rattle.htree_file.specs.Pages.{page_in};
ghost use Rattle.htree_file.specs.Standing.{Told};
ghost use Rattle.block_file.specs.Reads.{AreReadBytes};
ghost use Rattle.dir_records.specs.Form.{HasForm};
ghost use Rattle.object_file.specs.Loading.{FirstFault, HasObjectCause, HasObjectWidths, IsFirstRead, IsFront, PartFault};

use crate::fault::ObjectFault;
use crate::object::FIRST_BLOCK;
use block_file::BlockFile;
use dir_records::DirEntry;
use htree_file::{Page, TreeFault};
use std::alloc::Global;
use tee_ports::{NoMemory, StoreFile};

// Reads block 0.
fn read_first<F: StoreFile>(file: &mut BlockFile<F>, page: &mut Page) -> Result<(), TreeFault>
    requires { 4096 ≤ file.old.tree.head.length }
    ensures bytes { OnOk result (AreReadBytes file.old.key file.old.tree (F.state file.old.file) (F.state file.new.file) 0 page.new 4096) }
    ensures stands { OnOk result (Told (F.state file.old.file) (F.state file.new.file) →
        page_in (F.state file.old.file).reads file.old.key file.old.tree 0 ≡ Some page.new) }
    ensures once { OnOk result (IsTrue (F.state file.old.file).tells_arms → (F.state file.new.file).arms ≡ count_call (F.state file.old.file).arms) }
    ensures fault { IfErr result (FirstFault file.old.key file.old.tree (F.state file.new.file)) }
    ensures widths { IfErr result HasFaultWidths }
    ensures same { file.new ≡ record file.old { file = file.new.file } }
    ensures rests { Rests (F.state file.old.file) (F.state file.new.file) }
    ensures cause { HasCause (F.state file.old.file) (F.state file.new.file) result }
{
    file.read(0, page)?;
    Ok(())
}

// The first bytes of a page.
fn first_bytes(alloc: Global, page: &Page, count: u16) -> Result<Vec<u8>, NoMemory>
    requires { count ≤ 2048 }
    ensures { IfOk result (λ bytes. bytes.items ≡ take count page.now) }
{
    Vec::from_slice(alloc, &page[..count as usize])
}

/// The attributes of the entry, read from block 0 of a tree that has as many bytes as the entry's size wants.
pub(crate) fn read_attributes<F: StoreFile>(
    alloc: Global,
    file: &mut BlockFile<F>,
    entry: &DirEntry,
) -> Result<Vec<u8>, ObjectFault>
    requires { HasForm entry.now }
    ensures size { OnOk result (file.old.tree.head.length ≡ 4096 + entry.now.size) }
    ensures attributes { IfOk result (λ bytes. length bytes.items ≡ entry.now.attributes) }
    ensures bytes { IfOk result (λ bytes. AreReadBytes file.old.key file.old.tree
        (F.state file.old.file) (F.state file.new.file) 0 bytes.items entry.now.attributes) }
    ensures first { IfOk result (λ bytes. IsFirstRead file.old.key file.old.tree
        (F.state file.old.file) (F.state file.new.file) bytes.items entry.now.attributes) }
    ensures front { IfOk result (λ bytes. Told (F.state file.old.file) (F.state file.new.file) →
        IsFront (F.state file.old.file).reads file.old.key file.old.tree bytes.items entry.now.attributes) }
    ensures once { OnOk result (IsTrue (F.state file.old.file).tells_arms → (F.state file.new.file).arms ≡ count_call (F.state file.old.file).arms) }
    ensures fault { IfErr result (PartFault file.old.key file.old.tree (F.state file.new.file) entry.now.size) }
    ensures widths { IfErr result HasObjectWidths }
    ensures same { file.new ≡ record file.old { file = file.new.file } }
    ensures rests { Rests (F.state file.old.file) (F.state file.new.file) }
    ensures cause { HasObjectCause (F.state file.old.file) (F.state file.new.file) result }
{
    let (size, head) = (entry.size, file.length());
    if head != FIRST_BLOCK + u64::from(size) {
        return Err(ObjectFault::WrongSize { entry: size, head });
    }
    let mut page = [0; 4096];
    read_first(file, &mut page)?;
    let attributes = first_bytes(alloc, &page, entry.attributes)?;
    Ok(attributes)
}

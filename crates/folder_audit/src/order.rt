//! The entries of a directory in the order of their names.

ghost use Rattle.std.specs.Prelude.{◌≡◌, ◌<◌, length, get_or, IfOk, OnOk};
ghost use Rattle.dir_file.specs.EntryForms.{AreEntriesOf};
ghost use Rattle.dir_index.specs.Index.{IndexEntry};
ghost use Rattle.store_commit.specs.NameIndex.{IndexesEntry, IsIndexOf};
ghost use Rattle.folder_audit.specs.Order.{AreNamesOf, IsOfName};

use dir_index::{DirIndex, Held, changes_concern_one_name};
use dir_records::DirEntry;
use std::alloc::Global;
use tee_types::NoMemory;

// Puts the name of an entry, if there is one, into an index that has it not.
fn index_entry(index: &mut DirIndex, entry: &Option<DirEntry>, place: u16) -> Result<(), NoMemory>
    ensures { OnOk result (IndexesEntry index.old index.new entry.now place) }
{
    // The law of what a change of the index is for each name.
    changes_concern_one_name();
    match entry {
        Some(entry) => {
            index.reserve(1)?;
            if index.find(entry.app, entry.id).is_none() {
                index.insert(entry.app, entry.id, place);
            }
            Ok(())
        }
        None => Ok(()),
    }
}

/// The names of 256 entries, in order, each with the index of its entry.
///
/// # Errors
///
/// Memory ran out.
pub(crate) fn names_of(alloc: Global, entries: &[Option<DirEntry>]) -> Result<DirIndex, NoMemory>
    requires { AreEntriesOf entries.now }
    ensures { IfOk result (λ index. AreNamesOf entries.now index.entries) }
{
    let mut index = DirIndex::new(alloc);
    for i in 0..256u16 {
        index_entry(&mut index, &entries[i as usize], i)?;
    }
    let _ordered = index.len();
    Ok(index)
}

/// The entry of the name at a place, with its index.
pub(crate) fn entry_of(entries: &[Option<DirEntry>], names: &DirIndex, place: usize) -> Held
    requires whole { length entries.now ≡ 256 }
    requires names { AreNamesOf entries.now names.now.entries }
    requires within { place < length names.now.entries }
    ensures low { result.index < 256 }
    ensures named { (d : IndexEntry) → IsOfName entries.now (get_or names.now.entries place d) result.entry }
    ensures index { (d : IndexEntry) → result.index ≡ (get_or names.now.entries place d).1 }
{
    let index = names.entries()[place].1;
    let Some(entry) = entries[index as usize] else {
        unreachable!()
    };
    Held { index, entry }
}

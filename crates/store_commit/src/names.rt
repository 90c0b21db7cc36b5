//! The index of names beside the directory's entries.

ghost use Rattle.std.specs.Prelude.{◌≡◌, ◌≤◌, ◌+◌, if◌then◌else◌, None};
ghost use Rattle.std.specs.Ordering.{is_eq};
ghost use Rattle.store_model.specs.declared.name.ObjectName.{ObjectName};
ghost use Rattle.store_model.specs.Name.{name_cmp};
ghost use Rattle.crash_core.specs.Entries.{name_of};
ghost use Rattle.dir_index.specs.Index.{index_at};
ghost use Rattle.store_commit.specs.NameIndex.{AddsName, ChangesNames, PutsName, name_added, names_added};

use crash_core::EntryChange;
use dir_index::{DirIndex, changes_concern_one_name};
use dir_records::DirEntry;
use store_model::ObjectName;

// The name of an entry's object.
fn name_of(entry: &DirEntry) -> ObjectName
    ensures { result ≡ name_of entry.now }
{
    ObjectName {
        app: entry.app,
        id: entry.id,
    }
}

// Takes the name of an entry out.
fn forget_name(index: &mut DirIndex, entry: &DirEntry)
    ensures names { (other : ObjectName) → index_at index.new other
        ≡ (if is_eq (name_cmp other (name_of entry.now)) then None else index_at index.old other) }
    ensures room { index.old.spare ≤ index.new.spare }
{
    // The law of what a change of the index is for each name.
    changes_concern_one_name();
    let _names = index.len();
    index.remove(entry.app, entry.id);
}

/// Puts the name of an entry in, where it is not held.
pub(crate) fn add_name(index: &mut DirIndex, entry: &DirEntry, place: u16)
    requires room { name_added index.old entry.now ≤ index.old.spare }
    ensures names { AddsName index.old index.new entry.now place }
    ensures room { index.old.spare ≤ index.new.spare + name_added index.old entry.now }
{
    changes_concern_one_name();
    if index.find(entry.app, entry.id).is_none() {
        index.insert(entry.app, entry.id, place);
    }
}

// Puts the name of an entry in its place, in which this one stood before.
fn put_name(index: &mut DirIndex, before: &Option<DirEntry>, place: u16, entry: &DirEntry)
    requires room { name_added index.old entry.now ≤ index.old.spare }
    ensures names { PutsName index.old index.new before.now place entry.now }
    ensures room { index.old.spare ≤ index.new.spare + name_added index.old entry.now }
{
    match before {
        Some(old) => {
            if name_of(old) != name_of(entry) {
                forget_name(index, old);
                add_name(index, entry, place);
            }
        }
        None => add_name(index, entry, place),
    }
}

/// Makes the change of the names that a change of the entries makes, where this one stood before.
pub(crate) fn change_names(index: &mut DirIndex, before: &Option<DirEntry>, change: &EntryChange)
    requires room { names_added index.old change.now ≤ index.old.spare }
    ensures names { ChangesNames index.old index.new before.now change.now }
    ensures room { index.old.spare ≤ index.new.spare + names_added index.old change.now }
{
    match (change, before) {
        (
            EntryChange::Put {
                index: place,
                entry,
            },
            _,
        ) => put_name(index, before, *place, entry),
        (EntryChange::Clear { .. }, Some(old)) => forget_name(index, old),
        (EntryChange::Clear { .. }, None) => {}
    }
}

//! The objects of a mounted store, one by one.

ghost use Rattle.std.specs.Prelude.{◌≡◌, ◌∷◌, length};
ghost use Rattle.tee_types.specs.Limits.{last_file};
ghost use Rattle.crash_core.specs.Entries.{name_of};
ghost use Rattle.dir_records.specs.Form.{HasForm};
ghost use Rattle.object_calls.specs.OpeningEntries.{IsNextEntry, is_nearer, is_past, nearer_of};
ghost use Rattle.object_calls.specs.OpeningFiles.{object_files};
ghost use Rattle.object_calls.specs.Next.{MapStays, NextAnswer, ReadsObject, ShowAnswer};
ghost use Rattle.object_calls.specs.Opening.{bench_files, entries_in};

use crate::object_data::{Wanted, show_object};
use crate::opening::Opening;
use crate::shown_object::{Shown, ShownObject};
use core::mem::replace_with;
use dir_records::DirEntry;
use hmac_keys::tsk;
use rpmb_card::RpmbPort;
use store_commit::{Gate, MountFault};
use store_model::ObjectName;
use tee_ports::StoreFile;

// The name of an entry's object.
fn name_of(entry: &DirEntry) -> ObjectName
    ensures { result ≡ name_of entry.now }
{
    ObjectName {
        app: entry.app,
        id: entry.id,
    }
}

// The name is above that one, where one is given.
fn is_past(after: &Option<ObjectName>, name: &ObjectName) -> bool
    ensures { result ≡ is_past after.now name.now }
{
    match after {
        Some(after) => after.cmp(name).is_lt(),
        None => true,
    }
}

// The name is below that of the best so far, if there is one.
fn is_nearer(best: &Option<DirEntry>, name: &ObjectName) -> bool
    ensures { result ≡ is_nearer best.now name.now }
{
    match best {
        Some(best) => name.cmp(&name_of(best)).is_lt(),
        None => true,
    }
}

// The entry, if its name is above and below that of the best so far; else the best so far.
fn nearer(
    after: &Option<ObjectName>,
    best: Option<DirEntry>,
    entry: Option<DirEntry>,
) -> Option<DirEntry>
    ensures { result ≡ nearer_of after.now best entry }
{
    match entry {
        Some(found) => {
            let name = name_of(&found);
            if is_past(after, &name) && is_nearer(&best, &name) {
                Some(found)
            } else {
                best
            }
        }
        None => best,
    }
}

// The entry of the least name above.
fn next_entry<F: StoreFile + Drop, R: RpmbPort + Drop>(
    gate: &Gate<F, R>,
    after: &Option<ObjectName>,
) -> Option<DirEntry>
    requires { length gate.now.dir.dir.entries ≡ 256 }
    ensures { IsNextEntry gate.now.dir.dir.entries after.now result }
{
    let mut best = None;
    for index in 0..256u16 {
        best = nearer(after, best, gate.entry(index));
    }
    best
}

// Shows the object of an entry, whose file is taken out of its place and put back.
fn show_in<F: StoreFile>(files: &mut [F], wanted: Wanted) -> Result<ShownObject, MountFault>
    requires files { length files.old ≡ last_file }
    requires form { HasForm wanted.entry }
    ensures answer { ShowAnswer wanted.tsk (object_files F.state files.old wanted.entry.file) (object_files F.state files.new wanted.entry.file) wanted.entry result }
    ensures reads { ReadsObject (object_files F.state files.old) (object_files F.state files.new) wanted.entry.file }
{
    let place = wanted.entry.file as usize - 1;
    replace_with(&mut files[place], wanted, show_object)
}

impl<F: StoreFile + Drop, R: RpmbPort + Drop> Opening<F, R> {
    /// The object of the least name above that one, or of the least of all: by the bytes of the application, then by those of the
    /// identifier. It is loaded from its file, and its file is read whole.
    ///
    /// # Errors
    ///
    /// `Failed` where a call of the object's file failed, and `NoMemory`.
    pub fn next_object(&mut self, after: Option<ObjectName>) -> Result<Option<Shown>, MountFault>
        ensures answer { NextAnswer (entries_in self.old) after self.old.storage_key (bench_files F.state self.old) (bench_files F.state self.new) result }
        ensures map { MapStays (entries_in self.old) (bench_files F.state self.old) (bench_files F.state self.new) }
        ensures same { self.new ≡ record self.old { files = self.new.files } }
    {
        let Some(entry) = next_entry(&self.gate, &after) else {
            return Ok(None);
        };
        let wanted = Wanted {
            alloc: self.alloc,
            tsk: tsk(&self.storage_key, &entry.app.bytes()),
            entry,
        };
        let object = show_in(&mut self.files, wanted)?;
        Ok(Some(Shown {
            app: entry.app,
            id: entry.id,
            size: entry.size,
            object,
        }))
    }
}

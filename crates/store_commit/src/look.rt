//! Entries of a gate's directory, by name and by index.

ghost use Rattle.std.specs.Prelude.{◌≡◌, ◌≤◌, ◌*◌, ◌^◌, length};
ghost use Rattle.dir_index.specs.Index.{named};
ghost use Rattle.dir_index.specs.EntryNames.{IsEntryNamed, IsFirstFree, IsNextAbove};
ghost use Rattle.app_totals.specs.EntryTotals.{entry_totals};

use crate::gate::{Gate, entry_of};
use app_totals::{Totals, entry_totals};
use dir_index::Held;
use dir_records::DirEntry;
use rpmb_card::RpmbPort;
use tee_ports::StoreFile;
use tee_types::{AppId, ObjectId};

// The first free one of 256 entries.
fn first_free(entries: &[Option<DirEntry>]) -> Option<u16>
    requires { length entries.now ≡ 256 }
    ensures { IsFirstFree entries.now result }
{
    for index in 0..256u16 {
        if entries[index as usize].is_none() {
            return Some(index);
        }
    }
    None
}

impl<F: StoreFile + Drop, R: RpmbPort + Drop> Gate<F, R> {
    /// The committed entry of that name, with its index.
    pub fn look(&self, app: AppId, id: ObjectId) -> Option<Held>
        ensures { IsEntryNamed self.now.dir.dir.entries (named app id) result }
    {
        let index = self.index.find(app, id)?;
        let entry = entry_of(&self.dir, index)?;
        Some(Held { index, entry })
    }

    /// The committed entry of the application's least identifier, or of the least above one that is given.
    pub fn next_above(&self, app: AppId, after: Option<ObjectId>) -> Option<DirEntry>
        ensures { IsNextAbove self.now.dir.dir.entries app after result }
    {
        let (_, index) = self.index.next_above(app, after)?;
        entry_of(&self.dir, index)
    }

    /// The least index whose entry is free.
    pub fn free_index(&self) -> Option<u16>
        ensures { IsFirstFree self.now.dir.dir.entries result }
    {
        first_free(self.dir.entries())
    }

    /// How many objects the application has, and how many bytes of data, by the committed entries.
    pub fn totals(&self, app: AppId) -> Totals
        ensures told { result ≡ entry_totals app self.now.dir.dir.entries }
        ensures objects_fit { result.objects ≤ 256 }
        ensures bytes_fit { result.bytes ≤ 256 * 2 ^ 32 }
    {
        entry_totals(app, self.dir.entries())
    }
}

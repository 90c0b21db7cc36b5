//! What the rules ask of the directory and of the open handles.

ghost use Rattle.std.specs.Prelude.{◌≡◌, ◌≤◌, ◌*◌, ◌^◌, List, Option};
ghost use Rattle.dir_index.specs.Index.{named};
ghost use Rattle.dir_records.specs.declared.entry.DirEntry.{DirEntry};
ghost use Rattle.open_table.specs.Table.{TableState, allows_on_file, is_file_open};
ghost use Rattle.app_totals.specs.EntryTotals.{entry_totals};
ghost use Rattle.core_laws.specs.DirectoryLaws.{AreEntries};
ghost use Rattle.dir_index.specs.EntryNames.{IsEntryNamed, IsFirstFree, IsNextAbove};

use app_totals::Totals;
use dir_index::Held;
use dir_records::DirEntry;
use tee_types::{AppId, Flags, ObjectId};

/// The committed entries of a directory, and the open handles of all sessions.
pub trait Catalog {
    ghost entries: { Self → List (Option DirEntry) };

    ghost handles: { Self → TableState };

    /// The entry of that name, with its index.
    fn look(&self, app: AppId, id: ObjectId) -> Option<Held>
        ensures named { IsEntryNamed (entries self.now) (named app id) result }
        // What always holds of a directory.
        ensures entries { AreEntries (entries self.now) };

    /// How many objects the application has, and how many bytes of data.
    fn totals(&self, app: AppId) -> Totals
        ensures told { result ≡ entry_totals app (entries self.now) }
        ensures objects_fit { result.objects ≤ 256 }
        ensures bytes_fit { result.bytes ≤ 256 * 2 ^ 32 }
        // What always holds of a directory.
        ensures entries { AreEntries (entries self.now) };

    /// The entry of the application's least identifier, or of the least above one that is given.
    fn next_above(&self, app: AppId, after: Option<ObjectId>) -> Option<DirEntry>
        ensures { IsNextAbove (entries self.now) app after result };

    /// The least index whose entry is free.
    fn free_index(&self) -> Option<u16>
        ensures { IsFirstFree (entries self.now) result };

    /// Whether a new handle with these flags may be opened beside every open handle on that file.
    fn allows(&self, file: u16, flags: Flags) -> bool
        ensures { result ≡ allows_on_file (handles self.now) file flags };

    /// Whether any handle is open on that file.
    fn any_open(&self, file: u16) -> bool
        ensures { result ≡ is_file_open (handles self.now) file };
}

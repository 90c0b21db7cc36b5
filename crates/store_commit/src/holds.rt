//! Files that sessions hold, before an entry names them.

ghost use Rattle.std.specs.Prelude.{◌≡◌, ◌<◌, None, Some, slice_set};
ghost use Rattle.dir_file.specs.EntryForms.{AreEntriesOf};
ghost use Rattle.store_commit.specs.Gates.{file_in_doubt};
ghost use Rattle.store_commit.specs.Holds.{AreApart, AreHolds, EndsHoldOf, HoldsWithout, IsLeastFreeFile, file_held, unless_file};

use crate::gate::Gate;
use crate::marks::{MARKS, first_unmarked, mark_held, mark_named};
use crash_core::EntryChange;
use dir_records::DirEntry;
use rpmb_card::RpmbPort;
use tee_ports::StoreFile;
use tee_types::MAX_SESSIONS;

// A hold, unless it is on that file.
fn unless_file(file: u16, held: Option<u16>) -> Option<u16>
    ensures { result ≡ unless_file file held }
{
    match held {
        Some(held) => { if held == file { None } else { Some(held) } }
        None => None,
    }
}

// Ends each hold on a file.
fn drop_file(holds: &mut [Option<u16>; MAX_SESSIONS], file: u16)
    ensures { HoldsWithout file holds.old holds.new }
{
    for session in 0..MAX_SESSIONS {
        holds[session] = unless_file(file, holds[session]);
    }
}

/// Ends the hold on the file that a change puts.
pub(crate) fn end_hold(holds: &mut [Option<u16>; MAX_SESSIONS], change: &EntryChange)
    ensures { EndsHoldOf change.now holds.old holds.new }
{
    match change {
        EntryChange::Put { entry, .. } => drop_file(holds, entry.file),
        EntryChange::Clear { .. } => {}
    }
}

// The least file that no entry names and no session holds, where one session at least holds none.
fn free_file(entries: &[Option<DirEntry>], holds: &[Option<u16>; MAX_SESSIONS], session: u32) -> u16
    requires entries { AreEntriesOf entries.now }
    requires holds { AreHolds entries.now holds.now }
    requires idle { (session < 16) × (file_held holds.now session ≡ None) }
    ensures { IsLeastFreeFile entries.now holds.now result }
{
    let mut marks = [false; MARKS];
    mark_named(&mut marks, entries);
    mark_held(&mut marks, holds);
    first_unmarked(&marks)
}

impl<F: StoreFile + Drop, R: RpmbPort + Drop> Gate<F, R> {
    /// Lets a session that holds no file hold the least one that no entry names and no session holds. There is always one: entries name
    /// at most 256 of the 272 files, and other sessions hold at most 15. It is never the file that a commit in doubt puts.
    pub fn reserve_file(&mut self, session: u32) -> u16
        requires idle { (session < 16) × (file_held self.old.holds session ≡ None) }
        ensures free { IsLeastFreeFile self.old.dir.dir.entries self.old.holds result }
        ensures held { file_held self.new.holds session ≡ Some result }
        ensures undoubted { AreApart (Some result) (file_in_doubt self.old.doubt) }
        ensures same { self.new ≡ record self.old { holds = slice_set self.old.holds session (Some result) } }
    {
        let file = free_file(self.dir.entries(), &self.holds, session);
        self.holds[session as usize] = Some(file);
        file
    }

    /// Ends a session's hold, if it has one. The hold on the file that a commit in doubt puts ends by `resolve` alone.
    pub fn release_file(&mut self, session: u32)
        requires session { session < 16 }
        requires undoubted { AreApart (file_held self.old.holds session) (file_in_doubt self.old.doubt) }
        ensures { self.new ≡ record self.old { holds = slice_set self.old.holds session None } }
    {
        self.holds[session as usize] = None;
    }
}

//! The open handles of all sessions, as events add and take them.

ghost use Rattle.std.specs.Prelude.{◌≡◌, ◌≤◌, ◌+◌, OnOk};
ghost use Rattle.store_commit.specs.Gates.{names_due};
ghost use Rattle.store_commit.specs.NameIndex.{HasSameNames};
ghost use Rattle.open_table.specs.HandleChanges.{DropsHandle, NotesReply};

use crate::gate::Gate;
use crash_core::{DoubtedChange, EntryChange};
use dir_index::DirIndex;
use open_table::OpenTable;
use rpmb_card::RpmbPort;
use tee_ports::StoreFile;
use tee_types::{Call, NoMemory, Reply};

// Takes a session's handle away, where it is open.
fn drop_handle(handles: &mut OpenTable, session: u32, handle: u32)
    ensures { DropsHandle handles.old handles.new session handle }
{
    if let Some(key) = handles.find(session, handle) {
        handles.remove(key);
    }
}

// Adds or takes the handle that a call and its reply name.
fn note_reply(handles: &mut OpenTable, file: u16, session: u32, call: &Call, reply: &Reply)
    requires room { 1 ≤ handles.old.spare }
    ensures { NotesReply handles.old handles.new file session call.now reply.now }
{
    match (call, reply) {
        (Call::Create { flags, .. }, Reply::Handle(handle)) => {
            handles.add(file, session, *handle, flags.without_overwrite());
        }
        (Call::Open { flags, .. }, Reply::Handle(handle)) => {
            handles.add(file, session, *handle, flags.without_overwrite());
        }
        (Call::Close { handle }, Reply::Done) => drop_handle(handles, session, *handle),
        (Call::Delete { handle }, Reply::Done) => drop_handle(handles, session, *handle),
        _ => {}
    }
}

// Makes room for one name beside the one that a commit in doubt may bring.
fn reserve_name(index: &mut DirIndex, doubt: &Option<DoubtedChange>) -> Result<(), NoMemory>
    requires due { names_due index.old doubt.now ≤ index.old.spare }
    ensures names { HasSameNames index.old index.new }
    ensures room { OnOk result (1 + names_due index.new doubt.now ≤ index.new.spare) }
    ensures spare { index.old.spare ≤ index.new.spare }
{
    match doubt {
        Some(
            DoubtedChange {
                change: EntryChange::Put { .. },
                ..
            },
        ) => index.reserve(2),
        _ => index.reserve(1),
    }
}

impl<F: StoreFile + Drop, R: RpmbPort + Drop> Gate<F, R> {
    /// Makes room for one commit and for one handle more, beside what the commit in doubt may need if it lands.
    ///
    /// # Errors
    ///
    /// Memory ran out. Nothing changed but that there may be room.
    pub fn reserve(&mut self) -> Result<(), NoMemory>
        ensures room { OnOk result ((1 ≤ self.new.room) × (1 ≤ self.new.open_handles.spare)) }
        ensures handles { self.new.open_handles.records ≡ self.old.open_handles.records }
        ensures same { self.new ≡ record self.old { open_handles = self.new.open_handles; room = self.new.room } }
        // There is no less room than before.
        ensures grows { (self.old.room ≤ self.new.room) × (self.old.open_handles.spare ≤ self.new.open_handles.spare) }
    {
        reserve_name(&mut self.index, &self.doubt)?;
        self.handles.reserve()
    }

    /// Adds the open handle that a session's call with its reply names, or takes it away: a Create or an Open that was answered with a handle
    /// adds it, on that file; a Close or a Delete that was done takes it away. Other calls change nothing.
    pub fn note(&mut self, file: u16, session: u32, call: &Call, reply: &Reply)
        requires room { 1 ≤ self.old.open_handles.spare }
        ensures notes { NotesReply self.old.open_handles self.new.open_handles file session call.now reply.now }
        ensures same { self.new ≡ record self.old { open_handles = self.new.open_handles } }
    {
        note_reply(&mut self.handles, file, session, call, reply);
    }

    /// Takes a session's handle away, where it is open: that of a Delete which was in doubt and landed.
    pub fn drop_handle(&mut self, session: u32, handle: u32)
        ensures drops { DropsHandle self.old.open_handles self.new.open_handles session handle }
        ensures same { self.new ≡ record self.old { open_handles = self.new.open_handles } }
    {
        drop_handle(&mut self.handles, session, handle);
    }
}

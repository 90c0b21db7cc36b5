//! The table of open handles.

use sharing_rules::compatible;
use slab::Slab;
use std::alloc::Global;
use std::marker::Model;
use tee_types::{Flags, NoMemory};

/// An open handle.
#[derive(Clone, Copy, Debug, PartialEq, Eq)]
pub struct OpenRecord {
    /// The number of the file that the object lies in.
    pub file: u16,
    /// The number of the session that holds the handle.
    pub session: u32,
    /// The handle's number in its session.
    pub handle: u32,
    /// The rights of the handle.
    pub flags: Flags,
}

/// The open handles of all sessions, each under a key that the table picks. A contract sees the records by key,
/// by rising key, and how many more may be added without memory.
#[derive(Drop)]
pub struct OpenTable {
    records: Slab<OpenRecord>,
}

impl Model for OpenTable {
    ghost use Rattle.std.specs.Prelude.{◌-◌};
    ghost use Rattle.slab.specs.Slab.{entries, slab_len};
    ghost use Rattle.open_table.specs.Table.{TableState};

    ghost Value = { TableState };

    ghost view = { λ a. record { records = entries a.records; spare = a.records.capacity - slab_len a.records } };
}

impl OpenTable {
    ghost use Rattle.std.specs.Prelude.{◌≡◌, ◌≤◌, ◌+◌, ◌==◌, [], None, OnOk, IfSome, IsOk, IsSome};
    ghost use Rattle.std.specs.Map.{remove_entry};
    ghost use Rattle.std.specs.BTreeMap.{insert_entry};
    ghost use Rattle.std.specs.Ordering.{nat_cmp};
    ghost use Rattle.open_table.specs.Table.{record_at, key_of, IsLeastKey, allows_on_file, is_file_open};

    /// A table without handles. It takes no memory.
    pub fn new(alloc: Global) -> OpenTable
        ensures { result ≡ record { records = []; spare = 0 } }
    {
        OpenTable {
            records: Slab::new(alloc),
        }
    }

    /// Makes room for one more handle, which takes memory only where there is none. The records stay as they are,
    /// also where there is no memory.
    pub fn reserve(&mut self) -> Result<(), NoMemory>
        ensures room { OnOk result (1 ≤ self.new.spare) }
        ensures succeeds { 1 ≤ self.old.spare → IsOk result }
        ensures records { self.new.records ≡ self.old.records }
        ensures spare { self.old.spare ≤ self.new.spare }
    {
        self.records.reserve(1)
    }

    /// Adds the record of a new handle, and gives its key, which no record had. It takes no memory.
    pub fn add(&mut self, file: u16, session: u32, handle: u32, flags: Flags) -> usize
        requires { 1 ≤ self.old.spare }
        ensures fresh { record_at self.old result ≡ None }
        ensures added { self.new.records ≡ insert_entry nat_cmp self.old.records result (record { file = file; session = session; handle = handle; flags = flags }) }
        ensures spare { self.new.spare + 1 ≡ self.old.spare }
    {
        self.records.insert_reserved(OpenRecord {
            file,
            session,
            handle,
            flags,
        })
    }

    /// The key of the record of that session's handle, the least one if there are several.
    pub fn find(&self, session: u32, handle: u32) -> Option<usize>
        ensures found { result ≡ key_of self.now session handle }
        ensures held { IfSome result (λ key. IsSome (record_at self.now key)) }
        ensures least { IfSome result (λ key. IsLeastKey self.now session handle key) }
    {
        for (key, record) in self.records.iter() {
            if record.session == session && record.handle == handle {
                return Some(key);
            }
        }
        None
    }

    /// Takes the record of that key away.
    pub fn remove(&mut self, key: usize)
        requires { IsSome (record_at self.old key) }
        ensures removed { self.new.records ≡ remove_entry (λ k. k == key) self.old.records }
        ensures spare { self.new.spare ≡ self.old.spare + 1 }
    {
        self.records.remove(key);
    }

    /// Whether a new handle with these flags may be opened beside every open handle on that file.
    pub fn allows(&self, file: u16, flags: Flags) -> bool
        ensures { result ≡ allows_on_file self.now file flags }
    {
        for (_, record) in self.records.iter() {
            if record.file == file && !compatible(flags, record.flags) {
                return false;
            }
        }
        true
    }

    /// Whether any handle is open on that file.
    pub fn any(&self, file: u16) -> bool
        ensures { result ≡ is_file_open self.now file }
    {
        for (_, record) in self.records.iter() {
            if record.file == file {
                return true;
            }
        }
        false
    }
}

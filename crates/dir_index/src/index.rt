//! The index of a directory.

ghost use Rattle.std.specs.Prelude.{◌≡◌};
ghost use Rattle.dir_index.specs.Search.{precedes};

use std::alloc::Global;
use std::cmp::Ordering;
use std::marker::Model;
use store_model::ObjectName;
use tee_types::{AppId, NoMemory, ObjectId};

/// The names of a directory's objects, each with the index of its record. A contract sees the entries in the order of the
/// names, and how many more may be added without memory.
#[derive(Drop)]
pub struct DirIndex {
    entries: Vec<(ObjectName, u16)>,
}

impl Model for DirIndex {
    ghost use Rattle.std.specs.Prelude.{◌-◌, vec_len, vec_capacity};
    ghost use Rattle.std.specs.List.Sorted.{IsStrictlySortedBy};
    ghost use Rattle.std.specs.Map.{keys_of};
    ghost use Rattle.store_model.specs.Name.{name_cmp};
    ghost use Rattle.dir_index.specs.Index.{IndexState};

    ghost Value = { IndexState };

    ghost view = { λ a. record { entries = a.entries.items; spare = vec_capacity a.entries - vec_len a.entries } };

    ghost invariant = { λ a. IsStrictlySortedBy name_cmp (keys_of a.entries.items) };
}

impl DirIndex {
    ghost use Rattle.std.specs.Prelude.{◌≡◌, ◌≤◌, ◌+◌, [], length, None, IsSome, IsOk, OnOk, IfOk, IfErr, IfSome, IfNone, true};
    ghost use Rattle.dir_index.specs.Index.{named, index_at, with_index, without_name, moved_name, IsOrdered};
    ghost use Rattle.dir_index.specs.Above.{next_above, is_above, IsLeastAbove};
    ghost use Rattle.dir_index.specs.Search.{IsAt, IsGapFor, IsBoundary};

    /// An index of no names. It takes no memory.
    pub fn new(alloc: Global) -> DirIndex
        ensures { result ≡ record { entries = []; spare = 0 } }
    {
        DirIndex {
            entries: Vec::new(alloc),
        }
    }

    /// Makes room for so many names more, which takes memory only where there is none. The names stay as they are, and room
    /// that was there stays, also where there is no memory.
    pub fn reserve(&mut self, count: usize) -> Result<(), NoMemory>
        ensures room { OnOk result (count ≤ self.new.spare) }
        ensures succeeds { count ≤ self.old.spare → IsOk result }
        ensures entries { self.new.entries ≡ self.old.entries }
        ensures spare { self.old.spare ≤ self.new.spare }
    {
        self.entries.reserve(count)
    }

    /// How many names there are.
    pub fn len(&self) -> usize
        ensures value { result ≡ length self.now.entries }
        ensures ordered { IsOrdered self.now }
    {
        self.entries.len()
    }

    /// The names with their indices, in order.
    pub fn entries(&self) -> &[(ObjectName, u16)]
        ensures value { result.now ≡ self.now.entries }
        ensures ordered { IsOrdered self.now }
    {
        self.entries.as_slice()
    }

    /// The index that is held under a name, where the name is held.
    pub fn find(&self, app: AppId, id: ObjectId) -> Option<u16>
        ensures { result ≡ index_at self.now (named app id) }
    {
        match self.search(&ObjectName { app, id }) {
            Ok(place) => Some(self.entries[place].1),
            Err(_) => None,
        }
    }

    /// Adds a name with its index. It takes no memory.
    pub fn insert(&mut self, app: AppId, id: ObjectId, index: u16)
        requires room { 1 ≤ self.old.spare }
        requires fresh { index_at self.old (named app id) ≡ None }
        ensures entries { self.new.entries ≡ with_index self.old.entries (named app id) index }
        ensures spare { self.new.spare + 1 ≡ self.old.spare }
    {
        let name = ObjectName { app, id };
        if let Err(place) = self.search(&name) {
            self.entries.insert(place, (name, index)).unwrap();
        }
    }

    /// Takes a name out, where it is held, and leaves room for one more name in its place.
    pub fn remove(&mut self, app: AppId, id: ObjectId)
        ensures entries { self.new.entries ≡ without_name self.old.entries (named app id) }
        ensures held { IsSome (index_at self.old (named app id)) → self.new.spare ≡ self.old.spare + 1 }
        ensures absent { index_at self.old (named app id) ≡ None → self.new ≡ self.old }
    {
        if let Ok(place) = self.search(&ObjectName { app, id }) {
            self.entries.remove(place);
        }
    }

    /// Moves the index of one name to another name of its application, where the first is held. It takes no memory.
    pub fn rename(&mut self, app: AppId, from: ObjectId, to: ObjectId)
        requires { index_at self.old (named app to) ≡ None }
        ensures entries { self.new.entries ≡ moved_name self.old.entries (named app from) (named app to) }
        ensures spare { self.new.spare ≡ self.old.spare }
    {
        if let Some(index) = self.find(app, from) {
            self.remove(app, from);
            self.insert(app, to, index);
        }
    }

    /// The least name of an application, or the least above an identifier where one is given: its identifier, with its index.
    pub fn next_above(&self, app: AppId, after: Option<ObjectId>) -> Option<(ObjectId, u16)>
        ensures value { result ≡ next_above self.now.entries app after }
        ensures least { IfSome result (λ found. IsLeastAbove self.now app after found.0 found.1) }
        ensures none { IfNone result ((name : _) → is_above app after name ≡ true → index_at self.now name ≡ None) }
        ensures ordered { IsOrdered self.now }
    {
        let place = self.first_above(app, after);
        let (name, index) = self.entries.get(place)?;
        if app == name.app {
            Some((name.id, *index))
        } else {
            None
        }
    }

    // Where the name is, or where it would go.
    fn search(&self, name: &ObjectName) -> Result<usize, usize>
        ensures found { IfOk result (IsAt self.now.entries name.now) }
        ensures absent { IfErr result (IsGapFor self.now.entries name.now) }
    {
        self.entries.binary_search_by(|entry| entry.0.cmp(name))
    }

    // How many names lie before those of the application that are above the identifier.
    fn first_above(&self, app: AppId, after: Option<ObjectId>) -> usize
        ensures { IsBoundary self.now.entries app after result }
    {
        self.entries
            .partition_point(|entry| precedes(&entry.0, app, after))
    }
}

// Whether a name lies before those of the application that are above the identifier.
fn precedes(name: &ObjectName, app: AppId, after: Option<ObjectId>) -> bool
    ensures { result ≡ precedes app after name.now }
{
    match (name.app.cmp(&app), after) {
        (Ordering::Less, _) => true,
        (Ordering::Equal, Some(id)) => name.id <= id,
        _ => false,
    }
}

//! The gate of a mounted store, and its commits.

ghost use Rattle.std.specs.Prelude.{◌≡◌, ◌≤◌, ◌<◌, ◌+◌, ◌^◌, ◌↔◌, get_or, None, Some, IsTrue};
ghost use Rattle.std.specs.Option.{option_map};
ghost use Rattle.rpmb_card.specs.Protocol.{last_counter};
ghost use Rattle.open_table.specs.Table.{allows_on_file, is_file_open};
ghost use Rattle.crash_core.specs.EntryChanges.{file_put, index_of};
ghost use Rattle.store_commit.specs.Changes.{FitsIn};
ghost use Rattle.store_commit.specs.Ends.{Leaves, Throughout};
ghost use Rattle.store_commit.specs.Steps.{Steps};
ghost use Rattle.store_commit.specs.Causes.{DoubtIsByCard, EndCause, EndIsDrawn, EndNotDrawn, EndNotOfCard, KeepsPortArms, StaysCalm, counts};
ghost use Rattle.store_commit.specs.Counts.{EndCounts};
ghost use Rattle.store_commit.specs.Heard.{EndHeard};
ghost use Rattle.store_commit.specs.Gates.{DoubtStands, LeavesHolds, doubt_left, file_in_doubt, gate_sides};
ghost use Rattle.store_commit.specs.Holds.{AreHolds, IsTaken};
ghost use Rattle.store_commit.specs.EntryMoves.{IsEntryMove};
ghost use Rattle.store_commit.specs.declared.change.CommitEnd.TheVariants.{Spent};
ghost use Rattle.crash_core.specs.declared.change.EntryChange.TheVariants.{Put};

use crate::change::CommitEnd;
use crate::commit::commit_parts;
use crate::holds::end_hold;
use crate::names::change_names;
use crash_core::{DoubtedChange, EntryChange};
use dir_file::DirFile;
use dir_index::DirIndex;
use dir_records::DirEntry;
use open_table::OpenTable;
use rpmb_card::RpmbPort;
use rpmb_host::Host;
use std::marker::Model;
use tee_ports::{Entropy, StoreFile};
use tee_types::{Flags, MAX_SESSIONS};

/// The gate of a mounted store: its directory and its card, the index of names, the open handles of all sessions, and the files
/// that sessions hold.
///
/// Either no commit is in doubt, and the card names the committed directory. Or one is: then the directory's stage stays open, and the
/// card names the committed directory or the stage.
#[derive(Drop)]
pub struct Gate<F: StoreFile + Drop, R: RpmbPort + Drop> {
    pub(crate) dir: DirFile<F>,
    pub(crate) host: Host<R>,
    pub(crate) counter: u32,
    pub(crate) doubt: Option<DoubtedChange>,
    pub(crate) index: DirIndex,
    pub(crate) handles: OpenTable,
    pub(crate) holds: [Option<u16>; MAX_SESSIONS],
}

impl<F: StoreFile + Drop, R: RpmbPort + Drop> Model for Gate<F, R> {
    ghost use Rattle.store_commit.specs.Gates.{GateValue, IsGate, room_left};
    ghost use Rattle.store_commit.specs.Sides.{sides};

    ghost Value = { GateValue F R };

    ghost view = { λ g. record {
      dir = g.dir;
      host = g.host;
      counter = g.counter;
      doubt = g.doubt;
      open_handles = g.handles;
      room = room_left g.index g.doubt;
      holds = g.holds;
    } };

    ghost invariant = { λ g. IsGate (sides (F.state g.dir.file) g.dir.dir (R.state g.host.port) g.host.key g.counter) g.doubt g.index g.holds };
}

// The entry of that index.
pub(crate) fn entry_of<F: StoreFile>(dir: &DirFile<F>, index: u16) -> Option<DirEntry>
    ensures { result ≡ get_or dir.now.dir.entries index None }
{
    match dir.entry(index) {
        Some(entry) => Some(*entry),
        None => None,
    }
}

// The index of the entry that a change changes.
pub(crate) fn index_of(change: &EntryChange) -> u16
    ensures { result ≡ index_of change.now }
{
    match change {
        EntryChange::Put { index, .. } => *index,
        EntryChange::Clear { index } => *index,
    }
}

impl<F: StoreFile + Drop, R: RpmbPort + Drop> Gate<F, R> {
    /// The committed entry of that index.
    pub fn entry(&self, index: u16) -> Option<DirEntry>
        ensures { result ≡ get_or self.now.dir.dir.entries index None }
    {
        entry_of(&self.dir, index)
    }

    /// The card's counter, without the commit in doubt where one is.
    pub fn counter(&self) -> u32
        ensures { result ≡ self.now.counter }
    {
        self.counter
    }

    /// The number of the commit in doubt, if one is.
    pub fn doubt(&self) -> Option<u32>
        ensures { result ≡ option_map (λ d. d.number) self.now.doubt }
    {
        match self.doubt {
            Some(doubted) => Some(doubted.number),
            None => None,
        }
    }

    /// Tells a caller's proof what always holds of a gate; at run time it does nothing. Its directory and its card stand to each other,
    /// each hold is on a file that no entry names, and the file that the commit in doubt puts is an entry's, or held. The counter is of
    /// 32 bits.
    pub fn reveal_invariant(&self)
        ensures stands { DoubtStands (gate_sides F.state R.state self.now) self.now.doubt }
        ensures held { AreHolds self.now.dir.dir.entries self.now.holds }
        ensures taken { IsTaken self.now.dir.dir.entries self.now.holds (file_in_doubt self.now.doubt) }
        ensures counter { self.now.counter < 2 ^ 32 }
    {
        // The invariant is at hand where a field is named, and a number that is given back is of 32 bits.
        let _ = &self.counter;
        let _counter = self.counter();
    }

    /// Whether a new handle with these flags may be opened beside every open handle on that file.
    pub fn allows(&self, file: u16, flags: Flags) -> bool
        ensures { result ≡ allows_on_file self.now.open_handles file flags }
    {
        self.handles.allows(file, flags)
    }

    /// Whether any handle is open on that file.
    pub fn any_open(&self, file: u16) -> bool
        ensures { result ≡ is_file_open self.now.open_handles file }
    {
        self.handles.any(file)
    }

    /// Commits one change of the directory, as `commit_parts` does. It takes no memory. A file that the change puts is that of an entry, or
    /// one that a session holds.
    ///
    /// At `Made` the index of names follows, and the file that the change puts is no longer held by a session. At `Doubtful` the commit is
    /// in doubt until `resolve` answers, and a file that was held stays held until then.
    pub fn commit<E: Entropy>(&mut self, change: EntryChange, entropy: &mut E) -> CommitEnd
        requires idle { self.old.doubt ≡ None }
        requires format { self.old.dir.dir.root.format ≡ 2 }
        requires fits { FitsIn self.old.dir.dir.entries change }
        requires taken { IsTaken self.old.dir.dir.entries self.old.holds (file_put change) }
        requires room { 1 ≤ self.old.room }
        ensures leaves { Leaves (gate_sides F.state R.state self.old) (gate_sides F.state R.state self.new) change result }
        ensures doubt { self.new.doubt ≡ doubt_left change result }
        ensures holds { LeavesHolds change result self.old.holds self.new.holds }
        ensures open_handles { self.new.open_handles ≡ self.old.open_handles }
        ensures room { self.old.room ≤ self.new.room + 1 }
        ensures throughout { Throughout (gate_sides F.state R.state self.old) (gate_sides F.state R.state self.new) }
        ensures steps { Steps (gate_sides F.state R.state self.old) (gate_sides F.state R.state self.new) change result }
        ensures spent { (result ≡ Spent) ↔ (self.old.counter ≡ last_counter) }
        ensures reliable { E.is_reliable entropy.old → E.is_reliable entropy.new }
        ensures drawn { E.is_reliable entropy.old → EndNotDrawn result }
        ensures untouched { EndIsDrawn result → (self.new.dir ≡ self.old.dir) × (self.new.host ≡ self.old.host) }
        ensures calm { IsTrue (R.state self.old.host.port).calm
            → StaysCalm (R.state self.old.host.port) (R.state self.new.host.port) × EndNotOfCard result }
        ensures heard { EndHeard self.old.host.key self.old.counter (R.state self.new.host.port) result }
        ensures counts { EndCounts
            (counts (F.state self.old.dir.file) (R.state self.old.host.port) (E.faults entropy.old))
            (counts (F.state self.new.dir.file) (R.state self.new.host.port) (E.faults entropy.new)) result }
        ensures cause { EndCause self.old.host.key self.old.counter
            (counts (F.state self.old.dir.file) (R.state self.old.host.port) (E.faults entropy.old))
            (counts (F.state self.new.dir.file) (R.state self.new.host.port) (E.faults entropy.new)) result }
        ensures doubtful { DoubtIsByCard result }
        ensures arms { KeepsPortArms (R.state self.old.host.port) (R.state self.new.host.port) }
    {
        let before = entry_of(&self.dir, index_of(&change));
        let end = commit_parts(
            &mut self.dir,
            &mut self.host,
            &mut self.counter,
            &change,
            entropy,
        );
        match end {
            CommitEnd::Made(number) => {
                change_names(&mut self.index, &before, &change);
                end_hold(&mut self.holds, &change);
                CommitEnd::Made(number)
            }
            CommitEnd::Doubtful(number, cause) => {
                self.doubt = Some(DoubtedChange { number, change });
                CommitEnd::Doubtful(number, cause)
            }
            CommitEnd::Dropped(cause) => CommitEnd::Dropped(cause),
            CommitEnd::Spent => CommitEnd::Spent,
        }
    }

    /// Commits that the object of an entry stands in another file, of the current format, which a session holds. It is a commit of that one
    /// entry, by no session: nothing is added to a history. It takes no memory.
    ///
    /// At `Made` the file is no longer held. At `Doubtful` the move is in doubt, and the file stays held.
    pub fn move_entry<E: Entropy>(
        &mut self,
        index: u16,
        entry: DirEntry,
        entropy: &mut E,
    ) -> CommitEnd
        requires idle { self.old.doubt ≡ None }
        requires format { self.old.dir.dir.root.format ≡ 2 }
        requires fits { FitsIn self.old.dir.dir.entries (Put index entry) }
        requires moves { IsEntryMove self.old.dir.dir.entries index entry }
        requires taken { IsTaken self.old.dir.dir.entries self.old.holds (Some entry.file) }
        requires room { 1 ≤ self.old.room }
        ensures leaves { Leaves (gate_sides F.state R.state self.old) (gate_sides F.state R.state self.new) (Put index entry) result }
        ensures doubt { self.new.doubt ≡ doubt_left (Put index entry) result }
        ensures holds { LeavesHolds (Put index entry) result self.old.holds self.new.holds }
        ensures open_handles { self.new.open_handles ≡ self.old.open_handles }
        ensures throughout { Throughout (gate_sides F.state R.state self.old) (gate_sides F.state R.state self.new) }
        ensures steps { Steps (gate_sides F.state R.state self.old) (gate_sides F.state R.state self.new) (Put index entry) result }
        ensures spent { (result ≡ Spent) ↔ (self.old.counter ≡ last_counter) }
        ensures reliable { E.is_reliable entropy.old → E.is_reliable entropy.new }
        ensures drawn { E.is_reliable entropy.old → EndNotDrawn result }
        ensures untouched { EndIsDrawn result → (self.new.dir ≡ self.old.dir) × (self.new.host ≡ self.old.host) }
        ensures calm { IsTrue (R.state self.old.host.port).calm
            → StaysCalm (R.state self.old.host.port) (R.state self.new.host.port) × EndNotOfCard result }
        ensures heard { EndHeard self.old.host.key self.old.counter (R.state self.new.host.port) result }
        ensures counts { EndCounts
            (counts (F.state self.old.dir.file) (R.state self.old.host.port) (E.faults entropy.old))
            (counts (F.state self.new.dir.file) (R.state self.new.host.port) (E.faults entropy.new)) result }
        ensures cause { EndCause self.old.host.key self.old.counter
            (counts (F.state self.old.dir.file) (R.state self.old.host.port) (E.faults entropy.old))
            (counts (F.state self.new.dir.file) (R.state self.new.host.port) (E.faults entropy.new)) result }
        ensures doubtful { DoubtIsByCard result }
        ensures arms { KeepsPortArms (R.state self.old.host.port) (R.state self.new.host.port) }
    {
        self.commit(EntryChange::Put { index, entry }, entropy)
    }

    /// Gives back the directory's file and the port to the card.
    pub fn close(self) -> (F, R)
        ensures gives { result ≡ (self.dir.file, self.host.port) }
        ensures stands { DoubtStands (gate_sides F.state R.state self) self.doubt }
    {
        let Gate {
            dir,
            host,
            counter: _,
            doubt: _,
            index: _,
            handles: _,
            holds: _,
        } = self;
        (dir.into_file(), host.into_port())
    }
}

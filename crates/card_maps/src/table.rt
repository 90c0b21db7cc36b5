//! A table of the live entries of a card.

ghost use Rattle.std.specs.Prelude.{◌≡◌, ℕ, ◌<◌, ◌+◌, ◌≤◌, ◌==◌, ◌||◌, ◌++◌, [], ◌∷◌, if◌then◌else◌, cond, false, true, length, nat_lt, slice_index_or, slice_set, is_some, Some, None, IfOk, IfErr, IfSome, IfNone, OnOk, position};
ghost use Rattle.std.specs.List.{list_any};
ghost use Rattle.card_maps.specs.Form.{is_live};
ghost use Rattle.card_maps.specs.CardMaps.{has_number};
ghost use Rattle.card_maps.specs.Puts.{map_block};
ghost use Rattle.card_maps.specs.Names.{IsListing};
ghost use Rattle.card_maps.specs.Tables.{IsChangedTable, entry_at, entry_fault_in, has_name, is_at, is_used_at, live_changed, live_of, named, names_in, old_of, unused, used_without, uses, without};

use crate::form::{entry_fault, is_live, is_named, map_block};
use crate::{CardEntry, CardName, TableChange};
use arrayvec::ArrayVec;
use std::alloc::Global;
use std::marker::Model;
use tee_types::{AppId, NoMemory, ObjectId};

/// For each of the 256 blocks of a card the entry that it is, where it is a live one; and which blocks are used.
#[derive(Drop)]
pub struct CardTable {
    entries: Vec<Option<CardEntry>>,
    used: [bool; 256],
}

impl Model for CardTable {
    ghost use Rattle.std.specs.Prelude.{◌≡◌, vec_len};
    ghost use Rattle.card_maps.specs.TableStates.{TableState};

    ghost Value = { TableState };

    ghost view = { λ t. record { entries = t.entries.items; used = t.used } };

    ghost invariant = { λ t. vec_len t.entries ≡ 256 };
}

impl CardTable {
    /// A table of no entries.
    pub fn new(alloc: Global) -> Result<CardTable, NoMemory>
        ensures long { IfOk result (λ t. length t.entries ≡ 256) }
        ensures entries { IfOk result (λ t. (b : ℕ) → entry_at t b ≡ None) }
        ensures used { IfOk result (λ t. (d : ℕ) → d < 256 → is_used_at t d ≡ nat_lt d 2) }
    {
        let entries = vec![in alloc; None; 256]?;
        let mut used = [false; 256];
        use_first(&mut used);
        Ok(CardTable { entries, used })
    }

    /// Uses each block that is a live entry by the map block.
    pub fn use_live(&mut self, map: &[u8; 256])
        ensures entries { self.new.entries ≡ self.old.entries }
        ensures used { (d : ℕ) → d < 256 → is_used_at self.new d ≡ (is_used_at self.old d || is_live map.now d) }
    {
        use_live(&mut self.used, map);
    }

    /// Puts an entry in, and uses the blocks that it names; or tells the first byte of it that is outside the form, beside the
    /// entries of the table.
    pub fn add(&mut self, b: u8, block: &[u8; 256]) -> Result<(), u8>
        ensures bytes { (k : ℕ) → slice_index_or block.now k 0 < 256 }
        ensures fault { IfErr result (λ at. entry_fault_in self.old.entries (is_used_at self.old) block.now ≡ Some at) }
        ensures fits { OnOk result (entry_fault_in self.old.entries (is_used_at self.old) block.now ≡ None) }
        ensures entries { OnOk result (self.new.entries ≡ slice_set self.old.entries b (Some block.now)) }
        ensures used { OnOk result ((d : ℕ) → d < 256 → is_used_at self.new d ≡ (is_used_at self.old d || has_number block.now d)) }
    {
        if let Some(at) = entry_fault(&self.entries, &mut self.used, block) {
            return Err(at);
        }
        self.entries[usize::from(b)] = Some(CardEntry::of_block(block));
        Ok(())
    }

    /// The block of the entry of that name, if there is one: the least.
    pub fn find(&self, app: AppId, id: ObjectId) -> Option<u8>
        ensures { result ≡ position (has_name (named app id)) self.now.entries }
    {
        match place_of(&self.entries, &app.bytes(), id.bytes()) {
            Some(place) => Some(place as u8),
            None => None,
        }
    }

    /// The entry of that block, if it is one.
    pub fn entry(&self, b: u8) -> Option<CardEntry>
        ensures { result ≡ entry_at self.now b }
    {
        self.entries[usize::from(b)]
    }

    /// The numbers of the blocks that are not used, the least first.
    pub fn unused(&self) -> ArrayVec<u8, 256>
        ensures { result.items ≡ unused self.now.used }
    {
        let mut numbers = ArrayVec::new();
        for d in 0..256usize {
            push_unused(&mut numbers, &self.used, d);
        }
        numbers
    }

    /// The map block after a change.
    pub fn map_after(&self, change: &TableChange) -> [u8; 256]
        ensures { result ≡ map_block (live_changed (live_of self.now) change.now) }
    {
        map_block(&live_flags(&self.entries, change))
    }

    /// Makes a change. It takes no memory.
    pub fn change(&mut self, change: &TableChange)
        ensures { IsChangedTable self.old change.now self.new }
    {
        match *change {
            TableChange::Put { at, entry, old } => {
                if let Some(old) = old {
                    self.take_out(old);
                }
                mark(&mut self.used, at, &entry, true);
                self.entries[usize::from(at)] = Some(entry);
            }
            TableChange::Remove { at } => self.take_out(at),
        }
    }

    // Takes an entry out, where the block is one.
    fn take_out(&mut self, b: u8)
        ensures entries { self.new.entries ≡ without self.old.entries (Some b) }
        ensures used { (d : ℕ) → d < 256 → is_used_at self.new d ≡ used_without self.old (Some b) d }
    {
        if let Some(entry) = self.entries[usize::from(b)] {
            mark(&mut self.used, b, &entry, false);
            self.entries[usize::from(b)] = None;
        }
    }

    /// The names of the entries, in the order of applications and identifiers.
    pub fn names(&self, alloc: Global) -> Result<Vec<CardName>, NoMemory>
        ensures { IfOk result (λ names. IsListing (names_in self.now.entries) names.items) }
    {
        let mut names = Vec::new(alloc);
        for entry in &self.entries {
            push_name(&mut names, entry)?;
        }
        names.sort()?;
        Ok(names)
    }
}

// Uses the blocks 0 and 1.
fn use_first(used: &mut [bool; 256])
    ensures { (d : ℕ) → d < 256 → slice_index_or used.new d true ≡ (nat_lt d 2 || slice_index_or used.old d true) }
{
    used[0] = true;
    used[1] = true;
}

// Uses each block that is a live entry by the map block.
fn use_live(used: &mut [bool; 256], map: &[u8; 256])
    ensures { (d : ℕ) → d < 256 → slice_index_or used.new d true ≡ (slice_index_or used.old d true || is_live map.now d) }
{
    for b in 0..256usize {
        if is_live(map, b as u8) {
            used[b] = true;
        }
    }
}

// Marks blocks as used, or as not used.
fn mark_numbers(used: &mut [bool; 256], numbers: &[u8], is_used: bool)
    ensures { (d : ℕ) → d < 256 → slice_index_or used.new d true ≡ cond (list_any (λ n. n == d) numbers.now) is_used (slice_index_or used.old d true) }
{
    for number in numbers {
        used[usize::from(*number)] = is_used;
    }
}

// Marks an entry's block, and those that it names.
fn mark(used: &mut [bool; 256], b: u8, entry: &CardEntry, is_used: bool)
    ensures { (d : ℕ) → d < 256 → slice_index_or used.new d true ≡ cond (uses entry.now b d) is_used (slice_index_or used.old d true) }
{
    mark_numbers(used, entry.numbers(), is_used);
    used[usize::from(b)] = is_used;
}

// An entry has that name.
fn is_entry(entry: &Option<CardEntry>, app: &[u8], id: &[u8]) -> bool
    ensures { result ≡ has_name (named app.now id.now) entry.now }
{
    match entry {
        Some(entry) => is_named(&entry.block(), app, id),
        None => false,
    }
}

// The place of the first entry of that name.
fn place_of(entries: &[Option<CardEntry>], app: &[u8], id: &[u8]) -> Option<usize>
    ensures value { result ≡ position (has_name (named app.now id.now)) entries.now }
    ensures within { IfSome result (λ b. b < length entries.now) }
{
    entries.iter().position(|entry| is_entry(entry, app, id))
}

// The change takes that entry out.
fn is_old(change: &TableChange, b: usize) -> bool
    ensures { result ≡ is_at (old_of change.now) b }
{
    match change {
        TableChange::Put { old: Some(old), .. } => usize::from(*old) == b,
        TableChange::Put { old: None, .. } => false,
        TableChange::Remove { at } => usize::from(*at) == b,
    }
}

// A block is a live entry after a change.
fn is_live_after(entries: &[Option<CardEntry>], change: &TableChange, b: usize) -> bool
    requires { b < length entries.now }
    ensures { result ≡ live_changed (λ c. is_some (slice_index_or entries.now c None)) change.now b }
{
    let stays = entries[b].is_some() && !is_old(change, b);
    match change {
        TableChange::Put { at, .. } => usize::from(*at) == b || stays,
        TableChange::Remove { .. } => stays,
    }
}

// Which blocks are live entries after a change.
fn live_flags(entries: &[Option<CardEntry>], change: &TableChange) -> [bool; 256]
    requires { length entries.now ≡ 256 }
    ensures { (c : ℕ) → c < 256 → slice_index_or result c false ≡ live_changed (λ k. is_some (slice_index_or entries.now k None)) change.now c }
{
    let mut live = [false; 256];
    for b in 0..256usize {
        live[b] = is_live_after(entries, change, b);
    }
    live
}

// One number more, where the block is not used.
fn push_unused(numbers: &mut ArrayVec<u8, 256>, used: &[bool; 256], d: usize)
    requires low { d < 256 }
    requires room { length numbers.old.items ≤ d }
    ensures items { numbers.new.items ≡ (if slice_index_or used.now d true then numbers.old.items else numbers.old.items ++ d ∷ []) }
    ensures count { length numbers.new.items ≤ d + 1 }
{
    if !used[d] {
        numbers.push(d as u8);
    }
}

// The name of one entry more.
fn push_name(names: &mut Vec<CardName>, entry: &Option<CardEntry>) -> Result<(), NoMemory>
    ensures { OnOk result (names.new.items ≡ names.old.items ++ names_in (entry.now ∷ [])) }
{
    if let Some(entry) = entry {
        names.push(entry.name())?;
    }
    Ok(())
}

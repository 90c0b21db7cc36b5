//! The enumerators of a session.

ghost use Rattle.std.specs.Prelude.{None};
ghost use Rattle.enumerators.specs.Places.{IsPlaceOf};

use crate::{Cursor, EnumFault, place_of};
use std::alloc::Global;
use std::marker::Model;
use tee_types::{MAX_ENUMERATORS, ObjectId};

/// The enumerators of a session. They are numbered 0, 1, 2 and so on in the order in which they are given, and a
/// number is never given again. A contract sees the live ones by number, and the number of the next one.
#[derive(Drop)]
pub struct Enumerators {
    live: Vec<(u32, Cursor)>,
    next: u32,
}

impl Model for Enumerators {
    ghost use Rattle.enumerators.specs.Enumeration.{EnumeratorTable};
    ghost use Rattle.enumerators.specs.Places.{IsNumbered};

    ghost Value = { EnumeratorTable };

    ghost view = { λ a. record { live = a.live.items; next = a.next } };

    ghost invariant = { λ a. IsNumbered 0 a.live.items a.next };
}

impl Enumerators {
    ghost use Rattle.std.specs.Prelude.{◌≡◌, ◌↔◌, [], IsTrue, IsOk, IsErr, IfOk, IfErr, OnOk, OnErr, if◌then◌else◌};
    ghost use Rattle.enumerators.specs.Enumeration.{no_enumerators, has_all, allocated, IsLive, IsStarted, cursor_at, cursor_of, started, reset, freed, advanced, with_cursor};

    /// No enumerators. It takes no memory.
    pub fn new(alloc: Global) -> Enumerators
        ensures { result ≡ no_enumerators }
    {
        Enumerators {
            live: Vec::new(alloc),
            next: 0,
        }
    }

    /// Whether no further enumerator may be given: 64 are live, or all 4,294,967,295 numbers were given.
    pub fn is_full(&self) -> bool
        ensures { result ≡ has_all self.now }
    {
        MAX_ENUMERATORS <= self.live.len() || u32::MAX <= self.next
    }

    /// Gives an enumerator that is not started, and tells its number: TEE_AllocatePersistentObjectEnumerator.
    /// `TooMany` comes exactly where 64 are live or all 4,294,967,295 numbers were given. After `NoMemory` all is as it was.
    pub fn add(&mut self) -> Result<u32, EnumFault>
        ensures number { IfOk result (λ number. number ≡ self.old.next) }
        ensures ok { OnOk result (self.new ≡ allocated self.old) }
        ensures fresh { IfOk result (λ number. cursor_at self.old number ≡ None) }
        ensures full { IsTrue (has_all self.old) → IsErr result }
        ensures fault { IfErr result (λ fault. fault ≡ (if has_all self.old then EnumFault.TooMany else EnumFault.NoMemory)) }
        ensures err { OnErr result (self.new ≡ self.old) }
    {
        if self.is_full() {
            return Err(EnumFault::TooMany);
        }
        let number = self.next;
        self.live.push((number, Cursor::Idle))?;
        self.next += 1;
        Ok(number)
    }

    /// Starts an enumerator anew, whether it was started or not: TEE_StartPersistentObjectEnumerator.
    /// `BadEnumerator` comes exactly where no live one has that number. It takes no memory.
    pub fn start(&mut self, number: u32) -> Result<(), EnumFault>
        ensures live { IsOk result ↔ IsLive self.old number }
        ensures ok { OnOk result (self.new ≡ started self.old number) }
        ensures fault { IfErr result (λ fault. fault ≡ EnumFault.BadEnumerator) }
        ensures err { OnErr result (self.new ≡ self.old) }
    {
        self.set(number, Cursor::First)
    }

    /// Sets an enumerator back to not started: TEE_ResetPersistentObjectEnumerator.
    /// `BadEnumerator` comes exactly where no live one has that number. It takes no memory.
    pub fn reset(&mut self, number: u32) -> Result<(), EnumFault>
        ensures live { IsOk result ↔ IsLive self.old number }
        ensures ok { OnOk result (self.new ≡ reset self.old number) }
        ensures fault { IfErr result (λ fault. fault ≡ EnumFault.BadEnumerator) }
        ensures err { OnErr result (self.new ≡ self.old) }
    {
        self.set(number, Cursor::Idle)
    }

    /// Takes an enumerator away: TEE_FreePersistentObjectEnumerator.
    /// `BadEnumerator` comes exactly where no live one has that number. It takes no memory.
    pub fn free(&mut self, number: u32) -> Result<(), EnumFault>
        ensures live { IsOk result ↔ IsLive self.old number }
        ensures ok { OnOk result (self.new ≡ freed self.old number) }
        ensures gone { OnOk result (cursor_at self.new number ≡ None) }
        ensures fault { IfErr result (λ fault. fault ≡ EnumFault.BadEnumerator) }
        ensures err { OnErr result (self.new ≡ self.old) }
    {
        let place = self.place(number)?;
        self.live.remove(place);
        Ok(())
    }

    /// How far an enumerator has come, from which TEE_GetNextPersistentObject goes on.
    /// `BadEnumerator` comes exactly where no live one has that number.
    pub fn cursor(&self, number: u32) -> Result<Cursor, EnumFault>
        ensures { result ≡ cursor_of self.now number }
    {
        let place = self.place(number)?;
        Ok(self.live[place].1)
    }

    /// Notes that a started enumerator gave this identifier: TEE_GetNextPersistentObject. It takes no memory.
    pub fn given(&mut self, number: u32, id: ObjectId)
        requires { IsStarted self.old number }
        ensures { self.new ≡ advanced self.old number id }
    {
        self.set(number, Cursor::After(id)).unwrap();
    }

    fn set(&mut self, number: u32, cursor: Cursor) -> Result<(), EnumFault>
        ensures live { IsOk result ↔ IsLive self.old number }
        ensures ok { OnOk result (self.new ≡ with_cursor self.old number cursor) }
        ensures fault { IfErr result (λ fault. fault ≡ EnumFault.BadEnumerator) }
        ensures err { OnErr result (self.new ≡ self.old) }
    {
        let place = self.place(number)?;
        self.live[place] = (number, cursor);
        Ok(())
    }

    // The place of the live enumerator of that number.
    fn place(&self, number: u32) -> Result<usize, EnumFault>
        ensures live { IsOk result ↔ IsLive self.now number }
        ensures found { IfOk result (IsPlaceOf number self.now.live) }
        ensures none { OnErr result (cursor_at self.now number ≡ None) }
        ensures fault { IfErr result (λ fault. fault ≡ EnumFault.BadEnumerator) }
    {
        match place_of(self.live.as_slice(), number) {
            Some(place) => Ok(place),
            None => Err(EnumFault::BadEnumerator),
        }
    }
}

//! A store that threads serve beside each other.

ghost use Rattle.std.specs.Prelude.{◌≡◌, ◌≤◌, length, vec_len, IfOk, IfSome};
ghost use Rattle.hmac_keys.specs.KeyTable.{ssk};
ghost use Rattle.tee_types.specs.Limits.{last_file};
ghost use Rattle.shared_calls.specs.CallerSessions.{IsCallerOf};
ghost use Rattle.shared_calls.specs.SharedCounts.{CarriesDraws};
ghost use Rattle.shared_calls.specs.Attempts.{EndsCall, EndsAttempt};
ghost use Rattle.shared_calls.specs.Devices.{DrawsOn};

use hmac_keys::SecretKey;
use rpmb_card::RpmbPort;
use shared_calls::{
    DevicesName, PlacedReply, Session, SharedGate, SharedSlot, StoreName, Validation, attempt,
    attempt_at_once, file_of, spin_then_lock,
};
use std::alloc::Global;
use std::sync::{Mutex, MutexGuard, Wait};
use tee_ports::{Entropy, StoreFile};
use tee_types::{Call, NoMemory};

/// The store that `L` names, as threads share it: the gate, and the slot of each object's file, each behind a lock of its own.
#[derive(Drop)]
pub struct SharedStore<F: StoreFile + Drop, R: RpmbPort + Drop, L: StoreName + DevicesName> {
    gate: Mutex<SharedGate<F, R, L>>,
    // File 1 first.
    slots: Vec<Mutex<SharedSlot<F, L>>>,
    storage_key: SecretKey,
    ghost keyed: { storage_key ≡ ssk L.store.keys.huk L.store.keys.chip },
    ghost few: { length L.store.mounted.applications ≤ 16 },
    ghost many: { vec_len slots ≡ last_file },
}

// The handle by which a call tells of its object without changing it.
fn told_handle(call: &Call) -> Option<u32> {
    match call {
        Call::Read { handle, .. } | Call::Info { handle } => Some(*handle),
        _ => None,
    }
}

// The file in which the session found the object of such a call before.
fn hinted_file<E: Entropy>(session: &Session<E>, call: &Call) -> Option<u16> {
    session.hint(told_handle(call)?)
}

// Notes the file of such a call's object.
fn note_file<E: Entropy>(session: &mut Session<E>, call: &Call, file: u16)
    ensures { session.new ≡ session.old }
{
    if let Some(handle) = told_handle(call) {
        session.note_file(handle, file);
    }
}

impl<F: StoreFile + Drop, R: RpmbPort + Drop, L: StoreName + DevicesName> SharedStore<F, R, L> {
    /// A store of this gate and of these 272 slots, that of file 1 first. `storage_key` is the key that the applications' keys come from.
    pub fn new(
        gate: SharedGate<F, R, L>,
        slots: Vec<Mutex<SharedSlot<F, L>>>,
        storage_key: SecretKey,
    ) -> SharedStore<F, R, L>
        requires keyed { storage_key ≡ ssk L.store.keys.huk L.store.keys.chip }
        requires few { length L.store.mounted.applications ≤ 16 }
        requires many { vec_len slots ≡ last_file }
    {
        SharedStore {
            gate: Mutex::new(gate),
            slots,
            storage_key,
        }
    }

    /// The gate and the slots, once no thread shares the store any more.
    pub fn into_parts(self) -> (SharedGate<F, R, L>, Vec<Mutex<SharedSlot<F, L>>>)
        ensures many { vec_len result.1 ≡ last_file }
    {
        let SharedStore {
            gate,
            slots,
            storage_key: _,
        } = self;
        (gate.into_inner(), slots)
    }

    // The lock of the slot of that file, if the store has one.
    fn slot_of(&self, file: u16) -> Option<&Mutex<SharedSlot<F, L>>> {
        self.slots.get(usize::from(file).checked_sub(1)?)
    }

    // The lock of a slot, and the gate's: where another thread has the slot's, the gate's is given back first, and taken again behind it.
    fn take_slot<'a, W: Wait>(
        &'a self,
        rt: &W,
        gate: MutexGuard<'a, SharedGate<F, R, L>>,
        lock: &'a Mutex<SharedSlot<F, L>>,
    ) -> (
        MutexGuard<'a, SharedGate<F, R, L>>,
        MutexGuard<'a, SharedSlot<F, L>>,
    ) {
        if let Some(slot) = lock.try_lock() {
            return (gate, slot);
        }
        drop(gate);
        let slot = lock.lock(rt);
        (self.gate(rt), slot)
    }

    /// Takes the gate's lock.
    pub fn gate<'a, W: Wait>(&'a self, rt: &W) -> MutexGuard<'a, SharedGate<F, R, L>> {
        spin_then_lock(rt, &self.gate)
    }

    // Makes an attempt in one look at the gate, with the lock of the slot in which the session found the call's object before. None where that is
    // not known, where another thread has the lock, and where the call has to go the long way.
    fn try_at_once<W: Wait, E: Entropy>(
        &self,
        rt: &W,
        alloc: Global,
        session: &mut Session<E>,
        call: &Call,
    ) -> Result<Option<PlacedReply>, NoMemory>
        requires caller { IsCallerOf L.store session.old }
        ensures ends { EndsAttempt L.store session.old session.new call.now result }
        ensures draws { DrawsOn E.is_reliable E.faults session.old.entropy session.new.entropy }
        ensures drawn { IfOk result (λ found. IfSome found (λ answer. CarriesDraws (E.faults session.old.entropy) (E.faults session.new.entropy) answer.reply)) }
    {
        let Some(lock) = hinted_file(session, call).and_then(|file| self.slot_of(file)) else {
            return Ok(None);
        };
        let Some(mut slot) = lock.try_lock() else {
            return Ok(None);
        };
        attempt_at_once(rt, alloc, &self.gate, &mut slot.slot, session, call)
    }

    // Validates the call at the gate, and makes an attempt with the lock of the slot that the call needs, if it needs one. Where that lock is free, the first validation
    // of the attempt is made before the gate's is given back. None where the call has to begin again.
    fn try_once<'a, W: Wait, E: Entropy>(
        &'a self,
        rt: &W,
        alloc: Global,
        mut gate: MutexGuard<'a, SharedGate<F, R, L>>,
        session: &mut Session<E>,
        call: &Call,
    ) -> Result<Option<PlacedReply>, NoMemory>
        requires caller { IsCallerOf L.store session.old }
        ensures ends { EndsAttempt L.store session.old session.new call.now result }
        ensures draws { DrawsOn E.is_reliable E.faults session.old.entropy session.new.entropy }
        ensures drawn { IfOk result (λ found. IfSome found (λ answer. CarriesDraws (E.faults session.old.entropy) (E.faults session.new.entropy) answer.reply)) }
    {
        let key = &self.storage_key;
        let file = match file_of(alloc, &mut gate, session, call)? {
            Validation::Answered(answer) => return Ok(Some(answer)),
            Validation::Found(file) => file,
            Validation::Retry => return Ok(None),
        };
        note_file(session, call, file);
        let Some(lock) = self.slot_of(file) else {
            return Ok(None);
        };
        let (gate, mut slot) = self.take_slot(rt, gate, lock);
        attempt(
            rt,
            alloc,
            gate,
            &self.gate,
            &mut slot.slot,
            key,
            session,
            call,
        )
    }

    /// Serves a call of a session, beside those that other threads serve for theirs: a commit in doubt is resolved unless the call is a misuse,
    /// and the call is answered and appended to the one history. It waits for the locks of the gate and of one slot, and begins again for as long
    /// as others change what it found.
    ///
    /// # Errors
    ///
    /// Memory ran out. The session has no event more.
    pub fn call<W: Wait, E: Entropy>(
        &self,
        rt: &W,
        alloc: Global,
        session: &mut Session<E>,
        call: &Call,
    ) -> Result<PlacedReply, NoMemory>
        requires caller { IsCallerOf L.store session.old }
        ensures ends { EndsCall L.store session.old session.new call.now result }
        ensures draws { DrawsOn E.is_reliable E.faults session.old.entropy session.new.entropy }
        ensures drawn { IfOk result (λ answer. CarriesDraws (E.faults session.old.entropy) (E.faults session.new.entropy) answer.reply) }
    {
        session.make_room(alloc);
        if let Some(answer) = self.try_at_once(rt, alloc, session, call)? {
            return Ok(answer);
        }
        self.call_from(rt, alloc, self.gate(rt), session, call)
    }

    /// Serves a call as `call` does, of a caller who has the gate's lock already: the call looks at the gate with it first, and gives it back.
    ///
    /// # Errors
    ///
    /// Memory ran out. The session has no event more.
    pub fn call_from<'a, W: Wait, E: Entropy>(
        &'a self,
        rt: &W,
        alloc: Global,
        gate: MutexGuard<'a, SharedGate<F, R, L>>,
        session: &mut Session<E>,
        call: &Call,
    ) -> Result<PlacedReply, NoMemory>
        requires caller { IsCallerOf L.store session.old }
        ensures ends { EndsCall L.store session.old session.new call.now result }
        ensures draws { DrawsOn E.is_reliable E.faults session.old.entropy session.new.entropy }
        ensures drawn { IfOk result (λ answer. CarriesDraws (E.faults session.old.entropy) (E.faults session.new.entropy) answer.reply) }
    {
        let mut gate = gate;
        for _ in rt.forever() {
            if let Some(answer) = self.try_once(rt, alloc, gate, session, call)? {
                return Ok(answer);
            }
            gate = self.gate(rt);
        }
        unreachable!()
    }
}

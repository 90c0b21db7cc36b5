//! A store that is served.

ghost use Rattle.std.specs.Prelude.{◌≡◌, ◌+◌, ◌≤◌, [], vec_len, IfErr, IfOk, OnErr, OnOk};
ghost use Rattle.std.specs.Vec.{vec_capacity};
ghost use Rattle.object_calls.specs.OpenedStores.{IsStoreOf};
ghost use Rattle.object_calls.specs.ServedPhases.{ServesOpening};
ghost use Rattle.object_calls.specs.Services.{IsService, ServiceValue};
ghost use Rattle.object_calls.specs.OpeningSessions.{AreSeated, AreUnseated, DrawAlike, HaveNoEvents};

use crate::file_places::free_places;
use crate::opening::Opening;
use crate::seat_splitting::{SplitSlots, split_passes, split_slots};
use core_laws::StoreName;
use hmac_keys::SecretKey;
use rpmb_card::RpmbPort;
use serial_calls::{GuardedGate, GuardedSlot, Journal, Session};
use std::alloc::Global;
use std::marker::Model;
use store_model::History;
use tee_ports::{Entropy, StoreFile};
use tee_types::MAX_FILE;

/// A mounted store that is served: the gate, and a slot of each file of an object. `L` names the store.
#[derive(Drop)]
pub struct Service<F: StoreFile + Drop, R: RpmbPort + Drop, L: StoreName> {
    pub(crate) gate: GuardedGate<F, R, L>,
    // The slot of file 1 first.
    pub(crate) slots: Vec<GuardedSlot<F, L>>,
    // The key that the applications' keys come from.
    pub(crate) storage_key: SecretKey,
    // Where the files of objects come to at the end, by their numbers: it has no file.
    pub(crate) places: Vec<Option<F>>,
    // Where all files go then: it has room for them, and no file.
    pub(crate) room: Vec<F>,
    // The file of an old directory.
    pub(crate) spare: F,
    pub(crate) alloc: Global,
}

impl<F: StoreFile + Drop, R: RpmbPort + Drop, L: StoreName> Model for Service<F, R, L> {
    ghost use Rattle.std.specs.Prelude.{◌≡◌, ◌≤◌, vec_len};
    ghost use Rattle.std.specs.Vec.{vec_capacity};
    ghost use Rattle.tee_types.specs.Limits.{file_count};
    ghost use Rattle.object_calls.specs.SlotPlaces.{AreFree};
    ghost use Rattle.object_calls.specs.Services.{IsService, ServiceValue};

    ghost Value = { ServiceValue F R };

    ghost view = { λ s. record { gate = s.gate; slots = s.slots.items; storage_key = s.storage_key; spare = s.spare } };

    ghost invariant = { λ s. IsService L.store s.gate s.slots.items s.storage_key × (vec_len s.room ≡ 0) × (file_count ≤ vec_capacity s.room) × AreFree s.places.items };
}

impl<F: StoreFile + Drop, R: RpmbPort + Drop> Opening<F, R> {
    /// Serves the store: splits a seat for each file of an object, and gives each session its own. What the end of the phase needs of
    /// memory is taken here.
    ///
    /// # Errors
    ///
    /// Memory ran out. The opening and the sessions are as they were.
    pub fn serve<E: Entropy, L: StoreName>(
        self,
        sessions: &mut [Session<E>],
    ) -> Result<Service<F, R, L>, Opening<F, R>>
        requires store { IsStoreOf F.state L.store self }
        requires sessions { AreUnseated self.applications sessions.old }
        ensures served { IfOk result (ServesOpening F.state L.store self) }
        ensures seated { OnOk result (AreSeated L.store sessions.new) }
        ensures unmade { OnOk result (HaveNoEvents sessions.new) }
        ensures draw { OnOk result (DrawAlike sessions.old sessions.new) }
        ensures refused { IfErr result (λ opening. opening ≡ self) }
        ensures unseated { OnErr result (sessions.new ≡ sessions.old) }
    {
        let Ok(slots) = Vec::with_capacity(self.alloc, usize::from(MAX_FILE)) else {
            return Err(self)
        };
        let Ok(places) = free_places(self.alloc) else {
            return Err(self)
        };
        let Opening {
            gate,
            files,
            spare,
            storage_key,
            alloc,
            table,
            mut seat,
            applications: _,
        } = self;
        let SplitSlots { slots, room } = split_slots::<F, R, L>(
            &gate, &table, &mut seat, files, slots,
        );
        split_passes::<E, L>(&table, &mut seat, sessions);
        let journal = Journal::new(table, seat, History::new(alloc));
        Ok(Service {
            gate: GuardedGate::new(gate, journal),
            slots,
            storage_key,
            places,
            room,
            spare,
            alloc,
        })
    }
}

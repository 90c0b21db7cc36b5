//! The parts of a store that is served.

ghost use Rattle.std.specs.Prelude.{◌≡◌, ◌≤◌, vec_len};
ghost use Rattle.std.specs.Vec.{vec_capacity};
ghost use Rattle.tee_types.specs.Limits.{file_count};
ghost use Rattle.object_calls.specs.SlotPlaces.{AreFree};
ghost use Rattle.object_calls.specs.Services.{IsService};

use crate::service::Service;
use core_laws::StoreName;
use hmac_keys::SecretKey;
use rpmb_card::RpmbPort;
use serial_calls::{GuardedGate, GuardedSlot};
use tee_ports::StoreFile;

/// What a store that is served is made of, as `close_slots` takes it. `L` names the store.
#[derive(Drop)]
pub struct ServiceParts<F: StoreFile + Drop, R: RpmbPort + Drop, L: StoreName> {
    /// The gate, with the history.
    pub gate: GuardedGate<F, R, L>,
    /// The slot of each file of an object, that of file 1 first.
    pub slots: Vec<GuardedSlot<F, L>>,
    /// The key that the applications' keys come from.
    pub storage_key: SecretKey,
    /// A place for each file of an object, all of them free.
    pub places: Vec<Option<F>>,
    /// A list without a file, that has room for all of a bench.
    pub room: Vec<F>,
    /// The file of an old directory.
    pub spare: F,
}

impl<F: StoreFile + Drop, R: RpmbPort + Drop, L: StoreName> Service<F, R, L> {
    /// Takes the service apart.
    pub fn into_parts(self) -> ServiceParts<F, R, L>
        ensures gate { result.gate ≡ self.gate }
        ensures slots { result.slots.items ≡ self.slots }
        ensures storage_key { result.storage_key ≡ self.storage_key }
        ensures spare { result.spare ≡ self.spare }
        // What always holds of a service.
        ensures service { IsService L.store self.gate self.slots self.storage_key }
        ensures free { AreFree result.places.items }
        ensures empty { vec_len result.room ≡ 0 }
        ensures room { file_count ≤ vec_capacity result.room }
    {
        let Service {
            gate,
            slots,
            storage_key,
            places,
            room,
            spare,
            alloc: _,
        } = self;
        ServiceParts {
            gate,
            slots,
            storage_key,
            places,
            room,
            spare,
        }
    }
}

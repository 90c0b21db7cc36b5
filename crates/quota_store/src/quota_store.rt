//! A store that threads serve under quotas.

ghost use Rattle.std.specs.Prelude.{◌≡◌, IfNone, IfSome};
ghost use Rattle.shared_store.specs.CallerSessions.{IsCallerOf};
ghost use Rattle.shared_store.specs.Devices.{DrawsOn};
ghost use Rattle.quota_store.specs.Draws.{CarriesOutcome};
ghost use Rattle.quota_store.specs.LockedCalls.{EndsLocked};
ghost use Rattle.shared_store.specs.QuotaCallers.{KeepsLimits};

use crate::app_halves::AppHalves;
use crate::quota_call::serve_app;
use crate::quota_session::QuotaSession;
use rpmb_card::RpmbPort;
use shared_store::{DevicesName, QuotaOutcome, SharedStore, StoreName};
use std::alloc::Global;
use std::sync::{Mutex, Wait};
use tee_ports::{Entropy, StoreFile};
use tee_types::{Call, NoMemory};

/// The store that `L` names, as threads share it under quotas: each application's calls take turns, and what one has keeps no other from
/// what it may have.
#[derive(Drop)]
pub struct QuotaStore<F: StoreFile + Drop, R: RpmbPort + Drop, L: StoreName + DevicesName> {
    store: SharedStore<F, R, L>,
    // One for each application.
    locks: Vec<Mutex<AppHalves<L>>>,
}

impl<F: StoreFile + Drop, R: RpmbPort + Drop, L: StoreName + DevicesName> QuotaStore<F, R, L> {
    /// The store with the locks of its applications, which its sessions were shared with.
    pub fn new(
        store: SharedStore<F, R, L>,
        locks: Vec<Mutex<AppHalves<L>>>,
    ) -> QuotaStore<F, R, L> {
        QuotaStore { store, locks }
    }

    /// The store and the locks of its applications, once no thread shares it any more.
    pub fn into_parts(self) -> (SharedStore<F, R, L>, Vec<Mutex<AppHalves<L>>>) {
        let QuotaStore { store, locks } = self;
        (store, locks)
    }

    // Makes a call with the lock of its session's application. None where that is not there: nothing was done.
    fn try_call<W: Wait, E: Entropy>(
        &self,
        rt: &W,
        alloc: Global,
        session: &mut QuotaSession<E>,
        call: &Call,
    ) -> Option<Result<QuotaOutcome, NoMemory>>
        requires caller { IsCallerOf L.store session.old.caller }
        ensures ends { IfSome result (EndsLocked L.store session.old.limit session.old.caller session.new.caller call.now) }
        ensures none { IfNone result (session.new ≡ session.old) }
        ensures limits { KeepsLimits L.store session.old.limit session.old.caller session.new.caller }
        ensures limit { session.new.limit ≡ session.old.limit }
        ensures draws { DrawsOn E.is_reliable E.faults session.old.caller.entropy session.new.caller.entropy }
        ensures drawn { IfSome result (CarriesOutcome (E.faults session.old.caller.entropy) (E.faults session.new.caller.entropy)) }
    {
        let mut halves = self.locks.get(session.lock)?.lock(rt);
        serve_app(rt, alloc, &self.store, &mut halves, session, call)
    }

    /// Serves a call of a session beside those that other threads serve for theirs, as `SharedStore::call` does; but where it would leave its
    /// application more than that may have, it is refused, and has no event. It waits for the lock of its application first.
    ///
    /// # Errors
    ///
    /// Memory ran out. The session has no event more.
    pub fn call<W: Wait, E: Entropy>(
        &self,
        rt: &W,
        alloc: Global,
        session: &mut QuotaSession<E>,
        call: &Call,
    ) -> Result<QuotaOutcome, NoMemory>
        requires caller { IsCallerOf L.store session.old.caller }
        ensures ends { EndsLocked L.store session.old.limit session.old.caller session.new.caller call.now result }
        ensures limits { KeepsLimits L.store session.old.limit session.old.caller session.new.caller }
        ensures limit { session.new.limit ≡ session.old.limit }
        ensures draws { DrawsOn E.is_reliable E.faults session.old.caller.entropy session.new.caller.entropy }
        ensures drawn { CarriesOutcome (E.faults session.old.caller.entropy) (E.faults session.new.caller.entropy) result }
    {
        for _ in rt.forever() {
            if let Some(outcome) = self.try_call(rt, alloc, session, call) {
                return outcome;
            }
        }
        unreachable!()
    }
}

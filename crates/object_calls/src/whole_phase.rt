//! A whole phase, under the name of its store.

ghost use Rattle.std.specs.Prelude.{◌≡◌, IfErr, IfOk};
ghost use Rattle.hmac_keys.specs.declared.Keys.{Keys};
ghost use Rattle.object_calls.specs.OpeningFiles.{files_of};
ghost use Rattle.object_calls.specs.FinishedPhase.{ClosesUnserved};
ghost use Rattle.object_calls.specs.OpenedStores.{IsStoreOf, store_in};
ghost use Rattle.object_calls.specs.Opening.{IsKeyed};
ghost use Rattle.object_calls.specs.OpeningSessions.{AreUnseated};

use crate::opening::Opening;
use crate::phase_end::Closed;
use core_laws::StoreName;
use rpmb_card::RpmbPort;
use serial_calls::Session;
use std::marker::Brand;
use tee_ports::{Entropy, StoreFile};

/// Serves the store that `L` names, and ends its phase before any call.
///
/// # Errors
///
/// Memory ran out. The opening is as it was.
pub fn close_unserved<F: StoreFile + Drop, R: RpmbPort + Drop, E: Entropy + Drop, L: StoreName>(
    opening: Opening<F, R>,
    sessions: Vec<Session<E>>,
) -> Result<Closed<F, R>, Opening<F, R>>
    requires store { IsStoreOf F.state L.store opening }
    requires sessions { AreUnseated opening.applications sessions.items }
    ensures closed { IfOk result (λ c. ClosesUnserved L.store (files_of F.state c.bench.files.items) (R.state c.bench.card) c.doubt c.history.events) }
    ensures refused { IfErr result (λ o. o ≡ opening) }
{
    let mut sessions = sessions;
    match opening.serve::<E, L>(&mut sessions) {
        Ok(service) => Ok(service.finish(sessions)),
        Err(opening) => Err(opening),
    }
}

/// Serves a store under a name of its own, and ends its phase before any call. The keys are those that it was mounted with.
///
/// # Errors
///
/// Memory ran out. The opening is as it was.
pub fn close_at_once<F: StoreFile + Drop, R: RpmbPort + Drop, E: Entropy + Drop>(
    opening: Opening<F, R>,
    sessions: Vec<Session<E>>,
) -> Result<Closed<F, R>, Opening<F, R>>
    ghost keys: { Keys }
    requires keyed { IsKeyed keys opening }
    requires sessions { AreUnseated opening.applications sessions.items }
    ensures closed { IfOk result (λ c. ClosesUnserved (store_in keys F.state opening) (files_of F.state c.bench.files.items) (R.state c.bench.card) c.doubt
        c.history.events) }
    ensures refused { IfErr result (λ o. o ≡ opening) }
{
    close_unserved::<F, R, E, Brand>(opening, sessions)
}

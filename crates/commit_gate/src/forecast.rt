//! What a session's call would find at the gate, and what it would leave its application.

ghost use Rattle.std.specs.Prelude.{◌≡◌, length};
ghost use Rattle.commit_gate.specs.CallerSessions.{IsCallerOf};
ghost use Rattle.commit_gate.specs.Forecasts.{IsForecastAt};
ghost use Rattle.commit_gate.specs.SessionViews.{SeesAll};

use crate::guarded_gate::GuardedGate;
use crate::session::Session;
use app_totals::Forecast;
use call_rules::{Catalog, grown};
use core_laws::StoreName;
use rpmb_card::RpmbPort;
use tee_ports::{Entropy, StoreFile};
use tee_types::Call;

impl<F: StoreFile + Drop, R: RpmbPort + Drop, L: StoreName> GuardedGate<F, R, L> {
    /// What a call would find and leave, of a session that saw the whole history.
    pub fn forecast<E: Entropy>(&self, session: &Session<E>, call: &Call) -> Forecast
        requires caller { IsCallerOf L.store session.now }
        requires sees { SeesAll self.now.journal.knows session.now.pass }
        ensures place { result.place ≡ length self.now.journal.knows.all }
        ensures told { IsForecastAt L.store self.now.journal.knows.all session.now.number call.now result }
    {
        self.reveal_invariant();
        let held = self.totals(session.app());
        Forecast {
            place: self.journal.len(),
            objects: held.objects,
            bytes: held.bytes,
            grown: grown(self, session.state(), call),
        }
    }
}

//! How a session is shown the history.

ghost use Rattle.std.specs.Prelude.{◌≡◌};
ghost use Rattle.history_seats.specs.Rule.{Agrees};
ghost use Rattle.history_seats.specs.Changes.{IsOf, seat_renewed, together, view_in};
ghost use Rattle.core_laws.specs.TamperScenarios.{TamperScenario};
ghost use Rattle.core_laws.specs.Stores.{replay_at};
ghost use Rattle.core_laws.specs.Answered.{AreAnswered};
ghost use Rattle.commit_gate.specs.JournalCalls.{pass_view};
ghost use Rattle.commit_gate.specs.CallerSessions.{IsCallerOf};
ghost use Rattle.commit_gate.specs.SessionViews.{BeginsAll, SeesAll, shown};
ghost use Rattle.commit_gate.specs.KnownMachine.{IsSessionAt};

use crate::Session;
use crate::guarded_gate::GuardedGate;
use core_laws::StoreName;
use history_seats::SlotSeat;
use rpmb_card::RpmbPort;
use tee_ports::{Entropy, StoreFile};

impl<F: StoreFile + Drop, R: RpmbPort + Drop, L: StoreName> GuardedGate<F, R, L> {
    /// Shows a session the whole history, and a slot's seat beside it where one comes. The session learns what became of its own commit
    /// in doubt, and stands as the machine's.
    pub fn catch_up<E: Entropy>(
        &mut self,
        slot: Option<SlotSeat>,
        session: &mut Session<E>,
    ) -> Option<SlotSeat>
        requires slot { IsOf L.store.table slot }
        requires session { IsCallerOf L.store session.old }
        ensures same { self.new ≡ self.old }
        ensures slot { result ≡ seat_renewed self.old.journal.knows slot }
        ensures session { session.new ≡ shown self.old.journal.knows session.old }
        // What the seats knew agreed with the journal.
        ensures agreed { Agrees (together self.old.journal.knows (view_in slot) (pass_view session.old.pass)) }
        ensures begins { BeginsAll self.old.journal.knows session.old.pass }
        ensures sees { SeesAll self.new.journal.knows session.new.pass }
        ensures whole { IsCallerOf L.store session.new }
        ensures stands { (scenario : TamperScenario) → AreAnswered L.store scenario self.new.journal.knows.all → IsSessionAt (replay_at L.store scenario self.new.journal.knows.all).state session.new }
    {
        crate::catch_up(&mut self.journal, slot, session)
    }
}

//! A session's seat in halves: one is its caller's, and one is kept elsewhere.

ghost use Rattle.std.specs.Prelude.{◌≡◌, None, Some};
ghost use Rattle.history_seats.specs.Changes.{pass_renewed};
ghost use Rattle.history_seats.specs.Rule.{PassFits};
ghost use Rattle.commit_gate.specs.CallerSessions.{IsCallerOf};

use crate::guarded_gate::GuardedGate;
use crate::session::Session;
use core_laws::StoreName;
use history_seats::{HalfSeat, Halves, KeptSeat};
use rpmb_card::RpmbPort;
use tee_ports::{Entropy, StoreFile};

impl<F: StoreFile + Drop, R: RpmbPort + Drop, L: StoreName> GuardedGate<F, R, L> {
    /// Cuts a session's seat in two halves. The session has no seat then.
    pub fn cut<E: Entropy>(&mut self, session: &mut Session<E>) -> Halves
        requires { IsCallerOf L.store session.old }
        ensures same { self.new ≡ self.old }
        ensures session { session.new ≡ record session.old { pass = None } }
        ensures one { session.old.pass ≡ Some result.one }
        ensures other { session.old.pass ≡ Some result.other }
    {
        let pass = session.lend_pass();
        self.journal.halve(pass)
    }

    /// Joins the two halves of a session's seat, which the session has then. It sees what the caller's half saw.
    pub fn join<E: Entropy>(&mut self, session: &mut Session<E>, one: HalfSeat, other: KeptSeat)
        requires tables { (one.table ≡ L.store.table) × (other.table ≡ L.store.table) }
        requires number { other.knows.session ≡ one.knows.session }
        ensures same { self.new ≡ self.old }
        ensures session { session.new ≡ record session.old { pass = Some one } }
    {
        let pass = self.journal.whole(one, other);
        session.give_pass(pass);
    }

    /// Shows a kept half the whole history: past what it saw, its session has no event.
    pub fn show_kept(&mut self, half: KeptSeat) -> KeptSeat
        requires { half.table ≡ L.store.table }
        ensures same { self.new ≡ self.old }
        ensures half { result ≡ record half { knows = pass_renewed self.old.journal.knows half.knows } }
        ensures fits { PassFits self.old.journal.knows half.knows }
    {
        self.journal.show_kept(half)
    }
}

//! How a commit in doubt is resolved behind the lock.

ghost use Rattle.std.specs.Prelude.{◌≡◌, ◌≤◌, ◌+◌, IfErr, IfSome, IsSome, IsTrue, OnOk, Some};
ghost use Rattle.store_commit.specs.CardCauses.{IsOfFrame};
ghost use Rattle.store_commit.specs.Causes.{StaysCalm};
ghost use Rattle.store_commit.specs.Gates.{gate_sides};
ghost use Rattle.store_commit.specs.Resolving.{IsAnswered, LeavesDoubt, Resolves, ResolvesHolds, StaysDoubted, TellsCounter};
ghost use Rattle.commit_gate.specs.Settled.{Closes, ClosesIfLanded, closing_left, view_settled};

use crate::guarded_gate::{Closing, GuardedGate};
use core_laws::StoreName;
use rpmb_card::RpmbPort;
use store_commit::{Gate, Resolved};
use tee_ports::StoreFile;
use tee_types::Cause;

// Closes the handle, if there is one.
fn close<F: StoreFile + Drop, R: RpmbPort + Drop>(gate: &mut Gate<F, R>, closing: Option<Closing>)
    ensures closes { Closes closing gate.old.open_handles gate.new.open_handles }
    ensures same { gate.new ≡ record gate.old { open_handles = gate.new.open_handles } }
{
    if let Some(handle) = closing {
        gate.drop_handle(handle.session, handle.handle);
    }
}

impl<F: StoreFile + Drop, R: RpmbPort + Drop, L: StoreName> GuardedGate<F, R, L> {
    /// Resolves the commit in doubt by one read of the card's counter, with that nonce, and writes into the history what became of it:
    /// that it landed, or that it never will. Where a delete landed, its handle is closed.
    ///
    /// # Errors
    ///
    /// The read failed, or a verified counter is neither of the two. The commit stays in doubt.
    pub fn resolve(&mut self, nonce: &[u8; 16]) -> Result<Resolved, Cause>
        requires doubt { IsSome self.old.gate.doubt }
        requires room { 1 ≤ self.old.journal.spare }
        ensures resolves { IfSome self.old.gate.doubt (λ d. Resolves (gate_sides F.state R.state self.old.gate) (gate_sides F.state R.state self.new.gate) d result) }
        ensures doubt { LeavesDoubt self.old.gate.doubt self.new.gate.doubt result }
        ensures holds { IfSome self.old.gate.doubt (λ d. ResolvesHolds d result self.old.gate.holds self.new.gate.holds) }
        ensures handles { ClosesIfLanded result self.old.closing self.old.gate.open_handles self.new.gate.open_handles }
        ensures closing { self.new.closing ≡ closing_left result self.old.closing }
        ensures knows { self.new.journal.knows ≡ view_settled result self.old.journal.knows }
        ensures spare { self.old.journal.spare ≤ self.new.journal.spare + 1 }
        ensures names { self.old.gate.room ≤ self.new.gate.room }
        ensures file { F.state self.new.gate.dir.file ≡ F.state self.old.gate.dir.file }
        ensures card { (R.state self.new.gate.host.port).card ≡ (R.state self.old.gate.host.port).card }
        ensures counter { TellsCounter self.old.gate.host.key self.old.gate.counter (R.state self.old.gate.host.port) result }
        ensures answered { IsAnswered self.old.gate.host.key self.old.gate.counter nonce.now (R.state self.old.gate.host.port) (R.state self.new.gate.host.port) result }
        ensures calm { IsTrue (R.state self.old.gate.host.port).calm
            → StaysCalm (R.state self.old.gate.host.port) (R.state self.new.gate.host.port) × IfErr result IsOfFrame }
        ensures passed { OnOk result ((R.state self.new.gate.host.port).faults ≡ (R.state self.old.gate.host.port).faults) }
        ensures cause { IfErr result (StaysDoubted self.old.gate.host.key self.old.gate.counter (R.state self.old.gate.host.port) (R.state self.new.gate.host.port)) }
    {
        self.gate.reveal_invariant();
        let resolved = self.gate.resolve(nonce)?;
        match resolved {
            Resolved::Landed(number) => {
                close(&mut self.gate, self.closing);
                self.closing = None;
                self.journal.append_landed(number);
            }
            Resolved::Dropped(_) => {
                self.closing = None;
                self.journal.drop_doubt();
            }
        }
        Ok(resolved)
    }
}

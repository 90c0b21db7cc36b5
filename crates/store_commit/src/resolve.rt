//! How a commit in doubt is resolved.

ghost use Rattle.std.specs.Prelude.{◌≡◌, ◌≤◌, ◌+◌, IfErr, IfSome, IsSome, IsTrue, OnOk, Some};
ghost use Rattle.store_commit.specs.CardCauses.{IsOfFrame};
ghost use Rattle.store_commit.specs.Causes.{StaysCalm};
ghost use Rattle.store_commit.specs.Gates.{gate_sides};
ghost use Rattle.store_commit.specs.Resolving.{IsAnswered, LeavesDoubt, Resolves, ResolvesHolds, StaysDoubted, TellsCounter};

use crate::card::cause_of;
use crate::gate::{Gate, entry_of, index_of};
use crate::holds::end_hold;
use crate::names::change_names;
use crash_core::DoubtedChange;
use rpmb_card::RpmbPort;
use rpmb_host::Host;
use tee_ports::StoreFile;
use tee_types::{Cause, FrameFault};

/// How a commit that was in doubt was resolved.
#[derive(Clone, Copy, PartialEq, Eq, Debug)]
pub enum Resolved {
    /// It landed; its number.
    Landed(u32),
    /// It did not land; its number.
    Dropped(u32),
}

// Reads the counter, and finds out whether the commit of that number, the next after a counter, landed.
fn ask_doubt<R: RpmbPort>(
    host: &mut Host<R>,
    counter: u32,
    number: u32,
    nonce: &[u8; 16],
) -> Result<Resolved, Cause>
    requires { number ≡ counter + 1 }
    ensures answered { IsAnswered host.old.key counter nonce.now (R.state host.old.port) (R.state host.new.port) result }
    ensures key { host.new.key ≡ host.old.key }
    ensures card { (R.state host.new.port).card ≡ (R.state host.old.port).card }
    ensures counter { TellsCounter host.old.key counter (R.state host.old.port) result }
    ensures calm { IsTrue (R.state host.old.port).calm
        → StaysCalm (R.state host.old.port) (R.state host.new.port) × IfErr result IsOfFrame }
    ensures passed { OnOk result ((R.state host.new.port).faults ≡ (R.state host.old.port).faults) }
    ensures cause { IfErr result (StaysDoubted host.old.key counter (R.state host.old.port) (R.state host.new.port)) }
{
    match host.read_counter(nonce) {
        Ok(now) => {
            if now == counter {
                Ok(Resolved::Dropped(number))
            } else if now == number {
                Ok(Resolved::Landed(number))
            } else {
                Err(Cause::Frame(FrameFault::Counter {
                    want: number,
                    found: now,
                }))
            }
        }
        Err(fault) => Err(cause_of(fault)),
    }
}

// The commit that is in doubt.
fn doubted_of(doubt: &Option<DoubtedChange>) -> DoubtedChange
    requires { IsSome doubt.now }
    ensures { doubt.now ≡ Some result }
{
    match doubt {
        Some(doubted) => *doubted,
        None => unreachable!(),
    }
}

impl<F: StoreFile + Drop, R: RpmbPort + Drop> Gate<F, R> {
    /// Resolves the commit in doubt by one read of the card's counter, with that nonce. It takes no memory and makes no call of the
    /// directory's file.
    ///
    /// Where the verified counter is the commit's number it landed: the stage is adopted, and the index of names follows. Where it is one
    /// less the commit did not land, and the stage is given up. Both end the hold on the file that the change puts; until then it stays
    /// held.
    ///
    /// # Errors
    ///
    /// The read failed, or a verified counter is neither of the two. The commit stays in doubt.
    pub fn resolve(&mut self, nonce: &[u8; 16]) -> Result<Resolved, Cause>
        requires doubt { IsSome self.old.doubt }
        ensures resolves { IfSome self.old.doubt (λ d. Resolves (gate_sides F.state R.state self.old) (gate_sides F.state R.state self.new) d result) }
        ensures doubt { LeavesDoubt self.old.doubt self.new.doubt result }
        ensures holds { IfSome self.old.doubt (λ d. ResolvesHolds d result self.old.holds self.new.holds) }
        ensures open_handles { self.new.open_handles ≡ self.old.open_handles }
        ensures room { self.old.room ≤ self.new.room }
        ensures file { F.state self.new.dir.file ≡ F.state self.old.dir.file }
        ensures key { self.new.host.key ≡ self.old.host.key }
        ensures card { (R.state self.new.host.port).card ≡ (R.state self.old.host.port).card }
        ensures counter { TellsCounter self.old.host.key self.old.counter (R.state self.old.host.port) result }
        ensures answered { IsAnswered self.old.host.key self.old.counter nonce.now (R.state self.old.host.port) (R.state self.new.host.port) result }
        ensures calm { IsTrue (R.state self.old.host.port).calm
            → StaysCalm (R.state self.old.host.port) (R.state self.new.host.port) × IfErr result IsOfFrame }
        ensures passed { OnOk result ((R.state self.new.host.port).faults ≡ (R.state self.old.host.port).faults) }
        ensures cause { IfErr result (StaysDoubted self.old.host.key self.old.counter (R.state self.old.host.port) (R.state self.new.host.port)) }
    {
        let doubted = doubted_of(&self.doubt);
        let before = entry_of(&self.dir, index_of(&doubted.change));
        match ask_doubt(&mut self.host, self.counter, doubted.number, nonce) {
            Ok(Resolved::Landed(number)) => {
                self.dir.adopt();
                self.counter = number;
                self.doubt = None;
                change_names(&mut self.index, &before, &doubted.change);
                end_hold(&mut self.holds, &doubted.change);
                Ok(Resolved::Landed(number))
            }
            Ok(Resolved::Dropped(number)) => {
                self.dir.drop_stage();
                self.doubt = None;
                end_hold(&mut self.holds, &doubted.change);
                Ok(Resolved::Dropped(number))
            }
            Err(cause) => Err(cause),
        }
    }
}

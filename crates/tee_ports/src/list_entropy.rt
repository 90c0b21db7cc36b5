// A generator for tests.
ghost use Rattle.std.specs.Prelude.{◌≡◌, IsTrue, ◌↔◌, ◌<◌, ◌≤◌, ◌^◌, IsOk, IsErr, IfErr, OnOk, OnErr, Contains};
ghost use Rattle.tee_ports.specs.Faults.{next_count};
ghost use Rattle.tee_ports.specs.Draws.{NeverFails, draw_after, drawn_of};

use crate::failed::count_fault;
use crate::{Entropy, Failed};
use std::marker::Model;

/// A generator for tests, with chosen calls that fail.
///
/// It draws no random bytes, but in 8 bytes the number of the call and in 8 its own, each with the least byte first.
///
/// Calls of `draw` are counted from 1, up to `u64::MAX`, where the count stands still.
#[derive(Drop)]
pub struct ListEntropy {
    failing: [u64; 16],
    number: u64,
    calls: u64,
    faults: u64,
}

impl Model for ListEntropy {
    ghost use Rattle.tee_ports.specs.Draws.{DrawState};

    ghost Value = { DrawState };

    ghost view = { λ e. record { failing = e.failing; number = e.number; calls = e.calls; faults = e.faults } };
}

impl ListEntropy {
    /// A generator whose calls of the numbers in `failing` fail, and no others. Zero is no call's number.
    pub fn new(failing: [u64; 16]) -> ListEntropy
        ensures { result ≡ record { failing = failing; number = 0; calls = 0; faults = 0 } }
    {
        ListEntropy {
            failing,
            number: 0,
            calls: 0,
            faults: 0,
        }
    }
}

impl Entropy for ListEntropy {
    ghost is_reliable = { NeverFails };

    ghost faults = { λ e. e.faults };

    fn draw(&mut self, into: &mut [u8; 16]) -> Result<(), Failed>
        // Which calls fail, which bytes the others give, and what each call leaves.
        ensures fails { IsErr result ↔ Contains self.old.failing (next_count self.old.calls) }
        ensures drawn { OnOk result (into.new ≡ drawn_of self.old) }
        ensures after { self.new ≡ draw_after self.old result }

        // As every generator.
        ensures reliable { NeverFails self.old → IsOk result }
        ensures carried { IfErr result (λ e. e.count ≡ self.new.faults) }
        ensures kept { OnErr result (into.new ≡ into.old) }
        ensures counted { self.old.faults ≤ self.new.faults }
        ensures fits { OnErr result (self.new.faults < 2 ^ 64) }
    {
        self.calls = self.calls.saturating_add(1);
        if is_among(&self.failing, self.calls) {
            return Err(count_fault(&mut self.faults));
        }
        let (call, number) = (self.calls, self.number);
        into[..8].copy_from_slice(&call.to_le_bytes());
        into[8..].copy_from_slice(&number.to_le_bytes());
        Ok(())
    }

    fn stream(&self, number: u64) -> ListEntropy
        ensures { result ≡ record { failing = self.now.failing; number = number; calls = 0; faults = 0 } }
    {
        ListEntropy {
            failing: self.failing,
            number,
            calls: 0,
            faults: 0,
        }
    }
}

// Whether this is the number of a call that fails.
fn is_among(failing: &[u64], call: u64) -> bool
    ensures { IsTrue result ↔ Contains failing.now call }
{
    failing.contains(&call)
}

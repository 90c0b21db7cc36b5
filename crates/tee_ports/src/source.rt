// What gives bytes.
ghost use Rattle.std.specs.Prelude.{◌≡◌, ◌↔◌, ℕ, List, [], ◌<◌, ◌≤◌, ◌^◌, length, take, Option, Some, IfOk, IfErr, OnErr};
ghost use Rattle.tee_ports.specs.Faults.{Rose};
ghost use Rattle.tee_ports.specs.Streams.{TakesFirst, KeepsBehind};

use crate::Failed;

/// A stream of bytes that can be read once.
pub trait Source {
    // The bytes that are still to come, if the source tells them.
    ghost left: { Self → Option (List ℕ) };

    // No byte is to come any more.
    ghost has_ended: { Self → Type 0 };

    // How many calls failed so far.
    ghost faults: { Self → ℕ };

    /// Reads the next bytes into the front of `into` and returns how many came, at most its length.
    ///
    /// `Ok(0)` for a buffer that is not empty is the end. After a call that failed the same bytes are still to come, as
    /// far as the source tells them.
    fn next(&mut self, into: &mut [u8]) -> Result<usize, Failed>
        ensures within { IfOk result (λ n. n ≤ length into.old) }
        ensures bytes { IfOk result (λ n. TakesFirst (left self.old) (left self.new) (take n into.new)) }
        ensures behind { IfOk result (λ n. KeepsBehind (left self.old) n into.old into.new) }
        ensures end { IfOk result (λ n. n ≡ 0 → 0 < length into.old → has_ended self.new) }
        ensures stays_ended { has_ended self.old → has_ended self.new }

        // A failure raised the count and changed nothing else.
        ensures rose { OnErr result (Rose (faults self.old) (faults self.new)) }
        ensures carried { IfErr result (λ e. e.count ≡ faults self.new) }
        ensures untouched { OnErr result (left self.new ≡ left self.old) }
        ensures counted { faults self.old ≤ faults self.new }
        ensures fits { faults self.new < 2 ^ 64 };

    // A source that tells its bytes has ended exactly where none is left.
    ghost told_end: { (s : Self) (bytes : List ℕ) → left s ≡ Some bytes → (has_ended s ↔ (bytes ≡ [])) };
}

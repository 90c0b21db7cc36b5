// What takes bytes.
ghost use Rattle.std.specs.Prelude.{◌≡◌, ℕ, List, ◌<◌, ◌≤◌, ◌^◌, length, take, Option, IfOk, IfErr, OnErr};
ghost use Rattle.tee_ports.specs.Faults.{Rose};
ghost use Rattle.tee_ports.specs.Streams.{Appends};

use crate::Failed;

/// A stream of bytes that can be written once.
pub trait Sink {
    // The bytes that were put so far, if the sink tells them.
    ghost held: { Self → Option (List ℕ) };

    // No byte is taken any more.
    ghost is_full: { Self → Type 0 };

    // How many calls failed so far.
    ghost faults: { Self → ℕ };

    /// Takes the first bytes of `from` and returns how many, at most its length.
    ///
    /// `Ok(0)` for a piece that is not empty says that the sink is full. After a call that failed the sink holds what it
    /// held before, as far as it tells that.
    fn put(&mut self, from: &[u8]) -> Result<usize, Failed>
        ensures within { IfOk result (λ n. n ≤ length from.now) }
        ensures bytes { IfOk result (λ n. Appends (held self.old) (held self.new) (take n from.now)) }
        ensures full_only { IfOk result (λ n. n ≡ 0 → 0 < length from.now → is_full self.new) }
        ensures stays_full { is_full self.old → is_full self.new }

        // A failure raised the count and changed nothing else.
        ensures rose { OnErr result (Rose (faults self.old) (faults self.new)) }
        ensures carried { IfErr result (λ e. e.count ≡ faults self.new) }
        ensures untouched { OnErr result (held self.new ≡ held self.old) }
        ensures counted { faults self.old ≤ faults self.new }
        ensures fits { faults self.new < 2 ^ 64 };
}

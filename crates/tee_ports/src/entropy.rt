// What gives random bytes.
ghost use Rattle.std.specs.Prelude.{◌≡◌, ℕ, ◌<◌, ◌≤◌, ◌^◌, IsOk, IfErr, OnOk, OnErr};
ghost use Rattle.disk_model.specs.Faults.{Rose};

use crate::Failed;

/// A generator of random bytes that may fail. Nothing is claimed of the bytes.
///
/// A reliable generator never fails, and neither do its streams.
pub trait Entropy: Drop {
    // It never fails.
    ghost is_reliable: { Self → Type 0 };

    // How many calls failed so far.
    ghost faults: { Self → ℕ };

    /// Draws 16 bytes. After a failure `into` holds what it held before.
    fn draw(&mut self, into: &mut [u8; 16]) -> Result<(), Failed>
        ensures reliable { is_reliable self.old → IsOk result }
        ensures lasts { is_reliable self.old → is_reliable self.new }
        ensures passed { OnOk result (faults self.new ≡ faults self.old) }

        // A failure raised the count and changed nothing else.
        ensures rose { OnErr result (Rose (faults self.old) (faults self.new)) }
        ensures carried { IfErr result (λ e. e.count ≡ faults self.new) }
        ensures kept { OnErr result (into.new ≡ into.old) }
        ensures counted { faults self.old ≤ faults self.new }
        ensures fits { OnErr result (faults self.new < 2 ^ 64) };

    /// The generator of this number, below 2^32, which counted no fault yet.
    fn stream(&self, number: u64) -> Self
    where
        Self: Sized,
        requires { number < 2 ^ 32 }
        ensures fresh { faults result ≡ 0 }
        ensures reliable { is_reliable self.now → is_reliable result };
}

// Faults on purpose.

ghost use Rattle.std.specs.Prelude.{◌≡◌, IsTrue, OnOk, OnErr};
ghost use Rattle.rpmb_card.specs.Arms.{no_arms, arm_stop, arm_failure, arm_loss};
ghost use Rattle.rpmb_card.specs.Port.{Rearmed};

use crate::{NoMemory, RpmbPort};

/// A port that can be told to fail. Calls of `exchange` are counted from 1 since the last arming.
pub trait CardRig: RpmbPort {
    /// Lets this many calls pass, and fails all later ones.
    fn stop_after(&mut self, calls: u64)
        ensures { Rearmed (Self.state self.old) (Self.state self.new)
            (arm_stop (Self.state self.old).arms calls) };

    /// Fails that call without reaching the card.
    ///
    /// # Errors
    ///
    /// Memory ran out; nothing changed.
    fn fail_call(&mut self, call: u64) -> Result<(), NoMemory>
        ensures ok { OnOk result (Rearmed (Self.state self.old) (Self.state self.new)
            (arm_failure (Self.state self.old).arms call)) }
        ensures err { OnErr result (Self.state self.new ≡ Self.state self.old) };

    /// Lets the card act on that call, and loses its answer.
    ///
    /// # Errors
    ///
    /// Memory ran out; nothing changed.
    fn lose_call(&mut self, call: u64) -> Result<(), NoMemory>
        ensures ok { OnOk result (Rearmed (Self.state self.old) (Self.state self.new)
            (arm_loss (Self.state self.old).arms call)) }
        ensures err { OnErr result (Self.state self.new ≡ Self.state self.old) };

    /// Removes all of these.
    fn disarm(&mut self)
        ensures rearmed { Rearmed (Self.state self.old) (Self.state self.new) no_arms }
        ensures calm { IsTrue (Self.state self.old).tells_arms → IsTrue (Self.state self.new).calm }
        ensures stays_calm { IsTrue (Self.state self.old).calm → IsTrue (Self.state self.new).calm };
}

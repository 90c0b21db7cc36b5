//! Which file a new object takes, and until when.

ghost use Rattle.std.specs.Prelude.{◌≡◌, ◌<◌, None, Some, slice_set};
ghost use Rattle.call_steps.specs.Holds.{IsLeastFreeFile};
ghost use Rattle.serial_calls.specs.FileReserving.{IsReserved, given_back, released};

use call_steps::{GuardedGate, Session};
use core_laws::StoreName;
use rpmb_card::RpmbPort;
use tee_ports::{Entropy, StoreFile};

// Ends the hold that a session has, while no commit is in doubt.
fn release<F: StoreFile + Drop, R: RpmbPort + Drop, L: StoreName>(
    gate: &mut GuardedGate<F, R, L>,
    session: u32,
)
    requires within { session < 16 }
    requires idle { gate.old.gate.doubt ≡ None }
    ensures { gate.new ≡ record gate.old { gate = record gate.old.gate { holds = released session gate.old.gate.holds } } }
{
    gate.release_file(session);
}

/// Lets a session hold the file in which its create makes the object: the least that no entry names and no session holds. What the session
/// itself held before, as of a create that was given up, is let go first. `clear` takes the slot of that file, and `give_back` ends the hold.
pub fn reserve<F: StoreFile + Drop, R: RpmbPort + Drop, L: StoreName, E: Entropy>(
    gate: &mut GuardedGate<F, R, L>,
    session: &Session<E>,
) -> u16
    requires within { session.now.number < 16 }
    requires idle { gate.old.gate.doubt ≡ None }
    ensures least { IsLeastFreeFile gate.old.gate.dir.dir.entries (released session.now.number gate.old.gate.holds) result }
    ensures reserved { IsReserved gate.new.gate session.now.number result }
    ensures same { gate.new ≡ record gate.old { gate = record gate.old.gate { holds = slice_set gate.old.gate.holds session.now.number (Some result) } } }
{
    release(gate, session.number());
    gate.reserve_file(session.number())
}

/// Ends the session's hold on a file, unless a commit is in doubt.
pub fn give_back<F: StoreFile + Drop, R: RpmbPort + Drop, L: StoreName>(
    gate: &mut GuardedGate<F, R, L>,
    session: u32,
)
    requires { session < 16 }
    ensures { gate.new ≡ given_back session gate.old }
{
    if gate.doubt().is_none() {
        gate.release_file(session);
    }
}

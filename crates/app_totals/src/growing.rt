//! Which calls may grow an object.

ghost use Rattle.std.specs.Prelude.{◌≡◌};
ghost use Rattle.app_totals.specs.Meant.{may_grow};

use tee_types::Call;

/// Whether the call may make an object, or grow one.
pub fn may_grow(call: &Call) -> bool
    ensures { result ≡ may_grow call.now }
{
    matches!(
        call,
        Call::Create { .. } | Call::Write { .. } | Call::Truncate { .. }
    )
}

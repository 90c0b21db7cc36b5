// The one error of the calls on outside objects.
ghost use Rattle.std.specs.Prelude.{◌≡◌, ◌≤◌};
ghost use Rattle.tee_ports.specs.Faults.{next_count};

/// A call on an outside object failed. `count` is the object's count of faults after it.
///
/// Each object keeps its count in 64 bits. A count that reached `u64::MAX` stands still.
#[derive(Clone, Copy, Debug, PartialEq, Eq)]
pub struct Failed {
    pub count: u64,
}

/// Counts one more fault.
pub(crate) fn count_fault(faults: &mut u64) -> Failed
    ensures rose { faults.new ≡ next_count faults.old }
    ensures rises { faults.old ≤ faults.new }
    ensures carried { result.count ≡ faults.new }
{
    *faults = faults.saturating_add(1);
    Failed { count: *faults }
}

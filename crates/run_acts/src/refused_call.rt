//! Calls that were refused under quotas.

ghost use Rattle.std.specs.Prelude.{◌≡◌, [], IfOk, replicate};
ghost use Rattle.run_acts.specs.OwnQuotas.{all_in, lists_in};

use std::alloc::Global;
use tee_types::NoMemory;

/// A call of a phase that was refused, since it would have left its application more than that may have. It has no event.
#[derive(Clone, Copy, Debug, PartialEq, Eq)]
pub struct RefusedCall {
    /// The place of its step among those of the phase.
    pub step: usize,
    /// How many events stood when it was refused.
    pub place: u64,
}

/// A list of refused calls for each of so many applications, all of them empty.
///
/// # Errors
///
/// Memory ran out.
pub(crate) fn empty_lists(alloc: Global, count: usize) -> Result<Vec<Vec<RefusedCall>>, NoMemory>
    ensures { IfOk result (λ lists. lists_in lists.items ≡ replicate count []) }
{
    let mut lists = Vec::with_capacity(alloc, count)?;
    while lists.len() < count {
        lists.push(Vec::new(alloc))?;
    }
    Ok(lists)
}

/// The refused calls of all applications, those of the first application first.
///
/// # Errors
///
/// Memory ran out.
pub(crate) fn join_lists(
    alloc: Global,
    lists: &[Vec<RefusedCall>],
) -> Result<Vec<RefusedCall>, NoMemory>
    ensures { IfOk result (λ calls. calls.items ≡ all_in (lists_in lists.now)) }
{
    let mut calls = Vec::new(alloc);
    for list in lists {
        calls.extend_from_slice(list.as_slice())?;
    }
    Ok(calls)
}

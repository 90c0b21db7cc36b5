// A store that was served under quotas, and closed.

ghost use Rattle.std.specs.Prelude.{◌≡◌, IfErr, IfOk};
ghost use Rattle.run_acts.specs.OwnQuotas.{all_in, lists_in};

use crate::refused_call::{RefusedCall, join_lists};
use object_calls::{Bench, Closed};
use std::alloc::Global;
use tee_types::NoMemory;

/// What a store leaves that was served under quotas.
#[derive(Drop)]
pub(crate) struct QuotaClosed<F, R> {
    pub(crate) closed: Closed<F, R>,
    // The calls that were refused.
    pub(crate) refused: Vec<RefusedCall>,
}

/// A store that was closed, with the refused calls of all applications.
///
/// # Errors
///
/// Memory ran out. The bench is given back alone.
pub(crate) fn with_refused<F: Drop, R: Drop>(
    alloc: Global,
    closed: Closed<F, R>,
    lists: &[Vec<RefusedCall>],
) -> Result<QuotaClosed<F, R>, Bench<F, R>>
    ensures closed { IfOk result (λ c. c.closed ≡ closed) }
    ensures refused { IfOk result (λ c. c.refused.items ≡ all_in (lists_in lists.now)) }
    ensures bench { IfErr result (λ b. b ≡ closed.bench) }
{
    match join_lists(alloc, lists) {
        Ok(refused) => Ok(QuotaClosed { closed, refused }),
        Err(NoMemory {}) => Err(closed.bench),
    }
}

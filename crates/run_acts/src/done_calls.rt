// Whether all calls were made.

ghost use Rattle.std.specs.Prelude.{◌≡◌, ◌<◌, ◌≤◌, true, false};
ghost use Rattle.std.specs.List.{sum_by};

use quota_store::Session;
use tee_ports::Entropy;

/// Whether the sessions made that many calls or more: where memory ran out in one, it made fewer than it has.
pub(crate) fn have_made<E: Entropy>(sessions: &[Session<E>], calls: usize) -> bool
    ensures made { result ≡ true → calls ≤ sum_by (λ s. s.made) sessions.now }
    ensures stopped { result ≡ false → sum_by (λ s. s.made) sessions.now < calls }
{
    let mut left = calls as u64;
    for session in sessions {
        left = left.saturating_sub(session.made());
    }
    left == 0
}

// The sessions of a phase.

ghost use Rattle.std.specs.Prelude.{◌≡◌, ◌++◌, ◌∷◌, ◌+◌, ◌*◌, ◌<◌, ◌≤◌, ◌^◌, [], length, IfOk, OnErr, OnOk};
ghost use Rattle.object_calls.specs.OpeningSessions.{AreUnseated, unseated};
ghost use Rattle.run_acts.specs.Reliable.{AreFresh, AreReliable};

use object_calls::{Opening, SessionFault};
use quota_store::Session;
use rpmb_card::RpmbPort;
use std::alloc::Global;
use tee_ports::{Entropy, StoreFile};
use tee_types::{AppId, NoMemory};

// Opens the next session, of that application.
fn open_session<F: StoreFile + Drop, R: RpmbPort + Drop, E: Entropy>(
    opening: &mut Opening<F, R>,
    app: AppId,
    entropy: E,
) -> Result<Session<E>, NoMemory>
    requires { length opening.old.applications < 16 }
    ensures session { IfOk result (λ s. s ≡ unseated (length opening.old.applications) app entropy) }
    ensures opened { OnOk result (opening.new ≡ record opening.old { applications = opening.old.applications ++ app ∷ [] }) }
    ensures same { OnErr result (opening.new ≡ opening.old) }
{
    match opening.session(app, entropy) {
        Ok(session) => Ok(session),
        Err(SessionFault::NoMemory(_)) => Err(NoMemory {}),
        Err(SessionFault::TooMany(_)) => unreachable!(),
    }
}

/// Opens a session for each application, in order. Each draws from a stream of its own: a phase has sixteen.
///
/// # Errors
///
/// Memory ran out. Some sessions may be open.
pub(crate) fn open_sessions<F: StoreFile + Drop, R: RpmbPort + Drop, E: Entropy>(
    alloc: Global,
    opening: &mut Opening<F, R>,
    entropy: &E,
    number: u64,
    applications: &[AppId],
) -> Result<Vec<Session<E>>, NoMemory>
    requires none { opening.old.applications ≡ [] }
    requires few { length applications.now ≤ 16 }
    requires number { 16 * number + 16 < 2 ^ 32 }
    ensures sessions { IfOk result (λ s. AreUnseated applications.now s.items) }
    ensures fresh { IfOk result (λ s. AreFresh E.faults s.items) }
    ensures reliable { E.is_reliable entropy.now → IfOk result (λ s. AreReliable E.is_reliable s.items) }
    ensures opened { OnOk result (opening.new ≡ record opening.old { applications = applications.now }) }
    ensures same { opening.new ≡ record opening.old { applications = opening.new.applications } }
{
    let mut sessions = Vec::new(alloc);
    for (index, app) in applications.iter().enumerate() {
        let stream = entropy.stream(16 * number + index as u64);
        sessions.push(open_session(opening, *app, stream)?)?;
    }
    Ok(sessions)
}

// Calls of one application, served one after another.

ghost use Rattle.std.specs.Prelude.{◌≡◌, ◌<◌, [], length, vec_len};
ghost use Rattle.object_calls.specs.OpenedStores.{IsStoreOf};
ghost use Rattle.object_calls.specs.Opening.{IsKeyed};
ghost use Rattle.object_calls.specs.OpeningSessions.{AreCallers, AreUnseated};

use anyhow::bail;
use hmac_keys::Keys;
use object_calls::{Closed, Opening, Service, Session, SessionFault, StoreName};
use rpmb_card::RpmbPort;
use std::alloc::Global;
use std::marker::Brand;
use tee_ports::{ListEntropy, StoreFile};
use tee_types::{AppId, Call};
use uuid::Uuid;

// The application that makes the calls.
fn application() -> AppId {
    AppId::from_uuid(Uuid::from_bytes([1; 16]))
}

// Makes a call by the first session.
fn make_call<F: StoreFile + Drop, R: RpmbPort + Drop, L: StoreName>(
    service: &mut Service<F, R, L>,
    sessions: &mut [Session<ListEntropy>],
    call: &Call,
)
    requires callers { AreCallers L.store sessions.old }
    requires some { 0 < length sessions.old }
    ensures callers { AreCallers L.store sessions.new }
{
    let _ = service.call(&mut sessions[0], call);
}

// Makes calls by the first session.
fn make_calls<F: StoreFile + Drop, R: RpmbPort + Drop, L: StoreName>(
    service: &mut Service<F, R, L>,
    sessions: &mut [Session<ListEntropy>],
    calls: &[Call],
)
    requires callers { AreCallers L.store sessions.old }
    requires some { 0 < length sessions.old }
    ensures callers { AreCallers L.store sessions.new }
{
    for call in calls {
        make_call(service, sessions, call);
    }
}

// Makes calls by the first session, and closes the store.
fn make_and_close<F: StoreFile + Drop, R: RpmbPort + Drop, L: StoreName>(
    service: Service<F, R, L>,
    sessions: Vec<Session<ListEntropy>>,
    calls: &[Call],
) -> Closed<F, R>
    requires callers { AreCallers L.store sessions.items }
    requires some { 0 < vec_len sessions }
{
    let mut service = service;
    let mut sessions = sessions;
    make_calls(&mut service, &mut sessions, calls);
    service.finish(sessions)
}

// Serves the store that `L` names. Only contracts read the keys: they name the store.
fn serve_named<F: StoreFile + Drop, R: RpmbPort + Drop, L: StoreName>(
    opening: Opening<F, R>,
    sessions: Vec<Session<ListEntropy>>,
    _keys: &Keys,
    calls: &[Call],
) -> anyhow::Result<Closed<F, R>>
    requires store { IsStoreOf F.state L.store opening }
    requires sessions { AreUnseated opening.applications sessions.items }
    requires some { 0 < vec_len sessions }
{
    let mut sessions = sessions;
    match opening.serve::<ListEntropy, L>(&mut sessions) {
        Ok(service) => Ok(make_and_close(service, sessions, calls)),
        Err(_) => bail!("memory ran out"),
    }
}

// Serves the store under a name of its own.
fn serve_sessions<F: StoreFile + Drop, R: RpmbPort + Drop>(
    opening: Opening<F, R>,
    sessions: Vec<Session<ListEntropy>>,
    keys: &Keys,
    calls: &[Call],
) -> anyhow::Result<Closed<F, R>>
    requires keyed { IsKeyed keys.now opening }
    requires sessions { AreUnseated opening.applications sessions.items }
    requires some { 0 < vec_len sessions }
{
    serve_named::<F, R, Brand>(opening, sessions, keys, calls)
}

/// Makes the calls one after another, whatever they are answered, and closes the store. The keys are those that it was mounted with.
///
/// # Errors
///
/// Memory ran out.
pub fn serve_calls<F: StoreFile + Drop, R: RpmbPort + Drop>(
    alloc: Global,
    opening: Opening<F, R>,
    keys: &Keys,
    entropy: ListEntropy,
    calls: &[Call],
) -> anyhow::Result<Closed<F, R>>
    requires keyed { IsKeyed keys.now opening }
    requires none { opening.applications ≡ [] }
{
    let mut opening = opening;
    let mut sessions = Vec::with_capacity(alloc, 1)?;
    match opening.session(application(), entropy) {
        Ok(session) => sessions.push(session)?,
        Err(SessionFault::NoMemory(_) | SessionFault::TooMany(_)) => bail!("no session"),
    }
    serve_sessions(opening, sessions, keys, calls)
}

//! Calls of one application, served one after another.

ghost use Rattle.std.specs.Prelude.{◌≡◌, ◌<◌, [], length, vec_len};
ghost use Rattle.object_calls.specs.OpenedStores.{IsStoreOf};
ghost use Rattle.object_calls.specs.Opening.{IsKeyed};
ghost use Rattle.object_calls.specs.OpeningSessions.{AreCallers, AreUnseated};

use crate::faults::Fault;
use crate::kinds::{Kind, kind_of_reply};
use hmac_keys::Keys;
use object_calls::{Closed, Opening, Service, Session, SessionFault, StoreName};
use rpmb_card::RpmbPort;
use seed_words::SeedEntropy;
use std::alloc::Global;
use std::marker::Brand;
use tee_ports::{Entropy, StoreFile};
use tee_types::{AppId, Call, Reply};

/// Who makes calls: an application, with the random bytes of its session.
#[derive(Drop)]
pub struct Caller {
    pub app: AppId,
    pub entropy: SeedEntropy,
}

// Makes a call by the first session.
fn make_call<F: StoreFile + Drop, R: RpmbPort + Drop, L: StoreName>(
    service: &mut Service<F, R, L>,
    sessions: &mut [Session<SeedEntropy>],
    call: &Call,
) -> Reply
    requires callers { AreCallers L.store sessions.old }
    requires some { 0 < length sessions.old }
    ensures callers { AreCallers L.store sessions.new }
{
    let answer = service.call(&mut sessions[0], call);
    answer.reply
}

// Makes calls by the first session, up to the first that is not done, whose reply is the error.
fn make_calls<F: StoreFile + Drop, R: RpmbPort + Drop, L: StoreName>(
    service: &mut Service<F, R, L>,
    sessions: &mut [Session<SeedEntropy>],
    calls: &[Call],
    replies: &mut Vec<Reply>,
) -> Result<(), Reply>
    requires callers { AreCallers L.store sessions.old }
    requires some { 0 < length sessions.old }
    ensures callers { AreCallers L.store sessions.new }
{
    for call in calls {
        let reply = make_call(service, sessions, call);
        if kind_of_reply(&reply) != Kind::Done {
            return Err(reply);
        }
        if replies.push(reply).is_err() {
            return Err(Reply::NoMemory);
        }
    }
    Ok(())
}

// Makes the calls by the first session, and closes the store.
fn make_and_close<F: StoreFile + Drop, R: RpmbPort + Drop, L: StoreName>(
    service: Service<F, R, L>,
    sessions: Vec<Session<SeedEntropy>>,
    calls: &[Call],
    replies: Vec<Reply>,
) -> Result<Vec<Reply>, Fault>
    requires callers { AreCallers L.store sessions.items }
    requires some { 0 < vec_len sessions }
{
    let mut service = service;
    let mut sessions = sessions;
    let mut replies = replies;
    let made = make_calls(&mut service, &mut sessions, calls, &mut replies);
    let Closed { doubt, .. } = service.finish(sessions);
    match made {
        Ok(()) => Ok(replies),
        Err(reply) => Err(Fault::Call {
            reply,
            in_doubt: doubt.is_some(),
        }),
    }
}

// Serves the store that `L` names. Only contracts read the keys: they name the store.
fn serve_named<F: StoreFile + Drop, R: RpmbPort + Drop, L: StoreName>(
    opening: Opening<F, R>,
    sessions: Vec<Session<SeedEntropy>>,
    _keys: &Keys,
    calls: &[Call],
    replies: Vec<Reply>,
) -> Result<Vec<Reply>, Fault>
    requires store { IsStoreOf F.state L.store opening }
    requires sessions { AreUnseated opening.applications sessions.items }
    requires some { 0 < vec_len sessions }
{
    let mut sessions = sessions;
    match opening.serve::<SeedEntropy, L>(&mut sessions) {
        Ok(service) => make_and_close(service, sessions, calls, replies),
        Err(_) => Err(Fault::NoMemory),
    }
}

// Serves the store under a name of its own.
fn serve_sessions<F: StoreFile + Drop, R: RpmbPort + Drop>(
    opening: Opening<F, R>,
    sessions: Vec<Session<SeedEntropy>>,
    keys: &Keys,
    calls: &[Call],
    replies: Vec<Reply>,
) -> Result<Vec<Reply>, Fault>
    requires keyed { IsKeyed keys.now opening }
    requires sessions { AreUnseated opening.applications sessions.items }
    requires some { 0 < vec_len sessions }
{
    serve_named::<F, R, Brand>(opening, sessions, keys, calls, replies)
}

/// Makes the calls of an application one after another, up to the first that is not done, and closes the store. The keys are
/// those that it was mounted with.
///
/// # Errors
///
/// The reply of the call that was not done, and whether a commit was in doubt at the end; or memory ran out, and no call was
/// made.
pub fn serve_calls<F: StoreFile + Drop, R: RpmbPort + Drop>(
    alloc: Global,
    opening: Opening<F, R>,
    keys: &Keys,
    caller: &Caller,
    calls: &[Call],
) -> Result<Vec<Reply>, Fault>
    requires keyed { IsKeyed keys.now opening }
    requires none { opening.applications ≡ [] }
{
    let mut opening = opening;
    let mut sessions = Vec::with_capacity(alloc, 1)?;
    let replies = Vec::with_capacity(alloc, calls.len())?;
    match opening.session(caller.app, caller.entropy.stream(0)) {
        Ok(session) => sessions.push(session)?,
        Err(SessionFault::NoMemory(_) | SessionFault::TooMany(_)) => return Err(Fault::NoMemory),
    }
    serve_sessions(opening, sessions, keys, calls, replies)
}

//! The memory that the sessions of a store need under quotas.

ghost use Rattle.std.specs.Prelude.{◌≡◌, ◌≤◌, IfOk, vec_len};
ghost use Rattle.std.specs.Vec.{vec_capacity};

use crate::app_halves::AppHalves;
use crate::places::EmptyPlaces;
use crate::quota_session::QuotaSession;
use shared_store::{Session, StoreName};
use std::alloc::Global;
use std::sync::Mutex;
use tee_ports::Entropy;
use tee_types::{MAX_SESSIONS, NoMemory};

/// The memory that the sessions of a store need to be joined again, once they were cut for quotas.
#[derive(Drop)]
pub struct JoinRoom<E> {
    pub(crate) places: EmptyPlaces,
    pub(crate) sessions: Vec<Session<E>>,
    ghost empty: { vec_len sessions ≡ 0 },
    ghost room: { 16 ≤ vec_capacity sessions },
}

/// The memory that the sessions of a store need under quotas. It is taken before the store is served, so that nothing behind can fail for
/// want of it.
#[derive(Drop)]
pub struct QuotaRoom<E, L: StoreName> {
    // For the kept halves of all sessions, and for those of each application.
    pub(crate) places: EmptyPlaces,
    pub(crate) app_places: Vec<EmptyPlaces>,
    pub(crate) locks: Vec<Mutex<AppHalves<L>>>,
    pub(crate) sessions: Vec<QuotaSession<E>>,
    pub(crate) join: JoinRoom<E>,
    ghost many: { vec_len app_places ≡ 16 },
    ghost unlocked: { vec_len locks ≡ 0 },
    ghost lock_room: { 16 ≤ vec_capacity locks },
    ghost empty: { vec_len sessions ≡ 0 },
    ghost room: { 16 ≤ vec_capacity sessions },
}

impl<E: Entropy> JoinRoom<E> {
    // Takes the memory.
    fn make(alloc: Global) -> Result<JoinRoom<E>, NoMemory> {
        Ok(JoinRoom {
            places: EmptyPlaces::make(alloc)?,
            sessions: Vec::with_capacity(alloc, MAX_SESSIONS)?,
        })
    }
}

// Places for the kept halves of each application's sessions.
fn make_app_places(alloc: Global) -> Result<Vec<EmptyPlaces>, NoMemory>
    ensures { IfOk result (λ places. vec_len places ≡ 16) }
{
    let mut places = Vec::with_capacity(alloc, MAX_SESSIONS)?;
    for _ in 0..MAX_SESSIONS {
        places.push(EmptyPlaces::make(alloc)?)?;
    }
    Ok(places)
}

impl<E: Entropy, L: StoreName> QuotaRoom<E, L> {
    /// Takes the memory: it is enough for as many sessions as a store may have.
    ///
    /// # Errors
    ///
    /// Memory ran out.
    pub fn make(alloc: Global) -> Result<QuotaRoom<E, L>, NoMemory> {
        Ok(QuotaRoom {
            places: EmptyPlaces::make(alloc)?,
            app_places: make_app_places(alloc)?,
            locks: Vec::with_capacity(alloc, MAX_SESSIONS)?,
            sessions: Vec::with_capacity(alloc, MAX_SESSIONS)?,
            join: JoinRoom::make(alloc)?,
        })
    }
}

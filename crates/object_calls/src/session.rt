//! The sessions of a mounted store, before it is served.

ghost use Rattle.std.specs.Prelude.{◌≡◌, ◌++◌, ◌∷◌, [], length, IfErr, IfOk, OnErr, OnOk};
ghost use Rattle.object_calls.specs.OpeningSessions.{IsSessionRefused, unseated};

use crate::opening::Opening;
use rpmb_card::RpmbPort;
use serial_calls::Session;
use store_model::Session as SessionState;
use tee_ports::{Entropy, StoreFile};
use tee_types::{AppId, MAX_SESSIONS};

/// Why a session was not opened. What it would have drawn from is given back.
#[derive(Drop)]
pub enum SessionFault<E> {
    /// There are sixteen sessions.
    TooMany(E),
    /// Memory ran out.
    NoMemory(E),
}

impl<F: StoreFile + Drop, R: RpmbPort + Drop> Opening<F, R> {
    /// Opens the next session, of that application. Sessions are numbered from 0. A session has its seat once the store is served.
    ///
    /// # Errors
    ///
    /// `TooMany` exactly where there are sixteen, and `NoMemory`. Nothing changed.
    pub fn session<E: Entropy>(
        &mut self,
        app: AppId,
        entropy: E,
    ) -> Result<Session<E>, SessionFault<E>>
        ensures session { IfOk result (λ s. s ≡ unseated (length self.old.applications) app entropy) }
        ensures opened { OnOk result (self.new ≡ record self.old { applications = self.old.applications ++ app ∷ [] }) }
        ensures refused { IfErr result (IsSessionRefused (length self.old.applications) entropy) }
        ensures same { OnErr result (self.new ≡ self.old) }
    {
        let number = self.applications.len();
        if number >= MAX_SESSIONS {
            return Err(SessionFault::TooMany(entropy));
        }
        let Ok(state) = SessionState::new(self.alloc, app) else {
            return Err(SessionFault::NoMemory(entropy));
        };
        if self.applications.push(app).is_err() {
            return Err(SessionFault::NoMemory(entropy));
        }
        Ok(Session::new(number as u32, state, entropy))
    }
}

//! A session under quotas.

ghost use Rattle.std.specs.Prelude.{◌≡◌, None, Some};
ghost use Rattle.history_seats.specs.Views.{PassView, Sight};

use app_totals::Totals;
use history_seats::HalfSeat;
use shared_store::Session;
use std::marker::Model;
use tee_ports::Entropy;
use tee_types::AppId;

/// The session of an application under quotas, which belongs to one caller: half of its seat is here, and the other behind the lock of its
/// application.
#[derive(Drop)]
pub struct QuotaSession<E> {
    // Without its seat.
    pub(crate) session: Session<E>,
    // None while it is lent.
    pub(crate) half: Option<HalfSeat>,
    pub(crate) limit: Totals,
    // The place of its application's lock.
    pub(crate) lock: usize,
}

impl<E> Model for QuotaSession<E> {
    ghost use Rattle.quota_store.specs.Callers.{QuotaCaller};

    ghost Value = { QuotaCaller E };

    ghost view = { λ s. record { caller = record s.session { pass = s.half }; limit = s.limit } };
}

impl<E: Entropy> QuotaSession<E> {
    /// Its number.
    pub fn number(&self) -> u32
        ensures { result ≡ self.now.caller.number }
    {
        self.session.number()
    }

    /// Its application.
    pub fn app(&self) -> AppId
        ensures { result ≡ self.now.caller.state.application }
    {
        self.session.app()
    }

    /// How many events it has.
    pub fn made(&self) -> u64
        ensures { result ≡ self.now.caller.made }
    {
        self.session.made()
    }

    /// What its application may have.
    pub fn limit(&self) -> Totals
        ensures { result ≡ self.now.limit }
    {
        self.limit
    }

    // Tells it where the lock of that application is, if it is of that application.
    pub(crate) fn tell_lock(&mut self, app: AppId, lock: usize)
        ensures { self.new ≡ self.old }
    {
        if self.app() != app {
            return;
        }
        self.lock = lock;
    }

    // Lends its half of the seat.
    pub(crate) fn lend_half(&mut self) -> HalfSeat
        requires { (half : Sight PassView) × (self.old.caller.pass ≡ Some half) }
        ensures session { self.new ≡ record self.old { caller = record self.old.caller { pass = None } } }
        ensures half { self.old.caller.pass ≡ Some result }
    {
        let Some(half) = self.half.take() else {
            unreachable!()
        };
        half
    }
}

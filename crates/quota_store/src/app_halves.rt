//! The kept halves of the seats of one application's sessions.

ghost use Rattle.std.specs.Prelude.{◌≡◌, None, Some, slice_set};
ghost use Rattle.std.specs.Option.{option_map};
ghost use Rattle.history_seats.specs.Rule.{PassFits};
ghost use Rattle.history_seats.specs.Views.{PassView, Sight};
ghost use Rattle.quota_store.specs.Halves.{AllFit, AreAppHalves, AreHalves, half_shown, halves_shown, kept_at};

use history_seats::KeptSeat;
use rpmb_card::RpmbPort;
use shared_store::{GuardedGate, StoreName};
use std::marker::{Model, PhantomData};
use tee_ports::StoreFile;
use tee_types::AppId;

/// The kept halves of the seats of one application's sessions, as they stand behind the application's lock.
#[derive(Drop)]
pub struct AppHalves<L: StoreName> {
    // Who changes it shows what holds of it before the lock is given back.
    pub(crate) app: AppId,
    // By the number of each session; none where a session is another application's.
    pub(crate) kept: Vec<Option<KeptSeat>>,
    of: PhantomData<L>,
}

impl<L: StoreName> Model for AppHalves<L> {
    ghost use Rattle.quota_store.specs.Halves.{AreAppHalves, HalvesValue};

    ghost Value = { HalvesValue };

    ghost view = { λ h. record { app = h.app; kept = h.kept.items } };

    ghost invariant = { λ h. AreAppHalves L.store (record { app = h.app; kept = h.kept.items }) };
}

impl<L: StoreName> AppHalves<L> {
    /// Puts the halves behind their lock.
    pub(crate) fn new(app: AppId, kept: Vec<Option<KeptSeat>>) -> AppHalves<L>
        requires { AreAppHalves L.store (record { app = app; kept = kept.items }) }
        ensures { result ≡ record { app = app; kept = kept.items } }
    {
        AppHalves {
            app,
            kept,
            of: PhantomData,
        }
    }

    /// The halves, by the number of each session.
    pub(crate) fn into_kept(self) -> Vec<Option<KeptSeat>>
        ensures kept { result.items ≡ self.kept }
        // What always holds of them.
        ensures halves { AreHalves L.store result.items }
    {
        let AppHalves {
            app: _,
            kept,
            of: _,
        } = self;
        kept
    }
}

/// Takes the kept half of that session out, if it is here.
pub(crate) fn take_half(kept: &mut Vec<Option<KeptSeat>>, session: u32) -> Option<KeptSeat>
    ensures half { result ≡ kept_at kept.old.items session }
    ensures left { kept.new.items ≡ slice_set kept.old.items session None }
{
    let place = session as usize;
    if place >= kept.len() {
        return None;
    }
    kept[place].take()
}

/// Puts a kept half to the place of its session, where there is one.
pub(crate) fn put_half(kept: &mut Vec<Option<KeptSeat>>, half: KeptSeat)
    ensures { kept.new.items ≡ slice_set kept.old.items half.knows.session (Some half) }
{
    let place = half.session() as usize;
    if place >= kept.len() {
        return;
    }
    kept[place] = Some(half);
}

// Shows a kept half, if it is here, the whole history.
fn show_half<F: StoreFile + Drop, R: RpmbPort + Drop, L: StoreName>(
    gate: &mut GuardedGate<F, R, L>,
    half: &mut Option<KeptSeat>,
)
    requires { (h : Sight PassView) → half.old ≡ Some h → h.table ≡ L.store.table }
    ensures same { gate.new ≡ gate.old }
    ensures shown { half.new ≡ option_map (half_shown gate.old.journal.knows) half.old }
    ensures fits { (h : Sight PassView) → half.old ≡ Some h → PassFits gate.old.journal.knows h.knows }
{
    let Some(seat) = half.take() else { return };
    *half = Some(gate.show_kept(seat));
}

/// Shows all kept halves the whole history: past what each saw, its session has no event.
pub(crate) fn show_halves<F: StoreFile + Drop, R: RpmbPort + Drop, L: StoreName>(
    gate: &mut GuardedGate<F, R, L>,
    kept: &mut [Option<KeptSeat>],
)
    requires { AreHalves L.store kept.old }
    ensures same { gate.new ≡ gate.old }
    ensures shown { kept.new ≡ halves_shown gate.old.journal.knows kept.old }
    ensures fits { AllFit gate.old.journal.knows kept.old }
{
    for half in kept.iter_mut() {
        show_half(gate, half);
    }
}

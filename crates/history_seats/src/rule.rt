//! The rule of the table, and its kinds of step.

use atomic_table::{Join, Play, Split, TableRule};
use std::marker::{Brand, Model, PhantomData};

/// What a seat knows of the history. Contracts see a `SeatView`; no value of this type is made.
pub struct View {
    blank: (),
}

impl Model for View {
    ghost use Rattle.history_seats.specs.Views.{SeatView};
    ghost use Rattle.history_seats.specs.Views.SeatView.{Spent};

    ghost Value = { SeatView };

    ghost view = { λ _. Spent };
}

/// The rule of seats.
pub struct Law;

impl TableRule<(), View, ()> for Law {
    ghost use Rattle.history_seats.specs.Rule.{SeatRule};
    ghost use Rattle.history_seats.specs.Views.{alone, new_gate};
    ghost use Rattle.history_seats.specs.Views.SeatView.{Gate};

    ghost holds = { λ _ s. SeatRule s.words s.views };

    ghost first = { λ _. Gate (alone new_gate) };
}

/// Names the file, the generation and the mount where a slot's seat is split.
pub trait SlotName {
    ghost use Rattle.std.specs.Prelude.{ℕ};
    ghost use Rattle.history_seats.specs.Mounts.{Mounted};

    ghost mounted: { Mounted };

    ghost file: { ℕ };

    ghost generation: { ℕ };
}

impl SlotName for Brand {
    ghost use Rattle.history_seats.specs.Views.{no_mount};

    ghost mounted = { no_mount };

    ghost file = { 0 };

    ghost generation = { 0 };
}

/// Names the session and the mount where a pass is split.
pub trait PassName {
    ghost use Rattle.std.specs.Prelude.{ℕ};
    ghost use Rattle.history_seats.specs.Mounts.{Mounted};

    ghost mounted: { Mounted };

    ghost session: { ℕ };
}

impl PassName for Brand {
    ghost use Rattle.history_seats.specs.Views.{no_mount};

    ghost mounted = { no_mount };

    ghost session = { 0 };
}

/// Names a record that is appended.
pub trait RecordName {
    ghost use Rattle.history_seats.specs.Records.{HistoryRecord};

    ghost entry: { HistoryRecord };
}

impl RecordName for Brand {
    ghost use Rattle.history_seats.specs.Changes.{landing_of};

    ghost entry = { landing_of 0 };
}

/// A new slot's seat is split from the gate's.
pub struct NewSlot<N> {
    of: PhantomData<N>,
}

impl<N: SlotName> Split<View> for NewSlot<N> {
    ghost use Rattle.history_seats.specs.Changes.{with_slot_out, new_slot};
    ghost use Rattle.history_seats.specs.Steps.{on_gate, slot_from};

    ghost left = { on_gate (with_slot_out N.mounted N.file) };

    ghost right = { slot_from (new_slot N.mounted N.file N.generation) };
}

/// A new pass is split from the gate's seat.
pub struct NewPass<N> {
    of: PhantomData<N>,
}

impl<N: PassName> Split<View> for NewPass<N> {
    ghost use Rattle.history_seats.specs.Changes.{with_pass_out, new_pass};
    ghost use Rattle.history_seats.specs.Steps.{on_gate, pass_from};

    ghost left = { on_gate (with_pass_out N.mounted N.session) };

    ghost right = { pass_from (new_pass N.mounted N.session) };
}

/// A slot's seat is joined to the gate's, and split off again.
pub struct SlotInside;

impl Join<View> for SlotInside {
    ghost use Rattle.history_seats.specs.Steps.{slot_taken_in, spent};

    ghost both = { slot_taken_in };

    ghost spent = { spent };
}

impl Split<View> for SlotInside {
    ghost use Rattle.history_seats.specs.Steps.{slot_let_out, slot_inside};

    ghost left = { slot_let_out };

    ghost right = { slot_inside };
}

/// A pass is joined to the gate's seat, and split off again.
pub struct PassInside;

impl Join<View> for PassInside {
    ghost use Rattle.history_seats.specs.Steps.{pass_taken_in, spent};

    ghost both = { pass_taken_in };

    ghost spent = { spent };
}

impl Split<View> for PassInside {
    ghost use Rattle.history_seats.specs.Steps.{pass_let_out, pass_inside};

    ghost left = { pass_let_out };

    ghost right = { pass_inside };
}

/// A pass is cut in two halves.
pub struct Halving;

impl Split<View> for Halving {
    ghost use Rattle.history_seats.specs.Steps.{half_cut, half_kept};

    ghost left = { half_cut };

    ghost right = { half_kept };
}

/// Two halves are one pass again.
pub struct Mending;

impl Join<View> for Mending {
    ghost use Rattle.history_seats.specs.Steps.{made_whole, spent};

    ghost both = { made_whole };

    ghost spent = { spent };
}

/// A kept half is joined to the gate's seat, and split off again.
pub struct KeptInside;

impl Join<View> for KeptInside {
    ghost use Rattle.history_seats.specs.Steps.{kept_taken_in, spent};

    ghost both = { kept_taken_in };

    ghost spent = { spent };
}

impl Split<View> for KeptInside {
    ghost use Rattle.history_seats.specs.Steps.{kept_let_out, kept_inside};

    ghost left = { kept_let_out };

    ghost right = { kept_inside };
}

/// A record is appended, and what was joined sees it.
pub struct Appends<N> {
    of: PhantomData<N>,
}

impl<N: RecordName> Play<(), View> for Appends<N> {
    ghost use Rattle.std.specs.Prelude.{◌≡◌};
    ghost use Rattle.history_seats.specs.Steps.{Moved, appended};

    ghost then = { λ s v found w. Moved (appended N.entry) v.0 found w.0 × (w.1 ≡ v.1) };
}

/// The open doubt landed.
pub struct Lands<N> {
    of: PhantomData<N>,
}

impl<N: RecordName> Play<(), View> for Lands<N> {
    ghost use Rattle.std.specs.Prelude.{◌≡◌};
    ghost use Rattle.history_seats.specs.Steps.{Moved, landing_appended};

    ghost then = { λ s v found w. Moved (landing_appended N.entry) v.0 found w.0 × (w.1 ≡ v.1) };
}

/// No doubt of now lands any more.
pub struct Drops;

impl Play<(), View> for Drops {
    ghost use Rattle.std.specs.Prelude.{◌≡◌};
    ghost use Rattle.history_seats.specs.Steps.{Moved, doubts_dropped};

    ghost then = { λ s v found w. Moved doubts_dropped v.0 found w.0 × (w.1 ≡ v.1) };
}

/// What was joined stays for good.
pub struct Retires;

impl Play<(), View> for Retires {
    ghost use Rattle.std.specs.Prelude.{◌≡◌};
    ghost use Rattle.history_seats.specs.Steps.{Moved, retired};

    ghost then = { λ s v found w. Moved retired v.0 found w.0 × (w.1 ≡ v.1) };
}

/// What was joined sees the whole history.
pub struct Looks;

impl Play<(), View> for Looks {
    ghost use Rattle.std.specs.Prelude.{◌≡◌};
    ghost use Rattle.history_seats.specs.Steps.{Moved, renewed};

    ghost then = { λ s v found w. Moved renewed v.0 found w.0 × (w.1 ≡ v.1) };
}

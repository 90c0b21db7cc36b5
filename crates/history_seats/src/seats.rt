//! The table, and the seats of the gate, of files and of sessions.

ghost use Rattle.std.specs.Prelude.{◌≡◌, IfOk};
ghost use Rattle.history_seats.specs.Views.{new_gate};

use crate::rule::{Law, View};
use atomic_table::{Seat, Table};
use std::alloc::Global;
use std::marker::Model;
use tee_types::NoMemory;

/// The table, whose word 0 is the length of the history.
#[derive(Drop)]
pub struct HistoryTable {
    pub(crate) table: Table<(), View, (), Law, Global>,
}

impl Model for HistoryTable {
    ghost use Rattle.std.specs.Prelude.{◌≡◌};
    ghost use Rattle.atomic_table.specs.Seated.{TableId};

    ghost Value = { TableId };

    ghost view = { λ t. t.table.shared.table_id };

    ghost invariant = { λ t. (t.table.shared.table_id.words ≡ 1) × (t.table.shared.table_id.slots ≡ 0) };
}

/// The seat of the gate. It knows the whole history.
#[derive(Drop)]
pub struct GateSeat {
    pub(crate) seat: Seat<(), View>,
}

impl Model for GateSeat {
    ghost use Rattle.std.specs.Prelude.{◌≡◌, []};
    ghost use Rattle.history_seats.specs.Views.{Sight, GateView, alone, gate_of};
    ghost use Rattle.history_seats.specs.Views.SeatView.{Gate};

    ghost Value = { Sight GateView };

    ghost view = { λ s. record { table = s.seat.table_id; knows = (gate_of s.seat.me.0).gate } };

    ghost invariant = { λ s. s.seat.me ≡ (Gate (alone (gate_of s.seat.me.0).gate), []) };
}

/// The seat of a file.
#[derive(Drop)]
pub struct SlotSeat {
    pub(crate) seat: Seat<(), View>,
    pub(crate) file: u16,
    pub(crate) generation: u32,
}

impl Model for SlotSeat {
    ghost use Rattle.std.specs.Prelude.{◌≡◌, []};
    ghost use Rattle.history_seats.specs.Views.{Sight, SlotView, slot_of};
    ghost use Rattle.history_seats.specs.Views.SeatView.{Slot};

    ghost Value = { Sight SlotView };

    ghost view = { λ s. record { table = s.seat.table_id; knows = slot_of s.seat.me.0 } };

    ghost invariant = { λ s. (s.seat.me ≡ (Slot (slot_of s.seat.me.0), [])) × (s.file ≡ (slot_of s.seat.me.0).file) × (s.generation ≡ (slot_of s.seat.me.0).generation) };
}

/// The seat of a session.
#[derive(Drop)]
pub struct PassSeat {
    pub(crate) seat: Seat<(), View>,
    pub(crate) session: u32,
}

impl Model for PassSeat {
    ghost use Rattle.std.specs.Prelude.{◌≡◌, []};
    ghost use Rattle.history_seats.specs.Views.{Sight, PassView, pass_of};
    ghost use Rattle.history_seats.specs.Views.SeatView.{Pass};

    ghost Value = { Sight PassView };

    ghost view = { λ s. record { table = s.seat.table_id; knows = pass_of s.seat.me.0 } };

    ghost invariant = { λ s. (s.seat.me ≡ (Pass (pass_of s.seat.me.0), [])) × (s.session ≡ (pass_of s.seat.me.0).session) };
}

/// The half of a session's seat that its caller has. Nothing is appended with it alone.
#[derive(Drop)]
pub struct HalfSeat {
    pub(crate) seat: Seat<(), View>,
    pub(crate) session: u32,
}

impl Model for HalfSeat {
    ghost use Rattle.std.specs.Prelude.{◌≡◌, []};
    ghost use Rattle.history_seats.specs.Views.{Sight, PassView, half_of};
    ghost use Rattle.history_seats.specs.Views.SeatView.{Half};

    ghost Value = { Sight PassView };

    ghost view = { λ s. record { table = s.seat.table_id; knows = half_of s.seat.me.0 } };

    ghost invariant = { λ s. (s.seat.me ≡ (Half (half_of s.seat.me.0), [])) × (s.session ≡ (half_of s.seat.me.0).session) };
}

/// The other half, which is kept elsewhere. Whoever has it knows that the session has no event past its view.
#[derive(Drop)]
pub struct KeptSeat {
    pub(crate) seat: Seat<(), View>,
    pub(crate) session: u32,
}

impl Model for KeptSeat {
    ghost use Rattle.std.specs.Prelude.{◌≡◌, []};
    ghost use Rattle.history_seats.specs.Views.{Sight, PassView, kept_of};
    ghost use Rattle.history_seats.specs.Views.SeatView.{Kept};

    ghost Value = { Sight PassView };

    ghost view = { λ s. record { table = s.seat.table_id; knows = kept_of s.seat.me.0 } };

    ghost invariant = { λ s. (s.seat.me ≡ (Kept (kept_of s.seat.me.0), [])) × (s.session ≡ (kept_of s.seat.me.0).session) };
}

impl HalfSeat {
    /// The session's number.
    pub fn session(&self) -> u32
        ensures { result ≡ self.now.knows.session }
    {
        self.session
    }
}

impl KeptSeat {
    /// The session's number.
    pub fn session(&self) -> u32
        ensures { result ≡ self.now.knows.session }
    {
        self.session
    }
}

impl SlotSeat {
    /// The file.
    pub fn file(&self) -> u16
        ensures { result ≡ self.now.knows.file }
    {
        self.file
    }

    /// The generation of the file.
    pub fn generation(&self) -> u32
        ensures { result ≡ self.now.knows.generation }
    {
        self.generation
    }
}

impl PassSeat {
    /// The session's number.
    pub fn session(&self) -> u32
        ensures { result ≡ self.now.knows.session }
    {
        self.session
    }
}

impl HistoryTable {
    /// A table with an empty history, and the gate's seat.
    pub fn make(alloc: Global) -> Result<(HistoryTable, GateSeat), NoMemory>
        ensures { IfOk result (λ r. (r.1.table ≡ r.0) × (r.1.knows ≡ new_gate)) }
    {
        let (table, seat) = Table::of_words(alloc, &[0], &())?;
        Ok((HistoryTable { table }, GateSeat { seat }))
    }
}

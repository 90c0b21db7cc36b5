//! The gate of a phase.

ghost use Rattle.std.specs.Prelude.{◌≡◌, ◌≤◌, ◌<◌, ◌^◌, OnOk};
ghost use Rattle.std.specs.Option.{option_map};
ghost use Rattle.crash_core.specs.DirectoryLaws.{AreEntries};
ghost use Rattle.store_commit.specs.Gates.{DoubtStands, gate_sides};
ghost use Rattle.commit_gate.specs.KnownMachine.{KnowsMachine};

use crate::{Journal, Session};
use core_laws::StoreName;
use rpmb_card::RpmbPort;
use std::marker::Model;
use store_commit::Gate;
use tee_ports::{Entropy, StoreFile};
use tee_types::NoMemory;

/// A handle of a session.
#[derive(Clone, Copy, PartialEq, Eq, Debug)]
pub struct Closing {
    /// The session's number.
    pub session: u32,
    /// The handle's number.
    pub handle: u32,
}

/// The commit gate of the store that `L` names, with the history of its calls, as both stand behind one lock.
#[derive(Drop)]
pub struct GuardedGate<F: StoreFile + Drop, R: RpmbPort + Drop, L: StoreName> {
    pub(crate) gate: Gate<F, R>,
    pub(crate) journal: Journal<L>,
    // The handle that the landing of the commit in doubt closes, where that is a delete.
    pub(crate) closing: Option<Closing>,
}

impl<F: StoreFile + Drop, R: RpmbPort + Drop, L: StoreName> Model for GuardedGate<F, R, L> {
    ghost use Rattle.commit_gate.specs.GuardedGates.{GateInvariant, GuardedGateValue};

    ghost Value = { GuardedGateValue F R };

    ghost view = { λ g. record { gate = g.gate; journal = g.journal; closing = g.closing } };

    ghost invariant = { λ g. GateInvariant L.store g.gate g.journal.knows g.closing };
}

impl<F: StoreFile + Drop, R: RpmbPort + Drop, L: StoreName> GuardedGate<F, R, L> {
    ghost use Rattle.std.specs.Prelude.{None};
    ghost use Rattle.commit_gate.specs.GuardedGates.{GateInvariant};

    /// The gate of a mounted store and its journal, behind one lock.
    pub fn new(gate: Gate<F, R>, journal: Journal<L>) -> GuardedGate<F, R, L>
        requires { GateInvariant L.store gate journal.knows None }
        ensures { result ≡ record { gate = gate; journal = journal; closing = None } }
    {
        GuardedGate {
            gate,
            journal,
            closing: None,
        }
    }

    /// The gate, and the journal.
    pub fn into_parts(self) -> (Gate<F, R>, Journal<L>)
        ensures gate { result.0 ≡ self.gate }
        ensures journal { result.1 ≡ self.journal }
        ensures tied { GateInvariant L.store self.gate self.journal.knows self.closing }
    {
        let GuardedGate {
            gate,
            journal,
            closing: _,
        } = self;
        (gate, journal)
    }

    /// The number of the commit in doubt, if one is.
    pub fn doubt(&self) -> Option<u32>
        ensures { result ≡ option_map (λ d. d.number) self.now.gate.doubt }
    {
        self.gate.doubt()
    }

    /// Tells a caller's proof what always holds behind the lock; at run time it does nothing.
    pub fn reveal_invariant(&self)
        // What always holds behind the lock, and what the entries and the open handles tell of the machine.
        ensures guarded { GateInvariant L.store self.now.gate self.now.journal.knows self.now.closing }
        ensures entries { AreEntries self.now.gate.dir.dir.entries }
        ensures machine { KnowsMachine L.store self.now.journal.knows self.now.gate.dir.dir.entries self.now.gate.open_handles }
        // How directory and card stand to each other.
        ensures stands { DoubtStands (gate_sides F.state R.state self.now.gate) self.now.gate.doubt }
        ensures counter { self.now.gate.counter < 2 ^ 32 }
    {
        self.gate.reveal_invariant();
    }

    /// Makes room for one commit, for one handle more and for two events: a landing, and a call of the session. It takes the memory first that the
    /// session had made for its event.
    ///
    /// # Errors
    ///
    /// Memory ran out. Nothing changed but that there may be room.
    pub fn reserve<E: Entropy>(&mut self, session: &Session<E>) -> Result<(), NoMemory>
        ensures room { OnOk result ((1 ≤ self.new.gate.room) × (1 ≤ self.new.gate.open_handles.spare) × (2 ≤ self.new.journal.spare)) }
        ensures handles { self.new.gate.open_handles.records ≡ self.old.gate.open_handles.records }
        ensures gate { self.new.gate ≡ record self.old.gate { open_handles = self.new.gate.open_handles; room = self.new.gate.room } }
        ensures knows { self.new.journal.knows ≡ self.old.journal.knows }
        ensures closing { self.new.closing ≡ self.old.closing }
        // There is no less room than before.
        ensures grows { (self.old.gate.room ≤ self.new.gate.room) × (self.old.gate.open_handles.spare ≤ self.new.gate.open_handles.spare) }
        ensures spare { self.old.journal.spare ≤ self.new.journal.spare }
    {
        self.journal.reserve(2, session.take_room())?;
        self.gate.reserve()
    }
}

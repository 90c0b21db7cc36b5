//! What the rules ask of the directory and of the open handles behind the lock.

ghost use Rattle.std.specs.Prelude.{List, Option};
ghost use Rattle.dir_records.specs.declared.entry.DirEntry.{DirEntry};
ghost use Rattle.open_table.specs.Table.{TableState};

use crate::guarded_gate::GuardedGate;
use app_totals::Totals;
use call_rules::{Catalog, Held};
use core_laws::StoreName;
use dir_records::DirEntry;
use rpmb_card::RpmbPort;
use tee_ports::StoreFile;
use tee_types::{AppId, Flags, ObjectId};

impl<F: StoreFile + Drop, R: RpmbPort + Drop, L: StoreName> Catalog for GuardedGate<F, R, L> {
    ghost entries = { λ g. g.gate.dir.dir.entries };

    ghost handles = { λ g. g.gate.open_handles };

    fn look(&self, app: AppId, id: ObjectId) -> Option<Held> {
        self.reveal_invariant();
        self.gate.look(app, id)
    }

    fn totals(&self, app: AppId) -> Totals {
        self.reveal_invariant();
        self.gate.totals(app)
    }

    fn next_above(&self, app: AppId, after: Option<ObjectId>) -> Option<DirEntry> {
        self.gate.next_above(app, after)
    }

    fn free_index(&self) -> Option<u16> {
        self.gate.free_index()
    }

    fn allows(&self, file: u16, flags: Flags) -> bool {
        self.gate.allows(file, flags)
    }

    fn any_open(&self, file: u16) -> bool {
        self.gate.any_open(file)
    }
}

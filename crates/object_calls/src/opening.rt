//! A store that is mounted.

ghost use Rattle.std.specs.Prelude.{◌≡◌, ◌≤◌, [], ℕ, length, vec_len, is_some, count_by};
ghost use Rattle.std.specs.Vec.{vec_capacity};
ghost use Rattle.hmac_keys.specs.declared.Keys.{Keys};
ghost use Rattle.tee_types.specs.Limits.{file_count};
ghost use Rattle.app_totals.specs.Totals.{objects_of};
ghost use Rattle.crash_core.specs.Opening.{opening_map};
ghost use Rattle.object_calls.specs.Begins.{IsWholeOpening};
ghost use Rattle.object_calls.specs.ObjectMaps.{OpensObjectMap};
ghost use Rattle.object_calls.specs.Opening.{IsOpening, bench_files, entries_in};
ghost use Rattle.object_calls.specs.OpeningFiles.{files_of};
ghost use Rattle.object_calls.specs.Seats.{IsUnused};

use crate::bench::{Bench, put_together};
use history_seats::{GateSeat, HistoryTable};
use hmac_keys::SecretKey;
use rpmb_card::RpmbPort;
use std::alloc::Global;
use std::marker::Model;
use store_commit::Gate;
use tee_ports::StoreFile;
use tee_types::AppId;

/// A store that is mounted, on one thread and without locks, with the sessions that were opened on it. No handle is open.
///
/// Nothing is pending on the directory's file, nor on a file that an entry of the directory names.
#[derive(Drop)]
pub struct Opening<F: StoreFile + Drop, R: RpmbPort + Drop> {
    pub(crate) gate: Gate<F, R>,
    // The files of objects, file 1 first. There is room for all files of a bench.
    pub(crate) files: Vec<F>,
    // The file of an old directory.
    pub(crate) spare: F,
    // The key that the applications' keys come from.
    pub(crate) storage_key: SecretKey,
    pub(crate) alloc: Global,
    // The table of the phase's history, and the gate's seat in it.
    pub(crate) table: HistoryTable,
    pub(crate) seat: GateSeat,
    // The applications of the sessions, by their numbers.
    pub(crate) applications: Vec<AppId>,
}

impl<F: StoreFile + Drop, R: RpmbPort + Drop> Model for Opening<F, R> {
    ghost use Rattle.std.specs.Prelude.{◌≤◌, vec_len};
    ghost use Rattle.std.specs.Vec.{vec_capacity};
    ghost use Rattle.tee_types.specs.Limits.{file_count};
    ghost use Rattle.object_calls.specs.Opening.{IsOpening, OpeningValue};
    ghost use Rattle.object_calls.specs.Seats.{IsUnused};

    ghost Value = { OpeningValue F R };

    ghost view = { λ o. record {
      gate = o.gate;
      files = o.files.items;
      spare = o.spare;
      storage_key = o.storage_key;
      table = o.table;
      applications = o.applications.items;
    } };

    ghost invariant = { λ o. IsOpening F.state o.gate o.files.items o.storage_key × (file_count ≤ vec_capacity o.files)
        × IsUnused o.table o.seat × (vec_len o.applications ≤ 16) };
}

// How many of the 256 entries of a gate's directory are not free.
fn count_entries<F: StoreFile + Drop, R: RpmbPort + Drop>(gate: &Gate<F, R>) -> u16
    requires { length gate.now.dir.dir.entries ≡ 256 }
    ensures { result ≡ count_by is_some gate.now.dir.dir.entries }
{
    let mut count = 0u16;
    for index in 0..256u16 {
        count += u16::from(gate.entry(index).is_some());
    }
    count
}

impl<F: StoreFile + Drop, R: RpmbPort + Drop> Opening<F, R> {
    // The opening of a gate that was mounted, and of the files that were synced. The seat is that of a new table.
    pub(crate) fn new(
        alloc: Global,
        gate: Gate<F, R>,
        files: Vec<F>,
        spare: F,
        storage_key: SecretKey,
        table: HistoryTable,
        seat: GateSeat,
    ) -> Opening<F, R>
        requires opening { IsOpening F.state gate files.items storage_key }
        requires room { file_count ≤ vec_capacity files }
        requires unused { IsUnused table seat }
        ensures { result ≡ record { gate = gate; files = files.items; spare = spare; storage_key = storage_key; table = table; applications = [] } }
    {
        Opening {
            gate,
            files,
            spare,
            storage_key,
            alloc,
            table,
            seat,
            applications: Vec::new(alloc),
        }
    }

    /// How many objects there are.
    pub fn objects(&self) -> u16
        ensures entries { result ≡ count_by is_some (entries_in self.now) }
        ensures objects { (keys : Keys) → length (opening_map keys (bench_files F.state self.now) (entries_in self.now)) ≡ result }
        // They are a map of objects.
        ensures map { OpensObjectMap F.state self.now }
        // What always holds of an opening.
        ensures opening { IsOpening F.state self.now.gate self.now.files self.now.storage_key }
    {
        count_entries(&self.gate)
    }

    /// How many objects the application has.
    pub fn held(&self, app: AppId) -> u16
        ensures { (keys : Keys) → length (objects_of app (opening_map keys (bench_files F.state self.now) (entries_in self.now))) ≡ result }
    {
        self.gate.totals(app).objects
    }

    /// Gives the bench back. Every picture of it mounts to the objects that were found. No device is called, and no memory is taken.
    pub fn close(self) -> Bench<F, R>
        ensures files { files_of F.state result.files.items ≡ bench_files F.state self }
        ensures card { result.card ≡ self.gate.host.port }
        ensures whole { vec_len result.files ≡ file_count }
        ensures opens { IsWholeOpening F.state R.state self }
    {
        let Opening {
            gate,
            files,
            spare,
            storage_key: _,
            alloc: _,
            table: _,
            seat: _,
            applications: _,
        } = self;
        let (dir, card) = gate.close();
        let files = put_together(spare, files, dir);
        Bench { files, card }
    }
}

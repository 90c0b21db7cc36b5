//! Migrating a store: files of the old format are moved into the current one.

ghost use Rattle.std.specs.Prelude.{◌≡◌, ◌≤◌, ℕ, vec_len, IfErr, IfOk};
ghost use Rattle.disk_model.specs.Calls.{GoesOn};
ghost use Rattle.htree_file.specs.Answers.{FilePassed};
ghost use Rattle.tee_types.specs.Limits.{file_count};
ghost use Rattle.store_commit.specs.Counts.{RefusalNotDrawn};
ghost use Rattle.object_calls.specs.OpeningFiles.{files_of};
ghost use Rattle.object_calls.specs.Migrated.{LeavesCurrent, MigratesBench, TellsMoves, WritesOnceEach};
ghost use Rattle.object_calls.specs.MigrationRefusals.{MigrationRefused, SpentWithoutRoom};

use crate::bench::{Bench, Halted};
use crate::directory_moving::{DirectoryMoved, move_directory};
use crate::object_moving::{ObjectsMoved, move_objects};
use hmac_keys::Keys;
use rpmb_card::RpmbPort;
use std::alloc::Global;
use tee_ports::{Entropy, StoreFile};

/// A bench all of whose trees are in files of the current format.
#[derive(Drop)]
pub struct Migrated<F, R> {
    /// The bench.
    pub bench: Bench<F, R>,
    /// Whether the directory was moved.
    pub directory: bool,
    /// How many objects were moved.
    pub objects: u16,
}

/// Moves what a store has in files of the old format into files of the current one: its directory, by one write of the card, and then each
/// object of an entry of the old format, in the order of the entries, into the least free file, by one commit each. What a tree holds is
/// copied as it is, bad blocks and damage included. A store without such files is mounted, and nothing is written.
///
/// At every moment, also after an error and after a crash, the store mounts to the objects that it mounted to before.
///
/// # Errors
///
/// `NoStore` and `CardBlock` by block 0; `Directory` where the directory's image is refused; `Spent` where the card's counter is at its end
/// and something is left to move; `Frame` and `CardResult` as the host says; `Failed` where a call of a device failed: the device of a copy
/// is that of the file that is moved, and the count is of this file or of the one that it is copied into; `NoMemory`. What was moved stays
/// so, and the bench can be migrated again.
pub fn migrate<F: StoreFile + Drop, R: RpmbPort + Drop, E: Entropy>(
    alloc: Global,
    bench: Bench<F, R>,
    keys: &Keys,
    entropy: &mut E,
) -> Result<Migrated<F, R>, Halted<F, R>>
    requires { vec_len bench.files ≡ file_count }
    // At each moment a crash leaves what mounts as it might have before, whether all was moved or not.
    ensures migrates { IfOk result (λ m. MigratesBench (files_of F.state bench.files.items) (files_of F.state m.bench.files.items) (R.state bench.card) (R.state m.bench.card) keys.now) }
    ensures migrates_err { IfErr result (λ h. MigratesBench (files_of F.state bench.files.items) (files_of F.state h.bench.files.items) (R.state bench.card) (R.state h.bench.card) keys.now) }
    ensures current { IfOk result (λ m. LeavesCurrent (files_of F.state m.bench.files.items) (R.state m.bench.card) keys.now) }
    // What was moved, and the entries then: each that was of the old format names the least file that was free, and else is as it was.
    ensures moves { IfOk result (λ m. TellsMoves (files_of F.state bench.files.items) (files_of F.state m.bench.files.items) (R.state bench.card) (R.state m.bench.card) keys.now m.directory m.objects) }
    ensures writes { IfOk result (λ m. WritesOnceEach (R.state bench.card) (R.state m.bench.card) keys.now m.directory m.objects) }
    ensures few { IfOk result (λ m. m.objects ≤ 256) }
    ensures refused { IfErr result (λ h. MigrationRefused (files_of F.state bench.files.items) (files_of F.state h.bench.files.items) (R.state bench.card) (R.state h.bench.card) keys.now
        (E.faults entropy.old) (E.faults entropy.new) h.fault) }
    ensures short { IfErr result (λ h. SpentWithoutRoom (files_of F.state bench.files.items) (files_of F.state h.bench.files.items) (R.state bench.card) keys.now h.fault) }
    ensures whole { IfOk result (λ m. vec_len m.bench.files ≡ file_count) }
    ensures whole_err { IfErr result (λ h. vec_len h.bench.files ≡ file_count) }
    // No call of a file failed, and no draw, where all was moved; the card may have failed to confirm a write that then was found to stand.
    ensures passed { IfOk result (λ m. (file : ℕ) → FilePassed (files_of F.state bench.files.items file) (files_of F.state m.bench.files.items file)) }
    ensures counted { IfOk result (λ m. (R.state bench.card).faults ≤ (R.state m.bench.card).faults) }
    ensures undrawn { IfOk result (λ m. E.faults entropy.new ≡ E.faults entropy.old) }
    ensures drawn { E.is_reliable entropy.old → IfErr result (λ h. RefusalNotDrawn h.fault) }
    ensures reliable { E.is_reliable entropy.old → E.is_reliable entropy.new }
    // What is known of each file goes on.
    ensures goes_on { IfOk result (λ m. (file : ℕ) → GoesOn (files_of F.state bench.files.items file) (files_of F.state m.bench.files.items file)) }
    ensures goes_on_err { IfErr result (λ h. (file : ℕ) → GoesOn (files_of F.state bench.files.items file) (files_of F.state h.bench.files.items file)) }
{
    let DirectoryMoved {
        bench,
        moved: directory,
    } = match move_directory(alloc, bench, keys, entropy) {
        Ok(moved) => moved,
        Err(halted) => return Err(halted),
    };
    match move_objects(alloc, bench, keys, entropy) {
        Ok(
            ObjectsMoved {
                bench,
                moved: objects,
            },
        ) => Ok(Migrated {
            bench,
            directory,
            objects,
        }),
        Err(halted) => Err(halted),
    }
}

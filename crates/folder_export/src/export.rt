//! A store is exported, file by file.

ghost use Rattle.std.specs.Prelude.{◌≡◌, ◌≢◌, ◌<◌, ℕ, length, IfErr, OnOk};
ghost use Rattle.tee_types.specs.Limits.{file_count};
ghost use Rattle.disk_model.specs.Calls.{GoesOn, Rests};
ghost use Rattle.disk_model.specs.State.{FileState};
ghost use Rattle.folder_export.specs.Copies.{CopiesFile, FileFailed, OneFailed, WritesFile};
ghost use Rattle.folder_export.specs.Exports.{ExportsStore, StopsExport};
ghost use Rattle.folder_export.specs.Folders.{folder_count, states_of};

use crate::copying::{export_block, export_file};
use crate::fault::{FileFault, FilePlace};
use tee_ports::{Failed, StoreFile};
use tee_types::BENCH_FILES;

/// How many files the folder of an exported store has: one for each file of the bench, and behind them one for the card's block.
pub const FOLDER_FILES: usize = BENCH_FILES + 1;

// Copies the file of a number.
fn export_number<F: StoreFile, G: StoreFile>(
    files: &mut [F],
    folder: &mut [G],
    number: u16,
) -> Result<(), FileFault>
    requires { (number < length files.old) × (number < length folder.old) }
    ensures rests { (none : FileState) (k : ℕ) → Rests (states_of none F.state files.old k) (states_of none F.state files.new k) }
    ensures goes_on { (none : FileState) (k : ℕ) → GoesOn (states_of none G.state folder.old k) (states_of none G.state folder.new k) }
    ensures ok { (none : FileState) → OnOk result (CopiesFile (states_of none F.state files.old number) (states_of none F.state files.new number)
        (states_of none G.state folder.old number) (states_of none G.state folder.new number)) }
    ensures err { (none : FileState) → IfErr result (λ fault. OneFailed fault.place fault.count number (states_of none F.state files.old number) (states_of none F.state files.new number)
        (states_of none G.state folder.old number) (states_of none G.state folder.new number)) }
    ensures files { (none : FileState) (k : ℕ) → k ≢ number → states_of none F.state files.new k ≡ states_of none F.state files.old k }
    ensures folder { (none : FileState) (k : ℕ) → k ≢ number → states_of none G.state folder.new k ≡ states_of none G.state folder.old k }
{
    match export_file(
        number,
        &mut files[number as usize],
        &mut folder[number as usize],
    ) {
        Ok(()) => Ok(()),
        Err(fault) => Err(fault),
    }
}

// Writes the card's block into the file behind those of the bench.
fn export_last<G: StoreFile>(folder: &mut [G], block: &[u8; 256]) -> Result<(), Failed>
    requires { file_count < length folder.old }
    ensures goes_on { (none : FileState) (k : ℕ) → GoesOn (states_of none G.state folder.old k) (states_of none G.state folder.new k) }
    ensures ok { (none : FileState) → OnOk result (WritesFile block.now (states_of none G.state folder.old file_count) (states_of none G.state folder.new file_count)) }
    ensures err { (none : FileState) → IfErr result (λ failed. FileFailed (states_of none G.state folder.old file_count) (states_of none G.state folder.new file_count) failed.count) }
    ensures others { (none : FileState) (k : ℕ) → k ≢ file_count → states_of none G.state folder.new k ≡ states_of none G.state folder.old k }
{
    match export_block(&mut folder[BENCH_FILES], block) {
        Ok(()) => Ok(()),
        Err(failed) => Err(failed),
    }
}

/// Exports a store: copies the bytes of each file of the bench into the folder's file of its number, and writes the card's block 0 into the
/// folder's last file. Each file of the folder then has no other bytes, and is settled. One page is held at a time, and no memory is taken.
///
/// The files of the bench are only read. Where one tells its bytes, and a file of the folder can be followed, this reads as the other.
///
/// # Errors
///
/// A call of a file failed. The files below it were exported, and those above it are as they were.
pub fn export_files<F: StoreFile, G: StoreFile>(
    files: &mut [F],
    block: &[u8; 256],
    folder: &mut [G],
) -> Result<(), FileFault>
    requires files { length files.old ≡ file_count }
    requires folder { length folder.old ≡ folder_count }
    ensures rests { (none : FileState) (k : ℕ) → Rests (states_of none F.state files.old k) (states_of none F.state files.new k) }
    ensures goes_on { (none : FileState) (k : ℕ) → GoesOn (states_of none G.state folder.old k) (states_of none G.state folder.new k) }
    ensures ok { (none : FileState) → OnOk result (ExportsStore (states_of none F.state files.old) (states_of none F.state files.new)
        (states_of none G.state folder.old) (states_of none G.state folder.new) block.now) }
    ensures err { (none : FileState) → IfErr result (StopsExport (states_of none F.state files.old) (states_of none F.state files.new)
        (states_of none G.state folder.old) (states_of none G.state folder.new)) }
{
    for number in 0..BENCH_FILES as u16 {
        if let Err(fault) = export_number(files, folder, number) {
            return Err(fault);
        }
    }
    match export_last(folder, block) {
        Ok(()) => Ok(()),
        Err(failed) => Err(FileFault {
            place: FilePlace::Folder(BENCH_FILES as u16),
            count: failed.count,
        }),
    }
}

// Syncs of the files that a directory names.

ghost use Rattle.std.specs.Prelude.{◌≡◌, ◌≤◌, length};
ghost use Rattle.tee_types.specs.Limits.{IsObjectFile, last_file};
ghost use Rattle.store_commit.specs.EntryForms.{AreEntriesOf};
ghost use Rattle.object_calls.specs.OpeningFiles.{object_files};
ghost use Rattle.object_calls.specs.Syncing.{SyncAnswer, SyncsOne};

use rpmb_card::RpmbPort;
use store_commit::Gate;
use tee_ports::StoreFile;
use tee_types::{Cause, Device};

// Syncs one file of an object.
fn sync_file<F: StoreFile>(files: &mut [F], file: u16) -> Result<(), Cause>
    requires files { length files.old ≡ last_file }
    requires file { IsObjectFile file }
    ensures { SyncsOne file (object_files F.state files.old) (object_files F.state files.new) result }
{
    match files[file as usize - 1].sync() {
        Ok(()) => Ok(()),
        Err(failed) => Err(Cause::Fault {
            device: Device::File(file),
            count: failed.count,
        }),
    }
}

/// Syncs each file that an entry of the gate's directory names, in the order of the entries.
///
/// # Errors
///
/// The first sync that failed. The files behind it are not called.
pub(crate) fn sync_named<F: StoreFile + Drop, R: RpmbPort + Drop>(
    files: &mut [F],
    gate: &Gate<F, R>,
) -> Result<(), Cause>
    requires files { length files.old ≡ last_file }
    requires entries { AreEntriesOf gate.now.dir.dir.entries }
    ensures { SyncAnswer gate.now.dir.dir.entries 256 (object_files F.state files.old) (object_files F.state files.new) result }
{
    for index in 0..256u16 {
        if let Some(entry) = gate.entry(index) {
            sync_file(files, entry.file)?;
        }
    }
    Ok(())
}

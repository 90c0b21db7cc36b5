//! The card's block, as a folder has it.

ghost use Rattle.std.specs.Prelude.{◌≡◌, IfErr, IfOk, OnOk};
ghost use Rattle.disk_model.specs.Calls.{Rests};
ghost use Rattle.htree_file.specs.Answers.{FileFailed, FilePassed};
ghost use Rattle.folder_audit.specs.Reading.{IsBlockOf};

use tee_ports::{Failed, StoreFile};

/// The first 256 bytes of a file, with zero behind its end.
///
/// # Errors
///
/// The call of the file failed.
pub fn read_block<G: StoreFile>(file: &mut G) -> Result<[u8; 256], Failed>
    ensures block { IfOk result (IsBlockOf (G.state file.new)) }
    ensures rests { Rests (G.state file.old) (G.state file.new) }
    ensures passed { OnOk result (FilePassed (G.state file.old) (G.state file.new)) }
    ensures failed { IfErr result (λ e. FileFailed (G.state file.old) (G.state file.new) e.count) }
{
    let mut block = [0; 256];
    file.read_at(0, &mut block)?;
    Ok(block)
}

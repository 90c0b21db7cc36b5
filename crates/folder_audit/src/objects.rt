//! Auditing one object.

ghost use Rattle.std.specs.Prelude.{◌≡◌, ◌<◌};
ghost use Rattle.disk_model.specs.Calls.{Rests};
ghost use Rattle.dir_records.specs.Form.{HasForm};
ghost use Rattle.folder_audit.specs.Objects.{AuditAnswer, object_answer};

use crate::certifying::{Under, certify_object, tree_answer};
use crate::fault::{AuditFault, failed_at};
use crate::finding::Finding;
use crate::reading::find_bad;
use dir_records::DirEntry;
use hmac_keys::{ssk, tsk};
use htree_file::Tree;
use object_file::{ObjectBroken, ObjectFault, ObjectFile};
use tee_ports::StoreFile;

// What a fault in loading an object is: the object is damaged, or it could not be loaded.
fn object_answer(file: u16, fault: ObjectFault) -> Result<Finding, AuditFault>
    ensures { result ≡ object_answer file fault }
{
    match fault {
        ObjectFault::Tree(fault) => tree_answer(file, fault),
        ObjectFault::WrongSize { .. } => Ok(Finding::Damaged),
    }
}

/// Reads the object of an entry whole, and certifies it where all its blocks are good. Gives the object's file back.
///
/// # Errors
///
/// A call of a file failed, or memory ran out.
pub(crate) fn audit_object<G: StoreFile>(
    under: &Under,
    dir: &mut Tree<G>,
    index: u16,
    entry: &DirEntry,
    file: G,
) -> (G, Result<Finding, AuditFault>)
    requires low { index < 256 }
    requires form { HasForm entry.now }
    ensures answer { AuditAnswer under.now.keys under.now.block dir.old.tree index entry.now (G.state dir.old.file) (G.state dir.new.file) (G.state file) (G.state result.0) result.1 }
    ensures dir { dir.new ≡ record dir.old { file = dir.new.file } }
    ensures dir_rests { Rests (G.state dir.old.file) (G.state dir.new.file) }
    ensures rests { Rests (G.state file) (G.state result.0) }
{
    let wrap = tsk(&ssk(&under.keys), &entry.app.bytes());
    let mut object = match ObjectFile::load(under.alloc, file, &wrap, entry) {
        Ok(object) => object,
        Err(ObjectBroken { file, fault }) => return (file, object_answer(entry.file, fault)),
    };
    let found = find_bad(&mut object);
    let file = object.into_file();
    match found {
        Ok(bad) => {
            if bad.count() == 0 {
                certify_object(under, dir, index, entry, file)
            } else {
                (file, Ok(Finding::Bad(bad)))
            }
        }
        Err(failed) => (file, Err(failed_at(entry.file, failed.count))),
    }
}

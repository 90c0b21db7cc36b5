//! Reading an object's blocks.

ghost use Rattle.std.specs.Prelude.{◌≡◌, ◌<◌, ◌≤◌, false, length, IfErr, IfOk, OnOk};
ghost use Rattle.disk_model.specs.Calls.{Rests};
ghost use Rattle.htree_file.specs.Answers.{FileFailed, FilePassed};
ghost use Rattle.tree_paths.specs.Paths.{holds};
ghost use Rattle.folder_audit.specs.Objects.{FindsBad, NotesBlock};

use htree_file::TreeFault;
use object_file::ObjectFile;
use tee_ports::{Failed, StoreFile};
use tree_paths::NodeSet;

// Reads a block of the data, counted from 1, and notes it where it is bad.
fn read_next<G: StoreFile>(
    object: &mut ObjectFile<G>,
    k: u32,
    bad: &mut NodeSet,
) -> Result<(), Failed>
    requires block { k < object.old.tree.tree.head.greatest }
    requires number { (1 ≤ k) × (k ≤ 256) }
    requires fresh { holds bad.old k ≡ false }
    ensures notes { OnOk result (NotesBlock object.old.tree.key object.old.tree.tree (G.state object.old.tree.file) (G.state object.new.tree.file) k bad.old bad.new) }
    ensures same { object.new ≡ record object.old { tree = record object.old.tree { file = object.new.tree.file } } }
    ensures rests { Rests (G.state object.old.tree.file) (G.state object.new.tree.file) }
    ensures passed { OnOk result (FilePassed (G.state object.old.tree.file) (G.state object.new.tree.file)) }
    ensures failed { IfErr result (λ e. FileFailed (G.state object.old.tree.file) (G.state object.new.tree.file) e.count) }
{
    let mut page = [0; 4096];
    match object.read_page(k, &mut page) {
        Ok(()) => Ok(()),
        Err(TreeFault::BadTag { .. }) => {
            bad.add(k);
            Ok(())
        }
        Err(TreeFault::Failed { count }) => Err(Failed { count }),
        Err(_) => unreachable!(),
    }
}

/// Reads each block of the data of an object, and gives the numbers of those that are bad.
///
/// # Errors
///
/// A call of the file failed.
pub(crate) fn find_bad<G: StoreFile>(object: &mut ObjectFile<G>) -> Result<NodeSet, Failed>
    ensures finds { IfOk result (FindsBad object.old.tree.key object.old.tree.tree (G.state object.old.tree.file) (G.state object.new.tree.file)
        (length object.old.tree.tree.nodes)) }
    ensures same { object.new ≡ record object.old { tree = record object.old.tree { file = object.new.tree.file } } }
    ensures rests { Rests (G.state object.old.tree.file) (G.state object.new.tree.file) }
    ensures passed { OnOk result (FilePassed (G.state object.old.tree.file) (G.state object.new.tree.file)) }
    ensures failed { IfErr result (λ e. FileFailed (G.state object.old.tree.file) (G.state object.new.tree.file) e.count) }
{
    let mut bad = NodeSet::none();
    let count = object.size().div_ceil(4096);
    for k in 0..count {
        read_next(object, k + 1, &mut bad)?;
    }
    Ok(bad)
}

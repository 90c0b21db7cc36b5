// A tree is read from a file that may hold anything.
ghost use Rattle.std.specs.Prelude.{◌≡◌, ◌⊎◌, ◌<◌, ◌≤◌, ◌^◌, length, take, IfErr, IfOk, IsTrue, Result};
ghost use Rattle.disk_model.specs.Calls.{Rests};
ghost use Rattle.disk_model.specs.Seen.{WasSeen};
ghost use Rattle.node_image.specs.Parts.{layout_of, nodes_end};
ghost use Rattle.node_image.specs.Layout.{is_sized};
ghost use Rattle.node_image.specs.Selection.{bytes_at};
ghost use Rattle.htree_file.specs.Answers.{Differs, HasCause, IsLoadFault, IsOutside};
ghost use Rattle.htree_file.specs.Opening.{IsVerified, load_of, table_of};
ghost use Rattle.htree_file.specs.Selected.{Lies};
ghost use Rattle.htree_file.specs.Standing.{Told};
ghost use Rattle.disk_model.specs.Arms.{count_call};

use crate::device::read_padded;
use crate::fault::TreeFault;
use crate::opening::{nodes_end, read_table};
use crate::table::need_of;
use node_image::{Head, NodeImage, RootRef};
use std::alloc::Global;
use tee_ports::{NoMemory, StoreFile};

fn room_for_nodes(alloc: Global, format: u8) -> Result<Vec<u8>, NoMemory>
    ensures length { IfOk result (λ bytes. length bytes.items ≡ nodes_end (layout_of format)) }
    ensures low { IfOk result (λ bytes. length bytes.items < 2 ^ 20) }
{
    vec![in alloc; 0; nodes_end(format)]
}

/// Reads head and nodes with one read, and then the file's length. The head tells how many of the table's entries are the
/// tree's.
pub(crate) fn read_tree<F: StoreFile>(
    alloc: Global,
    file: &mut F,
    root: RootRef,
    nodes: &mut [NodeImage],
) -> Result<Head, TreeFault>
    requires version { root.version < 2 }
    requires room { length nodes.old ≡ 256 }
    ensures loaded { IfOk result (λ h. Told (F.state file.old) (F.state file.new) →
        load_of (F.state file.new).reads root ≡ Result.Ok (record { head = h; nodes = take h.greatest nodes.new; layout = layout_of root.format })) }
    ensures verified { IfOk result (λ h. IsVerified root (record { head = h; nodes = take h.greatest nodes.new; layout = layout_of root.format })) }
    ensures few { IfOk result (λ h. (1 ≤ h.greatest) × (h.greatest ≤ 256)) }
    ensures fault { IfErr result (λ e. IsOutside e ⊎ (Told (F.state file.old) (F.state file.new) →
        load_of (F.state file.new).reads root ≡ Result.Err e)) }
    ensures seen { IfOk result (λ h. WasSeen (Lies (layout_of root.format) (take h.greatest nodes.new) root.version) (F.state file.old) (F.state file.new)
        (λ image. table_of image root ≡ Result.Ok (record { head = h; nodes = take h.greatest nodes.new; layout = layout_of root.format }))) }
    ensures kind { IfErr result IsLoadFault }
    ensures differs { IfErr result (λ e. IsTrue (F.state file.new).tells → Differs (F.state file.new).reads root e) }
    ensures rests { Rests (F.state file.old) (F.state file.new) }
    ensures cause { HasCause (F.state file.old) (F.state file.new) result }
    ensures two { IfOk result (λ h. IsTrue (F.state file.old).tells_arms → (F.state file.new).arms ≡ count_call (count_call (F.state file.old).arms)) }
{
    let mut image = room_for_nodes(alloc, root.format)?;
    read_padded(file, 0, &mut image)?;
    let head = read_table(&image, root, nodes)?;
    let end = file.len()?;
    let need = need_of(root.format, &nodes[..head.greatest as usize]);
    if end < need {
        return Err(TreeFault::Short { end, need });
    }
    Ok(head)
}

// Laws of firm trees and of selected bytes.
ghost use Rattle.std.specs.Prelude.{◌≡◌, ℕ, ◌<◌, List, Result};
ghost use Rattle.disk_model.specs.Calls.{Rests};
ghost use Rattle.disk_model.specs.State.{FileState, LeftNow, Sound};
ghost use Rattle.node_image.specs.Parts.{layout_of};
ghost use Rattle.node_image.specs.declared.node.RootRef.{RootRef};
ghost use Rattle.node_image.specs.Selection.{selected_tree};
ghost use Rattle.htree_file.specs.Opening.{Loaded, load_of};
ghost use Rattle.htree_file.specs.Pages.{opened_of};
ghost use Rattle.htree_file.specs.Selected.{KeepsFirm, loaded_in};
ghost use Rattle.htree_file.specs.Standing.{IsFirm};

/// A firm reference opens alike in every image that its file may leave now.
pub fn firm_opens_alike()
    ensures { (s : FileState) (root : RootRef) (tree : Loaded) → Sound s → IsFirm s root tree →
        (wrap image : List ℕ) → LeftNow s image → opened_of wrap image root ≡ opened_of wrap s.reads root }
{}

/// A call that changes nothing, as a read, keeps a tree firm.
pub fn read_keeps_firm()
    ensures { (old new : FileState) (root : RootRef) (tree : Loaded) → Sound old → Sound new → root.version < 2 →
        Rests old new → KeepsFirm old new root tree }
{}

/// The bytes that a reference selects tell the tree that loads.
pub fn selection_names_tree()
    ensures { (image : List ℕ) (root : RootRef) (tree : Loaded) → load_of image root ≡ Result.Ok tree →
        loaded_in (layout_of root.format) (selected_tree image root) ≡ tree }
{}

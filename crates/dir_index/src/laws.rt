//! What a change is for each name. No code.

ghost use Rattle.std.specs.Prelude.{◌≡◌, ℕ, Some, None, if◌then◌else◌};
ghost use Rattle.std.specs.Ordering.{is_eq};
ghost use Rattle.store_model.specs.declared.name.ObjectName.{ObjectName};
ghost use Rattle.store_model.specs.Name.{name_cmp};
ghost use Rattle.dir_index.specs.Index.{IndexState, IsOrdered, index_at, with_index, without_name};

/// Where a name was put in, that name is held with its index, and each other one as before. Where a name was taken out, it
/// is not held, and each other one is held as before.
pub fn changes_concern_one_name()
    ensures insert { (s t : IndexState) (name : ObjectName) (index : ℕ) → t.entries ≡ with_index s.entries name index
        → (other : ObjectName) → index_at t other ≡ (if is_eq (name_cmp other name) then Some index else index_at s other) }
    ensures remove { (s t : IndexState) (name : ObjectName) → IsOrdered s → t.entries ≡ without_name s.entries name
        → (other : ObjectName) → index_at t other ≡ (if is_eq (name_cmp other name) then None else index_at s other) }
{}

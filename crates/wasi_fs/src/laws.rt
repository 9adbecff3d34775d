ghost use Rattle.std.specs.Prelude.{ℕ, Bool, List, Result, IfOk};
ghost use Rattle.wasi_clocks.specs.declared.wall_times.WallTime.{WallTime};
ghost use Rattle.wasi_fs_types.specs.declared.descriptor.NewTimestamp.{NewTimestamp};
ghost use Rattle.wasi_fs_types.specs.declared.flags.DescriptorFlags.{DescriptorFlags};
ghost use Rattle.wasi_fs_types.specs.declared.flags.OpenFlags.{OpenFlags};
ghost use Rattle.wasi_fs_types.specs.declared.flags.PathFlags.{PathFlags};
ghost use Rattle.wasi_fs_types.specs.declared.error_code.ErrorCode.{ErrorCode};
ghost use Rattle.wasi_fs_nodes.specs.declared.store_error.StoreError.{StoreError};
ghost use Rattle.wasi_fs_nodes.specs.Shape.{KindsStay};
ghost use Rattle.wasi_fs_nodes.specs.Writes.{Write};
ghost use Rattle.wasi_fs_nodes.specs.declared.node.Node.{Node};
ghost use Rattle.wasi_fs.specs.Calls.{size_set, times_set, times_set_at, directory_created, symlink_made, link_made, removed, file_unlinked, node_renamed};
ghost use Rattle.wasi_fs.specs.Opening.{opened};
ghost use Rattle.wasi_fs.specs.Stores.{after_read, after_write, unless_no_memory};
ghost use Rattle.wasi_fs.specs.TreeStore.{with_file};
ghost use Rattle.wasi_fs.specs.Trees.{TreeState, with_nodes, after_fault, IsOf, KeepsDescriptors};
ghost use Rattle.wasi_fs.specs.declared.descriptor.Descriptor.{Descriptor};

use wasi_fs_nodes::kinds_stay;

/// A law: whatever the call that changes a tree, each node stays what it is, so that each
/// descriptor of the tree stays one.
pub fn calls_keep_kinds()
    ensures size { (nodes : List Node) (at : Descriptor) (size : ℕ) → IfOk (size_set nodes at size) (KindsStay nodes) }
    ensures times { (nodes : List Node) (at : Descriptor) (access modified : NewTimestamp) (now : WallTime) → IfOk (times_set nodes at access modified now) (KindsStay nodes) }
    ensures times_at { (nodes : List Node) (at : Descriptor) (flags : PathFlags) (path : List ℕ) (access modified : NewTimestamp) (now : WallTime) → IfOk (times_set_at nodes at flags path access modified now) (KindsStay nodes) }
    ensures directory { (nodes : List Node) (at : Descriptor) (path : List ℕ) (now : WallTime) → IfOk (directory_created nodes at path now) (KindsStay nodes) }
    ensures symlink { (nodes : List Node) (at : Descriptor) (text path : List ℕ) (now : WallTime) → IfOk (symlink_made nodes at text path now) (KindsStay nodes) }
    ensures link { (nodes : List Node) (at : Descriptor) (flags : PathFlags) (path : List ℕ) (to : Descriptor) (to_path : List ℕ) → IfOk (link_made nodes at flags path to to_path) (KindsStay nodes) }
    ensures remove { (nodes : List Node) (at : Descriptor) (path : List ℕ) → IfOk (removed nodes at path) (KindsStay nodes) }
    ensures unlink { (nodes : List Node) (at : Descriptor) (path : List ℕ) → IfOk (file_unlinked nodes at path) (KindsStay nodes) }
    ensures rename { (below : ℕ → ℕ → Bool) (nodes : List Node) (at : Descriptor) (path : List ℕ) (to : Descriptor) (to_path : List ℕ) → IfOk (node_renamed below nodes at path to to_path) (KindsStay nodes) }
{
    kinds_stay();
}

/// A law: whatever is opened, each node stays what it is, and what is opened is of the tree.
pub fn openings_keep_kinds()
    ensures kinds { (nodes : List Node) (at : Descriptor) (path_flags : PathFlags) (path : List ℕ) (how : OpenFlags) (flags : DescriptorFlags) (now : WallTime) (blocking : Bool) → IfOk (opened nodes at path_flags path how flags now blocking) (λ it. KindsStay nodes it.1) }
    ensures of_tree { (tree : TreeState) (at : Descriptor) → IsOf tree at → (path_flags : PathFlags) (path : List ℕ) (how : OpenFlags) (flags : DescriptorFlags) (now : WallTime) (blocking : Bool) → IfOk (opened tree.nodes at path_flags path how flags now blocking) (λ it. IsOf (with_nodes tree it.1) it.0) }
{
    kinds_stay();
}

/// A law: whatever a read or a write of a file answers, each descriptor of the tree stays one.
pub fn stores_keep_descriptors()
    ensures read { (tree : TreeState) (outcome : Result (List ℕ) ErrorCode) → KeepsDescriptors tree (after_read after_fault tree outcome) }
    ensures write { (tree : TreeState) (file : ℕ) (write : Write) (answer : Result ℕ StoreError) → KeepsDescriptors tree (unless_no_memory answer tree (after_write after_fault (with_file tree file) tree write)) }
{}

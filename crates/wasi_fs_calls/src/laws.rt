ghost use Rattle.std.specs.Prelude.{◌≡◌, Bool, true};
ghost use Rattle.wasi_clocks.specs.declared.wall_times.WallTime.{WallTime};
ghost use Rattle.wasi_fs.specs.Trees.{TreeState, with_nodes, IsOf, KeepsDescriptors};
ghost use Rattle.wasi_fs.specs.declared.descriptor.Descriptor.{Descriptor};
ghost use Rattle.wasi_fs_calls.specs.Rule.{answered, pair_answered, is_refusal, IsMadeIn, IsTold};
ghost use Rattle.wasi_fs_calls.specs.declared.call.DescriptorCall.{DescriptorCall};
ghost use Rattle.wasi_fs_calls.specs.declared.call.PairCall.{PairCall};

use wasi_fs::{calls_keep_kinds, openings_keep_kinds};

/// A law: a call that is refused leaves its tree as it was.
pub fn refused_calls_change_nothing()
    ensures one { (tree : TreeState) (at : Descriptor) (blocking : Bool) (now : WallTime) (call : DescriptorCall) → is_refusal (answered tree at blocking now call).answer ≡ true → (answered tree at blocking now call).left ≡ tree }
    ensures two { (tree : TreeState) (at to : Descriptor) (call : PairCall) → is_refusal (pair_answered tree at to call).answer ≡ true → (pair_answered tree at to call).left ≡ tree }
{}

/// A law: no call changes more of its tree than the nodes: its number, its planned fault and its
/// count of faults stay.
pub fn calls_change_nodes_alone()
    ensures one { (tree : TreeState) (at : Descriptor) (blocking : Bool) (now : WallTime) (call : DescriptorCall) → (answered tree at blocking now call).left ≡ with_nodes tree (answered tree at blocking now call).left.nodes }
    ensures two { (tree : TreeState) (at to : Descriptor) (call : PairCall) → (pair_answered tree at to call).left ≡ with_nodes tree (pair_answered tree at to call).left.nodes }
{}

/// A law: whatever the call, each descriptor of the tree stays one, and one that is made is of the
/// tree. A call on two descriptors makes none.
pub fn calls_keep_descriptors()
    ensures kept { (tree : TreeState) (at : Descriptor) (blocking : Bool) (now : WallTime) (call : DescriptorCall) → KeepsDescriptors tree (answered tree at blocking now call).left }
    ensures made { (tree : TreeState) (at : Descriptor) (blocking : Bool) (now : WallTime) (call : DescriptorCall) → IsOf tree at → IsMadeIn (answered tree at blocking now call).left (answered tree at blocking now call).answer }
    ensures kept_by_two { (tree : TreeState) (at to : Descriptor) (call : PairCall) → KeepsDescriptors tree (pair_answered tree at to call).left }
    ensures told { (tree : TreeState) (at to : Descriptor) (call : PairCall) → IsTold (pair_answered tree at to call).answer }
{
    calls_keep_kinds();
    openings_keep_kinds();
}

ghost use Rattle.std.specs.Prelude.{◌≡◌, ℕ, Bool, List, Option, IfOk};
ghost use Rattle.wasi_clocks.specs.declared.datetimes.Datetime.{Datetime};
ghost use Rattle.wasi_fs_nodes.specs.Bodies.{with_size, with_times};
ghost use Rattle.wasi_fs_nodes.specs.Climbs.{climbs};
ghost use Rattle.wasi_fs_nodes.specs.Changes.{made, linked, unlinked, directory_removed, renamed, sized, wrote};
ghost use Rattle.wasi_fs_nodes.specs.Nodes.{TellsBelow};
ghost use Rattle.wasi_fs_nodes.specs.Shape.{IsSound, KindsStay};
ghost use Rattle.wasi_fs_nodes.specs.declared.at.At.{At};
ghost use Rattle.wasi_fs_nodes.specs.declared.node.Node.{Node};

/// A law: in a sound tree the way up by the parents tells which directories lie below which.
pub fn below_is_told()
    ensures { (nodes : List Node) → IsSound nodes → TellsBelow nodes (climbs nodes) }
{}

/// A law: whatever the change, each node stays what it is, a file, a directory or a link, also
/// where no entry names it any more.
pub fn kinds_stay()
    ensures made { (nodes : List Node) (dir : ℕ) (name : List ℕ) (node : Node) → IfOk (made nodes dir name node) (KindsStay nodes) }
    ensures linked { (nodes : List Node) (dir : ℕ) (name : List ℕ) (node : ℕ) → IfOk (linked nodes dir name node) (KindsStay nodes) }
    ensures unlinked { (nodes : List Node) (dir : ℕ) (name : List ℕ) → IfOk (unlinked nodes dir name) (KindsStay nodes) }
    ensures removed { (nodes : List Node) (dir : ℕ) (name : List ℕ) → IfOk (directory_removed nodes dir name) (KindsStay nodes) }
    ensures renamed { (below : ℕ → ℕ → Bool) (nodes : List Node) (dir : ℕ) (name : List ℕ) (to : ℕ) (to_name : List ℕ) → IfOk (renamed below nodes dir name to to_name) (KindsStay nodes) }
    ensures sized { (nodes : List Node) (file size : ℕ) → IfOk (sized nodes file size) (KindsStay nodes) }
    ensures wrote { (nodes : List Node) (file : ℕ) (to : At) (bytes : List ℕ) → IfOk (wrote nodes file to bytes) (KindsStay nodes) }
    ensures emptied { (nodes : List Node) (file size : ℕ) → KindsStay nodes (with_size nodes file size) }
    ensures times { (nodes : List Node) (node : ℕ) (access modification : Option Datetime) → KindsStay nodes (with_times nodes node access modification) }
{}

ghost use Rattle.std.specs.Prelude.{◌≡◌, ◌+◌, ◌-◌, ◌<◌, ◌^◌, length, vec_capacity, Some, None, OnOk, OnErr, slice_index, slice_set};
ghost use Rattle.wasi_fs_nodes.specs.Bodies.{with_name, without_name, with_target, with_parent, with_written, with_size, with_times};
ghost use Rattle.wasi_fs_nodes.specs.Changes.{moved};
ghost use Rattle.wasi_fs_nodes.specs.Counts.{nodes_in, links_list};

use crate::node::Node;
use std::alloc::{AllocError, Global};
use wasi_clocks::Datetime;

/// A node, and how many entries name it.
#[derive(Drop)]
pub(crate) struct Row {
    pub(crate) node: Node,
    pub(crate) links: u64,
}

/// A node under a name, which had none.
pub(crate) fn put_name(
    rows: &mut Vec<Row>,
    alloc: Global,
    dir: u64,
    name: &str,
    node: u64,
) -> Result<(), AllocError>
    requires { dir < length rows.old.items }
    ensures nodes { OnOk result (nodes_in rows.new.items ≡ with_name (nodes_in rows.old.items) dir name.now node) }
    ensures links { links_list rows.new.items ≡ links_list rows.old.items }
    ensures err { OnErr result (nodes_in rows.new.items ≡ nodes_in rows.old.items) }
    ensures len { length rows.new.items ≡ length rows.old.items }
    ensures capacity { vec_capacity rows.new ≡ vec_capacity rows.old }
{
    rows[dir as usize].node.body.put(alloc, name, node)?;
    Ok(())
}

/// Without a name.
pub(crate) fn take_name(rows: &mut Vec<Row>, dir: u64, name: &str)
    requires { dir < length rows.old.items }
    ensures nodes { nodes_in rows.new.items ≡ without_name (nodes_in rows.old.items) dir name.now }
    ensures links { links_list rows.new.items ≡ links_list rows.old.items }
    ensures len { length rows.new.items ≡ length rows.old.items }
{
    rows[dir as usize].node.body.take(name);
}

/// Another node under a name that is there.
pub(crate) fn replace_name(rows: &mut Vec<Row>, dir: u64, name: &str, node: u64)
    requires { dir < length rows.old.items }
    ensures nodes { nodes_in rows.new.items ≡ with_target (nodes_in rows.old.items) dir name.now node }
    ensures links { links_list rows.new.items ≡ links_list rows.old.items }
    ensures len { length rows.new.items ≡ length rows.old.items }
{
    rows[dir as usize].node.body.replace(name, node);
}

/// One entry more names the node.
pub(crate) fn add_link(rows: &mut Vec<Row>, node: u64)
    requires within { node < length rows.old.items }
    requires few { slice_index (links_list rows.old.items) node + 1 < 2 ^ 64 }
    ensures nodes { nodes_in rows.new.items ≡ nodes_in rows.old.items }
    ensures links { links_list rows.new.items ≡ slice_set (links_list rows.old.items) node (slice_index (links_list rows.old.items) node + 1) }
    ensures len { length rows.new.items ≡ length rows.old.items }
{
    rows[node as usize].links += 1;
}

/// One entry less names the node.
pub(crate) fn drop_link(rows: &mut Vec<Row>, node: u64)
    requires within { node < length rows.old.items }
    requires some { 0 < slice_index (links_list rows.old.items) node }
    ensures nodes { nodes_in rows.new.items ≡ nodes_in rows.old.items }
    ensures links { links_list rows.new.items ≡ slice_set (links_list rows.old.items) node (slice_index (links_list rows.old.items) node - 1) }
    ensures len { length rows.new.items ≡ length rows.old.items }
{
    rows[node as usize].links -= 1;
}

/// A directory stands in another; a file or a link stays as it was.
pub(crate) fn set_parent(rows: &mut Vec<Row>, node: u64, dir: u64)
    requires { node < length rows.old.items }
    ensures nodes { nodes_in rows.new.items ≡ with_parent (nodes_in rows.old.items) node dir }
    ensures links { links_list rows.new.items ≡ links_list rows.old.items }
    ensures len { length rows.new.items ≡ length rows.old.items }
{
    rows[node as usize].node.body.set_parent(dir);
}

/// A node leaves its name for a new one.
pub(crate) fn move_name(
    rows: &mut Vec<Row>,
    alloc: Global,
    from: u64,
    name: &str,
    node: u64,
    to: u64,
    to_name: &str,
) -> Result<(), AllocError>
    requires from { from < length rows.old.items }
    requires node { node < length rows.old.items }
    requires to { to < length rows.old.items }
    ensures nodes { OnOk result (nodes_in rows.new.items ≡ moved (nodes_in rows.old.items) from name.now node to to_name.now None) }
    ensures links { links_list rows.new.items ≡ links_list rows.old.items }
    ensures err { OnErr result (nodes_in rows.new.items ≡ nodes_in rows.old.items) }
    ensures len { length rows.new.items ≡ length rows.old.items }
{
    put_name(rows, alloc, to, to_name, node)?;
    take_name(rows, from, name);
    set_parent(rows, node, to);
    Ok(())
}

/// A node leaves its name for that of another one.
pub(crate) fn move_over(
    rows: &mut Vec<Row>,
    from: u64,
    name: &str,
    node: u64,
    to: u64,
    to_name: &str,
    before: u64,
)
    requires from { from < length rows.old.items }
    requires node { node < length rows.old.items }
    requires to { to < length rows.old.items }
    requires before { before < length rows.old.items }
    requires some { 0 < slice_index (links_list rows.old.items) before }
    ensures nodes { nodes_in rows.new.items ≡ moved (nodes_in rows.old.items) from name.now node to to_name.now (Some before) }
    ensures links { links_list rows.new.items ≡ slice_set (links_list rows.old.items) before (slice_index (links_list rows.old.items) before - 1) }
    ensures len { length rows.new.items ≡ length rows.old.items }
{
    replace_name(rows, to, to_name, node);
    take_name(rows, from, name);
    set_parent(rows, node, to);
    drop_link(rows, before);
}

/// Bytes over those of a file from a place on.
pub(crate) fn write_bytes(
    rows: &mut Vec<Row>,
    file: u64,
    place: usize,
    more: &[u8],
) -> Result<(), AllocError>
    requires within { file < length rows.old.items }
    requires small { place + length more.now < 2 ^ 32 }
    ensures nodes { OnOk result (nodes_in rows.new.items ≡ with_written (nodes_in rows.old.items) file place more.now) }
    ensures links { links_list rows.new.items ≡ links_list rows.old.items }
    ensures err { OnErr result (nodes_in rows.new.items ≡ nodes_in rows.old.items) }
    ensures len { length rows.new.items ≡ length rows.old.items }
{
    rows[file as usize].node.body.write_at(place, more)?;
    Ok(())
}

/// A file's bytes cut to a size, or filled with zeros.
pub(crate) fn resize_file(rows: &mut Vec<Row>, file: u64, size: usize) -> Result<(), AllocError>
    requires { file < length rows.old.items }
    ensures nodes { OnOk result (nodes_in rows.new.items ≡ with_size (nodes_in rows.old.items) file size) }
    ensures links { links_list rows.new.items ≡ links_list rows.old.items }
    ensures err { OnErr result (nodes_in rows.new.items ≡ nodes_in rows.old.items) }
    ensures len { length rows.new.items ≡ length rows.old.items }
{
    rows[file as usize].node.body.resize(size)?;
    Ok(())
}

/// A file with no bytes.
pub(crate) fn clear_file(rows: &mut Vec<Row>, file: u64)
    requires { file < length rows.old.items }
    ensures nodes { nodes_in rows.new.items ≡ with_size (nodes_in rows.old.items) file 0 }
    ensures links { links_list rows.new.items ≡ links_list rows.old.items }
    ensures len { length rows.new.items ≡ length rows.old.items }
{
    rows[file as usize].node.body.clear();
}

/// Other times of a node.
pub(crate) fn set_times(
    rows: &mut Vec<Row>,
    node: u64,
    access: Option<Datetime>,
    modification: Option<Datetime>,
)
    requires { node < length rows.old.items }
    ensures nodes { nodes_in rows.new.items ≡ with_times (nodes_in rows.old.items) node access modification }
    ensures links { links_list rows.new.items ≡ links_list rows.old.items }
    ensures len { length rows.new.items ≡ length rows.old.items }
{
    let place = &mut rows[node as usize].node.times;
    *place = place.with(access, modification);
}

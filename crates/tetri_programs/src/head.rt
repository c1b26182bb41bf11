// The head of a program's text.
ghost use Rattle.std.specs.Prelude.{◌≡◌, ◌++◌, length, map, IfOk, OnOk, string_bytes};
ghost use Rattle.tetri_cluster.specs.Cluster.{name_at};
ghost use Rattle.tetri_programs.specs.Head.{count_text, cycle_line, head_text, mark_in, name_below, name_here, name_text, names_text, node_names, part_text, parts_text, room_behind, size_line};
ghost use Rattle.tetri_space.specs.Partitions.{ArePartitionsOf, parts_of};
ghost use Rattle.tetri_space.specs.Sound.{IsSound};
ghost use Rattle.tetri_space.specs.Space.{space};

use std::alloc::{AllocError, Global};
use std::fmt::Write;
use tetri_cluster::Cluster;
use tetri_compile::size;
use tetri_export::Format;
use tetri_space::{Instance, Partitions};

// For how many bytes of names a line has room, behind its mark and a blank.
const ROOM: usize = 98;

// What begins a line of comment.
fn mark_in(format: Format) -> &'static str
    ensures { result.now ≡ mark_in format }
{
    match format {
        Format::Lp => "\\",
        Format::Mps => "*",
    }
}

#[tactic(auto, unfolding(crate::specs::Head::cycle_line))]
fn add_cycle_line(out: &mut String, mark: &str, number: u32) -> Result<(), AllocError>
    ensures { OnOk result (string_bytes out.new ≡ string_bytes out.old ++ cycle_line mark.now number) }
{
    write!(out, "{mark} cycle {number}\n")
}

#[tactic(auto, unfolding(crate::specs::Head::size_line))]
fn add_size_line(out: &mut String, mark: &str, columns: u64, rows: u64) -> Result<(), AllocError>
    ensures { OnOk result (string_bytes out.new ≡ string_bytes out.old ++ size_line mark.now columns rows) }
{
    write!(out, "{mark} {columns} columns, {rows} rows\n")
}

#[tactic(auto, unfolding(crate::specs::Head::count_text))]
fn add_count(out: &mut String, mark: &str, part: u32, count: usize) -> Result<(), AllocError>
    ensures { OnOk result (string_bytes out.new ≡ string_bytes out.old ++ count_text mark.now part count) }
{
    write!(out, "{mark} part{part}: {count} nodes")
}

#[tactic(auto, unfolding(crate::specs::Head::name_here))]
fn add_name_here(out: &mut String, name: &str) -> Result<(), AllocError>
    ensures { OnOk result (string_bytes out.new ≡ string_bytes out.old ++ name_here name.now) }
{
    write!(out, " {name}")
}

#[tactic(auto, unfolding(crate::specs::Head::name_below))]
fn add_name_below(out: &mut String, mark: &str, name: &str) -> Result<(), AllocError>
    ensures { OnOk result (string_bytes out.new ≡ string_bytes out.old ++ name_below mark.now name.now) }
{
    write!(out, "\n{mark}  {name}")
}

// Adds a name behind a blank, in a new line where this one has no room for it, and tells the room behind it.
fn add_name(out: &mut String, mark: &str, room: usize, name: &str) -> Result<usize, AllocError>
    ensures text { OnOk result (string_bytes out.new ≡ string_bytes out.old ++ name_text mark.now room name.now) }
    ensures room { IfOk result (λ left. left ≡ room_behind room name.now) }
{
    if name.len() < room {
        add_name_here(out, name)?;
        return Ok(room - name.len() - 1);
    }
    add_name_below(out, mark, name)?;
    Ok(ROOM.saturating_sub(name.len()).saturating_sub(1))
}

// The name of a node, which is empty where the cluster has no such node.
fn node_name(cluster: &Cluster, node: u32) -> &str
    ensures { result.now ≡ name_at cluster.now node }
{
    if node < cluster.count() {
        cluster.name_of(node).text()
    } else {
        ""
    }
}

// Adds the names of nodes in lines of comment, and ends the last of them.
fn add_names(
    out: &mut String,
    mark: &str,
    cluster: &Cluster,
    nodes: &[u32],
) -> Result<(), AllocError>
    ensures { OnOk result (string_bytes out.new ≡ string_bytes out.old
        ++ names_text mark.now 0 (node_names cluster.entry.now nodes.now)) }
{
    let mut room = 0;
    for node in nodes {
        room = add_name(out, mark, room, node_name(cluster, *node))?;
    }
    out.push_str("\n")
}

// Adds a partition of this number: how many nodes it has, and which.
fn add_part(
    out: &mut String,
    mark: &str,
    cluster: &Cluster,
    part: u32,
    nodes: &[u32],
) -> Result<(), AllocError>
    ensures { OnOk result (string_bytes out.new ≡ string_bytes out.old
        ++ part_text mark.now part (node_names cluster.entry.now nodes.now)) }
{
    add_count(out, mark, part, nodes.len())?;
    add_names(out, mark, cluster, nodes)
}

// Adds the partitions.
fn add_parts(
    out: &mut String,
    mark: &str,
    cluster: &Cluster,
    parts: &Partitions,
) -> Result<(), AllocError>
    ensures { OnOk result (string_bytes out.new ≡ string_bytes out.old
        ++ parts_text mark.now cluster.entry.now (parts_of parts.now).groups) }
{
    for part in 0..parts.count() {
        add_part(out, mark, cluster, part, parts.nodes_of(part).as_slice())?;
    }
    Ok(())
}

/// The head: which cycle it is, how large its program is, and what nodes its partitions have.
pub(crate) fn head_of(
    alloc: Global,
    inst: &Instance,
    parts: &Partitions,
    cluster: &Cluster,
    format: Format,
) -> Result<String, AllocError>
    requires sound { IsSound (space inst.now) }
    requires partitions { ArePartitionsOf (space inst.now) (parts_of parts.now) }
    ensures { IfOk result (λ head. string_bytes head ≡ head_text format cluster.entry.now (space inst.entry.now)) }
{
    let mut out = String::new(alloc);
    let mark = mark_in(format);
    let (columns, rows) = size(inst, parts);
    add_cycle_line(&mut out, mark, inst.now)?;
    add_size_line(&mut out, mark, columns, rows)?;
    add_parts(&mut out, mark, cluster, parts)?;
    Ok(out)
}

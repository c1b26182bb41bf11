// A partition that is given by its hosts, as the lines that tell of its nodes.
ghost use Rattle.std.specs.Prelude.{◌≡◌, ◌++◌, OnOk, flat_map};
ghost use Rattle.tetri_workload.specs.Partitions.{host_line};

use std::alloc::{AllocError, Global};
use tetri_cluster::Name;
use tetri_hosts::{HostsFault, expand};
use tetri_io::{digits_below, parts_at};

// The hosts that a partition has at most.
const MOST_HOSTS: usize = 4096;

// The bytes behind which the digits at the end of a text begin, where there are some of both.
fn stem_of(text: &[u8]) -> Option<&[u8]> {
    let most = text.len().saturating_sub(1);
    let mut digits = 0usize;
    for b in text.iter().rev() {
        if !b.is_ascii_digit() || most <= digits {
            break;
        }
        digits += 1;
    }
    if digits == 0 || text.len() <= digits {
        return None;
    }
    Some(&text[..text.len() - digits])
}

// The stem of two hosts with numbers, if it is one.
fn shared_stem<'a>(first: &'a [u8], last: &[u8]) -> Option<&'a [u8]> {
    match (stem_of(first), stem_of(last)) {
        (Some(stem), Some(other)) if stem == other => Some(stem),
        _ => None,
    }
}

// Where the first `-` stands between two hosts that differ by their numbers alone.
fn range_mark(part: &[u8]) -> Option<usize> {
    for (i, b) in part.iter().enumerate() {
        if *b == b'-' && i < part.len() && shared_stem(&part[..i], &part[i + 1..]).is_some() {
            return Some(i);
        }
    }
    None
}

// A part of a list of hosts, where `n1-n8` is written `n[1-8]`.
fn add_part(list: &mut Vec<u8>, part: &[u8]) -> Result<(), AllocError> {
    let Some(mark) = range_mark(part) else {
        list.extend_from_slice(part)?;
        return Ok(());
    };
    if part.len() <= mark {
        return Ok(());
    }
    let first = &part[..mark];
    let last = &part[mark + 1..];
    match shared_stem(first, last) {
        Some(stem) if stem.len() <= first.len() && stem.len() <= last.len() => {
            list.extend_from_slice(stem)?;
            list.extend_from_slice(b"[")?;
            list.extend_from_slice(&first[stem.len()..])?;
            list.extend_from_slice(b"-")?;
            list.extend_from_slice(&last[stem.len()..])?;
            list.extend_from_slice(b"]")?;
            Ok(())
        }
        _ => Ok(()),
    }
}

// A list of hosts, where each part `n1-n8` is written `n[1-8]`. A list with brackets stays as it is.
fn long_form(alloc: Global, hosts: &[u8]) -> Result<Vec<u8>, AllocError> {
    if hosts.contains(&b'[') {
        return Vec::from_slice(alloc, hosts);
    }
    let mut list = Vec::new(alloc);
    let parts = parts_at(alloc, b',', hosts)?;
    for (place, part) in parts.iter().enumerate() {
        if place != 0 {
            list.push(b',')?;
        }
        add_part(&mut list, part)?;
    }
    Ok(list)
}

// The line of a host that is in a partition, as `n1|idle|batch|`.
fn add_line(lines: &mut Vec<u8>, partition: &[u8], host: &Name) -> Result<(), AllocError>
    ensures { OnOk result (lines.new.items ≡ lines.old.items ++ host_line partition.now host.now) }
{
    lines.extend_from_slice(host.bytes())?;
    lines.extend_from_slice(b"|idle|")?;
    lines.extend_from_slice(partition)?;
    lines.extend_from_slice(b"|\n")?;
    Ok(())
}

// The lines of hosts that are in a partition.
fn add_lines(lines: &mut Vec<u8>, partition: &[u8], hosts: &[Name]) -> Result<(), AllocError>
    ensures { OnOk result (lines.new.items ≡ lines.old.items ++ flat_map (host_line partition.now) hosts.now) }
{
    for host in hosts {
        add_line(lines, partition, host)?;
    }
    Ok(())
}

/// Adds the lines of the hosts of a partition, as `read_nodes` of tetri_hosts reads them. Hosts are a list as `n[1-8]`, in which without
/// brackets `n1-n8` means the same.
pub fn add_partition(
    alloc: Global,
    lines: &mut Vec<u8>,
    partition: &[u8],
    hosts: &[u8],
) -> Result<(), HostsFault> {
    let list = long_form(alloc, hosts)?;
    let names = expand(alloc, &list, MOST_HOSTS)?;
    add_lines(lines, partition, names.as_slice())?;
    Ok(())
}

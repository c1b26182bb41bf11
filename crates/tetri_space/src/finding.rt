// How the partitions are found: the nodes are grouped by the sets that they are in, and by when
// they are closed.
ghost use Rattle.std.specs.Prelude.{◌≡◌, ◌<◌, ◌≤◌, ◌++◌, ◌&&◌, ◌||◌, ◌∷◌, ℕ, [], true, false, length, map, replicate, slice_index_or, All, Contains, IfOk, OnOk, if◌then◌else◌};
ghost use Rattle.std.specs.List.{filter, range_with_len};
ghost use Rattle.std.specs.List.Sorted.{IsStrictlyIncreasing};
ghost use Rattle.tetri_strl.specs.Aligned.{EachLeaf};
ghost use Rattle.tetri_strl.specs.Tree.{leaves, tree};
ghost use Rattle.tetri_base.specs.Lists.{has, list_at};
ghost use Rattle.tetri_space.specs.steps.Finding.{AreSignatures, IsSigned, firsts, grouped};
ghost use Rattle.tetri_space.specs.Partitions.{live_bids, partitions, set_at, sets_in};
ghost use Rattle.tetri_space.specs.Sound.{IsSound};
ghost use Rattle.tetri_space.specs.Space.{bid, space};

use crate::{Instance, Offer};
use indexmap::IndexSet;
use std::alloc::{AllocError, Global};
use tetri_strl::{Expr, NodeList, prune};

// What is left of the jobs' expressions in the window.
pub fn live_offers(alloc: Global, inst: &Instance) -> Result<Vec<Offer>, AllocError>
    requires { IsSound (space inst.now) }
    ensures { IfOk result (λ os. map bid os.items ≡ live_bids (space inst.entry.now)) }
{
    let mut live = Vec::new(alloc);
    for offer in &inst.jobs {
        if let Some(expr) = prune(alloc, &offer.expr, inst.now, inst.now + inst.window)? {
            live.push(Offer {
                job: offer.job,
                expr,
            })?;
        }
    }
    Ok(live)
}

// Marks the sets that the leaves of an expression name.
fn mark_sets(e: &Expr, used: &mut Vec<bool>)
    requires { EachLeaf (λ l. l.set < length used.old.items) (tree e.now) }
    ensures count { length used.new.items ≡ length used.old.items }
    ensures marks { (k : ℕ) → slice_index_or used.new.items k false
        ≡ (slice_index_or used.old.items k false
        || has (map (λ l. l.set) (leaves (tree e.now))) k) }
{
    match e {
        Expr::One(leaf) => {
            used[leaf.set as usize] = true;
        }
        Expr::Max(parts) | Expr::Min(parts) | Expr::Sum(parts) => {
            for part in parts {
                mark_sets(part, used);
            }
        }
        Expr::Scale(part, _) | Expr::Barrier(part, _) => mark_sets(part, used),
    }
}

// By set, whether some leaf of these offers names it.
pub fn used_sets(alloc: Global, offers: &[Offer], count: u32) -> Result<Vec<bool>, AllocError>
    requires { All (λ k. k < count) (sets_in (map bid offers.now)) }
    ensures count { IfOk result (λ u. length u.items ≡ count) }
    ensures marks { IfOk result (λ u. (k : ℕ)
        → slice_index_or u.items k false ≡ has (sets_in (map bid offers.now)) k) }
{
    let mut used = vec![in alloc; false; count as usize]?;
    for offer in offers {
        mark_sets(&offer.expr, &mut used);
    }
    Ok(used)
}

fn empty_lists(alloc: Global, count: usize) -> Result<Vec<Vec<u32>>, AllocError>
    ensures { IfOk result (λ v. map (λ x. x.items) v.items ≡ replicate count []) }
{
    let mut lists = Vec::with_capacity(alloc, count)?;
    for _ in 0..count {
        lists.push(Vec::new(alloc))?;
    }
    Ok(lists)
}

// Puts a number last in the lists at these places, as far as there are lists.
fn add_to_each(lists: &mut Vec<Vec<u32>>, places: &[u32], number: u32) -> Result<(), AllocError>
    requires { IsStrictlyIncreasing places.now }
    ensures count { OnOk result (length lists.new.items ≡ length lists.old.items) }
    ensures added { OnOk result ((j : ℕ) → j < length lists.old.items → list_at lists.new.items j
        ≡ list_at lists.old.items j ++ (if has places.now j then number ∷ [] else [])) }
{
    for place in places {
        let place = *place as usize;
        if place >= lists.len() {
            return Ok(());
        }
        lists[place].push(number)?;
    }
    Ok(())
}

// By node, the used sets that it is in, ascending.
pub fn signatures_of(
    alloc: Global,
    inst: &Instance,
    used: &[bool],
) -> Result<Vec<Vec<u32>>, AllocError>
    requires sound { IsSound (space inst.now) }
    requires count { length used.now ≡ length inst.now.sets.value }
    requires there { (k : ℕ) → slice_index_or used.now k false ≡ true
        → All (λ n. n < inst.now.nodes) (set_at (space inst.now) k) }
    ensures count { IfOk result (λ v. length v.items ≡ inst.entry.now.nodes) }
    ensures sets { IfOk result (λ v. (n : ℕ) → n < inst.entry.now.nodes → list_at v.items n
        ≡ filter (λ k. slice_index_or used.now k false
        && has (set_at (space inst.entry.now) k) n) (range_with_len 0 (length used.now))) }
{
    let mut signatures = empty_lists(alloc, inst.nodes as usize)?;
    for set in 0..inst.sets.len() {
        if used[set as usize] {
            add_to_each(&mut signatures, inst.sets.nodes_of(set).as_slice(), set)?;
        }
    }
    Ok(signatures)
}

// Puts the slots from now on in which a node closes or opens behind its sets, each as a number past
// those of the sets. A node that is in no used set is passed over.
fn sign(signature: &mut Vec<u32>, inst: &Instance, base: u32, node: u32) -> Result<(), AllocError>
    requires sound { IsSound (space inst.now) }
    requires few { base ≤ 4096 }
    ensures { OnOk result
        (IsSigned (space inst.entry.now) base node signature.old.items signature.new.items) }
{
    if signature.is_empty() {
        return Ok(());
    }
    inst.closures.push_turns(node, inst.now, base, signature)?;
    Ok(())
}

// The same for each node.
fn sign_each(signatures: &mut Vec<Vec<u32>>, inst: &Instance, base: u32) -> Result<(), AllocError>
    requires sound { IsSound (space inst.now) }
    requires few { base ≤ 4096 }
    requires count { length signatures.old.items ≡ inst.now.nodes }
    ensures count { OnOk result (length signatures.new.items ≡ inst.entry.now.nodes) }
    ensures signed { OnOk result ((n : ℕ) → n < inst.entry.now.nodes
        → IsSigned (space inst.entry.now) base n (list_at signatures.old.items n)
        (list_at signatures.new.items n)) }
{
    for node in 0..inst.nodes {
        sign(&mut signatures[node as usize], inst, base, node)?;
    }
    Ok(())
}

// The signatures that are not empty, in the order of their first nodes, and the nodes of each.
#[derive(Drop)]
pub struct Grouped {
    pub signatures: IndexSet<Vec<u32>>,
    pub groups: Vec<NodeList>,
}

// Groups nodes of one signature, by their least nodes.
pub fn group_nodes(alloc: Global, signatures: &[Vec<u32>]) -> Result<Grouped, AllocError>
    requires { length signatures.now ≤ 4096 }
    ensures signatures { IfOk result (λ g. map (λ v. v.items) g.signatures.keys
        ≡ map (list_at signatures.now) (firsts (list_at signatures.now) (length signatures.now))) }
    ensures groups { IfOk result (λ g. g.groups.items
        ≡ grouped (list_at signatures.now) (length signatures.now)) }
{
    let mut found = IndexSet::new(alloc);
    let mut groups: Vec<NodeList> = Vec::new(alloc);
    for node in 0..signatures.len() {
        let signature = signatures[node].as_slice();
        if !signature.is_empty() {
            match found.get_index_of(signature) {
                Some(place) => groups[place].push(node as u32)?,
                None => {
                    found.insert(Vec::from_slice(alloc, signature)?)?;
                    let mut group = NodeList::new(alloc);
                    group.push(node as u32)?;
                    groups.push(group)?;
                }
            }
        }
    }
    Ok(Grouped {
        signatures: found,
        groups,
    })
}

// Groups the nodes by the sets that the live leaves name, and by when they are closed: the
// partitions, and their signatures.
pub fn group_alike(alloc: Global, inst: &Instance, live: &[Offer]) -> Result<Grouped, AllocError>
    requires sound { IsSound (space inst.now) }
    requires live { map bid live.now ≡ live_bids (space inst.now) }
    ensures groups { IfOk result (λ g. g.groups.items ≡ partitions (space inst.entry.now)) }
    ensures few { IfOk result (λ g. length g.groups.items ≤ 4096) }
    ensures signatures { IfOk result (λ g. AreSignatures (space inst.entry.now) g.signatures.keys) }
{
    let used = used_sets(alloc, live, inst.sets.len())?;
    let mut signatures = signatures_of(alloc, inst, &used)?;
    sign_each(&mut signatures, inst, inst.sets.len())?;
    let grouped = group_nodes(alloc, &signatures)?;
    Ok(grouped)
}

// By set, the places of the signatures that have it. Their numbers past the sets count for nothing.
pub fn parts_by_set(
    alloc: Global,
    signatures: &[Vec<u32>],
    sets: u32,
) -> Result<Vec<Vec<u32>>, AllocError>
    requires ascending { All (λ v. IsStrictlyIncreasing v.items) signatures.now }
    requires few { length signatures.now ≤ 4096 }
    ensures count { IfOk result (λ v. length v.items ≡ sets) }
    ensures ascending { IfOk result (λ v. All (λ w. IsStrictlyIncreasing w.items) v.items) }
    ensures parts { IfOk result (λ v. (k : ℕ) → k < sets → list_at v.items k
        ≡ filter (λ p. has (list_at signatures.now p) k)
        (range_with_len 0 (length signatures.now))) }
{
    let mut inside = empty_lists(alloc, sets as usize)?;
    for part in 0..signatures.len() {
        add_to_each(&mut inside, signatures[part].as_slice(), part as u32)?;
    }
    Ok(inside)
}

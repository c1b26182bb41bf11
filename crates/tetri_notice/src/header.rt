// The header of a trace.
ghost use Rattle.std.specs.Prelude.{◌≡◌, ◌≤◌, length, true, codes, All, IfOk, option_and_then, ok_or};
ghost use Rattle.serde_json.specs.View.{items_view, view};
ghost use Rattle.serde_json.specs.Find.{as_array};
ghost use Rattle.tetri_cluster.specs.Cluster.{names_of};
ghost use Rattle.tetri_cluster.specs.Names.{is_name};
ghost use Rattle.tetri_notice.specs.Answers.{Gives};
ghost use Rattle.tetri_notice.specs.Fields.{names_in, node_in, nodes_in, optional, tags_of};
ghost use Rattle.tetri_notice.specs.Headers.{cluster_in, header_in, header_keys, header_text, key_values, limits_in, IsSoundHeader, IsSoundHeaderText};
ghost use Rattle.tetri_notice.specs.declared.fault.Field.TheVariants as fields;
ghost use Rattle.tetri_notice.specs.declared.fault.TraceWhy.TheVariants as whys;

use crate::closures::{ClosureText, closures_of};
use crate::fault::{Field, Stop, TraceWhy};
use crate::field::{bad, name_in, number_in, optional, read_name, required, unit_in};
use serde_json::Value;
use std::alloc::Global;
use tetri_cluster::{NameList, NodeText};

const NODES_MOST: usize = 4096;

/// The limits of a run: the slots of the window, the nodes of a search tree, the number of cycles, and
/// what each written worth is multiplied by.
#[derive(Clone, Copy, Debug, PartialEq, Eq)]
pub struct Header {
    pub window: u32,
    pub budget: u32,
    pub until: u32,
    pub unit: u64,
}

/// What a header says, with names for what has no number yet.
#[derive(Drop)]
pub struct HeaderText {
    pub header: Header,
    pub nodes: Vec<NodeText>,
    pub closures: Vec<ClosureText>,
}

// The values of the keys that have to be there.
#[derive(Clone, Copy, Debug)]
struct HeaderKeys<'v> {
    nodes: &'v Value,
    window: &'v Value,
    budget: &'v Value,
    until: &'v Value,
}

#[tactic(auto, unfolding(crate::specs::Headers::header_keys))]
fn header_keys(object: &Value) -> Result<HeaderKeys, Stop>
    ensures { Gives key_values result (header_keys (view object.now)) }
{
    let Some(nodes) = object.get("nodes") else {
        return Err(Stop::Because(TraceWhy::NoHeader));
    };
    let window = required(object, "window", Field::Window)?;
    let budget = required(object, "budget", Field::Budget)?;
    let until = required(object, "until", Field::Until)?;
    Ok(HeaderKeys {
        nodes,
        window,
        budget,
        until,
    })
}

fn names_in(alloc: Global, list: &[Value]) -> Result<NameList, Stop>
    ensures { Gives (λ l. l) result (ok_or (names_in (items_view list.now)) (whys.BadField fields.Nodes)) }
{
    let mut names = NameList::new(alloc);
    for item in list {
        let name = name_in(item, Field::Nodes)?;
        names.push(read_name(alloc, name)?)?;
    }
    Ok(names)
}

fn array_in(value: &Value) -> Result<&Vec<Value>, Stop>
    ensures { Gives (λ v. items_view v.now.items) result (ok_or (as_array (view value.now)) (whys.BadField fields.Nodes)) }
{
    match value.as_array() {
        Some(list) => Ok(list),
        None => Err(bad(Field::Nodes)),
    }
}

fn tags_in(alloc: Global, node: &Value) -> Result<NameList, Stop>
    ensures { Gives (λ l. l) result (ok_or (tags_of (optional (codes "tags") (view node.now))) (whys.BadField fields.Nodes)) }
{
    match optional(node, "tags") {
        Some(tags) => {
            let list = array_in(tags)?;
            names_in(alloc, list)
        }
        None => Ok(NameList::new(alloc)),
    }
}

fn node_in(alloc: Global, value: &Value) -> Result<NodeText, Stop>
    ensures named { IfOk result (λ n. is_name n.name ≡ true) }
    ensures value { Gives (λ n. n) result (ok_or (node_in (view value.now)) (whys.BadField fields.Nodes)) }
{
    let Some(name) = value.get("name") else {
        return Err(bad(Field::Nodes));
    };
    let name = name_in(name, Field::Nodes)?;
    let name = read_name(alloc, name)?;
    let tags = tags_in(alloc, value)?;
    Ok(NodeText { name, tags })
}

fn nodes_in(alloc: Global, value: &Value) -> Result<Vec<NodeText>, Stop>
    ensures named { IfOk result (λ v. All (λ name. is_name name ≡ true) (names_of v.items)) }
    ensures value { Gives (λ v. v.items) result (ok_or (option_and_then nodes_in (as_array (view value.now))) (whys.BadField fields.Nodes)) }
{
    let list = array_in(value)?;
    let mut nodes = Vec::new(alloc);
    for item in list {
        nodes.push(node_in(alloc, item)?)?;
    }
    Ok(nodes)
}

fn some_nodes_in(alloc: Global, value: &Value) -> Result<Vec<NodeText>, Stop>
    ensures named { IfOk result (λ v. All (λ name. is_name name ≡ true) (names_of v.items)) }
    ensures count { IfOk result (λ v. (1 ≤ length v.items) × (length v.items ≤ 4096)) }
    ensures value { Gives (λ v. v.items) result (ok_or (cluster_in (view value.now)) (whys.BadField fields.Nodes)) }
{
    let nodes = nodes_in(alloc, value)?;
    if nodes.is_empty() || nodes.len() > NODES_MOST {
        return Err(bad(Field::Nodes));
    }
    Ok(nodes)
}

#[tactic(auto, unfolding(crate::specs::Headers::limits_in))]
fn limits_in(keys: HeaderKeys, object: &Value) -> Result<Header, Stop>
    ensures value { Gives (λ h. h) result (limits_in (key_values keys.entry) (view object.now)) }
    ensures sound { IfOk result IsSoundHeader }
{
    let window = number_in(keys.window, 1, 64, Field::Window)?;
    let budget = number_in(keys.budget, 1, 10_000, Field::Budget)?;
    let until = number_in(keys.until, 1, 10_000, Field::Until)?;
    let unit = u64::from(unit_in(object)?);
    Ok(Header {
        window,
        budget,
        until,
        unit,
    })
}

/// The header that an object is.
#[tactic(auto, unfolding(crate::specs::Headers::header_in))]
pub fn header_in(alloc: Global, object: &Value) -> Result<HeaderText, Stop>
    ensures value { Gives header_text result (header_in (view object.now)) }
    ensures sound { IfOk result (λ h. IsSoundHeaderText (header_text h)) }
{
    let keys = header_keys(object)?;
    let nodes = some_nodes_in(alloc, keys.nodes)?;
    let header = limits_in(keys, object)?;
    let closures = closures_of(alloc, object)?;
    Ok(HeaderText {
        header,
        nodes,
        closures,
    })
}

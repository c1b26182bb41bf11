// The lines that tell what prices make of the bounds of cycles.
ghost use Rattle.std.specs.Prelude.{◌≡◌, ◌++◌, flat_map, OnOk, string_bytes};
ghost use Rattle.tetri_cluster.specs.Cluster.{name_at};
ghost use Rattle.tetri_priced.specs.Text.{cycle_text, node_line, price_line, priced_line, prices_text, totals_line};
ghost use Rattle.tetri_report.specs.Text.{entry};
ghost use Rattle.tetri_trace.specs.Scenario.{scenario};

use crate::cycle::PricedCycle;
use crate::lowest::NodePrice;
use std::alloc::AllocError;
use std::fmt::Write;
use tetri_trace::Trace;

// The name of a node, which is empty where the trace has no such node.
fn node_name(trace: &Trace, node: u32) -> &str
    ensures { result.now ≡ name_at (scenario trace.entry.now).nodes node }
{
    if node < trace.cluster.count() {
        trace.cluster.name_of(node).text()
    } else {
        ""
    }
}

// Adds the price of a node, a fraction, for a slot.
#[tactic(auto, unfolding(crate::specs::Text::price_line))]
fn add_price_line(
    out: &mut String,
    name: &str,
    slot: u32,
    price: u64,
    unit: u64,
) -> Result<(), AllocError>
    ensures { OnOk result (string_bytes out.new ≡ string_bytes out.old ++ price_line name.now slot price unit) }
{
    write!(out, "price {name} {slot} {price}/{unit}\n")
}

// Adds a price.
fn add_price(out: &mut String, trace: &Trace, price: &NodePrice) -> Result<(), AllocError>
    ensures { OnOk result (string_bytes out.new ≡ string_bytes out.old ++ node_line (scenario trace.entry.now) price.entry.now) }
{
    let name = node_name(trace, price.node);
    add_price_line(out, name, price.slot, price.price, price.unit)
}

// Adds the lines of prices.
fn add_price_lines(out: &mut String, trace: &Trace, prices: &[NodePrice]) -> Result<(), AllocError>
    ensures { OnOk result (string_bytes out.new ≡ string_bytes out.old ++ flat_map (node_line (scenario trace.entry.now)) prices.entry.now) }
{
    for price in prices {
        add_price(out, trace, price)?;
    }
    Ok(())
}

// Adds the lines of prices, where they are asked for.
fn add_prices(
    out: &mut String,
    trace: &Trace,
    wanted: bool,
    prices: &[NodePrice],
) -> Result<(), AllocError>
    ensures { OnOk result (string_bytes out.new ≡ string_bytes out.old ++ prices_text (scenario trace.entry.now) wanted prices.entry.now) }
{
    if wanted {
        add_price_lines(out, trace, prices)
    } else {
        Ok(())
    }
}

// Adds the first line of a cycle.
#[tactic(auto, unfolding(crate::specs::Text::priced_line))]
fn add_priced_line(
    out: &mut String,
    number: u32,
    value: u64,
    bound: u64,
    priced: u64,
) -> Result<(), AllocError>
    ensures { OnOk result (string_bytes out.new ≡ string_bytes out.old ++ priced_line number value bound priced) }
{
    write!(out, "priced {number} {value} {bound} {priced}\n")
}

/// Adds the lines of a cycle.
pub(crate) fn add_cycle(
    out: &mut String,
    trace: &Trace,
    wanted: bool,
    cycle: &PricedCycle,
) -> Result<(), AllocError>
    ensures { OnOk result (string_bytes out.new ≡ string_bytes out.old ++ cycle_text (scenario trace.entry.now) wanted cycle.entry.now) }
{
    add_priced_line(out, cycle.number, cycle.value, cycle.bound, cycle.priced)?;
    add_prices(out, trace, wanted, &cycle.prices)
}

// Adds a key and its number, as ` key=5`.
#[tactic(auto, unfolding(tetri_report::specs::Text::entry))]
fn add_entry(out: &mut String, key: &str, number: u128) -> Result<(), AllocError>
    ensures { OnOk result (string_bytes out.new ≡ string_bytes out.old ++ entry key.now number) }
{
    write!(out, " {key}={number}")
}

/// Adds the last line.
#[tactic(auto, unfolding(crate::specs::Text::totals_line))]
pub(crate) fn add_totals_line(
    out: &mut String,
    cycles: usize,
    optimal: usize,
    value: u128,
    bound: u128,
    priced: u128,
) -> Result<(), AllocError>
    ensures { OnOk result (string_bytes out.new ≡ string_bytes out.old ++ totals_line cycles optimal value bound priced) }
{
    out.push_str("summary")?;
    add_entry(out, "cycles", cycles as u128)?;
    add_entry(out, "optimal", optimal as u128)?;
    add_entry(out, "value", value)?;
    add_entry(out, "bound", bound)?;
    add_entry(out, "priced", priced)?;
    out.push_str("\n")
}

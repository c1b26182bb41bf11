// Texts of given words and numbers.
ghost use Rattle.std.specs.Prelude.{◌≡◌, ◌++◌, OnOk, string_bytes};
ghost use Rattle.tetri_svg.specs.Plain.{awaited_text, axis_at_text, bounded_text, coloured_text, counts_text, close_text, cycle_line_text, cycle_name_text, date_text, fared_text, font_text, label_text, legend_at_text, level_text, marked_text, named_text, number_text, of_text, out_text, part_text, ran_text, rect_text, size_text, slot_text, slots_text, svg_text, time_text, upright_text, used_text, valued_text, view_text, waiting_text};

use crate::clock::Date;
use std::alloc::AllocError;
use std::fmt::Write;

/// Adds the opening of a rectangle of this class.
#[tactic(auto, unfolding(crate::specs::Plain::rect_text))]
pub(crate) fn add_rect(out: &mut String, class: &str) -> Result<(), AllocError>
    ensures { OnOk result (string_bytes out.new ≡ string_bytes out.old ++ rect_text class.now) }
{
    write!(out, "<rect class=\"{class}\"")
}

/// Adds the opening of a bar in this colour.
#[tactic(auto, unfolding(crate::specs::Plain::coloured_text))]
pub(crate) fn add_coloured(out: &mut String, colour: u32) -> Result<(), AllocError>
    ensures { OnOk result (string_bytes out.new ≡ string_bytes out.old ++ coloured_text colour) }
{
    write!(out, "<rect class=\"bar j{colour}\"")
}

/// Adds the opening of a mark of this class.
#[tactic(auto, unfolding(crate::specs::Plain::marked_text))]
pub(crate) fn add_marked(out: &mut String, class: &str) -> Result<(), AllocError>
    ensures { OnOk result (string_bytes out.new ≡ string_bytes out.old ++ marked_text class.now) }
{
    write!(out, "<rect class=\"mark {class}\"")
}

/// Adds the first words of the title of a bar.
#[tactic(auto, unfolding(crate::specs::Plain::ran_text))]
pub(crate) fn add_ran(
    out: &mut String,
    job: &str,
    node: &str,
    from: u32,
    last: u32,
) -> Result<(), AllocError>
    ensures { OnOk result (string_bytes out.new ≡ string_bytes out.old ++ ran_text job.now node.now from last) }
{
    write!(out, "><title>{job} on {node}: slots {from} to {last}")
}

/// Adds the last words of the title of a bar.
#[tactic(auto, unfolding(crate::specs::Plain::fared_text))]
pub(crate) fn add_fared(out: &mut String, expected: u32, fate: &str) -> Result<(), AllocError>
    ensures { OnOk result (string_bytes out.new ≡ string_bytes out.old ++ fared_text expected fate.now) }
{
    write!(out, ", expected to {expected}, {fate}")
}

/// Adds the title of a shade.
#[tactic(auto, unfolding(crate::specs::Plain::out_text))]
pub(crate) fn add_out(
    out: &mut String,
    name: &str,
    words: &str,
    from: u32,
    last: u32,
) -> Result<(), AllocError>
    ensures { OnOk result (string_bytes out.new ≡ string_bytes out.old ++ out_text name.now words.now from last) }
{
    write!(out, "><title>{name}: {words}, slots {from} to {last}")
}

/// Adds the first words of the title of what waits.
#[tactic(auto, unfolding(crate::specs::Plain::awaited_text))]
pub(crate) fn add_awaited(out: &mut String, job: &str, node: &str) -> Result<(), AllocError>
    ensures { OnOk result (string_bytes out.new ≡ string_bytes out.old ++ awaited_text job.now node.now) }
{
    write!(out, "><title>{job} on {node}: planned for ")
}

/// Adds some slots.
#[tactic(auto, unfolding(crate::specs::Plain::slots_text))]
pub(crate) fn add_slots(out: &mut String, from: u32, last: u32) -> Result<(), AllocError>
    ensures { OnOk result (string_bytes out.new ≡ string_bytes out.old ++ slots_text from last) }
{
    write!(out, "slots {from} to {last}")
}

/// Adds the first words of the title of the numbers of a cycle.
#[tactic(auto, unfolding(crate::specs::Plain::valued_text))]
pub(crate) fn add_valued(out: &mut String, slot: u32, value: u64) -> Result<(), AllocError>
    ensures { OnOk result (string_bytes out.new ≡ string_bytes out.old ++ valued_text slot value) }
{
    write!(out, "><title>cycle {slot}: value {value}")
}

/// Adds the last words of the title of the numbers of a cycle.
#[tactic(auto, unfolding(crate::specs::Plain::bounded_text))]
pub(crate) fn add_bounded(out: &mut String, bound: u64, mark: &str) -> Result<(), AllocError>
    ensures { OnOk result (string_bytes out.new ≡ string_bytes out.old ++ bounded_text bound mark.now) }
{
    write!(out, ", bound {bound}, {mark}")
}

/// Adds the title of the jobs that wait behind a cycle.
#[tactic(auto, unfolding(crate::specs::Plain::waiting_text))]
pub(crate) fn add_waiting(out: &mut String, slot: u32, jobs: u64) -> Result<(), AllocError>
    ensures { OnOk result (string_bytes out.new ≡ string_bytes out.old ++ waiting_text slot jobs) }
{
    write!(out, "><title>slot {slot}: {jobs} jobs wait")
}

/// Adds the title of the nodes in use in a slot.
#[tactic(auto, unfolding(crate::specs::Plain::used_text))]
pub(crate) fn add_used(out: &mut String, slot: u32, used: u32, nodes: u32) -> Result<(), AllocError>
    ensures { OnOk result (string_bytes out.new ≡ string_bytes out.old ++ used_text slot used nodes) }
{
    write!(out, "><title>slot {slot}: {used} of {nodes} nodes in use")
}

/// Adds a name, which ends at this place.
#[tactic(auto, unfolding(crate::specs::Plain::named_text))]
pub(crate) fn add_named(out: &mut String, x: u64, y: u64, name: &str) -> Result<(), AllocError>
    ensures { OnOk result (string_bytes out.new ≡ string_bytes out.old ++ named_text x y name.now) }
{
    write!(
        out,
        "<text class=\"names\" x=\"{x}\" y=\"{y}\">{name}</text>\n"
    )
}

/// Adds a number, which ends at this place.
#[tactic(auto, unfolding(crate::specs::Plain::number_text))]
pub(crate) fn add_number(out: &mut String, x: u64, y: u64, number: u64) -> Result<(), AllocError>
    ensures { OnOk result (string_bytes out.new ≡ string_bytes out.old ++ number_text x y number) }
{
    write!(
        out,
        "<text class=\"names\" x=\"{x}\" y=\"{y}\">{number}</text>\n"
    )
}

/// Adds a name in this colour, which begins at this place.
#[tactic(auto, unfolding(crate::specs::Plain::label_text))]
pub(crate) fn add_label(
    out: &mut String,
    colour: u32,
    x: u64,
    y: u64,
    name: &str,
) -> Result<(), AllocError>
    ensures { OnOk result (string_bytes out.new ≡ string_bytes out.old ++ label_text colour x y name.now) }
{
    write!(
        out,
        "<text class=\"label l{colour}\" x=\"{x}\" y=\"{y}\">{name}</text>\n"
    )
}

/// Adds an upright line of the grid.
#[tactic(auto, unfolding(crate::specs::Plain::upright_text))]
pub(crate) fn add_upright(out: &mut String, x: u64, end: u64) -> Result<(), AllocError>
    ensures { OnOk result (string_bytes out.new ≡ string_bytes out.old ++ upright_text x end) }
{
    write!(out, "<path class=\"grid\" d=\"M{x} 39V{end}\"/>")
}

/// Adds a level line of the grid.
#[tactic(auto, unfolding(crate::specs::Plain::level_text))]
pub(crate) fn add_level(out: &mut String, x: u64, y: u64, end: u64) -> Result<(), AllocError>
    ensures { OnOk result (string_bytes out.new ≡ string_bytes out.old ++ level_text x y end) }
{
    write!(out, "<path class=\"grid\" d=\"M{x} {y}H{end}\"/>\n")
}

/// Adds the number of a slot.
#[tactic(auto, unfolding(crate::specs::Plain::slot_text))]
pub(crate) fn add_slot(out: &mut String, x: u64, slot: u32) -> Result<(), AllocError>
    ensures { OnOk result (string_bytes out.new ≡ string_bytes out.old ++ slot_text x slot) }
{
    write!(
        out,
        "<text class=\"axis\" x=\"{x}\" y=\"36\">{slot}</text>\n"
    )
}

/// Adds the opening of the words at the axis.
#[tactic(auto, unfolding(crate::specs::Plain::axis_at_text))]
pub(crate) fn add_axis_at(out: &mut String, x: u64) -> Result<(), AllocError>
    ensures { OnOk result (string_bytes out.new ≡ string_bytes out.old ++ axis_at_text x) }
{
    write!(out, "<text class=\"axis\" x=\"{x}\" y=\"36\">")
}

/// Adds a date, with a space behind it.
#[tactic(auto, unfolding(crate::specs::Plain::date_text))]
pub(crate) fn add_date(out: &mut String, date: Date) -> Result<(), AllocError>
    ensures { OnOk result (string_bytes out.new ≡ string_bytes out.old ++ date_text date.year date.month date.day) }
{
    write!(
        out,
        "{}-{}{}-{}{} ",
        date.year,
        date.month / 10,
        date.month % 10,
        date.day / 10,
        date.day % 10
    )
}

/// Adds a time of the day, and the end of the words at the axis.
#[tactic(auto, unfolding(crate::specs::Plain::time_text))]
pub(crate) fn add_time(out: &mut String, hour: u64, minute: u64) -> Result<(), AllocError>
    ensures { OnOk result (string_bytes out.new ≡ string_bytes out.old ++ time_text hour minute) }
{
    write!(
        out,
        "{}{}:{}{}</text>\n",
        hour / 10,
        hour % 10,
        minute / 10,
        minute % 10
    )
}

/// Adds the line at which a cycle begins.
#[tactic(auto, unfolding(crate::specs::Plain::cycle_line_text))]
pub(crate) fn add_cycle_line(out: &mut String, x: u64, end: u64) -> Result<(), AllocError>
    ensures { OnOk result (string_bytes out.new ≡ string_bytes out.old ++ cycle_line_text x end) }
{
    write!(out, "<path class=\"asked\" d=\"M{x} 39V{end}\">")
}

/// Adds what a picture is of.
#[tactic(auto, unfolding(crate::specs::Plain::counts_text))]
pub(crate) fn add_counts(
    out: &mut String,
    pieces: usize,
    nodes: u32,
    slots: u32,
) -> Result<(), AllocError>
    ensures { OnOk result (string_bytes out.new ≡ string_bytes out.old ++ counts_text pieces nodes slots) }
{
    write!(out, "{pieces} pieces on {nodes} nodes in {slots} slots")
}

/// Adds what a picture of a part is of.
#[tactic(auto, unfolding(crate::specs::Plain::part_text))]
pub(crate) fn add_part(out: &mut String, pieces: usize, nodes: u32) -> Result<(), AllocError>
    ensures { OnOk result (string_bytes out.new ≡ string_bytes out.old ++ part_text pieces nodes) }
{
    write!(out, "{pieces} pieces on {nodes} nodes in ")
}

/// Adds of which slots a part is.
#[tactic(auto, unfolding(crate::specs::Plain::of_text))]
pub(crate) fn add_of(out: &mut String, slots: u32) -> Result<(), AllocError>
    ensures { OnOk result (string_bytes out.new ≡ string_bytes out.old ++ of_text slots) }
{
    write!(out, " of {slots}")
}

/// Adds the size of a picture.
#[tactic(auto, unfolding(crate::specs::Plain::size_text))]
pub(crate) fn add_size(out: &mut String, width: u64, height: u64) -> Result<(), AllocError>
    ensures { OnOk result (string_bytes out.new ≡ string_bytes out.old ++ size_text width height) }
{
    write!(out, " width=\"{width}\" height=\"{height}\"")
}

/// Adds what is seen of a picture.
#[tactic(auto, unfolding(crate::specs::Plain::view_text))]
pub(crate) fn add_view(out: &mut String, width: u64, height: u64) -> Result<(), AllocError>
    ensures { OnOk result (string_bytes out.new ≡ string_bytes out.old ++ view_text width height) }
{
    write!(out, " viewBox=\"0 0 {width} {height}\"")
}

/// Adds the opening of a picture.
#[tactic(auto, unfolding(crate::specs::Plain::svg_text))]
pub(crate) fn add_svg(out: &mut String) -> Result<(), AllocError>
    ensures { OnOk result (string_bytes out.new ≡ string_bytes out.old ++ svg_text) }
{
    out.push_str("<svg xmlns=\"http://www.w3.org/2000/svg\"")
}

/// Adds the letters of a picture, and ends its opening.
#[tactic(auto, unfolding(crate::specs::Plain::font_text))]
pub(crate) fn add_font(out: &mut String) -> Result<(), AllocError>
    ensures { OnOk result (string_bytes out.new ≡ string_bytes out.old ++ font_text) }
{
    out.push_str(" font-family=\"sans-serif\" font-size=\"11\">\n")
}

/// Adds the opening of the legend below this place.
#[tactic(auto, unfolding(crate::specs::Plain::legend_at_text))]
pub(crate) fn add_legend_at(out: &mut String, base: u64) -> Result<(), AllocError>
    ensures { OnOk result (string_bytes out.new ≡ string_bytes out.old ++ legend_at_text base) }
{
    write!(out, "<g transform=\"translate(24 {base})\">\n")
}

/// Adds the title of the line at which a cycle begins.
#[tactic(auto, unfolding(crate::specs::Plain::cycle_name_text))]
pub(crate) fn add_cycle_name(out: &mut String, cycle: u32) -> Result<(), AllocError>
    ensures { OnOk result (string_bytes out.new ≡ string_bytes out.old ++ cycle_name_text cycle) }
{
    write!(out, "<title>cycle {cycle}</title></path>\n")
}

/// Adds the end of the title of a rectangle.
#[tactic(auto, unfolding(crate::specs::Plain::close_text))]
pub(crate) fn add_close(out: &mut String) -> Result<(), AllocError>
    ensures { OnOk result (string_bytes out.new ≡ string_bytes out.old ++ close_text) }
{
    out.push_str("</title></rect>\n")
}

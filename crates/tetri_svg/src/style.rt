// The style of a picture, and its legend.
ghost use Rattle.std.specs.Prelude.{◌≡◌, ◌++◌, OnOk, string_bytes};
ghost use Rattle.tetri_svg.specs.Style.{bars_entry, colours_text, entries_text, grey_text, key_text, legend_text, note_text, patterns_text, rules_text, style_text, swatch_area, words_text};

use crate::area::{Area, add_area};
use crate::frame::Frame;
use crate::plain::{add_coloured, add_legend_at};
use std::alloc::AllocError;
use std::fmt::Write;

// Adds the first rules of the style.
#[tactic(auto, unfolding(crate::specs::Style::rules_text))]
fn add_rules(out: &mut String) -> Result<(), AllocError>
    ensures { OnOk result (string_bytes out.new ≡ string_bytes out.old ++ rules_text) }
{
    out.push_str(
        "<style>\n.grid{stroke:#ccc;fill:none}.axis{fill:#333}.names{fill:#333;text-anchor:end}\n.bar,.swatch{stroke:#222;stroke-width:",
    )
}

// Adds the other rules of the style.
#[tactic(auto, unfolding(crate::specs::Style::colours_text))]
fn add_colours(out: &mut String) -> Result<(), AllocError>
    ensures { OnOk result (string_bytes out.new ≡ string_bytes out.old ++ colours_text) }
{
    out.push_str(
        "}\n.j0{fill:#e69f00}.j1{fill:#56b4e9}.j2{fill:#009e73}.j3{fill:#f0e442}.j4{fill:#0072b2}.j5{fill:#cc79a7}.j6{fill:#d55e00}\n.label{fill:#000;pointer-events:none}.l4{fill:#fff}.mark{pointer-events:none}\n.over{fill:url(#over)}.cancelled{fill:url(#cancelled)}.failed{fill:url(#failed)}\n.drained{fill:url(#drained)}.broken{fill:url(#broken)}.closed{fill:url(#closed)}\n.waits{fill:#fff;fill-opacity:.85;stroke:#222;stroke-dasharray:4 3}\n.asked{stroke:#000;stroke-width:2;fill:none}.value{fill:#56b4e9}.bound{fill:#000}.queue{fill:#d55e00}.used{fill:#009e73}\n</style>\n",
    )
}

// Adds the patterns, and the white ground.
#[tactic(auto, unfolding(crate::specs::Style::patterns_text))]
fn add_patterns(out: &mut String) -> Result<(), AllocError>
    ensures { OnOk result (string_bytes out.new ≡ string_bytes out.old ++ patterns_text) }
{
    out.push_str(
        "<defs>\n<pattern id=\"over\" width=\"6\" height=\"6\" patternUnits=\"userSpaceOnUse\"><path d=\"M0 6L6 0M-1 1L1 -1M5 7L7 5\" stroke=\"#000\" stroke-width=\"1.5\" fill=\"none\"/></pattern>\n<pattern id=\"cancelled\" width=\"6\" height=\"6\" patternUnits=\"userSpaceOnUse\"><path d=\"M1 0V6M4 0V6\" stroke=\"#000\" stroke-width=\"1.5\" fill=\"none\"/></pattern>\n<pattern id=\"failed\" width=\"6\" height=\"6\" patternUnits=\"userSpaceOnUse\"><path d=\"M0 0L6 6M0 6L6 0\" stroke=\"#000\" stroke-width=\"1.5\" fill=\"none\"/></pattern>\n<pattern id=\"drained\" width=\"8\" height=\"8\" patternUnits=\"userSpaceOnUse\"><rect width=\"8\" height=\"8\" fill=\"#eee\"/><path d=\"M0 0L8 8M-1 7L1 9M7 -1L9 1\" stroke=\"#999\" stroke-width=\"1.5\" fill=\"none\"/></pattern>\n<pattern id=\"broken\" width=\"8\" height=\"8\" patternUnits=\"userSpaceOnUse\"><rect width=\"8\" height=\"8\" fill=\"#ddd\"/><path d=\"M0 0L8 8M0 8L8 0\" stroke=\"#777\" stroke-width=\"1.5\" fill=\"none\"/></pattern>\n<pattern id=\"closed\" width=\"8\" height=\"8\" patternUnits=\"userSpaceOnUse\"><rect width=\"8\" height=\"8\" fill=\"#eee\"/><path d=\"M0 4H8\" stroke=\"#999\" stroke-width=\"1.5\" fill=\"none\"/></pattern>\n</defs>\n<rect width=\"100%\" height=\"100%\" fill=\"#fff\"/>\n",
    )
}

// Adds the line of the legend for bars, by what they are coloured.
#[tactic(auto, unfolding(crate::specs::Style::bars_entry))]
fn add_bars_entry(out: &mut String, by: &str) -> Result<(), AllocError>
    ensures { OnOk result (string_bytes out.new ≡ string_bytes out.old ++ bars_entry by.now) }
{
    write!(
        out,
        "<rect class=\"bar j0\" x=\"0\" y=\"24\" width=\"24\" height=\"14\"/><text x=\"32\" y=\"35\">a piece of a job on a node, coloured by {by}"
    )
}

// Adds the other lines of the legend.
#[tactic(auto, unfolding(crate::specs::Style::entries_text))]
fn add_entries(out: &mut String) -> Result<(), AllocError>
    ensures { OnOk result (string_bytes out.new ≡ string_bytes out.old ++ entries_text) }
{
    out.push_str(
        "</text>\n<rect class=\"swatch over\" x=\"0\" y=\"48\" width=\"24\" height=\"14\"/><text x=\"32\" y=\"59\">beyond its expected end</text>\n<rect class=\"swatch cancelled\" x=\"0\" y=\"72\" width=\"24\" height=\"14\"/><text x=\"32\" y=\"83\">last slot of a cancelled piece</text>\n<rect class=\"swatch failed\" x=\"0\" y=\"96\" width=\"24\" height=\"14\"/><text x=\"32\" y=\"107\">last slot of a piece whose job failed</text>\n<rect class=\"waits\" x=\"0\" y=\"120\" width=\"24\" height=\"14\"/><text x=\"32\" y=\"131\">planned for a later slot</text>\n<rect class=\"swatch drained\" x=\"290\" y=\"24\" width=\"24\" height=\"14\"/><text x=\"322\" y=\"35\">drained node</text>\n<rect class=\"swatch broken\" x=\"290\" y=\"48\" width=\"24\" height=\"14\"/><text x=\"322\" y=\"59\">failed node</text>\n<rect class=\"swatch closed\" x=\"290\" y=\"72\" width=\"24\" height=\"14\"/><text x=\"322\" y=\"83\">closed node</text>\n<rect class=\"value\" x=\"290\" y=\"96\" width=\"24\" height=\"14\"/><text x=\"322\" y=\"107\">value of a cycle's plan</text>\n<rect class=\"bound\" x=\"290\" y=\"126\" width=\"24\" height=\"2\"/><text x=\"322\" y=\"131\">bound of a cycle's plan</text>\n<rect class=\"queue\" x=\"0\" y=\"144\" width=\"24\" height=\"14\"/><text x=\"32\" y=\"155\">jobs that wait behind a cycle</text>\n<rect class=\"used\" x=\"290\" y=\"144\" width=\"24\" height=\"14\"/><text x=\"322\" y=\"155\">nodes in use</text>\n</g>\n",
    )
}

/// Adds the style, with a line round each bar where there is room for it, the patterns and a white ground.
pub fn add_style(out: &mut String, frame: &Frame) -> Result<(), AllocError>
    ensures { OnOk result (string_bytes out.new ≡ string_bytes out.old ++ style_text frame.now) }
{
    add_rules(out)?;
    out.push_str(if frame.is_fine() { "1" } else { "0" })?;
    add_colours(out)?;
    add_patterns(out)
}

/// Adds the rule of colour 7, a light grey.
#[tactic(auto, unfolding(crate::specs::Style::grey_text))]
pub fn add_grey(out: &mut String) -> Result<(), AllocError>
    ensures { OnOk result (string_bytes out.new ≡ string_bytes out.old ++ grey_text) }
{
    out.push_str("<style>.j7{fill:#bbb}</style>\n")
}

/// Adds what the colours and the patterns stand for, where bars are coloured by this.
pub fn add_legend(out: &mut String, frame: &Frame, by: &str) -> Result<(), AllocError>
    ensures { OnOk result (string_bytes out.new ≡ string_bytes out.old ++ legend_text frame.now by.now) }
{
    add_legend_at(out, frame.use_base())?;
    add_bars_entry(out, by)?;
    add_entries(out)
}

// Adds the words of a line below the legend, which begin at this height.
#[tactic(auto, unfolding(crate::specs::Style::words_text))]
fn add_words(out: &mut String, y: u64, words: &str) -> Result<(), AllocError>
    ensures { OnOk result (string_bytes out.new ≡ string_bytes out.old ++ words_text y words.now) }
{
    write!(out, "<text x=\"56\" y=\"{y}\">{words}</text>\n")
}

// Where the colour of a line below the legend stands.
fn swatch_area(frame: &Frame, line: u32) -> Area
    ensures { result ≡ swatch_area frame.now line }
{
    Area {
        x: 24,
        y: frame.line_y(line),
        width: 24,
        height: 14,
    }
}

/// Adds a line below the legend, of which the first is 0: a colour, and what it stands for.
pub fn add_key(
    out: &mut String,
    frame: &Frame,
    line: u32,
    colour: u32,
    words: &str,
) -> Result<(), AllocError>
    ensures { OnOk result (string_bytes out.new ≡ string_bytes out.old ++ key_text frame.now line colour words.now) }
{
    add_coloured(out, colour)?;
    add_area(out, swatch_area(frame, line))?;
    out.push_str("/>")?;
    add_words(out, frame.line_y(line) + 11, words)
}

/// Adds a line below the legend, of words alone.
pub fn add_note(out: &mut String, frame: &Frame, line: u32, words: &str) -> Result<(), AllocError>
    ensures { OnOk result (string_bytes out.new ≡ string_bytes out.old ++ note_text frame.now line words.now) }
{
    add_words(out, frame.line_y(line) + 11, words)
}

// Where things stand in a picture, in pixels.
ghost use Rattle.std.specs.Prelude.{◌≡◌, ◌<◌, ◌≤◌, ◌^◌, ◌+◌};
ghost use Rattle.tetri_svg.specs.Sizes.{area_of, bar_of, base_of, bottom_of, column_of, frame_of, gap_of, has_room, has_slot, height_of, is_fine, last_of, line_y, queue_base_of, right_of, row_of, shows, span_of, stride_for, text_y, use_base_of, width_of, x_of, y_of};

use crate::area::Area;
use crate::frame::Frame;

// How wide a slot is, of so many.
fn column_of(slots: u32) -> u32
    ensures value { result ≡ column_of slots }
    ensures most { result ≤ 32 }
{
    if slots <= 40 {
        32
    } else if slots <= 80 {
        16
    } else if slots <= 200 {
        8
    } else if slots <= 500 {
        4
    } else if slots <= 1000 {
        2
    } else {
        1
    }
}

// How high a node is, of so many.
fn row_of(nodes: u32) -> u32
    ensures value { result ≡ row_of nodes }
    ensures most { result ≤ 24 }
{
    if nodes <= 20 {
        24
    } else if nodes <= 60 {
        16
    } else if nodes <= 150 {
        8
    } else if nodes <= 400 {
        4
    } else {
        3
    }
}

// What is left free above and below a bar in a row of this height.
fn gap_of(row: u32) -> u32
    ensures value { result ≡ gap_of row }
    ensures within { result + result ≤ row }
{
    if row >= 16 {
        2
    } else if row >= 8 {
        1
    } else {
        0
    }
}

/// The first of these that is at least this much when it is taken so many times, or the last.
pub fn stride_for(size: u32, room: u32) -> u32
    requires { size ≤ 32 }
    ensures value { result ≡ stride_for size room }
    ensures some { 0 < result }
    ensures most { result ≤ 50 }
{
    if size >= room {
        1
    } else if size * 2 >= room {
        2
    } else if size * 5 >= room {
        5
    } else if size * 10 >= room {
        10
    } else if size * 20 >= room {
        20
    } else {
        50
    }
}

impl Frame {
    /// The frame of a picture from this slot on up to the one before that, with so many nodes, where the longest name of one has so many
    /// letters, and with so many lines below the legend.
    pub fn of(first: u32, until: u32, nodes: u32, longest: u32, lines: u32) -> Frame
        requires few_slots { until ≤ 20000 }
        requires few_nodes { nodes ≤ 10000 }
        requires short { longest ≤ 100 }
        requires few_lines { lines ≤ 100 }
        ensures { result ≡ frame_of first until nodes longest lines }
    {
        let row = row_of(nodes);
        Frame {
            first,
            until,
            nodes,
            column: column_of(until.saturating_sub(first)),
            row,
            gap: gap_of(row),
            left: 24 + 7 * longest,
            lines,
        }
    }

    /// The first slot behind those that the picture shows.
    pub fn until(&self) -> u32
        ensures value { result ≡ self.now.until }
        ensures most { result ≤ 20000 }
    {
        self.until
    }

    /// Whether the picture shows this slot.
    pub fn has_slot(&self, slot: u32) -> bool
        ensures { result ≡ has_slot self.now slot }
    {
        self.first <= slot && slot < self.until
    }

    /// Whether it shows some of these slots.
    pub fn shows(&self, from: u32, until: u32) -> bool
        ensures { result ≡ shows self.now from until }
    {
        from.max(self.first) < until.min(self.until)
    }

    /// How many nodes it has.
    pub fn nodes(&self) -> u32
        ensures value { result ≡ self.now.nodes }
        ensures most { result ≤ 10000 }
    {
        self.nodes
    }

    /// How high a node is.
    pub fn row(&self) -> u32
        ensures value { result ≡ self.now.row }
        ensures most { result ≤ 24 }
    {
        self.row
    }

    /// Where a slot begins, or the plot where the slot is before it.
    pub fn x(&self, slot: u32) -> u64
        ensures value { result ≡ x_of self.now slot }
        ensures small { result ≤ 2 ^ 40 }
    {
        u64::from(self.left) + u64::from(slot.saturating_sub(self.first)) * u64::from(self.column)
    }

    /// Where a node's row begins.
    pub fn y(&self, node: u32) -> u64
        ensures value { result ≡ y_of self.now node }
        ensures small { result ≤ 2 ^ 40 }
    {
        44 + u64::from(node) * u64::from(self.row)
    }

    /// The base line of a text in a node's row.
    pub fn text_y(&self, node: u32) -> u64
        ensures { result ≡ text_y self.now node }
    {
        self.y(node) + u64::from((self.row + 8) / 2)
    }

    /// Those of these slots that the picture shows, in a node's row.
    pub fn area(&self, node: u32, from: u32, until: u32) -> Area
        ensures { result ≡ area_of self.now node from until }
    {
        Area {
            x: self.x(from),
            y: self.y(node),
            width: self.span(from, until),
            height: u64::from(self.row),
        }
    }

    /// A bar over those of these slots that the picture shows, in a node's row.
    pub fn bar(&self, node: u32, from: u32, until: u32) -> Area
        ensures { result ≡ bar_of self.now node from until }
    {
        let area = self.area(node, from, until);
        Area {
            y: area.y + u64::from(self.gap),
            height: u64::from(self.row - self.gap - self.gap),
            ..area
        }
    }

    /// The right end of the plot.
    pub fn right(&self) -> u64
        ensures value { result ≡ right_of self.now }
        ensures small { result ≤ 2 ^ 40 }
    {
        self.x(self.until)
    }

    /// The lower end of the rows.
    pub fn bottom(&self) -> u64
        ensures value { result ≡ bottom_of self.now }
        ensures small { result ≤ 2 ^ 40 }
    {
        self.y(self.nodes)
    }

    /// The base line of the numbers of cycles.
    pub fn base(&self) -> u64
        ensures value { result ≡ base_of self.now }
        ensures low { 96 ≤ result }
        ensures small { result ≤ 2 ^ 41 }
    {
        self.bottom() + 96
    }

    /// The base line of the queue.
    pub fn queue_base(&self) -> u64
        ensures value { result ≡ queue_base_of self.now }
        ensures low { 96 ≤ result }
        ensures small { result ≤ 2 ^ 42 }
    {
        self.base() + 60
    }

    /// The base line of the nodes in use.
    pub fn use_base(&self) -> u64
        ensures value { result ≡ use_base_of self.now }
        ensures low { 96 ≤ result }
        ensures small { result ≤ 2 ^ 42 }
    {
        self.base() + 120
    }

    /// The width of the whole picture.
    pub fn width(&self) -> u64
        ensures { result ≡ width_of self.now }
    {
        (self.right() + 24).max(620)
    }

    /// The height of the whole picture.
    pub fn height(&self) -> u64
        ensures value { result ≡ height_of self.now }
        ensures small { result ≤ 2 ^ 43 }
    {
        self.use_base() + 170 + u64::from(self.lines) * 24
    }

    /// Where a line below the legend begins.
    pub(crate) fn line_y(&self, line: u32) -> u64
        ensures value { result ≡ line_y self.now line }
        ensures small { result ≤ 2 ^ 43 }
    {
        self.use_base() + 168 + u64::from(line) * 24
    }

    /// Whether there is room for a line round each bar.
    pub fn is_fine(&self) -> bool
        ensures { result ≡ is_fine self.now }
    {
        self.row >= 8 && self.column >= 4
    }

    /// Whether a name of so many letters has room over these slots.
    pub fn has_room(&self, letters: usize, from: u32, until: u32) -> bool
        ensures { result ≡ has_room self.now letters from until }
    {
        self.row >= 16 && letters <= 64 && letters as u64 * 7 + 8 <= self.span(from, until)
    }

    // How wide those of these slots are that the picture shows.
    fn span(&self, from: u32, until: u32) -> u64
        ensures { result ≡ span_of self.now from until }
    {
        let slots = until.min(self.until).saturating_sub(from.max(self.first));
        u64::from(slots) * u64::from(self.column)
    }
}

/// The last slot before one.
pub fn last_of(until: u32) -> u32
    ensures { result ≡ last_of until }
{
    until.saturating_sub(1)
}

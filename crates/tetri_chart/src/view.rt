// How a run is shown.
use tetri_cluster::NameList;
use tetri_svg::Clock;

/// What the colour of a bar tells.
#[derive(Drop)]
pub enum Colours {
    /// The job, by its number.
    ByJob,
    /// What the job asks for: an expression, or an ask of which class.
    ByClass,
    /// The first of these tags that the bar's node has, or that it has none of them.
    ByTag(NameList),
}

/// How the picture of a run shows it: from this slot on, if one is named, or else the first, to this one, if one is named, or else the last in
/// which a piece runs; by the clock, if there is one, or else by the numbers of slots; and what the colours of its bars tell.
#[derive(Drop)]
pub struct View {
    pub from: Option<u32>,
    pub to: Option<u32>,
    pub clock: Option<Clock>,
    pub colours: Colours,
}

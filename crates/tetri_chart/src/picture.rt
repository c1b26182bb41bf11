// What a picture shows.
use std::marker::Model;
use tetri_cert::PlanMark;
use tetri_strl::NodeList;
use tetri_svg::Fate;

/// A piece of the run on its nodes.
#[derive(Drop)]
pub struct Span {
    /// The number of the job.
    pub job: u32,
    /// The nodes that it ran on.
    pub nodes: NodeList,
    /// The slot in which it started.
    pub from: u32,
    /// The first slot in which it was expected to run no more, as it was launched.
    pub expected: u32,
    /// The first slot in which it ran no more, or the slot in which the run ends.
    pub until: u32,
    /// What became of it.
    pub fate: Fate,
}

/// A grant whose leaf starts later than the cycle that planned it.
#[derive(Drop)]
pub struct Wait {
    /// The number of the job.
    pub job: u32,
    /// The nodes that it is granted.
    pub nodes: NodeList,
    /// The slot in which it is to start.
    pub from: u32,
    /// The first slot in which it is expected to run no more.
    pub until: u32,
}

/// The numbers of a cycle.
#[derive(Clone, Copy, Debug, PartialEq, Eq)]
pub struct CycleMark {
    /// What its plan is worth.
    pub value: u64,
    /// What no plan is worth more than.
    pub bound: u64,
    /// How good its plan is known to be.
    pub mark: PlanMark,
    /// How many jobs wait behind it: those that were pending and are not launched.
    pub waiting: usize,
    /// How many nodes are in use in its slot.
    pub used: u32,
}

/// What the picture of a run shows: its pieces, those that left in an earlier slot first and within a slot in order of launch, the numbers of
/// its cycles in their order, and the cycle whose waiting grants are shown, if one is, with these.
#[derive(Drop)]
pub struct Chart {
    pub spans: Vec<Span>,
    pub cycles: Vec<CycleMark>,
    pub asked: Option<u32>,
    pub waits: Vec<Wait>,
}

impl Model for Chart {
    ghost use Rattle.tetri_chart.specs.Picture.{Picture};

    ghost Value = { Picture };

    ghost view = { λ c. record {
      spans = c.spans.items;
      cycles = c.cycles.items;
      asked = c.asked;
      waits = c.waits.items;
    } };
}

// The sizes of a picture.
use std::marker::Model;

/// The sizes of a picture: the first slot that it shows and the first behind those, how many nodes it has, how wide a slot and how high a
/// node is, the gap between a bar and the ends of its row, where the plot begins at the left, and how many lines stand below the legend.
#[derive(Debug, Drop)]
pub struct Frame {
    pub(crate) first: u32,
    pub(crate) until: u32,
    pub(crate) nodes: u32,
    pub(crate) column: u32,
    pub(crate) row: u32,
    pub(crate) gap: u32,
    pub(crate) left: u32,
    pub(crate) lines: u32,
}

impl Model for Frame {
    ghost use Rattle.tetri_svg.specs.Layout.{IsSmall, Layout};

    ghost Value = { Layout };

    ghost view = { λ f. record {
      first = f.first;
      until = f.until;
      nodes = f.nodes;
      column = f.column;
      row = f.row;
      gap = f.gap;
      left = f.left;
      lines = f.lines;
    } };

    ghost invariant = { λ f. IsSmall (record {
      first = f.first;
      until = f.until;
      nodes = f.nodes;
      column = f.column;
      row = f.row;
      gap = f.gap;
      left = f.left;
      lines = f.lines;
    }) };
}

use crate::place::Place;
use crate::value::Value;
use std::marker::Model;

/// A cell of a memory of segments: where it stands, and its value.
#[derive(Clone, Copy, Debug, PartialEq, Eq)]
pub struct PieCell {
    pub place: Place,
    pub value: Value,
}

/// A position-independent execution (docs/PIE.md): `main` is the offset in cells at which the program begins, `sizes`
/// has the number of cells of each segment, and `cells` is the whole memory, in the order of segments and offsets.
#[derive(Debug, Drop)]
pub struct Pie {
    pub main: u64,
    pub steps: u32,
    pub sizes: Vec<u32>,
    pub cells: Vec<PieCell>,
}

impl Model for Pie {
    ghost use Rattle.std.specs.Prelude.{map};
    ghost use Rattle.cairo_model.specs.Pie.Records.{PieRecord};

    ghost Value = { PieRecord };

    ghost use Rattle.cairo_model.specs.Views.Pie.{memory_cell};

    ghost view = { λ p. record { main = p.main; steps = p.steps; sizes = p.sizes.items; cells = map memory_cell p.cells.items } };
}

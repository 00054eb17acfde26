use cairo_model::{Layout, Span};
use std::marker::Model;

/// Where everything of a batch stands in the field's memory (docs/BOOTLOADER.md, 'The layout').
#[derive(Debug, Drop)]
pub struct BatchLayout {
    /// Where each task's segments begin.
    pub tasks: Vec<Layout>,
    /// The bootloader's cells and the tasks' segments 1.
    pub frame: Span,
    /// How many tasks there are, and their headers and outputs.
    pub output: Span,
    /// The tasks' range cells.
    pub range: Span,
    /// The bootloader's hash instances for each task, and then the task's own.
    pub hash: Span,
    /// An address above all that are used.
    pub free: u64,
}

impl Model for BatchLayout {
    ghost use Rattle.cairo_model.specs.Views.Certificate.{span_of};
    ghost use Rattle.batch_plan.specs.Plans.{PlanRecord};

    ghost Value = { PlanRecord };

    ghost view = { λ l. record { tasks = l.tasks.items; frame = span_of l.frame; output = span_of l.output; range = span_of l.range; hash = span_of l.hash; free = l.free } };
}

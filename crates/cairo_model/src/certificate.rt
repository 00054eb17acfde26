use crate::cells::Cells;
use crate::span::Span;
use crate::state::FieldState;
use goldi_field::Felt;
use std::marker::Model;

/// Where a task stands in a batch: the index of its first state, and the bases of its segments.
#[derive(Debug, Drop)]
pub struct TaskMark {
    pub row: u32,
    pub bases: Vec<Felt>,
}

/// What a certificate is of: one PIE alone, or a batch under the bootloader.
#[derive(Clone, Copy, Debug, PartialEq, Eq)]
pub enum Kind {
    Alone,
    Batch,
}

/// The whole memory and all states of a run over the field (docs/CERTIFICATE.md).
#[derive(Debug, Drop)]
pub struct Cert {
    pub kind: Kind,
    pub output: Span,
    pub range: Span,
    pub hash: Span,
    pub tasks: Vec<TaskMark>,
    pub cells: Cells,
    pub states: Vec<FieldState>,
}

impl Model for TaskMark {
    ghost use Rattle.std.specs.Prelude.{map};
    ghost use Rattle.cairo_model.specs.Certificate.Records.{MarkRecord};

    ghost Value = { MarkRecord };

    ghost view = { λ m. record { row = m.row; bases = map (λ f. f.number) m.bases.items } };
}

impl Model for Cert {
    ghost use Rattle.std.specs.Prelude.{map};
    ghost use Rattle.cairo_model.specs.Certificate.Records.{CertRecord, HasSpelling};

    ghost Value = { CertRecord };

    ghost use Rattle.cairo_model.specs.Views.Certificate.{kind_of, span_of};
    ghost use Rattle.cairo_model.specs.Views.Machine.{field_registers};

    ghost view = { λ c. record { kind = kind_of c.kind; output = span_of c.output; range = span_of c.range; hash = span_of c.hash; tasks = c.tasks.items; cells = c.cells; states = map field_registers c.states.items } };

    ghost invariant = { λ c. HasSpelling (record { kind = kind_of c.kind; output = span_of c.output; range = span_of c.range; hash = span_of c.hash; tasks = c.tasks.items; cells = c.cells; states = map field_registers c.states.items }) };
}

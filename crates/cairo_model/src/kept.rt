ghost use Rattle.std.specs.Prelude.{map, All};
ghost use Rattle.goldi_field.specs.Numbers.{IsFelt};
ghost use Rattle.cairo_model.specs.Views.Certificate.{span_of};
ghost use Rattle.cairo_model.specs.Machine.FieldMemories.{field_cell, cell_at, IsCell, IsFieldMemory};
ghost use Rattle.cairo_model.specs.Views.Machine.{field_registers};
ghost use Rattle.cairo_model.specs.Certificate.Records.{IsSpan, IsMark, AreRegisters, IsCertificate};

use crate::cells::Cells;
use crate::certificate::{Cert, TaskMark};
use crate::span::Span;
use crate::state::FieldState;
use goldi_field::Felt;

/// What the type of certificates keeps is all that a certificate must keep to be written and read back. It takes no
/// memory, and changes nothing.
pub fn is_certificate(cert: &Cert)
    ensures { IsCertificate cert.now }
{
    span_kept(&cert.output);
    span_kept(&cert.range);
    span_kept(&cert.hash);
    marks_kept(cert.tasks.as_slice());
    cells_kept(cert.cells.as_slice());
    states_kept(cert.states.as_slice());
}

/// The cells of a field memory are field numbers, and so is what a look-up gives. It takes no memory.
pub fn cells_are_felts(cells: &Cells)
    ensures cells { All IsCell cells.now }
    ensures memory { IsFieldMemory (cell_at cells.now) }
{
    cells_kept(cells.as_slice());
}

fn span_kept(span: &Span)
    ensures { IsSpan (span_of span.now) }
{
    let _span = *span;
}

fn felts_kept(felts: &[Felt])
    ensures { All IsFelt (map (λ f. f.number) felts.now) }
{}

fn mark_kept(mark: &TaskMark)
    ensures { IsMark mark.now }
{
    let _row = mark.row;
    felts_kept(mark.bases.as_slice());
}

fn marks_kept(marks: &[TaskMark])
    ensures { All IsMark marks.now }
{
    for mark in marks {
        mark_kept(mark);
    }
}

fn cells_kept(cells: &[(Felt, Felt)])
    ensures { All IsCell (map field_cell cells.now) }
{}

fn states_kept(states: &[FieldState])
    ensures { All AreRegisters (map field_registers states.now) }
{}

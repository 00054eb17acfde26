ghost use Rattle.std.specs.Prelude.{◌≡◌, ◌++◌, ◌∷◌, [], ◌<◌, ◌^◌, All, length, map, IfOk, OnOk};
ghost use Rattle.std.specs.Int.{w32, w64, to_be_bytes};
ghost use Rattle.cairo_model.specs.Views.Certificate.{kind_of, span_of};
ghost use Rattle.cairo_model.specs.Machine.FieldMemories.{field_cell};
ghost use Rattle.cairo_model.specs.Views.Machine.{field_registers};
ghost use Rattle.cert_format.specs.Spelling.{field_cell_bytes, counted_bytes, kind_byte, certificate_magic, mark_bytes, span_bytes, spelling, state_bytes, CertBytes};

use cairo_model::{Cert, FieldState, Kind, Span, TaskMark, is_certificate};
use goldi_field::Felt;
use std::alloc::{AllocError, Global};

/// The one spelling of a certificate (docs/CERTIFICATE.md).
pub fn write_cert(alloc: Global, cert: &Cert) -> Result<Vec<u8>, AllocError>
    ensures spelled { IfOk result (λ bytes. bytes.items ≡ spelling cert.now) }
    // What is written is a certificate's, so that reading gives it back.
    ensures bytes { IfOk result (λ bytes. CertBytes bytes.items cert.now) }
{
    is_certificate(cert);
    let mut out = head(alloc, cert.kind)?;
    put_span(&mut out, &cert.output)?;
    put_span(&mut out, &cert.range)?;
    put_span(&mut out, &cert.hash)?;
    put_marks(&mut out, cert.tasks.as_slice())?;
    put_cells(&mut out, cert.cells.as_slice())?;
    put_states(&mut out, cert.states.as_slice())?;
    Ok(out)
}

fn head(alloc: Global, kind: Kind) -> Result<Vec<u8>, AllocError>
    ensures { IfOk result (λ out. out.items ≡ certificate_magic ++ kind_byte (kind_of kind) ∷ []) }
{
    let mut out = b"CCRT64\x00\x01".to_vec(alloc)?;
    out.push(match kind {
        Kind::Alone => 0,
        Kind::Batch => 1,
    })?;
    Ok(out)
}

fn put_span(out: &mut Vec<u8>, span: &Span) -> Result<(), AllocError>
    ensures { OnOk result (out.new.items ≡ out.old.items ++ span_bytes (span_of span.now)) }
{
    put_number(out, span.start)?;
    put_number(out, span.stop)
}

fn put_marks(out: &mut Vec<u8>, marks: &[TaskMark]) -> Result<(), AllocError>
    requires few { length marks.now < 2 ^ 32 }
    requires few_bases { All (λ m. length m.bases < 2 ^ 32) marks.now }
    ensures { OnOk result (out.new.items ≡ out.old.items ++ counted_bytes mark_bytes marks.now) }
{
    put_count(out, marks.len())?;
    for mark in marks {
        put_mark(out, mark)?;
    }
    Ok(())
}

fn put_mark(out: &mut Vec<u8>, mark: &TaskMark) -> Result<(), AllocError>
    requires { length mark.now.bases < 2 ^ 32 }
    ensures { OnOk result (out.new.items ≡ out.old.items ++ mark_bytes mark.now) }
{
    out.extend_from_slice(&mark.row.to_be_bytes())?;
    put_bases(out, mark.bases.as_slice())
}

fn put_bases(out: &mut Vec<u8>, bases: &[Felt]) -> Result<(), AllocError>
    requires { length bases.now < 2 ^ 32 }
    ensures { OnOk result (out.new.items ≡ out.old.items ++ counted_bytes (to_be_bytes w64) (map (λ f. f.number) bases.now)) }
{
    put_count(out, bases.len())?;
    for base in bases {
        put_number(out, *base)?;
    }
    Ok(())
}

fn put_cells(out: &mut Vec<u8>, cells: &[(Felt, Felt)]) -> Result<(), AllocError>
    requires { length cells.now < 2 ^ 32 }
    ensures { OnOk result (out.new.items ≡ out.old.items ++ counted_bytes field_cell_bytes (map field_cell cells.now)) }
{
    put_count(out, cells.len())?;
    for cell in cells {
        put_cell(out, cell)?;
    }
    Ok(())
}

fn put_cell(out: &mut Vec<u8>, cell: &(Felt, Felt)) -> Result<(), AllocError>
    ensures { OnOk result (out.new.items ≡ out.old.items ++ field_cell_bytes (field_cell cell.now)) }
{
    put_number(out, cell.0)?;
    put_number(out, cell.1)
}

fn put_states(out: &mut Vec<u8>, states: &[FieldState]) -> Result<(), AllocError>
    requires { length states.now < 2 ^ 32 }
    ensures { OnOk result (out.new.items ≡ out.old.items ++ counted_bytes state_bytes (map field_registers states.now)) }
{
    put_count(out, states.len())?;
    for state in states {
        put_state(out, state)?;
    }
    Ok(())
}

fn put_state(out: &mut Vec<u8>, state: &FieldState) -> Result<(), AllocError>
    ensures { OnOk result (out.new.items ≡ out.old.items ++ state_bytes (field_registers state.now)) }
{
    put_number(out, state.pc)?;
    put_number(out, state.ap)?;
    put_number(out, state.fp)
}

fn put_count(out: &mut Vec<u8>, count: usize) -> Result<(), AllocError>
    requires { count < 2 ^ 32 }
    ensures { OnOk result (out.new.items ≡ out.old.items ++ to_be_bytes w32 count) }
{
    out.extend_from_slice(&(count as u32).to_be_bytes())
}

fn put_number(out: &mut Vec<u8>, number: Felt) -> Result<(), AllocError>
    ensures { OnOk result (out.new.items ≡ out.old.items ++ to_be_bytes w64 number.number) }
{
    out.extend_from_slice(&number.value().to_be_bytes())
}

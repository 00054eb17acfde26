ghost use Rattle.std.specs.Prelude.{◌≡◌, ◌<◌, ◌^◌, length, IfOk};
ghost use Rattle.cairo_model.specs.Pie.Acceptance.{CheckedRecord, AcceptedWith};
ghost use Rattle.cairo_model.specs.Certificate.Records.{CertRecord};
ghost use Rattle.cairo_model.specs.Views.Certificate.{span_of};
ghost use Rattle.cairo_model.specs.Pie.Layouts.{base_of};
ghost use Rattle.cairo_model.specs.Certificate.Acceptance.{MachineAccepts};
ghost use Rattle.relocator.specs.Working.Lists.{numbers};
ghost use Rattle.relocator.specs.LoneCertificates.{IsLoneCertificate, stretch_of};

use crate::laws::{keeps_arithmetic, runs_anywhere};
use crate::lone_layout::{alone, lone_layout_fits};
use crate::relocating::relocate;
use cairo_model::segments::{HASH, OUTPUT, RANGE};
use cairo_model::{Cells, Cert, Checked, Kind, Span, felt_of};
use goldi_field::Felt;
use std::alloc::{AllocError, Global};

/// The certificate of a PIE alone: its isolated run where the layout alone puts it (docs/CERTIFICATE.md).
pub fn lone_cert(alloc: Global, checked: &Checked) -> Result<Cert, AllocError>
    ensures certificate { IfOk result (λ cert. IsLoneCertificate checked.now cert) }
    ensures accepted { IfOk result (λ cert. MachineAccepts cert) }
{
    lone_certificates_hold();
    // That the PIE is accepted, as `alone` asks, is what this ensures.
    let _run = checked.states();
    let layout = alone(alloc, checked.pie())?;
    let placed = relocate(alloc, checked, &layout)?;
    let bases = layout.bases.as_slice();
    let sizes = checked.pie().sizes.as_slice();
    Ok(Cert {
        kind: Kind::Alone,
        output: stretch(bases, sizes, OUTPUT),
        range: stretch(bases, sizes, RANGE),
        hash: stretch(bases, sizes, HASH),
        tasks: Vec::new(alloc),
        cells: Cells::of(placed.cells),
        states: placed.states,
    })
}

fn stretch(bases: &[Felt], sizes: &[u32], segment: u16) -> Span
    requires has_base { segment < length bases.now }
    requires has_size { segment < length sizes.now }
    requires low { base_of (numbers bases.now) segment < 2 ^ 32 }
    ensures { span_of result ≡ stretch_of (numbers bases.now) sizes.now segment }
{
    let start = bases[segment as usize];
    let stop = start.add(felt_of(sizes[segment as usize]));
    Span { start, stop }
}

/// The machine accepts the certificate of each PIE alone.
pub fn lone_certificates_hold()
    ensures { (checked : CheckedRecord) (cert : CertRecord) → AcceptedWith checked.pie checked.fact checked.states → IsLoneCertificate checked cert → MachineAccepts cert }
{
    keeps_arithmetic();
    runs_anywhere();
    lone_layout_fits();
}

/// A PIE has one certificate alone.
pub fn one_lone_certificate()
    ensures { (checked : CheckedRecord) (c d : CertRecord) → IsLoneCertificate checked c → IsLoneCertificate checked d → c ≡ d }
{}

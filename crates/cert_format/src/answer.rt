ghost use Rattle.std.specs.Prelude.{◌≡◌, ◌+◌, ◌^◌, ◌<◌, ◌≤◌, Ok, length};
ghost use Rattle.cairo_model.specs.Certificate.Records.{CertRecord, IsCertificate};
ghost use Rattle.cairo_model.specs.Views.Certificate.{span_of};
ghost use Rattle.cert_format.specs.Feeding.{draft_of, end_rest, rest_of};
ghost use Rattle.cert_format.specs.Working.Answers.{Tells};
ghost use Rattle.cert_format.specs.Working.DraftViews.{partial as partial_of, stretch as from_stretch};
ghost use Rattle.cert_format.specs.Working.Passing.{IsWaiting};
ghost use Rattle.cert_format.specs.Working.Taking.{refusal_in_front};

use crate::order::order_fault;
use crate::partial::Partial;
use crate::parts::has_magic;
use crate::refusal::CertRefusal;
use crate::stage::Stage;
use cairo_model::{Cells, Cert, Span};
use goldi_field::Felt;

/// What a file is that ends with these bytes behind the parts that were read.
pub(crate) fn answer_of(partial: Partial, carry: &[u8]) -> Result<Cert, CertRefusal>
    requires waiting { IsWaiting (partial_of partial) carry.now }
    requires in_all { partial.place + length carry.now < 2 ^ 64 }
    requires keeps { (c : CertRecord) → rest_of (partial_of partial) carry.now ≡ Ok c → IsCertificate c }
    ensures { Tells (λ c. c) result (rest_of (partial_of partial) carry.now) }
{
    let whole = partial.place + carry.len() as u64;
    match partial.stage {
        Stage::Front => Err(front_refusal(whole, carry)),
        Stage::Foreign => Err(CertRefusal::BadMagic),
        Stage::End(start) => answer_at_end(partial, start),
        _ => Err(CertRefusal::Truncated(whole)),
    }
}

// Why bytes are no certificate's that are fewer than its front has.
fn front_refusal(whole: u64, bytes: &[u8]) -> CertRefusal
    ensures { result ≡ refusal_in_front whole bytes.now }
{
    if has_magic(bytes) {
        CertRefusal::Truncated(whole)
    } else {
        CertRefusal::BadMagic
    }
}

// What a file is whose certificate ends at this place, by the numbers that were read.
fn answer_at_end(partial: Partial, start: u64) -> Result<Cert, CertRefusal>
    requires keeps { (c : CertRecord) → end_rest start partial.place (partial_of partial) ≡ Ok c → IsCertificate c }
    ensures { Tells (λ c. c) result (end_rest start partial.place (partial_of partial)) }
{
    if let Some(refusal) = partial.bad {
        return Err(refusal);
    }
    if let Some(place) = order_fault(partial.place, &partial) {
        return Err(CertRefusal::Order(place));
    }
    let behind = partial.place.saturating_sub(start);
    if behind > 0 {
        return Err(CertRefusal::Trailing(behind));
    }
    Ok(certificate(partial))
}

fn certificate(partial: Partial) -> Cert
    requires { IsCertificate (draft_of 0 (partial_of partial)).cert }
    ensures { result ≡ (draft_of 0 (partial_of partial)).cert }
{
    let front = partial.front;
    Cert {
        kind: front.kind,
        output: span(front.output),
        range: span(front.range),
        hash: span(front.hash),
        tasks: partial.tasks,
        cells: Cells::of(partial.cells),
        states: partial.states,
    }
}

fn span(stretch: (Felt, Felt)) -> Span
    requires { stretch.0.number ≤ stretch.1.number }
    ensures { span_of result ≡ from_stretch stretch }
{
    Span {
        start: stretch.0,
        stop: stretch.1,
    }
}

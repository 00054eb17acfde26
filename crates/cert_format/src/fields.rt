ghost use Rattle.std.specs.Prelude.{◌≡◌};
ghost use Rattle.cairo_model.specs.Views.Certificate.{kind_of};
ghost use Rattle.cairo_model.specs.Machine.FieldMemories.{field_cell};
ghost use Rattle.cairo_model.specs.Views.Machine.{field_registers};
ghost use Rattle.cert_format.specs.Reading.{place_of as place_in, count_read as counted_in, felt_at as felt_in, kind_at as kind_in, span_at as span_in, task_count_at as task_count_in, cell_numbers_at as cell_in, state_at as state_in};
ghost use Rattle.cert_format.specs.Working.Answers.{Tells};
ghost use Rattle.cert_format.specs.Working.DraftViews.{stretch};

use crate::parts::{count_at, number_at};
use crate::refusal::CertRefusal;
use cairo_model::{FieldState, Kind};
use goldi_field::Felt;

// Where in a file of so many bytes a tail of it begins.
fn place_of(whole: u64, tail: &[u8]) -> u64
    ensures { result ≡ place_in whole tail.now }
{
    whole.saturating_sub(tail.len() as u64)
}

pub(crate) fn counted(whole: u64, bytes: &[u8]) -> Result<(u32, &[u8]), CertRefusal>
    ensures { Tells (λ x. (x.0, x.1.now)) result (counted_in whole bytes.now) }
{
    match count_at(bytes) {
        Some(found) => Ok(found),
        None => Err(CertRefusal::Truncated(whole)),
    }
}

#[tactic(auto, unfolding(crate::specs::Reading::felt_at))]
pub(crate) fn felt_at(whole: u64, bytes: &[u8]) -> Result<(Felt, &[u8]), CertRefusal>
    ensures { Tells (λ x. (x.0.number, x.1.now)) result (felt_in whole bytes.now) }
{
    let Some((number, rest)) = number_at(bytes) else {
        return Err(CertRefusal::Truncated(whole));
    };
    match Felt::new(number) {
        Some(felt) => Ok((felt, rest)),
        None => Err(CertRefusal::BadNumber(place_of(whole, bytes))),
    }
}

#[tactic(auto, unfolding(crate::specs::Reading::kind_at))]
pub(crate) fn kind_at(whole: u64, bytes: &[u8]) -> Result<(Kind, &[u8]), CertRefusal>
    ensures { Tells (λ x. (kind_of x.0, x.1.now)) result (kind_in whole bytes.now) }
{
    match bytes {
        [] => Err(CertRefusal::Truncated(whole)),
        [0, rest @ ..] => Ok((Kind::Alone, rest)),
        [1, rest @ ..] => Ok((Kind::Batch, rest)),
        [_, ..] => Err(CertRefusal::BadNumber(place_of(whole, bytes))),
    }
}

#[tactic(auto, unfolding(crate::specs::Reading::span_at))]
pub(crate) fn span_at(whole: u64, bytes: &[u8]) -> Result<((Felt, Felt), &[u8]), CertRefusal>
    ensures { Tells (λ x. (stretch x.0, x.1.now)) result (span_in whole bytes.now) }
{
    let (start, rest) = felt_at(whole, bytes)?;
    let (stop, rest) = felt_at(whole, rest)?;
    Ok(((start, stop), rest))
}

#[tactic(auto, unfolding(crate::specs::Reading::task_count_at))]
pub(crate) fn task_count_at(
    whole: u64,
    kind: Kind,
    bytes: &[u8],
) -> Result<(u32, &[u8]), CertRefusal>
    ensures { Tells (λ x. (x.0, x.1.now)) result (task_count_in whole (kind_of kind) bytes.now) }
{
    let (count, rest) = counted(whole, bytes)?;
    if kind == Kind::Alone && count != 0 {
        return Err(CertRefusal::BadNumber(place_of(whole, bytes)));
    }
    Ok((count, rest))
}

#[tactic(auto, unfolding(crate::specs::Reading::cell_numbers_at))]
pub(crate) fn cell_at(whole: u64, bytes: &[u8]) -> Result<((Felt, Felt), &[u8]), CertRefusal>
    ensures { Tells (λ x. (field_cell x.0, x.1.now)) result (cell_in whole bytes.now) }
{
    let (address, rest) = felt_at(whole, bytes)?;
    let (value, rest) = felt_at(whole, rest)?;
    Ok(((address, value), rest))
}

#[tactic(auto, unfolding(crate::specs::Reading::state_at))]
pub(crate) fn state_at(whole: u64, bytes: &[u8]) -> Result<(FieldState, &[u8]), CertRefusal>
    ensures { Tells (λ x. (field_registers x.0, x.1.now)) result (state_in whole bytes.now) }
{
    let (pc, rest) = felt_at(whole, bytes)?;
    let (ap, rest) = felt_at(whole, rest)?;
    let (fp, rest) = felt_at(whole, rest)?;
    Ok((FieldState { pc, ap, fp }, rest))
}

ghost use Rattle.cert_format.specs.Working.Answers.{Tells};
ghost use Rattle.cert_format.specs.Working.DraftViews.{front_of};
ghost use Rattle.cert_format.specs.Working.Taking.{head_at as head_in, front_at as front_in};

use crate::fields::{kind_at, span_at, task_count_at};
use crate::refusal::CertRefusal;
use cairo_model::Kind;
use goldi_field::Felt;

/// The kind of a certificate and its spans, before their order is tested.
#[derive(Clone, Copy, Drop)]
pub(crate) struct Front {
    pub kind: Kind,
    pub output: (Felt, Felt),
    pub range: (Felt, Felt),
    pub hash: (Felt, Felt),
}

#[tactic(auto, unfolding(crate::specs::Working::Taking::head_at))]
fn head_at(whole: u64, bytes: &[u8]) -> Result<(Front, &[u8]), CertRefusal>
    ensures { Tells (λ x. (front_of x.0, x.1.now)) result (head_in whole bytes.now) }
{
    let (kind, rest) = kind_at(whole, bytes)?;
    let (output, rest) = span_at(whole, rest)?;
    let (range, rest) = span_at(whole, rest)?;
    let (hash, rest) = span_at(whole, rest)?;
    let front = Front {
        kind,
        output,
        range,
        hash,
    };
    Ok((front, rest))
}

/// The kind, the spans and the number of tasks, which stand first in these bytes of a file of so many.
#[tactic(auto, unfolding(crate::specs::Working::Taking::front_at))]
pub(crate) fn front_at(whole: u64, bytes: &[u8]) -> Result<(Front, &[u8]), CertRefusal>
    ensures { Tells (λ x. (front_of x.0, x.1.now)) result (front_in whole bytes.now) }
{
    let (front, rest) = head_at(whole, bytes)?;
    let (_, rest) = task_count_at(whole, front.kind, rest)?;
    Ok((front, rest))
}

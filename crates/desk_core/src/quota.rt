// What an offer is answered by its client's limits, and what it takes of them.
ghost use Rattle.std.specs.Prelude.{◌≡◌, ◌+◌, ◌<◌, ◌≤◌, ◌^◌, length, slice_get, slice_set, Some};
ghost use Rattle.desk_core.specs.Quotas.{reply_by_totals};
ghost use Rattle.desk_core.specs.Working.Steps.{IsSmallUsage, reply_by_usage, used_after};

use crate::event::OfferNote;
use crate::limits::{MOST_CLIENT_CELLS, MOST_CLIENT_PIES, MOST_CLIENT_STEPS};
use crate::reply::{QuotaKind, Reply};
use crate::usage::Usage;

// The reply to an offer of a client with this usage.
pub(crate) fn offered_reply(usage: &Usage, closed: bool, note: &OfferNote) -> Reply
    requires { IsSmallUsage usage.now }
    ensures { result ≡ reply_by_usage usage.now closed note.now }
{
    match note {
        OfferNote::Refused(refusal) => Reply::Refused(*refusal),
        OfferNote::Accepted(_, _) if closed => Reply::Closed,
        OfferNote::Accepted(shape, _) => by_totals(
            usage.pies,
            u64::from(usage.pies) + 1,
            plus(usage.steps, shape.steps),
            plus(usage.cells, shape.size),
        ),
    }
}

fn plus(total: u64, part: u32) -> u64
    requires { total ≤ 2 ^ 32 }
    ensures { result ≡ total + part }
{
    total + u64::from(part)
}

fn by_totals(number: u32, pies: u64, steps: u64, cells: u64) -> Reply
    ensures { result ≡ reply_by_totals number pies steps cells }
{
    if MOST_CLIENT_PIES < pies {
        Reply::Quota(QuotaKind::Pies, pies, MOST_CLIENT_PIES)
    } else if MOST_CLIENT_STEPS < steps {
        Reply::Quota(QuotaKind::Steps, steps, MOST_CLIENT_STEPS)
    } else if MOST_CLIENT_CELLS < cells {
        Reply::Quota(QuotaKind::Sizes, cells, MOST_CLIENT_CELLS)
    } else {
        Reply::Admitted(number)
    }
}

// The usage after an offer with this reply.
pub(crate) fn used(usage: &Usage, note: &OfferNote, reply: &Reply) -> Usage
    requires { IsSmallUsage usage.now }
    ensures { result ≡ used_after usage.now note.now reply.now }
{
    if let (OfferNote::Accepted(shape, _), Reply::Admitted(_)) = (note, reply) {
        return Usage {
            pies: usage.pies + 1,
            steps: plus(usage.steps, shape.steps),
            cells: plus(usage.cells, shape.size),
        };
    }
    *usage
}

pub(crate) fn usage_at(usages: &[Usage], client: u32) -> Usage
    requires { client < length usages.now }
    ensures { slice_get usages.now client ≡ Some result }
{
    usages[client as usize]
}

pub(crate) fn set_usage(usages: &mut Vec<Usage>, client: u32, usage: Usage)
    requires { client < length usages.old.items }
    ensures { usages.new.items ≡ slice_set usages.old.items client usage }
{
    usages[client as usize] = usage;
}

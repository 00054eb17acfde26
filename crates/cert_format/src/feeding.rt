ghost use Rattle.std.specs.Prelude.{◌≡◌, ◌+◌, ◌-◌, ◌^◌, ◌<◌, ◌≤◌, ◌++◌, [], length, OnOk, IfOk};
ghost use Rattle.cert_format.specs.Working.DraftViews.{partial as partial_of};
ghost use Rattle.cert_format.specs.Working.Passing.{IsReady, IsWaiting, Goes, Passes};
ghost use Rattle.cert_format.specs.Working.Taking.{size_of};

use crate::carry::Carry;
use crate::partial::{Partial, size_of_part};
use std::alloc::AllocError;

/// Takes the parts that are whole with these bytes, and keeps the bytes of the next one.
pub(crate) fn feed_on(
    partial: &mut Partial,
    carry: &mut Carry,
    piece: &[u8],
) -> Result<(), AllocError>
    requires waiting { IsWaiting (partial_of partial.old) carry.old }
    requires in_all { partial.old.place + (length carry.old + length piece.now) < 2 ^ 64 }
    ensures { OnOk result (Passes (partial_of partial.old) (carry.old ++ piece.now) (partial_of partial.new) carry.new) }
{
    let size = size_of_part(partial.stage);
    if carry.len() + piece.len() < size {
        carry.add(piece);
        return Ok(());
    }
    let rest = fill_up(partial, carry, size, piece)?;
    let left = take_whole(partial, rest)?;
    carry.add(left);
    Ok(())
}

// Takes the part of which the first bytes were kept, if any were, and gives the bytes after it.
fn fill_up<'a>(
    partial: &mut Partial,
    carry: &mut Carry,
    size: usize,
    piece: &'a [u8],
) -> Result<&'a [u8], AllocError>
    requires waiting { IsWaiting (partial_of partial.old) carry.old }
    requires size { size ≡ size_of partial.old.stage }
    requires enough { size ≤ length carry.old + length piece.now }
    requires in_all { partial.old.place + (length carry.old + length piece.now) < 2 ^ 64 }
    ensures goes { IfOk result (λ rest. Goes (partial_of partial.old) (carry.old ++ piece.now) (partial_of partial.new) rest.now) }
    ensures empty { IfOk result (λ rest. carry.new ≡ []) }
{
    if carry.len() == 0 {
        return Ok(piece);
    }
    let (first, rest) = piece.split_at(size - carry.len());
    carry.add(first);
    partial.take(carry.as_slice())?;
    carry.clear();
    Ok(rest)
}

// Takes one part after the other, and gives the bytes of the one that isn't whole.
fn take_whole<'a>(partial: &mut Partial, bytes: &'a [u8]) -> Result<&'a [u8], AllocError>
    requires ready { IsReady (partial_of partial.old) }
    requires in_all { partial.old.place + length bytes.now < 2 ^ 64 }
    ensures { IfOk result (λ rest. Passes (partial_of partial.old) bytes.now (partial_of partial.new) rest.now) }
{
    let mut rest = bytes;
    let mut size = size_of_part(partial.stage);
    while size > 0 && size <= rest.len() {
        let (part, behind) = rest.split_at(size);
        partial.take(part)?;
        rest = behind;
        size = size_of_part(partial.stage);
    }
    if size > 0 {
        return Ok(rest);
    }
    partial.pass_over(rest.len());
    let (none, _) = rest.split_at(0);
    Ok(none)
}

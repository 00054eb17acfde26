ghost use Rattle.std.specs.Prelude.{◌≡◌, ◌≢◌, ◌≤◌, [], Err, IfOk, OnErr, OnOk, vec_len};
ghost use Rattle.std.specs.Io.KnownBytes.{Appends};
ghost use Rattle.shared_prover_cli.specs.Faults.{HasCause, Rose};
ghost use Rattle.shared_prover_cli.specs.WholeStreams.{AppendsPart, ConsumesAll, ConsumesAtMost, ConsumesMoreThan};
ghost use Rattle.shared_prover_cli.specs.Working.Takings.{TakesAll};

use crate::limits::READ_BYTES;
use crate::stream::{Failed, Sink, Source};
use crate::taker::Taker;
use std::alloc::{AllocError, Global};

/// Why an input was not read whole.
#[derive(Clone, Copy, Debug, PartialEq, Eq)]
pub enum InputFault {
    ReadFault,
    TooLong,
    OutOfMemory,
}

impl From<AllocError> for InputFault {
    ghost use Rattle.shared_prover_cli.specs.declared.whole.InputFault.TheVariants.{OutOfMemory};

    ghost from_gives = { λ _ fault. fault ≡ OutOfMemory };

    fn from(_: AllocError) -> InputFault {
        InputFault::OutOfMemory
    }
}

impl From<Failed> for InputFault {
    ghost use Rattle.shared_prover_cli.specs.declared.whole.InputFault.TheVariants.{ReadFault};

    ghost from_gives = { λ _ fault. fault ≡ ReadFault };

    fn from(_: Failed) -> InputFault {
        InputFault::ReadFault
    }
}

/// All that is left of a source, where it has at most `limit` bytes.
pub fn read_whole<S: Source>(
    alloc: Global,
    source: &mut S,
    limit: usize,
) -> Result<Vec<u8>, InputFault>
    ensures bytes { IfOk result (λ v.
        ConsumesAll (S.left source.old) (S.left source.new) v.items) }
    ensures short { IfOk result (λ v. vec_len v ≤ limit) }
    ensures long { result ≡ Err InputFault.TooLong →
        ConsumesMoreThan limit (S.left source.old) (S.left source.new) }
    ensures within { result ≢ Err InputFault.TooLong →
        ConsumesAtMost limit (S.left source.old) (S.left source.new) }
    ensures failed { result ≡ Err InputFault.ReadFault →
        Rose (S.faults source.old) (S.faults source.new) }
    ensures faults { S.faults source.old ≤ S.faults source.new }
{
    let mut bytes = Vec::new(alloc);
    read_into(alloc, source, limit, &mut bytes)?;
    Ok(bytes)
}

/// Hands all that is left of a source, where it has at most `limit` bytes, piece by piece to a taker that took nothing yet.
/// After an error it has taken a beginning, or it failed.
pub fn read_into<S: Source, T: Taker>(
    alloc: Global,
    source: &mut S,
    limit: usize,
    taker: &mut T,
) -> Result<(), InputFault>
    requires { T.has_taken taker.old [] }
    ensures all { OnOk result (TakesAll limit (S.left source.old) (S.left source.new) (T.has_taken taker.new)) }
    ensures long { result ≡ Err InputFault.TooLong →
        ConsumesMoreThan limit (S.left source.old) (S.left source.new) }
    ensures within { result ≢ Err InputFault.TooLong →
        ConsumesAtMost limit (S.left source.old) (S.left source.new) }
    ensures failed { result ≡ Err InputFault.ReadFault →
        Rose (S.faults source.old) (S.faults source.new) }
    ensures faults { S.faults source.old ≤ S.faults source.new }
{
    let mut piece = zeros(alloc, READ_BYTES)?;
    let mut done = 0;
    loop {
        let count = source.read(piece.as_mut_slice())?;
        if count == 0 {
            return Ok(());
        }
        if count > limit - done {
            return Err(InputFault::TooLong);
        }
        taker.take(&piece[..count])?;
        done += count;
    }
}

fn zeros(alloc: Global, size: usize) -> Result<Vec<u8>, AllocError>
    ensures { IfOk result (λ v. vec_len v ≡ size) }
{
    vec![in alloc; 0; size]
}

/// Writes the whole text.
pub fn write_whole<K: Sink>(sink: &mut K, text: &[u8]) -> Result<(), Failed>
    ensures whole { OnOk result (Appends (K.held sink.old) (K.held sink.new) text.now) }
    ensures part { OnErr result (AppendsPart (K.held sink.old) (K.held sink.new) text.now) }
    ensures cause { HasCause (K.faults sink.old) (K.faults sink.new) result }
{
    let mut done = 0;
    while done < text.len() {
        done += sink.write(&text[done..])?;
    }
    Ok(())
}

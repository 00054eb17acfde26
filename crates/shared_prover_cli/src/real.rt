ghost use Rattle.std.specs.Prelude.{◌≡◌};

use crate::limits::TRIES;
use crate::stream::{Failed, Sink, Source};
use std::io::{ErrorKind, Read, Write};

/// A reader of std. What is left is told where the reader tells it, so not over a real stream.
#[derive(Drop)]
pub struct StdSource<R: Read> {
    reader: R,
    faults: u64,
}

impl<R: Read> StdSource<R> {
    /// The source of what this reader has left; no call has failed yet.
    pub fn new(reader: R) -> StdSource<R>
        ensures left { ⟦<StdSource<R> as Source>⟧.left result ≡ R.remaining reader }
        ensures faults { ⟦<StdSource<R> as Source>⟧.faults result ≡ 0 }
    {
        StdSource { reader, faults: 0 }
    }
}

impl<R: Read> Source for StdSource<R> {
    ghost left = { λ s. R.remaining s.reader };

    ghost faults = { λ s. s.faults };

    fn read(&mut self, buf: &mut [u8]) -> Result<usize, Failed> {
        for _ in 0..TRIES {
            match self.reader.read(buf) {
                Ok(count) => return Ok(count),
                Err(fault) => {
                    self.faults = self.faults.saturating_add(1);
                    if fault.kind() != ErrorKind::Interrupted {
                        return Err(Failed);
                    }
                }
            }
        }
        Err(Failed)
    }
}

/// A writer of std. A write that takes nothing of a piece counts as a fault. What was written is
/// told where the writer tells it, so not over a real stream.
#[derive(Drop)]
pub struct StdSink<W: Write> {
    writer: W,
    faults: u64,
}

impl<W: Write> StdSink<W> {
    /// The sink that writes to this writer; no call has failed yet.
    pub fn new(writer: W) -> StdSink<W>
        ensures held { ⟦<StdSink<W> as Sink>⟧.held result ≡ W.contents writer }
        ensures faults { ⟦<StdSink<W> as Sink>⟧.faults result ≡ 0 }
    {
        StdSink { writer, faults: 0 }
    }
}

impl<W: Write> Sink for StdSink<W> {
    ghost held = { λ s. W.contents s.writer };

    ghost faults = { λ s. s.faults };

    fn write(&mut self, piece: &[u8]) -> Result<usize, Failed> {
        for _ in 0..TRIES {
            match self.writer.write(piece) {
                Ok(count) if count > 0 || piece.is_empty() => return Ok(count),
                Ok(_) => {
                    self.faults = self.faults.saturating_add(1);
                    return Err(Failed);
                }
                Err(fault) => {
                    self.faults = self.faults.saturating_add(1);
                    if fault.kind() != ErrorKind::Interrupted {
                        return Err(Failed);
                    }
                }
            }
        }
        Err(Failed)
    }
}

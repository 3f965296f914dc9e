// Standard output, or any other writer.
ghost use Rattle.std.specs.Prelude.{◌≡◌, ◌<◌, ◌≤◌, length};
ghost use Rattle.pol_outside.specs.Faults.{CountsError};
ghost use Rattle.pol_outside.specs.Outputs.{TellsFailure};
ghost use Rattle.pol_outside.specs.Sink.{Puts};

use crate::{Output, Sink, SinkFault};

/// A sink over a writer, as standard output. It counts its faults, and tells what was written where
/// the writer tells what it holds. Standard output doesn't.
#[derive(Drop)]
pub struct StdSink<W> {
    inner: W,
    faults: u64,
}

impl<W: Output + Drop> StdSink<W> {
    /// The sink over this writer, with no fault yet. It takes no memory.
    pub fn new(inner: W) -> StdSink<W>
        ensures written { ⟦<StdSink<W> as Sink>⟧.written result ≡ W.contents inner }
        ensures faults { ⟦<StdSink<W> as Sink>⟧.faults result ≡ 0 }
    {
        StdSink { inner, faults: 0 }
    }
}

impl<W: Output + Drop> Sink for StdSink<W> {
    ghost written = { λ s. W.contents s.inner };

    ghost faults = { λ s. s.faults };

    /// One write. An error of the writer is a fault, and so is a write that took no byte; nothing else is.
    fn put(&mut self, piece: &[u8]) -> Result<usize, SinkFault>
        requires { 0 < length piece.now }
        ensures puts { Puts result piece.now (W.contents self.old.inner)
            (W.contents self.new.inner) }
        ensures later { self.old.faults ≤ self.new.faults }
        ensures counts { CountsError result self.old.faults self.new.faults }
        ensures caused { TellsFailure result (W.failures self.old.inner)
            (W.failures self.new.inner) }
    {
        match self.inner.take_part(piece) {
            Ok(n) if n > 0 => Ok(n),
            _ => {
                self.faults = self.faults.saturating_add(1);
                Err(SinkFault)
            }
        }
    }
}

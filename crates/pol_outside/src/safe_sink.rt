// A sink that never fails.
ghost use Rattle.std.specs.Prelude.{◌≡◌, ◌<◌, None, Ok, length};
ghost use Rattle.pol_outside.specs.Sink.{Puts};

use crate::{Sink, SinkFault};

/// A sink that never fails: its count of faults is 0. It keeps no bytes and tells none.
#[derive(Clone, Copy)]
pub struct SafeSink;

impl SafeSink {
    /// The sink. It takes no memory.
    pub fn new() -> SafeSink
        ensures nothing_written { ⟦<SafeSink as Sink>⟧.written result ≡ None }
        ensures faults { ⟦<SafeSink as Sink>⟧.faults result ≡ 0 }
    {
        SafeSink
    }
}

impl Sink for SafeSink {
    ghost written = { λ _. None };

    ghost faults = { λ _. 0 };

    /// Takes the whole piece.
    fn put(&mut self, piece: &[u8]) -> Result<usize, SinkFault>
        requires { 0 < length piece.now }
        ensures puts { Puts result piece.now None None }
        ensures all { result ≡ Ok (length piece.now) }
    {
        Ok(piece.len())
    }
}

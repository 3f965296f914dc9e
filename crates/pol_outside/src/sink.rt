// What bytes are written to.
ghost use Rattle.std.specs.Prelude.{◌≡◌, ◌<◌, ◌≤◌, List, ℕ, Option, length};
ghost use Rattle.pol_outside.specs.Sink.{Puts, PutsAll, RisesAtFault};

/// A write failed. The sink's count of faults rose.
#[derive(Clone, Copy)]
pub struct SinkFault;

/// What bytes are written to. Writing takes no memory.
pub trait Sink {
    /// What was written, where it tells that.
    ghost written: { Self → Option (List ℕ) };

    /// How often it has failed. The count never falls.
    ghost faults: { Self → ℕ };

    /// Writes the first bytes of a piece and says how many, at least one. `SinkFault` only where
    /// the count of faults rose in this call: then nothing was written.
    fn put(&mut self, piece: &[u8]) -> Result<usize, SinkFault>
        requires { 0 < length piece.now }
        ensures puts { Puts result piece.now (written self.old) (written self.new) }
        ensures cause { RisesAtFault result (faults self.old) (faults self.new) }
        ensures later { faults self.old ≤ faults self.new };
}

/// Writes all the bytes. `SinkFault` only where the sink's count of faults rose in this call: then
/// the first of them were written, maybe none and never all.
pub fn put_all<S: Sink>(out: &mut S, bytes: &[u8]) -> Result<(), SinkFault>
    ensures puts { PutsAll result bytes.now (S.written out.old) (S.written out.new) }
    ensures cause { RisesAtFault result (S.faults out.old) (S.faults out.new) }
    ensures later { S.faults out.old ≤ S.faults out.new }
{
    let mut at = 0;
    while at < bytes.len() {
        let n = out.put(&bytes[at..])?;
        at += n;
    }
    Ok(())
}

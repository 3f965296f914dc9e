// What takes bytes, as standard output does.
ghost use Rattle.std.specs.Prelude.{List, ℕ, Option, None};
ghost use Rattle.std.specs.Io.{WritesAtMost};
ghost use Rattle.std.specs.Io.KnownBytes.{WriteAppends};
ghost use Rattle.pol_outside.specs.Outputs.{CountsFailure, is_failed_write};

use std::io;
use std::io::Write;

/// What takes bytes.
pub trait Output {
    /// The bytes that it holds, where they are told.
    ghost contents: { Self → Option (List ℕ) };

    /// How often a write failed or took no byte, where it tells that.
    ghost failures: { Self → Option ℕ };

    /// Takes the first bytes of a piece, and says how many.
    fn take_part(&mut self, piece: &[u8]) -> io::Result<usize>
        ensures bound { WritesAtMost result piece.now }
        ensures bytes { WriteAppends (contents self.old) (contents self.new) result piece.now }
        ensures fails { CountsFailure (is_failed_write result) (failures self.old)
            (failures self.new) };
}

/// Any writer. It doesn't tell how often a write failed.
impl<W: Write> Output for W {
    ghost contents = { λ w. W.contents w };

    ghost failures = { λ _. None };

    fn take_part(&mut self, piece: &[u8]) -> io::Result<usize> {
        self.write(piece)
    }
}

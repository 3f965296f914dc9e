// What files are opened on, and read from.
ghost use Rattle.std.specs.Prelude.{◌≡◌, ◌<◌, ◌≤◌, ◌∷◌, List, [], ℕ, Option, Some, IfOk, length, string_bytes};
ghost use Rattle.pol_outside.specs.Faults.{CountsError};
ghost use Rattle.pol_outside.specs.Disks.{FaultsAt, OpensFile, ReadsPart};
ghost use Rattle.pol_outside.specs.Folder.{AsksFor};

use std::io;

/// What files are opened on by their names, and read from, as those of the system are.
pub trait Disk {
    /// An open file. It is read from its first byte on.
    type File: Drop;

    /// The bytes that it holds under each name, where it tells that.
    ghost held: { Self → Option (List ℕ → Option (List ℕ)) };

    /// The names that it was asked for, in their order, where it tells that.
    ghost asked: { Self → Option (List (List ℕ)) };

    /// How often opening or reading has failed. The count never falls.
    ghost faults: { Self → ℕ };

    /// The name of the file at which it failed last.
    ghost last_fault: { Self → Option (List ℕ) };

    /// The bytes of an open file that weren't read yet, where they are told.
    ghost left: { Self.File → Option (List ℕ) };

    /// The name that a file was opened by, until reading it fails.
    ghost opened_by: { Self.File → Option (List ℕ) };

    /// Opens the file of that name. An error, as where there is none, raises the count of faults.
    fn open(&mut self, name: String) -> io::Result<Self::File>
        ensures opens { IfOk result (λ file. OpensFile (held self.old) (string_bytes name)
            (left file)) }
        ensures named { IfOk result (λ file. opened_by file ≡ Some (string_bytes name)) }
        ensures held { held self.new ≡ held self.old }
        ensures asks { AsksFor (asked self.old) (string_bytes name ∷ []) (asked self.new) }
        ensures counts { CountsError result (faults self.old) (faults self.new) }
        ensures cause { FaultsAt result (Some (string_bytes name)) (last_fault self.old)
            (last_fault self.new) }
        ensures later { faults self.old ≤ faults self.new };

    /// Reads the next bytes of a file into the front of `part`, and says how many: none only at the
    /// end. An error raises the count of faults.
    fn read(&mut self, file: &mut Self::File, part: &mut [u8]) -> io::Result<usize>
        requires { 0 < length part.now }
        ensures reads { ReadsPart result part.new (left file.old) (left file.new) }
        ensures named { IfOk result (λ n. opened_by file.new ≡ opened_by file.old) }
        ensures held { held self.new ≡ held self.old }
        ensures asks { asked self.new ≡ asked self.old }
        ensures counts { CountsError result (faults self.old) (faults self.new) }
        ensures cause { FaultsAt result (opened_by file.old) (last_fault self.old)
            (last_fault self.new) }
        ensures later { faults self.old ≤ faults self.new };
}

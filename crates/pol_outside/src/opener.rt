// What opens files to read, as those of the system are opened.
ghost use Rattle.std.specs.Prelude.{◌≡◌, ◌∷◌, List, [], ℕ, Option, None, IfOk};
ghost use Rattle.pol_outside.specs.Disks.{OpensFile};
ghost use Rattle.pol_outside.specs.Folder.{AsksFor};

use std::io::Read;
use std::rt::Files;
use std::{fs, io};

/// What opens files by their names, to read them. It can do nothing else to a file.
pub trait Opener {
    /// An open file. It is read from its first byte on.
    type File: Read + Drop;

    /// The bytes that it holds under each name, where it tells that.
    ghost held: { Self → Option (List ℕ → Option (List ℕ)) };

    /// The names that it was asked for, in their order, where it tells that.
    ghost asked: { Self → Option (List (List ℕ)) };

    /// Opens the file of that name. It is an error where there is none.
    fn open(&mut self, name: &str) -> io::Result<Self::File>
        ensures opens { IfOk result (λ file. OpensFile (held self.old) name.now
            (Self.File.remaining file)) }
        ensures held { held self.new ≡ held self.old }
        ensures asks { AsksFor (asked self.old) (name.now ∷ []) (asked self.new) };
}

/// The files of a runtime: a name is a path, from the folder that the program runs in. They tell nothing,
/// so that no clause speaks of this line.
impl<'a, R: Files> Opener for &'a R {
    type File = R::File;

    ghost held = { λ _. None };

    ghost asked = { λ _. None };

    fn open(&mut self, name: &str) -> io::Result<R::File> {
        fs::open(*self, name)
    }
}

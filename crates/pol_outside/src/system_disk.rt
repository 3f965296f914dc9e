// A disk over what opens files, as the system does.
ghost use Rattle.std.specs.Prelude.{◌≡◌, ◌≤◌, None};
ghost use Rattle.pol_outside.specs.Faults.{one_more};
ghost use Rattle.pol_outside.specs.Folder.{name_bytes};

use crate::{Disk, Opener};
use std::io;
use std::io::Read;
use std::mem::replace;

/// A disk over what opens files, as the system does. It counts its faults, and keeps the name of the last.
#[derive(Drop)]
pub struct SystemDisk<O: Opener> {
    files: O,
    faults: u64,
    last_fault: Option<String>,
}

/// An open file, with the name that it was opened by.
#[derive(Drop)]
pub struct NamedFile<F> {
    file: F,
    name: Option<String>,
}

impl<O: Opener> SystemDisk<O> {
    /// The disk over what opens files, with no fault yet. It takes no memory.
    pub fn new(files: O) -> SystemDisk<O>
        ensures held { ⟦<SystemDisk<O> as Disk>⟧.held result ≡ O.held files }
        ensures asked { ⟦<SystemDisk<O> as Disk>⟧.asked result ≡ O.asked files }
        ensures faults { ⟦<SystemDisk<O> as Disk>⟧.faults result ≡ 0 }
        ensures last_fault { ⟦<SystemDisk<O> as Disk>⟧.last_fault result ≡ None }
    {
        SystemDisk {
            files,
            faults: 0,
            last_fault: None,
        }
    }

    // One fault more, at the file of that name.
    fn fail(&mut self, name: Option<String>)
        ensures after { self.new ≡ record self.old {
          faults = one_more self.old.faults;
          last_fault = name;
        } }
        ensures later { self.old.faults ≤ self.new.faults }
    {
        self.faults = self.faults.saturating_add(1);
        self.last_fault = name;
    }
}

impl<O: Opener> Disk for SystemDisk<O> {
    type File = NamedFile<O::File>;

    ghost held = { λ d. O.held d.files };

    ghost asked = { λ d. O.asked d.files };

    ghost faults = { λ d. d.faults };

    ghost last_fault = { λ d. name_bytes d.last_fault };

    ghost left = { λ f. O.File.remaining f.file };

    ghost opened_by = { λ f. name_bytes f.name };

    fn open(&mut self, name: String) -> io::Result<NamedFile<O::File>> {
        match self.files.open(name.as_str()) {
            Ok(file) => Ok(NamedFile {
                file,
                name: Some(name),
            }),
            Err(error) => {
                self.fail(Some(name));
                Err(error)
            }
        }
    }

    fn read(&mut self, file: &mut NamedFile<O::File>, part: &mut [u8]) -> io::Result<usize> {
        match file.file.read(part) {
            Ok(n) => Ok(n),
            Err(error) => {
                self.fail(replace(&mut file.name, None));
                Err(error)
            }
        }
    }
}

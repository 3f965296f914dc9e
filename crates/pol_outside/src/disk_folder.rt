// The files of a disk, as a folder.
ghost use Rattle.std.specs.Prelude.{◌≡◌, ◌≤◌, [], Some, None};
ghost use Rattle.pol_outside.specs.declared.folder.TheConstants.{MOST_TAKEN};
ghost use Rattle.pol_outside.specs.Folder.{AsksOnce, CountsFault, FaultIsAt, NamesFault, Takes, one_file};

use crate::{Disk, Folder, SystemDisk, TakeFault};
use std::alloc::Global;
use std::rt::Files;

/// The files of a disk, under their names. It holds what the disk holds, its faults are the disk's, and the
/// disk is asked for what it is asked for.
#[derive(Drop)]
pub struct DiskFolder<D: Disk> {
    disk: D,
}

impl<D: Disk> DiskFolder<D> {
    /// The folder over a disk. It takes no memory.
    pub fn over(disk: D) -> DiskFolder<D>
        ensures held { ⟦<DiskFolder<D> as Folder>⟧.held result ≡ D.held disk }
        ensures faults { ⟦<DiskFolder<D> as Folder>⟧.faults result ≡ D.faults disk }
        ensures last_fault { ⟦<DiskFolder<D> as Folder>⟧.last_fault result ≡ D.last_fault disk }
        ensures asked { ⟦<DiskFolder<D> as Folder>⟧.asked result ≡ D.asked disk }
    {
        DiskFolder { disk }
    }
}

impl<'a, R: Files> DiskFolder<SystemDisk<&'a R>> {
    /// The folder over the files of a runtime, with no fault yet. It takes no memory.
    pub fn new(files: &'a R) -> DiskFolder<SystemDisk<&'a R>>
        ensures nothing_held { ⟦<DiskFolder<SystemDisk<&'a R>> as Folder>⟧.held result ≡ None }
        ensures faults { ⟦<DiskFolder<SystemDisk<&'a R>> as Folder>⟧.faults result ≡ 0 }
        ensures last_fault { ⟦<DiskFolder<SystemDisk<&'a R>> as Folder>⟧.last_fault result ≡ None }
    {
        DiskFolder::over(SystemDisk::new(files))
    }
}

impl<D: Disk> Folder for DiskFolder<D> {
    ghost held = { λ f. D.held f.disk };

    ghost faults = { λ f. D.faults f.disk };

    ghost last_fault = { λ f. D.last_fault f.disk };

    ghost asked = { λ f. D.asked f.disk };

    /// As the trait says. It opens the file and reads it in pieces, never more than `limit + 1` bytes.
    /// A name that isn't there is a fault.
    fn take(
        &mut self,
        alloc: Global,
        name: &str,
        limit: u64,
        into: &mut Vec<u8>,
    ) -> Result<(), TakeFault>
        requires { limit ≤ MOST_TAKEN }
        ensures given { Takes (D.held self.old.disk) name.now limit result into.old.items
            into.new.items }
        ensures held { D.held self.new.disk ≡ D.held self.old.disk }
        ensures later { D.faults self.old.disk ≤ D.faults self.new.disk }
        ensures cause { NamesFault result name.now
            (D.faults self.old.disk) (D.faults self.new.disk)
            (D.last_fault self.old.disk) (D.last_fault self.new.disk) }
        ensures asks { AsksOnce result name.now (D.asked self.old.disk) (D.asked self.new.disk) }
        ensures counts { CountsFault result (D.faults self.old.disk) (D.faults self.new.disk) }
    {
        let Ok(asked) = String::from_str(alloc, name) else {
            return Err(TakeFault::NoMemory);
        };
        match self.disk.open(asked) {
            Ok(mut file) => read_up_to(&mut self.disk, &mut file, limit, into),
            Err(_) => Err(TakeFault::Failed),
        }
    }
}

// How many bytes are read at once. They stand on the stack.
const CHUNK: usize = 4096;

// Reads to the end, or one byte more than the limit. An error is `Failed`, and the first bytes stay in
// `into`.
fn read_up_to<D: Disk>(
    disk: &mut D,
    file: &mut D::File,
    limit: u64,
    into: &mut Vec<u8>,
) -> Result<(), TakeFault>
    requires { limit ≤ MOST_TAKEN }
    ensures given { Takes (one_file (D.left file.old)) [] limit result into.old.items
        into.new.items }
    ensures held { D.held disk.new ≡ D.held disk.old }
    ensures asked { D.asked disk.new ≡ D.asked disk.old }
    ensures counts { CountsFault result (D.faults disk.old) (D.faults disk.new) }
    ensures cause { FaultIsAt result (D.opened_by file.old) (D.last_fault disk.old)
        (D.last_fault disk.new) }
    ensures later { D.faults disk.old ≤ D.faults disk.new }
{
    let mut chunk = [0u8; CHUNK];
    let mut left = limit as usize + 1;
    while left > 0 {
        let most = left.min(CHUNK);
        let Ok(n) = disk.read(file, &mut chunk[..most]) else {
            return Err(TakeFault::Failed);
        };
        if n == 0 {
            return Ok(());
        }
        if into.extend_from_slice(&chunk[..n]).is_err() {
            return Err(TakeFault::NoMemory);
        }
        left -= n;
    }
    Err(TakeFault::TooLong)
}

// A folder of files, by their names.
ghost use Rattle.std.specs.Prelude.{◌≡◌, ◌≤◌, List, ℕ, Option};
ghost use Rattle.pol_outside.specs.declared.folder.TheConstants.{MOST_TAKEN};
ghost use Rattle.pol_outside.specs.Folder.{AsksOnce, Files, FolderLimits, Takes, NamesFault};

use std::alloc::Global;

/// The most bytes that a call may ask a folder for.
pub const MOST_TAKEN: u64 = 67_108_864;

/// The most bytes of a call, as a number.
pub fn folder_limits()
    ensures { FolderLimits }
{}

/// Why a file was not given.
#[derive(Clone, Copy)]
pub enum TakeFault {
    /// A fault of the folder: the name isn't there, or reading failed. The folder's count rose.
    Failed,
    /// The file has more bytes than the limit.
    TooLong,
    /// There was no memory.
    NoMemory,
}

/// A folder of files. A name is text; what it means is the folder's own choice.
pub trait Folder {
    /// The bytes that it holds under each name, where it tells that.
    ghost held: { Self → Option (List ℕ → Option (List ℕ)) };

    /// How often it has failed. The count never falls.
    ghost faults: { Self → ℕ };

    /// The name that was asked for at its last fault.
    ghost last_fault: { Self → Option (List ℕ) };

    /// The names that it was asked for, in their order, where it tells that.
    ghost asked: { Self → Option (List (List ℕ)) };

    /// Adds the bytes of the file of that name to `into`. `Ok`: all of them, at most `limit`.
    /// `TooLong` exactly where there are more than `limit`: then the first `limit + 1` are added.
    /// `Failed` only where the count of faults rose in this call, and then the name of the last
    /// fault is this one; no other answer changes that name. After `Failed` and `NoMemory` the
    /// first bytes that were given are added, maybe none. What the folder holds never changes, and
    /// this name is the one that it was asked for besides; after `NoMemory` maybe not even that.
    fn take(
        &mut self,
        alloc: Global,
        name: &str,
        limit: u64,
        into: &mut Vec<u8>,
    ) -> Result<(), TakeFault>
        requires { limit ≤ MOST_TAKEN }
        ensures given { Takes (held self.old) name.now limit result into.old.items into.new.items }
        ensures held { held self.new ≡ held self.old }
        ensures later { faults self.old ≤ faults self.new }
        ensures cause { NamesFault result name.now (faults self.old) (faults self.new)
            (last_fault self.old) (last_fault self.new) }
        ensures asks { AsksOnce result name.now (asked self.old) (asked self.new) };
}

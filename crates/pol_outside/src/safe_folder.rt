// A folder in memory that never fails.
ghost use Rattle.std.specs.Prelude.{◌≡◌, ℕ, List, [], Some, None, OnOk, OnErr};
ghost use Rattle.pol_outside.specs.Folder.{Replaces, SameFiles};

use crate::give::give;
use crate::{Folder, NoMemory, TakeFault};
use std::alloc::Global;
use std::collections::BTreeMap;

/// A folder in memory that never fails: its count of faults is 0. It holds every name: one that
/// was not put in stands for an empty file.
#[derive(Drop)]
pub struct SafeFolder {
    alloc: Global,
    files: BTreeMap<String, Vec<u8>>,
}

impl SafeFolder {
    ghost use Rattle.pol_outside.specs.SafeFolder.{every_file};

    /// The folder whose files are all empty. It takes no memory.
    pub fn new(alloc: Global) -> SafeFolder
        ensures { (name : List ℕ) → every_file result name ≡ Some [] }
    {
        SafeFolder {
            alloc,
            files: BTreeMap::new(alloc),
        }
    }

    /// Holds these bytes under a name, in place of those that were there. Where there is no memory
    /// the folder stays as it was.
    pub fn hold(&mut self, name: &str, bytes: &[u8]) -> Result<(), NoMemory>
        ensures ok { OnOk result
            (Replaces (every_file self.old) name.now bytes.now (every_file self.new)) }
        ensures err { OnErr result (SameFiles (every_file self.old) (every_file self.new)) }
    {
        let alloc = self.alloc;
        let key = String::from_str(alloc, name)?;
        let file = bytes.to_vec(alloc)?;
        self.files.insert(key, file)?;
        Ok(())
    }
}

impl Folder for SafeFolder {
    ghost use Rattle.pol_outside.specs.SafeFolder.{every_file};

    ghost held = { λ f. Some (every_file f) };

    ghost faults = { λ _. 0 };

    ghost last_fault = { λ _. None };

    ghost asked = { λ _. None };

    fn take(
        &mut self,
        _alloc: Global,
        name: &str,
        limit: u64,
        into: &mut Vec<u8>,
    ) -> Result<(), TakeFault> {
        match self.files.get(name) {
            Some(bytes) => give(bytes.as_slice(), limit, into),
            None => give(b"", limit, into),
        }
    }
}

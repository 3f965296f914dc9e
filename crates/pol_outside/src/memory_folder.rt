// A folder in memory, with planned faults.
ghost use Rattle.std.specs.Prelude.{◌≡◌, ◌≤◌, ℕ, List, [], ◌∷◌, ◌++◌, Some, None, IfOk, OnOk, OnErr, option_map, string_bytes};
ghost use Rattle.pol_outside.specs.declared.folder.TheConstants.{MOST_TAKEN};
ghost use Rattle.pol_outside.specs.Faults.{one_more};
ghost use Rattle.pol_outside.specs.Folder.{AsksOnce, Takes, NamesFault, CountsFault, Replaces, SameFiles};

use crate::give::give;
use crate::{Folder, NoMemory, TakeFault};
use std::alloc::Global;
use std::collections::BTreeMap;

/// A folder in memory. It keeps a map from name to bytes, the numbers of the calls that are to
/// fail, counted from 1, the names that it was asked for, and its faults with the name of the last.
#[derive(Drop)]
pub struct MemoryFolder {
    files: BTreeMap<String, Vec<u8>>,
    failing: Vec<u64>,
    calls: u64,
    asked: Vec<String>,
    faults: u64,
    last_fault: Option<String>,
}

impl MemoryFolder {
    ghost use Rattle.pol_outside.specs.MemoryFolder.{asked_names, files_of, folder_calls, no_folder_calls, take_fails_at};

    /// The folder without a file, whose calls aren't to fail. It takes no memory.
    pub fn new(alloc: Global) -> MemoryFolder
        ensures files { (name : List ℕ) → files_of result name ≡ None }
        ensures calls { folder_calls result ≡ no_folder_calls }
    {
        MemoryFolder {
            files: BTreeMap::new(alloc),
            failing: Vec::new(alloc),
            calls: 0,
            asked: Vec::new(alloc),
            faults: 0,
            last_fault: None,
        }
    }

    /// Holds these bytes under a name, in place of those that were there. Where there is no memory
    /// the folder stays as it was.
    pub fn hold(&mut self, name: &str, bytes: &[u8]) -> Result<(), NoMemory>
        ensures ok { OnOk result (Replaces (files_of self.old) name.now bytes.now
            (files_of self.new)) }
        ensures err { OnErr result (SameFiles (files_of self.old) (files_of self.new)) }
        ensures calls { folder_calls self.new ≡ folder_calls self.old }
    {
        let alloc = *self.failing.allocator();
        let key = String::from_str(alloc, name)?;
        let file = bytes.to_vec(alloc)?;
        self.files.insert(key, file)?;
        Ok(())
    }

    /// Makes the call of `take` of this number fail, counted from 1 over the folder's life. Where
    /// there is no memory the folder stays as it was.
    pub fn fail_at(&mut self, call: u64) -> Result<(), NoMemory>
        ensures files { files_of self.new ≡ files_of self.old }
        ensures ok { OnOk result (folder_calls self.new ≡ take_fails_at call
            (folder_calls self.old)) }
        ensures err { OnErr result (folder_calls self.new ≡ folder_calls self.old) }
    {
        self.failing.push(call)?;
        Ok(())
    }

    // Keeps the name of a call, and gives it once more. Where there is no memory none is kept.
    fn keep(&mut self, alloc: Global, name: &str) -> Result<String, NoMemory>
        ensures value { IfOk result (λ s. string_bytes s ≡ name.now) }
        ensures kept { OnOk result (asked_names self.new ≡ asked_names self.old ++ name.now ∷ []) }
        ensures none { OnErr result (asked_names self.new ≡ asked_names self.old) }
        ensures after { self.new ≡ record self.old { asked = self.new.asked } }
    {
        let kept = String::from_str(alloc, name)?;
        let asked = String::from_str(alloc, name)?;
        self.asked.push(kept)?;
        Ok(asked)
    }

    // One fault more, at that name.
    fn fail(&mut self, asked: String) -> TakeFault
        ensures fault { result ≡ TakeFault.Failed }
        ensures after { self.new ≡ record self.old {
          faults = one_more self.old.faults;
          last_fault = Some asked;
        } }
        ensures later { self.old.faults ≤ self.new.faults }
    {
        self.faults = self.faults.saturating_add(1);
        self.last_fault = Some(asked);
        TakeFault::Failed
    }
}

impl Folder for MemoryFolder {
    ghost use Rattle.pol_outside.specs.MemoryFolder.{asked_names, files_of, folder_calls, next_is_fault, FaultIsAnswered};

    ghost held = { λ f. Some (files_of f) };

    ghost faults = { λ f. f.faults };

    ghost last_fault = { λ f. option_map (λ s. string_bytes s) f.last_fault };

    ghost asked = { λ f. Some (asked_names f) };

    /// As the trait says. A call is a fault exactly where its number is among those that are to
    /// fail or the name isn't there, up to want of memory, and it raises the count by that alone.
    /// Every call counts, also one that finds no memory.
    fn take(
        &mut self,
        alloc: Global,
        name: &str,
        limit: u64,
        into: &mut Vec<u8>,
    ) -> Result<(), TakeFault>
        requires { limit ≤ MOST_TAKEN }
        ensures given { Takes (Some (files_of self.old)) name.now limit result
            into.old.items into.new.items }
        ensures held { Some (files_of self.new) ≡ Some (files_of self.old) }
        ensures later { (folder_calls self.old).faults ≤ (folder_calls self.new).faults }
        ensures cause { NamesFault result name.now
            (folder_calls self.old).faults (folder_calls self.new).faults
            (folder_calls self.old).last_fault (folder_calls self.new).last_fault }
        ensures asks { AsksOnce result name.now (Some (folder_calls self.old).asked)
            (Some (folder_calls self.new).asked) }
        ensures made { (folder_calls self.new).made ≡ one_more (folder_calls self.old).made }
        ensures failing { (folder_calls self.new).failing ≡ (folder_calls self.old).failing }
        ensures fault { FaultIsAnswered (next_is_fault self.old name.now) result }
        ensures counts { CountsFault result
            (folder_calls self.old).faults (folder_calls self.new).faults }
    {
        self.calls = self.calls.saturating_add(1);
        let Ok(asked) = self.keep(alloc, name) else {
            return Err(TakeFault::NoMemory);
        };
        if self.failing.contains(&self.calls) {
            return Err(self.fail(asked));
        }
        match self.files.get(name) {
            Some(bytes) => give(bytes.as_slice(), limit, into),
            None => Err(self.fail(asked)),
        }
    }
}

//! Cores that were found, kept so that no product is asked for them again.
ghost use Rattle.std.specs.Prelude.{◌≡◌, [], IfOk, OnOk, length};
ghost use Rattle.tree_search.specs.Cores.{AreNeedsWithin, IsCoreHit, IsKeptWith, IsNoCore};

use nogoods::Tracking;
use plain_lists::NoMemory;
use refute_check::Refutation;
use search_parts::{MOST_LEARNED, Needs, Part, kept_part};
use std::alloc::Global;
use std::rc::Rc;

/// Refutations by a core, each with the path's answers to the core's tests, in the order in which they were
/// found; and a path that they follow.
#[derive(Drop)]
pub(crate) struct Cores {
    pub(crate) lists: Tracking,
    pub(crate) parts: Vec<Rc<Refutation>>,
}

impl Cores {
    /// No core, at the path without answers.
    pub(crate) fn new(alloc: Global) -> Result<Cores, NoMemory>
        ensures { IfOk result IsNoCore }
    {
        Ok(Cores {
            lists: Tracking::new(alloc)?,
            parts: Vec::new(alloc),
        })
    }

    /// The part by a kept core whose answers the path has, if there is one.
    pub(crate) fn hit(&self) -> Result<Option<Part>, NoMemory>
        requires { length self.now.parts.items ≡ length self.now.lists.lists }
        ensures { IfOk result (IsCoreHit self.now) }
    {
        let Some(number) = self.lists.hit() else {
            return Ok(None);
        };
        let part = kept_part(&self.parts[number], self.lists.at(number))?;
        Ok(Some(part))
    }

    /// Keeps a part by a core whose proof is kept, while there is room: so kept cores take no more memory
    /// than kept proofs and the answers of so many lists. Where there is no memory the answers may be kept without
    /// the part: the search ends.
    pub(crate) fn keep(&mut self, part: &Part, kept: bool) -> Result<(), NoMemory>
        requires { AreNeedsWithin part.now.needs self.old.lists.path }
        ensures { OnOk result (IsKeptWith self.old part.now self.new) }
    {
        if !kept || self.lists.len() >= MOST_LEARNED {
            return Ok(());
        }
        let Needs::Just(answers) = &part.needs else {
            return Ok(());
        };
        self.lists.learn(answers.copy()?)?;
        self.parts.push(part.refutation.clone()?)?;
        Ok(())
    }
}

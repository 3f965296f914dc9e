//! The store of learned refutations.
ghost use Rattle.std.specs.Prelude.{◌≡◌, ◌++◌, ◌∷◌, [], ℕ, true, List, Bool, OnOk, OnErr, IfSome, IfNone};
ghost use Rattle.nogoods.specs.Hits.{NoHit};
ghost use Rattle.nogoods.specs.Stored.{IsFirstOf, StillCloses, stored_lists};

use crate::watching::first_contained;
use formula_tree::Path;
use plain_lists::{List, NoMemory};
use std::alloc::Global;
use std::marker::Model;
use std::rc::Rc;

/// A value that closes under some lists of answers, as a refutation does. What closes under some
/// answers closes under all answers that contain them.
pub trait Closes {
    /// Whether the value closes under a list of answers.
    ghost closes: { Self → List (ℕ × Bool) → Bool };

    /// Whether the value closes under the path's answers. It takes no memory.
    fn closes_under(&self, path: &Path) -> bool
        ensures { result ≡ closes self.now path.now };

    /// What closes under some answers closes under all answers that contain them.
    ghost still_closes: { (x : Self) → StillCloses (closes x) };
}

/// Learned refutations: pairs of a list of answers and a value that closes under them, in the order
/// in which they were learned.
#[derive(Drop)]
pub struct Store<T: Closes> {
    lists: List<Path>,
    values: Vec<Rc<T>>,
}

impl<T: Closes> Model for Store<T> {
    ghost use Rattle.std.specs.Prelude.{◌≡◌, ℕ, Bool, List, zip, length};

    ghost Value = { List (List (ℕ × Bool) × T) };

    ghost use Rattle.nogoods.specs.Stored.{AllClose, shared_values};

    ghost view = { λ s. zip s.lists (shared_values s.values.items) };

    ghost invariant = { λ s.
        (length s.lists ≡ length s.values.items) ×
        AllClose T.closes (zip s.lists (shared_values s.values.items)) };
}

impl<T: Closes> Store<T> {
    /// The store without a pair. It takes no memory.
    pub fn new(alloc: Global) -> Store<T>
        ensures { result ≡ [] }
    {
        Store {
            lists: List::new(alloc),
            values: Vec::new(alloc),
        }
    }

    /// The first stored pair whose answers the path contains, or none exactly where the path
    /// contains the answers of no pair. Its value closes under the path. It takes no memory.
    pub fn hit(&self, path: &Path) -> Option<(&Path, &Rc<T>)>
        ensures first { IfSome result (λ p. IsFirstOf self.now path.now (p.0.now, p.1.now.value)) }
        ensures none { IfNone result (NoHit (stored_lists self.now) path.now) }
        ensures closes { IfSome result (λ p. T.closes p.1.now.value path.now ≡ true) }
    {
        let lists = self.lists.as_slice();
        match first_contained(lists, path) {
            Some(index) => Some((&lists[index], &self.values[index])),
            None => None,
        }
    }
}

impl<T: Closes + Drop> Store<T> {
    /// Stores a value under answers under which it closes. Where there is no memory both are
    /// dropped and the store stays as it was.
    pub fn learn(&mut self, answers: Path, what: Rc<T>) -> Result<(), NoMemory>
        requires { T.closes what.value answers ≡ true }
        ensures ok { OnOk result (self.new ≡ self.old ++ (answers, what.value) ∷ []) }
        ensures err { OnErr result (self.new ≡ self.old) }
    {
        self.values.push(what)?;
        match self.lists.push(answers) {
            Ok(()) => Ok(()),
            Err(error) => {
                self.values.pop();
                Err(error)
            }
        }
    }
}

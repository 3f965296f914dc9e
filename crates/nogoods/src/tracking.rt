//! A store of lists of answers that follows a path.
ghost use Rattle.std.specs.Prelude.{◌≡◌, ◌++◌, ◌∷◌, [], ◌<◌, ◌≤◌, ◌↔◌, None, IfOk, IsSome, OnErr, OnOk, length, slice_get, option_to_list};
ghost use Rattle.formula_tree.specs.Answers.{Contained, answer_of};
ghost use Rattle.nogoods.specs.Joining.{AreMarked, IsShortest, IsWatchedAt};
ghost use Rattle.nogoods.specs.Turning.{KeepsWatchers};
ghost use Rattle.nogoods.specs.Tracking.{IsHitOf, Tracked};

use crate::watching::{Watching, has_answer, join, watch};
use formula_tree::Path;
use plain_lists::{List, NoMemory};
use std::alloc::Global;
use std::marker::Model;

/// Lists of answers in the order in which they were learned, and a path. It knows at once whether the
/// path contains one of the lists: an answer that joins the path looks only at the lists that are
/// watched at it, which are few where most lists share long runs of answers.
#[derive(Drop)]
pub struct Tracking {
    lists: List<Path>,
    path: Path,
    watching: Watching,
    // For each length of the path, from 0 to its own, a list that the path's beginning contains.
    hits: Vec<Option<usize>>,
}

impl Model for Tracking {
    ghost use Rattle.nogoods.specs.Tracking.{IsTracking, Tracked};

    ghost Value = { Tracked };

    ghost view = { λ t. record { lists = t.lists; path = t.path } };

    ghost invariant = { λ t. IsTracking t.lists t.path t.watching.items t.hits.items };
}

impl Tracking {
    /// No list, and the path without answers.
    pub fn new(alloc: Global) -> Result<Tracking, NoMemory>
        ensures { IfOk result (λ t. t ≡ record { lists = []; path = [] }) }
    {
        let mut hits = Vec::new(alloc);
        hits.push(None)?;
        Ok(Tracking {
            lists: List::new(alloc),
            path: Path::new(alloc),
            watching: Vec::new(alloc),
            hits,
        })
    }

    /// How many lists there are.
    pub fn len(&self) -> usize
        ensures { result ≡ length self.now.lists }
    {
        self.lists.len()
    }

    /// The answers of the list of a number, counted from 0 in the order in which they were learned.
    pub fn at(&self, number: usize) -> &Path
        requires { number < length self.now.lists }
        ensures { slice_get self.now.lists number ≡ Some result.now }
    {
        &self.lists.as_slice()[number]
    }

    /// The number of a list that the path contains, or none exactly where it contains none.
    pub fn hit(&self) -> Option<usize>
        ensures { IsHitOf self.now.lists self.now.path result }
    {
        let last = self.path.len();
        self.hits.as_slice()[last]
    }

    /// One more answer at the end of the path. Where there is no memory the path stays as it was.
    pub fn push(&mut self, test: u32, answer: bool) -> Result<(), NoMemory>
        requires { answer_of self.old.path test ≡ None }
        ensures lists { self.new.lists ≡ self.old.lists }
        ensures ok { OnOk result (self.new.path ≡ self.old.path ++ (test, answer) ∷ []) }
        ensures err { OnErr result (self.new.path ≡ self.old.path) }
    {
        let before = self.hit();
        self.path.push(test, answer)?;
        let lists = self.lists.as_slice();
        match join(lists, &self.path, &mut self.watching, test, answer) {
            Ok(joined) => match add_hit(&mut self.hits, before.or(joined)) {
                Ok(()) => Ok(()),
                Err(error) => {
                    self.path.pop();
                    Err(error)
                }
            },
            Err(error) => {
                self.path.pop();
                Err(error)
            }
        }
    }

    /// Takes the last answer away, and gives it; none where the path is empty. It takes no memory.
    pub fn pop(&mut self) -> Option<(u32, bool)>
        ensures lists { self.new.lists ≡ self.old.lists }
        ensures last { self.old.path ≡ self.new.path ++ option_to_list result }
        ensures nonempty { IsSome result ↔ (0 < length self.old.path) }
    {
        let last = self.path.pop();
        self.hits.truncate(self.path.len() + 1);
        last
    }

    /// Learns a list whose answers the path has. Its number is that of the lists before it. Where there is
    /// no memory the lists stay as they were.
    pub fn learn(&mut self, answers: Path) -> Result<(), NoMemory>
        requires { Contained answers self.old.path }
        ensures path { self.new.path ≡ self.old.path }
        ensures ok { OnOk result (self.new.lists ≡ self.old.lists ++ answers ∷ []) }
        ensures err { OnErr result (self.new.lists ≡ self.old.lists) }
    {
        let number = self.lists.len();
        let count = shortest(&answers, &self.path);
        watch_newest(&self.path, count, &mut self.watching, number)?;
        self.lists.push(answers)?;
        mark(&mut self.hits, count, number);
        Ok(())
    }
}

// Adds a hit, or none, at the end. Where there is no memory the hits stay as they were.
fn add_hit(hits: &mut Vec<Option<usize>>, hit: Option<usize>) -> Result<(), NoMemory>
    ensures ok { OnOk result (hits.new.items ≡ hits.old.items ++ hit ∷ []) }
    ensures err { OnErr result (hits.new.items ≡ hits.old.items) }
{
    hits.push(hit)?;
    Ok(())
}

// Watches a list at the last answer of the path's beginning of this length, if that has one. Where there is
// no memory all lists are watched as before.
fn watch_newest(
    path: &Path,
    count: usize,
    watching: &mut Watching,
    number: usize,
) -> Result<(), NoMemory>
    requires { count ≤ length path.now }
    ensures kept { KeepsWatchers watching.old.items watching.new.items }
    ensures ok { OnOk result (IsWatchedAt path.now count watching.new.items number) }
{
    if count == 0 {
        return Ok(());
    }
    let (test, answer) = path.as_slice()[count - 1];
    watch(watching, test, answer, number)
}

// The length of the shortest beginning of the path that contains the answers.
fn shortest(answers: &Path, path: &Path) -> usize
    requires { Contained answers.now path.now }
    ensures { IsShortest answers.now path.now result }
{
    let mut count = path.len();
    while count > 0 {
        let (test, answer) = path.as_slice()[count - 1];
        if has_answer(answers, test, answer) {
            return count;
        }
        count -= 1;
    }
    0
}

// Puts the number in the place of each none from an index on.
fn mark(hits: &mut Vec<Option<usize>>, from: usize, number: usize)
    ensures { AreMarked hits.old.items hits.new.items from (length hits.old.items) number }
{
    for i in from..hits.len() {
        hits[i] = hits[i].or(Some(number));
    }
}

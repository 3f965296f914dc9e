//! Variables that are decided one after another, with their values.
ghost use Rattle.std.specs.Prelude.{◌≡◌, ◌++◌, ◌∷◌, [], ◌<◌, None, Some, length, slice_get, take, OnOk, OnErr, IfOk};
ghost use Rattle.formula_tree.specs.Answers.{answer_of};
ghost use Rattle.cnf_clauses.specs.Explains.{IsAnsweredAt};

use formula_tree::Path;
use plain_lists::NoMemory;
use std::alloc::Global;
use std::marker::Model;

// Decided variables in order; none is decided twice. They are kept as the answers of a path are,
// so that a variable's value is looked up at once.
#[derive(Drop)]
pub(crate) struct Decided {
    answers: Path,
}

impl Model for Decided {
    ghost use Rattle.std.specs.Prelude.{ℕ, Bool, List};

    ghost Value = { List (ℕ × Bool) };

    ghost view = { λ d. d.answers };
}

impl Decided {
    pub(crate) fn new(alloc: Global) -> Decided
        ensures { result ≡ [] }
    {
        Decided {
            answers: Path::new(alloc),
        }
    }

    // The tests that a path answers.
    pub(crate) fn of_path(alloc: Global, path: &Path) -> Result<Decided, NoMemory>
        ensures { IfOk result (λ d. d ≡ path.now) }
    {
        let mut decided = Decided::new(alloc);
        'answers: for (test, answer) in path.as_slice() {
            decided.push(*test, *answer)?;
        }
        Ok(decided)
    }

    pub(crate) fn len(&self) -> usize
        ensures { result ≡ length self.now }
    {
        self.answers.len()
    }

    pub(crate) fn get(&self, i: usize) -> Option<(u32, bool)>
        ensures { result ≡ slice_get self.now i }
    {
        self.answers.get(i)
    }

    // The literal at an index.
    pub(crate) fn at(&self, i: usize) -> (u32, bool)
        requires { i < length self.now }
        ensures { slice_get self.now i ≡ Some result }
    {
        self.answers.as_slice()[i]
    }

    // Where a variable was decided, or how many were decided where it wasn't.
    pub(crate) fn index_of(&self, variable: u32) -> usize
        ensures before { answer_of (take result self.now) variable ≡ None }
        ensures there { IsAnsweredAt variable result self.now }
    {
        first_index(self.answers.as_slice(), variable)
    }

    pub(crate) fn value(&self, variable: u32) -> Option<bool>
        ensures { result ≡ answer_of self.now variable }
    {
        self.answers.answer(variable)
    }

    pub(crate) fn push(&mut self, variable: u32, value: bool) -> Result<(), NoMemory>
        requires { answer_of self.old variable ≡ None }
        ensures ok { OnOk result (self.new ≡ self.old ++ (variable, value) ∷ []) }
        ensures err { OnErr result (self.new ≡ self.old) }
    {
        self.answers.push(variable, value)
    }

    // Takes back what was decided after the first so many.
    pub(crate) fn cut(&mut self, len: usize)
        ensures { self.new ≡ take len self.old }
    {
        shorten(&mut self.answers, len);
    }
}

fn first_index(literals: &[(u32, bool)], variable: u32) -> usize
    ensures before { answer_of (take result literals.now) variable ≡ None }
    ensures there { IsAnsweredAt variable result literals.now }
{
    'literals: for (index, literal) in literals.iter().enumerate() {
        if literal.0 == variable {
            return index;
        }
    }
    literals.len()
}

fn shorten(path: &mut Path, len: usize)
    ensures { path.new ≡ take len path.old }
{
    'shorten: while len < path.len() {
        path.pop();
    }
}

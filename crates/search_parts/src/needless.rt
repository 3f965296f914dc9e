//! Splits that a part doesn't need.
ghost use Rattle.std.specs.Prelude.{◌≡◌, ◌↔◌, IfOk, IsTrue, None};
ghost use Rattle.formula_tree.specs.Answers.{answer_of};
ghost use Rattle.search_parts.specs.Shortening.{HasClauses, IsNeedless};

use crate::part::{Needs, Part};
use crate::shortening::Shortening;
use formula_tree::Path;
use plain_lists::NoMemory;

impl<'a> Shortening<'a> {
    /// Whether the part that closes the yes side of a split on the test closes under the split's own path,
    /// under which the formula isn't no.
    ///
    /// The only error is want of memory.
    pub fn is_needless(&self, part: &Part, test: u32, path: &Path) -> Result<bool, NoMemory>
        requires clauses { HasClauses self.now }
        requires free { answer_of path.now test ≡ None }
        ensures { IfOk result (IsNeedless self.now part.now path.now test) }
    {
        match &part.needs {
            Needs::Just(answers) => Ok(leaves_open(answers, test)),
            Needs::Open => Ok(false),
            Needs::Unknown => {
                let mut own = path.copy()?;
                self.still_closes(&part.refutation, &mut own)
            }
        }
    }
}

fn leaves_open(answers: &Path, test: u32) -> bool
    ensures { IsTrue result ↔ (answer_of answers.now test ≡ None) }
{
    answers.answer(test).is_none()
}

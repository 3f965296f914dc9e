//! Answers to tests in the line of a label: a plus or a minus before the number of a test.
ghost use Rattle.std.specs.Prelude.{◌≡◌, IfOk};
ghost use Rattle.std.specs.Option.{option_copied};
ghost use Rattle.proof_text.specs.Faults.{answered_tests};
ghost use Rattle.proof_text.specs.LineForms.{answer_said, answers_of};
ghost use Rattle.proof_text.specs.Steps.{IsSmallRead, are_answers_small, is_answer_small, is_label_small, label_parts, parts_left, sign_said};

use crate::fault::{LineAnswer, ProofCode};
use crate::numbers::number_in;
use crate::parts::cut;
use plain_lists::{List, NoMemory};
use refute_check::AnswerList;
use std::alloc::Global;

// The answer that the sign stands for, or none where it is neither a plus nor a minus.
fn sign_of(sign: u8) -> Option<bool>
    ensures { result ≡ sign_said sign }
{
    if sign == b'+' {
        return Some(true);
    }
    if sign == b'-' {
        return Some(false);
    }
    None
}

// The answer that the part is, or none where its number is too large.
fn answer_in(part: &[u8]) -> Result<Option<(u32, bool)>, LineAnswer>
    ensures { IsSmallRead is_answer_small (answer_said part.now) result }
{
    let Some((sign, digits)) = part.split_first() else {
        return Err(LineAnswer::Fails(ProofCode::C1Syntax));
    };
    let Some(holds) = sign_of(*sign) else {
        return Err(LineAnswer::Fails(ProofCode::C1Syntax));
    };
    let Some(test) = number_in(digits)? else {
        return Ok(None);
    };
    Ok(Some((test, holds)))
}

/// The answers that all parts are, or none where a number is too large.
fn answers_in(alloc: Global, behind: Option<&[u8]>) -> Result<Option<AnswerList>, LineAnswer>
    ensures { IsSmallRead are_answers_small
        (answers_of (parts_left 32 (option_copied behind.entry))) result }
{
    let mut answers = AnswerList::new(alloc);
    let mut large = false;
    let mut rest = behind;
    while let Some(text) = rest {
        let (part, more) = cut(text, b' ');
        match answer_in(part)? {
            Some(answer) => answers.push(answer)?,
            None => large = true,
        }
        rest = more;
    }
    if large {
        return Ok(None);
    }
    Ok(Some(answers))
}

/// The number and the answers behind the word of a label, or none where a number is too large.
pub(crate) fn label_in(
    alloc: Global,
    behind: Option<&[u8]>,
) -> Result<Option<(u32, AnswerList)>, LineAnswer>
    ensures { IsSmallRead is_label_small
        (label_parts (parts_left 32 (option_copied behind.entry))) result }
{
    let Some(text) = behind else {
        return Err(LineAnswer::Fails(ProofCode::C1Syntax));
    };
    let (part, more) = cut(text, b' ');
    let number = number_in(part)?;
    let answers = answers_in(alloc, more)?;
    let Some(number) = number else {
        return Ok(None);
    };
    let Some(answers) = answers else {
        return Ok(None);
    };
    Ok(Some((number, answers)))
}

/// The tests that are answered.
pub(crate) fn tests_of(alloc: Global, answers: &[(u32, bool)]) -> Result<List<u32>, NoMemory>
    ensures { IfOk result (λ tests. tests ≡ answered_tests answers.now) }
{
    let tests = answers.iter().map(|answer| answer.0).collect(alloc)?;
    Ok(List::from_vec(tests))
}

//! How far a set is read.
ghost use Rattle.std.specs.Prelude.{◌≤◌};
ghost use Rattle.policy_json.specs.declared.document.TheConstants.{MOST_DOCUMENTS};
ghost use Rattle.policy_json.specs.declared.statement.TheConstants.{MOST_STATEMENTS};

/// How many documents and statements of a set are read: at most `MOST_DOCUMENTS` and `MOST_STATEMENTS`.
#[derive(Drop)]
pub(crate) struct Counts {
    pub(crate) documents: u32,
    pub(crate) statements: usize,
    ghost few_documents: { documents ≤ MOST_DOCUMENTS },
    ghost few_statements: { statements ≤ MOST_STATEMENTS },
}

//! Finds the uses of condition keys in sets of policies.
ghost use Rattle.std.specs.Prelude.{◌≡◌, ◌+◌, ◌≤◌, ◌++◌, All, IfOk, IfSome, OnOk, length, map, option_map, sum_by};
ghost use Rattle.policy_model.specs.Soundness.{DocumentIsSound, IsSound};
ghost use Rattle.policy_model.specs.StatementNames.{named_documents, named_guards, named_statements};
ghost use Rattle.request_schema.specs.Uses.{use_of, uses_found, uses_in, uses_of, uses_of_statements};

use policy_model::{
    Condition, Document, DocumentList, NoMemory, PolicySet, Statement, StatementName,
};
use std::alloc::Global;

/// A condition of a run's sets, in the statement of this name of the second set or of the first.
#[derive(Clone, Copy)]
pub(crate) struct FoundUse<'a> {
    pub(crate) second: bool,
    pub(crate) name: StatementName,
    pub(crate) condition: &'a Condition,
}

// Adds the uses of a statement.
fn add_conditions<'a>(
    second: bool,
    name: StatementName,
    conditions: &'a [Condition],
    uses: &mut Vec<FoundUse<'a>>,
) -> Result<(), NoMemory>
    ensures { OnOk result (uses_found uses.new.items
        ≡ uses_found uses.old.items ++ map (use_of second name) conditions.now) }
{
    for condition in conditions {
        uses.push(FoundUse {
            second,
            name,
            condition,
        })?;
    }
    Ok(())
}

// Adds the uses of a document of this number.
fn add_statements<'a>(
    second: bool,
    document: u32,
    statements: &'a [Statement],
    uses: &mut Vec<FoundUse<'a>>,
) -> Result<(), NoMemory>
    requires { length statements.now ≤ 4294967295 }
    ensures { OnOk result (uses_found uses.new.items ≡ uses_found uses.old.items
        ++ uses_of_statements second (named_statements document 1 statements.now)) }
{
    for (i, statement) in statements.iter().enumerate() {
        let name = StatementName {
            document,
            statement: i as u32 + 1,
        };
        add_conditions(second, name, statement.conditions.as_slice(), uses)?;
    }
    Ok(())
}

// Adds the uses of documents. The first document has this number.
fn add_documents<'a>(
    second: bool,
    from: usize,
    documents: &'a [Document],
    uses: &mut Vec<FoundUse<'a>>,
) -> Result<(), NoMemory>
    requires room { from + length documents.now ≤ 4294967296 }
    requires sound { All DocumentIsSound documents.now }
    ensures { OnOk result (uses_found uses.new.items ≡ uses_found uses.old.items
        ++ uses_of_statements second (named_documents from documents.now)) }
{
    for (i, document) in documents.iter().enumerate() {
        let number = (from + i) as u32;
        add_statements(second, number, document.statements.as_slice(), uses)?;
    }
    Ok(())
}

// Adds the uses of guards.
fn add_guards<'a>(
    second: bool,
    from: usize,
    guards: &'a [DocumentList],
    uses: &mut Vec<FoundUse<'a>>,
) -> Result<(), NoMemory>
    requires room { from + sum_by (λ g. length g) guards.now ≤ 4294967296 }
    requires sound { All (λ g. All DocumentIsSound g) guards.now }
    ensures { OnOk result (uses_found uses.new.items ≡ uses_found uses.old.items
        ++ uses_of_statements second (named_guards from guards.now)) }
{
    let mut next = from;
    for guard in guards {
        add_documents(second, next, guard.as_slice(), uses)?;
        next += guard.len();
    }
    Ok(())
}

// Adds the uses of a set.
fn add_set<'a>(
    second: bool,
    set: &'a PolicySet,
    uses: &mut Vec<FoundUse<'a>>,
) -> Result<(), NoMemory>
    requires { IsSound set.now }
    ensures { OnOk result (uses_found uses.new.items
        ≡ uses_found uses.old.items ++ uses_in second set.now) }
{
    add_documents(second, 1, set.grants.as_slice(), uses)?;
    add_guards(second, 1 + set.grants.len(), set.guards.as_slice(), uses)
}

/// The uses of a run on one set, or on two.
#[tactic(auto, unfolding(crate::specs::Uses::uses_of))]
pub(crate) fn uses_of<'a>(
    alloc: Global,
    first: &'a PolicySet,
    second: Option<&'a PolicySet>,
) -> Result<Vec<FoundUse<'a>>, NoMemory>
    requires first { IsSound first.now }
    requires second { IfSome second (λ set. IsSound set.now) }
    ensures { IfOk result (λ uses. uses_found uses.items
        ≡ uses_of first.now (option_map (λ set. set.now) second.entry)) }
{
    let mut uses = Vec::new(alloc);
    add_set(false, first, &mut uses)?;
    let Some(second) = second else {
        return Ok(uses);
    };
    add_set(true, second, &mut uses)?;
    Ok(uses)
}

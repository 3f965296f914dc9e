//! Entries of principals.
ghost use Rattle.std.specs.Prelude.{IsTrue};
ghost use Rattle.test_relations.specs.Parts.{EntryLeads};

use policy_model::{Entry, PrincipalKind, entry_names};

/// Whether each principal of the one entry is one of the other. It takes no memory.
pub(crate) fn entry_leads(one: &Entry, other: &Entry) -> bool
    ensures { IsTrue result → EntryLeads one.now other.now }
{
    match (one, other) {
        (_, Entry::All) => true,
        (Entry::Exact(kind, id), _) => entry_names(other, *kind, id),
        (Entry::Account(_), Entry::Kind(kind)) => *kind == PrincipalKind::Aws,
        (Entry::Account(first), Entry::Account(second)) => first == second,
        (Entry::Kind(first), Entry::Kind(second)) => first == second,
        _ => false,
    }
}

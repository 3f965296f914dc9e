//! How large a formula's clauses are, and the proofs of slots.
use cnf_clauses::Clauses;
use slot_theory::{KindProof, SlotProof};

/// How many literals clauses have together, and how many variables up to the greatest one.
#[derive(Clone, Copy)]
pub struct Size {
    pub literals: usize,
    pub variables: usize,
}

/// The size of the clauses.
pub fn size_of(clauses: &Clauses) -> Size {
    let mut size = Size {
        literals: 0,
        variables: 0,
    };
    for number in 0..clauses.len() {
        if let Some(literals) = clauses.get(number) {
            size = size_with(size, literals);
        }
    }
    size
}

fn size_with(size: Size, literals: &[(u32, bool)]) -> Size {
    let mut variables = size.variables;
    for literal in literals {
        variables = variables.max((literal.0 as usize).saturating_add(1));
    }
    Size {
        literals: size.literals.saturating_add(literals.len()),
        variables,
    }
}

/// How many product states a proof has.
pub fn states_of(proof: &SlotProof) -> usize {
    match proof {
        SlotProof::Word(closed) => closed.len(),
        SlotProof::Member(_, closed) => closed.len(),
        SlotProof::SomeMember(closed) => closed.len(),
        SlotProof::Kinds(aws, service, federated, canonical_user) => states_of_kind(aws)
            .saturating_add(states_of_kind(service))
            .saturating_add(states_of_kind(federated))
            .saturating_add(states_of_kind(canonical_user)),
        _ => 1,
    }
}

fn states_of_kind(proof: &KindProof) -> usize {
    match proof {
        KindProof::Never => 1,
        KindProof::Closed(closed) => closed.len(),
    }
}

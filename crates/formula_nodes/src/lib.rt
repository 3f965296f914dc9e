//! Formulas as numbered nodes, equal ones once. A node is a test or a conjunction. A claim says that a node
//! holds, or that it doesn't, so a disjunction is the claim that the conjunction of the opposites doesn't.
#![tactic(auto)]

mod claim;
mod conjunction;
mod inserting;
mod nodes;
mod numbering;
mod part;
mod writing;

pub use claim::{Claim, ClaimList};
pub use nodes::Nodes;
pub use part::Part;

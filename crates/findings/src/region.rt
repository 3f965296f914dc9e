//! What findings are of.
use policy_model::PolicySet;

/// The requests that findings are of.
#[derive(Drop)]
pub enum Region {
    /// Those that the set allows.
    AllowedBy(PolicySet),
    /// Those that the first set allows and the second doesn't.
    NewlyAllowed(PolicySet, PolicySet),
}

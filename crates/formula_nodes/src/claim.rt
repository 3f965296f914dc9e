//! Claims on nodes.
ghost use Rattle.std.specs.Prelude.{◌≡◌, not};
ghost use Rattle.formula_nodes.specs.Claims.{turned_claim};

use plain_lists::List;

/// That a node holds, or that it doesn't.
#[derive(Clone, Copy, PartialEq, Eq, PartialOrd, Ord, Hash)]
pub struct Claim {
    /// The node's number.
    pub node: u32,
    pub holds: bool,
}

/// Claims, in order.
pub type ClaimList = List<Claim>;

impl Claim {
    /// The opposite claim of the same node: it holds where this one doesn't.
    pub fn opposite(self) -> Claim
        ensures node { result.node ≡ self.node }
        ensures holds { result.holds ≡ not self.holds }
    {
        Claim {
            node: self.node,
            holds: !self.holds,
        }
    }

    // The claim itself, or its opposite where `holds` is false.
    pub(crate) fn turned(self, holds: bool) -> Claim
        ensures { result ≡ turned_claim holds self }
    {
        if holds { self } else { self.opposite() }
    }
}

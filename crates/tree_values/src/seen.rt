//! What was seen of two nodes compared.
ghost use Rattle.std.specs.Prelude.{◌≡◌, ◌↔◌, IsTrue};

use formula_tree::Look;

pub(crate) fn is_same(first: Look, second: Look) -> bool
    ensures { IsTrue result ↔ (first ≡ second) }
{
    first == second
}

pub(crate) fn is_no(seen: Look) -> bool
    ensures { IsTrue result ↔ (seen ≡ Look.No) }
{
    match seen {
        Look::Yes => false,
        Look::No => true,
        Look::Waits(_) => false,
    }
}

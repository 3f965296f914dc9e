//! The names of an object's members.
ghost use Rattle.std.specs.Prelude.{◌≡◌};
ghost use Rattle.json_shapes.specs.Shapes.{is_among, texts};

/// Whether the name is one of these.
pub fn is_among(names: &[&str], name: &str) -> bool
    ensures { result ≡ is_among (texts names.now) name.now }
{
    for known in names {
        if name == *known {
            return true;
        }
    }
    false
}

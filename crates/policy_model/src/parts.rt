//! The parts of an ARN, which colons part.
ghost use Rattle.std.specs.Prelude.{◌≡◌, option_map};
ghost use Rattle.policy_model.specs.Principals.{after_colon, after_prefix};

/// What follows the first colon, or none where there is no colon. It takes no memory.
pub fn behind_colon(chars: &[char]) -> Option<&[char]>
    ensures { option_map (λ s. s.now) result ≡ after_colon chars.now }
{
    for (i, c) in chars.iter().enumerate() {
        if *c == ':' {
            return Some(&chars[i + 1..]);
        }
    }
    None
}

/// What follows the prefix, or none where the characters don't begin with it. It takes no memory.
pub fn behind_prefix<'a>(chars: &'a [char], prefix: &[char]) -> Option<&'a [char]>
    ensures { option_map (λ s. s.now) result ≡ after_prefix prefix.now chars.now }
{
    match prefix {
        [] => Some(chars),
        [wanted, more @ ..] => match chars {
            [] => None,
            [first, rest @ ..] => {
                if *first == *wanted {
                    behind_prefix(rest, more)
                } else {
                    None
                }
            }
        },
    }
}

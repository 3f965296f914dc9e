//! The marks of all patterns in one list.

ghost use Rattle.std.specs.Prelude.{◌≡◌, [], length};
ghost use Rattle.pattern_automata.specs.Marks.{all_marks, mark_count};

use wildcard_lang::{Pattern, start_places};

/// Marks the places of all patterns after the empty text.
pub fn start_all(patterns: &[Pattern], marks: &mut [bool])
    requires { length marks.old ≡ mark_count patterns.now }
    ensures { marks.new ≡ all_marks patterns.now [] }
{
    let mut at = 0;
    for pattern in patterns {
        let end = at + (pattern.len() + 1);
        start_places(pattern, &mut marks[at..end]);
        at = end;
    }
}

//! What the definitions say of one another.
ghost use Rattle.intervals.specs.Laws.{DecimalOfIsTheForm, MomentOfIsTheForms, StandsToIsComputed, WrittenIsReadAgain};

/// What `decimal_of` computes is what the decimal form says.
pub fn decimal_of_is_the_form()
    ensures { DecimalOfIsTheForm }
{}

/// The text that a number is written as is of the decimal form, and stands for the number. So reading
/// what was written gives the number again.
pub fn written_is_read_again()
    ensures { WrittenIsReadAgain }
{}

/// What `moment_of` computes is what the forms of a moment say.
pub fn moment_of_is_the_forms()
    ensures { MomentOfIsTheForms }
{}

/// What `stands_to` computes is how a value stands to a bound.
pub fn stands_to_is_computed()
    ensures { StandsToIsComputed }
{}

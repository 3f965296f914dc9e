//! The compact texts of values.
ghost use Rattle.json_shapes.specs.Spelled.{CompactTextsAreReadAgain};

/// The compact text of a value is read as that value, alone and with a line feed behind it. Its strings and names
/// are UTF-8, its numbers are integers of 64 bits, its objects have each name once, in order, and it is nested at
/// most 127 deep. A law of the definitions, without a body.
pub fn compact_texts_are_read_again()
    ensures { CompactTextsAreReadAgain }
{}

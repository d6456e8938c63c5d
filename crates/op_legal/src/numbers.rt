//! Laws of the numbers that acts name.

ghost use Rattle.op_legal.specs.Numbers.{AnswersNameMade, EntriesNameMade};

/// The act of an answer names only what the history has.
pub fn answers_name_made()
    ensures { AnswersNameMade }
{}

/// Each entry of a legal history names only what was made before it.
pub fn entries_name_made()
    ensures { EntriesNameMade }
{}

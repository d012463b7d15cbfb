//! Laws of the table of roles that are sent by a number.

ghost use Rattle.role_names.specs.Laws.{NamesComeBack, NamesAreNew, NumbersBeginAt256, WordsAreThere};

/// A number has a name exactly if that name has the number.
pub fn names_come_back()
    ensures { NamesComeBack }
{}

/// No name of the table is that of a role that has a variant of its own.
pub fn names_are_new()
    ensures { NamesAreNew }
{}

/// The numbers that have names begin with 256.
pub fn numbers_begin_at_256()
    ensures { NumbersBeginAt256 }
{}

/// Each number that has a name has a word.
pub fn words_are_there()
    ensures { WordsAreThere }
{}

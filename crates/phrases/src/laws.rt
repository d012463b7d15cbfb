//! Laws of edits: the contract of each function is a law, and its body is empty.
ghost use Rattle.phrases.specs.Laws.{TypedIsSaid, RemovedIsSaid};

/// Of letters that come in before the caret at once these are typed, and nothing is removed, whatever letters are around them.
pub fn typed_is_said()
    ensures { TypedIsSaid }
{}

/// Of letters that go at the caret at once these are removed, and nothing is typed.
pub fn removed_is_said()
    ensures { RemovedIsSaid }
{}

//! What follows from what pages show. These functions do nothing: what each ensures is a law.
ghost use Rattle.page.specs.TypedLaws.{TypingMakesTheSamePage, TypingWritesTheSamePage};

/// A law: what is typed into a password doesn't change a page, where the same nodes are reported and the same came of each state.
fn typing_makes_the_same_page()
    ensures { TypingMakesTheSamePage }
{}

/// A law: nor does it change what a run writes, from the head of the page to its end, and what it reports.
fn typing_writes_the_same_page()
    ensures { TypingWritesTheSamePage }
{}

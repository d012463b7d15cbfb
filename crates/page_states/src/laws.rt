//! What follows from what is written of states. These functions do nothing: what each ensures is a law.
ghost use Rattle.page_states.specs.Backed.{LinksLeadToRows};
ghost use Rattle.page_states.specs.ShownLaws.{TypingLooksTheSame, TypingShowsTheSame};
ghost use Rattle.page_states.specs.ToldLaws.{TypingNamesTheSame, TypingTellsTheSame};
ghost use Rattle.page_states.specs.WrittenLaws.{TypingWritesTheSame};

/// A law: a page shows the same of each node of two worlds that differ at most in what is typed into a password.
pub(crate) fn typing_looks_the_same()
    ensures { TypingLooksTheSame }
{}

/// A law: the outlines and pictures of two such worlds have the same rows, boxes and frames.
pub(crate) fn typing_shows_the_same()
    ensures { TypingShowsTheSame }
{}

/// A law: if the same nodes are marked, and the same was kept before, the same is written of both, and the same is kept.
pub(crate) fn typing_writes_the_same()
    ensures { TypingWritesTheSame }
{}

/// A law: a node has the same name in both.
pub(crate) fn typing_names_the_same()
    ensures { TypingNamesTheSame }
{}

/// A law: the same is told of how two states of a node differ.
pub(crate) fn typing_tells_the_same()
    ensures { TypingTellsTheSame }
{}

/// A law: what a row or a box of a state leads to, an earlier state has written.
pub(crate) fn links_lead_to_rows()
    ensures { LinksLeadToRows }
{}

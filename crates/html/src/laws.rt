//! Laws of escaping: the contract of each function is a law, and its body is empty.
ghost use Rattle.html.specs.EscapedLaws.{NothingIsMarkup, TextsAreShown};

/// An escaped text has no `<`, `>` or quote, and each `&` in it begins one of the five entities.
#[tactic(auto, using(crate::proofs::Escapes::nothing_is_markup))]
pub fn nothing_is_markup()
    ensures { NothingIsMarkup }
{}

/// A page shows an escaped text as the original text.
#[tactic(auto, using(crate::proofs::Escapes::texts_are_shown))]
pub fn texts_are_shown()
    ensures { TextsAreShown }
{}

//! Laws of speech: the contract of each function is a law, and its body is empty.
ghost use Rattle.speaking.specs.Laws.{BeginsAlike, SaysAlike, SettlesAlike, TypingIsNoChange};

/// In two worlds that differ in what is typed into a password alone, and not in whether anything is, the same is said of
/// the focus of a new tree.
#[tactic(auto, using(crate::proofs::Alike::begins_alike))]
pub fn begins_alike()
    ensures { BeginsAlike }
{}

/// The same is said of the events of two steps that differ in that alone.
#[tactic(auto, using(crate::proofs::Alike::says_alike))]
pub fn says_alike()
    ensures { SaysAlike }
{}

/// The same is said at their ends.
#[tactic(auto, using(crate::proofs::TextsAlike::settles_alike))]
pub fn settles_alike()
    ensures { SettlesAlike }
{}

/// Of a step that types into a password alone nothing is said at its events.
#[tactic(auto, using(crate::proofs::Typing::typing_is_no_change))]
pub fn typing_is_no_change()
    ensures { TypingIsNoChange }
{}

//! Laws of hiding: the contract of each function is a law, and its body is empty.
ghost use Rattle.hidden_texts.specs.Laws.{TypingHidesTheSame, PasswordShowsTheSame, TypingShowsTheSame, EqualShapesDifferInPassword};

/// In two worlds that differ in what is typed into a password alone, the same texts, values and labels are hidden.
pub fn typing_hides_the_same()
    ensures { TypingHidesTheSame }
{}

/// And the same value of the password is shown.
#[tactic(auto, using(crate::proofs::ShownAlike::password_shows_the_same))]
pub fn password_shows_the_same()
    ensures { PasswordShowsTheSame }
{}

/// And the same value and label of each node.
pub fn typing_shows_the_same()
    ensures { TypingShowsTheSame }
{}

/// Two worlds of equal shape differ in what is typed into a masked password alone.
#[tactic(auto, using(crate::proofs::ShownAlike::equal_shapes_differ_in_password))]
pub fn equal_shapes_differ_in_password()
    ensures { EqualShapesDifferInPassword }
{}

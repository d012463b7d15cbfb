//! Laws of queries and their answers.
ghost use Rattle.model.specs.QueryExamples.{OfWindow, OfSecret};
ghost use Rattle.model.specs.QueryLaws.{NamedNodeIsLocated, ShownFocusIsFocus, RawIsName, PositionHasRaw};

/// The node with a name is the one with this id in its tree and this tree.
#[tactic(auto, using(crate::proofs::Asking::NamedNodes::named_node_is_located))]
pub fn named_node_is_located()
    ensures { NamedNodeIsLocated }
{}

/// `shown_focus` is the focus.
#[tactic(auto, using(crate::proofs::Asking::ShownFocus::shown_focus_is_focus))]
pub fn shown_focus_is_focus()
    ensures { ShownFocusIsFocus }
{}

/// The raw form of a position is its name.
#[tactic(auto, using(crate::proofs::Asking::Raws::raw_is_name))]
pub fn raw_is_name()
    ensures { RawIsName }
{}

/// Each position of a text has a raw form.
#[tactic(auto, using(crate::proofs::Asking::Raws::position_has_raw))]
pub fn position_has_raw()
    ensures { PositionHasRaw }
{}

/// Queries of a password of two runs.
#[tactic(auto, using(crate::proofs::Asking::Asked::of_secret))]
pub fn of_secret()
    ensures { OfSecret }
{}

/// Queries of a window with a button.
#[tactic(auto, using(crate::proofs::Asking::Asked::of_window))]
pub fn of_window()
    ensures { OfWindow }
{}

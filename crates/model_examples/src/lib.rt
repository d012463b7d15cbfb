//! More worked examples of the model's definitions. No crate depends on this one, so a new example has nothing else
//! proved again.
#![tactic(auto)]

ghost use Rattle.model_examples.specs.Queries.{TakeMemory, OfWideText, OfTwoLines};
ghost use Rattle.model_examples.specs.Places.{OfMovedRun, OfWidths, OfLineEnds, OfStarts};
ghost use Rattle.model_examples.specs.Abilities.{OfButtons, OfControls, FocusedIsFocusable};
ghost use Rattle.model_examples.specs.Definitions.{RootIsOfTheRootTree, CountsAreEnough, ListsAreAlike, PasswordsAreMeasuredAlike, AbsentNodeIsCutOff, NodeIsAboveItsTree};

/// Queries about lists and texts allocate, those about one node don't.
pub fn questions_take_memory()
    ensures { TakeMemory }
{}

/// Indexes count scalars, even if a character has two UTF-16 code units.
pub fn wide_text_is_indexed()
    ensures { OfWideText }
{}

/// In a text of two lines, the starts and the ends of words, and of pages, are different positions.
pub fn lines_are_walked()
    ensures { OfTwoLines }
{}

/// The root of a grafted tree is not the root.
pub fn root_is_of_the_root_tree()
    ensures { RootIsOfTheRootTree }
{}

/// More metrics than characters are too many.
pub fn counts_are_enough()
    ensures { CountsAreEnough }
{}

/// Lists are alike only if their last items are, too.
pub fn lists_are_alike()
    ensures { ListsAreAlike }
{}

/// The characters of a password have one width.
pub fn passwords_are_measured_alike()
    ensures { PasswordsAreMeasuredAlike }
{}

/// A point is in a translated run in the root's coordinates, whatever translates the root.
pub fn moved_run_has_its_points()
    ensures { OfMovedRun }
{}

/// A character ends where the next one begins, and the last one before its end.
pub fn widths_meet()
    ensures { OfWidths }
{}

/// A line ends only at its last index.
pub fn lines_end_once()
    ensures { OfLineEnds }
{}

/// If no run passes the test, the start of the text is found.
pub fn starts_are_found()
    ensures { OfStarts }
{}

/// A button that can be toggled, expanded or selected isn't only clicked.
pub fn buttons_are_more_than_clicked()
    ensures { OfButtons }
{}

/// A control can be toggled, expanded or selected if the node says in which state it is.
pub fn controls_go_by_what_is_set()
    ensures { OfControls }
{}

/// The focused node is focusable.
pub fn focused_is_focusable()
    ensures { FocusedIsFocusable }
{}

/// A node that isn't in the state labels nothing.
pub fn absent_node_is_cut_off()
    ensures { AbsentNodeIsCutOff }
{}

/// The number of an id is its node's, above its tree's index.
pub fn ids_have_numbers()
    ensures { NodeIsAboveItsTree }
{}

//! Laws of filters and views, and worked examples on small interfaces.
ghost use Rattle.model.specs.ViewLaws.{IsWithinIsTested, TransformIsWithinAndAbove, UncutIsOfChildren, UncutIsPreorder, FocusIsFound, FocusedNodeIsFound, CommonFilterIsSixSteps, SixStepsAreOneFilter, CutOffIsClippedOnTheWay, SaidUpwardIsOfParent, TransformIsOfParent, InheritedIsOfParent};
ghost use Rattle.schema.specs.declared.values.Live.{Live};
ghost use Rattle.std.specs.Prelude.{List, ℕ};
ghost use Rattle.model.specs.ViewExamples.{NestedAnswers, CoveredViews, CommonAnswers, PushedLists, ClippedAnswers, FilteredLists, PlacedViews, UpwardViews, CountedSets, OwnViews, BoxedViews};
ghost use Rattle.model.specs.RoleExamples.{RoleLists};

/// `effective_focus` is the effective focus of a state.
pub fn focus_is_found()
    ensures { FocusIsFound }
{}

/// `is_focused` holds of exactly the focused node of a state.
#[tactic(auto, using(crate::proofs::Focus::FocusIsFound::focused_node_is_found))]
pub fn focused_node_is_found()
    ensures { FocusedNodeIsFound }
{}

/// The common filter satisfies its six steps.
#[tactic(auto, using(crate::proofs::Views::ViewFacts::steps))]
pub fn common_filter_is_six_steps()
    ensures { CommonFilterIsSixSteps }
{}

/// No other filter satisfies the six steps.
pub fn six_steps_are_one_filter()
    ensures { SixStepsAreOneFilter }
{}

/// A node whose answer isn't decided by itself is cut off exactly if a node on the way up is clipped.
#[tactic(auto, using(crate::proofs::Views::ViewFacts::clipped_on_the_way))]
pub fn cut_off_is_clipped_on_the_way()
    ensures { CutOffIsClippedOnTheWay }
{}

/// A flag is on a node or above it if it is on the node, or on the parent or above that.
#[tactic(auto, using(crate::proofs::Views::ViewFacts::said_upward_is))]
pub fn said_upward_is_of_parent()
    ensures { SaidUpwardIsOfParent }
{}

/// A node is shifted by its own translation and by all that shifts its parent.
#[tactic(auto, using(crate::proofs::Views::ViewFacts::transform_is))]
pub fn transform_is_of_parent()
    ensures { TransformIsOfParent }
{}

/// A node has its own property, or else inherits its parent's; for a setting and for a text.
pub fn inherited_is_of_parent()
    ensures { InheritedIsOfParent Live × InheritedIsOfParent (List ℕ) }
{}

/// What the common filter answers, in small interfaces.
#[tactic(auto, using(crate::proofs::Examples::ViewExamples::common_answers))]
pub fn common_answers()
    ensures { CommonAnswers }
{}

/// Filtered children and the focus across a graft.
#[tactic(auto, using(crate::proofs::Examples::ViewExamples::pushed_lists))]
pub fn pushed_lists()
    ensures { PushedLists }
{}

/// What is clipped in a view that scrolls.
#[tactic(auto, using(crate::proofs::Examples::ViewExamples::clipped_answers))]
pub fn clipped_answers()
    ensures { ClippedAnswers }
{}

/// Filtered children and filtered siblings, written out.
#[tactic(auto, using(crate::proofs::Examples::ViewExamples::filtered_lists))]
pub fn filtered_lists()
    ensures { FilteredLists }
{}

/// A box, and what is hit.
#[tactic(auto, using(crate::proofs::Examples::ViewExamples::placed_views))]
pub fn placed_views()
    ensures { PlacedViews }
{}

/// What is inherited, and an action of the filtered parent.
#[tactic(auto, using(crate::proofs::Examples::ViewExamples::upward_views))]
pub fn upward_views()
    ensures { UpwardViews }
{}

/// Sizes of sets, and positions in them.
#[tactic(auto, using(crate::proofs::Examples::ViewExamples::counted_sets))]
pub fn counted_sets()
    ensures { CountedSets }
{}

/// What a node's own data answers.
#[tactic(auto, using(crate::proofs::Examples::ViewExamples::own_views))]
pub fn own_views()
    ensures { OwnViews }
{}

/// Items, containers and controls.
#[tactic(auto, using(crate::proofs::Examples::ViewExamples::boxed_views))]
pub fn boxed_views()
    ensures { BoxedViews }
{}

/// The classes of roles, as lists.
#[tactic(auto, using(crate::proofs::Examples::RoleExamples::role_lists))]
pub fn role_lists()
    ensures { RoleLists }
{}

/// What is in a clipped node.
#[tactic(auto, using(crate::proofs::Examples::ViewExamples::nested_answers))]
pub fn nested_answers()
    ensures { NestedAnswers }
{}

/// Reversed rectangles, and what is not hit.
#[tactic(auto, using(crate::proofs::Examples::ViewExamples::covered_views))]
pub fn covered_views()
    ensures { CoveredViews }
{}

/// `is_within` is equivalent to `IsWithin`.
#[tactic(auto, using(crate::proofs::Forest::WaysUp::within_is_tested))]
pub fn within_is_tested()
    ensures { IsWithinIsTested }
{}

/// A node's translation is the one within an ancestor plus that of the ancestor.
pub fn transform_is_within_and_above()
    ensures { TransformIsWithinAndAbove }
{}

/// A pre-order without what is cut off is the node, and then that of each child in turn.
#[tactic(auto, using(crate::proofs::Forest::WaysUp::uncut_is_of_children))]
pub fn uncut_is_of_children()
    ensures { UncutIsOfChildren }
{}

/// If nothing is cut off, that pre-order is the plain one.
#[tactic(auto, using(crate::proofs::Forest::WaysUp::uncut_is_preorder))]
pub fn uncut_is_preorder()
    ensures { UncutIsPreorder }
{}

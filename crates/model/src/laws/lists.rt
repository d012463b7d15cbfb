//! Laws of places and of the lists of a tree.
ghost use Rattle.model.specs.ListExamples.{pictured, PicturedLists};
ghost use Rattle.model.specs.State.{IsState};
ghost use Rattle.model.specs.ListLaws.{StatesAreFormed, PlaceIsWhereItStands, BelowAreTheChildren, AboveIsTheParent, PreorderIsOfChildren, PreorderIsAllWithin, PreorderHasNoneTwice, RootPreorderIsAllNodes, RootPreorderCountsNodes, PreorderIsPathOrder, PathTellsNodes, DepthIsPathLength, PathOfChild, PathWithin, SiblingsAreAround, RootsHaveNoSiblings, DeepestIsOfChild, FrontierIsOfChildren, FrontierIsAllShown, FrontierIsPathOrder};

/// In a state no node has two places, and the way up from each node ends.
#[tactic(auto, using(crate::proofs::Forest::Rooted::state_formed))]
pub fn states_are_formed()
    ensures { StatesAreFormed }
{}

/// `place_of` gives the place of a node.
#[tactic(auto, using(crate::proofs::Forest::PlaceOf::place_is))]
pub fn place_is_where_it_stands()
    ensures { PlaceIsWhereItStands }
{}

/// What is below a node are its children, each with what is below it.
#[tactic(auto, using(crate::proofs::Forest::Grown::below_is))]
pub fn below_are_the_children()
    ensures { BelowAreTheChildren }
{}

/// Above a child are its place and what is above its parent.
pub fn above_is_the_parent()
    ensures { AboveIsTheParent }
{}

/// A pre-order is the node, and then the pre-order of each child in turn.
#[tactic(auto, using(crate::proofs::Lists::Frontiers::preorder_is))]
pub fn preorder_is_of_children()
    ensures { PreorderIsOfChildren }
{}

/// A pre-order has the nodes within its first one, and no others.
pub fn preorder_is_all_within()
    ensures { PreorderIsAllWithin }
{}

/// No node is in a pre-order twice.
#[tactic(auto, using(crate::proofs::Lists::Preorder::preorder_distinct))]
pub fn preorder_has_none_twice()
    ensures { PreorderHasNoneTwice }
{}

/// The pre-order of a state's root has the nodes of the state, and nothing else.
#[tactic(auto, using(crate::proofs::Lists::StateLists::in_root_preorder))]
pub fn root_preorder_is_all_nodes()
    ensures { RootPreorderIsAllNodes }
{}

/// The pre-order of a state's root is as long as the state has nodes.
#[tactic(auto, using(crate::proofs::Lists::PreorderCount::as_many))]
pub fn root_preorder_counts_nodes()
    ensures { RootPreorderCountsNodes }
{}

/// Pre-order is the lexicographic order of index paths.
#[tactic(auto, using(crate::proofs::Lists::Preorder::preorder_rises))]
pub fn preorder_is_path_order()
    ensures { PreorderIsPathOrder }
{}

/// Two nodes of a state with the same index path are the same.
#[tactic(auto, using(crate::proofs::Lists::StateLists::path_tells))]
pub fn path_tells_nodes()
    ensures { PathTellsNodes }
{}

/// A node is as deep as its index path is long.
pub fn depth_is_path_length()
    ensures { DepthIsPathLength }
{}

/// A child's index path is its parent's and the child's index.
pub fn path_of_child()
    ensures { PathOfChild }
{}

/// The path of a node is that of a node that it lies within, and the relative path.
#[tactic(auto, using(crate::proofs::Lists::ListFacts::path_splits))]
pub fn path_within()
    ensures { PathWithin }
{}

/// The parent's children are the preceding siblings from the farthest on, the node, and the following ones.
#[tactic(auto, using(crate::proofs::Lists::ListFacts::around))]
pub fn siblings_are_around()
    ensures { SiblingsAreAround }
{}

/// The root of a tree has no siblings.
pub fn roots_have_no_siblings()
    ensures { RootsHaveNoSiblings }
{}

/// The deepest first child is that of the first child, or the first child itself if that has no children; likewise for
/// the last.
pub fn deepest_is_of_child()
    ensures { DeepestIsOfChild }
{}

/// A frontier has each included child, and the frontier of each child that is excluded alone.
#[tactic(auto, using(crate::proofs::Lists::Frontiers::frontier_is))]
pub fn frontier_is_of_children()
    ensures { FrontierIsOfChildren }
{}

/// The filtered children are the included nodes with only nodes that are excluded alone between them and the node.
pub fn frontier_is_all_shown()
    ensures { FrontierIsAllShown }
{}

/// The filtered children are in the order of their index paths.
#[tactic(auto, using(crate::proofs::Lists::Shown::shown_rise))]
pub fn frontier_is_path_order()
    ensures { FrontierIsPathOrder }
{}

/// The lists of a small interface of two trees, written out.
#[tactic(auto, using(crate::proofs::Examples::ListExamples::pictured_lists))]
pub fn pictured_lists()
    ensures { PicturedLists }
{}

/// The small interface is a state.
#[tactic(auto, using(crate::proofs::Examples::PicturedState::pictured_state))]
pub fn pictured_is_state()
    ensures { IsState pictured }
{}

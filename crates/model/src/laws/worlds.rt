//! Laws of worlds, updates, states, focus and ids.
ghost use Rattle.std.specs.Prelude.{◌≡◌};
ghost use Rattle.model.specs.FullIds.{full_number};
ghost use Rattle.model.specs.IdLaws.{OrderIsByTreeThenNode, OrderIsTotal, EqualIdsAreOne};
ghost use Rattle.model.specs.WorldLaws.{RebuildIsOne, RebuildIsThere, AcceptedOrFault, RulesOrFault, StateIsItsOwnRebuild, UpdateLeavesState, FirstLeavesState, HostFocusLeavesState, LaterWorldsAreStates, NamesKeepTheirIndex, PlaceIsOne, RootStandsAtGraft, RootHasNoPlace, EffectiveFocusIsOne, EffectiveFocusIsThere, FocusIdIsOne, FocusIdIsThere, FocusIsOne, FocusIsThere, FocusedNodeIsTheFocus, ActiveDialogIsOne, ActiveDialogIsThere, NodesAreLocated, ToolkitIsTheRootTrees};

use crate::FullNodeId;

/// A merged world has at most one rebuild.
pub fn rebuild_is_one()
    ensures { RebuildIsOne }
{}

/// Each world has a rebuild.
pub fn rebuild_is_there()
    ensures { RebuildIsThere }
{}

/// An update is accepted, or it breaks some rule.
pub fn accepted_or_fault()
    ensures { AcceptedOrFault }
{}

/// `KeepsRules` holds exactly if no rule is broken.
#[tactic(auto, using(crate::proofs::Update::RulesOrFault::rules_or_fault))]
pub fn rules_or_fault()
    ensures { RulesOrFault }
{}

/// A state breaks no rule and is its own rebuild.
pub fn state_is_its_own_rebuild()
    ensures { StateIsItsOwnRebuild }
{}

/// An accepted update of a state leaves a state.
pub fn update_leaves_state()
    ensures { UpdateLeavesState }
{}

/// An accepted first update leaves a state.
pub fn first_update_leaves_state()
    ensures { FirstLeavesState }
{}

/// A change of the host's focus leaves a state.
pub fn host_focus_leaves_state()
    ensures { HostFocusLeavesState }
{}

/// After the first accepted update every world is a state.
#[tactic(auto, using(crate::proofs::State::LaterWorlds::empty_or_state))]
pub fn later_worlds_are_states()
    ensures { LaterWorldsAreStates }
{}

/// A tree that was dropped and is sent again has its old index.
#[tactic(auto, using(crate::proofs::State::LaterWorlds::name_keeps_index))]
pub fn names_keep_their_index()
    ensures { NamesKeepTheirIndex }
{}

/// Each node of a state but the root tree's root has exactly one place, and its parent is a node.
#[tactic(auto, using(crate::proofs::State::StatePlaces::one_place))]
pub fn place_is_one()
    ensures { PlaceIsOne }
{}

/// The root of a grafted tree has the place (graft of its tree, 0).
#[tactic(auto, using(crate::proofs::State::StatePlaces::graft_place))]
pub fn root_stands_at_graft()
    ensures { RootStandsAtGraft }
{}

/// The root tree's root has no place.
#[tactic(auto, using(crate::proofs::State::StatePlaces::root_has_no_place))]
pub fn root_has_no_place()
    ensures { RootHasNoPlace }
{}

/// A world has at most one effective focus.
pub fn effective_focus_is_one()
    ensures { EffectiveFocusIsOne }
{}

/// A state has an effective focus, and it is a node.
pub fn effective_focus_is_there()
    ensures { EffectiveFocusIsThere }
{}

/// A world has at most one answer of `focus`.
#[tactic(auto, using(crate::proofs::Focus::FocusIsOne::focus_unique))]
pub fn focus_is_one()
    ensures { FocusIsOne }
{}

/// A state has an answer of `focus`.
#[tactic(auto, using(crate::proofs::Focus::FocusIsThere::focus_exists))]
pub fn focus_is_there()
    ensures { FocusIsThere }
{}

/// A world has at most one answer of `focus_id`.
#[tactic(auto, using(crate::proofs::Focus::FocusAnswers::focus_id_unique))]
pub fn focus_id_is_one()
    ensures { FocusIdIsOne }
{}

/// A state has an answer of `focus_id`.
#[tactic(auto, using(crate::proofs::Focus::FocusAnswers::focus_id_exists))]
pub fn focus_id_is_there()
    ensures { FocusIdIsThere }
{}

/// A node of which `is_focused` holds is the answer of `focus`.
#[tactic(auto, using(crate::proofs::Focus::FocusAnswers::focused_node_is_focus))]
pub fn focused_node_is_the_focus()
    ensures { FocusedNodeIsTheFocus }
{}

/// A state has at most one answer of `active_dialog`.
#[tactic(auto, using(crate::proofs::Focus::DialogIsOne::active_dialog_unique))]
pub fn active_dialog_is_one()
    ensures { ActiveDialogIsOne }
{}

/// A state has an answer of `active_dialog`.
#[tactic(auto, using(crate::proofs::Focus::DialogIsThere::active_dialog_exists))]
pub fn active_dialog_is_there()
    ensures { ActiveDialogIsThere }
{}

/// A node of a state is located by its id in its tree and the tree's name, and nothing else is located.
#[tactic(auto, using(crate::proofs::State::Locations::located_or_not))]
pub fn nodes_are_located()
    ensures { NodesAreLocated }
{}

/// Tree info for the root tree replaces both toolkit texts; tree info for another tree replaces neither.
#[tactic(auto, using(crate::proofs::Examples::Toolkits::toolkit_is_the_root_trees))]
pub fn toolkit_is_the_root_trees()
    ensures { ToolkitIsTheRootTrees }
{}

/// Ids are ordered by tree index, and then by node id.
#[tactic(auto, using(crate::proofs::Worlds::Ids::by_tree_then_node))]
pub fn order_is_by_tree_then_node()
    ensures { OrderIsByTreeThenNode }
{}

/// The order of ids is total.
#[tactic(auto, using(crate::specs::FullIds::full_total))]
pub fn order_is_total()
    ensures { OrderIsTotal }
{}

/// `cmp` returns `Equal`, and `==` holds, only for equal ids.
#[tactic(auto, using(crate::proofs::Worlds::Ids::equal_ids_are_one))]
pub fn equal_ids_are_one()
    ensures { EqualIdsAreOne }
{}

/// `u128::from` is equal only for equal ids.
pub fn number_is_of_one_id(a: FullNodeId, b: FullNodeId)
    ensures { full_number a ≡ full_number b → a ≡ b }
{}

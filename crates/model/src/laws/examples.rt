//! Worked examples of the definitions on small worlds.
ghost use Rattle.std.specs.Prelude.{false, codes, ◌≡◌, Some, None};
ghost use Rattle.schema.specs.declared.Role.TheVariants.{AlertDialog, Dialog, Document};
ghost use Rattle.model.specs.World.{World, index_of, StandsAt, toolkit_name, toolkit_version};
ghost use Rattle.model.specs.Focus.{IsActiveDialog, IsFocusId, IsFocus, IsFocusedNode};
ghost use Rattle.model.specs.Update.{MissingData, NotReached, NamedTwice, ListedTwice, NoGraft, NoFirstTreeInfo, FocusMissing, FocusOnEmptyGraft, Stands, IsAccepted};
ghost use Rattle.model.specs.State.{empty_world};
ghost use Rattle.model.specs.Examples.{dialogs, first_update, tree_without_info, focus_on_cut_graft, at, node, name, before_move, after_move, half_a_move, whole_move, nested, graft_moves_out, moved_out, plain, an_island, button_twice, child_without_data, button_goes, window_alone, empty_graft, focus_on_graft, ungrafted_tree, pushed_tree, pushed, document_again, labelled, focused_list};

/// A child that moves is listed twice if its old parent isn't in the update.
#[tactic(auto, using(crate::proofs::Examples::Moves::moved_child_without_its_old_parent_is_listed_twice))]
pub fn moved_child_without_its_old_parent_is_listed_twice()
    ensures { Stands before_move half_a_move (ListedTwice (node 3)) }
{}

/// A child moves if both parents are in the update.
#[tactic(auto, using(crate::proofs::Examples::Moves::moved_child_with_both_parents_is_accepted))]
pub fn moved_child_with_both_parents_is_accepted()
    ensures { IsAccepted before_move whole_move after_move }
{}

/// A graft that moves out of a removed tree keeps its own tree.
#[tactic(auto, using(crate::proofs::Examples::MovesOut::graft_that_moves_out_keeps_its_tree))]
pub fn graft_that_moves_out_keeps_its_tree()
    ensures { IsAccepted nested graft_moves_out moved_out }
{}

/// The name of a tree that was dropped keeps its index.
#[tactic(auto, using(crate::proofs::Examples::MovesOut::dropped_name_keeps_its_index))]
pub fn dropped_name_keeps_its_index()
    ensures { index_of moved_out (name 1) ≡ Some 1 }
{}

/// A child that is no longer listed is removed.
#[tactic(auto, using(crate::proofs::Examples::Removals::child_that_is_listed_no_more_goes))]
pub fn child_that_is_listed_no_more_goes()
    ensures { IsAccepted plain button_goes window_alone }
{}

/// Two new nodes that list each other aren't reached.
#[tactic(auto, using(crate::proofs::Examples::Refusals::nodes_that_list_each_other_are_not_reached))]
pub fn nodes_that_list_each_other_are_not_reached()
    ensures { Stands plain an_island (NotReached (node 5)) × Stands plain an_island (NotReached (node 6)) }
{}

/// An update with two entries for a node is refused.
#[tactic(auto, using(crate::proofs::Examples::Refusals::node_named_twice_is_refused))]
pub fn node_named_twice_is_refused()
    ensures { Stands plain button_twice (NamedTwice (node 1)) }
{}

/// A listed child without data is refused.
#[tactic(auto, using(crate::proofs::Examples::Refusals::listed_child_without_data_is_refused))]
pub fn listed_child_without_data_is_refused()
    ensures { Stands plain child_without_data (MissingData (node 9)) }
{}

/// A tree is sent for its graft.
#[tactic(auto, using(crate::proofs::Examples::Pushes::grafted_tree_is_accepted))]
pub fn grafted_tree_is_accepted()
    ensures { IsAccepted empty_graft pushed_tree pushed }
{}

/// A tree that nothing grafts is refused.
#[tactic(auto, using(crate::proofs::Examples::Pushes::tree_without_a_graft_is_refused))]
pub fn tree_without_a_graft_is_refused()
    ensures { Stands empty_graft ungrafted_tree (NoGraft (name 2)) }
{}

/// The focus on a graft whose tree isn't present is refused.
#[tactic(auto, using(crate::proofs::Examples::EmptyGrafts::focus_on_an_empty_graft_is_refused))]
pub fn focus_on_an_empty_graft_is_refused()
    ensures { Stands empty_graft focus_on_graft (FocusOnEmptyGraft (name 1)) }
{}

/// The root of a grafted tree, sent again without tree info, keeps its place.
#[tactic(auto, using(crate::proofs::Examples::RootsAgain::root_sent_again_keeps_its_place))]
pub fn root_sent_again_keeps_its_place()
    ensures { IsAccepted pushed document_again labelled × StandsAt labelled (at 0 1, 0) (at 1 0) }
{}

/// An active descendant is the answer of `focus`, and `is_focused` holds of it alone.
#[tactic(auto, using(crate::proofs::Examples::ListBoxes::active_descendant_has_the_focus))]
pub fn active_descendant_has_the_focus()
    ensures { IsFocusId (focused_list 2) (Some (at 0 1)) × IsFocus (focused_list 2) (Some (at 0 2))
        × IsFocusedNode (focused_list 2) (at 0 2) × ¬ (IsFocusedNode (focused_list 2) (at 0 1)) }
{}

/// A node that names itself as its active descendant is the answer of `focus`, and `is_focused` doesn't hold of it.
#[tactic(auto, using(crate::proofs::Examples::ListBoxes::own_active_descendant_is_not_focused))]
pub fn own_active_descendant_is_not_focused()
    ensures { IsFocus (focused_list 1) (Some (at 0 1)) × ¬ (IsFocusedNode (focused_list 1) (at 0 1)) }
{}

/// An active descendant that isn't in the state is skipped: the node has the focus, and `is_focused` holds of it.
#[tactic(auto, using(crate::proofs::Examples::ListBoxes::gone_active_descendant_is_passed_over))]
pub fn gone_active_descendant_is_passed_over()
    ensures { IsFocus (focused_list 9) (Some (at 0 1)) × IsFocusedNode (focused_list 9) (at 0 1) }
{}

/// An alert dialog around a graft is the active dialog, if none is nearer to the focus.
#[tactic(auto, using(crate::proofs::Examples::Dialogs::alert_dialog_is_active_across_a_graft))]
pub fn alert_dialog_is_active_across_a_graft()
    ensures { IsActiveDialog (dialogs AlertDialog Document) (Some (at 0 1)) }
{}

/// Of two dialogs, the one nearer to the focus is active.
#[tactic(auto, using(crate::proofs::Examples::Dialogs::nearest_dialog_is_active))]
pub fn nearest_dialog_is_active()
    ensures { IsActiveDialog (dialogs AlertDialog Dialog) (Some (at 1 0)) }
{}

/// Without a name, the toolkit's name is `AccessKit` and it has no version.
#[tactic(auto, using(crate::proofs::Examples::Toolkits::toolkit_without_a_name))]
pub fn toolkit_without_a_name()
    ensures { (w : World) → w.toolkit.0 ≡ None → (toolkit_name w ≡ codes "AccessKit") × (toolkit_version w ≡ None) }
{}

/// A first update makes a tree.
#[tactic(auto, using(crate::proofs::Examples::FirstUpdates::first_update_is_accepted))]
pub fn first_update_is_accepted()
    ensures { IsAccepted (empty_world false) first_update plain }
{}

/// The focus on a graft that the update cuts off is `FocusMissing`.
#[tactic(auto, using(crate::proofs::Examples::CutGrafts::focus_on_a_cut_graft_is_missing))]
pub fn focus_on_a_cut_graft_is_missing()
    ensures { Stands nested focus_on_cut_graft (FocusMissing (node 1)) }
{}

/// A new tree needs tree info.
#[tactic(auto, using(crate::proofs::Examples::Pushes::first_tree_info_is_needed))]
pub fn first_tree_info_is_needed()
    ensures { Stands empty_graft tree_without_info (NoFirstTreeInfo (name 1)) }
{}

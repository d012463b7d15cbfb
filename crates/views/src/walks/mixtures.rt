//! Laws of whole walks: however calls of `next` and `next_back` are mixed, the items from the front, the items still
//! left, and the reversed items from the back together are the list.
ghost use Rattle.model.specs.Mixtures.{MixturesTake, MixturesTakeBy};
ghost use Rattle.views.specs.PlainWalks.{node_of, child_ids_left, following_ids_left, preceding_ids_left, children_left, following_left, preceding_left};
ghost use Rattle.views.specs.Controlled.{controls_left};
ghost use Rattle.views.specs.LabelWalks.{labels_left};
ghost use Rattle.views.specs.AllNodes.{descendants_left};
ghost use Rattle.views.specs.FilteredWalks.{MixturesTakeShown, children_walk, following_walk, preceding_walk, descendants_walk, items_walk};

use crate::walks::controls::Controls;
use crate::walks::descendants::{Descendants, FilteredDescendants};
use crate::walks::filter::Filter;
use crate::walks::filtered::{
    FilteredChildren, FollowingFilteredSiblings, PrecedingFilteredSiblings,
};
use crate::walks::items::Items;
use crate::walks::labelled_by::LabelledBy;
use crate::walks::plain::{
    ChildIds, Children, FollowingSiblingNodes, FollowingSiblings, PrecedingSiblingNodes,
    PrecedingSiblings,
};

/// The law for the walks over ids.
#[tactic(auto, using(model::proofs::Mixtures::items_are_taken))]
fn walks_over_ids<'a>()
    ensures child_ids { MixturesTake ⟦<ChildIds<'a> as Iterator>⟧.next_gives
        ⟦<ChildIds<'a> as DoubleEndedIterator>⟧.next_back_gives child_ids_left }
    ensures following_siblings { MixturesTake ⟦<FollowingSiblings<'a> as Iterator>⟧.next_gives
        ⟦<FollowingSiblings<'a> as DoubleEndedIterator>⟧.next_back_gives following_ids_left }
    ensures preceding_siblings { MixturesTake ⟦<PrecedingSiblings<'a> as Iterator>⟧.next_gives
        ⟦<PrecedingSiblings<'a> as DoubleEndedIterator>⟧.next_back_gives preceding_ids_left }
{}

/// The law for the walks over nodes, each read as its world and id.
#[tactic(auto, using(model::proofs::Mixtures::views_are_taken))]
fn walks_over_nodes<'a>()
    ensures children { MixturesTakeBy ⟦<Children<'a> as Iterator>⟧.next_gives
        ⟦<Children<'a> as DoubleEndedIterator>⟧.next_back_gives node_of children_left }
    ensures following_sibling_nodes { MixturesTakeBy ⟦<FollowingSiblingNodes<'a> as Iterator>⟧.next_gives
        ⟦<FollowingSiblingNodes<'a> as DoubleEndedIterator>⟧.next_back_gives node_of following_left }
    ensures preceding_sibling_nodes { MixturesTakeBy ⟦<PrecedingSiblingNodes<'a> as Iterator>⟧.next_gives
        ⟦<PrecedingSiblingNodes<'a> as DoubleEndedIterator>⟧.next_back_gives node_of preceding_left }
    ensures descendants { MixturesTakeBy ⟦<Descendants<'a> as Iterator>⟧.next_gives
        ⟦<Descendants<'a> as DoubleEndedIterator>⟧.next_back_gives node_of descendants_left }
    ensures controls { MixturesTakeBy ⟦<Controls<'a> as Iterator>⟧.next_gives
        ⟦<Controls<'a> as DoubleEndedIterator>⟧.next_back_gives node_of controls_left }
    ensures labelled_by { MixturesTakeBy ⟦<LabelledBy<'a> as Iterator>⟧.next_gives
        ⟦<LabelledBy<'a> as DoubleEndedIterator>⟧.next_back_gives node_of labels_left }
{}

/// The law for the filtered walks, for each function that the filter follows.
fn walks_over_shown<'a, F: Filter>()
    ensures filtered_children { MixturesTakeShown ⟦<FilteredChildren<'a, F> as Iterator>⟧.next_gives
        ⟦<FilteredChildren<'a, F> as DoubleEndedIterator>⟧.next_back_gives F.answers children_walk }
    ensures following_filtered_siblings { MixturesTakeShown ⟦<FollowingFilteredSiblings<'a, F> as Iterator>⟧.next_gives
        ⟦<FollowingFilteredSiblings<'a, F> as DoubleEndedIterator>⟧.next_back_gives F.answers following_walk }
    ensures preceding_filtered_siblings { MixturesTakeShown ⟦<PrecedingFilteredSiblings<'a, F> as Iterator>⟧.next_gives
        ⟦<PrecedingFilteredSiblings<'a, F> as DoubleEndedIterator>⟧.next_back_gives F.answers preceding_walk }
    ensures filtered_descendants { MixturesTakeShown ⟦<FilteredDescendants<'a, F> as Iterator>⟧.next_gives
        ⟦<FilteredDescendants<'a, F> as DoubleEndedIterator>⟧.next_back_gives F.answers descendants_walk }
    ensures items { MixturesTakeShown ⟦<Items<'a, F> as Iterator>⟧.next_gives
        ⟦<Items<'a, F> as DoubleEndedIterator>⟧.next_back_gives F.answers items_walk }
{}

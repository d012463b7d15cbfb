//! Speech for a landmark and a list that the focus enters.
ghost use Rattle.std.specs.Prelude.{◌≡◌, IfSome, OnOk, option_map, slice_get};
ghost use Rattle.model.specs.Frontier.{filtered_children};
ghost use Rattle.views.specs.Nodes.{world_at, id_at, data_at, seen_node, seen_through};
ghost use Rattle.speaking.specs.Around.{around, around_answer};
ghost use Rattle.speaking.specs.Landmarks.{is_landmark_word, is_region_word, is_named, is_landmark, is_list_word, is_list, items_of, landmark_named, landmark_said, list_named, list_said};
ghost use Rattle.speaking.specs.NodeTexts.{listed_answer};

use crate::groups::was_in;
use crate::reading::{listed, set_size};
use accesskit_consumer::NodeRef;
use accesskit_consumer::filters::FilterResult;
use hidden_texts::shown_label;
use phrases::{Landmark, Listing, Saying, Voice, news, role_word};
use std::alloc::{AllocError, Global};

/// Whether this is said of landmarks.
fn is_landmark_word(word: &str) -> bool
    ensures { result ≡ is_landmark_word word.now }
{
    word == "banner"
        || word == "complementary"
        || word == "content information"
        || word == "main"
        || word == "navigation"
        || word == "search"
}

/// Whether this is said of what is a landmark only with a name.
fn is_region_word(word: &str) -> bool
    ensures { result ≡ is_region_word word.now }
{
    word == "form" || word == "region"
}

/// Whether the node has a label, or nodes that label it.
fn is_named(node: &NodeRef) -> bool
    ensures { result ≡ is_named (data_at node.now) }
{
    node.data().label().is_some() || !node.data().labelled_by().is_empty()
}

/// Whether the node is a landmark.
fn is_landmark(node: &NodeRef) -> bool
    ensures { result ≡ is_landmark (data_at node.now) }
{
    let word = role_word(node.role());
    is_landmark_word(word) || is_region_word(word) && is_named(node)
}

/// The filter that includes landmarks.
fn landmarks(node: &NodeRef<'_>) -> FilterResult
    ensures { result ≡ around_answer is_landmark (world_at node.now) (id_at node.now) }
{
    if is_landmark(node) {
        FilterResult::Include
    } else {
        FilterResult::ExcludeNode
    }
}

/// The nearest landmark above a node.
fn landmark_around<'a>(node: NodeRef<'a>) -> Option<NodeRef<'a>>
    ensures world { IfSome result (λ landmark. world_at landmark ≡ world_at node.entry) }
    ensures landmark { option_map id_at result ≡ around is_landmark (world_at node.entry) (id_at node.entry) }
{
    node.filtered_parent(&landmarks)
}

/// Says a landmark, with its name if it has one.
fn say_landmark_named(alloc: Global, voice: &mut Voice, landmark: NodeRef) -> Result<(), AllocError>
    ensures { OnOk result (voice.new ≡ landmark_named (world_at landmark.entry) (id_at landmark.entry) voice.old) }
{
    let label = shown_label(alloc, &landmark)?;
    let role = role_word(landmark.role());
    let label = news(None, label.as_deref());
    voice.say_later(Saying::InLandmark(Landmark { role, label }))
}

/// Says the nearest landmark above the new focus, unless the old focus was in it.
///
/// # Errors
///
/// Returns `AllocError` if memory runs out.
pub(crate) fn say_landmark(
    alloc: Global,
    voice: &mut Voice,
    old: Option<&NodeRef>,
    new: NodeRef,
) -> Result<(), AllocError>
    ensures { OnOk result (voice.new ≡ landmark_said (seen_through old.entry) (seen_node new.entry) voice.old) }
{
    let Some(landmark) = landmark_around(new) else {
        return Ok(());
    };
    if was_in(old, landmark) {
        return Ok(());
    }
    say_landmark_named(alloc, voice, landmark)
}

/// Whether this is said of lists.
fn is_list_word(word: &str) -> bool
    ensures { result ≡ is_list_word word.now }
{
    word == "list" || word == "list box"
}

/// Whether the node is a list.
fn is_list(node: &NodeRef) -> bool
    ensures { result ≡ is_list (data_at node.now) }
{
    is_list_word(role_word(node.role()))
}

/// The filter that includes lists.
fn lists(node: &NodeRef<'_>) -> FilterResult
    ensures { result ≡ around_answer is_list (world_at node.now) (id_at node.now) }
{
    if is_list(node) {
        FilterResult::Include
    } else {
        FilterResult::ExcludeNode
    }
}

/// The nearest list above a node.
fn list_around<'a>(node: NodeRef<'a>) -> Option<NodeRef<'a>>
    ensures world { IfSome result (λ list. world_at list ≡ world_at node.entry) }
    ensures list { option_map id_at result ≡ around is_list (world_at node.entry) (id_at node.entry) }
{
    node.filtered_parent(&lists)
}

/// What is listed first in a list.
fn first_listed<'a>(list: NodeRef<'a>) -> Option<NodeRef<'a>>
    ensures world { IfSome result (λ first. world_at first ≡ world_at list.entry) }
    ensures first { let w = world_at list.entry in
        option_map id_at result ≡ slice_get (filtered_children (listed_answer w) w (id_at list.entry)) 0 }
{
    let shown = move |node: &NodeRef<'_>| listed(node);
    let mut found = list.filtered_children(shown);
    found.next()
}

/// How many items a list has, if what is listed first in it is an item.
fn items_of(list: NodeRef) -> Option<usize>
    ensures { result ≡ items_of (world_at list.entry) (id_at list.entry) }
{
    let first = first_listed(list)?;
    set_size(first)
}

/// Says a list and the number of its items, with its name if it has one.
fn say_list_named(alloc: Global, voice: &mut Voice, list: NodeRef) -> Result<(), AllocError>
    ensures { OnOk result (voice.new ≡ list_named (world_at list.entry) (id_at list.entry) voice.old) }
{
    let Some(items) = items_of(list) else {
        return Ok(());
    };
    let label = shown_label(alloc, &list)?;
    let role = role_word(list.role());
    let label = news(None, label.as_deref());
    voice.say_later(Saying::InList(Listing { role, label, items }))
}

/// Says the nearest list above the new focus, unless the old focus was in it.
///
/// # Errors
///
/// Returns `AllocError` if memory runs out.
pub(crate) fn say_list(
    alloc: Global,
    voice: &mut Voice,
    old: Option<&NodeRef>,
    new: NodeRef,
) -> Result<(), AllocError>
    ensures { OnOk result (voice.new ≡ list_said (seen_through old.entry) (seen_node new.entry) voice.old) }
{
    let Some(list) = list_around(new) else {
        return Ok(());
    };
    if was_in(old, list) {
        return Ok(());
    }
    say_list_named(alloc, voice, list)
}

//! Speech for a group that the focus enters.
ghost use Rattle.std.specs.Prelude.{◌≡◌, IfSome, OnOk, option_map};
ghost use Rattle.views.specs.Nodes.{world_at, id_at, data_at, seen_node, seen_through};
ghost use Rattle.speaking.specs.Around.{around, around_answer, was_in};
ghost use Rattle.speaking.specs.Groups.{is_group_word, is_group, group_named, group_said};

use accesskit_consumer::NodeRef;
use accesskit_consumer::filters::FilterResult;
use hidden_texts::shown_label;
use phrases::{Group, Saying, Voice, news, role_word};
use schema::Role;
use std::alloc::{AllocError, Global};

/// Whether this is said of groups, radio groups or frames.
fn is_group_word(word: &str) -> bool
    ensures { result ≡ is_group_word word.now }
{
    word == "group" || word == "radio group" || word == "frame"
}

/// Whether the node is a group, a radio group or a frame. A container isn't.
fn is_group(node: &NodeRef) -> bool
    ensures { result ≡ is_group (data_at node.now) }
{
    node.role() != Role::GenericContainer && is_group_word(role_word(node.role()))
}

/// The filter that includes groups.
fn groups(node: &NodeRef<'_>) -> FilterResult
    ensures { result ≡ around_answer is_group (world_at node.now) (id_at node.now) }
{
    if is_group(node) {
        FilterResult::Include
    } else {
        FilterResult::ExcludeNode
    }
}

/// The nearest group above a node.
fn group_around<'a>(node: NodeRef<'a>) -> Option<NodeRef<'a>>
    ensures world { IfSome result (λ group. world_at group ≡ world_at node.entry) }
    ensures group { option_map id_at result ≡ around is_group (world_at node.entry) (id_at node.entry) }
{
    node.filtered_parent(&groups)
}

/// Whether the old focus was this node, or in it.
pub(crate) fn was_in(old: Option<&NodeRef<'_>>, top: NodeRef) -> bool
    ensures { result ≡ was_in (seen_through old.entry) (id_at top.entry) }
{
    match old {
        Some(node) => node.is_descendant_of(&top),
        None => false,
    }
}

/// Says a group or a header, if it has a name.
pub(crate) fn say_named(alloc: Global, voice: &mut Voice, group: NodeRef) -> Result<(), AllocError>
    ensures { OnOk result (voice.new ≡ group_named (world_at group.entry) (id_at group.entry) voice.old) }
{
    let label = shown_label(alloc, &group)?;
    let Some(label) = news(None, label.as_deref()) else {
        return Ok(());
    };
    let role = role_word(group.role());
    voice.say_later(Saying::InGroup(Group { role, label }))
}

/// Says the nearest group above the new focus, unless the old focus was in it.
///
/// # Errors
///
/// Returns `AllocError` if memory runs out.
pub(crate) fn say_group(
    alloc: Global,
    voice: &mut Voice,
    old: Option<&NodeRef>,
    new: NodeRef,
) -> Result<(), AllocError>
    ensures { OnOk result (voice.new ≡ group_said (seen_through old.entry) (seen_node new.entry) voice.old) }
{
    let Some(group) = group_around(new) else {
        return Ok(());
    };
    if was_in(old, group) {
        return Ok(());
    }
    say_named(alloc, voice, group)
}

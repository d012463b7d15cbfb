//! Tests of queries on a small window.

use crate::sketches::Has::{Children, Hidden, Label, Value};
use crate::sketches::{Sketch, planted};
use accesskit_consumer::filters::FilterResult;
use accesskit_consumer::node::NodeRef;
use accesskit_consumer::tree::StateRef;
use queries::{By, Queries, QueryError};
use schema::{NodeId, Role};
use std::alloc::{AllocError, Global};
use std::test::Fail;

/// A window with a Label, two buttons and a slider that is hidden.
const WINDOW: &[Sketch] = &[
    Sketch(0, Role::Window, &[Children(&[1, 2, 3, 4])]),
    Sketch(1, Role::Label, &[Value("Two letters")]),
    Sketch(2, Role::Button, &[Label("Send now")]),
    Sketch(3, Role::Button, &[Label("Send later")]),
    Sketch(4, Role::Slider, &[Hidden]),
];

/// The button with this label,
fn button<'a>(alloc: Global, state: StateRef<'a>, label: &str) -> Result<NodeRef<'a>, QueryError> {
    state.find_one(alloc, &By::new().role(Role::Button).label(label))
}

/// the node that shows this text,
fn showing<'a>(alloc: Global, state: StateRef<'a>, text: &str) -> Result<NodeRef<'a>, QueryError> {
    state.find_one(alloc, &By::new().text(text))
}

/// the node that has this in its label,
fn labelled<'a>(alloc: Global, state: StateRef<'a>, part: &str) -> Result<NodeRef<'a>, QueryError> {
    state.find_one(alloc, &By::new().label_contains(part))
}

/// the button with this in its label in any case,
fn button_like<'a>(
    alloc: Global,
    state: StateRef<'a>,
    part: &str,
) -> Result<NodeRef<'a>, QueryError> {
    let like = By::new()
        .role(Role::Button)
        .label(part)
        .partly()
        .ignoring_case();
    state.find_one(alloc, &like)
}

/// and all buttons.
fn buttons<'a>(alloc: Global, state: StateRef<'a>) -> Result<Vec<NodeRef<'a>>, AllocError> {
    state.find_all(alloc, &By::new().role(Role::Button))
}

/// All nodes that are shown,
fn all<'a>(alloc: Global, state: StateRef<'a>) -> Result<Vec<NodeRef<'a>>, AllocError> {
    state.find_all(alloc, &By::new())
}

/// those of them that are below a node,
fn below<'a>(alloc: Global, node: NodeRef<'a>) -> Result<Vec<NodeRef<'a>>, AllocError> {
    node.find_all(alloc, &By::new())
}

/// all sliders, shown or not,
fn sliders<'a>(alloc: Global, state: StateRef<'a>) -> Result<Vec<NodeRef<'a>>, AllocError> {
    let slider = By::new().role(Role::Slider);
    let slider = slider.filter(|_node: &NodeRef<'_>| FilterResult::Include);
    state.find_all(alloc, &slider)
}

/// and the node with this id.
fn with_id<'a>(alloc: Global, state: StateRef<'a>, id: NodeId) -> Result<NodeRef<'a>, QueryError> {
    let with_id = By::new().meets(|node: &NodeRef<'_>| node.id().node == id);
    state.find_one(alloc, &with_id)
}

/// The node with this label to the letter.
fn exactly<'a>(alloc: Global, state: StateRef<'a>, label: &str) -> Result<NodeRef<'a>, QueryError> {
    state.find_one(alloc, &By::new().label(label).exactly())
}

/// The id of a node that was found.
fn id(found: Result<NodeRef, QueryError>) -> Result<u64, QueryError> {
    Ok(found?.id().node.0)
}

/// How many were found.
fn count(found: Result<Vec<NodeRef>, AllocError>) -> Result<usize, AllocError> {
    Ok(found?.len())
}

#[test]
fn nodes_are_found(rt: HostRuntime) -> Result<(), Fail> {
    let alloc = rt.alloc();
    let tree = planted(alloc, WINDOW)?;
    let state = tree.state().view();
    assert!(rt; id(button(alloc, state, "Send now"))? == 2);
    assert!(rt; id(showing(alloc, state, "Two letters"))? == 1);
    assert!(rt; id(labelled(alloc, state, "later"))? == 3);
    assert!(rt; id(button_like(alloc, state, "LATER"))? == 3);
    assert!(rt; id(button(alloc, state, " Send \n now"))? == 2);
    assert!(rt; exactly(alloc, state, "Send  now").is_err());
    assert!(rt; id(with_id(alloc, state, NodeId(3)))? == 3);
    Ok(())
}

#[test]
fn other_places_and_filters_are_searched(rt: HostRuntime) -> Result<(), Fail> {
    let alloc = rt.alloc();
    let tree = planted(alloc, WINDOW)?;
    let state = tree.state().view();
    assert!(rt; count(buttons(alloc, state))? == 2);
    assert!(rt; count(all(alloc, state))? == 4);
    assert!(rt; count(below(alloc, state.root()))? == 3);
    assert!(rt; count(sliders(alloc, state))? == 1);
    Ok(())
}

/// The only node with this role,
fn only<'a>(alloc: Global, state: StateRef<'a>, role: Role) -> Result<NodeRef<'a>, QueryError> {
    state.find_one(alloc, &By::new().role(role))
}

/// and with this role and label.
fn only_labelled<'a>(
    alloc: Global,
    state: StateRef<'a>,
    role: Role,
    label: &str,
) -> Result<NodeRef<'a>, QueryError> {
    state.find_one(alloc, &By::new().role(role).label(label))
}

/// Whether a query that gives no node has this message.
fn says(
    alloc: Global,
    found: Result<NodeRef, QueryError>,
    message: &str,
) -> Result<bool, AllocError> {
    match found {
        Ok(_) => Ok(message.is_empty()),
        Err(error) => Ok(format!(in alloc; "{error}")?.as_str() == message),
    }
}

/// A role, a label if one is asked for, and the message if there isn't one such node.
static MESSAGES: [(Role, Option<&str>, &str); 4] = [
    (Role::Button, Some("Send now"), ""),
    (
        Role::Button,
        Some("Send"),
        "no Button, label \"Send\"; the labels of this role are \"Send now\" \"Send later\"",
    ),
    (
        Role::Slider,
        Some("Size"),
        "no Slider, label \"Size\"; the roles are Window Label Button",
    ),
    (Role::Button, None, "2 nodes fit Button: 2 3"),
];

/// Whether the window says so.
fn has_message(
    alloc: Global,
    state: StateRef,
    (role, label, message): (Role, Option<&str>, &str),
) -> Result<bool, AllocError> {
    let found = match label {
        Some(label) => only_labelled(alloc, state, role, label),
        None => only(alloc, state, role),
    };
    says(alloc, found, message)
}

#[test]
fn messages_help(rt: HostRuntime) -> Result<(), Fail> {
    let tree = planted(rt.alloc(), WINDOW)?;
    for asked in MESSAGES {
        assert!(rt; has_message(rt.alloc(), tree.state().view(), asked)?);
    }
    Ok(())
}

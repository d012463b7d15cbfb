//! Updates of small interfaces.

use crate::sketches::Has::{Children, Graft};
use crate::sketches::{BROUGHT, CHANGED, Sent, Sketch};
use schema::Role::GenericContainer;

const WITH_CHILD: Sketch = Sketch(0, GenericContainer, &[Children(&[1])]);

const CHILD: Sketch = Sketch(1, GenericContainer, &[]);

/// A window with a button.
const PLAIN: Sent = Sent {
    nodes: &[WITH_CHILD, CHILD],
    ..BROUGHT
};

/// A window whose child grafts a tree.
pub const WINDOW: Sent = Sent {
    nodes: &[WITH_CHILD, Sketch(1, GenericContainer, &[Graft(1)])],
    ..BROUGHT
};

/// A document whose child grafts another tree,
pub const OUTER_DOCUMENT: Sent = Sent {
    tree: 1,
    nodes: &[WITH_CHILD, Sketch(1, GenericContainer, &[Graft(2)])],
    ..BROUGHT
};

/// and that one.
pub const INNER_DOCUMENT: Sent = Sent { tree: 2, ..PLAIN };

/// The window's child is another one, which grafts the inner document; the outer one goes.
pub const INNER_MOVED: Sent = Sent {
    nodes: &[
        Sketch(0, GenericContainer, &[Children(&[2])]),
        Sketch(2, GenericContainer, &[Graft(2)]),
    ],
    ..CHANGED
};

/// A window with two children, of which the first has a child,
pub const FAMILY: Sent = Sent {
    nodes: &[
        Sketch(0, GenericContainer, &[Children(&[1, 2])]),
        Sketch(1, GenericContainer, &[Children(&[3])]),
        Sketch(2, GenericContainer, &[]),
        Sketch(3, GenericContainer, &[]),
    ],
    ..BROUGHT
};

/// which moves to the second.
pub const CHILD_MOVED: Sent = Sent {
    nodes: &[Sketch(2, GenericContainer, &[Children(&[3])]), CHILD],
    ..CHANGED
};

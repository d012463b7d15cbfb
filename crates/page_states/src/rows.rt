//! The nodes of a state with what is shown of them, and how.

use crate::again::Ways;
use crate::looks::Look;
use crate::places::Place;

/// A node with what a state shows of it.
#[derive(Drop)]
pub(crate) struct Shown<'a> {
    pub place: Place<'a>,
    pub look: Look,
}

/// The same, with how the state shows it.
#[derive(Drop)]
pub(crate) struct Row<'a> {
    pub shown: Shown<'a>,
    pub ways: Ways,
}

//! Which nodes of a state are in a password, found out once for all of them.
ghost use Rattle.std.specs.Prelude.{◌≡◌, ◌||◌, IfOk, OnOk};
ghost use Rattle.model.specs.World.{World};
ghost use Rattle.views.specs.Nodes.{world_at, id_at};
ghost use Rattle.model.specs.TextRuns.{is_password};
ghost use Rattle.hidden_texts.specs.Hidden.{is_in_password};
ghost use Rattle.hidden_texts.specs.Known.{AreRight, AreRightIf};

use crate::hiding::is_in_password;
use std::alloc::{AllocError, Global};
use values_by_id::IdIndex;
use views::NodeRef;

/// Which nodes of a state are in a password, found out once for all of them.
#[derive(Drop)]
pub struct Passwords {
    known: IdIndex<bool>,
}

impl Passwords {
    /// What is known of the nodes from one on down. Of other nodes of its state nothing is known, and they are asked.
    ///
    /// # Errors
    ///
    /// Returns `AllocError` if memory runs out.
    pub fn below(alloc: Global, top: NodeRef) -> Result<Passwords, AllocError>
        ensures { IfOk result (AreRight (world_at top.entry)) }
    {
        let mut passwords = Passwords {
            known: IdIndex::new(alloc),
        };
        passwords.note(&top)?;
        let mut nodes = top.descendants();
        while let Some(node) = nodes.next() {
            passwords.note(&node)?;
        }
        Ok(passwords)
    }

    /// Notes whether the node is in a password.
    fn note(&mut self, node: &NodeRef) -> Result<(), AllocError>
        ensures { (w : World) → world_at node.now ≡ w → AreRight w self.old → OnOk result (AreRight w self.new) }
    {
        let is_within = self.is_below_password(node);
        self.known.insert(node.id(), is_within)?;
        Ok(())
    }

    /// Whether an ancestor of the node is a password input, by what is known of its parent.
    fn is_below_password(&self, node: &NodeRef) -> bool
        ensures { AreRight (world_at node.now) self.now → result ≡ is_in_password (world_at node.now) (id_at node.now) }
    {
        node.tree_state().know();
        match node.parent() {
            Some(parent) => is_secret(self, &parent),
            None => false,
        }
    }

    /// Whether an ancestor of the node is a password input: what is known says it, or else the nodes above.
    fn has_within(&self, node: &NodeRef) -> bool
        ensures { AreRight (world_at node.now) self.now → result ≡ is_in_password (world_at node.now) (id_at node.now) }
    {
        match self.known.get(&node.id()) {
            Some(is_within) => *is_within,
            None => is_in_password(node),
        }
    }
}

/// Whether the node or an ancestor is a password input.
fn is_secret(passwords: &Passwords, node: &NodeRef) -> bool
    ensures { let w = world_at node.now in let id = id_at node.now in
        AreRight w passwords.now → result ≡ (is_password w id || is_in_password w id) }
{
    node.is_password_input() || passwords.has_within(node)
}

/// Whether an ancestor of the node is a password input: what is known of its state says it, or else the nodes above.
pub(crate) fn is_within(node: &NodeRef, known: Option<&Passwords>) -> bool
    requires { AreRightIf (world_at node.now) known }
    ensures { result ≡ is_in_password (world_at node.now) (id_at node.now) }
{
    match known {
        Some(passwords) => passwords.has_within(node),
        None => is_in_password(node),
    }
}

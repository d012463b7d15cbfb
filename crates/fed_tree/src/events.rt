//! The events of a tree as plain records.
ghost use Rattle.std.specs.Prelude.{◌≡◌, ◌++◌, ◌∷◌, [], None, Some, IfSome, IsSomeAnd, is_some, option_map};
ghost use Rattle.views.specs.Nodes.{seen_through};
ghost use Rattle.fed_tree.specs.Events.{Keeps};

use model::FullNodeId;
use std::alloc::Global;
use std::marker::Model;
use trees::TreeChangeHandler;
use views::NodeRef;

/// What has happened.
#[derive(Clone, Copy)]
pub enum EventKind {
    /// A node was added.
    Added,
    /// A node's data or place was changed, it got or lost the focus, or it is the root that the update names.
    Updated,
    /// The focus moved, or came, or went.
    FocusMoved,
    /// A node was removed.
    Removed,
}

/// A change.
#[derive(Clone, Copy)]
pub struct Event {
    pub kind: EventKind,
    /// The node before the change: none where it was added, or where nothing had the focus.
    pub old: Option<FullNodeId>,
    /// The node after the change: none where it was removed, or where nothing has the focus.
    pub new: Option<FullNodeId>,
}

/// Keeps each event, in order, until memory runs out.
#[derive(Drop)]
pub(crate) struct Events {
    kept: Option<Vec<Event>>,
}

impl Model for Events {
    ghost use Rattle.std.specs.Prelude.{List, Option, option_map};
    ghost use Rattle.fed_tree.specs.declared.events.Event.{Event};
    ghost use Rattle.fed_tree.specs.EventCodes.{coded_events};

    ghost Value = { Option (List Event) };

    ghost coded = { coded_events };

    ghost view = { λ a. option_map (λ events. events.items) a.kept };
}

impl Events {
    /// No event yet.
    pub(crate) fn new(alloc: Global) -> Events
        ensures { result ≡ Some [] }
    {
        Events {
            kept: Some(Vec::new(alloc)),
        }
    }

    /// The events; `None` once one was lost.
    pub(crate) fn kept(&self) -> Option<&[Event]>
        ensures { option_map (λ events. events.now) result ≡ self.now }
    {
        match &self.kept {
            Some(events) => Some(events.as_slice()),
            None => None,
        }
    }

    /// Whether there was memory for each event.
    pub(crate) fn are_whole(&self) -> bool
        ensures { result ≡ is_some self.now }
    {
        self.kept.is_some()
    }

    fn keep(&mut self, event: Event)
        ensures { IfSome self.new (λ after. IsSomeAnd self.old (λ before. after ≡ before ++ event ∷ [])) }
    {
        let is_kept = match &mut self.kept {
            Some(events) => events.push(event).is_ok(),
            None => false,
        };
        if !is_kept {
            self.kept = None;
        }
    }
}

impl TreeChangeHandler for Events {
    ghost steps = { λ before event after. Keeps before event after };

    fn node_added(&mut self, node: &NodeRef) {
        self.keep(Event {
            kind: EventKind::Added,
            old: None,
            new: Some(node.id()),
        });
    }

    fn node_updated(&mut self, old_node: &NodeRef, new_node: &NodeRef) {
        self.keep(Event {
            kind: EventKind::Updated,
            old: Some(old_node.id()),
            new: Some(new_node.id()),
        });
    }

    fn focus_moved(&mut self, old_node: Option<&NodeRef>, new_node: Option<&NodeRef>) {
        self.keep(Event {
            kind: EventKind::FocusMoved,
            old: id_through(old_node),
            new: id_through(new_node),
        });
    }

    fn node_removed(&mut self, node: &NodeRef) {
        self.keep(Event {
            kind: EventKind::Removed,
            old: Some(node.id()),
            new: None,
        });
    }
}

/// The id of a node, if there is one.
fn id_through(node: Option<&NodeRef>) -> Option<FullNodeId>
    ensures { result ≡ option_map (λ seen. seen.id) (seen_through node.entry) }
{
    match node {
        Some(node) => Some(node.id()),
        None => None,
    }
}

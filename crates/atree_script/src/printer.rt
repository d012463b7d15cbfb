//! The handler that prints events.
ghost use Rattle.std.specs.Prelude.{◌≡◌, Some, None, IfNone};
ghost use Rattle.std.specs.Io.KnownBytes.{Appends};
ghost use Rattle.atree_script.specs.Printed.{id_text, shown_or_dash, seen_id, focus_line, event_line};
ghost use Rattle.views.specs.Nodes.{seen_through};

use accesskit_consumer::node::{FullNodeId, NodeRef};
use accesskit_consumer::tree::TreeChangeHandler;
use std::fmt;
use std::io::{self, Write};

/// A node's id, printed for example as `1:2`: the index of its tree, and its id in the tree.
#[derive(Clone, Copy)]
pub struct ShownId(pub FullNodeId);

impl fmt::Display for ShownId {
    ghost output = { λ s. Some (id_text s.0) };

    fn fmt<W: fmt::Write>(&self, f: &mut fmt::Formatter<W>) -> fmt::Result {
        let tree = self.0.tree;
        let node = self.0.node.0;
        write!(f, "{tree}:{node}")
    }
}

/// An id, or `-` if there isn't one.
#[derive(Clone, Copy)]
struct ShownFocus(Option<FullNodeId>);

impl fmt::Display for ShownFocus {
    ghost output = { λ s. Some (shown_or_dash s.0) };

    fn fmt<W: fmt::Write>(&self, f: &mut fmt::Formatter<W>) -> fmt::Result {
        match self.0 {
            Some(id) => {
                let id = ShownId(id);
                write!(f, "{id}")
            }
            None => f.write_str("-"),
        }
    }
}

/// Prints each event on a line, until the writer's first error.
#[derive(Drop)]
pub(crate) struct Printer<'a, O> {
    pub out: &'a mut O,
    /// The first error, if there was one.
    pub fault: Option<io::Error>,
}

impl<'a, O: Write> Printer<'a, O> {
    /// Prints the old and the new focus.
    fn print_focus(&mut self, old: Option<FullNodeId>, new: Option<FullNodeId>)
        ensures out { self.new.out.ghost_name ≡ self.old.out.ghost_name }
        ensures printed { IfNone self.new.fault ((self.old.fault ≡ None)
            × Appends (O.contents self.old.out.now) (O.contents self.new.out.now) (focus_line old new)) }
    {
        if self.fault.is_none() {
            let old = ShownFocus(old);
            let new = ShownFocus(new);
            if let Err(fault) = writeln!(self.out, "focus {old} {new}") {
                self.fault = Some(fault);
            }
        }
    }
}

impl<'a, O: Write> TreeChangeHandler for Printer<'a, O> {
    ghost steps = { λ s e t. (t.out.ghost_name ≡ s.out.ghost_name)
        × IfNone t.fault ((s.fault ≡ None) × Appends (O.contents s.out.now) (O.contents t.out.now) (event_line e)) };

    fn node_added(&mut self, node: &NodeRef) {
        if self.fault.is_none() {
            let id = ShownId(node.id());
            if let Err(fault) = writeln!(self.out, "added {id}") {
                self.fault = Some(fault);
            }
        }
    }

    fn node_updated(&mut self, _old_node: &NodeRef, new_node: &NodeRef) {
        if self.fault.is_none() {
            let id = ShownId(new_node.id());
            if let Err(fault) = writeln!(self.out, "updated {id}") {
                self.fault = Some(fault);
            }
        }
    }

    fn focus_moved(&mut self, old_node: Option<&NodeRef>, new_node: Option<&NodeRef>) {
        self.print_focus(id_of(old_node), id_of(new_node));
    }

    fn node_removed(&mut self, node: &NodeRef) {
        if self.fault.is_none() {
            let id = ShownId(node.id());
            if let Err(fault) = writeln!(self.out, "removed {id}") {
                self.fault = Some(fault);
            }
        }
    }
}

/// The id of a node, if there is one.
fn id_of(node: Option<&NodeRef>) -> Option<FullNodeId>
    ensures { result ≡ seen_id (seen_through node.entry) }
{
    node.map(|node| node.id())
}

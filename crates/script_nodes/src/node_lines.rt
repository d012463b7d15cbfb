//! The line of a node.

ghost use Rattle.script_nodes.specs.FieldMeaning.{fields_mean, node_means};
ghost use Rattle.script_words.specs.Answering.{AnswersAs};
ghost use Rattle.script_words.specs.Reading.{unread};

use crate::fields::node_field;
use schema::{Node, NodeId, Role};
use script_words::names::role_named;
use script_words::stops::Stop;
use script_words::words::Words;
use std::alloc::Global;

/// Reads `node ID ROLE` and fields, from `ID` on.
pub fn node_line(alloc: Global, mut words: Words) -> Result<(NodeId, Node), Stop>
    ensures { AnswersAs (node_means (unread words.entry)) result (λ entry. (entry.0, entry.1)) }
{
    let id = words.id()?;
    let role = role_named(words.word()?).ok_or(Stop::BadLine)?;
    let node = node_of(alloc, role, words)?;
    Ok((id, node))
}

/// A node with this role and the fields in the rest of its line, in any order.
fn node_of(alloc: Global, role: Role, mut words: Words) -> Result<Node, Stop>
    ensures { AnswersAs (fields_mean role (unread words.entry)) result (λ node. node) }
{
    let mut node = Node::new(alloc, role);
    while words.rest.is_some() {
        node_field(alloc, &mut words, &mut node)?;
    }
    Ok(node)
}

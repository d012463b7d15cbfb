//! The lines of each command that a caller can make are read back: a law, the contract of a function that reads the
//! command.

ghost use Rattle.std.specs.Prelude.{All, MatchOption, option_map};
ghost use Rattle.std.specs.Bool.{⊤};
ghost use Rattle.schema.specs.UpdateData.{info_data, update_data};
ghost use Rattle.script_lines.specs.Commands.{said};
ghost use Rattle.script_lines.specs.LineReading.{IsHead, IsInfo};
ghost use Rattle.script_lines.specs.Questions.{IsQuery};
ghost use Rattle.script_lines.specs.ReadingBack.{HasSets, HaveActionSets, IsEntry, IsSaid};
ghost use Rattle.script_nodes.specs.NodeReading.{HasActionSets, IsNode};
ghost use Rattle.script_words.specs.Reading.{IsId};

use crate::reader::ScriptCommand;
use model::Query;
use schema::{Node, NodeId, TreeInfo, TreeUpdate};
use script_nodes::node_fits;
use script_words::fits::{name_fits, text_fits, tree_fits};

/// A command is such that [`crate::ScriptReader::next_command`] reads it back from its lines, if its nodes' sets of
/// actions have no bit beyond those of the 260 actions. No program need call this.
pub fn lines_are_read_back(command: &ScriptCommand)
    ensures { HaveActionSets (said command.now) → IsSaid (said command.now) }
{
    match command {
        ScriptCommand::Update(update) => update_fits(update),
        ScriptCommand::HostFocus(_) => {}
        ScriptCommand::Print => {}
        ScriptCommand::Query(query) => query_fits(*query),
    }
}

/// An update's head is within the bounds of its types, and its nodes are, if their sets of actions are.
fn update_fits(update: &TreeUpdate)
    ensures head { IsHead (update_data update.now) }
    ensures nodes { All HasSets update.now.nodes.items → All IsEntry update.now.nodes.items }
{
    tree_fits(update.tree_id);
    id_fits(update.focus);
    optional_info_fits(update);
    entries_fit(&update.nodes);
}

/// A node's id is a number of 64 bits.
fn id_fits(id: NodeId)
    ensures { IsId id }
{}

/// The tree info is within the bounds of its types, if there is any.
fn optional_info_fits(update: &TreeUpdate)
    ensures { MatchOption (option_map info_data update.now.tree) ⊤ IsInfo }
{
    if let Some(info) = &update.tree {
        info_fits(info);
    }
}

/// A tree's root is a number of 64 bits, and its texts are UTF-8.
fn info_fits(info: &TreeInfo)
    ensures { IsInfo (info_data info.now) }
{
    id_fits(info.root);
    text_fits(info.toolkit_name.as_deref());
    text_fits(info.toolkit_version.as_deref());
}

/// Nodes are within the bounds of their types, if their sets of actions are.
fn entries_fit(nodes: &[(NodeId, Node)])
    ensures { All HasSets nodes.now → All IsEntry nodes.now }
{
    for entry in nodes {
        entry_fits(entry.0, &entry.1);
    }
}

/// A node is within the bounds of its types, if its sets of actions are.
fn entry_fits(id: NodeId, node: &Node)
    ensures id { IsId id }
    ensures node { HasActionSets node.now → IsNode node.now }
{
    node_fits(node);
}

/// A query's numbers and names are within the bounds of their types.
fn query_fits(query: Query)
    ensures { IsQuery query }
{
    match query {
        Query::Children(name) => name_fits(name),
        Query::FollowingSiblings(name) => name_fits(name),
        Query::PrecedingSiblings(name) => name_fits(name),
        Query::FilteredChildren(name, _) => name_fits(name),
        Query::FollowingFiltered(name, _) => name_fits(name),
        Query::PrecedingFiltered(name, _) => name_fits(name),
        Query::Label(name) => name_fits(name),
        Query::Value(name) => name_fits(name),
        Query::Set(name, _) => name_fits(name),
        Query::Text(name) => name_fits(name),
        Query::Hit(name, _, _) => name_fits(name),
        Query::Focus => {}
        Query::Move(name, _, _) => name_fits(name),
        Query::Indexes(name, _) => name_fits(name),
        Query::RangeText(name, _, _) => name_fits(name),
    }
}

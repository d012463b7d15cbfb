//! Printing why an update is refused.
ghost use Rattle.std.specs.Prelude.{◌≡◌, OnOk};
ghost use Rattle.std.specs.Io.KnownBytes.{Appends};
ghost use Rattle.atree_script.specs.Refused.{refusal_line, refused_node, refused_tree};

use accesskit_consumer::tree::UpdateError;
use schema::{NodeId, TreeId};
use std::io::{self, Write};

/// Writes `refused`, the refusal's name, and the id of the node or tree that it names, if it names one.
pub(crate) fn write_refusal<O: Write>(refusal: UpdateError, out: &mut O) -> io::Result<()>
    ensures { OnOk result (Appends (O.contents out.old) (O.contents out.new) (refusal_line refusal)) }
{
    match refusal {
        UpdateError::MissingTreeInfo => writeln!(out, "refused MissingTreeInfo"),
        UpdateError::NotRootTree => writeln!(out, "refused NotRootTree"),
        UpdateError::MissingData(id) => write_node_refusal("MissingData", id, out),
        UpdateError::NotReached(id) => write_node_refusal("NotReached", id, out),
        UpdateError::NamedTwice(id) => write_node_refusal("NamedTwice", id, out),
        UpdateError::ListedTwice(id) => write_node_refusal("ListedTwice", id, out),
        UpdateError::RootTreeGrafted(id) => write_node_refusal("RootTreeGrafted", id, out),
        UpdateError::GraftWithChildren(id) => write_node_refusal("GraftWithChildren", id, out),
        UpdateError::GraftedTwice(id) => write_tree_refusal("GraftedTwice", id, out),
        UpdateError::NoGraft(id) => write_tree_refusal("NoGraft", id, out),
        UpdateError::NoFirstTreeInfo(id) => write_tree_refusal("NoFirstTreeInfo", id, out),
        UpdateError::FocusMissing(id) => write_node_refusal("FocusMissing", id, out),
        UpdateError::FocusOnEmptyGraft(id) => write_tree_refusal("FocusOnEmptyGraft", id, out),
        UpdateError::IndexesUsedUp => writeln!(out, "refused IndexesUsedUp"),
        UpdateError::Memory => writeln!(out, "refused Memory"),
    }
}

/// Writes a refusal that names a node.
fn write_node_refusal<O: Write>(name: &str, node: NodeId, out: &mut O) -> io::Result<()>
    ensures { OnOk result (Appends (O.contents out.old) (O.contents out.new) (refused_node name.now node)) }
{
    writeln!(out, "refused {name} {node}")
}

/// Writes a refusal that names a tree.
fn write_tree_refusal<O: Write>(name: &str, tree: TreeId, out: &mut O) -> io::Result<()>
    ensures { OnOk result (Appends (O.contents out.old) (O.contents out.new) (refused_tree name.now tree)) }
{
    writeln!(out, "refused {name} {tree}")
}

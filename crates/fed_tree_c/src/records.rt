//! What C sees: records of numbers, and the numbers of answers.
ghost use Rattle.std.specs.Prelude.{◌≡◌, option_map};
ghost use Rattle.fed_tree_c.specs.Answers.{Gives, NOTHING};
ghost use Rattle.fed_tree_c.specs.Records.{id_of, node_id};

use model::FullNodeId;
use schema::NodeId;

/// It is done, and what was asked for is written.
pub(crate) const DONE: u8 = 0;
/// Memory ran out.
pub(crate) const NO_MEMORY: u8 = 1;
/// The handle is closed.
pub(crate) const CLOSED: u8 = 2;
/// There is no such thing in the tree or of the node, and nothing is written.
pub(crate) const NOTHING: u8 = 3;
/// A line is bad, and nothing was carried out.
pub(crate) const BAD_LINE: u8 = 4;
/// An update was refused.
pub(crate) const REFUSED: u8 = 5;
/// No update is begun, or none of its nodes.
pub(crate) const OUT_OF_PLACE: u8 = 6;
/// The tree doesn't have the node, and nothing is written.
pub(crate) const NO_NODE: u8 = 7;
/// A number means nothing, or what is said isn't what it has to be. Nothing is written or changed.
pub(crate) const NO_SUCH: u8 = 8;
/// Memory for an event ran out, and none is kept.
pub(crate) const LOST: u8 = 9;

/// A node's id: its id in its tree, and the index of the tree.
#[repr(C)]
#[derive(Clone, Copy)]
pub struct AkId {
    pub node: u64,
    pub tree: u32,
}

/// A change: what has happened, and the node before and after it, where there is one.
#[repr(C)]
#[derive(Clone, Copy)]
pub struct AkEvent {
    pub old_node: u64,
    pub new_node: u64,
    pub old_tree: u32,
    pub new_tree: u32,
    /// 0 for a node that was added, 1 updated, 2 removed, 3 for the focus that moved.
    pub kind: u8,
    pub has_old: bool,
    pub has_new: bool,
}

/// Where and why lines weren't carried out to their end.
#[repr(C)]
#[derive(Clone, Copy)]
pub struct AkStop {
    /// The number of the bad line, counted from 1; else 0.
    pub line: u64,
    /// How many commands were carried out, where an update was refused or memory ran out; else 0.
    pub done: u64,
    /// The node that the refusal names; else 0.
    pub node: u64,
    /// The bytes of the id of the tree that the refusal names; else zeros.
    pub tree_id: [u8; 16],
    /// The rule that the refused update breaks, counted from 1; else 0.
    pub rule: u8,
}

/// A node's rectangle after all translations, in units of 1/64 pixel. An edge beyond 64 bits is the nearest number within them.
#[repr(C)]
#[derive(Clone, Copy)]
pub struct AkBounds {
    pub x0: i64,
    pub y0: i64,
    pub x1: i64,
    pub y1: i64,
}

/// A position in the text of a node, by all its names.
#[repr(C)]
#[derive(Clone, Copy)]
pub struct AkPosition {
    /// The id of its run in the node's tree.
    pub run: u64,
    /// How many of the run's characters are before it.
    pub character: usize,
    /// How many scalars of the text are before it.
    pub index: usize,
    /// How many UTF-16 code units of the text are before it.
    pub utf16_index: usize,
    /// The number of its line, counted from 0.
    pub line: usize,
    /// Whether it is the end of a run that another follows. With `index` it names the position.
    pub is_end: bool,
}

/// The id, as C sees it.
pub(crate) fn id_of(id: FullNodeId) -> AkId
    ensures { result ≡ id_of id }
{
    AkId {
        node: id.node.0,
        tree: id.tree,
    }
}

/// The id that C says.
pub(crate) fn node_id(node: u64, tree: u32) -> FullNodeId
    ensures { result ≡ node_id node tree }
{
    FullNodeId {
        tree,
        node: NodeId(node),
    }
}

/// Writes what was found of the whole tree, if it was.
pub(crate) fn give<T: Copy>(found: Option<T>, place: &mut T) -> u8
    ensures { Gives NOTHING found result place.old place.new }
{
    match found {
        Some(found) => {
            *place = found;
            DONE
        }
        None => NOTHING,
    }
}

/// Writes an id that was found of the whole tree, if it was.
pub(crate) fn give_id(found: Option<FullNodeId>, id: &mut AkId) -> u8
    ensures { Gives NOTHING (option_map id_of found) result id.old id.new }
{
    give(found.map(id_of), id)
}

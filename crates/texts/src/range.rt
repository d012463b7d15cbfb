//! A range of a text.
ghost use Rattle.std.specs.Prelude.{◌≤◌};
ghost use Rattle.model.specs.TextRuns.{said_count};
ghost use Rattle.views.specs.Nodes.{world_at, id_at};
ghost use Rattle.texts.specs.TextRoots.{HasText, HasText-prop};
ghost use Rattle.views.specs.RunPlaces.{IsRunPlace, IsRunPlace-prop};
ghost use Rattle.texts.specs.Edges.{edge_run, edge_offset};

use crate::edges::Edge;
use views::NodeRef;

/// A range of a text, from one position to another.
#[derive(Clone, Copy)]
pub struct TextRange<'a> {
    pub(crate) root: NodeRef<'a>,
    pub(crate) first: Edge<'a>,
    pub(crate) last: Edge<'a>,
    ghost text: { HasText root } by { HasText-prop root },
    ghost starts: { IsRunPlace (world_at root) (id_at root) first.spot } by { IsRunPlace-prop (world_at root) (id_at root) first.spot },
    ghost starts_within: { first.index ≤ said_count (edge_run first) },
    ghost ends: { IsRunPlace (world_at root) (id_at root) last.spot } by { IsRunPlace-prop (world_at root) (id_at root) last.spot },
    ghost ends_within: { last.index ≤ said_count (edge_run last) },
    ghost order: { edge_offset (world_at root) (id_at root) first ≤ edge_offset (world_at root) (id_at root) last },
}

//! The ends of a text, and the two sides of a place between two runs.
ghost use Rattle.std.specs.Prelude.{◌≡◌, true};
ghost use Rattle.model.specs.TextRuns.{supports_text_ranges};
ghost use Rattle.model.specs.FlatText.{document_start, document_end, biased_to_start, biased_to_end};
ghost use Rattle.views.specs.Nodes.{world_at, id_at};
ghost use Rattle.texts.specs.Positions.{IsMoved, IsPositionAt, root_at, node_text, position_text, flat_position};
ghost use Rattle.texts.specs.Secrets.{InEachText};

use crate::position::TextPosition;
use views::NodeRef;
use views::runs::Run;

/// The start of the node's text. Requires that the node supports text ranges.
pub(crate) fn document_start<'a>(root: NodeRef<'a>) -> TextPosition<'a>
    requires { supports_text_ranges (world_at root) (id_at root) ≡ true }
    ensures { IsPositionAt root.entry document_start result }
{
    let run = Run::first(root).unwrap();
    TextPosition { run, index: 0 }
}

/// The end of the node's text. Requires that the node supports text ranges.
pub(crate) fn document_end<'a>(root: NodeRef<'a>) -> TextPosition<'a>
    requires { supports_text_ranges (world_at root) (id_at root) ≡ true }
    ensures { IsPositionAt root.entry (document_end (node_text root.entry)) result }
{
    let run = Run::last(root).unwrap();
    TextPosition {
        run,
        index: run.character_count(),
    }
}

impl<'a> TextPosition<'a> {
    /// The start of the text.
    pub fn document_start(&self) -> TextPosition<'a>
        ensures { IsPositionAt (root_at self.now) document_start result }
    {
        let position = *self;
        document_start(position.run.root())
    }

    /// The end of the text.
    #[tactic(auto, using(model::proofs::Text::Secrets::one_text))]
    pub fn document_end(&self) -> TextPosition<'a>
        ensures at { IsPositionAt (root_at self.now) (document_end (position_text self.now)) result }
        ensures secret { InEachText (root_at self.now) (λ t. flat_position result ≡ document_end t) }
    {
        let position = *self;
        document_end(position.run.root())
    }

    /// The same position, but at the end of a run the start of the next run, if there is one.
    pub fn biased_to_start(&self) -> TextPosition<'a>
        ensures { IsMoved biased_to_start self.now result }
    {
        let position = *self;
        if position.index != position.run.character_count() {
            return position;
        }
        let Some(next) = position.run.next() else {
            return position;
        };
        TextPosition {
            run: next,
            index: 0,
        }
    }

    /// The same position, but at the start of a run the end of the previous run, if there is one.
    pub fn biased_to_end(&self) -> TextPosition<'a>
        ensures { IsMoved biased_to_end self.now result }
    {
        let position = *self;
        if position.index != 0 {
            return position;
        }
        let Some(previous) = position.run.previous() else {
            return position;
        };
        TextPosition {
            run: previous,
            index: previous.character_count(),
        }
    }
}

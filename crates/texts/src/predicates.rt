//! Tests of a position, and its parts.
ghost use Rattle.std.specs.Prelude.{◌≡◌, ◌==◌, Some, slice_get, option_map};
ghost use Rattle.model.specs.FlatText.{count_in, is_line_start, is_line_end, is_document_start, is_document_end, is_page_start, is_paragraph_start, is_paragraph_end, is_paragraph_separator};
ghost use Rattle.model.specs.Ranges.{IsRaw};
ghost use Rattle.views.specs.Nodes.{world_at, id_at};
ghost use Rattle.texts.specs.Positions.{root_at, position_text, flat_position};

use crate::position::TextPosition;
use text_boundaries::{
    begins_line, begins_paragraph, ends_line, ends_paragraph, is_first, is_last,
};
use views::NodeRef;

impl<'a> TextPosition<'a> {
    /// The run that the position is in.
    pub fn inner_node(&self) -> NodeRef<'a>
        ensures world { world_at result ≡ world_at (root_at self.now) }
        ensures run { let run = slice_get (position_text self.now) (flat_position self.now).run in
            option_map (λ r. r.id) run ≡ Some (id_at result) }
    {
        let position = *self;
        position.run.view()
    }

    /// The position in the form of an update: its run's id within the tree, and the index.
    pub fn to_raw(self) -> schema::TextPosition
        ensures { IsRaw (position_text self.entry) (flat_position self.entry) result }
    {
        schema::TextPosition {
            node: self.run.id().node,
            character_index: self.index,
        }
    }

    /// Whether a line starts at the position.
    pub fn is_line_start(&self) -> bool
        ensures { result ≡ is_line_start (position_text self.now) (flat_position self.now) }
    {
        let position = *self;
        position.index == 0 && begins_line(position.run)
    }

    /// Whether the position is at the end of its run.
    fn is_at_run_end(self) -> bool
        ensures { let p = flat_position self.entry in result ≡ (p.index == count_in (position_text self.entry) p.run) }
    {
        self.index == self.run.character_count()
    }

    /// Whether a line ends at the position.
    pub fn is_line_end(&self) -> bool
        ensures { result ≡ is_line_end (position_text self.now) (flat_position self.now) }
    {
        let position = *self;
        position.is_at_run_end() && ends_line(position.run)
    }

    /// Whether the text starts at the position.
    pub fn is_document_start(&self) -> bool
        ensures { result ≡ is_document_start (position_text self.now) (flat_position self.now) }
    {
        let position = *self;
        position.index == 0 && is_first(position.run)
    }

    /// Whether the text ends at the position.
    pub fn is_document_end(&self) -> bool
        ensures { result ≡ is_document_end (position_text self.now) (flat_position self.now) }
    {
        let position = *self;
        position.index == position.run.character_count() && is_last(position.run)
    }

    /// Whether the text starts at the position, since a text has one page.
    pub fn is_page_start(&self) -> bool
        ensures { result ≡ is_page_start (position_text self.now) (flat_position self.now) }
    {
        self.is_document_start()
    }

    /// Whether a paragraph starts at the position.
    pub fn is_paragraph_start(&self) -> bool
        ensures { result ≡ is_paragraph_start (position_text self.now) (flat_position self.now) }
    {
        let position = *self;
        position.index == 0 && begins_paragraph(position.run)
    }

    /// Whether a paragraph ends at the position.
    pub fn is_paragraph_end(&self) -> bool
        ensures { result ≡ is_paragraph_end (position_text self.now) (flat_position self.now) }
    {
        let position = *self;
        position.is_at_run_end() && ends_paragraph(position.run)
    }

    /// Whether the next character ends a paragraph that isn't the last one.
    pub fn is_paragraph_separator(&self) -> bool
        ensures { result ≡ is_paragraph_separator (position_text self.now) (flat_position self.now) }
    {
        let start = self.biased_to_start();
        if start.index == start.run.character_count() {
            return false;
        }
        let end = self.forward_to_character_end();
        end.is_paragraph_end() && !end.is_document_end()
    }
}

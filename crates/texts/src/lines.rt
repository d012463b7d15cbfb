//! Movements by line, paragraph and page.
ghost use Rattle.std.specs.Prelude.{◌+◌};
ghost use Rattle.model.specs.Moves.{end_from, start_before, forward_to_line_start, forward_to_line_end, backward_to_line_start, forward_to_paragraph_start, forward_to_paragraph_end, backward_to_paragraph_start, forward_to_page_start, forward_to_page_end, backward_to_page_start};
ghost use Rattle.text_boundaries.specs.Marks.{begins_at, ends_at};
ghost use Rattle.texts.specs.Positions.{IsMoved};
ghost use Rattle.texts.specs.Secrets.{IsMovedInEach};

use crate::position::TextPosition;
use text_boundaries::{Mark, first_of, last_of};

impl<'a> TextPosition<'a> {
    /// The end of the line or the paragraph of the position's run.
    fn end_of(self, mark: Mark) -> TextPosition<'a>
        ensures { IsMoved (λ t p. end_from t p.run (ends_at mark t)) self.entry result }
    {
        let last = last_of(self.run, mark);
        TextPosition {
            run: last,
            index: last.character_count(),
        }
    }

    /// The start of the line or the paragraph of the position's run.
    fn start_of(self, mark: Mark) -> TextPosition<'a>
        ensures { IsMoved (λ t p. start_before t (p.run + 1) (begins_at mark t)) self.entry result }
    {
        let first = first_of(self.run, mark);
        TextPosition {
            run: first,
            index: 0,
        }
    }

    /// The position past the end of the line.
    pub fn forward_to_line_start(&self) -> TextPosition<'a>
        ensures moved { IsMoved forward_to_line_start self.now result }
        ensures secret { IsMovedInEach forward_to_line_start self.now result }
    {
        self.end_of(Mark::Line).biased_to_start()
    }

    /// The end of the line; from there, the end of the next line, if there is one.
    pub fn forward_to_line_end(&self) -> TextPosition<'a>
        ensures moved { IsMoved forward_to_line_end self.now result }
        ensures secret { IsMovedInEach forward_to_line_end self.now result }
    {
        self.biased_to_start().end_of(Mark::Line)
    }

    /// The start of the line; from there, the start of the previous line, if there is one.
    pub fn backward_to_line_start(&self) -> TextPosition<'a>
        ensures moved { IsMoved backward_to_line_start self.now result }
        ensures secret { IsMovedInEach backward_to_line_start self.now result }
    {
        self.biased_to_end().start_of(Mark::Line)
    }

    /// The position past the end of the paragraph.
    pub fn forward_to_paragraph_start(&self) -> TextPosition<'a>
        ensures moved { IsMoved forward_to_paragraph_start self.now result }
        ensures secret { IsMovedInEach forward_to_paragraph_start self.now result }
    {
        self.end_of(Mark::Paragraph).biased_to_start()
    }

    /// The end of the paragraph; from there, the end of the next paragraph, if there is one.
    pub fn forward_to_paragraph_end(&self) -> TextPosition<'a>
        ensures moved { IsMoved forward_to_paragraph_end self.now result }
        ensures secret { IsMovedInEach forward_to_paragraph_end self.now result }
    {
        self.biased_to_start().end_of(Mark::Paragraph)
    }

    /// The start of the paragraph; from there, the start of the previous paragraph, if there is one.
    pub fn backward_to_paragraph_start(&self) -> TextPosition<'a>
        ensures moved { IsMoved backward_to_paragraph_start self.now result }
        ensures secret { IsMovedInEach backward_to_paragraph_start self.now result }
    {
        self.biased_to_end().start_of(Mark::Paragraph)
    }

    /// The end of the text, since a text has one page.
    pub fn forward_to_page_start(&self) -> TextPosition<'a>
        ensures moved { IsMoved forward_to_page_start self.now result }
        ensures secret { IsMovedInEach forward_to_page_start self.now result }
    {
        self.document_end()
    }

    /// The end of the text, since a text has one page.
    pub fn forward_to_page_end(&self) -> TextPosition<'a>
        ensures moved { IsMoved forward_to_page_end self.now result }
        ensures secret { IsMovedInEach forward_to_page_end self.now result }
    {
        self.document_end()
    }

    /// The start of the text, since a text has one page.
    pub fn backward_to_page_start(&self) -> TextPosition<'a>
        ensures moved { IsMoved backward_to_page_start self.now result }
        ensures secret { IsMovedInEach backward_to_page_start self.now result }
    {
        self.document_start()
    }
}

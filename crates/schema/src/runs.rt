//! The fields about a text run's characters, and the selection.
//!
//! Lengths are in units of 1/64 pixel.

ghost use Rattle.std.specs.Prelude.{◌≡◌, [], None, Some, OnOk, OnErr, IfOk, IsTrue, option_copied, length, unwrap_or};
ghost use Rattle.schema.specs.RunFits.{is_cut_by, rise_below, fit_together, run_text};

use crate::marks::Mark;
use crate::run_fits::{is_cut_by, rise_below};
use crate::run_text::RunList;
use crate::{Node, TextSelection};
use std::alloc::{AllocError, Global};

impl Node {
    /// The selected text, or the caret.
    pub fn text_selection(&self) -> Option<TextSelection>
        ensures { result ≡ self.now.text_selection }
    {
        self.marks
            .has(Mark::TextSelection)
            .then_some(self.plain.text_selection)
    }

    /// Sets [`Node::text_selection`].
    pub fn set_text_selection(&mut self, value: TextSelection)
        ensures { self.new ≡ record self.old { text_selection = Some value } }
    {
        self.plain.text_selection = value;
        self.marks.add(Mark::TextSelection);
    }

    /// Clears [`Node::text_selection`].
    pub fn clear_text_selection(&mut self)
        ensures { self.new ≡ record self.old { text_selection = None } }
    {
        self.marks.remove(Mark::TextSelection);
    }

    /// The length of each character of a text run's value, in bytes.
    pub fn character_lengths(&self) -> &[u16]
        ensures { result.now ≡ self.now.character_lengths }
    {
        self.run.lengths()
    }

    /// Sets [`Node::character_lengths`] to a copy of the list.
    ///
    /// # Errors
    ///
    /// Returns `AllocError` if memory runs out; the node is then unchanged.
    pub fn set_character_lengths(&mut self, lengths: &[u16]) -> Result<(), AllocError>
        ensures ok { OnOk result (self.new ≡ record self.old { character_lengths = lengths.now }) }
        ensures err { OnErr result (self.new ≡ self.old) }
    {
        let copy = Vec::from_slice(self.alloc, lengths)?;
        self.run.set_list(self.alloc, RunList::Lengths(copy))
    }

    /// Sets [`Node::character_lengths`] to these lengths, given as bytes.
    ///
    /// # Errors
    ///
    /// Returns `AllocError` if memory runs out; the node is then unchanged.
    pub fn set_character_lengths_u8(&mut self, lengths: &[u8]) -> Result<(), AllocError>
        ensures ok { OnOk result (self.new ≡ record self.old { character_lengths = lengths.now }) }
        ensures err { OnErr result (self.new ≡ self.old) }
    {
        let copy = widened(self.alloc, lengths)?;
        self.run.set_list(self.alloc, RunList::Lengths(copy))
    }

    /// Sets [`Node::character_lengths`] to this list, which is not copied.
    ///
    /// # Errors
    ///
    /// Returns `AllocError` if memory runs out; the node is then unchanged.
    pub fn take_character_lengths(&mut self, lengths: Vec<u16>) -> Result<(), AllocError>
        ensures ok { OnOk result (self.new ≡ record self.old { character_lengths = lengths.items }) }
        ensures err { OnErr result (self.new ≡ self.old) }
    {
        self.run.set_list(self.alloc, RunList::Lengths(lengths))
    }

    /// Clears [`Node::character_lengths`].
    pub fn clear_character_lengths(&mut self)
        ensures { self.new ≡ record self.old { character_lengths = [] } }
    {
        self.run.clear_list(RunList::Lengths(Vec::new(self.alloc)));
    }

    /// The index of the first character of each word of a text run.
    pub fn word_starts(&self) -> &[u16]
        ensures { result.now ≡ self.now.word_starts }
    {
        self.run.starts()
    }

    /// Sets [`Node::word_starts`] to a copy of the list.
    ///
    /// # Errors
    ///
    /// Returns `AllocError` if memory runs out; the node is then unchanged.
    pub fn set_word_starts(&mut self, starts: &[u16]) -> Result<(), AllocError>
        ensures ok { OnOk result (self.new ≡ record self.old { word_starts = starts.now }) }
        ensures err { OnErr result (self.new ≡ self.old) }
    {
        let copy = Vec::from_slice(self.alloc, starts)?;
        self.run.set_list(self.alloc, RunList::Starts(copy))
    }

    /// Sets [`Node::word_starts`] to these indexes, given as bytes.
    ///
    /// # Errors
    ///
    /// Returns `AllocError` if memory runs out; the node is then unchanged.
    pub fn set_word_starts_u8(&mut self, starts: &[u8]) -> Result<(), AllocError>
        ensures ok { OnOk result (self.new ≡ record self.old { word_starts = starts.now }) }
        ensures err { OnErr result (self.new ≡ self.old) }
    {
        let copy = widened(self.alloc, starts)?;
        self.run.set_list(self.alloc, RunList::Starts(copy))
    }

    /// Sets [`Node::word_starts`] to this list, which is not copied.
    ///
    /// # Errors
    ///
    /// Returns `AllocError` if memory runs out; the node is then unchanged.
    pub fn take_word_starts(&mut self, starts: Vec<u16>) -> Result<(), AllocError>
        ensures ok { OnOk result (self.new ≡ record self.old { word_starts = starts.items }) }
        ensures err { OnErr result (self.new ≡ self.old) }
    {
        self.run.set_list(self.alloc, RunList::Starts(starts))
    }

    /// Clears [`Node::word_starts`].
    pub fn clear_word_starts(&mut self)
        ensures { self.new ≡ record self.old { word_starts = [] } }
    {
        self.run.clear_list(RunList::Starts(Vec::new(self.alloc)));
    }

    /// Where each character of a text run begins along its line, in units of 1/64 pixel.
    pub fn character_positions(&self) -> Option<&[i32]>
        ensures { option_copied result ≡ self.now.character_positions }
    {
        self.run.positions()
    }

    /// Sets [`Node::character_positions`] to a copy of the list.
    ///
    /// # Errors
    ///
    /// Returns `AllocError` if memory runs out; the node is then unchanged.
    pub fn set_character_positions(&mut self, positions: &[i32]) -> Result<(), AllocError>
        ensures ok { OnOk result (self.new ≡ record self.old { character_positions = Some positions.now }) }
        ensures err { OnErr result (self.new ≡ self.old) }
    {
        let copy = Vec::from_slice(self.alloc, positions)?;
        self.run
            .set_list(self.alloc, RunList::Positions(Some(copy)))
    }

    /// Sets [`Node::character_positions`] to this list, which is not copied.
    ///
    /// # Errors
    ///
    /// Returns `AllocError` if memory runs out; the node is then unchanged.
    pub fn take_character_positions(&mut self, positions: Vec<i32>) -> Result<(), AllocError>
        ensures ok { OnOk result (self.new ≡ record self.old { character_positions = Some positions.items }) }
        ensures err { OnErr result (self.new ≡ self.old) }
    {
        self.run
            .set_list(self.alloc, RunList::Positions(Some(positions)))
    }

    /// Clears [`Node::character_positions`].
    pub fn clear_character_positions(&mut self)
        ensures { self.new ≡ record self.old { character_positions = None } }
    {
        self.run.clear_list(RunList::Positions(None));
    }

    /// The width of each character of a text run along its line, in units of 1/64 pixel.
    pub fn character_widths(&self) -> Option<&[i32]>
        ensures { option_copied result ≡ self.now.character_widths }
    {
        self.run.widths()
    }

    /// Sets [`Node::character_widths`] to a copy of the list.
    ///
    /// # Errors
    ///
    /// Returns `AllocError` if memory runs out; the node is then unchanged.
    pub fn set_character_widths(&mut self, widths: &[i32]) -> Result<(), AllocError>
        ensures ok { OnOk result (self.new ≡ record self.old { character_widths = Some widths.now }) }
        ensures err { OnErr result (self.new ≡ self.old) }
    {
        let copy = Vec::from_slice(self.alloc, widths)?;
        self.run.set_list(self.alloc, RunList::Widths(Some(copy)))
    }

    /// Sets [`Node::character_widths`] to this list, which is not copied.
    ///
    /// # Errors
    ///
    /// Returns `AllocError` if memory runs out; the node is then unchanged.
    pub fn take_character_widths(&mut self, widths: Vec<i32>) -> Result<(), AllocError>
        ensures ok { OnOk result (self.new ≡ record self.old { character_widths = Some widths.items }) }
        ensures err { OnErr result (self.new ≡ self.old) }
    {
        self.run.set_list(self.alloc, RunList::Widths(Some(widths)))
    }

    /// Clears [`Node::character_widths`].
    pub fn clear_character_widths(&mut self)
        ensures { self.new ≡ record self.old { character_widths = None } }
    {
        self.run.clear_list(RunList::Widths(None));
    }

    /// Whether the lengths of a text run's characters cut its value at character boundaries, with nothing left over. No
    /// value is as an empty one.
    pub fn has_fitting_lengths(&self) -> bool
        ensures { result ≡ is_cut_by (unwrap_or self.now.value []) self.now.character_lengths }
    {
        is_cut_by(self.value().unwrap_or(""), self.character_lengths())
    }

    /// Whether the word starts of a text run rise, and are below its number of characters.
    pub fn has_rising_word_starts(&self) -> bool
        ensures { result ≡ rise_below self.now.word_starts (length self.now.character_lengths) }
    {
        rise_below(self.word_starts(), self.character_lengths().len())
    }

    /// Finds out whether the value and the lists about its characters fit together, and keeps that until one of them is
    /// set. A tree does so once for each node that it keeps, so that a text is found well-formed without reading its
    /// characters again.
    pub fn note_fit(&mut self)
        ensures { self.new ≡ self.old }
    {
        self.run.note_fit();
    }

    /// Whether [`Node::note_fit`] has found that the lengths cut the value, the word starts rise, and positions and
    /// widths, if given, are one for each character.
    pub fn is_known_to_fit(&self) -> bool
        ensures { IsTrue result → IsTrue (fit_together (run_text self.now)) }
    {
        self.run.is_known_to_fit()
    }
}

/// The same numbers, in two bytes each.
fn widened(alloc: Global, bytes: &[u8]) -> Result<Vec<u16>, AllocError>
    ensures { IfOk result (λ list. list.items ≡ bytes.now) }
{
    let mut list = Vec::with_capacity(alloc, bytes.len())?;
    for byte in bytes {
        list.push(u16::from(*byte))?;
    }
    Ok(list)
}

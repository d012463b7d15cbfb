//! Ranges of a text, as plain values.

use accesskit_consumer::node::NodeRef;
use accesskit_consumer::text::{NodeText, Text, TextPosition, TextRange};

/// A range of a text.
pub enum Span {
    Document,
    Line(usize),
    /// From one index to another one, each in scalars.
    Between(usize, usize),
}

/// The position at an index,
fn at<'a>(text: &Text<'a>, index: usize) -> Option<TextPosition<'a>> {
    text.position_from_usv_index(index)
}

/// and the range from one to another.
fn between<'a>(text: &Text<'a>, from: usize, to: usize) -> Option<TextRange<'a>> {
    TextRange::between(at(text, from)?, at(text, to)?)
}

fn ranged<'a>(text: &Text<'a>, span: &Span) -> Option<TextRange<'a>> {
    match *span {
        Span::Document => Some(text.range()),
        Span::Line(index) => text.line(index),
        Span::Between(from, to) => between(text, from, to),
    }
}

/// The range, if there is a text that has it.
pub fn range<'a>(root: &NodeRef<'a>, span: &Span) -> Option<TextRange<'a>> {
    ranged(&root.text()?, span)
}

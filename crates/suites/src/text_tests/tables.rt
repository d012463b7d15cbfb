//! Small texts, worked out by hand: a table of questions and answers.

use crate::sketches::Has::{Children, Lengths, Next, Previous, Value, Words as WordStarts};
use crate::sketches::small_texts::{
    BULLETS, EMPTY_LAST, LEFTWARD, MEETING, NOTHING, OTHER_RUNS, PARAGRAPHS, RIGHTWARD, SECRET,
    SIZES, SmallText, WIDE_SECRET,
};
use crate::sketches::{Sketch, planted, root_of};
use crate::text_tests::asking::Span::{self, Between, Document, Line};
use crate::text_tests::asking::range;
use accesskit_consumer::node::NodeRef;
use accesskit_consumer::text::TextRange;
use accesskit_consumer::text::TextRangePropertyValue::Single;
use schema::{Role, WideRect};
use std::alloc::{AllocError, Global};
use std::test::Fail;

/// What is asked of a range, and the answer.
enum Asked {
    /// Its text.
    Says(&'static str),
    /// The corners of its only box.
    Box(i128, i128, i128, i128),
    /// What each run says of the size of its letters, by a number that is one more, if it is the same.
    Larger(Option<Option<u32>>),
    /// The texts of its characters,
    Characters(&'static [&'static str]),
    /// its words,
    Words(&'static [&'static str]),
    /// or its lines.
    Lines(&'static [&'static str]),
}

use Asked::{Characters, Larger, Lines, Says, Words};

/// A paragraph of two words, and a line of two runs after it, in which a word goes on from the first run to the second.
const STORY: SmallText = &[
    Sketch(0, Role::MultilineTextInput, &[Children(&[1, 2, 3])]),
    Sketch(
        1,
        Role::TextRun,
        &[
            Value("ab cd\n"),
            Lengths(&[1, 1, 1, 1, 1, 1]),
            WordStarts(&[0, 3]),
        ],
    ),
    Sketch(
        2,
        Role::TextRun,
        &[
            Value("e\u{301}f"),
            Lengths(&[3, 1]),
            WordStarts(&[0]),
            Next(3),
        ],
    ),
    Sketch(
        3,
        Role::TextRun,
        &[
            Value("g h"),
            Lengths(&[1, 1, 1]),
            WordStarts(&[2]),
            Previous(2),
        ],
    ),
];

static ANSWERS: [(SmallText, Span, Asked); 29] = [
    (SECRET, Document, Says(BULLETS)),
    (OTHER_RUNS, Document, Says(BULLETS)),
    (WIDE_SECRET, Document, Says(BULLETS)),
    (PARAGRAPHS, Document, Says("ab\ncd")),
    (MEETING, Between(2, 3), Says("c")),
    (RIGHTWARD, Between(1, 2), Says("b")),
    (RIGHTWARD, Between(3, 3), Says("")),
    (RIGHTWARD, Between(0, 1), Asked::Box(105, 200, 115, 210)),
    (RIGHTWARD, Between(3, 3), Asked::Box(135, 200, 135, 210)),
    (LEFTWARD, Between(0, 1), Asked::Box(125, 200, 135, 210)),
    (SIZES, Between(1, 3), Larger(Some(None))),
    (SIZES, Between(4, 6), Larger(Some(Some(13)))),
    (SIZES, Between(3, 5), Larger(None)),
    (
        STORY,
        Document,
        Characters(&[
            "a", "b", " ", "c", "d", "\n", "e\u{301}", "f", "g", " ", "h",
        ]),
    ),
    (
        STORY,
        Between(4, 9),
        Characters(&["d", "\n", "e\u{301}", "f"]),
    ),
    (STORY, Document, Words(&["ab ", "cd\n", "e\u{301}fg ", "h"])),
    (STORY, Between(1, 9), Words(&["b ", "cd\n", "e\u{301}f"])),
    (STORY, Line(1), Words(&["e\u{301}fg ", "h"])),
    (STORY, Document, Lines(&["ab cd\n", "e\u{301}fg h"])),
    (STORY, Between(4, 8), Lines(&["d\n", "e\u{301}"])),
    (STORY, Between(4, 4), Characters(&[])),
    (STORY, Between(3, 3), Words(&[])),
    (STORY, Between(6, 6), Lines(&[])),
    (EMPTY_LAST, Document, Lines(&["ab\n"])),
    (EMPTY_LAST, Line(1), Says("")),
    (NOTHING, Document, Characters(&[])),
    (NOTHING, Line(0), Says("")),
    (SECRET, Document, Words(&[BULLETS])),
    (MEETING, Document, Lines(&["ab", "cd"])),
];

fn says(alloc: Global, range: &TextRange, text: &str) -> Result<bool, AllocError> {
    Ok(range.text(alloc)?.as_str() == text)
}

fn has_box(alloc: Global, range: &TextRange, wanted: WideRect) -> Result<bool, AllocError> {
    Ok(range.bounding_boxes(alloc)?.as_slice() == [wanted].as_slice())
}

fn larger_size(range: &TextRange) -> Option<Option<u32>> {
    match range.font_size().map(|size: u32| size.saturating_add(1)) {
        Single(size) => Some(size),
        _ => None,
    }
}

/// Whether a part is there and has this text.
fn is_part(alloc: Global, part: Option<TextRange>, text: &str) -> Result<bool, AllocError> {
    match part {
        Some(range) => says(alloc, &range, text),
        None => Ok(false),
    }
}

/// Whether the range's characters have these texts, and there are no more.
fn has_characters(alloc: Global, range: &TextRange, texts: &[&str]) -> Result<bool, AllocError> {
    let mut walk = range.characters();
    for text in texts {
        if !is_part(alloc, walk.next(), text)? {
            return Ok(false);
        }
    }
    Ok(walk.next().is_none())
}

/// Whether the range's words have these texts, and there are no more.
fn has_words(alloc: Global, range: &TextRange, texts: &[&str]) -> Result<bool, AllocError> {
    let mut walk = range.words();
    for text in texts {
        if !is_part(alloc, walk.next(), text)? {
            return Ok(false);
        }
    }
    Ok(walk.next().is_none())
}

/// Whether the range's lines have these texts, and there are no more.
fn has_lines(alloc: Global, range: &TextRange, texts: &[&str]) -> Result<bool, AllocError> {
    let mut walk = range.lines();
    for text in texts {
        if !is_part(alloc, walk.next(), text)? {
            return Ok(false);
        }
    }
    Ok(walk.next().is_none())
}

/// Whether this is the answer of a range.
fn is_answer(alloc: Global, range: &TextRange, asked: &Asked) -> Result<bool, AllocError> {
    match *asked {
        Says(text) => says(alloc, range, text),
        Asked::Box(x0, y0, x1, y1) => has_box(alloc, range, WideRect { x0, y0, x1, y1 }),
        Larger(size) => Ok(larger_size(range) == size),
        Characters(texts) => has_characters(alloc, range, texts),
        Words(texts) => has_words(alloc, range, texts),
        Lines(texts) => has_lines(alloc, range, texts),
    }
}

/// Whether there is the range, and this is its answer.
fn is_right_in(
    alloc: Global,
    root: &NodeRef,
    span: &Span,
    asked: &Asked,
) -> Result<bool, AllocError> {
    match range(root, span) {
        Some(range) => is_answer(alloc, &range, asked),
        None => Ok(false),
    }
}

fn is_right(alloc: Global, text: SmallText, span: &Span, asked: &Asked) -> Result<bool, Fail> {
    let tree = planted(alloc, text)?;
    Ok(is_right_in(alloc, &root_of(&tree), span, asked)?)
}

#[test]
fn texts_answer(rt: HostRuntime) -> Result<(), Fail> {
    for (row, (text, span, asked)) in ANSWERS.iter().enumerate() {
        assert!(rt; is_right(rt.alloc(), text, span, asked)?, "row {row}");
    }
    Ok(())
}

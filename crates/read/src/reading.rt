//! Printing a text.
pub(crate) mod shown;

ghost use Rattle.std.specs.Prelude.{◌≡◌, IfOk, IfSome, OnOk, option_map};
ghost use Rattle.model.specs.Queries.{node_named};
ghost use Rattle.std.specs.Io.KnownBytes.{Appends};
ghost use Rattle.texts.specs.Cuts.{word_ranges};
ghost use Rattle.texts.specs.LineWalks.{lines_root};
ghost use Rattle.texts.specs.NodeTexts.{root_of};
ghost use Rattle.texts.specs.RangeCuts.{located, characters_left, words_left};
ghost use Rattle.views.specs.Nodes.{world_at, id_at};
ghost use Rattle.views.specs.ShownWorlds.{world_of};
ghost use Rattle.read.specs.Asked.{told_of, asked_text, shows_text, is_told};
ghost use Rattle.read.specs.Laws.{TypingReadsTheSame};
ghost use Rattle.read.specs.Lines.{mark, marks, marks_line, span_line, word_text, words_text, numbered_text, index_past, line_numbers, lines_text, selected, read_text};
ghost use Rattle.read.specs.Shown.{index_after, parts_at};
ghost use Rattle.read.specs.Spans.{span_of};

use self::shown::shown_text;
use crate::defect::tell_defect;
use crate::selected::{Selected, tell_selection};
use accesskit_consumer::node::NodeRef;
use accesskit_consumer::text::{NodeText, RangeCharacters, RangeWords, Text, TextLines, TextRange};
use accesskit_consumer::tree::StateRef;
use atree_script::{Stop, write_text};
use hidden_texts::hides_text;
use session::NodeName;
use std::alloc::Global;
use std::io::Write;
use texts::utf16_count;

/// In two worlds that differ in what is typed into a password alone, the same is printed of each node.
fn typing_reads_the_same()
    ensures { TypingReadsTheSame }
{}

/// Prints the text of the node with this name, or why none is shown, and returns whether it is shown.
pub(crate) fn tell_node<O: Write>(
    alloc: Global,
    state: StateRef,
    name: NodeName,
    out: &mut O,
) -> Result<bool, Stop>
    ensures printed { OnOk result (Appends (O.contents out.old) (O.contents out.new) (asked_text (world_of state.entry) name)) }
    ensures there { IfOk result (λ there. there ≡ is_told (world_of state.entry) name) }
{
    let Some(node) = named_node(state, name) else {
        out.write_all(b"no node\n")?;
        return Ok(false);
    };
    tell_found(alloc, node, out)
}

/// The node with this name, if it is in the state.
fn named_node<'a>(state: StateRef<'a>, name: NodeName) -> Option<NodeRef<'a>>
    ensures world { IfSome result (λ node. world_at node ≡ world_of state.entry) }
    ensures node { option_map id_at result ≡ node_named (world_of state.entry) name }
{
    state.know();
    state.node_by_tree_local_id(name.0, name.1)
}

/// Prints the text of a node, or why none is shown, and returns whether it is shown.
fn tell_found<O: Write>(alloc: Global, node: NodeRef, out: &mut O) -> Result<bool, Stop>
    ensures printed { let w = world_at node.entry in
        OnOk result (Appends (O.contents out.old) (O.contents out.new) (told_of w (id_at node.entry))) }
    ensures there { IfOk result (λ there. there ≡ shows_text (world_at node.entry) (id_at node.entry)) }
{
    if hides_text(&node) {
        out.write_all(b"text hidden\n")?;
        return Ok(false);
    }
    let Some(text) = node.text() else {
        tell_defect(node.text_defect(), out)?;
        return Ok(false);
    };
    tell_text(alloc, text, out)?;
    Ok(true)
}

/// Prints the selection of a text, and its lines.
fn tell_text<O: Write>(alloc: Global, text: Text, out: &mut O) -> Result<(), Stop>
    ensures { let root = root_of text.entry in
        OnOk result (Appends (O.contents out.old) (O.contents out.new) (read_text (world_at root) (id_at root))) }
{
    let selected = tell_selection(alloc, text, out)?;
    tell_lines(alloc, text, selected, out)
}

/// Prints the lines of a text.
fn tell_lines<O: Write>(
    alloc: Global,
    text: Text,
    selected: Selected,
    out: &mut O,
) -> Result<(), Stop>
    ensures { let w = world_at (root_of text.entry) in let id = id_at (root_of text.entry) in
        OnOk result (Appends (O.contents out.old) (O.contents out.new) (lines_text w id (span_of selected) 0 (line_numbers w id))) }
{
    let last = text.end().to_line_index();
    let mut lines = text.lines();
    let mut at = 0usize;
    for number in 0..last {
        at = tell_line(alloc, &mut lines, number, at, selected, out)?;
    }
    tell_line(alloc, &mut lines, last, at, selected, out)?;
    Ok(())
}

/// Prints the line with this number, which starts at this index, if there is one, and its words. Returns the index after
/// it. A word that continues on the next line is cut.
fn tell_line<O: Write>(
    alloc: Global,
    lines: &mut TextLines<'_>,
    number: usize,
    at: usize,
    selected: Selected,
    out: &mut O,
) -> Result<usize, Stop>
    ensures same { lines_root lines.new ≡ lines_root lines.old }
    ensures printed { let root = lines_root lines.old in
        OnOk result (Appends (O.contents out.old) (O.contents out.new)
        (numbered_text (world_at root) (id_at root) (span_of selected) at number)) }
    ensures after { let root = lines_root lines.old in
        IfOk result (λ after. after ≡ index_past (world_at root) (id_at root) at number) }
{
    let Some(line) = lines.line(number) else {
        return Ok(at);
    };
    write!(out, "line {number} ")?;
    let after = tell_span(alloc, line, at, out)?;
    tell_words(alloc, line.words(), at, selected, out)?;
    Ok(after)
}

/// Prints the index at which a range starts, that after it, and its text. Returns the index after it.
fn tell_span<O: Write>(
    alloc: Global,
    range: TextRange<'_>,
    at: usize,
    out: &mut O,
) -> Result<usize, Stop>
    ensures printed { OnOk result (Appends (O.contents out.old) (O.contents out.new) (span_line at (located range.entry))) }
    ensures after { IfOk result (λ after. after ≡ index_after at (located range.entry)) }
{
    let written = shown_text(alloc, range)?;
    let after = at.saturating_add(utf16_count(&written));
    write!(out, "{at} {after} ")?;
    write_text(Some(&written), out)?;
    Ok(after)
}

/// Prints words, of which the first starts at this index.
fn tell_words<O: Write>(
    alloc: Global,
    words: RangeWords<'_>,
    at: usize,
    selected: Selected,
    out: &mut O,
) -> Result<(), Stop>
    ensures { OnOk result (Appends (O.contents out.old) (O.contents out.new) (words_text (span_of selected) at (words_left words.entry))) }
{
    let mut left = words;
    let mut index = at;
    while let Some(word) = left.next() {
        index = tell_word(alloc, word, index, selected, out)?;
    }
    Ok(())
}

/// Prints a word that starts at this index, and its characters. Returns the index after it.
fn tell_word<O: Write>(
    alloc: Global,
    word: TextRange<'_>,
    at: usize,
    selected: Selected,
    out: &mut O,
) -> Result<usize, Stop>
    ensures printed { OnOk result (Appends (O.contents out.old) (O.contents out.new)
        (word_text (span_of selected) at (located word.entry))) }
    ensures after { IfOk result (λ after. after ≡ index_after at (located word.entry)) }
{
    out.write_all(b"  word ")?;
    let after = tell_span(alloc, word, at, out)?;
    tell_characters(alloc, word, at, selected, out)?;
    Ok(after)
}

/// Prints the characters of a word on a line.
fn tell_characters<O: Write>(
    alloc: Global,
    word: TextRange<'_>,
    at: usize,
    selected: Selected,
    out: &mut O,
) -> Result<(), Stop>
    ensures { OnOk result (Appends (O.contents out.old) (O.contents out.new) (marks_line (span_of selected) at (located word.entry))) }
{
    out.write_all(b"   ")?;
    tell_marks(alloc, word.characters(), at, selected, out)?;
    out.write_all(b"\n")?;
    Ok(())
}

/// Prints the index of each character, with a star if it is selected. The first starts at this index.
fn tell_marks<O: Write>(
    alloc: Global,
    characters: RangeCharacters<'_>,
    at: usize,
    selected: Selected,
    out: &mut O,
) -> Result<(), Stop>
    ensures { OnOk result (Appends (O.contents out.old) (O.contents out.new)
        (marks (span_of selected) at (characters_left characters.entry))) }
{
    let mut left = characters;
    let mut index = at;
    while let Some(character) = left.next() {
        index = tell_mark(alloc, character, index, selected, out)?;
    }
    Ok(())
}

/// Prints the index of a character, with a star if it is selected. Returns the index after it.
fn tell_mark<O: Write>(
    alloc: Global,
    character: TextRange<'_>,
    at: usize,
    selected: Selected,
    out: &mut O,
) -> Result<usize, Stop>
    ensures printed { OnOk result (Appends (O.contents out.old) (O.contents out.new) (mark (span_of selected) at)) }
    ensures after { IfOk result (λ after. after ≡ index_after at (located character.entry)) }
{
    let star = selected.star(at);
    write!(out, " {at}{star}")?;
    let written = shown_text(alloc, character)?;
    Ok(at.saturating_add(utf16_count(&written)))
}

//! Where the caret of a text is, and what it has come to within a line.
ghost use Rattle.std.specs.Prelude.{◌≡◌, IfOk, OnOk, None, Some, option_map, string_bytes};
ghost use Rattle.phrases.specs.Sayings.{character_line, word_line};
ghost use Rattle.phrases.specs.News.{news};
ghost use Rattle.texts.specs.Positions.{root_at, position_text, flat_position};
ghost use Rattle.views.specs.Nodes.{world_at, id_at};
ghost use Rattle.speaking.specs.Carets.{scalars_before, caret_place, is_at, is_beside, text_until, character_at, word_at, reached_said, said_at_caret, within_said};
ghost use Rattle.speaking.specs.Said.{said_if};

use accesskit_consumer::NodeRef;
use accesskit_consumer::text::{TextPosition, TextSelections};
use phrases::{Saying, Voice, news};
use std::alloc::{AllocError, Global};

/// The number of scalars before the caret.
fn scalars_before(node: NodeRef) -> Option<usize>
    ensures { result ≡ scalars_before (world_at node.entry) (id_at node.entry) }
{
    let caret = node.text_selection_focus()?;
    Some(caret.to_global_usv_index())
}

/// The number of scalars before the caret, but not in a password.
pub(crate) fn caret_place(node: NodeRef) -> Option<usize>
    ensures { result ≡ caret_place (world_at node.entry) (id_at node.entry) }
{
    if node.is_password_input() {
        return None;
    }
    scalars_before(node)
}

/// Whether a position has so many scalars before it, if there is one.
fn is_at(position: Option<TextPosition>, place: usize) -> bool
    ensures { result ≡ is_at position.entry place }
{
    match position {
        Some(position) => position.to_global_usv_index() == place,
        None => false,
    }
}

/// Whether there is one character between the position and the one with so many scalars before it.
#[tactic(auto, using(crate::proofs::FoundPlaces::place_found))]
fn is_beside(position: TextPosition, place: usize) -> bool
    ensures { let p = position.entry in result ≡ is_beside (position_text p) (flat_position p) place }
{
    is_at(position.next_character(), place) || is_at(position.previous_character(), place)
}

/// The text from a position to a later one of the same text.
fn text_until(alloc: Global, from: TextPosition, to: TextPosition) -> Result<String, AllocError>
    requires { root_at to ≡ root_at from }
    ensures { let p = from.entry in
        IfOk result (λ text. string_bytes text ≡ text_until (position_text p) (flat_position p) (flat_position to.entry)) }
{
    let mut range = from.to_degenerate_range();
    range.set_end(to);
    range.text(alloc)
}

/// The character after a position, if there is one.
fn character_at(alloc: Global, position: TextPosition) -> Result<Option<String>, AllocError>
    ensures { let p = position.entry in
        IfOk result (λ text. option_map string_bytes text ≡ character_at (position_text p) (flat_position p)) }
{
    match position.next_character() {
        Some(next) => Ok(Some(text_until(alloc, position, next)?)),
        None => Ok(None),
    }
}

/// The rest of the word in which a position is: from its start the whole word.
fn word_at(alloc: Global, position: TextPosition) -> Result<String, AllocError>
    ensures { let p = position.entry in
        IfOk result (λ text. string_bytes text ≡ word_at (position_text p) (flat_position p)) }
{
    text_until(alloc, position, position.forward_to_word_end())
}

/// Says the character after a position.
fn say_character(alloc: Global, voice: &mut Voice, position: TextPosition) -> Result<(), AllocError>
    ensures { let p = position.entry in
        OnOk result (voice.new ≡ said_if character_line (character_at (position_text p) (flat_position p)) voice.old) }
{
    match character_at(alloc, position)? {
        Some(text) => voice.say_later(Saying::AtCharacter(text.as_str())),
        None => Ok(()),
    }
}

/// Says the word at a position.
fn say_word(alloc: Global, voice: &mut Voice, position: TextPosition) -> Result<(), AllocError>
    ensures { let p = position.entry in
        OnOk result (voice.new ≡ said_if word_line (news None (Some (word_at (position_text p) (flat_position p)))) voice.old) }
{
    let text = word_at(alloc, position)?;
    match news(None, Some(text.as_str())) {
        Some(word) => voice.say_later(Saying::AtWord(word)),
        None => Ok(()),
    }
}

/// Says the character that the caret has come to, if it has passed one character, or else the word.
fn say_reached(
    alloc: Global,
    voice: &mut Voice,
    caret: TextPosition,
    before: usize,
) -> Result<(), AllocError>
    ensures { let p = caret.entry in OnOk result (voice.new ≡ reached_said (position_text p) before voice.old (flat_position p)) }
{
    if is_beside(caret, before) {
        say_character(alloc, voice, caret)
    } else {
        say_word(alloc, voice, caret)
    }
}

/// Says what the caret of a node has come to.
fn say_place(
    alloc: Global,
    voice: &mut Voice,
    node: NodeRef,
    before: usize,
) -> Result<(), AllocError>
    ensures { let n = node.entry in OnOk result (voice.new ≡ said_at_caret (world_at n) (id_at n) before voice.old) }
{
    match node.text_selection_focus() {
        Some(caret) => say_reached(alloc, voice, caret, before),
        None => Ok(()),
    }
}

/// Says what the caret of a node has come to within a line, if it has moved and nothing is selected.
///
/// # Errors
///
/// Returns `AllocError` if memory runs out.
pub(crate) fn say_within(
    alloc: Global,
    voice: &mut Voice,
    node: NodeRef,
    selected: &str,
    before: Option<usize>,
    now: Option<usize>,
) -> Result<(), AllocError>
    ensures { let n = node.entry in
        OnOk result (voice.new ≡ within_said (world_at n) (id_at n) selected.now before now voice.old) }
{
    let (Some(before), Some(now)) = (before, now) else {
        return Ok(());
    };
    if before == now || !selected.is_empty() {
        return Ok(());
    }
    say_place(alloc, voice, node, before)
}

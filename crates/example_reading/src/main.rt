//! An example: finds a button by its role and label, and reads a text by lines, words and characters.
#![tactic(auto)]

mod form;

use accesskit_consumer::text::{NodeText, Text, TextRange};
use accesskit_consumer::{NodeRef, StateRef, Tree, common_filter};
use schema::{Action, Role};
use std::alloc::{AllocError, Global};

/// Whether a node has this label.
fn has_label(alloc: Global, node: &NodeRef, label: &str) -> Result<bool, AllocError> {
    Ok(node.label(alloc)?.as_deref() == Some(label))
}

/// The first node with this role and label among those that are shown.
fn find<'a>(
    alloc: Global,
    state: StateRef<'a>,
    role: Role,
    label: &str,
) -> Result<Option<NodeRef<'a>>, AllocError> {
    for node in state.root().filtered_descendants(common_filter) {
        if node.role() == role && has_label(alloc, &node, label)? {
            return Ok(Some(node));
        }
    }
    Ok(None)
}

/// Whether a node can be clicked, as adapters show it.
fn is_clickable(node: &NodeRef) -> bool {
    node.is_clickable(&common_filter)
}

/// Prints whether there is a button with this label, and whether it can be clicked.
fn print_button(
    rt: &impl Print,
    alloc: Global,
    state: StateRef,
    label: &str,
) -> anyhow::Result<()> {
    let Some(button) = find(alloc, state, Role::Button, label)? else {
        println!(rt; "no button {label:?}")?;
        return Ok(());
    };
    let id = button.id().node;
    println!(rt;
        "button {label:?}: node {id}, clickable {}",
        is_clickable(&button)
    )?;
    Ok(())
}

/// Prints a line of a text, with the index in UTF-16 at which it starts.
fn print_line(
    rt: &impl Print,
    alloc: Global,
    number: usize,
    line: &TextRange,
) -> anyhow::Result<()> {
    let start = line.start().to_global_utf16_index();
    println!(rt; "line {number} at {start}: {:?}", line.text(alloc)?)?;
    Ok(())
}

/// Prints each line of the text.
fn print_lines(rt: &impl Print, alloc: Global, text: &Text) -> anyhow::Result<()> {
    let mut lines = text.lines();
    for number in 0..usize::MAX {
        let Some(line) = lines.line(number) else {
            break;
        };
        print_line(rt, alloc, number, &line)?;
    }
    Ok(())
}

fn print_word(rt: &impl Print, alloc: Global, word: &TextRange) -> anyhow::Result<()> {
    println!(rt; "word {:?}", word.text(alloc)?)?;
    Ok(())
}

/// Prints the words of the text, each with what follows it up to the next one.
fn print_words(rt: &impl Print, alloc: Global, text: &Text) -> anyhow::Result<()> {
    for word in text.range().words() {
        print_word(rt, alloc, &word)?;
    }
    Ok(())
}

/// How many characters the text has, as a caret goes through it.
fn count_characters(text: &Text) -> usize {
    let mut at = text.start();
    for count in 0..usize::MAX {
        let Some(next) = at.next_character() else {
            return count;
        };
        at = next;
    }
    usize::MAX
}

/// Prints the text by lines and words, and how many characters it has.
fn print_text(rt: &impl Print, alloc: Global, text: &Text) -> anyhow::Result<()> {
    print_lines(rt, alloc, text)?;
    print_words(rt, alloc, text)?;
    println!(rt; "characters {}", count_characters(text))?;
    Ok(())
}

/// Prints the text of a field, and whether the field can take the focus.
fn print_field(rt: &impl Print, alloc: Global, field: &NodeRef) -> anyhow::Result<()> {
    if let Some(text) = field.text() {
        print_text(rt, alloc, &text)?;
    }
    let can_focus = field.supports_action(Action::Focus, &common_filter);
    println!(rt; "supports focus {can_focus}")?;
    Ok(())
}

fn main(rt: HostRuntime) -> anyhow::Result<()> {
    let alloc = rt.alloc();
    let tree = Tree::new(alloc, form::update(alloc)?, true)?;
    let state = tree.state().view();
    print_button(&rt, alloc, state, "Send")?;
    print_button(&rt, alloc, state, "Discard")?;
    if let Some(field) = find(alloc, state, Role::MultilineTextInput, "Message")? {
        print_field(&rt, alloc, &field)?;
    }
    Ok(())
}

//! Makes each call that allocates in turn, and prints its result. If a call's allocation fails, a line reports that and
//! the call is repeated.

use crate::planting::update;
use crate::reading::{Answer, READINGS, Reading, read};
use crate::setting::{SETTINGS, Setting, set};
use accesskit_consumer::tree::{Tree, UpdateError};
use schema::{Node, Role, TextBuffer, TextWrite};
use std::alloc::Global;
use std::fmt::Debug;
use std::io;

/// Reports that a call's allocation failed.
fn tell_no_memory(rt: &impl Print, call: &impl Debug) -> io::Result<()> {
    println!(rt; "{call:?}: no memory")
}

/// Sets a field of a node. If an allocation fails, the node is still equal to its twin.
fn set_first(
    rt: &impl Print,
    node: &mut Node,
    twin: &Node,
    setting: Setting,
    is_again: bool,
) -> io::Result<()> {
    if set(node, setting, is_again).is_ok() {
        return Ok(());
    }
    tell_no_memory(rt, &setting)?;
    if *node != *twin {
        println!(rt; "{setting:?}: changed all the same")?;
    }
    let _set = set(node, setting, is_again);
    Ok(())
}

/// Sets the field of the twin.
fn set_second(
    rt: &impl Print,
    twin: &mut Node,
    setting: Setting,
    is_again: bool,
) -> io::Result<()> {
    if set(twin, setting, is_again).is_err() {
        tell_no_memory(rt, &setting)?;
        let _set = set(twin, setting, is_again);
    }
    Ok(())
}

/// Makes the calls that set, on a node and its twin, which are equal after each.
fn tell_settings(
    rt: &impl Print,
    node: &mut Node,
    twin: &mut Node,
    is_again: bool,
) -> io::Result<()> {
    for setting in &SETTINGS {
        set_first(rt, node, twin, *setting, is_again)?;
        set_second(rt, twin, *setting, is_again)?;
        println!(rt; "{setting:?}: {}", node == twin)?;
    }
    Ok(())
}

fn tell_answer(rt: &impl Print, reading: Reading, answer: &Answer) -> io::Result<()> {
    println!(rt; "{reading:?}: {answer:?}")
}

/// Makes a call again whose allocation failed.
fn read_again(rt: &impl Print, alloc: Global, tree: &Tree, reading: Reading) -> io::Result<()> {
    tell_no_memory(rt, &reading)?;
    match read(alloc, tree, reading) {
        Ok(answer) => tell_answer(rt, reading, &answer),
        Err(_) => println!(rt; "{reading:?}: no memory again"),
    }
}

/// Makes a call on the tree or its views.
fn tell_read(rt: &impl Print, alloc: Global, tree: &Tree, reading: Reading) -> io::Result<()> {
    match read(alloc, tree, reading) {
        Ok(answer) => tell_answer(rt, reading, &answer),
        Err(_) => read_again(rt, alloc, tree, reading),
    }
}

/// Writes a text into a buffer.
fn tell_written(rt: &impl Print, alloc: Global) -> io::Result<()> {
    let mut buffer = TextBuffer::new(alloc);
    if buffer.write_str("a text").is_err() {
        println!(rt; "Buffer: no memory")?;
        let _written = buffer.write_str("a text");
    }
    println!(rt; "Buffer: {:?}", buffer.as_str())
}

fn planted(alloc: Global) -> Result<Tree, UpdateError> {
    Tree::new(alloc, update(alloc)?, false)
}

/// Makes the tree that is read.
fn tell_planted(rt: &impl Print, alloc: Global) -> anyhow::Result<Tree> {
    match planted(alloc) {
        Err(UpdateError::Memory) => {
            println!(rt; "Tree: no memory")?;
            Ok(planted(alloc)?)
        }
        tree => Ok(tree?),
    }
}

/// Makes the calls on the tree.
fn tell_readings(rt: &impl Print, alloc: Global, tree: &Tree) -> io::Result<()> {
    println!(rt; "Tree: {}", tree.state().root_id().node)?;
    for reading in &READINGS {
        tell_read(rt, alloc, tree, *reading)?;
    }
    Ok(())
}

/// Makes the run.
pub fn run(rt: &impl Print, alloc: Global) -> anyhow::Result<()> {
    let mut node = Node::new(alloc, Role::TextRun);
    let mut twin = Node::new(alloc, Role::TextRun);
    tell_settings(rt, &mut node, &mut twin, false)?;
    tell_settings(rt, &mut node, &mut twin, true)?;
    tell_written(rt, alloc)?;
    let tree = tell_planted(rt, alloc)?;
    Ok(tell_readings(rt, alloc, &tree)?)
}

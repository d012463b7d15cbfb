//! Searching a tree.
ghost use Rattle.std.specs.Prelude.{◌≡◌, ◌++◌, ◌∷◌, [], All, IfOk, OnOk, if◌then◌else◌, length, map};
ghost use Rattle.std.specs.Io.KnownBytes.{Appends};
ghost use Rattle.std.specs.Iterator.{IsFinite, Drains};
ghost use Rattle.model.specs.Covers.{is_included};
ghost use Rattle.model.specs.Filters.{common_filter as common};
ghost use Rattle.views.specs.Descendants.{filtered_descendants};
ghost use Rattle.views.specs.Nodes.{world_at, id_at};
ghost use Rattle.hidden_texts.specs.Known.{AreRight};
ghost use Rattle.find.specs.Found.{shown_from, found, found_in, is_enough};
ghost use Rattle.find.specs.Free.{AreFree};
ghost use Rattle.find.specs.Laws.{TypingPrintsTheSame};
ghost use Rattle.find.specs.Near.{hints};
ghost use Rattle.find.specs.Printed.{node_text, nodes_text};
ghost use Rattle.find.specs.Told.{told_in, told_with};
ghost use Rattle.find.specs.Viewed.{AreNodes};
ghost use Rattle.find.specs.Wanted.{is_wanted, sought_of};

use crate::near::write_if_none;
use crate::report::report;
use crate::shown::Free;
use crate::sought_texts::has_texts;
use crate::wanted::{Wanted, has_role};
use accesskit_consumer::filters::FilterResult;
use accesskit_consumer::node::NodeRef;
use atree_script::Stop;
use hidden_texts::Passwords;
use session::Session;
use std::alloc::{AllocError, Global};
use std::io::Write;

/// In two worlds that differ in what is typed into a password alone, the same is printed.
#[tactic(auto, using(crate::proofs::Alike::typing_prints_the_same))]
fn typing_prints_the_same()
    ensures { TypingPrintsTheSame }
{}

/// Prints each matching node of the tree, or `none`; and then which nodes come near, if `near` says so. Returns whether as many are found
/// as are asked for.
pub(crate) fn tell_in<O: Write>(
    alloc: Global,
    wanted: &Wanted,
    session: &Session,
    near: bool,
    output: &mut O,
) -> Result<bool, Stop>
    ensures printed { OnOk result (Appends (O.contents output.old) (O.contents output.new) (told_in near (sought_of wanted.now) session.now)) }
    ensures enough { IfOk result (λ is. is ≡ is_enough wanted.now.any_number (length (found_in (sought_of wanted.now) session.now))) }
{
    tell_found(alloc, session.tree().state().root(), wanted, near, output)
}

/// The same from the top on.
fn tell_found<O: Write>(
    alloc: Global,
    top: NodeRef,
    wanted: &Wanted,
    near: bool,
    output: &mut O,
) -> Result<bool, Stop>
    ensures printed { OnOk result (Appends (O.contents output.old) (O.contents output.new)
        (told_with near (sought_of wanted.now) (world_at top.entry) (id_at top.entry))) }
    ensures enough { let found = found (sought_of wanted.now) (world_at top.entry) (id_at top.entry) in
        IfOk result (λ is. is ≡ is_enough wanted.now.any_number (length found)) }
{
    let passwords = Passwords::below(alloc, top)?;
    let shown = shown_nodes(alloc, top)?;
    let found = wanted_among(alloc, &passwords, top, &shown, wanted)?;
    write_nodes(alloc, &passwords, top, &found, output)?;
    write_near_if(near, alloc, &passwords, top, &shown, wanted, &found, output)?;
    Ok(is_enough(wanted.any_number, found.len()))
}

/// Prints which of the nodes shown come near where these are what was found and none is, if `near` says so.
fn write_near_if<O: Write>(
    near: bool,
    alloc: Global,
    passwords: &Passwords,
    top: NodeRef,
    shown: &[NodeRef<'_>],
    wanted: &Wanted,
    found: &[NodeRef<'_>],
    output: &mut O,
) -> Result<(), Stop>
    requires known { AreRight (world_at top) passwords.now }
    requires shown { AreNodes (world_at top) (shown_from (world_at top) (id_at top)) shown.now }
    ensures { let near_text = hints (sought_of wanted.now) (world_at top.entry) (id_at top.entry) (map id_at found.now) in
        OnOk result (Appends (O.contents output.old) (O.contents output.new) (if near then near_text else [])) }
{
    if !near {
        return Ok(());
    }
    write_if_none(alloc, passwords, top, shown, wanted, found, output)
}

/// Whether as many nodes are found as are asked for: one, or one or more.
fn is_enough(any_number: bool, count: usize) -> bool
    ensures { result ≡ is_enough any_number count }
{
    if any_number { count > 0 } else { count == 1 }
}

/// Prints each of these nodes, or `none`.
fn write_nodes<O: Write>(
    alloc: Global,
    passwords: &Passwords,
    top: NodeRef,
    nodes: &[NodeRef<'_>],
    output: &mut O,
) -> Result<(), Stop>
    requires world { All (λ n. world_at n ≡ world_at top) nodes.now }
    requires known { AreRight (world_at top) passwords.now }
    ensures { OnOk result (Appends (O.contents output.old) (O.contents output.new)
        (nodes_text (world_at top.entry) (id_at top.entry) (map id_at nodes.now))) }
{
    if nodes.is_empty() {
        output.write_all(b"none\n")?;
        return Ok(());
    }
    for node in nodes {
        write_node(alloc, passwords, top, *node, output)?;
    }
    Ok(())
}

/// Prints a node of the tree.
fn write_node<O: Write>(
    alloc: Global,
    passwords: &Passwords,
    top: NodeRef,
    node: NodeRef,
    output: &mut O,
) -> Result<(), Stop>
    requires world { world_at node ≡ world_at top }
    requires known { AreRight (world_at top) passwords.now }
    ensures { OnOk result (Appends (O.contents output.old) (O.contents output.new)
        (node_text (world_at top.entry) (id_at top.entry) (id_at node.entry))) }
{
    report(alloc, passwords, top, node, output)
}

/// Those of the nodes shown that fit, in order.
pub(crate) fn wanted_among<'a>(
    alloc: Global,
    passwords: &Passwords,
    top: NodeRef,
    shown: &[NodeRef<'a>],
    wanted: &Wanted,
) -> Result<Vec<NodeRef<'a>>, AllocError>
    requires known { AreRight (world_at top) passwords.now }
    requires shown { AreNodes (world_at top) (shown_from (world_at top) (id_at top)) shown.now }
    ensures { let w = world_at top.entry in
        IfOk result (λ nodes. AreNodes w (found (sought_of wanted.now) w (id_at top.entry)) nodes.items) }
{
    let mut found = Vec::new(alloc);
    for node in shown {
        let fits = is_wanted(alloc, passwords, top, *node, wanted)?;
        keep_if(&mut found, *node, fits)?;
    }
    Ok(found)
}

/// Adds the node, if it fits.
fn keep_if<'a>(found: &mut Vec<NodeRef<'a>>, node: NodeRef<'a>, is: bool) -> Result<(), AllocError>
    ensures { OnOk result (found.new.items ≡ (if is then found.old.items ++ node.entry ∷ [] else found.old.items)) }
{
    if is {
        found.push(node)?;
    }
    Ok(())
}

/// Whether a node of the tree has what is searched for.
fn is_wanted(
    alloc: Global,
    passwords: &Passwords,
    top: NodeRef,
    node: NodeRef,
    wanted: &Wanted,
) -> Result<bool, AllocError>
    requires world { world_at node ≡ world_at top }
    requires known { AreRight (world_at top) passwords.now }
    ensures { IfOk result (λ is. is ≡ is_wanted (sought_of wanted.now) (world_at top.entry) (id_at node.entry)) }
{
    if !has_role(node, wanted) {
        return Ok(false);
    }
    has_texts(alloc, passwords, node, wanted)
}

/// The nodes that the common filter shows, from the top on.
fn shown_nodes<'a>(alloc: Global, top: NodeRef<'a>) -> Result<Vec<NodeRef<'a>>, AllocError>
    ensures { let w = world_at top.entry in IfOk result (λ nodes. AreNodes w (shown_from w (id_at top.entry)) nodes.items) }
{
    let free = Free::below(alloc, top)?;
    let below = nodes_below(alloc, &free, top)?;
    with_top(below, top, free.answer(&top))
}

/// These nodes, after the top if the filter's answer for it includes it.
fn with_top<'a>(
    mut nodes: Vec<NodeRef<'a>>,
    top: NodeRef<'a>,
    answer: FilterResult,
) -> Result<Vec<NodeRef<'a>>, AllocError>
    ensures { IfOk result (λ all. all.items ≡ (if is_included answer then top.entry ∷ nodes.entry.items else nodes.entry.items)) }
{
    if answer == FilterResult::Include {
        nodes.insert(0, top)?;
    }
    Ok(nodes)
}

/// The nodes that the common filter shows below the top.
fn nodes_below<'a>(
    alloc: Global,
    free: &Free,
    top: NodeRef<'a>,
) -> Result<Vec<NodeRef<'a>>, AllocError>
    requires { AreFree (world_at top) free.now }
    ensures { let w = world_at top.entry in
        IfOk result (λ nodes. AreNodes w (filtered_descendants (common w) w (id_at top.entry)) nodes.items) }
{
    let shown = |node: &NodeRef<'_>| free.answer(node);
    nodes_of(alloc, top.filtered_descendants(shown))
}

/// The nodes of a walk, in order.
fn nodes_of<'a, W: Iterator<Item = NodeRef<'a>> + Drop>(
    alloc: Global,
    walk: W,
) -> Result<Vec<NodeRef<'a>>, AllocError>
    requires can { W.can_next walk }
    requires ends { IsFinite (W.remaining walk) }
    ensures { IfOk result (λ nodes. Drains W.next_gives walk nodes.items) }
{
    let mut nodes = Vec::new(alloc);
    for node in walk {
        nodes.push(node)?;
    }
    Ok(nodes)
}

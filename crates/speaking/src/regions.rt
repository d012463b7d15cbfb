//! What is said of live regions at the end of a step: a line for each region in which something is new.
ghost use Rattle.std.specs.Prelude.{◌≡◌, [], All, IfOk, OnOk, map, option_copied, string_bytes};
ghost use Rattle.std.specs.List.{fold};
ghost use Rattle.model.specs.Lists.{preorder};
ghost use Rattle.model.specs.Upward.{says};
ghost use Rattle.views.specs.Nodes.{world_at, id_at};
ghost use Rattle.views.specs.Descendants.{descendants};
ghost use Rattle.views.specs.PlainWalks.{node_in, node_of};
ghost use Rattle.views.specs.ShownWorlds.{world_of};
ghost use Rattle.speaking.specs.Above.{above_of, region_of, AreRight};
ghost use Rattle.speaking.specs.Regions.{AreViews, is_gap, needs_space, spaced, with_part, is_in, is_part, part_at, with_node, sentence, region_said, said_at, news_said};

use crate::above::{Above, look_up};
use crate::live::{is_space, told_text};
use crate::news::News;
use accesskit_consumer::{FullNodeId, NodeRef, StateRef};
use model::is_same;
use phrases::{Voice, news};
use std::alloc::{AllocError, Global};
use std::collections::BTreeMap;

/// What is known of the nodes of a state.
type Known = BTreeMap<FullNodeId, Above>;

/// All nodes below a node, in the order of the document.
fn nodes_below<'a>(alloc: Global, top: NodeRef<'a>) -> Result<Vec<NodeRef<'a>>, AllocError>
    ensures { let w = world_at top.entry in
        IfOk result (λ nodes. map node_of nodes.items ≡ map (node_in w) (descendants w (id_at top.entry))) }
{
    let nodes: Vec<NodeRef<'a>> = top.descendants().collect(alloc)?;
    Ok(nodes)
}

/// A node and all below it, in the order of the document.
fn nodes_from<'a>(alloc: Global, top: NodeRef<'a>) -> Result<Vec<NodeRef<'a>>, AllocError>
    ensures { let w = world_at top.entry in
        IfOk result (λ nodes. AreViews w (preorder w (id_at top.entry)) nodes.items) }
{
    let mut nodes = nodes_below(alloc, top)?;
    nodes.insert(0, top)?;
    Ok(nodes)
}

/// Whether no space has to be put beside this byte: it is a space itself, or it is missing.
fn is_gap(byte: Option<&u8>) -> bool
    ensures { result ≡ is_gap (option_copied byte.entry) }
{
    match byte {
        Some(byte) => is_space(*byte),
        None => true,
    }
}

/// Whether a space has to be put between these texts.
fn needs_space(text: &str, part: &str) -> bool
    ensures { result ≡ needs_space text.now part.now }
{
    !is_gap(text.as_bytes().last()) && !is_gap(part.as_bytes().first())
}

/// Adds a space to a text, if one is needed before this part.
fn add_space(text: &mut String, part: &str) -> Result<(), AllocError>
    ensures { OnOk result (string_bytes text.new ≡ spaced (string_bytes text.old) part.now) }
{
    if needs_space(text.as_str(), part) {
        return text.push(' ');
    }
    Ok(())
}

/// Adds a part to a text, if there is one, after a space if one is needed.
fn add_part(text: &mut String, part: Option<&str>) -> Result<(), AllocError>
    ensures { OnOk result (string_bytes text.new ≡ with_part (string_bytes text.old) (option_copied part.entry)) }
{
    let Some(part) = part else {
        return Ok(());
    };
    add_space(text, part)?;
    text.push_str(part)
}

/// Whether a node's own region is this one.
fn is_in(own: Option<FullNodeId>, region: FullNodeId) -> bool
    ensures { result ≡ is_in own region }
{
    match own {
        Some(own) => is_same(own, region),
        None => false,
    }
}

/// Whether the node is said in the sentence of its region: if its text is new, or the region is said as a whole.
#[tactic(auto, using(views::proofs::Climbing::says_shown))]
fn is_part(region: NodeRef, noted: &News, node: NodeRef, above: Above) -> bool
    ensures { let w = world_at region.entry in let id = id_at node.entry in
        above.region ≡ region_of w id → result ≡ is_part w noted.now (id_at region.entry) id }
{
    is_in(above.region, region.id()) && (region.data().is_live_atomic() || noted.has(node.id()))
}

/// The text that the node says in the sentence of a region.
#[tactic(auto, using(views::proofs::Climbing::data_shown))]
fn part_of<'a>(region: NodeRef, noted: &News, node: NodeRef<'a>, above: Above) -> Option<&'a str>
    requires { world_at region ≡ world_at node }
    ensures { let w = world_at node.entry in let id = id_at node.entry in
        above ≡ above_of w id → option_copied result ≡ part_at w noted.now (id_at region.entry) id }
{
    if !is_part(region, noted, node, above) {
        return None;
    }
    told_text(node, above)
}

/// Adds what the node says in the sentence of a region.
fn add_node(
    alloc: Global,
    known: &mut Known,
    region: NodeRef,
    noted: &News,
    text: &mut String,
    node: NodeRef,
) -> Result<(), AllocError>
    requires { world_at region ≡ world_at node }
    ensures text { let w = world_at node.entry in
        AreRight w known.old → OnOk result (string_bytes text.new
        ≡ with_node w noted.now (id_at region.entry) (string_bytes text.old) (id_at node.entry)) }
    ensures known { let w = world_at node.entry in AreRight w known.old → OnOk result (AreRight w known.new) }
{
    let above = look_up(alloc, known, node)?;
    add_part(text, part_of(region, noted, node, above))
}

/// What these nodes say in the sentence of a region.
fn sentence_of(
    alloc: Global,
    known: &mut Known,
    region: NodeRef,
    noted: &News,
    nodes: &[NodeRef],
) -> Result<String, AllocError>
    requires { All (λ node. world_at node ≡ world_at region) nodes.now }
    ensures { let w = world_at region.entry in let id = id_at region.entry in AreRight w known.old →
        IfOk result (λ text. (string_bytes text ≡ fold (with_node w noted.now id) [] (map id_at nodes.now)) × AreRight w known.new) }
{
    let mut text = String::new(alloc);
    for node in nodes {
        add_node(alloc, known, region, noted, &mut text, *node)?;
    }
    Ok(text)
}

/// The sentence of a region.
fn sentence(
    alloc: Global,
    known: &mut Known,
    region: NodeRef,
    noted: &News,
) -> Result<String, AllocError>
    ensures { let w = world_at region.entry in let id = id_at region.entry in AreRight w known.old →
        IfOk result (λ text. (string_bytes text ≡ sentence w noted.now id) × AreRight w known.new) }
{
    let nodes = nodes_from(alloc, region)?;
    sentence_of(alloc, known, region, noted, &nodes)
}

/// Says the sentence of a region.
fn say_region(
    alloc: Global,
    voice: &mut Voice,
    known: &mut Known,
    region: NodeRef,
    noted: &News,
) -> Result<(), AllocError>
    ensures says { let w = world_at region.entry in
        AreRight w known.old → OnOk result (voice.new ≡ region_said w noted.now (id_at region.entry) voice.old) }
    ensures known { let w = world_at region.entry in AreRight w known.old → OnOk result (AreRight w known.new) }
{
    let above = look_up(alloc, known, region)?;
    let text = sentence(alloc, known, region, noted)?;
    voice.tell(above.live, news(None, Some(text.as_str())))
}

/// Says the sentence of a node, if it is a region in which anything is new.
fn say_at(
    alloc: Global,
    voice: &mut Voice,
    known: &mut Known,
    node: NodeRef,
    noted: &News,
) -> Result<(), AllocError>
    ensures says { let w = world_at node.entry in
        AreRight w known.old → OnOk result (voice.new ≡ said_at w noted.now voice.old (id_at node.entry)) }
    ensures known { let w = world_at node.entry in AreRight w known.old → OnOk result (AreRight w known.new) }
{
    if !noted.is_in(node.id()) {
        return Ok(());
    }
    say_region(alloc, voice, known, node, noted)
}

/// Says the sentences of those of these nodes that are regions in which anything is new.
fn say_each(
    alloc: Global,
    voice: &mut Voice,
    state: StateRef,
    noted: &News,
    nodes: &[NodeRef],
) -> Result<(), AllocError>
    requires { All (λ node. world_at node ≡ world_of state) nodes.now }
    ensures { let w = world_of state.entry in
        OnOk result (voice.new ≡ fold (said_at w noted.now) voice.old (map id_at nodes.now)) }
{
    let mut known = BTreeMap::new(alloc);
    for node in nodes {
        say_at(alloc, voice, &mut known, *node, noted)?;
    }
    Ok(())
}

/// Says the sentences of the regions in which anything is new.
fn say_regions(
    alloc: Global,
    voice: &mut Voice,
    state: StateRef,
    noted: &News,
) -> Result<(), AllocError>
    ensures { OnOk result (voice.new ≡ news_said (world_of state.entry) noted.now voice.old) }
{
    let nodes = nodes_from(alloc, state.root())?;
    say_each(alloc, voice, state, noted, &nodes)
}

/// Says what is new in live regions: a line for each region, in the order of the document.
///
/// # Errors
///
/// Returns `AllocError` if memory runs out.
pub(crate) fn say_news(
    alloc: Global,
    voice: &mut Voice,
    state: StateRef,
    noted: &News,
) -> Result<(), AllocError>
    ensures { OnOk result (voice.new ≡ news_said (world_of state.entry) noted.now voice.old) }
{
    if noted.is_empty() {
        return Ok(());
    }
    say_regions(alloc, voice, state, noted)
}

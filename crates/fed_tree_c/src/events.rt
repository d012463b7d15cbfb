//! The exports that return what the last lines changed.
ghost use Rattle.std.specs.Prelude.{◌≡◌, option_map};
ghost use Rattle.fed_tree_c.specs.Answers.{Answers};
ghost use Rattle.fed_tree_c.specs.Questions.{event_at, event_count, lack_of_event};
ghost use Rattle.fed_tree_c.specs.Records.{event_of, kind_number, node_or_zero, tree_or_zero};

use crate::handle::Handle;
use crate::records::{AkEvent, CLOSED, DONE, LOST, NOTHING};
use fed_tree::{Event, EventKind, FedTree};
use model::FullNodeId;
use std::alloc::Global;

/// The number of what has happened.
fn kind_number(kind: EventKind) -> u8
    ensures { result ≡ kind_number kind }
{
    match kind {
        EventKind::Added => 0,
        EventKind::Updated => 1,
        EventKind::Removed => 2,
        EventKind::FocusMoved => 3,
    }
}

/// The node's number in its tree; 0 where there is no node.
fn node_or_zero(id: Option<FullNodeId>) -> u64
    ensures { result ≡ node_or_zero id }
{
    match id {
        Some(id) => id.node.0,
        None => 0,
    }
}

/// The index of the node's tree; 0 where there is no node.
fn tree_or_zero(id: Option<FullNodeId>) -> u32
    ensures { result ≡ tree_or_zero id }
{
    match id {
        Some(id) => id.tree,
        None => 0,
    }
}

/// The event, as C sees it.
fn event_of(event: Event) -> AkEvent
    ensures { result ≡ event_of event }
{
    AkEvent {
        old_node: node_or_zero(event.old),
        new_node: node_or_zero(event.new),
        old_tree: tree_or_zero(event.old),
        new_tree: tree_or_zero(event.new),
        kind: kind_number(event.kind),
        has_old: event.old.is_some(),
        has_new: event.new.is_some(),
    }
}

/// The event with this index.
fn event_at(fed: &FedTree, index: usize) -> Option<AkEvent>
    ensures { result ≡ event_at index fed.now }
{
    let event = fed.events()?.get(index)?;
    Some(event_of(*event))
}

/// How many events the last lines had.
#[unsafe(no_mangle)]
pub extern "C" fn ak_tree_event_count(alloc: Global, tree: &mut Handle, count: &mut usize) -> u8
    ensures kept { tree.new.block.fed ≡ tree.old.block.fed }
    ensures answer { Answers tree.old.block.fed lack_of_event event_count result count.old count.new }
{
    let taken = tree.take(alloc);
    let status = match &taken {
        Some(fed) => match fed.events() {
            Some(events) => {
                *count = events.len();
                DONE
            }
            None => LOST,
        },
        None => CLOSED,
    };
    tree.put(alloc, taken);
    status
}

/// The answer where there is no event with an index: there are fewer, or they are lost.
fn lack_of_event(fed: &FedTree) -> u8
    ensures { result ≡ lack_of_event fed.now }
{
    if fed.events().is_some() {
        NOTHING
    } else {
        LOST
    }
}

/// The event with this index, counted from 0.
#[unsafe(no_mangle)]
pub extern "C" fn ak_tree_event(
    alloc: Global,
    tree: &mut Handle,
    index: usize,
    event: &mut AkEvent,
) -> u8
    ensures kept { tree.new.block.fed ≡ tree.old.block.fed }
    ensures answer { Answers tree.old.block.fed lack_of_event (event_at index) result event.old event.new }
{
    let taken = tree.take(alloc);
    let status = match &taken {
        Some(fed) => match event_at(fed, index) {
            Some(found) => {
                *event = found;
                DONE
            }
            None => lack_of_event(fed),
        },
        None => CLOSED,
    };
    tree.put(alloc, taken);
    status
}

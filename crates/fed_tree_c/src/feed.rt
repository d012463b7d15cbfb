//! The export that feeds lines, and what it reports of lines that weren't carried out to their end.
ghost use Rattle.std.specs.Prelude.{◌≡◌};
ghost use Rattle.schema.specs.TreeIds.{root_tree_id};
ghost use Rattle.fed_tree_c.specs.Stops.{FeedsHeld, node_named, rule_number, status_of, stop_of, tree_named};

use crate::handle::Handle;
use crate::records::{AkStop, BAD_LINE, CLOSED, DONE, NO_MEMORY, REFUSED};
use fed_tree::FeedError;
use schema::TreeId;
use std::alloc::Global;
use tree_changes::UpdateError;

/// The number of the rule that a refused update breaks, counted from 1 in the order of `UpdateError`; 0 for lack of memory.
fn rule_number(why: UpdateError) -> u8
    ensures { result ≡ rule_number why }
{
    match why {
        UpdateError::Memory => 0,
        UpdateError::MissingTreeInfo => 1,
        UpdateError::NotRootTree => 2,
        UpdateError::MissingData(_) => 3,
        UpdateError::NotReached(_) => 4,
        UpdateError::NamedTwice(_) => 5,
        UpdateError::ListedTwice(_) => 6,
        UpdateError::RootTreeGrafted(_) => 7,
        UpdateError::GraftWithChildren(_) => 8,
        UpdateError::GraftedTwice(_) => 9,
        UpdateError::NoGraft(_) => 10,
        UpdateError::NoFirstTreeInfo(_) => 11,
        UpdateError::FocusMissing(_) => 12,
        UpdateError::FocusOnEmptyGraft(_) => 13,
        UpdateError::IndexesUsedUp => 14,
    }
}

/// The node that a refusal names; 0 where it names none.
fn node_named(why: UpdateError) -> u64
    ensures { result ≡ node_named why }
{
    match why {
        UpdateError::MissingData(node)
        | UpdateError::NotReached(node)
        | UpdateError::NamedTwice(node)
        | UpdateError::ListedTwice(node)
        | UpdateError::RootTreeGrafted(node)
        | UpdateError::GraftWithChildren(node)
        | UpdateError::FocusMissing(node) => node.0,
        _ => 0,
    }
}

/// The bytes of the id of the tree that a refusal names; those of the root tree's where it names none.
fn tree_named(why: UpdateError) -> [u8; 16]
    ensures { result ≡ tree_named why }
{
    match why {
        UpdateError::GraftedTwice(tree)
        | UpdateError::NoGraft(tree)
        | UpdateError::NoFirstTreeInfo(tree)
        | UpdateError::FocusOnEmptyGraft(tree) => tree.0.into_bytes(),
        _ => TreeId::root().0.into_bytes(),
    }
}

/// The number of the answer to lines that were fed.
pub(crate) fn status_of(fed: &Result<(), FeedError>) -> u8
    ensures { result ≡ status_of fed.now }
{
    match fed {
        Ok(()) => DONE,
        Err(FeedError::BadLine(_)) => BAD_LINE,
        Err(FeedError::Refused { .. }) => REFUSED,
        Err(FeedError::Memory { .. }) => NO_MEMORY,
    }
}

/// Where and why lines weren't carried out to their end.
pub(crate) fn stop_of(fed: &Result<(), FeedError>) -> AkStop
    ensures { result ≡ stop_of fed.now }
{
    match fed {
        Ok(()) => stopped(0, 0),
        Err(FeedError::BadLine(number)) => stopped(*number, 0),
        Err(FeedError::Refused { done, why }) => AkStop {
            line: 0,
            done: *done as u64,
            node: node_named(*why),
            tree_id: tree_named(*why),
            rule: rule_number(*why),
        },
        Err(FeedError::Memory { done }) => stopped(0, *done as u64),
    }
}

/// A stop without a refusal.
fn stopped(line: u64, done: u64) -> AkStop
    ensures { result ≡ record { line = line; done = done; node = 0; tree_id = root_tree_id.0; rule = 0 } }
{
    AkStop {
        line,
        done,
        node: 0,
        tree_id: TreeId::root().0.into_bytes(),
        rule: 0,
    }
}

/// Feeds whole commands: updates up to their `end`, and `host on` and `host off`.
#[tactic(auto, using(crate::proofs::Asked::fed_held))]
#[unsafe(no_mangle)]
pub extern "C" fn ak_tree_feed(
    alloc: Global,
    tree: &mut Handle,
    lines: &[u8],
    stop: &mut AkStop,
) -> u8
    ensures { FeedsHeld tree.old.block.fed lines.now tree.new.block.fed result stop.old stop.new }
{
    let mut taken = tree.take(alloc);
    let status = match &mut taken {
        Some(fed) => {
            let result = fed.feed(lines);
            *stop = stop_of(&result);
            status_of(&result)
        }
        None => CLOSED,
    };
    tree.put(alloc, taken);
    status
}

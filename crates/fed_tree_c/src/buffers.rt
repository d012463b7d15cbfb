//! Lists that go into a caller's buffer: the bytes of texts, and ids.
ghost use Rattle.std.specs.Prelude.{◌≡◌, ◌⊎◌, IfOk, MatchResult, option_copied, option_map, string_bytes, map};
ghost use Rattle.fed_tree_c.specs.Answers.{GivesList, IsNoMemory, filled, lack_where};
ghost use Rattle.fed_tree_c.specs.Records.{id_of};

use crate::found::lack_where;
use crate::records::{AkId, DONE, NO_MEMORY, id_of};
use fed_tree::FedTree;
use model::FullNodeId;
use std::alloc::{AllocError, Global};

/// Copies as much of the list as there is room for to the front of the buffer.
pub(crate) fn fill<T: Copy>(buffer: &mut [T], list: &[T])
    ensures { buffer.new ≡ filled buffer.old list.now }
{
    let room = buffer.len().min(list.len());
    buffer[..room].copy_from_slice(&list[..room]);
}

/// Writes a text of the node, if there is one and memory sufficed for it. `is_known` says whether the number by which it was asked about
/// means something.
pub(crate) fn give_text_at(
    fed: &FedTree,
    id: FullNodeId,
    is_known: bool,
    text: Result<Option<String>, AllocError>,
    buffer: &mut [u8],
    length: &mut usize,
) -> u8
    ensures { MatchResult text (λ found.
        GivesList (lack_where is_known id fed.now) (option_map string_bytes found) result buffer.old buffer.new length.old length.new)
        (λ wanting. IsNoMemory result buffer.old buffer.new length.old length.new) }
{
    match text {
        Ok(Some(text)) => {
            fill(buffer, text.as_bytes());
            *length = text.len();
            DONE
        }
        Ok(None) => lack_where(fed, id, is_known),
        Err(_) => NO_MEMORY,
    }
}

/// The ids, as C sees them.
fn ids_of(alloc: Global, ids: &[FullNodeId]) -> Result<Vec<AkId>, AllocError>
    ensures { IfOk result (λ seen. seen.items ≡ map id_of ids.now) }
{
    let mut seen = Vec::new(alloc);
    for id in ids {
        seen.push(id_of(*id))?;
    }
    Ok(seen)
}

/// Writes ids of nodes, if there are some and memory sufficed for them. `is_known` says whether the number by which they were asked for
/// means something.
pub(crate) fn give_ids_at(
    alloc: Global,
    fed: &FedTree,
    id: FullNodeId,
    is_known: bool,
    ids: Result<Option<Vec<FullNodeId>>, AllocError>,
    buffer: &mut [AkId],
    count: &mut usize,
) -> u8
    ensures { MatchResult ids (λ found.
        GivesList (lack_where is_known id fed.now) (option_map (λ list. map id_of list.items) found)
        result buffer.old buffer.new count.old count.new
        ⊎ IsNoMemory result buffer.old buffer.new count.old count.new)
        (λ wanting. IsNoMemory result buffer.old buffer.new count.old count.new) }
{
    let Ok(found) = ids else {
        return NO_MEMORY;
    };
    let Some(found) = found else {
        return lack_where(fed, id, is_known);
    };
    let Ok(seen) = ids_of(alloc, &found) else {
        return NO_MEMORY;
    };
    fill(buffer, &seen);
    *count = seen.len();
    DONE
}

/// Writes items of the node, if there are some. `is_known` says whether the number by which they were asked for means something.
pub(crate) fn give_items_at<T: Copy>(
    fed: &FedTree,
    id: FullNodeId,
    is_known: bool,
    items: Option<&[T]>,
    buffer: &mut [T],
    count: &mut usize,
) -> u8
    ensures { GivesList (lack_where is_known id fed.now) (option_copied items.entry) result buffer.old buffer.new count.old count.new }
{
    match items {
        Some(items) => {
            fill(buffer, items);
            *count = items.len();
            DONE
        }
        None => lack_where(fed, id, is_known),
    }
}

/// Writes a list of the node, if there is one and memory sufficed for it. `is_known` says whether the number by which it was asked for
/// means something.
pub(crate) fn give_list_at<T: Copy>(
    fed: &FedTree,
    id: FullNodeId,
    is_known: bool,
    list: Result<Option<Vec<T>>, AllocError>,
    buffer: &mut [T],
    count: &mut usize,
) -> u8
    ensures { MatchResult list (λ found.
        GivesList (lack_where is_known id fed.now) (option_map (λ items. items.items) found)
        result buffer.old buffer.new count.old count.new)
        (λ wanting. IsNoMemory result buffer.old buffer.new count.old count.new) }
{
    match list {
        Ok(Some(items)) => {
            fill(buffer, &items);
            *count = items.len();
            DONE
        }
        Ok(None) => lack_where(fed, id, is_known),
        Err(_) => NO_MEMORY,
    }
}

//! The lines of what has changed between two trees.

use crate::matching::{Key, Matches, keys_of, matches_of};
use crate::rows::Row;
use std::alloc::{AllocError, Global};

/// The lines of what has changed: each node that went, and then in the new order each that came, changed or moved.
pub(crate) fn changes_of(
    alloc: Global,
    before: &[Row],
    after: &[Row],
) -> Result<Vec<u8>, AllocError> {
    let old_keys = keys_of(alloc, before)?;
    let new_keys = keys_of(alloc, after)?;
    let matches = matches_of(alloc, &old_keys, &new_keys)?;
    let mut lines = Vec::new(alloc);
    for (place, row) in before.iter().enumerate() {
        if !matches.is_taken(place) {
            add_line(&mut lines, b"- ", &row.text)?;
        }
    }
    let mut order = Order::new(alloc, after.len())?;
    for (place, row) in after.iter().enumerate() {
        let is_moved = order.note(&old_keys, &new_keys, &matches, place);
        add_row(&mut lines, before, row, matches.old_of(place), is_moved)?;
    }
    Ok(lines)
}

/// Adds what is said of a new row: that it came, that it changed or that it moved.
fn add_row(
    lines: &mut Vec<u8>,
    before: &[Row],
    row: &Row,
    old: Option<usize>,
    is_moved: bool,
) -> Result<(), AllocError> {
    let old = match old {
        Some(place) => before.get(place),
        None => None,
    };
    let Some(old) = old else {
        return add_line(lines, b"+ ", &row.text);
    };
    if is_moved {
        add_line(lines, b"> ", &row.text)?;
    }
    if shown_part(&old.text) == shown_part(&row.text) {
        return Ok(());
    }
    lines.extend_from_slice(b"~ ")?;
    lines.extend_from_slice(&old.text)?;
    add_line(lines, b" => ", shown_part(&row.text))
}

/// Adds a line: a sign and a text.
fn add_line(lines: &mut Vec<u8>, sign: &[u8], text: &[u8]) -> Result<(), AllocError> {
    lines.extend_from_slice(sign)?;
    lines.extend_from_slice(text)?;
    lines.extend_from_slice(b"\n")
}

/// The text without the spaces before it.
fn shown_part(text: &[u8]) -> &[u8] {
    match text.iter().position(|byte| *byte != b' ') {
        Some(start) => &text[start..],
        None => text,
    }
}

/// The last old row of those that are taken for the rows below each new one, and for those without a parent.
#[derive(Drop)]
struct Order {
    last_below: Vec<Option<usize>>,
    last_top: Option<usize>,
}

impl Order {
    fn new(alloc: Global, count: usize) -> Result<Order, AllocError> {
        let mut last_below = Vec::new(alloc);
        for _ in 0..count {
            last_below.push(None)?;
        }
        Ok(Order {
            last_below,
            last_top: None,
        })
    }

    /// Whether the old row of a new one is below another parent, or comes before one that was noted below the same parent. Otherwise it is
    /// noted.
    fn note(&mut self, old: &[Key], new: &[Key], matches: &Matches, place: usize) -> bool {
        let Some(old_place) = matches.old_of(place) else {
            return false;
        };
        let parent = parent_at(new, place);
        if !is_same_parent(parent_at(old, old_place), parent, matches) {
            return true;
        }
        if comes_before(old_place, self.last_of(parent)) {
            return true;
        }
        self.set_last(parent, old_place);
        false
    }

    /// The last old row that was noted below a parent.
    fn last_of(&self, parent: Option<usize>) -> Option<usize> {
        let Some(parent) = parent else {
            return self.last_top;
        };
        match self.last_below.get(parent) {
            Some(last) => *last,
            None => None,
        }
    }

    /// Notes the last old row below a parent.
    fn set_last(&mut self, parent: Option<usize>, place: usize) {
        let Some(parent) = parent else {
            self.last_top = Some(place);
            return;
        };
        if let Some(last) = self.last_below.get_mut(parent) {
            *last = Some(place);
        }
    }
}

/// Whether a row comes before the last one, if there is one.
fn comes_before(place: usize, last: Option<usize>) -> bool {
    match last {
        Some(last) => place < last,
        None => false,
    }
}

/// The parent of the row at a place.
fn parent_at(keys: &[Key], place: usize) -> Option<usize> {
    match keys.get(place) {
        Some(key) => key.parent,
        None => None,
    }
}

/// Whether the old parent is taken for the new one, or there is neither.
fn is_same_parent(old: Option<usize>, new: Option<usize>, matches: &Matches) -> bool {
    match new {
        Some(new) => old.is_some() && old == matches.old_of(new),
        None => old.is_none(),
    }
}

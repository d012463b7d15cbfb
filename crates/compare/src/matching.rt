//! Which nodes of two trees are taken for the same: those with the same author id, and else those with the same role and label, or the
//! same role, at the first such place under parents that are.

use crate::rows::Row;
use accesskit_consumer::filters::common_filter;
use accesskit_consumer::node::FullNodeId;
use hidden_texts::shown_label;
use schema::Role;
use std::alloc::{AllocError, Global};
use std::collections::BTreeMap;

/// What a row is matched by.
#[derive(Drop)]
pub(crate) struct Key<'a> {
    author: Option<&'a str>,
    role: Role,
    label: Option<String>,
    /// The row of the nearest node above that has a row.
    pub parent: Option<usize>,
    /// The rows whose parent this is, in order.
    children: Vec<usize>,
}

/// How two rows may fit.
#[derive(Clone, Copy, PartialEq, Eq)]
enum By {
    /// Both have the same author id.
    Author,
    /// Neither has one, and both have the same role and label.
    Label,
    /// Neither has one, and both have the same role.
    Role,
}

/// Which rows are taken for the same: for each new row an old one.
#[derive(Drop)]
pub(crate) struct Matches {
    /// The old row of each new row.
    pub old_of: Vec<Option<usize>>,
    /// Whether each old row is that of a new one.
    pub is_taken: Vec<bool>,
}

impl Matches {
    /// Nothing matches so far.
    fn none(alloc: Global, old: usize, new: usize) -> Result<Matches, AllocError> {
        let mut matches = Matches {
            old_of: Vec::new(alloc),
            is_taken: Vec::new(alloc),
        };
        for _ in 0..new {
            matches.old_of.push(None)?;
        }
        for _ in 0..old {
            matches.is_taken.push(false)?;
        }
        Ok(matches)
    }

    /// The old row of a new one.
    pub(crate) fn old_of(&self, new: usize) -> Option<usize> {
        match self.old_of.get(new) {
            Some(old) => *old,
            None => None,
        }
    }

    /// Whether an old row is that of a new one.
    pub(crate) fn is_taken(&self, old: usize) -> bool {
        match self.is_taken.get(old) {
            Some(is_taken) => *is_taken,
            None => true,
        }
    }

    /// Takes an old row for a new one.
    fn take(&mut self, old: usize, new: usize) {
        if let Some(place) = self.old_of.get_mut(new) {
            *place = Some(old);
        }
        if let Some(is_taken) = self.is_taken.get_mut(old) {
            *is_taken = true;
        }
    }
}

/// What each row is matched by.
pub(crate) fn keys_of<'a>(alloc: Global, rows: &[Row<'a>]) -> Result<Vec<Key<'a>>, AllocError> {
    let mut places = BTreeMap::new(alloc);
    for (place, row) in rows.iter().enumerate() {
        places.insert(row.node.id(), place)?;
    }
    let mut keys = Vec::new(alloc);
    for row in rows {
        keys.push(key_of(alloc, row, &places)?)?;
    }
    list_children(&mut keys)?;
    Ok(keys)
}

/// What a row is matched by, without its children.
fn key_of<'a>(
    alloc: Global,
    row: &Row<'a>,
    places: &BTreeMap<FullNodeId, usize>,
) -> Result<Key<'a>, AllocError> {
    let parent = match row.node.filtered_parent(&common_filter) {
        Some(parent) => places.get(&parent.id()).copied(),
        None => None,
    };
    Ok(Key {
        author: row.node.author_id(),
        role: row.node.role(),
        label: shown_label(alloc, &row.node)?,
        parent,
        children: Vec::new(alloc),
    })
}

/// Lists each row below its parent.
fn list_children(keys: &mut Vec<Key<'_>>) -> Result<(), AllocError> {
    for place in 0..keys.len() {
        let parent = match keys.get(place) {
            Some(key) => key.parent,
            None => None,
        };
        if let Some(parent) = parent {
            add_child(keys, parent, place)?;
        }
    }
    Ok(())
}

/// Lists a row below a parent.
fn add_child(keys: &mut Vec<Key<'_>>, parent: usize, place: usize) -> Result<(), AllocError> {
    if let Some(key) = keys.get_mut(parent) {
        key.children.push(place)?;
    }
    Ok(())
}

/// Whether two rows fit.
fn fits(old: &Key, new: &Key, by: By) -> bool {
    match (by, old.author, new.author) {
        (By::Author, Some(one), Some(other)) => one == other,
        (By::Label, None, None) => old.role == new.role && is_same_text(&old.label, &new.label),
        (By::Role, None, None) => old.role == new.role,
        _ => false,
    }
}

/// Whether two texts are one, or there is neither.
fn is_same_text(one: &Option<String>, other: &Option<String>) -> bool {
    match (one, other) {
        (Some(one), Some(other)) => one.as_str() == other.as_str(),
        (None, None) => true,
        (Some(_), None) | (None, Some(_)) => false,
    }
}

/// Takes the old rows that fit for new ones.
pub(crate) fn matches_of(alloc: Global, old: &[Key], new: &[Key]) -> Result<Matches, AllocError> {
    let mut matches = Matches::none(alloc, old.len(), new.len())?;
    let old_ones = with_author(alloc, old)?;
    let new_ones = with_author(alloc, new)?;
    match_by(old, &old_ones, new, &new_ones, By::Author, &mut matches);
    let old_tops = tops_of(alloc, old)?;
    let new_tops = tops_of(alloc, new)?;
    match_group(old, &old_tops, new, &new_tops, &mut matches);
    for (place, key) in new.iter().enumerate() {
        if let Some(parent) = parent_in(old, &matches, place) {
            match_group(old, &parent.children, new, &key.children, &mut matches);
        }
    }
    Ok(matches)
}

/// The old row that is taken for a new one.
fn parent_in<'k, 'a>(old: &'k [Key<'a>], matches: &Matches, new: usize) -> Option<&'k Key<'a>> {
    match matches.old_of(new) {
        Some(place) => old.get(place),
        None => None,
    }
}

/// The places of the rows with an author id.
fn with_author(alloc: Global, keys: &[Key]) -> Result<Vec<usize>, AllocError> {
    let mut places = Vec::new(alloc);
    for (place, key) in keys.iter().enumerate() {
        if key.author.is_some() {
            places.push(place)?;
        }
    }
    Ok(places)
}

/// The places of the rows without a parent.
fn tops_of(alloc: Global, keys: &[Key]) -> Result<Vec<usize>, AllocError> {
    let mut places = Vec::new(alloc);
    for (place, key) in keys.iter().enumerate() {
        if key.parent.is_none() {
            places.push(place)?;
        }
    }
    Ok(places)
}

/// Takes the old rows of a group that fit for the new ones of a group, first by their labels.
fn match_group(
    old: &[Key],
    old_ones: &[usize],
    new: &[Key],
    new_ones: &[usize],
    matches: &mut Matches,
) {
    match_by(old, old_ones, new, new_ones, By::Label, matches);
    match_by(old, old_ones, new, new_ones, By::Role, matches);
}

/// Takes for each of these new rows the first of these old ones that fits. Each search begins after the last one that was taken, so
/// that rows in the same order cost one look each.
fn match_by(
    old: &[Key],
    old_ones: &[usize],
    new: &[Key],
    new_ones: &[usize],
    by: By,
    matches: &mut Matches,
) {
    let mut start = 0;
    for place in new_ones {
        if matches.old_of(*place).is_some() {
            continue;
        }
        let Some(key) = new.get(*place) else {
            continue;
        };
        let found = first_fit(old, old_ones, start, old_ones.len(), key, by, matches);
        let found = match found {
            Some(found) => Some(found),
            None => first_fit(old, old_ones, 0, start, key, by, matches),
        };
        if let Some((index, old_place)) = found {
            matches.take(old_place, *place);
            start = index.saturating_add(1);
        }
    }
}

/// The first of these old rows, from an index to another one, that isn't taken and fits, with its index.
fn first_fit(
    old: &[Key],
    old_ones: &[usize],
    from: usize,
    to: usize,
    new: &Key,
    by: By,
    matches: &Matches,
) -> Option<(usize, usize)> {
    for index in from..to {
        let Some(place) = old_ones.get(index) else {
            return None;
        };
        if !matches.is_taken(*place) && fits_at(old, *place, new, by) {
            return Some((index, *place));
        }
    }
    None
}

/// Whether the old row at a place fits.
fn fits_at(old: &[Key], place: usize, new: &Key, by: By) -> bool {
    match old.get(place) {
        Some(key) => fits(key, new, by),
        None => false,
    }
}

//! The rarer texts of a node: a list with an entry for each text that is set, so that a node without them stays small.

ghost use Rattle.std.specs.Prelude.{◌≡◌, ◌++◌, [], ◌∷◌, not, filter, map, None, Some, OnOk, OnErr, IfOk, option_map, option_copied, string_bytes, vec_len, vec_capacity, ◌≤◌};
ghost use Rattle.std.specs.List.{find};
ghost use Rattle.schema.specs.RareTexts.{is_under, text_under, entry_seen, IsSetUnder};

use std::alloc::{AllocError, Global};
use std::marker::Model;

/// The key of a rarer text.
#[derive(Clone, Copy, PartialEq, Eq)]
pub(crate) enum RareText {
    Description,
    RoleDescription,
    Placeholder,
    Url,
    AuthorId,
    HtmlId,
    ClassName,
    BrailleLabel,
    BrailleRoleDescription,
    ColumnIndexText,
    RowIndexText,
    FontFamily,
    Language,
}

/// The rarer texts of a node.
#[derive(Drop)]
pub(crate) struct RareTexts {
    entries: Vec<(RareText, String)>,
}

impl Model for RareTexts {
    ghost use Rattle.std.specs.Prelude.{ℕ, List, map};
    ghost use Rattle.schema.specs.declared.rare_texts.RareText.{RareText};
    ghost use Rattle.schema.specs.RareTexts.{entry_seen};

    ghost Value = { List (RareText × List ℕ) };

    ghost view = { λ a. map entry_seen a.entries.items };
}

impl RareTexts {
    /// None of the texts.
    pub(crate) fn new(alloc: Global) -> RareTexts
        ensures { result ≡ [] }
    {
        RareTexts {
            entries: Vec::new(alloc),
        }
    }

    /// One of the texts.
    pub(crate) fn get(&self, key: RareText) -> Option<&str>
        ensures { option_copied result ≡ text_under key self.now }
    {
        entry_of(self.entries.as_slice(), key)
    }

    /// Sets one of the texts.
    pub(crate) fn set(&mut self, key: RareText, text: String) -> Result<(), AllocError>
        ensures ok { OnOk result (IsSetUnder key (Some (string_bytes text)) self.old self.new) }
        ensures err { OnErr result (self.new ≡ self.old) }
    {
        put(&mut self.entries, key, text)?;
        Ok(())
    }

    /// Clears one of the texts.
    pub(crate) fn clear(&mut self, key: RareText)
        ensures { IsSetUnder key None self.old self.new }
    {
        take_out(&mut self.entries, key);
    }

    /// A copy of the texts.
    pub(crate) fn copy(&self, alloc: Global) -> Result<RareTexts, AllocError>
        ensures { IfOk result (λ copy. copy ≡ self.now) }
    {
        let entries = copy_of_entries(alloc, self.entries.as_slice())?;
        Ok(RareTexts { entries })
    }
}

/// The text of the first entry under the key.
fn entry_of(entries: &[(RareText, String)], key: RareText) -> Option<&str>
    ensures { option_copied result ≡ option_map (λ e. string_bytes e.1) (find (is_under key) entries.now) }
{
    entries
        .iter()
        .find(|entry| entry.0 == key)
        .map(|entry| entry.1.as_str())
}

/// Replaces the entries under the new entry's key. Memory is reserved first, so that a failed allocation changes
/// nothing.
fn put(entries: &mut Vec<(RareText, String)>, key: RareText, text: String) -> Result<(), AllocError>
    ensures ok { OnOk result (
        entries.new.items ≡ filter (λ e. not (is_under key e)) entries.old.items ++ (key, text) ∷ []
        ) }
    ensures err { OnErr result (entries.new.items ≡ entries.old.items) }
{
    entries.reserve_exact(1)?;
    take_out(entries, key);
    entries.push((key, text))?;
    Ok(())
}

/// Removes the entries under a key.
fn take_out(entries: &mut Vec<(RareText, String)>, key: RareText)
    ensures items { entries.new.items ≡ filter (λ e. not (is_under key e)) entries.old.items }
    ensures len { vec_len entries.new ≤ vec_len entries.old }
    ensures capacity { vec_capacity entries.new ≡ vec_capacity entries.old }
{
    entries.retain(|entry| entry.0 != key);
}

/// The same entries, with copies of their texts.
fn copy_of_entries(
    alloc: Global,
    entries: &[(RareText, String)],
) -> Result<Vec<(RareText, String)>, AllocError>
    ensures { IfOk result (λ copy. map entry_seen copy.items ≡ map entry_seen entries.now) }
{
    let mut copy = Vec::with_capacity(alloc, entries.len())?;
    for entry in entries {
        let text = String::from_str(alloc, entry.1.as_str())?;
        copy.push((entry.0, text))?;
    }
    Ok(copy)
}

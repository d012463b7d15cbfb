//! The roles that a name of ARIA stands for.

ghost use Rattle.std.specs.Prelude.{◌≡◌, ◌&&◌, find, option_copied, option_map};
ghost use Rattle.std.specs.List.{list_any};
ghost use Rattle.std.specs.Str.{bytes_eq, str_eq_ignore_ascii_case};
ghost use Rattle.schema.specs.Roles.{same_role};
ghost use Rattle.aria_roles.specs.Names.{aria_name, entry_of, has_aria_name, named};

use crate::table::{AriaRole, aria_roles};
use schema::Role;

/// The first of these entries that has this name, in any case.
fn named_in<'a>(table: &'a [AriaRole], word: &str) -> Option<&'a AriaRole>
    ensures { option_copied result ≡ find (λ entry. str_eq_ignore_ascii_case entry.1.now word.now) table.now }
{
    table
        .iter()
        .find(|entry| entry.1.eq_ignore_ascii_case(word))
}

/// The entry of the table that has this name, in any case.
fn named(word: &str) -> Option<&'static AriaRole>
    ensures { option_map entry_of (option_copied result) ≡ named word.now }
{
    named_in(aria_roles(), word)
}

/// The name of a role in ARIA that this word is in any case, if it is one: `textbox` of `TextBox`.
pub fn aria_name(word: &str) -> Option<&'static str>
    ensures { option_copied result ≡ aria_name word.now }
{
    match named(word) {
        Some(entry) => Some(entry.1),
        None => None,
    }
}

/// Whether the role has this name in the table.
fn has_name_in(table: &[AriaRole], role: Role, name: &str) -> bool
    ensures { result ≡ list_any (λ entry. same_role entry.0 role && bytes_eq entry.1.now name.now) table.now }
{
    table.iter().any(|entry| entry.0 == role && entry.1 == name)
}

/// Whether the role has this name in ARIA: `TextInput` and `MultilineTextInput` have the name `textbox`.
pub fn has_aria_name(role: Role, name: &str) -> bool
    ensures { result ≡ has_aria_name role name.now }
{
    has_name_in(aria_roles(), role, name)
}

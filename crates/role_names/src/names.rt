//! The name, the word and the number of a role that is sent by a number.

ghost use Rattle.std.specs.Prelude.{◌≡◌, ◌<◌, ◌==◌, Some, IfSome, length, option_map, option_copied, find};
ghost use Rattle.std.specs.Str.{bytes_eq};
ghost use Rattle.schema.specs.declared.Role.TheVariants.{Other};
ghost use Rattle.role_names.specs.Names.{entry_of, numbered, named, name_of, word_of, number_named, shown_name};

use crate::table::{OtherRole, other_roles};
use schema::Role;
use std::fmt;

/// The first of these entries with this number.
fn numbered_in(table: &[OtherRole], number: u16) -> Option<&OtherRole>
    ensures { option_copied result ≡ find (λ entry. entry.0 == number) table.now }
{
    table.iter().find(|entry| entry.0 == number)
}

/// The first of these entries with this name.
fn named_in<'a>(table: &'a [OtherRole], name: &[u8]) -> Option<&'a OtherRole>
    ensures { option_copied result ≡ find (λ entry. bytes_eq entry.1.now name.now) table.now }
{
    table.iter().find(|entry| entry.1.as_bytes() == name)
}

/// The entry of the table with this number.
fn numbered(number: u16) -> Option<&'static OtherRole>
    ensures entry { option_map entry_of (option_copied result) ≡ numbered number }
    ensures some { IfSome (option_copied result) (λ entry. 0 < length entry.2.now) }
{
    numbered_in(other_roles(), number)
}

/// The entry of the table with this name.
fn named(name: &[u8]) -> Option<&'static OtherRole>
    ensures { option_map entry_of (option_copied result) ≡ named name.now }
{
    named_in(other_roles(), name)
}

/// The name of the role that is sent as `Other` with this number, if the table has one: `Heading` of 328.
pub fn name_of(number: u16) -> Option<&'static str>
    ensures { option_copied result ≡ name_of number }
{
    match numbered(number) {
        Some(entry) => Some(entry.1),
        None => None,
    }
}

/// The word by which a screen reader says the role that is sent as `Other` with this number, if the table has one.
pub fn word_of(number: u16) -> Option<&'static str>
    ensures word { option_copied result ≡ word_of number }
    ensures some { IfSome result (λ word. 0 < length word.now) }
{
    match numbered(number) {
        Some(entry) => Some(entry.2),
        None => None,
    }
}

/// The number of the role with this name, if the table has one: 328 of `Heading`. The name is given by its bytes.
pub fn number_named(name: &[u8]) -> Option<u16>
    ensures { result ≡ number_named name.now }
{
    let (number, _, _) = named(name)?;
    Some(*number)
}

/// The role with this name, if the table has one: `Other(328)` of `Heading`. The names of the roles that have a variant of
/// their own, as `Button`, are not in the table.
pub fn other_role_named(name: &str) -> Option<Role>
    ensures { result ≡ option_map (λ number. Other number) (number_named name.now) }
{
    let number = number_named(name.as_bytes())?;
    Some(Role::Other(number))
}

/// A role, printed by its name: one that is sent by a number by its name in the table, if it has one there, and any other
/// as it prints itself, as `Button` or `Other(7)`.
#[derive(Clone, Copy)]
pub struct RoleName(pub Role);

impl fmt::Display for RoleName {
    ghost output = { λ shown. Some (shown_name shown.0) };

    fn fmt<W: fmt::Write>(&self, f: &mut fmt::Formatter<W>) -> fmt::Result {
        let role = self.0;
        if let Role::Other(number) = role
            && let Some(name) = name_of(number)
        {
            return f.write_str(name);
        }
        write!(f, "{role}")
    }
}

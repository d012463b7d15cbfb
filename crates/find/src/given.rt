//! The roles that an argument names.

ghost use Rattle.std.specs.Prelude.{◌≡◌, ◌↔◌, IfOk, Some, map, option_copied};
ghost use Rattle.line_faults.specs.Messages.{IsNearestOf};
ghost use Rattle.role_names.specs.Names.{number_named};
ghost use Rattle.schema.specs.declared.Role.{Role as ARole};
ghost use Rattle.find.specs.Given.{GivesRoles, NamesNoRole, NamesNone, sought_names};
ghost use Rattle.find.specs.Sought.{IsSought};

use crate::wanted::Roles;
use aria_roles::{aria_name, aria_roles};
use atree_script::{ArgumentError, ArgumentKind, role_named, unknown_word};
use line_text::nearest;
use role_names::{other_role_named, other_roles};
use schema::Role;
use std::alloc::{AllocError, Global};

/// The roles that this word names: one by its own name, those with this name in ARIA, or all by `any`. Or the error that it names none.
pub(crate) fn roles_given(alloc: Global, word: &str) -> Result<Roles, ArgumentError>
    ensures { GivesRoles word.now result }
{
    if word == "any" {
        return Ok(Roles::Any);
    }
    match role_sought(word) {
        Some(role) => Ok(Roles::One(role)),
        None => aria_given(alloc, word),
    }
}

/// The roles with this name in ARIA, where no role has it itself.
fn aria_given(alloc: Global, word: &str) -> Result<Roles, ArgumentError>
    requires { NamesNone word.now }
    ensures { GivesRoles word.now result }
{
    match aria_name(word) {
        Some(name) => Ok(Roles::Aria(name)),
        None => Err(no_role(alloc, word)),
    }
}

/// The role with this name: one that is sent by a number by its name, or any role as a script names it.
fn role_sought(word: &str) -> Option<Role>
    ensures { (role : ARole) → (result ≡ Some role) ↔ IsSought (number_named word.now) word.now role }
{
    match other_role_named(word) {
        Some(role) => Some(role),
        None => role_named(word),
    }
}

/// The error that no role has this name, with the nearest name of a role if one is near.
fn no_role(alloc: Global, word: &str) -> ArgumentError
    ensures { NamesNoRole word.now result }
{
    match nearest_role(alloc, word) {
        Ok(near) => unknown_word(alloc, ArgumentKind::Role, word, near),
        Err(_) => ArgumentError::Memory,
    }
}

/// The nearest name of a role, if one is near.
fn nearest_role(alloc: Global, word: &str) -> Result<Option<&'static str>, AllocError>
    ensures { IfOk result (λ near. IsNearestOf word.now sought_names (option_copied near)) }
{
    let names = names_sought(alloc)?;
    Ok(nearest(word.as_bytes(), &names))
}

/// The names of the roles, after them those of the roles that are sent by a number, and those of ARIA.
fn names_sought(alloc: Global) -> Result<Vec<&'static str>, AllocError>
    ensures { IfOk result (λ names. map (λ name. name.now) names.items ≡ sought_names) }
{
    let named = line_faults::role_names();
    let numbered = other_roles();
    let of_aria = aria_roles();
    let mut names = Vec::new(alloc);
    for name in named {
        names.push(*name)?;
    }
    for entry in numbered {
        names.push(entry.1)?;
    }
    for aria in of_aria {
        names.push(aria.1)?;
    }
    Ok(names)
}

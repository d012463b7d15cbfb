//! The export that names a role.
ghost use Rattle.std.specs.Prelude.{◌≡◌, IfOk, MatchResult, option_map, string_bytes};
ghost use Rattle.role_names.specs.Names.{shown_name};
ghost use Rattle.fed_tree_c.specs.Answers.{GivesList, IsNoMemory, NO_SUCH as NONE_SUCH};
ghost use Rattle.fed_tree_c.specs.RoleWords.{NamesRole};

use crate::buffers::fill;
use crate::numbers::role_numbered;
use crate::records::{DONE, NO_MEMORY, NO_SUCH};
use role_names::RoleName;
use schema::Role;
use std::alloc::{AllocError, Global};

/// The role's name, if there is a role.
fn name_of(alloc: Global, role: Option<Role>) -> Result<Option<String>, AllocError>
    ensures { IfOk result (λ text. option_map string_bytes text ≡ option_map shown_name role) }
{
    match role {
        Some(role) => Ok(Some(format!(in alloc; "{}", RoleName(role))?)),
        None => Ok(None),
    }
}

/// Writes the name of a role, if there is a role and memory sufficed for it.
fn give_name(text: Result<Option<String>, AllocError>, buffer: &mut [u8], length: &mut usize) -> u8
    ensures { MatchResult text (λ found. GivesList NONE_SUCH (option_map string_bytes found)
        result buffer.old buffer.new length.old length.new)
        (λ wanting. IsNoMemory result buffer.old buffer.new length.old length.new) }
{
    match text {
        Ok(Some(text)) => {
            fill(buffer, text.as_bytes());
            *length = text.len();
            DONE
        }
        Ok(None) => NO_SUCH,
        Err(_) => NO_MEMORY,
    }
}

/// The name of the role with this number, as far as there is room for it, and its length: one that is sent by a number has the name that it
/// has in the Rust crate, and `Other(7)` without one.
#[tactic(auto, using(crate::proofs::RoleWording::role_named))]
#[unsafe(no_mangle)]
pub extern "C" fn ak_role_name(
    alloc: Global,
    role: u32,
    buffer: &mut [u8],
    length: &mut usize,
) -> u8
    ensures { NamesRole role result buffer.old buffer.new length.old length.new }
{
    give_name(name_of(alloc, role_numbered(role)), buffer, length)
}

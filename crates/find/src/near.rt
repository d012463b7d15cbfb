//! What is said where no node is found: which come near.

ghost use Rattle.std.specs.Prelude.{◌≡◌, All, IfOk, OnOk, codes, map, option_copied, option_map, string_bytes};
ghost use Rattle.std.specs.Io.KnownBytes.{Appends};
ghost use Rattle.views.specs.Nodes.{world_at, id_at};
ghost use Rattle.hidden_texts.specs.Known.{AreRight};
ghost use Rattle.hidden_texts.specs.Shown.{shown_value};
ghost use Rattle.find.specs.Found.{found, shown_from};
ghost use Rattle.find.specs.Near.{hints, like_lines, near_line, near_lines, near_text, role_lines, sought_text, value_text, with_role_of, with_text_like};
ghost use Rattle.find.specs.Viewed.{AreNodes};
ghost use Rattle.find.specs.Wanted.{sought_of};

use crate::report::names::{write_in_quotes, write_name};
use crate::search::wanted_among;
use crate::sought_texts::value_shown;
use crate::wanted::{Roles, Wanted, When};
use accesskit_consumer::node::NodeRef;
use atree_script::{ShownId, Stop};
use hidden_texts::Passwords;
use matching::Matching;
use std::alloc::{AllocError, Global};
use std::io::{self, Write};

/// The text that is sought.
fn sought_text(wanted: &Wanted) -> Option<&str>
    ensures { option_copied result ≡ sought_text (sought_of wanted.now) }
{
    match (&wanted.label, &wanted.text) {
        (Some(label), _) => Some(label.as_str()),
        (None, Some(text)) => Some(text.as_str()),
        (None, None) => wanted.any.as_deref(),
    }
}

/// What has this text in any of its texts, in part and in any case, with any role.
fn with_text_like(alloc: Global, text: &str) -> Result<Wanted, AllocError>
    ensures { IfOk result (λ it. sought_of it ≡ with_text_like text.now) }
{
    let text = String::from_str(alloc, text)?;
    Ok(Wanted {
        roles: Roles::Any,
        level: None,
        label: None,
        text: None,
        any: Some(text),
        matching: Matching {
            is_part: true,
            ignores_case: true,
            is_exact: false,
        },
        any_number: false,
        when: When::AtEnd,
    })
}

/// What has the role and the level, with any texts.
fn with_role_of(wanted: &Wanted) -> Wanted
    ensures { sought_of result ≡ with_role_of (sought_of wanted.now) }
{
    Wanted {
        roles: wanted.roles,
        level: wanted.level,
        label: None,
        text: None,
        any: None,
        matching: wanted.matching,
        any_number: wanted.any_number,
        when: wanted.when,
    }
}

/// Writes a value, if there is one.
fn write_value<O: Write>(value: Option<&str>, out: &mut O) -> io::Result<()>
    ensures { OnOk result (Appends (O.contents out.old) (O.contents out.new) (value_text (option_copied value.entry))) }
{
    let Some(value) = value else {
        return Ok(());
    };
    out.write_all(b" value")?;
    write_in_quotes(Some(value), out)
}

/// Writes the node's value, if one is there and isn't hidden.
fn write_shown_value<O: Write>(alloc: Global, node: NodeRef, out: &mut O) -> Result<(), Stop>
    ensures { OnOk result (Appends (O.contents out.old) (O.contents out.new) (value_text (shown_value (world_at node.entry) (id_at node.entry)))) }
{
    let value = value_shown(alloc, node)?;
    write_value(value.as_deref(), out)?;
    Ok(())
}

/// Writes a line about a node that comes near: how, its id, its role, its label and its value.
fn write_near_line<O: Write>(
    alloc: Global,
    passwords: &Passwords,
    node: NodeRef,
    how: &str,
    out: &mut O,
) -> Result<(), Stop>
    requires { AreRight (world_at node) passwords.now }
    ensures { OnOk result (Appends (O.contents out.old) (O.contents out.new) (near_line how.now (world_at node.entry) (id_at node.entry))) }
{
    let id = ShownId(node.id());
    write!(out, "  {how}{id}")?;
    write_name(alloc, passwords, node, out)?;
    write_shown_value(alloc, node, out)?;
    out.write_all(b"\n")?;
    Ok(())
}

/// Writes a line about a node of the tree.
fn write_near<O: Write>(
    alloc: Global,
    passwords: &Passwords,
    top: NodeRef,
    node: NodeRef,
    how: &str,
    out: &mut O,
) -> Result<(), Stop>
    requires world { world_at node ≡ world_at top }
    requires known { AreRight (world_at top) passwords.now }
    ensures { OnOk result (Appends (O.contents out.old) (O.contents out.new) (near_line how.now (world_at top.entry) (id_at node.entry))) }
{
    write_near_line(alloc, passwords, node, how, out)
}

/// Writes a line about each of these nodes.
fn write_all_near<O: Write>(
    alloc: Global,
    passwords: &Passwords,
    top: NodeRef,
    nodes: &[NodeRef<'_>],
    how: &str,
    out: &mut O,
) -> Result<(), Stop>
    requires world { All (λ n. world_at n ≡ world_at top) nodes.now }
    requires known { AreRight (world_at top) passwords.now }
    ensures { OnOk result (Appends (O.contents out.old) (O.contents out.new) (near_lines how.now (world_at top.entry) (map id_at nodes.now))) }
{
    for node in nodes {
        write_near(alloc, passwords, top, *node, how, out)?;
    }
    Ok(())
}

/// Writes a line about each of the nodes shown with a text like the sought one, if one is sought.
fn write_like<O: Write>(
    alloc: Global,
    passwords: &Passwords,
    top: NodeRef,
    shown: &[NodeRef<'_>],
    text: Option<&str>,
    out: &mut O,
) -> Result<(), Stop>
    requires known { AreRight (world_at top) passwords.now }
    requires shown { AreNodes (world_at top) (shown_from (world_at top) (id_at top)) shown.now }
    ensures { OnOk result (Appends (O.contents out.old) (O.contents out.new)
        (like_lines (world_at top.entry) (id_at top.entry) (option_copied text.entry))) }
{
    let Some(text) = text else {
        return Ok(());
    };
    let wanted = with_text_like(alloc, text)?;
    write_found(alloc, passwords, top, shown, &wanted, "like ", out)
}

/// Writes a line about each of the nodes shown with the role and the level.
fn write_of_role<O: Write>(
    alloc: Global,
    passwords: &Passwords,
    top: NodeRef,
    shown: &[NodeRef<'_>],
    wanted: &Wanted,
    out: &mut O,
) -> Result<(), Stop>
    requires known { AreRight (world_at top) passwords.now }
    requires shown { AreNodes (world_at top) (shown_from (world_at top) (id_at top)) shown.now }
    ensures { let w = world_at top.entry in
        OnOk result (Appends (O.contents out.old) (O.contents out.new)
        (near_lines (codes "role ") w (found (with_role_of (sought_of wanted.now)) w (id_at top.entry)))) }
{
    let with_role = with_role_of(wanted);
    write_found(alloc, passwords, top, shown, &with_role, "role ", out)
}

/// The same, if roles are sought.
fn write_with_role<O: Write>(
    alloc: Global,
    passwords: &Passwords,
    top: NodeRef,
    shown: &[NodeRef<'_>],
    wanted: &Wanted,
    out: &mut O,
) -> Result<(), Stop>
    requires known { AreRight (world_at top) passwords.now }
    requires shown { AreNodes (world_at top) (shown_from (world_at top) (id_at top)) shown.now }
    ensures { OnOk result (Appends (O.contents out.old) (O.contents out.new)
        (role_lines wanted.now.roles (sought_of wanted.now) (world_at top.entry) (id_at top.entry))) }
{
    match wanted.roles {
        Roles::One(_) => write_of_role(alloc, passwords, top, shown, wanted, out),
        Roles::Aria(_) => write_of_role(alloc, passwords, top, shown, wanted, out),
        Roles::Any => Ok(()),
    }
}

/// Writes a line about each of the nodes shown that fits.
fn write_found<O: Write>(
    alloc: Global,
    passwords: &Passwords,
    top: NodeRef,
    shown: &[NodeRef<'_>],
    wanted: &Wanted,
    how: &str,
    out: &mut O,
) -> Result<(), Stop>
    requires known { AreRight (world_at top) passwords.now }
    requires shown { AreNodes (world_at top) (shown_from (world_at top) (id_at top)) shown.now }
    ensures { let w = world_at top.entry in
        OnOk result (Appends (O.contents out.old) (O.contents out.new) (near_lines how.now w (found (sought_of wanted.now) w (id_at top.entry)))) }
{
    let nodes = wanted_among(alloc, passwords, top, shown, wanted)?;
    write_all_near(alloc, passwords, top, &nodes, how, out)
}

/// Writes which of the nodes shown come near to what is searched for.
fn write_hints<O: Write>(
    alloc: Global,
    passwords: &Passwords,
    top: NodeRef,
    shown: &[NodeRef<'_>],
    wanted: &Wanted,
    out: &mut O,
) -> Result<(), Stop>
    requires known { AreRight (world_at top) passwords.now }
    requires shown { AreNodes (world_at top) (shown_from (world_at top) (id_at top)) shown.now }
    ensures { OnOk result (Appends (O.contents out.old) (O.contents out.new)
        (near_text (sought_of wanted.now) (world_at top.entry) (id_at top.entry))) }
{
    write_like(alloc, passwords, top, shown, sought_text(wanted), out)?;
    write_with_role(alloc, passwords, top, shown, wanted, out)
}

/// Writes which of the nodes shown come near, where these are what was found and none is.
pub(crate) fn write_if_none<O: Write>(
    alloc: Global,
    passwords: &Passwords,
    top: NodeRef,
    shown: &[NodeRef<'_>],
    wanted: &Wanted,
    found: &[NodeRef<'_>],
    out: &mut O,
) -> Result<(), Stop>
    requires known { AreRight (world_at top) passwords.now }
    requires shown { AreNodes (world_at top) (shown_from (world_at top) (id_at top)) shown.now }
    ensures { OnOk result (Appends (O.contents out.old) (O.contents out.new)
        (hints (sought_of wanted.now) (world_at top.entry) (id_at top.entry) (map id_at found.now))) }
{
    match found {
        [] => write_hints(alloc, passwords, top, shown, wanted, out),
        [_, ..] => Ok(()),
    }
}

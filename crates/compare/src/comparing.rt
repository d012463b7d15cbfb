//! Comparing what is shown of two trees.
ghost use Rattle.std.specs.Prelude.{◌≡◌, ◌≢◌, ℕ, [], IfOk, List, MatchBool, OnOk};
ghost use Rattle.std.specs.Io.KnownBytes.{Appends};
ghost use Rattle.compare.specs.Compared.{IsCompared};

use crate::changes::changes_of;
use crate::rows::{rows_of, whole};
use script_lines::Stop;
use session::Session;
use std::alloc::Global;
use std::io::{self, Write};

/// Prints how two trees differ, as far as they are shown, and returns whether they are equal. Nothing is printed exactly if they are.
pub(crate) fn compare<O: Write>(
    alloc: Global,
    old: &Option<Session>,
    new: &Option<Session>,
    out: &mut O,
) -> Result<bool, Stop>
    ensures { IfOk result (λ is_equal. IsCompared old.now new.now (O.contents out.old) (O.contents out.new) is_equal) }
{
    let before = rows_of(alloc, old)?;
    let after = rows_of(alloc, new)?;
    let shown_before = whole(alloc, &before)?;
    let shown_after = whole(alloc, &after)?;
    if is_same(&shown_before, &shown_after) {
        return Ok(true);
    }
    let changes = changes_of(alloc, &before, &after)?;
    write_changes(&changes, out)?;
    Ok(false)
}

/// Whether two texts are the same.
fn is_same(one: &[u8], other: &[u8]) -> bool
    ensures { MatchBool result (one.now ≡ other.now) (one.now ≢ other.now) }
{
    one == other
}

/// Writes the lines of the changes, or that the nodes are the same in another order.
fn write_changes<O: Write>(changes: &[u8], out: &mut O) -> io::Result<()>
    ensures { OnOk result ((text : List ℕ) × (text ≢ []) × Appends (O.contents out.old) (O.contents out.new) text) }
{
    if changes.is_empty() {
        return out.write_all(b"the same nodes in another order\n");
    }
    out.write_all(changes)
}

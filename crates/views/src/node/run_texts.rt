//! The text of a root's runs, as shown in its value. Nothing here allocates.
ghost use Rattle.std.specs.Prelude.{◌≡◌, ◌+◌, ◌<◌, ◌^◌, true, OnOk, OnErr, slice_get, option_copied, bytes_eq};
ghost use Rattle.std.specs.Option.{option_or};
ghost use Rattle.std.specs.List.{flat_map, list_all};
ghost use Rattle.model.specs.TextRuns.{sent_runs, sent_characters, cut_by, supports_text_ranges};
ghost use Rattle.model.specs.FlatText.{are_alike, needs_masking};
ghost use Rattle.model.specs.Values.{document_text};
ghost use Rattle.views.specs.Nodes.{world_at, id_at};
ghost use Rattle.views.specs.Runs.{sent_of};
ghost use Rattle.views.specs.RunTexts.{shown_of, shown_text, are_all};
ghost use Rattle.views.specs.ValueCalls.{run_calls, calls_of_runs, document_calls};
ghost use Rattle.views.specs.Writes.{IsWritten, IsCutShort, IsCalled, IsCalledTillFault, IsCalledBy};

use crate::node::NodeRef;
use crate::node::masking::write_bullets;
use crate::runs::Run;
use schema::{TextFault, TextWrite};

/// Writes a run's text as shown.
fn write_run<W: TextWrite>(run: Run<'_>, masked: bool, writer: &mut W) -> Result<(), TextFault>
    requires { W.faults writer.old + 1 < 2 ^ 128 }
    ensures ok { OnOk result (IsWritten W.received W.faults (shown_of masked (sent_of run.entry)) writer.old writer.new) }
    ensures err { OnErr result (IsCutShort W.received W.faults (shown_of masked (sent_of run.entry)) writer.old writer.new) }
    ensures calls { IsCalledBy W.steps result (run_calls masked (sent_of run.entry)) writer.old writer.new }
{
    if masked {
        return write_bullets(run.character_count(), writer);
    }
    writer.write_str(run.value())
}

/// Writes the text of all runs as shown.
fn write_runs<W: TextWrite>(
    root: NodeRef<'_>,
    masked: bool,
    writer: &mut W,
) -> Result<(), TextFault>
    requires { W.faults writer.old + 1 < 2 ^ 128 }
    ensures ok { let text = shown_text masked (world_at root.entry) (id_at root.entry) in
        OnOk result (IsWritten W.received W.faults text writer.old writer.new) }
    ensures err { let text = shown_text masked (world_at root.entry) (id_at root.entry) in
        OnErr result (IsCutShort W.received W.faults text writer.old writer.new) }
    ensures called { let calls = calls_of_runs masked (sent_runs (world_at root.entry) (id_at root.entry)) in
        OnOk result (IsCalled W.steps calls writer.old writer.new) }
    ensures stopped { let calls = calls_of_runs masked (sent_runs (world_at root.entry) (id_at root.entry)) in
        OnErr result (IsCalledTillFault W.steps calls writer.old writer.new) }
{
    let mut rest = Run::first(root);
    while let Some(run) = rest {
        write_run(run, masked, writer)?;
        rest = run.next();
    }
    Ok(())
}

/// Whether all characters of the text, cut by these lengths, are this one.
fn has_only(text: &[u8], lengths: &[u16], character: &[u8]) -> bool
    ensures { result ≡ list_all (bytes_eq character.now) (cut_by text.now lengths.now) }
{
    let mut rest = text;
    for length in lengths {
        let (piece, after) = rest.split_at(rest.len().min(usize::from(*length)));
        if character != piece {
            return false;
        }
        rest = after;
    }
    true
}

/// The first character of a run, if it has one.
fn first_character<'a>(run: Run<'a>) -> Option<&'a [u8]>
    ensures { option_copied result ≡ slice_get (sent_characters (sent_of run.entry)) 0 }
{
    let text = run.value().as_bytes();
    let length = run.node().character_lengths().first()?;
    Some(text.split_at(text.len().min(usize::from(*length))).0)
}

/// The character to compare a run's characters with: the one seen before, or else the run's first.
fn seen_first<'a>(seen: Option<&'a [u8]>, run: Run<'a>) -> Option<&'a [u8]>
    ensures { option_copied result ≡ option_or (option_copied seen.entry) (slice_get (sent_characters (sent_of run.entry)) 0) }
{
    match seen {
        Some(character) => Some(character),
        None => first_character(run),
    }
}

/// Whether all characters of a run are the one seen before, if there is one.
fn is_like(run: Run<'_>, seen: Option<&[u8]>) -> bool
    ensures { result ≡ are_all (option_copied seen.entry) (sent_characters (sent_of run.entry)) }
{
    match seen {
        Some(character) => has_only(
            run.value().as_bytes(),
            run.node().character_lengths(),
            character,
        ),
        None => true,
    }
}

/// Whether all characters of the runs are the same.
fn has_one_character(root: NodeRef<'_>) -> bool
    ensures { result ≡ are_alike bytes_eq (flat_map sent_characters (sent_runs (world_at root.entry) (id_at root.entry))) }
{
    let mut seen = None;
    let mut rest = Run::first(root);
    while let Some(run) = rest {
        seen = seen_first(seen, run);
        if !is_like(run, seen) {
            return false;
        }
        rest = run.next();
    }
    true
}

/// Whether the runs are those of a password and not all of its characters are the same.
pub fn needs_masking(root: NodeRef<'_>) -> bool
    ensures { result ≡ needs_masking (world_at root.entry) (id_at root.entry) }
{
    root.is_password_input() && !has_one_character(root)
}

/// Writes the text of all runs, masked if necessary.
pub(crate) fn write_document<W: TextWrite>(
    root: NodeRef<'_>,
    writer: &mut W,
) -> Result<(), TextFault>
    requires room { W.faults writer.old + 1 < 2 ^ 128 }
    requires text { supports_text_ranges (world_at root) (id_at root) ≡ true }
    ensures ok { let text = document_text (world_at root.entry) (id_at root.entry) in
        OnOk result (IsWritten W.received W.faults text writer.old writer.new) }
    ensures err { let text = document_text (world_at root.entry) (id_at root.entry) in
        OnErr result (IsCutShort W.received W.faults text writer.old writer.new) }
    ensures called { OnOk result (IsCalled W.steps (document_calls (world_at root.entry) (id_at root.entry)) writer.old writer.new) }
    ensures stopped { OnErr result (IsCalledTillFault W.steps
        (document_calls (world_at root.entry) (id_at root.entry)) writer.old writer.new) }
{
    write_runs(root, needs_masking(root), writer)
}

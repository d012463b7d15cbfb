//! Runs and positions by the ids that applications use.
ghost use Rattle.std.specs.Prelude.{◌≡◌, ◌==◌, true, IfSome, option_map};
ghost use Rattle.model.specs.TextRuns.{supports_text_ranges};
ghost use Rattle.model.specs.Ranges.{run_named, position_named, nearest_named};
ghost use Rattle.views.specs.Nodes.{world_at, id_at};
ghost use Rattle.views.specs.Runs.{text_root_of, run_id};
ghost use Rattle.text_boundaries.specs.RunNumbers.{number_in};
ghost use Rattle.texts.specs.Positions.{node_text};
ghost use Rattle.texts.specs.FoundRanges.{IsAtFound};

use crate::position::TextPosition;
use views::NodeRef;
use views::runs::Run;

/// Whether the run has this id in its tree.
fn is_named(run: Run<'_>, raw: schema::TextPosition) -> bool
    ensures { result ≡ ((run_id run.entry).node.0 == raw.node.0) }
{
    run.id().node.0 == raw.node.0
}

/// The first of the node's runs that has this id in its tree, if there is one.
pub(crate) fn run_named<'a>(root: NodeRef<'a>, raw: schema::TextPosition) -> Option<Run<'a>>
    ensures same { IfSome result (λ r. text_root_of r ≡ root.entry) }
    ensures named { option_map number_in result ≡ run_named (node_text root.entry) raw }
{
    let Some(first) = Run::first(root) else {
        return None;
    };
    let mut run = first;
    loop {
        if is_named(run, raw) {
            return Some(run);
        }
        let Some(next) = run.next() else {
            return None;
        };
        run = next;
    }
}

/// The position of the node's text that is named; `None` past the end of its run. Requires that the node supports text
/// ranges.
pub(crate) fn position_named<'a>(
    root: NodeRef<'a>,
    raw: schema::TextPosition,
) -> Option<TextPosition<'a>>
    requires { supports_text_ranges (world_at root) (id_at root) ≡ true }
    ensures { IsAtFound root.entry (position_named (node_text root.entry) raw) result }
{
    let Some(run) = run_named(root, raw) else {
        return None;
    };
    if raw.character_index > run.character_count() {
        return None;
    }
    Some(TextPosition {
        run,
        index: raw.character_index,
    })
}

/// The same, but past the end of its run it is that end.
pub(crate) fn nearest_named<'a>(
    root: NodeRef<'a>,
    raw: schema::TextPosition,
) -> Option<TextPosition<'a>>
    requires { supports_text_ranges (world_at root) (id_at root) ≡ true }
    ensures { IsAtFound root.entry (nearest_named (node_text root.entry) raw) result }
{
    let Some(run) = run_named(root, raw) else {
        return None;
    };
    let count = run.character_count();
    if raw.character_index > count {
        return Some(TextPosition { run, index: count });
    }
    Some(TextPosition {
        run,
        index: raw.character_index,
    })
}

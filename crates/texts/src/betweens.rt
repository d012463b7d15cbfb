//! Ranges between any two positions.
ghost use Rattle.std.specs.Prelude.{◌≡◌, Some};
ghost use Rattle.schema.specs.declared.values.TextPosition.{TextPosition as RawPosition};
ghost use Rattle.model.specs.Ranges.{range_between, IsRaw};
ghost use Rattle.views.specs.Nodes.{world_at, id_at};
ghost use Rattle.texts.specs.Positions.{root_at, node_text, position_text, flat_position};
ghost use Rattle.texts.specs.FoundRanges.{IsRangeFound};
ghost use Rattle.texts.specs.Betweens.{if_one_root, between_names};

use crate::named::run_named;
use crate::position::TextPosition;
use crate::range::TextRange;
use model::is_same;

impl<'a> TextRange<'a> {
    /// The range between two positions with the same root, in either order; `None` if their roots differ.
    ///
    /// The positions may be of different states. The second one is looked up in the text of the first, by its run's id
    /// and its index; the result is `None` if that text has no such position.
    pub fn between(first: TextPosition<'a>, second: TextPosition<'a>) -> Option<TextRange<'a>>
        ensures one_state { let root = root_at first.entry in
            let range = range_between (node_text root) (flat_position first.entry) (flat_position second.entry) in
            world_at (root_at second.entry) ≡ world_at root → IsRangeFound (world_at root) (id_at root)
            (if_one_root first.entry second.entry (Some range)) result }
        ensures by_name { let root = root_at first.entry in
            (raw : RawPosition) → IsRaw (position_text second.entry) (flat_position second.entry) raw →
            IsRangeFound (world_at root) (id_at root) (between_names first.entry second.entry raw) result }
    {
        let root = first.run.root();
        if !is_same(root.id(), second.run.root().id()) {
            return None;
        }
        let raw = second.to_raw();
        let Some(run) = run_named(root, raw) else {
            return None;
        };
        let index = raw.character_index;
        if index > run.character_count() {
            return None;
        }
        Some(TextRange::in_order(first, TextPosition { run, index }))
    }
}

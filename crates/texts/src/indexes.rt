//! Global indexes of positions, in scalars or in UTF-16 code units, and back.
ghost use Rattle.std.specs.Prelude.{◌≡◌, ◌<◌, ◌≤◌, ◌+◌, true, take, IfSome, option_map};
ghost use Rattle.std.specs.List.{concat};
ghost use Rattle.model.specs.TextRuns.{said_count, sent_characters, supports_text_ranges};
ghost use Rattle.model.specs.Moves.{utf16_len, global_index, position_of, to_global_usv_index, to_global_utf16_index};
ghost use Rattle.views.specs.Nodes.{world_at, id_at};
ghost use Rattle.views.specs.Runs.{sent_of};
ghost use Rattle.texts.specs.Positions.{root_at, node_text, position_text, flat_position};
ghost use Rattle.texts.specs.GlobalIndexes.{IsCut, unit_len, are_units, length_to, length_of};
ghost use Rattle.texts.specs.Secrets.{InEachText};

use crate::position::TextPosition;
use views::NodeRef;
use views::node::masking::scalar_count;
use views::node::run_texts::needs_masking;
use views::runs::Run;

/// The unit of an index.
#[derive(Clone, Copy)]
pub(crate) enum Units {
    Scalars,
    Utf16,
}

/// The number of UTF-16 code units of the text.
pub fn utf16_count(text: &str) -> usize
    ensures { result ≡ utf16_len text.now }
{
    let mut count = 0usize;
    for scalar in text.chars() {
        count += scalar.len_utf16();
    }
    count
}

/// The part of a run's text that consists of its first characters.
fn front<'a>(run: Run<'a>, index: usize) -> &'a str
    requires cut { IsCut (sent_of run) }
    requires within { index ≤ said_count (sent_of run) }
    ensures { result.now ≡ concat (take index (sent_characters (sent_of run.entry))) }
{
    let value = run.value();
    let (first, _others) = run.node().character_lengths().split_at(index);
    let mut end = 0usize;
    for length in first {
        end += usize::from(*length);
    }
    let (text, _rest) = value.split_at(end);
    text
}

/// Whether each character of the run, as shown, is one unit of either kind: it is a bullet, or a single byte.
fn are_units(run: Run<'_>, masked: bool) -> bool
    ensures { result ≡ are_units masked (sent_of run.entry) }
{
    masked || run.value().len() == run.character_count()
}

impl Units {
    /// The number of units of the text.
    fn count(self, text: &str) -> usize
        ensures { result ≡ unit_len self text.now }
    {
        match self {
            Units::Scalars => scalar_count(text),
            Units::Utf16 => utf16_count(text),
        }
    }

    /// The number of units of a run's first characters, as shown.
    fn count_front(self, run: Run<'_>, index: usize, masked: bool) -> usize
        requires cut { IsCut (sent_of run) }
        requires within { index ≤ said_count (sent_of run) }
        ensures { result ≡ length_to self masked (sent_of run.entry) index }
    {
        if are_units(run, masked) {
            return index;
        }
        self.count(front(run, index))
    }

    /// The number of units of a run, as shown.
    fn count_run(self, run: Run<'_>, masked: bool) -> usize
        requires { IsCut (sent_of run) }
        ensures { result ≡ length_of self masked (sent_of run.entry) }
    {
        if are_units(run, masked) {
            return run.character_count();
        }
        self.count(run.value())
    }

    /// The number of the character of a run that contains an index.
    fn holder(self, run: Run<'_>, index: usize, masked: bool) -> usize
        requires cut { IsCut (sent_of run) }
        requires within { index < length_of self masked (sent_of run) }
        ensures within { result < said_count (sent_of run.entry) }
        ensures above { length_to self masked (sent_of run.entry) result ≤ index }
        ensures below { index < length_to self masked (sent_of run.entry) (result + 1) }
    {
        if are_units(run, masked) {
            return index;
        }
        let mut rest = run.value();
        let mut left = index;
        let mut number = 0usize;
        let lengths = run.node().character_lengths();
        for length in lengths {
            let (character, after) = rest.split_at(usize::from(*length));
            let count = self.count(character);
            if left < count {
                return number;
            }
            left -= count;
            rest = after;
            number += 1;
        }
        number
    }
}

impl TextPosition<'_> {
    /// The number of scalars or UTF-16 code units before the position.
    fn global_index(self, units: Units) -> usize
        ensures { let p = flat_position self.entry in
            result ≡ global_index (unit_len units) (position_text self.entry) p }
    {
        let masked = needs_masking(self.run.root());
        let mut run = self.run;
        let mut before = units.count_front(run, self.index, masked);
        while let Some(previous) = run.previous() {
            before += units.count_run(previous, masked);
            run = previous;
        }
        before
    }

    /// The number of scalars of the text before the position. A bullet of a masked password counts as one.
    #[tactic(auto, using(model::proofs::Text::Secrets::one_text))]
    pub fn to_global_usv_index(&self) -> usize
        ensures index { result ≡ to_global_usv_index (position_text self.now) (flat_position self.now) }
        ensures secret { InEachText (root_at self.now) (λ t. result ≡ to_global_usv_index t (flat_position self.now)) }
    {
        let position = *self;
        position.global_index(Units::Scalars)
    }

    /// The number of UTF-16 code units of the text before the position. A bullet of a masked password counts as one.
    #[tactic(auto, using(model::proofs::Text::Secrets::one_text))]
    pub fn to_global_utf16_index(&self) -> usize
        ensures index { result ≡ to_global_utf16_index (position_text self.now) (flat_position self.now) }
        ensures secret { InEachText (root_at self.now) (λ t. result ≡ to_global_utf16_index t (flat_position self.now)) }
    {
        let position = *self;
        position.global_index(Units::Utf16)
    }
}

/// The position before the character that contains a global index, or the end of the text.
pub(crate) fn position_from<'a>(
    root: NodeRef<'a>,
    units: Units,
    index: usize,
) -> Option<TextPosition<'a>>
    requires { supports_text_ranges (world_at root) (id_at root) ≡ true }
    ensures at { option_map flat_position result ≡
        position_of (unit_len units) (node_text root.entry) index }
    ensures same { IfSome result (λ p. root_at p ≡ root.entry) }
{
    let masked = needs_masking(root);
    let mut run = Run::first(root).unwrap();
    let mut left = index;
    loop {
        let count = units.count_run(run, masked);
        if left < count {
            let index = units.holder(run, left, masked);
            return Some(TextPosition { run, index });
        }
        left -= count;
        let Some(next) = run.next() else {
            break;
        };
        run = next;
    }
    if left > 0 {
        return None;
    }
    let index = run.character_count();
    Some(TextPosition { run, index })
}

//! Ranges that outlive a state.
ghost use Rattle.std.specs.Prelude.{◌≡◌, ◌↔◌, IsTrue, IfSome, IfOk, Some, None, option_map, if◌then◌else◌};
ghost use Rattle.model.specs.TextRuns.{supports_text_ranges};
ghost use Rattle.model.specs.Ranges.{comparable, IsWeak, upgraded_range};
ghost use Rattle.views.specs.ShownWorlds.{world_of};
ghost use Rattle.views.specs.Nodes.{world_at, id_at};
ghost use Rattle.texts.specs.Positions.{root_at, flat_position};
ghost use Rattle.texts.specs.TextRanges.{world_in, root_in, range_at};
ghost use Rattle.texts.specs.FoundRanges.{IsRangeFound};
ghost use Rattle.texts.specs.WeakRanges.{IsNodeFound, IsInView, kept_of, same_weak, same_weak_laws, same_weak_equivalence};

use crate::named::position_named;
use crate::position::TextPosition;
use crate::range::TextRange;
use model::{FullNodeId, is_same};
use std::alloc::{AllocError, Global};
use std::marker::Model;
use views::{NodeRef, StateRef};

/// A range of a text without its state: it can be kept, compared, and looked up in a later state.
#[derive(Drop)]
pub struct WeakTextRange {
    root: FullNodeId,
    start: schema::TextPosition,
    end: schema::TextPosition,
    start_comparable: (Vec<usize>, usize),
    end_comparable: (Vec<usize>, usize),
}

impl Model for WeakTextRange {
    ghost use Rattle.model.specs.Ranges.{WeakRange};

    ghost Value = { WeakRange };

    ghost view = { λ a. record {
      root = a.root;
      start = a.start;
      end = a.end;
      start_comparable = (a.start_comparable.0.items, a.start_comparable.1);
      end_comparable = (a.end_comparable.0.items, a.end_comparable.1);
    } };
}

impl TextPosition<'_> {
    /// The comparable form of a position: on the start side, the index of each child on the way from the root to its
    /// run, and the index in that run.
    fn comparable(self, alloc: Global) -> Result<(Vec<usize>, usize), AllocError>
        ensures { let n = root_at self.entry in IfOk result (λ kept.
            comparable (world_at n) (id_at n) (flat_position self.entry) ≡ Some (kept_of kept)) }
    {
        let side = self.biased_to_start();
        let node = side.inner_node();
        let path = node.relative_index_path(alloc, side.run.root().id())?;
        Ok((path, side.index))
    }
}

impl TextRange<'_> {
    /// The range without its state.
    ///
    /// # Errors
    ///
    /// Returns `AllocError` if memory runs out.
    pub fn downgrade(&self, alloc: Global) -> Result<WeakTextRange, AllocError>
        ensures { IfOk result (IsWeak (world_in self.now) (root_in self.now) (range_at self.now)) }
    {
        let range = *self;
        let start = range.start();
        let end = range.end();
        let start_comparable = start.comparable(alloc)?;
        let end_comparable = end.comparable(alloc)?;
        Ok(WeakTextRange {
            root: range.root.id(),
            start: start.to_raw(),
            end: end.to_raw(),
            start_comparable,
            end_comparable,
        })
    }
}

impl WeakTextRange {
    /// The id of the node that had the range's text.
    pub fn node_id(&self) -> FullNodeId
        ensures { result ≡ self.now.root }
    {
        self.root
    }

    /// The comparable form of the start: the path from the root to its run and the index there, on the start side.
    /// These compare as the positions do.
    pub fn start_comparable(&self) -> &(Vec<usize>, usize)
        ensures { kept_of result.now ≡ self.now.start_comparable }
    {
        &self.start_comparable
    }

    /// The comparable form of the end.
    pub fn end_comparable(&self) -> &(Vec<usize>, usize)
        ensures { kept_of result.now ≡ self.now.end_comparable }
    {
        &self.end_comparable
    }

    /// The node in this state, if it exists and supports text ranges.
    fn node_in<'a>(&self, state: StateRef<'a>) -> Option<NodeRef<'a>>
        ensures world { IfSome result (λ node. world_at node ≡ world_of state.entry) }
        ensures node { option_map id_at result
            ≡ (if supports_text_ranges (world_of state.entry) self.now.root
            then Some self.now.root else None) }
    {
        let Some(node) = state.node_by_id(self.root) else {
            return None;
        };
        if !node.supports_text_ranges() {
            return None;
        }
        Some(node)
    }

    /// The range in this state, if it exists there.
    fn range_in<'a>(&self, state: StateRef<'a>) -> Option<TextRange<'a>>
        ensures { let w = world_of state.entry in
            IsRangeFound w self.now.root (upgraded_range w self.now) result }
    {
        let Some(node) = self.node_in(state) else {
            return None;
        };
        let Some(start) = position_named(node, self.start) else {
            return None;
        };
        let Some(end) = position_named(node, self.end) else {
            return None;
        };
        Some(TextRange::in_order(start, end))
    }

    /// The node in a later state, if it exists and supports text ranges. The state can be given by reference or as a
    /// view.
    pub fn upgrade_node<'a, S: Into<StateRef<'a>>>(&self, state: S) -> Option<NodeRef<'a>>
        ensures { IsInView S.converts state (λ w. IsNodeFound w self.now.root result) }
    {
        self.node_in(state.into())
    }

    /// The range in a later state; `None` if the node doesn't exist or doesn't support text ranges, or if the run of an
    /// end is gone or shorter than the end's index. The state can be given by reference or as a view.
    pub fn upgrade<'a, S: Into<StateRef<'a>>>(&self, state: S) -> Option<TextRange<'a>>
        ensures { IsInView S.converts state (λ w. IsRangeFound w self.now.root (upgraded_range w self.now) result) }
    {
        self.range_in(state.into())
    }

    /// Returns a copy whose lists are allocated from `alloc`.
    ///
    /// # Errors
    ///
    /// Returns `AllocError` if memory runs out.
    pub fn clone(&self, alloc: Global) -> Result<WeakTextRange, AllocError>
        ensures { IfOk result (λ copy. copy ≡ self.now) }
    {
        let start = Vec::from_slice(alloc, self.start_comparable.0.as_slice())?;
        let end = Vec::from_slice(alloc, self.end_comparable.0.as_slice())?;
        Ok(WeakTextRange {
            root: self.root,
            start: self.start,
            end: self.end,
            start_comparable: (start, self.start_comparable.1),
            end_comparable: (end, self.end_comparable.1),
        })
    }
}

/// Whether both are the same place.
fn is_same_place(a: &(Vec<usize>, usize), b: &(Vec<usize>, usize)) -> bool
    ensures { IsTrue result ↔ (kept_of a.now ≡ kept_of b.now) }
{
    a.0.as_slice() == b.0.as_slice() && a.1 == b.1
}

impl WeakTextRange {
    /// Whether all parts agree.
    fn same(&self, other: &WeakTextRange) -> bool
        ensures { IsTrue result ↔ (self.now ≡ other.now) }
    {
        is_same(self.root, other.root)
            && self.start == other.start
            && self.end == other.end
            && is_same_place(&self.start_comparable, &other.start_comparable)
            && is_same_place(&self.end_comparable, &other.end_comparable)
    }
}

impl PartialEq for WeakTextRange {
    ghost eq = { same_weak };

    ghost laws = { same_weak_laws };

    fn eq(&self, other: &WeakTextRange) -> bool
        ensures value { result ≡ same_weak self.now other.now }
        ensures exact { IsTrue result ↔ (self.now ≡ other.now) }
    {
        self.same(other)
    }
}

impl Eq for WeakTextRange {
    ghost laws = { same_weak_equivalence };
}

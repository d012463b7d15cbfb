//! Filters of walks.
ghost use Rattle.std.specs.Prelude.{◌≡◌};
ghost use Rattle.std.specs.Fn.{FnReturnsAt};

use crate::node::NodeRef;
use model::filters::FilterResult;

/// A filter of nodes: it includes a node, excludes it alone, or excludes it with its subtree.
pub trait Filter: Drop {
    ghost use Rattle.views.specs.declared.node.node_ref.NodeRef.{NodeRef};
    ghost use Rattle.model.specs.declared.filters.FilterResult.{FilterResult};

    /// The condition under which the filter may be called.
    ghost can_answer: { Self → Type 0 };

    /// Relates a filter, a node, and each answer that the filter may give.
    ghost answers: { Self → NodeRef → FilterResult → Type 0 };

    /// The filter's answer for the node.
    fn answer(&self, node: &NodeRef<'_>) -> FilterResult
        requires { can_answer self.now }
        ensures { answers self.now node.now result };
}

/// A filter made of a caller's function.
#[derive(Drop)]
pub struct ByFn<F> {
    pub(crate) f: F,
}

impl<F> ByFn<F> {
    /// The filter that answers as the function does.
    pub fn new(f: F) -> ByFn<F>
        ensures { result.f ≡ f }
    {
        ByFn { f }
    }
}

impl<F: Fn(&NodeRef<'_>) -> FilterResult + Drop> Filter for ByFn<F> {
    ghost can_answer = { λ s. F.IsAlwaysCallable s.f };

    ghost answers = { λ s n r. FnReturnsAt F.Fn s.f n r };

    fn answer(&self, node: &NodeRef<'_>) -> FilterResult {
        (self.f)(node)
    }
}

/// A filter made of a borrowed function of the caller.
#[derive(Clone, Copy)]
pub(crate) struct ByRef<'f, F> {
    pub(crate) f: &'f F,
}

impl<F: Fn(&NodeRef<'_>) -> FilterResult> Filter for ByRef<'_, F> {
    ghost can_answer = { λ s. F.IsAlwaysCallable s.f.now };

    ghost answers = { λ s n r. FnReturnsAt F.Fn s.f.now n r };

    fn answer(&self, node: &NodeRef<'_>) -> FilterResult {
        (self.f)(node)
    }
}

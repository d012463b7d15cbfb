//! What is asked of a node besides its texts: which nodes are searched, and a condition of the caller.
ghost use Rattle.std.specs.Prelude.{◌≡◌, ⊤, true, Bool};
ghost use Rattle.std.specs.Fn.{FnReturnsAt};
ghost use Rattle.model.specs.Filters.{common_filter as common};
ghost use Rattle.views.specs.Nodes.{world_at, id_at};

use accesskit_consumer::filters::{FilterResult, common_filter};
use accesskit_consumer::node::NodeRef;
use accesskit_consumer::walks::Filter;

/// The filter of platform adapters, `common_filter`, as a value.
#[derive(Clone, Copy)]
pub struct CommonFilter;

impl Filter for CommonFilter {
    ghost can_answer = { λ _. ⊤ };

    ghost answers = { λ _ n r. r ≡ common (world_at n) (id_at n) };

    fn answer(&self, node: &NodeRef<'_>) -> FilterResult {
        common_filter(node)
    }
}

/// A condition of a node.
pub trait Condition: Drop {
    ghost use Rattle.views.specs.declared.node.node_ref.NodeRef.{NodeRef};

    /// The condition under which it may be asked.
    ghost can_ask: { Self → Type 0 };

    /// Relates a condition, a node, and each answer that it may give.
    ghost answers: { Self → NodeRef → Bool → Type 0 };

    /// Whether the node meets the condition.
    fn is_met(&self, node: &NodeRef<'_>) -> bool
        requires { can_ask self.now }
        ensures { answers self.now node.now result };
}

/// The condition that each node meets.
#[derive(Clone, Copy)]
pub struct AnyNode;

impl Condition for AnyNode {
    ghost can_ask = { λ _. ⊤ };

    ghost answers = { λ _ _ is_met. is_met ≡ true };

    fn is_met(&self, _node: &NodeRef<'_>) -> bool {
        true
    }
}

/// The condition that a caller's function answers.
#[derive(Drop)]
pub struct Meeting<F> {
    f: F,
}

impl<F> Meeting<F> {
    /// The condition that the function answers.
    pub fn new(f: F) -> Meeting<F>
        ensures { result.f ≡ f }
    {
        Meeting { f }
    }
}

impl<F: Fn(&NodeRef<'_>) -> bool + Drop> Condition for Meeting<F> {
    ghost can_ask = { λ s. F.IsAlwaysCallable s.f };

    ghost answers = { λ s n r. FnReturnsAt F.Fn s.f n r };

    fn is_met(&self, node: &NodeRef<'_>) -> bool {
        (self.f)(node)
    }
}

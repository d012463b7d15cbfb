//! Filters by name.
ghost use Rattle.std.specs.Prelude.{◌≡◌};
ghost use Rattle.model.specs.Filters.{filter_named};
ghost use Rattle.views.specs.Nodes.{world_at, id_at};

use accesskit_consumer::NodeRef;
use accesskit_consumer::filters::{FilterResult, common_filter, common_filter_with_root_exception};
use model::NamedFilter;

/// The answer of the filter with this name for a node.
pub fn answer_by(filter: NamedFilter, node: &NodeRef<'_>) -> FilterResult
    ensures { result ≡ filter_named filter (world_at node.now) (id_at node.now) }
{
    match filter {
        NamedFilter::All => FilterResult::Include,
        NamedFilter::Common => common_filter(node),
        NamedFilter::CommonWithRoot => common_filter_with_root_exception(node),
    }
}

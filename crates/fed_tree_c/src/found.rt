//! What is answered of a node: what was found, or why nothing was.
ghost use Rattle.std.specs.Prelude.{◌≡◌, option_map};
ghost use Rattle.fed_tree_c.specs.Answers.{Gives, lack_where};
ghost use Rattle.fed_tree_c.specs.Records.{id_of};

use crate::records::{AkId, DONE, NO_NODE, NO_SUCH, NOTHING, id_of};
use fed_tree::FedTree;
use model::FullNodeId;

/// The answer where nothing was found of the node, which was asked about by a number that means something, or doesn't.
pub(crate) fn lack_where(fed: &FedTree, id: FullNodeId, is_known: bool) -> u8
    ensures { result ≡ lack_where is_known id fed.now }
{
    if !is_known {
        return NO_SUCH;
    }
    if fed.has_node(id) { NOTHING } else { NO_NODE }
}

/// Writes what was found of the node, if it was. `is_known` says whether the number by which it was asked about means something.
pub(crate) fn give_at<T: Copy>(
    fed: &FedTree,
    id: FullNodeId,
    is_known: bool,
    found: Option<T>,
    place: &mut T,
) -> u8
    ensures { Gives (lack_where is_known id fed.now) found result place.old place.new }
{
    match found {
        Some(found) => {
            *place = found;
            DONE
        }
        None => lack_where(fed, id, is_known),
    }
}

/// Writes an id, if one was found.
pub(crate) fn give_id_at(
    fed: &FedTree,
    id: FullNodeId,
    is_known: bool,
    found: Option<FullNodeId>,
    place: &mut AkId,
) -> u8
    ensures { Gives (lack_where is_known id fed.now) (option_map id_of found) result place.old place.new }
{
    give_at(fed, id, is_known, found.map(id_of), place)
}

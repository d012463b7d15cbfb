//! A view of a node.
ghost use Rattle.std.specs.Prelude.{◌≡◌, Some};
ghost use Rattle.std.specs.Coded.{Coded-set, coded_option};
ghost use Rattle.model.specs.Forest.{place_of};
ghost use Rattle.views.specs.Places.{coded_place};
ghost use Rattle.schema.specs.contracts.Node.{the_row as node_row};
ghost use Rattle.model.specs.World.{data_of};
ghost use Rattle.views.specs.ShownWorlds.{world_of};

use crate::StateRef;
use model::{FullNodeId, Place};
use schema::Node;

/// A read-only view of a node in a state.
#[derive(Clone, Copy)]
pub struct NodeRef<'a> {
    pub(crate) state: StateRef<'a>,
    pub(crate) id: FullNodeId,
    pub(crate) node: &'a Node,
    pub(crate) place: &'a Option<Place>,
    ghost known: { data_of (world_of state) id ≡ Some node.now } by { Coded-set (coded_option node_row.coded) (data_of (world_of state) id) (Some node.now) },
    ghost placed: { place.now ≡ place_of (world_of state) id } by { Coded-set (coded_option coded_place) place.now (place_of (world_of state) id) },
}

//! The values of a node are within the bounds of their types, so that its line is read back; of its sets of actions no
//! type says so.

ghost use Rattle.schema.specs.Actions.{with_action};
ghost use Rattle.schema.specs.NodeData.{empty_node};
ghost use Rattle.schema.specs.declared.Role.{Role};
ghost use Rattle.schema.specs.declared.actions.Action.{Action};
ghost use Rattle.script_nodes.specs.FieldKinds.{actions_at};
ghost use Rattle.script_nodes.specs.NodeReading.{HasActionSets, IsActionSet, IsNode, IsValue};
ghost use Rattle.script_words.specs.Reading.{IsAction};
ghost use Rattle.std.specs.Prelude.{ℕ};

use crate::field_kinds::{ActionsField, Field, named_fields};
use schema::Node;
use script_words::fits::{
    color_fits, count_fits, decoration_fits, id_fits, ids_fit, number_fits, optional_tree_fits,
    rect_fits, role_fits, selection_fits, short_fits, shorts_fit, size_fits, text_fits,
    translation_fits, units_fit,
};

/// A node's role and fields are within the bounds of their types, if its sets of actions are.
pub fn node_fits(node: &Node)
    ensures { HasActionSets node.now → IsNode node.now }
{
    role_fits(node.role());
    for (_, field) in named_fields() {
        value_fits(*field, node);
    }
}

/// A field is within the bounds of its type.
fn value_fits(field: Field, node: &Node)
    ensures { HasActionSets node.now → IsValue field node.now }
{
    match field {
        Field::Ids(which) => ids_fit(which.of(node)),
        Field::Id(which) => id_fits(which.of(node)),
        Field::Text(which) => text_fits(which.of(node)),
        Field::Numbers(which) => shorts_fit(which.of(node)),
        Field::Units(which) => units_fit(which.of(node)),
        Field::Color(which) => color_fits(which.of(node)),
        Field::Decoration(which) => decoration_fits(which.of(node)),
        Field::Number(which) => number_fits(which.of(node)),
        Field::Count(which) => count_fits(which.of(node)),
        Field::Actions(which) => actions_fit(which, node),
        Field::Tree => optional_tree_fits(node.tree_id()),
        Field::Bounds => rect_fits(node.bounds()),
        Field::Transform => translation_fits(node.transform()),
        Field::Selection => selection_fits(node.text_selection()),
        Field::FontSize => size_fits(node.font_size()),
        Field::FontWeight => short_fits(node.font_weight()),
        Field::Flag(_) | Field::Bool(_) => {}
        Field::Toggled | Field::Live | Field::Orientation | Field::SortDirection => {}
        Field::AriaCurrent | Field::HasPopup => {}
        Field::TextDirection | Field::TextAlign | Field::VerticalOffset => {}
    }
}

/// A set of actions is within its bounds, if both are.
fn actions_fit(field: ActionsField, node: &Node)
    ensures { HasActionSets node.now → IsActionSet (actions_at field node.now) }
{
    match field {
        ActionsField::Own => {}
        ActionsField::Children => {}
    }
}

/// A new node has no action. No other call but those that add one makes a set of actions or changes it.
pub fn new_node_has_action_sets()
    ensures { (role : Role) → HasActionSets (empty_node role) }
{}

/// A set with one more action is within its bounds, if it was before.
#[tactic(auto, using(crate::proofs::NodeFits::with_action_fits))]
pub fn action_set_gains()
    ensures { (set : ℕ) (action : Action) → IsActionSet set → IsAction action → IsActionSet (with_action set action) }
{}

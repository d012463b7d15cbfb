//! The line of a node in a script: reads its fields by the kinds of their values, and writes them in one order. Also sets a field to
//! a value that isn't text.
#![tactic(auto)]

mod action_sets;
mod choices;
mod field_kinds;
mod field_numbers;
mod fields;
mod fits;
mod kind_values;
mod node_fields;
mod node_lines;
mod node_writer;
mod setting;
mod single_values;

pub use field_kinds::{
    ActionsField, BoolField, ColorField, CountField, DecorationField, Field, FlagField, IdField,
    IdsField, NumberField, NumbersField, TextField, UnitsField, field_named, named_fields,
    node_field_names,
};
pub use field_numbers::field_numbered;
pub use fits::{action_set_gains, new_node_has_action_sets, node_fits};
pub use node_lines::node_line;
pub use node_writer::{write_field, write_node};
pub use setting::{FieldValue, set_field};

//! Gets and sets the fields of a node, by the kinds of their values. It reads no line.

ghost use Rattle.std.specs.Prelude.{◌≡◌, IfOk, OnErr, OnOk, Some, true, false, option_copied};
ghost use Rattle.script_nodes.specs.FieldKinds.{ids_at, with_ids, id_at, with_id, text_at, with_text, flag_at, with_flag, numbers_at, with_numbers, units_at, with_units, bool_at, with_bool, color_at, with_color, decoration_at, with_decoration, number_at, with_number, count_at, with_count};

use crate::field_kinds::{
    BoolField, ColorField, CountField, DecorationField, FlagField, IdField, IdsField, NumberField,
    NumbersField, TextField, UnitsField, bool_fields, color_fields, count_fields,
    decoration_fields, flag_fields, id_fields, ids_fields, number_fields, numbers_fields,
    text_fields, units_fields,
};
use schema::{Color, Node, NodeId, TextDecoration};
use std::alloc::{AllocError, Global};

/// What a node has in one of a kind's fields.
macro_rules! got {
    (($which:tt $node:ident) $kind:ident { $($field:ident = $get:ident, $set:ident);+ }) => {
        match $which {
            $($kind::$field => $node.$get(),)+
        }
    };
}

/// Sets one of a kind's fields in a node, by these arguments.
macro_rules! set {
    (($which:tt $node:ident $given:tt) $kind:ident { $($field:ident = $get:ident, $set:ident);+ }) => {
        match $which {
            $($kind::$field => $node.$set $given,)+
        }
    };
}

impl IdsField {
    /// The node's value of the field.
    pub fn of<'a>(self, node: &'a Node) -> &'a [NodeId]
        ensures { result.now ≡ ids_at self node.now }
    {
        ids_fields!(got self node)
    }

    /// Sets the field.
    pub(crate) fn set(self, value: &[NodeId], node: &mut Node) -> Result<(), AllocError>
        ensures ok { OnOk result (node.new ≡ with_ids self value.now node.old) }
        ensures err { OnErr result (node.new ≡ node.old) }
    {
        ids_fields!(set self node (value))
    }
}

impl IdField {
    /// The node's value of the field.
    pub fn of(self, node: &Node) -> Option<NodeId>
        ensures { result ≡ id_at self node.now }
    {
        id_fields!(got self node)
    }

    /// Sets the field.
    pub(crate) fn set(self, value: NodeId, node: &mut Node)
        ensures { node.new ≡ with_id self (Some value) node.old }
    {
        id_fields!(set self node (value))
    }
}

impl TextField {
    /// The node's value of the field.
    pub fn of<'a>(self, node: &'a Node) -> Option<&'a str>
        ensures { option_copied result ≡ text_at self node.now }
    {
        text_fields!(got self node)
    }

    /// Sets the field.
    pub(crate) fn set(self, value: &str, node: &mut Node) -> Result<(), AllocError>
        ensures ok { OnOk result (node.new ≡ with_text self (Some value.now) node.old) }
        ensures err { OnErr result (node.new ≡ node.old) }
    {
        text_fields!(set self node (value))
    }
}

impl FlagField {
    /// Whether the flag is set.
    pub fn is_in(self, node: &Node) -> bool
        ensures { result ≡ flag_at self node.now }
    {
        flag_fields!(got self node)
    }

    /// Sets the flag.
    pub(crate) fn set(self, node: &mut Node)
        ensures { node.new ≡ with_flag self true node.old }
    {
        flag_fields!(set self node ())
    }
}

impl NumbersField {
    /// The node's value of the field.
    pub fn of<'a>(self, node: &'a Node) -> &'a [u16]
        ensures { result.now ≡ numbers_at self node.now }
    {
        numbers_fields!(got self node)
    }

    /// Sets the field.
    pub(crate) fn set(self, value: &[u16], node: &mut Node) -> Result<(), AllocError>
        ensures ok { OnOk result (node.new ≡ with_numbers self value.now node.old) }
        ensures err { OnErr result (node.new ≡ node.old) }
    {
        numbers_fields!(set self node (value))
    }
}

impl UnitsField {
    /// The node's value of the field.
    pub fn of<'a>(self, node: &'a Node) -> Option<&'a [i32]>
        ensures { option_copied result ≡ units_at self node.now }
    {
        units_fields!(got self node)
    }

    /// Sets the field.
    pub(crate) fn set(self, value: &[i32], node: &mut Node) -> Result<(), AllocError>
        ensures ok { OnOk result (node.new ≡ with_units self (Some value.now) node.old) }
        ensures err { OnErr result (node.new ≡ node.old) }
    {
        units_fields!(set self node (value))
    }
}

impl BoolField {
    /// The node's value of the field.
    pub fn of(self, node: &Node) -> Option<bool>
        ensures { result ≡ bool_at self node.now }
    {
        bool_fields!(got self node)
    }

    /// Sets the field.
    pub(crate) fn set(self, value: bool, node: &mut Node)
        ensures { node.new ≡ with_bool self (Some value) node.old }
    {
        bool_fields!(set self node (value))
    }
}

impl ColorField {
    /// The node's value of the field.
    pub fn of(self, node: &Node) -> Option<Color>
        ensures { result ≡ color_at self node.now }
    {
        color_fields!(got self node)
    }

    /// Sets the field.
    pub(crate) fn set(self, value: Color, node: &mut Node)
        ensures { node.new ≡ with_color self (Some value) node.old }
    {
        color_fields!(set self node (value))
    }
}

impl DecorationField {
    /// The node's value of the field.
    pub fn of(self, node: &Node) -> Option<TextDecoration>
        ensures { result ≡ decoration_at self node.now }
    {
        decoration_fields!(got self node)
    }

    /// Sets the field.
    pub(crate) fn set(self, value: TextDecoration, node: &mut Node)
        ensures { node.new ≡ with_decoration self (Some value) node.old }
    {
        decoration_fields!(set self node (value))
    }
}

impl NumberField {
    /// The node's value of the field.
    pub fn of(self, node: &Node) -> Option<i64>
        ensures { result ≡ number_at self node.now }
    {
        number_fields!(got self node)
    }

    /// Sets the field.
    pub(crate) fn set(self, value: i64, node: &mut Node)
        ensures { node.new ≡ with_number self (Some value) node.old }
    {
        number_fields!(set self node (value))
    }
}

impl CountField {
    /// The node's value of the field.
    pub fn of(self, node: &Node) -> Option<usize>
        ensures { result ≡ count_at self node.now }
    {
        count_fields!(got self node)
    }

    /// Sets the field.
    pub(crate) fn set(self, value: usize, node: &mut Node)
        ensures { node.new ≡ with_count self (Some value) node.old }
    {
        count_fields!(set self node (value))
    }
}

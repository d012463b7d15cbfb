//! The types of a node's fields.

use crate::NodeId;

/// The state of a control that can be toggled.
#[derive(Clone, Copy, Debug, PartialEq, Eq, Hash)]
pub enum Toggled {
    False,
    True,
    /// Neither on nor off, for example when only some of several parts are on.
    Mixed,
}

/// An axis.
#[derive(Clone, Copy, Debug, PartialEq, Eq, Hash)]
pub enum Orientation {
    Horizontal,
    Vertical,
}

/// A sort order.
#[derive(Clone, Copy, Debug, PartialEq, Eq, Hash)]
pub enum SortDirection {
    Ascending,
    Descending,
    Other,
}

/// Which kind of current item a node is, as by `aria-current`.
#[derive(Clone, Copy, Debug, PartialEq, Eq, Hash)]
pub enum AriaCurrent {
    False,
    True,
    Page,
    Step,
    Location,
    Date,
    Time,
}

/// The kind of popup that a node opens.
#[derive(Clone, Copy, Debug, PartialEq, Eq, Hash)]
pub enum HasPopup {
    Menu,
    Listbox,
    Tree,
    Grid,
    Dialog,
}

/// How changes of a node are announced.
#[derive(Clone, Copy, Debug, PartialEq, Eq, Hash)]
pub enum Live {
    /// Changes are not announced.
    Off,
    /// Changes are announced when nothing else is being announced.
    Polite,
    /// Changes are announced at once.
    Assertive,
}

/// The direction of a text.
#[derive(Clone, Copy, Debug, PartialEq, Eq, Hash)]
pub enum TextDirection {
    LeftToRight,
    RightToLeft,
    TopToBottom,
    BottomToTop,
}

/// How a text is aligned.
#[derive(Clone, Copy, Debug, PartialEq, Eq, Hash)]
pub enum TextAlign {
    Left,
    Right,
    Center,
    Justify,
}

/// Whether text is superscript or subscript.
#[derive(Clone, Copy, Debug, PartialEq, Eq, Hash)]
pub enum VerticalOffset {
    Subscript,
    Superscript,
}

/// The look of a line above, through or below text.
#[derive(Clone, Copy, Debug, PartialEq, Eq, Hash)]
pub enum TextDecorationStyle {
    Solid,
    Dotted,
    Dashed,
    Double,
    Wavy,
}

/// A colour with its opacity.
#[derive(Clone, Copy, Debug, PartialEq, Eq, Hash)]
pub struct Color {
    pub red: u8,
    pub green: u8,
    pub blue: u8,
    /// The opacity, from 0 (invisible) to 255 (opaque).
    pub alpha: u8,
}

/// A line above, through or below text.
#[derive(Clone, Copy, Debug, PartialEq, Eq, Hash)]
pub struct TextDecoration {
    pub style: TextDecorationStyle,
    pub color: Color,
}

/// A place in a text run: before the character with this index, or after the last one.
#[derive(Clone, Copy, Debug, PartialEq, Eq, Hash)]
pub struct TextPosition {
    /// The text run.
    pub node: NodeId,
    /// From 0 to the run's number of characters.
    pub character_index: usize,
}

/// A selection, or a caret if both ends are equal.
#[derive(Clone, Copy, Debug, PartialEq, Eq, Hash)]
pub struct TextSelection {
    /// The fixed end, where the selection started.
    pub anchor: TextPosition,
    /// The end that moves.
    pub focus: TextPosition,
}

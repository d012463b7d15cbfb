//! The values that have names, each kind in one list: each value with its name, in the order of the values' numbers. What is made
//! of a list is named in its call: `toggles!(value_named word)`.

macro_rules! filters {
    ($form:ident $($of:tt)*) => {
        $form!(($($of)*) NamedFilter { All = "all", Common = "common", CommonWithRoot = "common_with_root" })
    };
}

macro_rules! sides {
    ($form:ident $($of:tt)*) => {
        $form!(($($of)*) Side { Start = "start", End = "end" })
    };
}

macro_rules! moves {
    ($form:ident $($of:tt)*) => {
        $form!(($($of)*) Move {
            ForwardToCharacterStart = "forward_to_character_start",
            ForwardToCharacterEnd = "forward_to_character_end",
            BackwardToCharacterStart = "backward_to_character_start",
            ForwardToFormatStart = "forward_to_format_start",
            ForwardToFormatEnd = "forward_to_format_end",
            BackwardToFormatStart = "backward_to_format_start",
            ForwardToWordStart = "forward_to_word_start",
            ForwardToWordEnd = "forward_to_word_end",
            BackwardToWordStart = "backward_to_word_start",
            ForwardToLineStart = "forward_to_line_start",
            ForwardToLineEnd = "forward_to_line_end",
            BackwardToLineStart = "backward_to_line_start",
            ForwardToParagraphStart = "forward_to_paragraph_start",
            ForwardToParagraphEnd = "forward_to_paragraph_end",
            BackwardToParagraphStart = "backward_to_paragraph_start",
            ForwardToPageStart = "forward_to_page_start",
            ForwardToPageEnd = "forward_to_page_end",
            DocumentEnd = "document_end",
            BackwardToPageStart = "backward_to_page_start",
            DocumentStart = "document_start"
        })
    };
}

macro_rules! toggles {
    ($form:ident $($of:tt)*) => {
        $form!(($($of)*) Toggled { True = "true", False = "false", Mixed = "mixed" })
    };
}

macro_rules! lives {
    ($form:ident $($of:tt)*) => {
        $form!(($($of)*) Live { Off = "off", Polite = "polite", Assertive = "assertive" })
    };
}

macro_rules! orientations {
    ($form:ident $($of:tt)*) => {
        $form!(($($of)*) Orientation { Horizontal = "horizontal", Vertical = "vertical" })
    };
}

macro_rules! sort_directions {
    ($form:ident $($of:tt)*) => {
        $form!(($($of)*) SortDirection { Ascending = "ascending", Descending = "descending", Other = "other" })
    };
}

macro_rules! currents {
    ($form:ident $($of:tt)*) => {
        $form!(($($of)*) AriaCurrent {
            False = "false",
            True = "true",
            Page = "page",
            Step = "step",
            Location = "location",
            Date = "date",
            Time = "time"
        })
    };
}

macro_rules! popups {
    ($form:ident $($of:tt)*) => {
        $form!(($($of)*) HasPopup { Menu = "menu", Listbox = "listbox", Tree = "tree", Grid = "grid", Dialog = "dialog" })
    };
}

macro_rules! text_directions {
    ($form:ident $($of:tt)*) => {
        $form!(($($of)*) TextDirection {
            LeftToRight = "left_to_right",
            RightToLeft = "right_to_left",
            TopToBottom = "top_to_bottom",
            BottomToTop = "bottom_to_top"
        })
    };
}

macro_rules! text_aligns {
    ($form:ident $($of:tt)*) => {
        $form!(($($of)*) TextAlign { Left = "left", Right = "right", Center = "center", Justify = "justify" })
    };
}

macro_rules! vertical_offsets {
    ($form:ident $($of:tt)*) => {
        $form!(($($of)*) VerticalOffset { Subscript = "subscript", Superscript = "superscript" })
    };
}

macro_rules! decoration_styles {
    ($form:ident $($of:tt)*) => {
        $form!(($($of)*) TextDecorationStyle {
            Solid = "solid",
            Dotted = "dotted",
            Dashed = "dashed",
            Double = "double",
            Wavy = "wavy"
        })
    };
}

/// The value with a name, if there is one.
macro_rules! value_named {
    (($word:ident) $kind:ident { $($value:ident = $name:literal),+ }) => {
        match $word {
            $($name => Some($kind::$value),)+
            _ => None,
        }
    };
}

/// The names with their values.
macro_rules! all_named {
    (() $kind:ident { $($value:ident = $name:literal),+ }) => {
        &[$(($name, $kind::$value)),+]
    };
}

/// The name of a value.
macro_rules! name_of {
    (($($of:tt)+) $kind:ident { $($value:ident = $name:literal),+ }) => {
        match $($of)+ {
            $($kind::$value => $name,)+
        }
    };
}

/// All values.
macro_rules! all_values {
    (() $kind:ident { $($value:ident = $name:literal),+ }) => {
        &[$($kind::$value),+]
    };
}

/// All names.
macro_rules! all_names {
    (() $kind:ident { $($value:ident = $name:literal),+ }) => {
        &[$($name),+]
    };
}

pub(crate) use all_named;
pub(crate) use all_names;
pub(crate) use all_values;
pub(crate) use currents;
pub(crate) use decoration_styles;
pub(crate) use filters;
pub(crate) use lives;
pub(crate) use moves;
pub(crate) use name_of;
pub(crate) use orientations;
pub(crate) use popups;
pub(crate) use sides;
pub(crate) use sort_directions;
pub(crate) use text_aligns;
pub(crate) use text_directions;
pub(crate) use toggles;
pub(crate) use value_named;
pub(crate) use vertical_offsets;

//! The fields of a node that hold no text and no list.

ghost use Rattle.std.specs.Prelude.{◌≡◌};

use crate::{
    AriaCurrent, Color, HasPopup, Live, NodeId, Orientation, Rect, Role, SortDirection, TextAlign,
    TextDecoration, TextDecorationStyle, TextDirection, TextPosition, TextSelection, Toggled,
    Translation, TreeId, VerticalOffset,
};
use uuid::Uuid;

const NO_POSITION: TextPosition = TextPosition {
    node: NodeId(0),
    character_index: 0,
};

const NO_SELECTION: TextSelection = TextSelection {
    anchor: NO_POSITION,
    focus: NO_POSITION,
};

const NO_RECTANGLE: Rect = Rect {
    x0: 0,
    y0: 0,
    x1: 0,
    y1: 0,
};

const NO_COLOR: Color = Color {
    red: 0,
    green: 0,
    blue: 0,
    alpha: 0,
};

const NO_DECORATION: TextDecoration = TextDecoration {
    style: TextDecorationStyle::Solid,
    color: NO_COLOR,
};

/// The plain fields, the largest first, and the last four bits of each set of actions. Whether one is set is one of the node's marks, since an `Option` would take up to eight
/// bytes more; what a field holds that isn't set means nothing.
#[derive(Clone, Copy)]
pub(crate) struct PlainFields {
    pub(crate) active_descendant: NodeId,
    pub(crate) previous_on_line: NodeId,
    pub(crate) next_on_line: NodeId,
    pub(crate) level: usize,
    pub(crate) size_of_set: usize,
    pub(crate) position_in_set: usize,
    pub(crate) numeric_value: i64,
    pub(crate) min_numeric_value: i64,
    pub(crate) max_numeric_value: i64,
    pub(crate) numeric_value_step: i64,
    pub(crate) numeric_value_jump: i64,
    pub(crate) scroll_x: i64,
    pub(crate) scroll_x_min: i64,
    pub(crate) scroll_x_max: i64,
    pub(crate) scroll_y: i64,
    pub(crate) scroll_y_min: i64,
    pub(crate) scroll_y_max: i64,
    pub(crate) text_selection: TextSelection,
    pub(crate) tree_id: TreeId,
    pub(crate) bounds: Rect,
    pub(crate) transform: Translation,
    pub(crate) background_color: Color,
    pub(crate) foreground_color: Color,
    pub(crate) font_size: u32,
    pub(crate) role: Role,
    pub(crate) font_weight: u16,
    pub(crate) action_top: u8,
    pub(crate) child_action_top: u8,
    pub(crate) overline: TextDecoration,
    pub(crate) strikethrough: TextDecoration,
    pub(crate) underline: TextDecoration,
    pub(crate) expanded: bool,
    pub(crate) selected: bool,
    pub(crate) toggled: Toggled,
    pub(crate) orientation: Orientation,
    pub(crate) sort_direction: SortDirection,
    pub(crate) aria_current: AriaCurrent,
    pub(crate) has_popup: HasPopup,
    pub(crate) live: Live,
    pub(crate) text_direction: TextDirection,
    pub(crate) text_align: TextAlign,
    pub(crate) vertical_offset: VerticalOffset,
}

impl PlainFields {
    /// This role, and no other field set.
    #[inline(always)]
    pub(crate) fn new(role: Role) -> PlainFields
        ensures role { result.role ≡ role }
        ensures action_top { result.action_top ≡ 0 }
        ensures child_action_top { result.child_action_top ≡ 0 }
    {
        PlainFields {
            active_descendant: NodeId(0),
            previous_on_line: NodeId(0),
            next_on_line: NodeId(0),
            level: 0,
            size_of_set: 0,
            position_in_set: 0,
            numeric_value: 0,
            min_numeric_value: 0,
            max_numeric_value: 0,
            numeric_value_step: 0,
            numeric_value_jump: 0,
            scroll_x: 0,
            scroll_x_min: 0,
            scroll_x_max: 0,
            scroll_y: 0,
            scroll_y_min: 0,
            scroll_y_max: 0,
            text_selection: NO_SELECTION,
            tree_id: TreeId(Uuid::nil()),
            bounds: NO_RECTANGLE,
            transform: Translation { x: 0, y: 0 },
            background_color: NO_COLOR,
            foreground_color: NO_COLOR,
            font_size: 0,
            role,
            font_weight: 0,
            action_top: 0,
            child_action_top: 0,
            overline: NO_DECORATION,
            strikethrough: NO_DECORATION,
            underline: NO_DECORATION,
            expanded: false,
            selected: false,
            toggled: Toggled::False,
            orientation: Orientation::Horizontal,
            sort_direction: SortDirection::Ascending,
            aria_current: AriaCurrent::False,
            has_popup: HasPopup::Menu,
            live: Live::Off,
            text_direction: TextDirection::LeftToRight,
            text_align: TextAlign::Left,
            vertical_offset: VerticalOffset::Subscript,
        }
    }
}

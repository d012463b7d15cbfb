//! The fields of a node by the kinds of their values, with what gets and sets each in a node, and their names in a line. A kind's list
//! is a macro, whose call names what is made of it: `flag_fields!(got self node)`.

ghost use Rattle.std.specs.Prelude.{MatchOption, map, ◌≡◌, ◌≢◌};
ghost use Rattle.script_nodes.specs.declared.field_kinds.Field.{Field};
ghost use Rattle.script_nodes.specs.FieldKinds.{all_fields, field_name};

use script_words::names::named;

/// A list of nodes.
#[derive(Clone, Copy)]
pub enum IdsField {
    Children,
    LabelledBy,
    Controls,
}

macro_rules! ids_fields {
    ($form:ident $($of:tt)*) => {
        $form!(($($of)*) IdsField {
            Children = children, set_children;
            LabelledBy = labelled_by, set_labelled_by;
            Controls = controls, set_controls
        })
    };
}

/// A node.
#[derive(Clone, Copy)]
pub enum IdField {
    ActiveDescendant,
    PreviousOnLine,
    NextOnLine,
}

macro_rules! id_fields {
    ($form:ident $($of:tt)*) => {
        $form!(($($of)*) IdField {
            ActiveDescendant = active_descendant, set_active_descendant;
            PreviousOnLine = previous_on_line, set_previous_on_line;
            NextOnLine = next_on_line, set_next_on_line
        })
    };
}

/// A text in quotes.
#[derive(Clone, Copy)]
pub enum TextField {
    Label,
    Value,
    Description,
    Placeholder,
    RoleDescription,
    Url,
    AuthorId,
    HtmlId,
    ClassName,
    BrailleLabel,
    BrailleRoleDescription,
    ColumnIndexText,
    RowIndexText,
    FontFamily,
    Language,
}

macro_rules! text_fields {
    ($form:ident $($of:tt)*) => {
        $form!(($($of)*) TextField {
            Label = label, set_label;
            Value = value, set_value;
            Description = description, set_description;
            Placeholder = placeholder, set_placeholder;
            RoleDescription = role_description, set_role_description;
            Url = url, set_url;
            AuthorId = author_id, set_author_id;
            HtmlId = html_id, set_html_id;
            ClassName = class_name, set_class_name;
            BrailleLabel = braille_label, set_braille_label;
            BrailleRoleDescription = braille_role_description, set_braille_role_description;
            ColumnIndexText = column_index_text, set_column_index_text;
            RowIndexText = row_index_text, set_row_index_text;
            FontFamily = font_family, set_font_family;
            Language = language, set_language
        })
    };
}

/// A flag, which has no value.
#[derive(Clone, Copy)]
pub enum FlagField {
    Hidden,
    ClipsChildren,
    Disabled,
    ReadOnly,
    Required,
    Modal,
    Busy,
    Multiselectable,
    Italic,
    LiveAtomic,
    TouchTransparent,
}

macro_rules! flag_fields {
    ($form:ident $($of:tt)*) => {
        $form!(($($of)*) FlagField {
            Hidden = is_hidden, set_hidden;
            ClipsChildren = clips_children, set_clips_children;
            Disabled = is_disabled, set_disabled;
            ReadOnly = is_read_only, set_read_only;
            Required = is_required, set_required;
            Modal = is_modal, set_modal;
            Busy = is_busy, set_busy;
            Multiselectable = is_multiselectable, set_multiselectable;
            Italic = is_italic, set_italic;
            LiveAtomic = is_live_atomic, set_live_atomic;
            TouchTransparent = is_touch_transparent, set_touch_transparent
        })
    };
}

/// A list of numbers of a text run.
#[derive(Clone, Copy)]
pub enum NumbersField {
    CharacterLengths,
    WordStarts,
}

macro_rules! numbers_fields {
    ($form:ident $($of:tt)*) => {
        $form!(($($of)*) NumbersField {
            CharacterLengths = character_lengths, set_character_lengths;
            WordStarts = word_starts, set_word_starts
        })
    };
}

/// An optional list of numbers of a text run, in units of 1/64 pixel.
#[derive(Clone, Copy)]
pub enum UnitsField {
    CharacterPositions,
    CharacterWidths,
}

macro_rules! units_fields {
    ($form:ident $($of:tt)*) => {
        $form!(($($of)*) UnitsField {
            CharacterPositions = character_positions, set_character_positions;
            CharacterWidths = character_widths, set_character_widths
        })
    };
}

/// A flag that may be unset.
#[derive(Clone, Copy)]
pub enum BoolField {
    /// Whether the node is expanded; absent if it can't be.
    Expanded,
    /// Whether the node is selected; absent if it can't be.
    Selected,
}

macro_rules! bool_fields {
    ($form:ident $($of:tt)*) => {
        $form!(($($of)*) BoolField {
            Expanded = is_expanded, set_expanded;
            Selected = is_selected, set_selected
        })
    };
}

/// A colour.
#[derive(Clone, Copy)]
pub enum ColorField {
    Background,
    Foreground,
}

macro_rules! color_fields {
    ($form:ident $($of:tt)*) => {
        $form!(($($of)*) ColorField {
            Background = background_color, set_background_color;
            Foreground = foreground_color, set_foreground_color
        })
    };
}

/// A line above, through or below text.
#[derive(Clone, Copy)]
pub enum DecorationField {
    Overline,
    Strikethrough,
    Underline,
}

macro_rules! decoration_fields {
    ($form:ident $($of:tt)*) => {
        $form!(($($of)*) DecorationField {
            Overline = overline, set_overline;
            Strikethrough = strikethrough, set_strikethrough;
            Underline = underline, set_underline
        })
    };
}

/// A number, with a minus sign if it is negative.
#[derive(Clone, Copy)]
pub enum NumberField {
    NumericValue,
    MinNumericValue,
    MaxNumericValue,
    NumericValueStep,
    NumericValueJump,
    ScrollX,
    ScrollXMin,
    ScrollXMax,
    ScrollY,
    ScrollYMin,
    ScrollYMax,
}

macro_rules! number_fields {
    ($form:ident $($of:tt)*) => {
        $form!(($($of)*) NumberField {
            NumericValue = numeric_value, set_numeric_value;
            MinNumericValue = min_numeric_value, set_min_numeric_value;
            MaxNumericValue = max_numeric_value, set_max_numeric_value;
            NumericValueStep = numeric_value_step, set_numeric_value_step;
            NumericValueJump = numeric_value_jump, set_numeric_value_jump;
            ScrollX = scroll_x, set_scroll_x;
            ScrollXMin = scroll_x_min, set_scroll_x_min;
            ScrollXMax = scroll_x_max, set_scroll_x_max;
            ScrollY = scroll_y, set_scroll_y;
            ScrollYMin = scroll_y_min, set_scroll_y_min;
            ScrollYMax = scroll_y_max, set_scroll_y_max
        })
    };
}

/// A count.
#[derive(Clone, Copy)]
pub enum CountField {
    Level,
    SizeOfSet,
    PositionInSet,
}

macro_rules! count_fields {
    ($form:ident $($of:tt)*) => {
        $form!(($($of)*) CountField {
            Level = level, set_level;
            SizeOfSet = size_of_set, set_size_of_set;
            PositionInSet = position_in_set, set_position_in_set
        })
    };
}

/// A set of actions.
#[derive(Clone, Copy)]
pub enum ActionsField {
    /// What the node can be asked to do, as `actions=Click,Focus`.
    Own,
    /// What each of the node's children can be asked to do.
    Children,
}

/// A field of a node.
#[derive(Clone, Copy)]
pub enum Field {
    Ids(IdsField),
    Id(IdField),
    Text(TextField),
    Flag(FlagField),
    Numbers(NumbersField),
    Units(UnitsField),
    Bool(BoolField),
    Color(ColorField),
    Decoration(DecorationField),
    Number(NumberField),
    Count(CountField),
    Actions(ActionsField),
    /// Makes the node a graft: its only child is the root of that tree, once there is one.
    Tree,
    /// The node's rectangle, in units of 1/64 pixel, before any translation.
    Bounds,
    /// By how much the node and its subtree are shifted, in units of 1/64 pixel.
    Transform,
    /// Where the selection in the node's text began, and the end that moves.
    Selection,
    /// Whether a check box, a switch or a button is on.
    Toggled,
    /// How changes are announced.
    Live,
    /// The axis along which a control lies.
    Orientation,
    /// How a column or a row is sorted.
    SortDirection,
    /// As what the node is the current one of its set.
    AriaCurrent,
    /// What pops up from the node.
    HasPopup,
    /// The size of the font, in hundredths of a pixel.
    FontSize,
    /// The weight of the font: 400 is regular, 700 bold.
    FontWeight,
    /// The direction of the text.
    TextDirection,
    /// How the text is aligned.
    TextAlign,
    /// Whether the text is subscript or superscript.
    VerticalOffset,
}

pub(crate) use bool_fields;
pub(crate) use color_fields;
pub(crate) use count_fields;
pub(crate) use decoration_fields;
pub(crate) use flag_fields;
pub(crate) use id_fields;
pub(crate) use ids_fields;
pub(crate) use number_fields;
pub(crate) use numbers_fields;
pub(crate) use text_fields;
pub(crate) use units_fields;

/// All fields, each with its name, in the order in which they are written. A comment names the section of docs/SCRIPT.md for the fields
/// below it.
macro_rules! fields {
    ($form:ident) => {
        $form! {
            // Structure
            "children" = Field::Ids(IdsField::Children),
            "labelled" = Field::Ids(IdsField::LabelledBy),
            "controls" = Field::Ids(IdsField::Controls),
            "tree" = Field::Tree,
            "active" = Field::Id(IdField::ActiveDescendant),
            // Texts
            "label" = Field::Text(TextField::Label),
            "value" = Field::Text(TextField::Value),
            "description" = Field::Text(TextField::Description),
            "placeholder" = Field::Text(TextField::Placeholder),
            "role_description" = Field::Text(TextField::RoleDescription),
            "url" = Field::Text(TextField::Url),
            "author_id" = Field::Text(TextField::AuthorId),
            "html_id" = Field::Text(TextField::HtmlId),
            "class_name" = Field::Text(TextField::ClassName),
            "braille_label" = Field::Text(TextField::BrailleLabel),
            "braille_role_description" = Field::Text(TextField::BrailleRoleDescription),
            "column_index_text" = Field::Text(TextField::ColumnIndexText),
            "row_index_text" = Field::Text(TextField::RowIndexText),
            // How text looks
            "font_family" = Field::Text(TextField::FontFamily),
            "language" = Field::Text(TextField::Language),
            // State
            "hidden" = Field::Flag(FlagField::Hidden),
            // Where a node lies
            "clips" = Field::Flag(FlagField::ClipsChildren),
            // State
            "disabled" = Field::Flag(FlagField::Disabled),
            "read_only" = Field::Flag(FlagField::ReadOnly),
            "required" = Field::Flag(FlagField::Required),
            "modal" = Field::Flag(FlagField::Modal),
            "busy" = Field::Flag(FlagField::Busy),
            "multiselectable" = Field::Flag(FlagField::Multiselectable),
            // How text looks
            "italic" = Field::Flag(FlagField::Italic),
            // State
            "live_atomic" = Field::Flag(FlagField::LiveAtomic),
            "touch_transparent" = Field::Flag(FlagField::TouchTransparent),
            // Where a node lies
            "bounds" = Field::Bounds,
            "move" = Field::Transform,
            // Runs of text
            "selection" = Field::Selection,
            "chars" = Field::Numbers(NumbersField::CharacterLengths),
            "words" = Field::Numbers(NumbersField::WordStarts),
            "character_positions" = Field::Units(UnitsField::CharacterPositions),
            "character_widths" = Field::Units(UnitsField::CharacterWidths),
            "prev" = Field::Id(IdField::PreviousOnLine),
            "next" = Field::Id(IdField::NextOnLine),
            // State
            "toggled" = Field::Toggled,
            "expanded" = Field::Bool(BoolField::Expanded),
            "selected" = Field::Bool(BoolField::Selected),
            "live" = Field::Live,
            "orientation" = Field::Orientation,
            "sort_direction" = Field::SortDirection,
            "aria_current" = Field::AriaCurrent,
            "has_popup" = Field::HasPopup,
            // How text looks
            "font_size" = Field::FontSize,
            "font_weight" = Field::FontWeight,
            "background_color" = Field::Color(ColorField::Background),
            "foreground_color" = Field::Color(ColorField::Foreground),
            "overline" = Field::Decoration(DecorationField::Overline),
            "strikethrough" = Field::Decoration(DecorationField::Strikethrough),
            "underline" = Field::Decoration(DecorationField::Underline),
            "text_direction" = Field::TextDirection,
            "text_align" = Field::TextAlign,
            "vertical_offset" = Field::VerticalOffset,
            // Numbers and places in a set
            "number" = Field::Number(NumberField::NumericValue),
            "min" = Field::Number(NumberField::MinNumericValue),
            "max" = Field::Number(NumberField::MaxNumericValue),
            "step" = Field::Number(NumberField::NumericValueStep),
            "jump" = Field::Number(NumberField::NumericValueJump),
            "level" = Field::Count(CountField::Level),
            "set_size" = Field::Count(CountField::SizeOfSet),
            "position" = Field::Count(CountField::PositionInSet),
            // Where a node lies
            "scroll_x" = Field::Number(NumberField::ScrollX),
            "scroll_x_min" = Field::Number(NumberField::ScrollXMin),
            "scroll_x_max" = Field::Number(NumberField::ScrollXMax),
            "scroll_y" = Field::Number(NumberField::ScrollY),
            "scroll_y_min" = Field::Number(NumberField::ScrollYMin),
            "scroll_y_max" = Field::Number(NumberField::ScrollYMax),
            // Actions
            "actions" = Field::Actions(ActionsField::Own),
            "child_actions" = Field::Actions(ActionsField::Children),
        }
    };
}

macro_rules! with_names {
    ($($name:literal = $field:expr,)+) => {
        &[$(($name, $field)),+]
    };
}

macro_rules! names_alone {
    ($($name:literal = $field:expr,)+) => {
        &[$($name),+]
    };
}

/// The table that [`named_fields`] returns.
static FIELD_NAMES: &[(&str, Field)] = fields!(with_names);

/// Each field with its name, in the order in which fields are written.
pub fn named_fields() -> &'static [(&'static str, Field)]
    ensures names { map (λ entry. entry.0.now) result.now ≡ map (λ entry. field_name entry.1) result.now }
    ensures fields { map (λ entry. entry.1) result.now ≡ all_fields }
{
    FIELD_NAMES
}

/// The names that [`node_field_names`] returns.
static FIELD_WORDS: &[&str] = fields!(names_alone);

/// The names of the fields of a node, in the order in which fields are written.
pub fn node_field_names() -> &'static [&'static str]
    ensures { map (λ name. name.now) result.now ≡ map field_name all_fields }
{
    FIELD_WORDS
}

/// The field with this name.
pub fn field_named(name: &str) -> Option<Field>
    ensures { MatchOption result ((field : Field) → name.now ≢ field_name field) (λ field. name.now ≡ field_name field) }
{
    named(named_fields(), name)
}

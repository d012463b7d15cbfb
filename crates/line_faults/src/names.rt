//! The words of each list.

ghost use Rattle.std.specs.Prelude.{◌≡◌, map};
ghost use Rattle.line_faults.specs.Known.{field_names, role_names};

use crate::reasons::{FieldSet, WordSet};
use script_nodes::node_field_names;
use script_words::name_lists::{
    aria_current_names, decoration_style_names, filter_names, has_popup_names, live_names,
    move_names, orientation_names, side_names, sort_direction_names, text_align_names,
    text_direction_names, toggled_names, truth_names, vertical_offset_names,
};

/// The names of the fields of the line that begins an update.
static UPDATE_FIELDS: [&str; 4] = ["focus", "root", "toolkit", "version"];

/// The names of fields.
pub(crate) fn field_names(set: FieldSet) -> &'static [&'static str]
    ensures { map (λ name. name.now) result.now ≡ field_names set }
{
    match set {
        FieldSet::Node => node_field_names(),
        FieldSet::Update => &UPDATE_FIELDS,
    }
}

static COMMANDS: [&str; 20] = [
    "update",
    "node",
    "end",
    "host",
    "print",
    "focus",
    "children",
    "following",
    "preceding",
    "filtered",
    "following_filtered",
    "preceding_filtered",
    "set",
    "hit",
    "label",
    "value",
    "text",
    "move",
    "indexes",
    "between",
];

static HOST_STATES: [&str; 2] = ["on", "off"];

static ACTIONS: [&str; 4] = ["Click", "Focus", "Increment", "Decrement"];

/// The words of a list.
pub(crate) fn words(set: WordSet) -> &'static [&'static str] {
    match set {
        WordSet::Commands => &COMMANDS,
        WordSet::HostStates => &HOST_STATES,
        WordSet::Filters => filter_names(),
        WordSet::Sides => side_names(),
        WordSet::Moves => move_names(),
        WordSet::Actions => &ACTIONS,
        WordSet::Toggles => toggled_names(),
        WordSet::Truths => truth_names(),
        WordSet::Lives => live_names(),
        WordSet::Orientations => orientation_names(),
        WordSet::SortDirections => sort_direction_names(),
        WordSet::Currents => aria_current_names(),
        WordSet::Popups => has_popup_names(),
        WordSet::TextDirections => text_direction_names(),
        WordSet::TextAligns => text_align_names(),
        WordSet::VerticalOffsets => vertical_offset_names(),
        WordSet::DecorationStyles => decoration_style_names(),
    }
}

/// The names of roles. A role that is sent by a number has no name.
static ROLES: [&str; 72] = [
    "Unknown",
    "Window",
    "ScrollView",
    "Paragraph",
    "GenericContainer",
    "TextRun",
    "Label",
    "Image",
    "Document",
    "Terminal",
    "TextInput",
    "MultilineTextInput",
    "SearchInput",
    "DateInput",
    "DateTimeInput",
    "WeekInput",
    "MonthInput",
    "TimeInput",
    "EmailInput",
    "NumberInput",
    "PasswordInput",
    "PhoneNumberInput",
    "UrlInput",
    "EditableComboBox",
    "SpinButton",
    "ListBox",
    "TabList",
    "AlertDialog",
    "Dialog",
    "ComboBox",
    "DisclosureTriangle",
    "TreeItem",
    "Button",
    "CheckBox",
    "DefaultButton",
    "Link",
    "MenuItem",
    "MenuItemCheckBox",
    "MenuItemRadio",
    "RadioButton",
    "DocBackLink",
    "DocBiblioRef",
    "DocGlossRef",
    "DocNoteRef",
    "ColorWell",
    "Grid",
    "MenuListPopup",
    "RadioGroup",
    "Slider",
    "Switch",
    "TreeGrid",
    "Article",
    "Definition",
    "DescriptionList",
    "GraphicsDocument",
    "List",
    "ListItem",
    "PdfRoot",
    "ProgressIndicator",
    "RootWebArea",
    "Term",
    "Timer",
    "Toolbar",
    "Tooltip",
    "Comment",
    "Tab",
    "ListBoxOption",
    "MenuListOption",
    "ListGrid",
    "Menu",
    "MenuBar",
    "Tree",
];

/// The names of roles, in the order of the roles. Roles that are sent by a number aren't among them.
pub fn role_names() -> &'static [&'static str]
    ensures { map (λ name. name.now) result.now ≡ role_names }
{
    &ROLES
}

//! Words for roles, and how toggle states of roles are said.
ghost use Rattle.std.specs.Prelude.{◌≡◌, ◌<◌, length};
ghost use Rattle.phrases.specs.Roles.{role_word, other_word, toggling_of};

use crate::states::Toggling;
use role_names::word_of;
use schema::Role;

/// The word for a role: of one that is sent by a number that of its name, or `element` if the number has no name. Each role has
/// a word, and none is empty.
pub fn role_word(role: Role) -> &'static str
    ensures word { result.now ≡ role_word role }
    ensures some { 0 < length result.now }
{
    match role {
        Role::Unknown => "unknown",
        Role::Window => "window",
        Role::ScrollView => "scroll view",
        Role::Paragraph => "paragraph",
        Role::GenericContainer => "group",
        Role::TextRun => "text",
        Role::Label => "label",
        Role::Image => "image",
        Role::Document => "document",
        Role::Terminal => "terminal",
        Role::TextInput => "text input",
        Role::MultilineTextInput => "multiline text input",
        Role::SearchInput => "search input",
        Role::DateInput => "date input",
        Role::DateTimeInput => "date and time input",
        Role::WeekInput => "week input",
        Role::MonthInput => "month input",
        Role::TimeInput => "time input",
        Role::EmailInput => "email input",
        Role::NumberInput => "number input",
        Role::PasswordInput => "password input",
        Role::PhoneNumberInput => "phone number input",
        Role::UrlInput => "address input",
        Role::EditableComboBox => "editable combo box",
        Role::SpinButton => "spin button",
        Role::ListBox => "list box",
        Role::TabList => "tab list",
        Role::AlertDialog => "alert dialog",
        Role::Dialog => "dialog",
        Role::ComboBox => "combo box",
        Role::DisclosureTriangle => "disclosure triangle",
        Role::TreeItem => "tree item",
        Role::Button => "button",
        Role::CheckBox => "check box",
        Role::DefaultButton => "default button",
        Role::Link => "link",
        Role::MenuItem => "menu item",
        Role::MenuItemCheckBox => "menu check box",
        Role::MenuItemRadio => "menu radio button",
        Role::RadioButton => "radio button",
        Role::DocBackLink => "back link",
        Role::DocBiblioRef => "bibliography link",
        Role::DocGlossRef => "glossary link",
        Role::DocNoteRef => "note link",
        Role::ColorWell => "color well",
        Role::Grid => "grid",
        Role::MenuListPopup => "menu list",
        Role::RadioGroup => "radio group",
        Role::Slider => "slider",
        Role::Switch => "switch",
        Role::TreeGrid => "tree grid",
        Role::Article => "article",
        Role::Definition => "definition",
        Role::DescriptionList => "description list",
        Role::GraphicsDocument => "graphics document",
        Role::List => "list",
        Role::ListItem => "list item",
        Role::PdfRoot => "PDF document",
        Role::ProgressIndicator => "progress bar",
        Role::RootWebArea => "web page",
        Role::Term => "term",
        Role::Timer => "timer",
        Role::Toolbar => "toolbar",
        Role::Tooltip => "tooltip",
        Role::Comment => "comment",
        Role::Tab => "tab",
        Role::ListBoxOption => "option",
        Role::MenuListOption => "menu option",
        Role::ListGrid => "list grid",
        Role::Menu => "menu",
        Role::MenuBar => "menu bar",
        Role::Tree => "tree",
        Role::Other(number) => other_word(number),
    }
}

/// The word for a role that is sent by this number.
fn other_word(number: u16) -> &'static str
    ensures word { result.now ≡ other_word number }
    ensures some { 0 < length result.now }
{
    match word_of(number) {
        Some(word) => word,
        None => "element",
    }
}

/// How the toggle state of a control is said.
pub fn toggling_of(role: Role) -> Toggling
    ensures { result ≡ toggling_of role }
{
    match role {
        Role::Button | Role::DefaultButton => Toggling::Presses,
        Role::Switch => Toggling::Switches,
        _ => Toggling::Checks,
    }
}

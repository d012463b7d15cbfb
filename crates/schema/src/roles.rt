//! Roles: their equality, and how they print.

ghost use Rattle.std.specs.Prelude.{◌≡◌, ◌↔◌, IsTrue, Some, map};
ghost use Rattle.std.specs.List.{range_with_len};
ghost use Rattle.schema.specs.RoleNames.{role_name, other_number, role_text};
ghost use Rattle.schema.specs.Roles.{role_number, same_role, same_role_laws, same_role_equivalence};

use crate::Role;
use std::fmt;

/// The table that [`named_roles`] returns.
static ROLE_NAMES: [(&str, Role); 72] = [
    ("Unknown", Role::Unknown),
    ("Window", Role::Window),
    ("ScrollView", Role::ScrollView),
    ("Paragraph", Role::Paragraph),
    ("GenericContainer", Role::GenericContainer),
    ("TextRun", Role::TextRun),
    ("Label", Role::Label),
    ("Image", Role::Image),
    ("Document", Role::Document),
    ("Terminal", Role::Terminal),
    ("TextInput", Role::TextInput),
    ("MultilineTextInput", Role::MultilineTextInput),
    ("SearchInput", Role::SearchInput),
    ("DateInput", Role::DateInput),
    ("DateTimeInput", Role::DateTimeInput),
    ("WeekInput", Role::WeekInput),
    ("MonthInput", Role::MonthInput),
    ("TimeInput", Role::TimeInput),
    ("EmailInput", Role::EmailInput),
    ("NumberInput", Role::NumberInput),
    ("PasswordInput", Role::PasswordInput),
    ("PhoneNumberInput", Role::PhoneNumberInput),
    ("UrlInput", Role::UrlInput),
    ("EditableComboBox", Role::EditableComboBox),
    ("SpinButton", Role::SpinButton),
    ("ListBox", Role::ListBox),
    ("TabList", Role::TabList),
    ("AlertDialog", Role::AlertDialog),
    ("Dialog", Role::Dialog),
    ("ComboBox", Role::ComboBox),
    ("DisclosureTriangle", Role::DisclosureTriangle),
    ("TreeItem", Role::TreeItem),
    ("Button", Role::Button),
    ("CheckBox", Role::CheckBox),
    ("DefaultButton", Role::DefaultButton),
    ("Link", Role::Link),
    ("MenuItem", Role::MenuItem),
    ("MenuItemCheckBox", Role::MenuItemCheckBox),
    ("MenuItemRadio", Role::MenuItemRadio),
    ("RadioButton", Role::RadioButton),
    ("DocBackLink", Role::DocBackLink),
    ("DocBiblioRef", Role::DocBiblioRef),
    ("DocGlossRef", Role::DocGlossRef),
    ("DocNoteRef", Role::DocNoteRef),
    ("ColorWell", Role::ColorWell),
    ("Grid", Role::Grid),
    ("MenuListPopup", Role::MenuListPopup),
    ("RadioGroup", Role::RadioGroup),
    ("Slider", Role::Slider),
    ("Switch", Role::Switch),
    ("TreeGrid", Role::TreeGrid),
    ("Article", Role::Article),
    ("Definition", Role::Definition),
    ("DescriptionList", Role::DescriptionList),
    ("GraphicsDocument", Role::GraphicsDocument),
    ("List", Role::List),
    ("ListItem", Role::ListItem),
    ("PdfRoot", Role::PdfRoot),
    ("ProgressIndicator", Role::ProgressIndicator),
    ("RootWebArea", Role::RootWebArea),
    ("Term", Role::Term),
    ("Timer", Role::Timer),
    ("Toolbar", Role::Toolbar),
    ("Tooltip", Role::Tooltip),
    ("Comment", Role::Comment),
    ("Tab", Role::Tab),
    ("ListBoxOption", Role::ListBoxOption),
    ("MenuListOption", Role::MenuListOption),
    ("ListGrid", Role::ListGrid),
    ("Menu", Role::Menu),
    ("MenuBar", Role::MenuBar),
    ("Tree", Role::Tree),
];

/// Each role but `Other` with its name, in the order of the roles.
pub fn named_roles() -> &'static [(&'static str, Role)]
    ensures names { map (λ entry. entry.0.now) result.now ≡ map (λ entry. role_name entry.1) result.now }
    ensures roles { map (λ entry. role_number entry.1) result.now ≡ range_with_len 0 72 }
{
    &ROLE_NAMES
}

impl PartialEq for Role {
    ghost eq = { same_role };

    ghost laws = { same_role_laws };

    fn eq(&self, other: &Role) -> bool
        ensures value { result ≡ same_role self.now other.now }
        ensures exact { IsTrue result ↔ (self.now ≡ other.now) }
    {
        self.number() == other.number()
    }
}

impl Eq for Role {
    ghost laws = { same_role_equivalence };
}

/// A role prints as its name, and one without a name by its number, as in `Other(7)`.
impl fmt::Display for Role {
    ghost output = { λ r. Some (role_text r) };

    fn fmt<W: fmt::Write>(&self, f: &mut fmt::Formatter<W>) -> fmt::Result {
        let name = self.name();
        match self.other_number() {
            Some(number) => write!(f, "{name}({number})"),
            None => write!(f, "{name}"),
        }
    }
}

impl Role {
    /// The role's number, counted from 0: its place among [`named_roles`]; that of `Other(n)` is 72 + n.
    pub fn number(self) -> u32
        ensures { result ≡ role_number self }
    {
        match self {
            Role::Unknown => 0,
            Role::Window => 1,
            Role::ScrollView => 2,
            Role::Paragraph => 3,
            Role::GenericContainer => 4,
            Role::TextRun => 5,
            Role::Label => 6,
            Role::Image => 7,
            Role::Document => 8,
            Role::Terminal => 9,
            Role::TextInput => 10,
            Role::MultilineTextInput => 11,
            Role::SearchInput => 12,
            Role::DateInput => 13,
            Role::DateTimeInput => 14,
            Role::WeekInput => 15,
            Role::MonthInput => 16,
            Role::TimeInput => 17,
            Role::EmailInput => 18,
            Role::NumberInput => 19,
            Role::PasswordInput => 20,
            Role::PhoneNumberInput => 21,
            Role::UrlInput => 22,
            Role::EditableComboBox => 23,
            Role::SpinButton => 24,
            Role::ListBox => 25,
            Role::TabList => 26,
            Role::AlertDialog => 27,
            Role::Dialog => 28,
            Role::ComboBox => 29,
            Role::DisclosureTriangle => 30,
            Role::TreeItem => 31,
            Role::Button => 32,
            Role::CheckBox => 33,
            Role::DefaultButton => 34,
            Role::Link => 35,
            Role::MenuItem => 36,
            Role::MenuItemCheckBox => 37,
            Role::MenuItemRadio => 38,
            Role::RadioButton => 39,
            Role::DocBackLink => 40,
            Role::DocBiblioRef => 41,
            Role::DocGlossRef => 42,
            Role::DocNoteRef => 43,
            Role::ColorWell => 44,
            Role::Grid => 45,
            Role::MenuListPopup => 46,
            Role::RadioGroup => 47,
            Role::Slider => 48,
            Role::Switch => 49,
            Role::TreeGrid => 50,
            Role::Article => 51,
            Role::Definition => 52,
            Role::DescriptionList => 53,
            Role::GraphicsDocument => 54,
            Role::List => 55,
            Role::ListItem => 56,
            Role::PdfRoot => 57,
            Role::ProgressIndicator => 58,
            Role::RootWebArea => 59,
            Role::Term => 60,
            Role::Timer => 61,
            Role::Toolbar => 62,
            Role::Tooltip => 63,
            Role::Comment => 64,
            Role::Tab => 65,
            Role::ListBoxOption => 66,
            Role::MenuListOption => 67,
            Role::ListGrid => 68,
            Role::Menu => 69,
            Role::MenuBar => 70,
            Role::Tree => 71,
            Role::Other(n) => 72 + n as u32,
        }
    }

    /// The number of a role without a name.
    fn other_number(self) -> Option<u16>
        ensures { result ≡ other_number self }
    {
        match self {
            Role::Other(number) => Some(number),
            _ => None,
        }
    }

    /// The role's name; `Other` for a role without a name, whatever its number.
    fn name(self) -> &'static str
        ensures { result.now ≡ role_name self }
    {
        if let Role::Other(_) = self {
            return "Other";
        }
        named_roles()[self.number() as usize].0
    }
}

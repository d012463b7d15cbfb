//! Properties of a node that follow from its role.
ghost use Rattle.std.specs.Prelude.{◌≡◌};
ghost use Rattle.model.specs.RoleClasses.{is_text_input, is_multiline, is_password_input, is_dialog, is_item_like, is_container_with_selectable_children, is_label, is_document, is_expandable, is_link, is_other_field, is_read_only_supported, is_read_only_by_default, usual_orientation};
ghost use Rattle.model.specs.Views.{orientation, is_read_only, is_read_only_or_disabled};
ghost use Rattle.views.specs.Nodes.{data_at};

use crate::node::NodeRef;
use crate::walks::items::is_item;
use schema::{Orientation, Role};

impl NodeRef<'_> {
    /// Whether the node is a text input.
    pub fn is_text_input(&self) -> bool
        ensures { result ≡ is_text_input (data_at self.now).role }
    {
        matches!(
            self.node.role(),
            Role::TextInput
                | Role::MultilineTextInput
                | Role::SearchInput
                | Role::DateInput
                | Role::DateTimeInput
                | Role::WeekInput
                | Role::MonthInput
                | Role::TimeInput
                | Role::EmailInput
                | Role::NumberInput
                | Role::PasswordInput
                | Role::PhoneNumberInput
                | Role::UrlInput
                | Role::EditableComboBox
                | Role::SpinButton
        )
    }

    /// Whether the node's text can have several lines.
    pub fn is_multiline(&self) -> bool
        ensures { result ≡ is_multiline (data_at self.now).role }
    {
        matches!(self.node.role(), Role::MultilineTextInput)
    }

    /// Whether the node is a password input.
    pub fn is_password_input(&self) -> bool
        ensures { result ≡ is_password_input (data_at self.now).role }
    {
        matches!(self.node.role(), Role::PasswordInput)
    }

    /// Whether the node is a dialog.
    pub fn is_dialog(&self) -> bool
        ensures { result ≡ is_dialog (data_at self.now).role }
    {
        matches!(self.node.role(), Role::AlertDialog | Role::Dialog)
    }

    /// Whether the node can be an item of a set.
    pub fn is_item_like(&self) -> bool
        ensures { result ≡ is_item_like (data_at self.now).role }
    {
        is_item(self.node.role())
    }

    /// Whether the node's children can be selected.
    pub fn is_container_with_selectable_children(&self) -> bool
        ensures { result ≡ is_container_with_selectable_children (data_at self.now).role }
    {
        matches!(
            self.node.role(),
            Role::ComboBox
                | Role::EditableComboBox
                | Role::Grid
                | Role::ListBox
                | Role::ListGrid
                | Role::Menu
                | Role::MenuBar
                | Role::MenuListPopup
                | Role::RadioGroup
                | Role::TabList
                | Role::Toolbar
                | Role::Tree
                | Role::TreeGrid
        )
    }

    /// Whether the node is a label, whose value labels other nodes.
    pub fn label_comes_from_value(&self) -> bool
        ensures { result ≡ is_label (data_at self.now).role }
    {
        matches!(self.node.role(), Role::Label)
    }

    /// Whether the node holds text that is read and not edited.
    pub(crate) fn is_document(&self) -> bool
        ensures { result ≡ is_document (data_at self.now).role }
    {
        matches!(self.node.role(), Role::Document | Role::Terminal)
    }

    /// Whether nodes of this role expand and collapse.
    pub(crate) fn is_expandable(&self) -> bool
        ensures { result ≡ is_expandable (data_at self.now).role }
    {
        matches!(
            self.node.role(),
            Role::ComboBox | Role::EditableComboBox | Role::DisclosureTriangle | Role::TreeItem
        )
    }

    /// Whether the node's role is that of a link.
    pub(crate) fn is_link(&self) -> bool
        ensures { result ≡ is_link (data_at self.now).role }
    {
        matches!(
            self.node.role(),
            Role::Link
                | Role::DocBackLink
                | Role::DocBiblioRef
                | Role::DocGlossRef
                | Role::DocNoteRef
        )
    }

    /// Whether the node is a field or a choice, other than a text input, that can be read-only.
    fn is_other_field(&self) -> bool
        ensures { result ≡ is_other_field (data_at self.now).role }
    {
        matches!(
            self.node.role(),
            Role::CheckBox
                | Role::ColorWell
                | Role::ComboBox
                | Role::Grid
                | Role::ListBox
                | Role::MenuItemCheckBox
                | Role::MenuItemRadio
                | Role::MenuListPopup
                | Role::RadioButton
                | Role::RadioGroup
                | Role::Slider
                | Role::Switch
                | Role::TreeGrid
        )
    }

    /// Whether the read-only state applies to the node: it is a text input or another field.
    pub fn is_read_only_supported(&self) -> bool
        ensures { result ≡ is_read_only_supported (data_at self.now).role }
    {
        self.is_text_input() || self.is_other_field()
    }

    /// Whether nodes of this role are read-only unless stated otherwise.
    pub fn should_have_read_only_state_by_default(&self) -> bool
        ensures { result ≡ is_read_only_by_default (data_at self.now).role }
    {
        matches!(
            self.node.role(),
            Role::Article
                | Role::Definition
                | Role::DescriptionList
                | Role::Document
                | Role::GraphicsDocument
                | Role::Image
                | Role::List
                | Role::ListItem
                | Role::PdfRoot
                | Role::ProgressIndicator
                | Role::RootWebArea
                | Role::Term
                | Role::Timer
                | Role::Toolbar
                | Role::Tooltip
        )
    }

    /// Whether the node is read-only: by its flag, by its role, or because the read-only state doesn't apply to it.
    pub fn is_read_only(&self) -> bool
        ensures { result ≡ is_read_only (data_at self.now) }
    {
        self.node.is_read_only()
            || self.should_have_read_only_state_by_default()
            || !self.is_read_only_supported()
    }

    /// Whether the node is read-only or disabled.
    pub fn is_read_only_or_disabled(&self) -> bool
        ensures { result ≡ is_read_only_or_disabled (data_at self.now) }
    {
        self.is_read_only() || self.is_disabled()
    }

    /// The axis along which the node is laid out: as sent in the update, or else by its role.
    pub fn orientation(&self) -> Option<Orientation>
        ensures { result ≡ orientation (data_at self.now) }
    {
        match self.node.orientation() {
            Some(orientation) => Some(orientation),
            None => self.usual_orientation(),
        }
    }

    /// The usual axis of nodes of this role.
    fn usual_orientation(&self) -> Option<Orientation>
        ensures { result ≡ usual_orientation (data_at self.now).role }
    {
        match self.node.role() {
            Role::ListBox => Some(Orientation::Vertical),
            Role::TabList => Some(Orientation::Horizontal),
            _ => None,
        }
    }
}

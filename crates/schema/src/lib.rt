//! Nodes, the updates that bring them, and the writer of text. No rule about trees is here.
//!
//! A node is built by [`Node::new`] and its setters, and sent in a [`TreeUpdate`]. Contracts see a node as the
//! plain record `NodeData` of `specs/`, field by field, and nothing of how the fields are kept in memory.
#![tactic(auto)]

ghost use Rattle.std.specs.Prelude.{◌≡◌, Some};
ghost use Rattle.std.specs.Fmt.{decimal};
ghost use Rattle.uuid.specs.Text.{hyphenated_text, lower};
ghost use Rattle.schema.specs.NodeData.{empty_node};
ghost use Rattle.schema.specs.TreeIds.{root_tree_id};

mod actions;
mod builder;
mod copies;
mod equality;
mod flags;
mod geometry;
mod lists;
mod marks;
mod numbers;
mod plain_fields;
mod rare_part;
mod rare_texts;
mod roles;
mod run_fits;
mod run_text;
mod runs;
mod styles;
mod text_write;
mod texts;
mod update;
mod values;

pub use actions::Action;
use actions::ActionWords;
pub use builder::NodeBuilder;
pub use geometry::{Point, Rect, Translation, WideRect, WideTranslation};
use marks::Marks;
use plain_fields::PlainFields;
use rare_part::RarePart;
pub use roles::named_roles;
use run_text::RunText;
use std::alloc::Global;
use std::fmt;
use std::marker::Model;
pub use text_write::{TextBuffer, TextFault, TextWrite};
pub use update::{TreeInfo, TreeUpdate};
use uuid::Uuid;
pub use values::{
    AriaCurrent, Color, HasPopup, Live, Orientation, SortDirection, TextAlign, TextDecoration,
    TextDecorationStyle, TextDirection, TextPosition, TextSelection, Toggled, VerticalOffset,
};

/// The id of a node within its tree.
#[derive(Clone, Copy, Debug, PartialEq, Eq, PartialOrd, Ord, Hash)]
pub struct NodeId(pub u64);

/// A node's id prints in decimal.
impl fmt::Display for NodeId {
    ghost output = { λ id. Some (decimal id.0) };

    fn fmt<W: fmt::Write>(&self, f: &mut fmt::Formatter<W>) -> fmt::Result {
        let number = self.0;
        write!(f, "{number}")
    }
}

/// The id with this number.
impl From<u64> for NodeId {
    ghost from_gives = { λ number id. id ≡ record { 0 = number } };

    fn from(number: u64) -> NodeId {
        NodeId(number)
    }
}

/// The number of the id.
impl From<NodeId> for u64 {
    ghost from_gives = { λ id number. number ≡ id.0 };

    fn from(id: NodeId) -> u64 {
        id.0
    }
}

/// The id of a tree, a UUID.
#[derive(Clone, Copy, Debug, PartialEq, Eq, PartialOrd, Ord, Hash)]
pub struct TreeId(pub Uuid);

impl TreeId {
    /// The root tree's id, which is the nil UUID.
    pub fn root() -> TreeId
        ensures { result ≡ root_tree_id }
    {
        TreeId(Uuid::nil())
    }
}

/// A tree's id prints as a UUID does: hyphenated, in lower case.
impl fmt::Display for TreeId {
    ghost output = { λ id. Some (hyphenated_text lower id.0) };

    fn fmt<W: fmt::Write>(&self, f: &mut fmt::Formatter<W>) -> fmt::Result {
        let uuid = self.0;
        write!(f, "{uuid}")
    }
}

/// The role of a node: what kind of element it is.
#[derive(Clone, Copy, Debug)]
pub enum Role {
    Unknown,
    Window,
    ScrollView,
    Paragraph,
    GenericContainer,
    TextRun,
    Label,
    Image,
    Document,
    Terminal,
    TextInput,
    MultilineTextInput,
    SearchInput,
    DateInput,
    DateTimeInput,
    WeekInput,
    MonthInput,
    TimeInput,
    EmailInput,
    NumberInput,
    PasswordInput,
    PhoneNumberInput,
    UrlInput,
    EditableComboBox,
    SpinButton,
    ListBox,
    TabList,
    AlertDialog,
    Dialog,
    ComboBox,
    DisclosureTriangle,
    TreeItem,
    Button,
    CheckBox,
    DefaultButton,
    Link,
    MenuItem,
    MenuItemCheckBox,
    MenuItemRadio,
    RadioButton,
    DocBackLink,
    DocBiblioRef,
    DocGlossRef,
    DocNoteRef,
    ColorWell,
    Grid,
    MenuListPopup,
    RadioGroup,
    Slider,
    Switch,
    TreeGrid,
    Article,
    Definition,
    DescriptionList,
    GraphicsDocument,
    List,
    ListItem,
    PdfRoot,
    ProgressIndicator,
    RootWebArea,
    Term,
    Timer,
    Toolbar,
    Tooltip,
    Comment,
    Tab,
    ListBoxOption,
    MenuListOption,
    ListGrid,
    Menu,
    MenuBar,
    Tree,
    /// A role without a name here, by its number.
    Other(u16),
}

/// A node of an accessibility tree: its role, its children and its properties. Most fields are optional.
#[derive(Drop)]
pub struct Node {
    marks: Marks,
    children: Vec<NodeId>,
    label: String,
    run: RunText,
    rare: RarePart,
    actions: ActionWords,
    child_actions: ActionWords,
    plain: PlainFields,
    alloc: Global,
}

impl Model for Node {
    ghost use Rattle.std.specs.Bool.{then_some};
    ghost use Rattle.std.specs.String.{string_bytes};
    ghost use Rattle.schema.specs.Actions.{set_with};
    ghost use Rattle.schema.specs.NodeData.{NodeData};
    ghost use Rattle.schema.specs.RareTexts.{text_under};
    ghost use Rattle.schema.specs.declared.rare_texts.RareText.TheVariants.{Description, RoleDescription, Placeholder, Url, AuthorId, HtmlId, ClassName, BrailleLabel, BrailleRoleDescription, ColumnIndexText, RowIndexText, FontFamily, Language};

    ghost Value = { NodeData };

    ghost view = { λ a. record {
      role = a.plain.role;
      children = a.children.items;
      labelled_by = a.rare.labelled_by;
      controls = a.rare.controls;
      active_descendant = then_some a.marks.active_descendant a.plain.active_descendant;
      previous_on_line = then_some a.marks.previous_on_line a.plain.previous_on_line;
      next_on_line = then_some a.marks.next_on_line a.plain.next_on_line;
      tree_id = then_some a.marks.tree_id a.plain.tree_id;
      label = then_some a.marks.label (string_bytes a.label);
      value = a.run.value;
      description = text_under Description a.rare.texts;
      role_description = text_under RoleDescription a.rare.texts;
      placeholder = text_under Placeholder a.rare.texts;
      url = text_under Url a.rare.texts;
      author_id = text_under AuthorId a.rare.texts;
      html_id = text_under HtmlId a.rare.texts;
      class_name = text_under ClassName a.rare.texts;
      braille_label = text_under BrailleLabel a.rare.texts;
      braille_role_description = text_under BrailleRoleDescription a.rare.texts;
      column_index_text = text_under ColumnIndexText a.rare.texts;
      row_index_text = text_under RowIndexText a.rare.texts;
      font_family = text_under FontFamily a.rare.texts;
      language = text_under Language a.rare.texts;
      hidden = a.marks.hidden;
      disabled = a.marks.disabled;
      read_only = a.marks.read_only;
      busy = a.marks.busy;
      live_atomic = a.marks.live_atomic;
      modal = a.marks.modal;
      multiselectable = a.marks.multiselectable;
      required = a.marks.required;
      touch_transparent = a.marks.touch_transparent;
      italic = a.marks.italic;
      clips_children = a.marks.clips_children;
      expanded = then_some a.marks.expanded a.plain.expanded;
      selected = then_some a.marks.selected a.plain.selected;
      level = then_some a.marks.level a.plain.level;
      size_of_set = then_some a.marks.size_of_set a.plain.size_of_set;
      position_in_set = then_some a.marks.position_in_set a.plain.position_in_set;
      numeric_value = then_some a.marks.numeric_value a.plain.numeric_value;
      min_numeric_value = then_some a.marks.min_numeric_value a.plain.min_numeric_value;
      max_numeric_value = then_some a.marks.max_numeric_value a.plain.max_numeric_value;
      numeric_value_step = then_some a.marks.numeric_value_step a.plain.numeric_value_step;
      numeric_value_jump = then_some a.marks.numeric_value_jump a.plain.numeric_value_jump;
      scroll_x = then_some a.marks.scroll_x a.plain.scroll_x;
      scroll_x_min = then_some a.marks.scroll_x_min a.plain.scroll_x_min;
      scroll_x_max = then_some a.marks.scroll_x_max a.plain.scroll_x_max;
      scroll_y = then_some a.marks.scroll_y a.plain.scroll_y;
      scroll_y_min = then_some a.marks.scroll_y_min a.plain.scroll_y_min;
      scroll_y_max = then_some a.marks.scroll_y_max a.plain.scroll_y_max;
      bounds = then_some a.marks.bounds a.plain.bounds;
      transform = then_some a.marks.transform a.plain.transform;
      actions = set_with a.plain.action_top a.actions;
      child_actions = set_with a.plain.child_action_top a.child_actions;
      text_selection = then_some a.marks.text_selection a.plain.text_selection;
      character_lengths = a.run.lists.lengths;
      word_starts = a.run.lists.starts;
      character_positions = a.run.lists.positions;
      character_widths = a.run.lists.widths;
      font_size = then_some a.marks.font_size a.plain.font_size;
      font_weight = then_some a.marks.font_weight a.plain.font_weight;
      background_color = then_some a.marks.background_color a.plain.background_color;
      foreground_color = then_some a.marks.foreground_color a.plain.foreground_color;
      overline = then_some a.marks.overline a.plain.overline;
      strikethrough = then_some a.marks.strikethrough a.plain.strikethrough;
      underline = then_some a.marks.underline a.plain.underline;
      toggled = then_some a.marks.toggled a.plain.toggled;
      orientation = then_some a.marks.orientation a.plain.orientation;
      sort_direction = then_some a.marks.sort_direction a.plain.sort_direction;
      aria_current = then_some a.marks.aria_current a.plain.aria_current;
      has_popup = then_some a.marks.has_popup a.plain.has_popup;
      live = then_some a.marks.live a.plain.live;
      text_direction = then_some a.marks.text_direction a.plain.text_direction;
      text_align = then_some a.marks.text_align a.plain.text_align;
      vertical_offset = then_some a.marks.vertical_offset a.plain.vertical_offset;
    } };
}

/// A tree may have a hundred thousand nodes.
const _: () = prove!(size_of::<Node>() <= 408);

impl Node {
    /// A node with this role and all other fields empty. Texts and lists that are set later are allocated from `alloc`.
    #[inline]
    pub fn new(alloc: Global, role: Role) -> Node
        ensures { result ≡ empty_node role }
    {
        Node {
            marks: Marks::new(),
            children: Vec::new(alloc),
            label: String::new(alloc),
            run: RunText::new(),
            rare: RarePart::new(),
            actions: ActionWords::new(),
            child_actions: ActionWords::new(),
            plain: PlainFields::new(role),
            alloc,
        }
    }

    /// The role of the node.
    pub fn role(&self) -> Role
        ensures { result ≡ self.now.role }
    {
        self.plain.role
    }

    /// Sets [`Node::role`].
    pub fn set_role(&mut self, role: Role)
        ensures { self.new ≡ record self.old { role = role } }
    {
        self.plain.role = role;
    }
}

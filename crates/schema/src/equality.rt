//! Equality of nodes, field by field.

ghost use Rattle.std.specs.Prelude.{◌≡◌, ◌↔◌, IsTrue, option_copied};
ghost use Rattle.schema.specs.Same.{same_node, same_node_laws, same_node_equivalence};
ghost use Rattle.schema.specs.Parts.{SameMarks, SameFirst, SameRarer, SameLinks, SameCounts, SameValues, SameScrolls, SameLooks, SameChoices, SameActions, SameRuns, SameRareParts, SameDescriptions, SameNames};

use crate::marks::Mark;
use crate::{
    AriaCurrent, Color, HasPopup, Live, Node, NodeId, Orientation, Rect, Role, SortDirection,
    TextAlign, TextDecoration, TextDirection, TextSelection, Toggled, Translation, TreeId,
    VerticalOffset,
};

/// The links to other nodes and trees, and the selection.
const LINKS: u64 = (1 << Mark::ActiveDescendant as u8)
    | (1 << Mark::PreviousOnLine as u8)
    | (1 << Mark::NextOnLine as u8)
    | (1 << Mark::TreeId as u8)
    | (1 << Mark::TextSelection as u8);

/// The level, position and size of a set.
const COUNTS: u64 = (1 << Mark::Level as u8)
    | (1 << Mark::SizeOfSet as u8)
    | (1 << Mark::PositionInSet as u8);

/// The numeric values.
const VALUES: u64 = (1 << Mark::NumericValue as u8)
    | (1 << Mark::MinNumericValue as u8)
    | (1 << Mark::MaxNumericValue as u8)
    | (1 << Mark::NumericValueStep as u8)
    | (1 << Mark::NumericValueJump as u8);

/// The scroll positions and translation.
const SCROLLS: u64 = (1 << Mark::ScrollX as u8)
    | (1 << Mark::ScrollXMin as u8)
    | (1 << Mark::ScrollXMax as u8)
    | (1 << Mark::ScrollY as u8)
    | (1 << Mark::ScrollYMin as u8)
    | (1 << Mark::ScrollYMax as u8)
    | (1 << Mark::Transform as u8);

/// The look of the text.
const LOOKS: u64 = (1 << Mark::FontSize as u8)
    | (1 << Mark::FontWeight as u8)
    | (1 << Mark::BackgroundColor as u8)
    | (1 << Mark::ForegroundColor as u8)
    | (1 << Mark::Overline as u8)
    | (1 << Mark::Strikethrough as u8)
    | (1 << Mark::Underline as u8);

/// The choices.
const CHOICES: u64 = (1 << Mark::Expanded as u8)
    | (1 << Mark::Selected as u8)
    | (1 << Mark::Toggled as u8)
    | (1 << Mark::Orientation as u8)
    | (1 << Mark::SortDirection as u8)
    | (1 << Mark::AriaCurrent as u8)
    | (1 << Mark::HasPopup as u8)
    | (1 << Mark::Live as u8)
    | (1 << Mark::TextDirection as u8)
    | (1 << Mark::TextAlign as u8)
    | (1 << Mark::VerticalOffset as u8);

/// What fewer nodes have.
const RARER: u64 = LINKS | COUNTS | VALUES | SCROLLS | LOOKS | CHOICES;

impl PartialEq for Node {
    ghost eq = { same_node };

    ghost laws = { same_node_laws };

    fn eq(&self, other: &Node) -> bool
        ensures value { result ≡ same_node self.now other.now }
        ensures exact { IsTrue result ↔ (self.now ≡ other.now) }
    {
        self.same(other)
    }
}

impl Eq for Node {
    ghost laws = { same_node_equivalence };
}

impl Node {
    /// Whether all fields agree: first those that most nodes have, and of the others only the groups of which a field is set.
    fn same(&self, other: &Node) -> bool
        ensures { IsTrue result ↔ (self.now ≡ other.now) }
    {
        self.same_marks(other)
            && self.same_first(other)
            && self.same_rarer(other)
            && self.same_actions(other)
            && self.same_runs(other)
            && self.same_rare_parts(other)
    }

    /// Whether the flags agree, and the same fields are set.
    #[inline(always)]
    fn same_marks(&self, other: &Node) -> bool
        ensures { IsTrue result ↔ SameMarks self.now other.now }
    {
        self.marks.same(&other.marks)
    }

    /// Whether the role, label, bounds and children agree.
    #[inline(always)]
    fn same_first(&self, other: &Node) -> bool
        ensures { IsTrue result ↔ SameFirst self.now other.now }
    {
        same_role(self.plain.role, other.plain.role)
            && same_text(self.label(), other.label())
            && same_rect(self.bounds(), other.bounds())
            && same_ids(self.children.as_slice(), other.children.as_slice())
    }

    /// Whether what fewer nodes have agrees. In most none of it is set.
    #[inline(always)]
    fn same_rarer(&self, other: &Node) -> bool
        ensures { IsTrue result ↔ SameRarer self.now other.now }
    {
        if self.marks.share_none(&other.marks, RARER) {
            return true;
        }
        self.same_groups(other)
    }

    /// Whether each group of what fewer nodes have agrees.
    #[inline(never)]
    fn same_groups(&self, other: &Node) -> bool
        ensures { IsTrue result ↔ SameRarer self.now other.now }
    {
        self.same_links(other)
            && self.same_counts(other)
            && self.same_values(other)
            && self.same_scrolls(other)
            && self.same_looks(other)
            && self.same_choices(other)
    }

    /// Whether the links to other nodes and trees, and the selection agree.
    #[inline(always)]
    fn same_links(&self, other: &Node) -> bool
        ensures { IsTrue result ↔ SameLinks self.now other.now }
    {
        if self.marks.share_none(&other.marks, LINKS) {
            return true;
        }
        self.same_each_of_links(other)
    }

    /// The same, field by field.
    #[inline(never)]
    fn same_each_of_links(&self, other: &Node) -> bool
        ensures { IsTrue result ↔ SameLinks self.now other.now }
    {
        same_node_id(self.active_descendant(), other.active_descendant())
            && same_node_id(self.previous_on_line(), other.previous_on_line())
            && same_node_id(self.next_on_line(), other.next_on_line())
            && same_tree_id(self.tree_id(), other.tree_id())
            && same_text_selection(self.text_selection(), other.text_selection())
    }

    /// Whether the level, position and size of a set agree.
    #[inline(always)]
    fn same_counts(&self, other: &Node) -> bool
        ensures { IsTrue result ↔ SameCounts self.now other.now }
    {
        if self.marks.share_none(&other.marks, COUNTS) {
            return true;
        }
        self.same_each_of_counts(other)
    }

    /// The same, field by field.
    #[inline(never)]
    fn same_each_of_counts(&self, other: &Node) -> bool
        ensures { IsTrue result ↔ SameCounts self.now other.now }
    {
        same_usize(self.level(), other.level())
            && same_usize(self.size_of_set(), other.size_of_set())
            && same_usize(self.position_in_set(), other.position_in_set())
    }

    /// Whether the numeric values agree.
    #[inline(always)]
    fn same_values(&self, other: &Node) -> bool
        ensures { IsTrue result ↔ SameValues self.now other.now }
    {
        if self.marks.share_none(&other.marks, VALUES) {
            return true;
        }
        self.same_each_of_values(other)
    }

    /// The same, field by field.
    #[inline(never)]
    fn same_each_of_values(&self, other: &Node) -> bool
        ensures { IsTrue result ↔ SameValues self.now other.now }
    {
        same_i64(self.numeric_value(), other.numeric_value())
            && same_i64(self.min_numeric_value(), other.min_numeric_value())
            && same_i64(self.max_numeric_value(), other.max_numeric_value())
            && same_i64(self.numeric_value_step(), other.numeric_value_step())
            && same_i64(self.numeric_value_jump(), other.numeric_value_jump())
    }

    /// Whether the scroll positions and translation agree.
    #[inline(always)]
    fn same_scrolls(&self, other: &Node) -> bool
        ensures { IsTrue result ↔ SameScrolls self.now other.now }
    {
        if self.marks.share_none(&other.marks, SCROLLS) {
            return true;
        }
        self.same_each_of_scrolls(other)
    }

    /// The same, field by field.
    #[inline(never)]
    fn same_each_of_scrolls(&self, other: &Node) -> bool
        ensures { IsTrue result ↔ SameScrolls self.now other.now }
    {
        same_i64(self.scroll_x(), other.scroll_x())
            && same_i64(self.scroll_x_min(), other.scroll_x_min())
            && same_i64(self.scroll_x_max(), other.scroll_x_max())
            && same_i64(self.scroll_y(), other.scroll_y())
            && same_i64(self.scroll_y_min(), other.scroll_y_min())
            && same_i64(self.scroll_y_max(), other.scroll_y_max())
            && same_translation(self.transform(), other.transform())
    }

    /// Whether the look of the text agrees.
    #[inline(always)]
    fn same_looks(&self, other: &Node) -> bool
        ensures { IsTrue result ↔ SameLooks self.now other.now }
    {
        if self.marks.share_none(&other.marks, LOOKS) {
            return true;
        }
        self.same_each_of_looks(other)
    }

    /// The same, field by field.
    #[inline(never)]
    fn same_each_of_looks(&self, other: &Node) -> bool
        ensures { IsTrue result ↔ SameLooks self.now other.now }
    {
        same_u32(self.font_size(), other.font_size())
            && same_u16(self.font_weight(), other.font_weight())
            && same_color(self.background_color(), other.background_color())
            && same_color(self.foreground_color(), other.foreground_color())
            && same_text_decoration(self.overline(), other.overline())
            && same_text_decoration(self.strikethrough(), other.strikethrough())
            && same_text_decoration(self.underline(), other.underline())
    }

    /// Whether the choices agree.
    #[inline(always)]
    fn same_choices(&self, other: &Node) -> bool
        ensures { IsTrue result ↔ SameChoices self.now other.now }
    {
        if self.marks.share_none(&other.marks, CHOICES) {
            return true;
        }
        self.same_each_of_choices(other)
    }

    /// The same, field by field.
    #[inline(never)]
    fn same_each_of_choices(&self, other: &Node) -> bool
        ensures { IsTrue result ↔ SameChoices self.now other.now }
    {
        same_bool(self.is_expanded(), other.is_expanded())
            && same_bool(self.is_selected(), other.is_selected())
            && same_toggled(self.toggled(), other.toggled())
            && same_orientation(self.orientation(), other.orientation())
            && same_sort_direction(self.sort_direction(), other.sort_direction())
            && same_aria_current(self.aria_current(), other.aria_current())
            && same_has_popup(self.has_popup(), other.has_popup())
            && same_live(self.live(), other.live())
            && same_text_direction(self.text_direction(), other.text_direction())
            && same_text_align(self.text_align(), other.text_align())
            && same_vertical_offset(self.vertical_offset(), other.vertical_offset())
    }

    /// Whether the actions agree.
    #[inline(always)]
    fn same_actions(&self, other: &Node) -> bool
        ensures { IsTrue result ↔ SameActions self.now other.now }
    {
        self.actions.same(
            self.plain.action_top,
            &other.actions,
            other.plain.action_top,
        ) && self.child_actions.same(
            self.plain.child_action_top,
            &other.child_actions,
            other.plain.child_action_top,
        )
    }

    /// Whether the value and the lists about its characters agree. Most nodes lack them.
    #[inline(always)]
    fn same_runs(&self, other: &Node) -> bool
        ensures { IsTrue result ↔ SameRuns self.now other.now }
    {
        if self.run.is_empty() && other.run.is_empty() {
            return true;
        }
        self.same_each_of_runs(other)
    }

    /// The same, field by field.
    #[inline(never)]
    fn same_each_of_runs(&self, other: &Node) -> bool
        ensures { IsTrue result ↔ SameRuns self.now other.now }
    {
        same_text(self.value(), other.value())
            && same_shorts(self.character_lengths(), other.character_lengths())
            && same_shorts(self.word_starts(), other.word_starts())
            && same_ints(self.character_positions(), other.character_positions())
            && same_ints(self.character_widths(), other.character_widths())
    }

    /// Whether what few nodes have agrees.
    #[inline(always)]
    fn same_rare_parts(&self, other: &Node) -> bool
        ensures { IsTrue result ↔ SameRareParts self.now other.now }
    {
        if self.rare.is_empty() && other.rare.is_empty() {
            return true;
        }
        self.same_each_of_rare_parts(other)
    }

    /// The same, field by field.
    #[inline(never)]
    fn same_each_of_rare_parts(&self, other: &Node) -> bool
        ensures { IsTrue result ↔ SameRareParts self.now other.now }
    {
        same_ids(self.labelled_by(), other.labelled_by())
            && same_ids(self.controls(), other.controls())
            && self.same_descriptions(other)
            && self.same_names(other)
    }

    /// Whether the descriptions and other words for the user agree.
    fn same_descriptions(&self, other: &Node) -> bool
        ensures { IsTrue result ↔ SameDescriptions self.now other.now }
    {
        same_text(self.description(), other.description())
            && same_text(self.role_description(), other.role_description())
            && same_text(self.placeholder(), other.placeholder())
            && same_text(self.braille_label(), other.braille_label())
            && same_text(
                self.braille_role_description(),
                other.braille_role_description(),
            )
    }

    /// Whether the names and other texts agree.
    fn same_names(&self, other: &Node) -> bool
        ensures { IsTrue result ↔ SameNames self.now other.now }
    {
        same_text(self.url(), other.url())
            && same_text(self.author_id(), other.author_id())
            && same_text(self.html_id(), other.html_id())
            && same_text(self.class_name(), other.class_name())
            && same_text(self.column_index_text(), other.column_index_text())
            && same_text(self.row_index_text(), other.row_index_text())
            && same_text(self.font_family(), other.font_family())
            && same_text(self.language(), other.language())
    }
}

fn same_role(a: Role, b: Role) -> bool
    ensures { IsTrue result ↔ (a ≡ b) }
{
    a == b
}

fn same_text(a: Option<&str>, b: Option<&str>) -> bool
    ensures { IsTrue result ↔ (option_copied a.entry ≡ option_copied b.entry) }
{
    match (a, b) {
        (Some(a), Some(b)) => a == b,
        (None, None) => true,
        _ => false,
    }
}

fn same_ids(a: &[NodeId], b: &[NodeId]) -> bool
    ensures { IsTrue result ↔ (a.now ≡ b.now) }
{
    a == b
}

fn same_shorts(a: &[u16], b: &[u16]) -> bool
    ensures { IsTrue result ↔ (a.now ≡ b.now) }
{
    a == b
}

fn same_ints(a: Option<&[i32]>, b: Option<&[i32]>) -> bool
    ensures { IsTrue result ↔ (option_copied a.entry ≡ option_copied b.entry) }
{
    match (a, b) {
        (Some(a), Some(b)) => same_int_list(a, b),
        (None, None) => true,
        _ => false,
    }
}

fn same_int_list(a: &[i32], b: &[i32]) -> bool
    ensures { IsTrue result ↔ (a.now ≡ b.now) }
{
    a == b
}

fn same_rectangle(a: Rect, b: Rect) -> bool
    ensures { IsTrue result ↔ (a ≡ b) }
{
    a == b
}

fn same_aria_current(a: Option<AriaCurrent>, b: Option<AriaCurrent>) -> bool
    ensures { IsTrue result ↔ (a ≡ b) }
{
    a == b
}

fn same_color(a: Option<Color>, b: Option<Color>) -> bool
    ensures { IsTrue result ↔ (a ≡ b) }
{
    a == b
}

fn same_has_popup(a: Option<HasPopup>, b: Option<HasPopup>) -> bool
    ensures { IsTrue result ↔ (a ≡ b) }
{
    a == b
}

fn same_live(a: Option<Live>, b: Option<Live>) -> bool
    ensures { IsTrue result ↔ (a ≡ b) }
{
    a == b
}

fn same_node_id(a: Option<NodeId>, b: Option<NodeId>) -> bool
    ensures { IsTrue result ↔ (a ≡ b) }
{
    a == b
}

fn same_orientation(a: Option<Orientation>, b: Option<Orientation>) -> bool
    ensures { IsTrue result ↔ (a ≡ b) }
{
    a == b
}

fn same_rect(a: Option<Rect>, b: Option<Rect>) -> bool
    ensures { IsTrue result ↔ (a ≡ b) }
{
    match (a, b) {
        (Some(a), Some(b)) => same_rectangle(a, b),
        (None, None) => true,
        _ => false,
    }
}

fn same_sort_direction(a: Option<SortDirection>, b: Option<SortDirection>) -> bool
    ensures { IsTrue result ↔ (a ≡ b) }
{
    a == b
}

fn same_text_align(a: Option<TextAlign>, b: Option<TextAlign>) -> bool
    ensures { IsTrue result ↔ (a ≡ b) }
{
    a == b
}

fn same_text_decoration(a: Option<TextDecoration>, b: Option<TextDecoration>) -> bool
    ensures { IsTrue result ↔ (a ≡ b) }
{
    a == b
}

fn same_text_direction(a: Option<TextDirection>, b: Option<TextDirection>) -> bool
    ensures { IsTrue result ↔ (a ≡ b) }
{
    a == b
}

fn same_text_selection(a: Option<TextSelection>, b: Option<TextSelection>) -> bool
    ensures { IsTrue result ↔ (a ≡ b) }
{
    a == b
}

fn same_toggled(a: Option<Toggled>, b: Option<Toggled>) -> bool
    ensures { IsTrue result ↔ (a ≡ b) }
{
    a == b
}

fn same_translation(a: Option<Translation>, b: Option<Translation>) -> bool
    ensures { IsTrue result ↔ (a ≡ b) }
{
    a == b
}

fn same_tree_id(a: Option<TreeId>, b: Option<TreeId>) -> bool
    ensures { IsTrue result ↔ (a ≡ b) }
{
    a == b
}

fn same_vertical_offset(a: Option<VerticalOffset>, b: Option<VerticalOffset>) -> bool
    ensures { IsTrue result ↔ (a ≡ b) }
{
    a == b
}

fn same_bool(a: Option<bool>, b: Option<bool>) -> bool
    ensures { IsTrue result ↔ (a ≡ b) }
{
    a == b
}

fn same_i64(a: Option<i64>, b: Option<i64>) -> bool
    ensures { IsTrue result ↔ (a ≡ b) }
{
    a == b
}

fn same_u16(a: Option<u16>, b: Option<u16>) -> bool
    ensures { IsTrue result ↔ (a ≡ b) }
{
    a == b
}

fn same_u32(a: Option<u32>, b: Option<u32>) -> bool
    ensures { IsTrue result ↔ (a ≡ b) }
{
    a == b
}

fn same_usize(a: Option<usize>, b: Option<usize>) -> bool
    ensures { IsTrue result ↔ (a ≡ b) }
{
    a == b
}

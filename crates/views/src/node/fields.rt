//! Fields of a node, as sent in updates.
ghost use Rattle.std.specs.Prelude.{◌≡◌, is_some, option_copied, IfOk, option_map};
ghost use Rattle.std.specs.String.{string_bytes};
ghost use Rattle.views.specs.Nodes.{data_at};

use crate::node::NodeRef;
use schema::{AriaCurrent, HasPopup, SortDirection, Toggled};
use std::alloc::{AllocError, Global};

impl<'a> NodeRef<'a> {
    /// Returns a copy of the description.
    ///
    /// # Errors
    ///
    /// Returns `AllocError` if memory runs out.
    pub fn description(&self, alloc: Global) -> Result<Option<String>, AllocError>
        ensures { IfOk result (λ text. option_map string_bytes text ≡ (data_at self.now).description) }
    {
        match self.node.description() {
            Some(text) => Ok(Some(String::from_str(alloc, text)?)),
            None => Ok(None),
        }
    }

    /// Whether the node has a description.
    pub fn has_description(&self) -> bool
        ensures { result ≡ is_some (data_at self.now).description }
    {
        self.node.description().is_some()
    }

    /// Whether the node has a role description.
    pub fn has_role_description(&self) -> bool
        ensures { result ≡ is_some (data_at self.now).role_description }
    {
        self.node.role_description().is_some()
    }

    /// Whether the node has a label for braille displays.
    pub fn has_braille_label(&self) -> bool
        ensures { result ≡ is_some (data_at self.now).braille_label }
    {
        self.node.braille_label().is_some()
    }

    /// Whether the node has a role description for braille displays.
    pub fn has_braille_role_description(&self) -> bool
        ensures { result ≡ is_some (data_at self.now).braille_role_description }
    {
        self.node.braille_role_description().is_some()
    }

    /// Whether the node has an HTML id.
    pub fn has_html_id(&self) -> bool
        ensures { result ≡ is_some (data_at self.now).html_id }
    {
        self.node.html_id().is_some()
    }

    /// The role in the application's own words.
    pub fn role_description(&self) -> Option<&'a str>
        ensures { option_copied result ≡ (data_at self.now).role_description }
    {
        self.node.role_description()
    }

    /// The URL that the node leads to.
    pub fn url(&self) -> Option<&'a str>
        ensures { option_copied result ≡ (data_at self.now).url }
    {
        self.node.url()
    }

    /// The id that the author gave the node.
    pub fn author_id(&self) -> Option<&'a str>
        ensures { option_copied result ≡ (data_at self.now).author_id }
    {
        self.node.author_id()
    }

    /// The id of the node's HTML element.
    pub fn html_id(&self) -> Option<&'a str>
        ensures { option_copied result ≡ (data_at self.now).html_id }
    {
        self.node.html_id()
    }

    /// The class name of the node's control.
    pub fn class_name(&self) -> Option<&'a str>
        ensures { option_copied result ≡ (data_at self.now).class_name }
    {
        self.node.class_name()
    }

    /// The label for braille displays.
    pub fn braille_label(&self) -> Option<&'a str>
        ensures { option_copied result ≡ (data_at self.now).braille_label }
    {
        self.node.braille_label()
    }

    /// The role description for braille displays.
    pub fn braille_role_description(&self) -> Option<&'a str>
        ensures { option_copied result ≡ (data_at self.now).braille_role_description }
    {
        self.node.braille_role_description()
    }

    /// The column's index as text to be read.
    pub fn column_index_text(&self) -> Option<&'a str>
        ensures { option_copied result ≡ (data_at self.now).column_index_text }
    {
        self.node.column_index_text()
    }

    /// The row's index as text to be read.
    pub fn row_index_text(&self) -> Option<&'a str>
        ensures { option_copied result ≡ (data_at self.now).row_index_text }
    {
        self.node.row_index_text()
    }

    /// Whether the node is being changed and should not be read yet.
    pub fn is_busy(&self) -> bool
        ensures { result ≡ (data_at self.now).busy }
    {
        self.node.is_busy()
    }

    /// Whether the node is disabled.
    pub fn is_disabled(&self) -> bool
        ensures { result ≡ (data_at self.now).disabled }
    {
        self.node.is_disabled()
    }

    /// Whether a change in this live region is announced with the whole region.
    pub fn is_live_atomic(&self) -> bool
        ensures { result ≡ (data_at self.now).live_atomic }
    {
        self.node.is_live_atomic()
    }

    /// Whether nothing outside the node can be used while it is open, as for a modal dialog.
    pub fn is_modal(&self) -> bool
        ensures { result ≡ (data_at self.now).modal }
    {
        self.node.is_modal()
    }

    /// Whether several items of the node can be selected at once.
    pub fn is_multiselectable(&self) -> bool
        ensures { result ≡ (data_at self.now).multiselectable }
    {
        self.node.is_multiselectable()
    }

    /// Whether the user has to fill the node in.
    pub fn is_required(&self) -> bool
        ensures { result ≡ (data_at self.now).required }
    {
        self.node.is_required()
    }

    /// Whether touches pass through the node to what lies below it.
    pub fn is_touch_transparent(&self) -> bool
        ensures { result ≡ (data_at self.now).touch_transparent }
    {
        self.node.is_touch_transparent()
    }

    /// Whether the parts of children outside the node's bounds are not shown.
    pub fn clips_children(&self) -> bool
        ensures { result ≡ (data_at self.now).clips_children }
    {
        self.node.clips_children()
    }

    /// Whether the node is selected; `None` if it can't be selected.
    pub fn is_selected(&self) -> Option<bool>
        ensures { result ≡ (data_at self.now).selected }
    {
        self.node.is_selected()
    }

    /// The node's level in a hierarchy, such as that of a heading.
    pub fn level(&self) -> Option<usize>
        ensures { result ≡ (data_at self.now).level }
    {
        self.node.level()
    }

    /// The size of the node's set, as sent in the update.
    pub fn size_of_set(&self) -> Option<usize>
        ensures { result ≡ (data_at self.now).size_of_set }
    {
        self.node.size_of_set()
    }

    /// The node's position in its set, as sent in the update, counted from 0.
    pub fn position_in_set(&self) -> Option<usize>
        ensures { result ≡ (data_at self.now).position_in_set }
    {
        self.node.position_in_set()
    }

    /// The numeric value, in thousandths.
    pub fn numeric_value(&self) -> Option<i64>
        ensures { result ≡ (data_at self.now).numeric_value }
    {
        self.node.numeric_value()
    }

    /// The minimum of the numeric value, in thousandths.
    pub fn min_numeric_value(&self) -> Option<i64>
        ensures { result ≡ (data_at self.now).min_numeric_value }
    {
        self.node.min_numeric_value()
    }

    /// The maximum of the numeric value, in thousandths.
    pub fn max_numeric_value(&self) -> Option<i64>
        ensures { result ≡ (data_at self.now).max_numeric_value }
    {
        self.node.max_numeric_value()
    }

    /// The step of the numeric value, in thousandths.
    pub fn numeric_value_step(&self) -> Option<i64>
        ensures { result ≡ (data_at self.now).numeric_value_step }
    {
        self.node.numeric_value_step()
    }

    /// The large step of the numeric value, in thousandths.
    pub fn numeric_value_jump(&self) -> Option<i64>
        ensures { result ≡ (data_at self.now).numeric_value_jump }
    {
        self.node.numeric_value_jump()
    }

    /// The horizontal scroll position, in units of 1/64 pixel.
    pub fn scroll_x(&self) -> Option<i64>
        ensures { result ≡ (data_at self.now).scroll_x }
    {
        self.node.scroll_x()
    }

    /// The minimum of [`NodeRef::scroll_x`].
    pub fn scroll_x_min(&self) -> Option<i64>
        ensures { result ≡ (data_at self.now).scroll_x_min }
    {
        self.node.scroll_x_min()
    }

    /// The maximum of [`NodeRef::scroll_x`].
    pub fn scroll_x_max(&self) -> Option<i64>
        ensures { result ≡ (data_at self.now).scroll_x_max }
    {
        self.node.scroll_x_max()
    }

    /// The vertical scroll position, in units of 1/64 pixel.
    pub fn scroll_y(&self) -> Option<i64>
        ensures { result ≡ (data_at self.now).scroll_y }
    {
        self.node.scroll_y()
    }

    /// The minimum of [`NodeRef::scroll_y`].
    pub fn scroll_y_min(&self) -> Option<i64>
        ensures { result ≡ (data_at self.now).scroll_y_min }
    {
        self.node.scroll_y_min()
    }

    /// The maximum of [`NodeRef::scroll_y`].
    pub fn scroll_y_max(&self) -> Option<i64>
        ensures { result ≡ (data_at self.now).scroll_y_max }
    {
        self.node.scroll_y_max()
    }

    /// Which kind of current item the node is, as by `aria-current`.
    pub fn aria_current(&self) -> Option<AriaCurrent>
        ensures { result ≡ (data_at self.now).aria_current }
    {
        self.node.aria_current()
    }

    /// The kind of popup that the node opens.
    pub fn has_popup(&self) -> Option<HasPopup>
        ensures { result ≡ (data_at self.now).has_popup }
    {
        self.node.has_popup()
    }

    /// The state of a node that can be toggled.
    pub fn toggled(&self) -> Option<Toggled>
        ensures { result ≡ (data_at self.now).toggled }
    {
        self.node.toggled()
    }

    /// How the column or row is sorted.
    pub fn sort_direction(&self) -> Option<SortDirection>
        ensures { result ≡ (data_at self.now).sort_direction }
    {
        self.node.sort_direction()
    }
}

//! The boolean fields of a node.

ghost use Rattle.std.specs.Prelude.{◌≡◌, None, Some, true, false};

use crate::Node;
use crate::marks::Mark;

impl Node {
    /// Whether the node and all below it are hidden.
    pub fn is_hidden(&self) -> bool
        ensures { result ≡ self.now.hidden }
    {
        self.marks.has(Mark::Hidden)
    }

    /// Sets [`Node::is_hidden`].
    pub fn set_hidden(&mut self)
        ensures { self.new ≡ record self.old { hidden = true } }
    {
        self.marks.add(Mark::Hidden);
    }

    /// Clears [`Node::is_hidden`].
    pub fn clear_hidden(&mut self)
        ensures { self.new ≡ record self.old { hidden = false } }
    {
        self.marks.remove(Mark::Hidden);
    }

    /// Whether the node is disabled.
    pub fn is_disabled(&self) -> bool
        ensures { result ≡ self.now.disabled }
    {
        self.marks.has(Mark::Disabled)
    }

    /// Sets [`Node::is_disabled`].
    pub fn set_disabled(&mut self)
        ensures { self.new ≡ record self.old { disabled = true } }
    {
        self.marks.add(Mark::Disabled);
    }

    /// Clears [`Node::is_disabled`].
    pub fn clear_disabled(&mut self)
        ensures { self.new ≡ record self.old { disabled = false } }
    {
        self.marks.remove(Mark::Disabled);
    }

    /// Whether the node's value can't be changed.
    pub fn is_read_only(&self) -> bool
        ensures { result ≡ self.now.read_only }
    {
        self.marks.has(Mark::ReadOnly)
    }

    /// Sets [`Node::is_read_only`].
    pub fn set_read_only(&mut self)
        ensures { self.new ≡ record self.old { read_only = true } }
    {
        self.marks.add(Mark::ReadOnly);
    }

    /// Clears [`Node::is_read_only`].
    pub fn clear_read_only(&mut self)
        ensures { self.new ≡ record self.old { read_only = false } }
    {
        self.marks.remove(Mark::ReadOnly);
    }

    /// Whether the node is being changed and should not be read yet.
    pub fn is_busy(&self) -> bool
        ensures { result ≡ self.now.busy }
    {
        self.marks.has(Mark::Busy)
    }

    /// Sets [`Node::is_busy`].
    pub fn set_busy(&mut self)
        ensures { self.new ≡ record self.old { busy = true } }
    {
        self.marks.add(Mark::Busy);
    }

    /// Clears [`Node::is_busy`].
    pub fn clear_busy(&mut self)
        ensures { self.new ≡ record self.old { busy = false } }
    {
        self.marks.remove(Mark::Busy);
    }

    /// Whether a change in this live region is announced with the whole region.
    pub fn is_live_atomic(&self) -> bool
        ensures { result ≡ self.now.live_atomic }
    {
        self.marks.has(Mark::LiveAtomic)
    }

    /// Sets [`Node::is_live_atomic`].
    pub fn set_live_atomic(&mut self)
        ensures { self.new ≡ record self.old { live_atomic = true } }
    {
        self.marks.add(Mark::LiveAtomic);
    }

    /// Clears [`Node::is_live_atomic`].
    pub fn clear_live_atomic(&mut self)
        ensures { self.new ≡ record self.old { live_atomic = false } }
    {
        self.marks.remove(Mark::LiveAtomic);
    }

    /// Whether the node blocks all others while it is shown.
    pub fn is_modal(&self) -> bool
        ensures { result ≡ self.now.modal }
    {
        self.marks.has(Mark::Modal)
    }

    /// Sets [`Node::is_modal`].
    pub fn set_modal(&mut self)
        ensures { self.new ≡ record self.old { modal = true } }
    {
        self.marks.add(Mark::Modal);
    }

    /// Clears [`Node::is_modal`].
    pub fn clear_modal(&mut self)
        ensures { self.new ≡ record self.old { modal = false } }
    {
        self.marks.remove(Mark::Modal);
    }

    /// Whether several of the items can be selected at once.
    pub fn is_multiselectable(&self) -> bool
        ensures { result ≡ self.now.multiselectable }
    {
        self.marks.has(Mark::Multiselectable)
    }

    /// Sets [`Node::is_multiselectable`].
    pub fn set_multiselectable(&mut self)
        ensures { self.new ≡ record self.old { multiselectable = true } }
    {
        self.marks.add(Mark::Multiselectable);
    }

    /// Clears [`Node::is_multiselectable`].
    pub fn clear_multiselectable(&mut self)
        ensures { self.new ≡ record self.old { multiselectable = false } }
    {
        self.marks.remove(Mark::Multiselectable);
    }

    /// Whether the user has to fill the node in.
    pub fn is_required(&self) -> bool
        ensures { result ≡ self.now.required }
    {
        self.marks.has(Mark::Required)
    }

    /// Sets [`Node::is_required`].
    pub fn set_required(&mut self)
        ensures { self.new ≡ record self.old { required = true } }
    {
        self.marks.add(Mark::Required);
    }

    /// Clears [`Node::is_required`].
    pub fn clear_required(&mut self)
        ensures { self.new ≡ record self.old { required = false } }
    {
        self.marks.remove(Mark::Required);
    }

    /// Whether touches pass through the node to what lies below it.
    pub fn is_touch_transparent(&self) -> bool
        ensures { result ≡ self.now.touch_transparent }
    {
        self.marks.has(Mark::TouchTransparent)
    }

    /// Sets [`Node::is_touch_transparent`].
    pub fn set_touch_transparent(&mut self)
        ensures { self.new ≡ record self.old { touch_transparent = true } }
    {
        self.marks.add(Mark::TouchTransparent);
    }

    /// Clears [`Node::is_touch_transparent`].
    pub fn clear_touch_transparent(&mut self)
        ensures { self.new ≡ record self.old { touch_transparent = false } }
    {
        self.marks.remove(Mark::TouchTransparent);
    }

    /// Whether the text is italic.
    pub fn is_italic(&self) -> bool
        ensures { result ≡ self.now.italic }
    {
        self.marks.has(Mark::Italic)
    }

    /// Sets [`Node::is_italic`].
    pub fn set_italic(&mut self)
        ensures { self.new ≡ record self.old { italic = true } }
    {
        self.marks.add(Mark::Italic);
    }

    /// Clears [`Node::is_italic`].
    pub fn clear_italic(&mut self)
        ensures { self.new ≡ record self.old { italic = false } }
    {
        self.marks.remove(Mark::Italic);
    }

    /// Whether the parts of children outside the node's bounds are not shown.
    pub fn clips_children(&self) -> bool
        ensures { result ≡ self.now.clips_children }
    {
        self.marks.has(Mark::ClipsChildren)
    }

    /// Sets [`Node::clips_children`].
    pub fn set_clips_children(&mut self)
        ensures { self.new ≡ record self.old { clips_children = true } }
    {
        self.marks.add(Mark::ClipsChildren);
    }

    /// Clears [`Node::clips_children`].
    pub fn clear_clips_children(&mut self)
        ensures { self.new ≡ record self.old { clips_children = false } }
    {
        self.marks.remove(Mark::ClipsChildren);
    }

    /// Whether the node is expanded; `None` if it can't be expanded.
    pub fn is_expanded(&self) -> Option<bool>
        ensures { result ≡ self.now.expanded }
    {
        self.marks
            .has(Mark::Expanded)
            .then_some(self.plain.expanded)
    }

    /// Sets [`Node::is_expanded`].
    pub fn set_expanded(&mut self, value: bool)
        ensures { self.new ≡ record self.old { expanded = Some value } }
    {
        self.plain.expanded = value;
        self.marks.add(Mark::Expanded);
    }

    /// Clears [`Node::is_expanded`].
    pub fn clear_expanded(&mut self)
        ensures { self.new ≡ record self.old { expanded = None } }
    {
        self.marks.remove(Mark::Expanded);
    }

    /// Whether the node is selected; `None` if it can't be selected.
    pub fn is_selected(&self) -> Option<bool>
        ensures { result ≡ self.now.selected }
    {
        self.marks
            .has(Mark::Selected)
            .then_some(self.plain.selected)
    }

    /// Sets [`Node::is_selected`].
    pub fn set_selected(&mut self, value: bool)
        ensures { self.new ≡ record self.old { selected = Some value } }
    {
        self.plain.selected = value;
        self.marks.add(Mark::Selected);
    }

    /// Clears [`Node::is_selected`].
    pub fn clear_selected(&mut self)
        ensures { self.new ≡ record self.old { selected = None } }
    {
        self.marks.remove(Mark::Selected);
    }
}

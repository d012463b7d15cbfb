//! The actions that a node supports.
ghost use Rattle.std.specs.Prelude.{◌≡◌};
ghost use Rattle.std.specs.Fn.{FnReturnsAt};
ghost use Rattle.model.specs.Views.{is_selectable, supports_toggle, supports_expand_collapse, supports_url, is_only_clicked, supports_action, is_clickable, supports_increment, supports_decrement, is_focusable, is_invocable};
ghost use Rattle.views.specs.Nodes.{data_at};
ghost use Rattle.views.specs.FilterValues.{IsBy};

use crate::node::NodeRef;
use model::filters::FilterResult;
use schema::Action;

impl NodeRef<'_> {
    /// Whether the node can be selected: it has a selected state and isn't disabled.
    pub fn is_selectable(&self) -> bool
        ensures { result ≡ is_selectable (data_at self.now) }
    {
        self.is_selected().is_some() && !self.is_disabled()
    }

    /// Whether the node can be toggled.
    pub fn supports_toggle(&self) -> bool
        ensures { result ≡ supports_toggle (data_at self.now) }
    {
        self.toggled().is_some()
    }

    /// Whether the node expands and collapses, by its fields or its role.
    pub fn supports_expand_collapse(&self) -> bool
        ensures { result ≡ supports_expand_collapse (data_at self.now) }
    {
        self.has_popup().is_some() || self.node.is_expanded().is_some() || self.is_expandable()
    }

    /// Whether the node is a link with a URL.
    pub fn supports_url(&self) -> bool
        ensures { result ≡ supports_url (data_at self.now) }
    {
        self.url().is_some() && self.is_link()
    }

    /// Whether the node supports the action, or its filtered parent supports it for its children.
    pub fn supports_action<F: Fn(&NodeRef<'_>) -> FilterResult>(
        &self,
        action: Action,
        parent_filter: &F,
    ) -> bool
        requires { F.IsAlwaysCallable parent_filter.now }
        ensures { IsBy (FnReturnsAt F.Fn parent_filter.now) self.now (supports_action action) result }
    {
        if self.node.supports_action(action) {
            return true;
        }
        match self.filtered_parent(parent_filter) {
            Some(parent) => parent.node.child_supports_action(action),
            None => false,
        }
    }

    /// Whether the node can be clicked.
    pub fn is_clickable<F: Fn(&NodeRef<'_>) -> FilterResult>(&self, parent_filter: &F) -> bool
        requires { F.IsAlwaysCallable parent_filter.now }
        ensures { IsBy (FnReturnsAt F.Fn parent_filter.now) self.now is_clickable result }
    {
        self.supports_action(Action::Click, parent_filter)
    }

    /// Whether the node's value can be raised by a step.
    pub fn supports_increment<F: Fn(&NodeRef<'_>) -> FilterResult>(&self, parent_filter: &F) -> bool
        requires { F.IsAlwaysCallable parent_filter.now }
        ensures { IsBy (FnReturnsAt F.Fn parent_filter.now) self.now supports_increment result }
    {
        self.supports_action(Action::Increment, parent_filter)
    }

    /// Whether the node's value can be lowered by a step.
    pub fn supports_decrement<F: Fn(&NodeRef<'_>) -> FilterResult>(&self, parent_filter: &F) -> bool
        requires { F.IsAlwaysCallable parent_filter.now }
        ensures { IsBy (FnReturnsAt F.Fn parent_filter.now) self.now supports_decrement result }
    {
        self.supports_action(Action::Decrement, parent_filter)
    }

    /// Whether the node can take the focus or is the effective focus.
    pub fn is_focusable<F: Fn(&NodeRef<'_>) -> FilterResult>(&self, parent_filter: &F) -> bool
        requires { F.IsAlwaysCallable parent_filter.now }
        ensures { IsBy (FnReturnsAt F.Fn parent_filter.now) self.now is_focusable result }
    {
        self.state.know();
        self.supports_action(Action::Focus, parent_filter) || self.is_focused_in_tree()
    }

    /// Whether clicking is the node's only use: it has no text to fill in or to read, and can't be toggled, expanded or
    /// selected.
    fn is_only_clicked(&self) -> bool
        ensures { result ≡ is_only_clicked (data_at self.now) }
    {
        !self.is_text_input()
            && !self.is_document()
            && !self.supports_toggle()
            && !self.supports_expand_collapse()
            && self.is_selected().is_none()
    }

    /// Whether the node can be clicked and clicking is its only use.
    pub fn is_invocable<F: Fn(&NodeRef<'_>) -> FilterResult>(&self, parent_filter: &F) -> bool
        requires { F.IsAlwaysCallable parent_filter.now }
        ensures { IsBy (FnReturnsAt F.Fn parent_filter.now) self.now is_invocable result }
    {
        self.is_only_clicked() && self.is_clickable(parent_filter)
    }
}

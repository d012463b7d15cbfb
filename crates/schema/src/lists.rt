//! The links of a node to others of its tree.

ghost use Rattle.std.specs.Prelude.{◌≡◌, ◌++◌, [], ◌∷◌, None, Some, OnOk, OnErr, is_some};

use crate::marks::Mark;
use crate::{Node, NodeId, TreeId};
use std::alloc::AllocError;

impl Node {
    /// The ids of the node's children, in order. Children are nodes of the same tree.
    pub fn children(&self) -> &[NodeId]
        ensures { result.now ≡ self.now.children }
    {
        self.children.as_slice()
    }

    /// Sets [`Node::children`] to a copy of the list.
    ///
    /// # Errors
    ///
    /// Returns `AllocError` if memory runs out; the node is then unchanged.
    pub fn set_children(&mut self, ids: &[NodeId]) -> Result<(), AllocError>
        ensures ok { OnOk result (self.new ≡ record self.old { children = ids.now }) }
        ensures err { OnErr result (self.new ≡ self.old) }
    {
        self.children = Vec::from_slice(self.alloc, ids)?;
        Ok(())
    }

    /// Sets [`Node::children`] to this list, which is not copied.
    pub fn take_children(&mut self, ids: Vec<NodeId>)
        ensures { self.new ≡ record self.old { children = ids.items } }
    {
        self.children = ids;
    }

    /// Adds an id at the end of [`Node::children`].
    ///
    /// # Errors
    ///
    /// Returns `AllocError` if memory runs out; the node is then unchanged.
    pub fn push_child(&mut self, id: NodeId) -> Result<(), AllocError>
        ensures ok { OnOk result (self.new ≡ record self.old { children = self.old.children ++ id ∷ [] }) }
        ensures err { OnErr result (self.new ≡ self.old) }
    {
        self.children.push(id)?;
        Ok(())
    }

    /// Clears [`Node::children`].
    pub fn clear_children(&mut self)
        ensures { self.new ≡ record self.old { children = [] } }
    {
        self.children = Vec::new(self.alloc);
    }

    /// The ids of the nodes that label this one, in the order of their texts.
    pub fn labelled_by(&self) -> &[NodeId]
        ensures { result.now ≡ self.now.labelled_by }
    {
        self.rare.labelled_by()
    }

    /// Sets [`Node::labelled_by`] to a copy of the list.
    ///
    /// # Errors
    ///
    /// Returns `AllocError` if memory runs out; the node is then unchanged.
    pub fn set_labelled_by(&mut self, ids: &[NodeId]) -> Result<(), AllocError>
        ensures ok { OnOk result (self.new ≡ record self.old { labelled_by = ids.now }) }
        ensures err { OnErr result (self.new ≡ self.old) }
    {
        let copy = Vec::from_slice(self.alloc, ids)?;
        self.rare.set_labelled_by(self.alloc, copy)
    }

    /// Sets [`Node::labelled_by`] to this list, which is not copied.
    ///
    /// # Errors
    ///
    /// Returns `AllocError` if memory runs out; the node is then unchanged.
    pub fn take_labelled_by(&mut self, ids: Vec<NodeId>) -> Result<(), AllocError>
        ensures ok { OnOk result (self.new ≡ record self.old { labelled_by = ids.items }) }
        ensures err { OnErr result (self.new ≡ self.old) }
    {
        self.rare.set_labelled_by(self.alloc, ids)
    }

    /// Adds an id at the end of [`Node::labelled_by`].
    ///
    /// # Errors
    ///
    /// Returns `AllocError` if memory runs out; the node is then unchanged.
    pub fn push_labelled_by(&mut self, id: NodeId) -> Result<(), AllocError>
        ensures ok { OnOk result
            (self.new ≡ record self.old { labelled_by = self.old.labelled_by ++ id ∷ [] }) }
        ensures err { OnErr result (self.new ≡ self.old) }
    {
        self.rare.push_labelled_by(self.alloc, id)
    }

    /// Clears [`Node::labelled_by`].
    pub fn clear_labelled_by(&mut self)
        ensures { self.new ≡ record self.old { labelled_by = [] } }
    {
        self.rare.clear_labelled_by(self.alloc);
    }

    /// The ids of the nodes that this one controls.
    pub fn controls(&self) -> &[NodeId]
        ensures { result.now ≡ self.now.controls }
    {
        self.rare.controls()
    }

    /// Sets [`Node::controls`] to a copy of the list.
    ///
    /// # Errors
    ///
    /// Returns `AllocError` if memory runs out; the node is then unchanged.
    pub fn set_controls(&mut self, ids: &[NodeId]) -> Result<(), AllocError>
        ensures ok { OnOk result (self.new ≡ record self.old { controls = ids.now }) }
        ensures err { OnErr result (self.new ≡ self.old) }
    {
        let copy = Vec::from_slice(self.alloc, ids)?;
        self.rare.set_controls(self.alloc, copy)
    }

    /// Sets [`Node::controls`] to this list, which is not copied.
    ///
    /// # Errors
    ///
    /// Returns `AllocError` if memory runs out; the node is then unchanged.
    pub fn take_controls(&mut self, ids: Vec<NodeId>) -> Result<(), AllocError>
        ensures ok { OnOk result (self.new ≡ record self.old { controls = ids.items }) }
        ensures err { OnErr result (self.new ≡ self.old) }
    {
        self.rare.set_controls(self.alloc, ids)
    }

    /// Adds an id at the end of [`Node::controls`].
    ///
    /// # Errors
    ///
    /// Returns `AllocError` if memory runs out; the node is then unchanged.
    pub fn push_controls(&mut self, id: NodeId) -> Result<(), AllocError>
        ensures ok { OnOk result (self.new ≡ record self.old { controls = self.old.controls ++ id ∷ [] }) }
        ensures err { OnErr result (self.new ≡ self.old) }
    {
        self.rare.push_controls(self.alloc, id)
    }

    /// Clears [`Node::controls`].
    pub fn clear_controls(&mut self)
        ensures { self.new ≡ record self.old { controls = [] } }
    {
        self.rare.clear_controls(self.alloc);
    }

    /// The node of the same tree that is shown as focused while this one has the focus.
    pub fn active_descendant(&self) -> Option<NodeId>
        ensures { result ≡ self.now.active_descendant }
    {
        self.marks
            .has(Mark::ActiveDescendant)
            .then_some(self.plain.active_descendant)
    }

    /// Sets [`Node::active_descendant`].
    pub fn set_active_descendant(&mut self, value: NodeId)
        ensures { self.new ≡ record self.old { active_descendant = Some value } }
    {
        self.plain.active_descendant = value;
        self.marks.add(Mark::ActiveDescendant);
    }

    /// Clears [`Node::active_descendant`].
    pub fn clear_active_descendant(&mut self)
        ensures { self.new ≡ record self.old { active_descendant = None } }
    {
        self.marks.remove(Mark::ActiveDescendant);
    }

    /// The text run before this one on the same line.
    pub fn previous_on_line(&self) -> Option<NodeId>
        ensures { result ≡ self.now.previous_on_line }
    {
        self.marks
            .has(Mark::PreviousOnLine)
            .then_some(self.plain.previous_on_line)
    }

    /// Sets [`Node::previous_on_line`].
    pub fn set_previous_on_line(&mut self, value: NodeId)
        ensures { self.new ≡ record self.old { previous_on_line = Some value } }
    {
        self.plain.previous_on_line = value;
        self.marks.add(Mark::PreviousOnLine);
    }

    /// Clears [`Node::previous_on_line`].
    pub fn clear_previous_on_line(&mut self)
        ensures { self.new ≡ record self.old { previous_on_line = None } }
    {
        self.marks.remove(Mark::PreviousOnLine);
    }

    /// The text run after this one on the same line.
    pub fn next_on_line(&self) -> Option<NodeId>
        ensures { result ≡ self.now.next_on_line }
    {
        self.marks
            .has(Mark::NextOnLine)
            .then_some(self.plain.next_on_line)
    }

    /// Sets [`Node::next_on_line`].
    pub fn set_next_on_line(&mut self, value: NodeId)
        ensures { self.new ≡ record self.old { next_on_line = Some value } }
    {
        self.plain.next_on_line = value;
        self.marks.add(Mark::NextOnLine);
    }

    /// Clears [`Node::next_on_line`].
    pub fn clear_next_on_line(&mut self)
        ensures { self.new ≡ record self.old { next_on_line = None } }
    {
        self.marks.remove(Mark::NextOnLine);
    }

    /// The tree that is grafted here; its root becomes this node's only child.
    pub fn tree_id(&self) -> Option<TreeId>
        ensures { result ≡ self.now.tree_id }
    {
        self.marks.has(Mark::TreeId).then_some(self.plain.tree_id)
    }

    /// Sets [`Node::tree_id`].
    pub fn set_tree_id(&mut self, value: TreeId)
        ensures { self.new ≡ record self.old { tree_id = Some value } }
    {
        self.plain.tree_id = value;
        self.marks.add(Mark::TreeId);
    }

    /// Clears [`Node::tree_id`].
    pub fn clear_tree_id(&mut self)
        ensures { self.new ≡ record self.old { tree_id = None } }
    {
        self.marks.remove(Mark::TreeId);
    }

    /// Whether a tree is grafted here.
    #[inline(always)]
    pub fn is_graft(&self) -> bool
        ensures { result ≡ is_some self.now.tree_id }
    {
        self.marks.has(Mark::TreeId)
    }
}

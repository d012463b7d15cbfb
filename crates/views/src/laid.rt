//! A state with something laid over it: the changes of an update, or another focus of the host.
ghost use Rattle.views.specs.Sound.{IsSound, IsSound-prop, HasRoom, HasRoom-prop};

use model::FullNodeId;
use schema::{Node, TreeId};
use tree_store::{Kept, Overlay, Store};

/// A stored state, the changes of an update that are laid over it, if there are any, and whether the host is focused.
#[derive(Clone, Copy)]
pub struct Laid<'a> {
    base: &'a Store,
    overlay: Option<Overlay<'a>>,
    is_host_focused: bool,
    ghost sound: { IsSound base.now.world overlay } by { IsSound-prop base.now.world overlay },
    ghost room: { HasRoom base.now overlay } by { HasRoom-prop base.now overlay },
}

impl<'a> Laid<'a> {
    ghost use Rattle.std.specs.Prelude.{◌≡◌, ◌<◌, ◌^◌, Some, IfSome, option_copied, option_map};
    ghost use Rattle.std.specs.FinMap.{len};
    ghost use Rattle.model.specs.World.{IsNode, data_of, index_of, name_of, root_of, root_named};
    ghost use Rattle.model.specs.Forest.{place_of, IsFormed};
    ghost use Rattle.model.specs.Focus.{IsEffectiveFocus};
    ghost use Rattle.model.specs.State.{IsState, with_host};
    ghost use Rattle.tree_store.specs.Commits.{HasSlots};
    ghost use Rattle.tree_store.specs.Overlays.{laid_over, IsLaidOver};
    ghost use Rattle.views.specs.ShownWorlds.{world_laid};

    /// The stored state with this host focus.
    pub fn with_host_focused(base: &'a Store, is_host_focused: bool) -> Laid<'a>
        ensures { world_laid result ≡ with_host base.now.world is_host_focused }
    {
        Laid {
            base,
            overlay: None,
            is_host_focused,
        }
    }

    /// The state with these changes laid over it.
    pub fn over(base: &'a Store, overlay: Overlay<'a>) -> Laid<'a>
        requires laid { IsLaidOver base.now.world overlay }
        requires slots { HasSlots base.now overlay.decision.now }
        ensures { world_laid result ≡ laid_over base.now.world overlay.entry }
    {
        Laid {
            base,
            overlay: Some(overlay),
            is_host_focused: base.is_host_focused(),
        }
    }

    /// The world is a state. Only a proof uses this; it computes nothing.
    pub(crate) fn know(self)
        ensures state { IsState (world_laid self.entry) }
        ensures formed { IsFormed (world_laid self.entry) }
    {
        let Some(overlay) = self.overlay else {
            self.base.know();
            return;
        };
        overlay.know(self.base);
    }

    /// The number of nodes fits a `usize`. Only a proof uses this; it computes nothing.
    pub(crate) fn know_count(self)
        ensures { len (world_laid self.entry).nodes < 2 ^ 64 }
    {
        match self.overlay {
            Some(overlay) => overlay.know_count(self.base),
            None => self.base.know_count(),
        }
    }

    /// The data of a node.
    pub(crate) fn get(self, id: FullNodeId) -> Option<&'a Node>
        ensures { option_copied result ≡ data_of (world_laid self.entry) id }
    {
        match self.overlay {
            Some(overlay) => overlay.data(self.base, id),
            None => self.base.get(id),
        }
    }

    /// The place and data of a node that is in the state. It is never inlined, so that the look-up of a stored node stays short.
    #[inline(never)]
    pub(crate) fn kept_of(&self, id: FullNodeId) -> Kept<'a>
        requires { IsNode (world_laid self.now) id }
        ensures data { Some result.node.now ≡ data_of (world_laid self.now) id }
        ensures place { result.place.now ≡ place_of (world_laid self.now) id }
    {
        self.kept_near(id, &mut 0).unwrap()
    }

    /// A node's place and data. If there are changes of an update, the one at `near` is tried first.
    pub(crate) fn kept_near(self, id: FullNodeId, near: &mut usize) -> Option<Kept<'a>>
        ensures data { option_map (λ r. r.node.now) result ≡ data_of (world_laid self.entry) id }
        ensures place { IfSome result (λ r. r.place.now ≡ place_of (world_laid self.entry) id) }
    {
        match self.overlay {
            Some(overlay) => overlay.kept_near(self.base, id, near),
            None => self.base.kept(id),
        }
    }

    /// The effective focus, whether or not the host is focused.
    pub(crate) fn focus(self) -> FullNodeId
        ensures { IsEffectiveFocus (world_laid self.entry) result }
    {
        match self.overlay {
            Some(overlay) => overlay.focus(self.base),
            None => self.base.focus(),
        }
    }

    /// The root tree's root.
    pub(crate) fn root(self) -> FullNodeId
        ensures { root_of (world_laid self.entry) 0 ≡ Some result }
    {
        match self.overlay {
            Some(overlay) => overlay.root(self.base),
            None => self.base.root(),
        }
    }

    /// The index of the tree with this id, if it was ever known.
    pub(crate) fn tree_index(self, name: TreeId) -> Option<u32>
        ensures { result ≡ index_of (world_laid self.entry) name }
    {
        match self.overlay {
            Some(overlay) => overlay.tree_index(self.base, name),
            None => self.base.tree_index(name),
        }
    }

    /// The id of the tree with this index.
    pub(crate) fn tree_id(self, index: u32) -> Option<TreeId>
        ensures { result ≡ name_of (world_laid self.entry) index }
    {
        match self.overlay {
            Some(overlay) => overlay.tree_id(self.base, index),
            None => self.base.tree_id(index),
        }
    }

    /// Whether the host is focused.
    pub(crate) fn is_host_focused(self) -> bool
        ensures { result ≡ (world_laid self.entry).host_focused }
    {
        self.is_host_focused
    }

    /// The toolkit's name as sent in the update.
    pub(crate) fn toolkit_name(self) -> Option<&'a str>
        ensures { option_copied result ≡ (world_laid self.entry).toolkit.0 }
    {
        match self.overlay {
            Some(overlay) => overlay.toolkit_name(self.base),
            None => self.base.toolkit_name(),
        }
    }

    /// The toolkit's version as sent in the update.
    pub(crate) fn toolkit_version(self) -> Option<&'a str>
        ensures { option_copied result ≡ (world_laid self.entry).toolkit.1 }
    {
        match self.overlay {
            Some(overlay) => overlay.toolkit_version(self.base),
            None => self.base.toolkit_version(),
        }
    }

    /// The root of the tree with this id, if it is present.
    pub(crate) fn subtree_root(self, name: TreeId) -> Option<FullNodeId>
        ensures { result ≡ root_named (world_laid self.entry) name }
    {
        match self.overlay {
            Some(overlay) => overlay.subtree_root(self.base, name),
            None => self.base.subtree_root(name),
        }
    }
}

//! Whether nodes are hidden, disabled, focusable, and so on.
ghost use Rattle.std.specs.Prelude.{◌≡◌, Some};
ghost use Rattle.views.specs.Nodes.{world_at, id_at, data_at};
ghost use Rattle.fed_tree.specs.Reads.{read_of};
ghost use Rattle.fed_tree.specs.Flags.{says};

use crate::feeding::FedTree;
use model::FullNodeId;
use views::NodeRef;
use views::filters::common_filter;

/// A question about a node that is answered by yes or no. It has the name of the library's call, without its `is_`.
#[derive(Clone, Copy)]
pub enum Flag {
    /// The node or an ancestor is hidden.
    Hidden,
    Disabled,
    /// It is being changed and should not be read yet.
    Busy,
    /// Nothing outside of it can be used while it is open.
    Modal,
    /// The user has to fill it in.
    Required,
    Multiselectable,
    LiveAtomic,
    TouchTransparent,
    ClipsChildren,
    /// The node or an ancestor is italic.
    Italic,
    /// By its flag, by its role, or because the read-only state doesn't apply to it.
    ReadOnly,
    ReadOnlySupported,
    TextInput,
    Multiline,
    PasswordInput,
    Dialog,
    /// It can be an item of a set.
    ItemLike,
    /// A tree is grafted here.
    Graft,
    Selectable,
    SupportsToggle,
    SupportsExpandCollapse,
    SupportsUrl,
    /// Its runs make a text.
    SupportsTextRanges,
    /// As for those below, its own actions count, and those that its filtered parent has for its children, by the common filter.
    Focusable,
    Clickable,
    SupportsIncrement,
    SupportsDecrement,
    /// It can be clicked, and that is its only use.
    Invocable,
    /// It is a label, whose value labels other nodes.
    LabelComesFromValue,
    /// Its children can be selected.
    ContainerWithSelectableChildren,
    /// Nodes of its role are read-only unless they say otherwise.
    ReadOnlyByDefault,
    ReadOnlyOrDisabled,
    /// It has a label, of its own or by other nodes.
    HasLabel,
    /// It has a value, of its own or by its runs.
    HasValue,
}

impl FedTree {
    /// Whether the node is what the flag says; `None` if the tree doesn't have the node.
    #[tactic(auto, using(crate::proofs::Found::read_found, crate::proofs::Found::read_missing))]
    pub fn flag(&self, id: FullNodeId, flag: Flag) -> Option<bool>
        ensures { result ≡ read_of self.now.world id (λ w node. Some (says flag w id node)) }
    {
        let node = self.node(id)?;
        Some(says(&node, flag))
    }
}

/// Whether the node is what the flag says.
pub(crate) fn says(node: &NodeRef<'_>, flag: Flag) -> bool
    ensures { result ≡ says flag (world_at node.now) (id_at node.now) (data_at node.now) }
{
    let shown = |seen: &NodeRef<'_>| common_filter(seen);
    match flag {
        Flag::Hidden => node.is_hidden(),
        Flag::Disabled => node.is_disabled(),
        Flag::Busy => node.is_busy(),
        Flag::Modal => node.is_modal(),
        Flag::Required => node.is_required(),
        Flag::Multiselectable => node.is_multiselectable(),
        Flag::LiveAtomic => node.is_live_atomic(),
        Flag::TouchTransparent => node.is_touch_transparent(),
        Flag::ClipsChildren => node.clips_children(),
        Flag::Italic => node.is_italic(),
        Flag::ReadOnly => node.is_read_only(),
        Flag::ReadOnlySupported => node.is_read_only_supported(),
        Flag::TextInput => node.is_text_input(),
        Flag::Multiline => node.is_multiline(),
        Flag::PasswordInput => node.is_password_input(),
        Flag::Dialog => node.is_dialog(),
        Flag::ItemLike => node.is_item_like(),
        Flag::Graft => node.is_graft(),
        Flag::Selectable => node.is_selectable(),
        Flag::SupportsToggle => node.supports_toggle(),
        Flag::SupportsExpandCollapse => node.supports_expand_collapse(),
        Flag::SupportsUrl => node.supports_url(),
        Flag::SupportsTextRanges => node.supports_text_ranges(),
        Flag::Focusable => node.is_focusable(&shown),
        Flag::Clickable => node.is_clickable(&shown),
        Flag::SupportsIncrement => node.supports_increment(&shown),
        Flag::SupportsDecrement => node.supports_decrement(&shown),
        Flag::Invocable => node.is_invocable(&shown),
        Flag::LabelComesFromValue => node.label_comes_from_value(),
        Flag::ContainerWithSelectableChildren => node.is_container_with_selectable_children(),
        Flag::ReadOnlyByDefault => node.should_have_read_only_state_by_default(),
        Flag::ReadOnlyOrDisabled => node.is_read_only_or_disabled(),
        Flag::HasLabel => node.has_label(),
        Flag::HasValue => node.has_value(),
    }
}

//! Updates that are built call by call, without lines.
ghost use Rattle.std.specs.Prelude.{◌≡◌, ◌⊎◌, ◌∷◌, [], IfErr, IfOk, Some, string_bytes, true};
ghost use Rattle.std.specs.Str.{is_utf8};
ghost use Rattle.schema.specs.UpdateData.{update_data};
ghost use Rattle.script_nodes.specs.Given.{given};
ghost use Rattle.fed_tree.specs.Begun.{Builds, Changes, RefusesText, Sends, SetsHostFocus, WantsMemory, bare_update, with_new_node, with_root, with_toolkit_name, with_toolkit_version, with_value};
ghost use Rattle.fed_tree.specs.Feeding.{CarriesOutAll};

use crate::events::Events;
use crate::feeding::{FedTree, FeedError};
use crate::stage::Stage;
use schema::{Node, NodeId, Role, TreeId, TreeInfo, TreeUpdate};
use script_lines::ScriptCommand;
use script_nodes::{FieldValue, field_numbered, set_field};
use std::alloc::Global;
use tree_changes::UpdateError;

/// Why a part of an update wasn't taken. Nothing has changed then.
#[derive(Clone, Copy)]
pub enum BuildError {
    /// No update is begun; for a field, none of its nodes is; for a toolkit, it has no root yet.
    OutOfPlace,
    /// There is no such field, or it has no such value; a text isn't UTF-8.
    NoSuch,
    /// Memory ran out.
    Memory,
}

impl FedTree {
    /// Begins an update of a tree, in place of one that was begun before and not sent.
    pub fn begin_update(&mut self, tree_id: TreeId, focus: NodeId)
        ensures { self.new ≡ record self.old { begun = Some (bare_update tree_id focus) } }
    {
        self.begun = Some(TreeUpdate {
            nodes: Vec::new(self.alloc),
            tree: None,
            tree_id,
            focus,
        });
    }

    /// Says the tree's root in the begun update, without a toolkit.
    ///
    /// # Errors
    ///
    /// Returns `BuildError::OutOfPlace` if no update is begun.
    #[tactic(auto, using(crate::proofs::Building::builds_none, crate::proofs::Building::builds_some))]
    pub fn set_root(&mut self, root: NodeId) -> Result<(), BuildError>
        ensures { Builds (with_root root) self.old result self.new }
    {
        let Some(update) = &mut self.begun else {
            return Err(BuildError::OutOfPlace);
        };
        update.tree = Some(TreeInfo::new(root));
        Ok(())
    }

    /// Says the name of the tree's toolkit in the begun update.
    ///
    /// # Errors
    ///
    /// Returns `BuildError` if no update is begun, if its root wasn't said, if the text isn't UTF-8, or if memory runs out.
    #[tactic(auto, using(crate::proofs::Building::neither, crate::proofs::Building::builds_or_wants))]
    pub fn set_toolkit_name(&mut self, text: &[u8]) -> Result<(), BuildError>
        ensures { WantsMemory self.old result self.new ⊎ Builds (with_toolkit_name text.now) self.old result self.new }
    {
        let Some(update) = &mut self.begun else {
            return Err(BuildError::OutOfPlace);
        };
        name_toolkit(self.alloc, text, update)
    }

    /// Says the version of the tree's toolkit in the begun update.
    ///
    /// # Errors
    ///
    /// Returns `BuildError` if no update is begun, if its root wasn't said, if the text isn't UTF-8, or if memory runs out.
    #[tactic(auto, using(crate::proofs::Building::neither, crate::proofs::Building::builds_or_wants))]
    pub fn set_toolkit_version(&mut self, text: &[u8]) -> Result<(), BuildError>
        ensures { WantsMemory self.old result self.new ⊎ Builds (with_toolkit_version text.now) self.old result self.new }
    {
        let Some(update) = &mut self.begun else {
            return Err(BuildError::OutOfPlace);
        };
        version_toolkit(self.alloc, text, update)
    }

    /// Begins a node of the begun update. It has a role alone.
    ///
    /// # Errors
    ///
    /// Returns `BuildError` if no update is begun, or if memory runs out.
    #[tactic(auto, using(crate::proofs::Building::neither, crate::proofs::Building::builds_or_wants))]
    pub fn begin_node(&mut self, id: NodeId, role: Role) -> Result<(), BuildError>
        ensures { WantsMemory self.old result self.new ⊎ Builds (with_new_node id role) self.old result self.new }
    {
        let Some(update) = &mut self.begun else {
            return Err(BuildError::OutOfPlace);
        };
        add_node(self.alloc, id, role, update)
    }

    /// Sets a field of the node that was begun last, in place of what it had; to a set of actions one is added. The field is named by
    /// its number, as `field_numbered` of `script_nodes` reads it.
    ///
    /// # Errors
    ///
    /// Returns `BuildError` if no node is begun, if the field has no such value, or if memory runs out.
    #[tactic(auto, using(crate::proofs::Building::neither, crate::proofs::Building::builds_or_wants))]
    pub fn set_value(&mut self, field: u32, value: FieldValue<'_>) -> Result<(), BuildError>
        ensures { WantsMemory self.old result self.new ⊎ Builds (with_value field (given value.entry)) self.old result self.new }
    {
        let Some(update) = &mut self.begun else {
            return Err(BuildError::OutOfPlace);
        };
        set_last(field, value, update)
    }

    /// Carries out the begun update, as [`FedTree::feed`] carries out one from lines; `None` if none is begun. The events of what came
    /// before are forgotten, and no update is begun then, also if this one is refused.
    ///
    /// # Errors
    ///
    /// Returns `FeedError` if the update is refused, or if memory runs out.
    pub fn send(&mut self) -> Option<Result<(), FeedError>>
        ensures { Sends self.old result self.new }
    {
        let update = self.begun.take()?;
        self.events = Events::new(self.alloc);
        let command = ScriptCommand::Update(update);
        Some(carry_out_one(self.alloc, &mut self.stage, &mut self.events, command))
    }

    /// Says whether the host has the focus, as the lines `host on` and `host off` do. The events of what came before are forgotten.
    ///
    /// # Errors
    ///
    /// Returns `FeedError::Memory` if memory for the events runs out.
    pub fn set_host_focus(&mut self, is_host_focused: bool) -> Result<(), FeedError>
        ensures { SetsHostFocus self.old is_host_focused result self.new }
    {
        self.events = Events::new(self.alloc);
        let command = ScriptCommand::HostFocus(is_host_focused);
        carry_out_one(self.alloc, &mut self.stage, &mut self.events, command)
    }
}

/// Carries out one command.
#[tactic(auto, using(crate::proofs::CarryingOne::one_done, crate::proofs::CarryingOne::one_lost, crate::proofs::CarryingOne::one_refused, crate::proofs::CarryingOne::one_wanting))]
fn carry_out_one(
    alloc: Global,
    stage: &mut Stage,
    events: &mut Events,
    command: ScriptCommand,
) -> Result<(), FeedError>
    requires { events.old ≡ Some [] }
    ensures { CarriesOutAll stage.old (command ∷ []) result stage.new events.new }
{
    match stage.carry_out(alloc, command, events) {
        Ok(()) => {
            if events.are_whole() {
                Ok(())
            } else {
                Err(FeedError::Memory { done: 1 })
            }
        }
        Err(UpdateError::Memory) => Err(FeedError::Memory { done: 0 }),
        Err(why) => Err(FeedError::Refused { done: 0, why }),
    }
}

/// A copy of the text, if it is UTF-8.
#[tactic(auto, using(script_nodes::proofs::Utf8::passes, script_nodes::proofs::Utf8::fails))]
fn copy_of_text(alloc: Global, text: &[u8]) -> Result<String, BuildError>
    ensures copied { IfOk result (λ copy. (string_bytes copy ≡ text.now) × (is_utf8 text.now ≡ true)) }
    ensures refused { IfErr result (λ why. RefusesText text.now why) }
{
    let Ok(text) = str::from_utf8(text) else {
        return Err(BuildError::NoSuch);
    };
    String::from_str(alloc, text).or(Err(BuildError::Memory))
}

fn name_toolkit(alloc: Global, text: &[u8], update: &mut TreeUpdate) -> Result<(), BuildError>
    ensures { WantsMemory (update_data update.old) result (update_data update.new)
        ⊎ Changes (with_toolkit_name text.now (update_data update.old)) (update_data update.old) result (update_data update.new) }
{
    let Some(info) = &mut update.tree else {
        return Err(BuildError::OutOfPlace);
    };
    info.toolkit_name = Some(copy_of_text(alloc, text)?);
    Ok(())
}

fn version_toolkit(alloc: Global, text: &[u8], update: &mut TreeUpdate) -> Result<(), BuildError>
    ensures { WantsMemory (update_data update.old) result (update_data update.new)
        ⊎ Changes (with_toolkit_version text.now (update_data update.old)) (update_data update.old) result (update_data update.new) }
{
    let Some(info) = &mut update.tree else {
        return Err(BuildError::OutOfPlace);
    };
    info.toolkit_version = Some(copy_of_text(alloc, text)?);
    Ok(())
}

fn add_node(
    alloc: Global,
    id: NodeId,
    role: Role,
    update: &mut TreeUpdate,
) -> Result<(), BuildError>
    ensures { WantsMemory (update_data update.old) result (update_data update.new)
        ⊎ Changes (with_new_node id role (update_data update.old)) (update_data update.old) result (update_data update.new) }
{
    match update.nodes.push((id, Node::new(alloc, role))) {
        Ok(()) => Ok(()),
        Err(_) => Err(BuildError::Memory),
    }
}

fn set_last(field: u32, value: FieldValue<'_>, update: &mut TreeUpdate) -> Result<(), BuildError>
    ensures { WantsMemory (update_data update.old) result (update_data update.new)
        ⊎ Changes (with_value field (given value.entry) (update_data update.old))
        (update_data update.old) result (update_data update.new) }
{
    let Some(entry) = update.nodes.last_mut() else {
        return Err(BuildError::OutOfPlace);
    };
    let Some(field) = field_numbered(field) else {
        return Err(BuildError::NoSuch);
    };
    match set_field(field, value, &mut entry.1) {
        Ok(true) => Ok(()),
        Ok(false) => Err(BuildError::NoSuch),
        Err(_) => Err(BuildError::Memory),
    }
}

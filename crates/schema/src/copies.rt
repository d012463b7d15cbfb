//! The copy of a node.

ghost use Rattle.std.specs.Prelude.{◌≡◌, IfOk, option_map, string_bytes};

use crate::Node;
use std::alloc::{AllocError, Global};

impl Clone for Node {
    ghost is_clone = { λ original copy. copy ≡ original };

    fn clone(&self) -> Result<Node, AllocError> {
        let alloc = self.alloc;
        Ok(Node {
            marks: self.marks.copy(),
            children: Vec::from_slice(alloc, self.children.as_slice())?,
            label: String::from_str(alloc, self.label.as_str())?,
            run: self.run.copy(alloc)?,
            rare: self.rare.copy(alloc)?,
            actions: self.actions.copy(),
            child_actions: self.child_actions.copy(),
            plain: self.plain,
            alloc,
        })
    }
}

/// A copy of a text, if there is one.
pub(crate) fn copy_of_text(
    alloc: Global,
    text: &Option<String>,
) -> Result<Option<String>, AllocError>
    ensures { IfOk result (λ copy. option_map string_bytes copy ≡ option_map string_bytes text.now) }
{
    match text {
        Some(text) => Ok(Some(String::from_str(alloc, text.as_str())?)),
        None => Ok(None),
    }
}

//! The arguments of the program.

ghost use Rattle.std.specs.Prelude.{◌≡◌, IfOk, OnOk};
ghost use Rattle.std.specs.Io.KnownBytes.{Appends};
ghost use Rattle.read.specs.Asked.{asked_text, is_told};
ghost use Rattle.read.specs.Given.{GivesAsked, ReadsAsked};

use crate::given::{id_given, tree_given};
use crate::reading::tell_node;
use atree_script::{ArgumentError, Arguments, Stop, Teller, miscounted};
use session::{NodeName, Session};
use std::alloc::Global;
use std::io::Write;

/// The node whose text is printed.
#[derive(Drop)]
pub(crate) struct Asked {
    name: NodeName,
}

impl Arguments for Asked {
    ghost reads = { ReadsAsked };

    /// The node's id, and its tree.
    fn from_words(alloc: Global, words: &[String]) -> Result<Asked, ArgumentError> {
        match words {
            [id, tree] => named(alloc, id.as_str(), tree.as_str()),
            _ => Err(miscounted(words)),
        }
    }
}

impl Teller for Asked {
    /// Prints the text of the node, or why none is shown, and returns whether it is shown.
    fn tell<O: Write>(&self, alloc: Global, session: &Session, output: &mut O) -> Result<bool, Stop>
        ensures printed { OnOk result (Appends (O.contents output.old) (O.contents output.new) (asked_text session.now self.now.name)) }
        ensures there { IfOk result (λ there. there ≡ is_told session.now self.now.name) }
    {
        tell_node(alloc, session.tree().state().view(), self.name, output)
    }
}

/// The node that is named by these words.
fn named(alloc: Global, id: &str, tree: &str) -> Result<Asked, ArgumentError>
    ensures { GivesAsked id.now tree.now result }
{
    let id = id_given(alloc, id)?;
    let tree = tree_given(alloc, tree)?;
    Ok(Asked { name: (id, tree) })
}

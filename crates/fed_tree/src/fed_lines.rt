//! Reading all commands of the lines that are fed.
ghost use Rattle.fed_tree.specs.Feeding.{ReadsCommands};

use script_lines::{ScriptCommand, ScriptReader, Stop};
use std::alloc::Global;

/// Why lines weren't read.
#[derive(Clone, Copy)]
pub(crate) enum Unread {
    /// The line with this number, counted from 1, is none of a script or is out of place, or the lines end inside an update.
    BadLine(u64),
    /// Memory ran out.
    Memory,
}

/// The commands of the lines.
#[tactic(auto, using(crate::proofs::Commands::one_more, crate::proofs::Commands::all_read, crate::proofs::Commands::bad_read, crate::proofs::Commands::at_start))]
pub(crate) fn read_commands(alloc: Global, lines: &[u8]) -> Result<Vec<ScriptCommand>, Unread>
    ensures { ReadsCommands lines.now result }
{
    let mut script = ScriptReader::new(alloc);
    let mut commands = Vec::new(alloc);
    let mut input = lines;
    for _ in 0..u64::MAX {
        match script.next_command(&mut input) {
            Ok(Some(command)) => {
                if commands.push(command).is_err() {
                    return Err(Unread::Memory);
                }
            }
            Ok(None) => return Ok(commands),
            Err(Stop::BadLine) => return Err(Unread::BadLine(script.line_number())),
            Err(_) => return Err(Unread::Memory),
        }
    }
    Err(Unread::Memory)
}

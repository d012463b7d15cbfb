//! Records commands as a script.

use script_lines::{Program, ScriptReader, Stop, Streams, end_script_run, write_command};
use std::io::{BufRead, Write};

/// The program that rewrites the commands of a script. It has no arguments.
pub(crate) struct Recorder;

impl Program for Recorder {
    fn run<R: BufRead, O: Write, E: Write>(&self, streams: &mut Streams<R, O, E>) -> u8 {
        let mut script = ScriptReader::new(streams.alloc);
        let ended = record_commands(&mut script, streams);
        end_script_run(ended, &script, &mut streams.output, &mut streams.errors)
    }
}

/// Writes all commands.
fn record_commands<R: BufRead, O: Write, E>(
    script: &mut ScriptReader,
    streams: &mut Streams<R, O, E>,
) -> Result<(), Stop> {
    for _ in 0..u64::MAX {
        let Some(command) = script.next_command(&mut streams.input)? else {
            break;
        };
        write_command(streams.alloc, &command, &mut streams.output)?;
    }
    Ok(())
}

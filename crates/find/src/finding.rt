//! Running the program.

ghost use Rattle.std.specs.Prelude.{◌≡◌, ◌≤◌, [], IfOk, OnOk, codes};
ghost use Rattle.std.specs.Io.KnownBytes.{Appends, Keeps};
ghost use Rattle.script_lines.specs.Ends.{Tells};
ghost use Rattle.find.specs.Finding.{Answers, FindsInScript, enough_when, missing_text, printed_when, status_if, text_or};
ghost use Rattle.find.specs.Noted.{noted_of};
ghost use Rattle.find.specs.Reading.{seen_of};

use crate::noting::{Notes, write_tree};
use crate::reading::{Read, read_noted};
use crate::wanted::{Wanted, When};
use atree_script::{Program, Stop, Streams, end_run};
use std::alloc::Global;
use std::io::{BufRead, Write};

/// The exit status if as many nodes as were asked for aren't there.
const NOT_THERE: u8 = 1;

/// The program that prints what is found in a script's trees.
#[derive(Drop)]
pub(crate) struct Finding {
    pub(crate) wanted: Wanted,
}

impl Program for Finding {
    /// Reads a script and prints what is found in the tree that it leaves, or in those after its updates. Returns the exit status: 0 if as
    /// many nodes are found as are asked for, and 1 if not; 2 for a bad line, which is reported on `errors`; 3 for an error of the input
    /// or an output; 4 if memory runs out, also in an update, which is reported on `errors` too.
    fn run<R: BufRead, O: Write, E: Write>(&self, streams: &mut Streams<R, O, E>) -> u8
        ensures bound { result ≤ 4 }
        ensures finds { FindsInScript self.now.wanted (R.remaining streams.old.input) (O.contents streams.old.output)
            (O.contents streams.new.output) (E.contents streams.old.errors) (E.contents streams.new.errors) result }
    {
        let input = &mut streams.input;
        let output = &mut streams.output;
        let errors = &mut streams.errors;
        find_in_script(streams.alloc, &self.wanted, input, output, errors)
    }
}

/// Reads a script, and prints what is found. Returns the exit status.
fn find_in_script<R: BufRead, O: Write, E: Write>(
    alloc: Global,
    wanted: &Wanted,
    input: &mut R,
    output: &mut O,
    errors: &mut E,
) -> u8
    ensures bound { result ≤ 4 }
    ensures finds { FindsInScript wanted.now (R.remaining input.old) (O.contents output.old) (O.contents output.new)
        (E.contents errors.old) (E.contents errors.new) result }
{
    match read_noted(alloc, wanted, input, errors) {
        Ok(read) => answer(alloc, wanted, &read, output, errors),
        Err(status) => status,
    }
}

/// Prints what is found in a script that was read, and returns the exit status.
fn answer<O: Write, E: Write>(
    alloc: Global,
    wanted: &Wanted,
    read: &Read,
    output: &mut O,
    errors: &mut E,
) -> u8
    ensures bound { result ≤ 4 }
    ensures answers { Answers read.now.session (seen_of wanted.now read.now.updates (E.contents errors.old) read.now.notes)
        (O.contents output.old) (O.contents output.new) (E.contents errors.new) result }
{
    match print_answer(alloc, wanted, read, output) {
        Ok(is_enough) => end_answer(is_enough, output, errors),
        Err(stop) => end_run(Err(stop), 0, output, errors),
    }
}

/// Ends a run whose answer is printed, and returns the exit status.
fn end_answer<O: Write, E: Write>(is_enough: bool, output: &mut O, errors: &mut E) -> u8
    ensures bound { result ≤ 4 }
    ensures printed { Keeps (O.contents output.old) (O.contents output.new) }
    ensures told { Tells (E.contents errors.old) (E.contents errors.new) [] (status_if is_enough) result }
{
    let status = end_run(Ok(()), 0, output, errors);
    if status == 0 {
        return status_if(is_enough);
    }
    status
}

/// The exit status by whether as many nodes are found as are asked for.
fn status_if(is_enough: bool) -> u8
    ensures bound { result ≤ 1 }
    ensures status { result ≡ status_if is_enough }
{
    if is_enough { 0 } else { NOT_THERE }
}

/// Prints what is found in a script that was read, and returns whether as many nodes are found as are asked for.
fn print_answer<O: Write>(
    alloc: Global,
    wanted: &Wanted,
    read: &Read,
    output: &mut O,
) -> Result<bool, Stop>
    ensures printed { let noted = noted_of read.now.notes in
        OnOk result (Appends (O.contents output.old) (O.contents output.new)
        (printed_when wanted.now.when wanted.now read.now.updates noted read.now.session)) }
    ensures enough { IfOk result (λ is. is ≡ enough_when wanted.now.when wanted.now (noted_of read.now.notes) read.now.session) }
{
    match wanted.when {
        When::AtEnd => write_tree(alloc, wanted, read.session.as_ref(), true, output),
        When::After(number) => print_after(number, read.updates, &read.notes, output),
        When::Each => print_each(&read.notes, output),
    }
}

/// Prints what was noted after the update with this number, or that there was none among so many.
fn print_after<O: Write>(
    number: u64,
    updates: u64,
    notes: &Notes,
    output: &mut O,
) -> Result<bool, Stop>
    ensures printed { OnOk result (Appends (O.contents output.old) (O.contents output.new)
        (text_or (missing_text number updates) notes.now.text.items)) }
    ensures enough { IfOk result (λ is. is ≡ notes.now.is_enough) }
{
    if notes.text.is_empty() {
        writeln!(output, "no update {number}: the script has {updates}")?;
        return Ok(notes.is_enough);
    }
    output.write_all(&notes.text)?;
    Ok(notes.is_enough)
}

/// Prints what was noted after the updates, or that there is no tree.
fn print_each<O: Write>(notes: &Notes, output: &mut O) -> Result<bool, Stop>
    ensures printed { OnOk result (Appends (O.contents output.old) (O.contents output.new) (text_or (codes "no tree\n") notes.now.text.items)) }
    ensures enough { IfOk result (λ is. is ≡ notes.now.is_enough) }
{
    if notes.text.is_empty() {
        output.write_all(b"no tree\n")?;
        return Ok(notes.is_enough);
    }
    output.write_all(&notes.text)?;
    Ok(notes.is_enough)
}

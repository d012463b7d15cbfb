//! The arguments of a program, and what it says of itself.

ghost use Rattle.std.specs.Prelude.{◌≡◌, ◌≤◌, ◌≢◌, ℕ, IfErr, List, OnOk, Result, map, option_copied};
ghost use Rattle.std.specs.Io.KnownBytes.{Appends};
ghost use Rattle.std.specs.String.{string_bytes};
ghost use Rattle.script_lines.specs.ArgumentErrors.{ReadsNone, ReadsWords};
ghost use Rattle.script_lines.specs.Arguments.{after_option, options, Answers, AnswersAfter, TellsError, call_text, error_text, hint_text, kind_text, manual_text, near_text, unknown_text, usage_text, wrong_text};
ghost use Rattle.script_lines.specs.Ends.{Tells};
ghost use Rattle.version.specs.Version.{version_line};
ghost use Rattle.script_lines.specs.declared.argument_errors.ArgumentError.{ArgumentError as AnError};

use crate::argument_errors::{
    ArgumentError, ArgumentKind, UnknownWord, is_option, miscounted, no_option,
};
use crate::ends::{BAD_LINE, DONE, FAULT, tell_no_memory};
use crate::failures::{failure_among, tell_failure};
use crate::streams::{Output, SharedOutput};
use line_text::write_shown;
use std::alloc::Global;
use std::cell::RefCell;
use std::env;
use std::io::{self, ErrorKind, IsTerminal, Write};
use version::write_version;

/// What a program says of itself.
#[derive(Clone, Copy)]
pub struct Manual {
    /// Its name, as `find`.
    pub name: &'static str,
    /// Its arguments with a space before each, as ` ROLE [LABEL]`.
    pub arguments: &'static str,
    /// An option that may come first, as `--numbered`, if it has one.
    pub option: Option<&'static str>,
    /// Lines with its purpose, its arguments, an example and its exit statuses.
    pub help: &'static str,
}

/// The arguments of a program.
pub trait Arguments: Sized + Drop {
    /// What is read from words: the words, and the result.
    ghost reads: { List (List ℕ) → Result Self AnError → Type 0 };

    /// The meaning of the words that follow the program's name. The first of them is no option.
    ///
    /// # Errors
    ///
    /// Returns what is wrong with them, or that memory ran out.
    fn from_words(alloc: Global, words: &[String]) -> Result<Self, ArgumentError>
        ensures { reads (map string_bytes words.now) result };
}

/// The arguments of a program without arguments.
#[derive(Clone, Copy)]
pub struct NoArguments;

impl Arguments for NoArguments {
    ghost reads = { ReadsNone };

    /// Any word is taken for a file's name.
    fn from_words(_alloc: Global, words: &[String]) -> Result<NoArguments, ArgumentError> {
        if words.is_empty() {
            return Ok(NoArguments);
        }
        Err(ArgumentError::File)
    }
}

/// The option of each program that reports refused updates.
const STRICT: &str = "--strict";

/// Reads the program's arguments: whether the option that its manual names is the first of them, and the meaning of the other words. If
/// `--help` comes first, its manual is printed on standard output, and for `--version` its version. Wrong arguments are reported on
/// standard error, with the usage. If the script would have to be typed, that is said on standard error too, and if the manual or the
/// version can't be printed, why, unless the reader of the output has closed its pipe.
///
/// # Errors
///
/// Returns the exit status if the program is not to run: 0 once its manual or its version is printed, 2 for wrong arguments, 3 if a stream
/// failed, and 4 if memory runs out.
pub fn read_arguments<A: Arguments>(rt: &HostRuntime, manual: &Manual) -> Result<(bool, A), u8>
    ensures { IfErr result (λ status. (status ≤ 4) × (status ≢ 1)) }
{
    let (_, asked) = read_after(rt, None, manual)?;
    Ok(asked)
}

/// Reads the arguments of a program that reports refused updates: whether they begin with `--strict`, and the others as
/// [`read_arguments`] does.
///
/// # Errors
///
/// Returns the exit status if the program is not to run, as [`read_arguments`] does.
pub fn read_run<A: Arguments>(rt: &HostRuntime, manual: &Manual) -> Result<(bool, (bool, A)), u8>
    ensures { IfErr result (λ status. (status ≤ 4) × (status ≢ 1)) }
{
    read_after(rt, Some(STRICT), manual)
}

/// Reads the program's arguments: whether they begin with this option, if there is one, and the others as [`read_arguments`] does.
fn read_after<A: Arguments>(
    rt: &HostRuntime,
    option: Option<&str>,
    manual: &Manual,
) -> Result<(bool, (bool, A)), u8>
    ensures { IfErr result (λ status. (status ≤ 4) × (status ≢ 1)) }
{
    let Ok(output) = Output::new(rt.alloc(), io::writer(rt)) else {
        return Err(tell_no_memory(&mut rt.stderr()));
    };
    let output = RefCell::new(output);
    let asked = answer_arguments(rt, option, manual, &output);
    let unwritten = output.into_inner().discard();
    let _ = tell_failure(failure_among(None, unwritten), &mut rt.stderr());
    asked
}

/// Reads the program's arguments as [`read_after`] does, and prints on this output.
fn answer_arguments<A: Arguments, W: Write + Drop>(
    rt: &HostRuntime,
    option: Option<&str>,
    manual: &Manual,
    output: &RefCell<Output<W>>,
) -> Result<(bool, (bool, A)), u8>
    ensures { IfErr result (λ status. (status ≤ 4) × (status ≢ 1)) }
{
    let mut output = SharedOutput::new(output);
    let mut errors = rt.stderr();
    let words = match words_given(rt) {
        Ok(words) => words,
        Err(error) => return Err(tell_error(&error, manual, &mut output, &mut errors)),
    };
    let alloc = rt.alloc();
    let asked = answer_after(alloc, option, &words, manual, &mut output, &mut errors)?;
    note_terminal(rt, &mut errors)?;
    Ok(asked)
}

/// The words that follow the program's name.
fn words_given(rt: &HostRuntime) -> Result<Vec<String>, ArgumentError> {
    let mut words = Vec::new(rt.alloc());
    match env::args(rt) {
        Ok(args) => {
            for word in args.skip(1) {
                if words.push(word).is_err() {
                    return Err(ArgumentError::Memory);
                }
            }
            Ok(words)
        }
        Err(error) if error.kind() == ErrorKind::OutOfMemory => Err(ArgumentError::Memory),
        Err(_) => Err(ArgumentError::NotUtf8),
    }
}

/// Says on standard error that the script would have to be typed, if that is so.
fn note_terminal<E: Write>(rt: &HostRuntime, errors: &mut E) -> Result<(), u8>
    ensures { IfErr result (λ status. (status ≤ 4) × (status ≢ 1)) }
{
    if rt.stdin().is_terminal() && write_terminal(errors).is_err() {
        return Err(FAULT);
    }
    Ok(())
}

/// Writes that the script is read from a terminal: a file's name may have been taken for a label.
fn write_terminal<E: Write>(errors: &mut E) -> io::Result<()> {
    errors.write_all(b"the script is read from this terminal; Ctrl-D ends it\n")
}

/// Whether the words begin with this option, if there is one, and what is answered to the others, as [`answer_words`] does.
///
/// # Errors
///
/// Returns the exit status if the program is not to run.
fn answer_after<A: Arguments, O: Write, E: Write>(
    alloc: Global,
    option: Option<&str>,
    words: &[String],
    manual: &Manual,
    output: &mut O,
    errors: &mut E,
) -> Result<(bool, (bool, A)), u8>
    ensures bound { IfErr result (λ status. (status ≤ 4) × (status ≢ 1)) }
    ensures answers { AnswersAfter A.reads (option_copied option.entry) manual.now (map string_bytes words.now) result
        (O.contents output.old) (O.contents output.new) (E.contents errors.old) (E.contents errors.new) }
{
    let (is_first, others) = after_option(option, words);
    match answer_words(alloc, others, manual, output, errors) {
        Ok(asked) => Ok((is_first, asked)),
        Err(status) => Err(status),
    }
}

/// Whether a program's option is the first of its words, and the meaning of the others. If the program is not to run, its manual or
/// its version is printed, or what is wrong with the words is reported.
///
/// # Errors
///
/// Returns the exit status if the program is not to run.
fn answer_words<A: Arguments, O: Write, E: Write>(
    alloc: Global,
    words: &[String],
    manual: &Manual,
    output: &mut O,
    errors: &mut E,
) -> Result<(bool, A), u8>
    ensures bound { IfErr result (λ status. (status ≤ 4) × (status ≢ 1)) }
    ensures answers { Answers A.reads manual.now (map string_bytes words.now) result (O.contents output.old) (O.contents output.new)
        (E.contents errors.old) (E.contents errors.new) }
{
    let (is_given, others) = after_option(manual.option, words);
    match asked_for(alloc, manual, others) {
        Ok(asked) => Ok((is_given, asked)),
        Err(error) => Err(tell_error(&error, manual, output, errors)),
    }
}

/// Whether the option, if there is one, is the first of the words, and the words after it, or else all of them.
fn after_option<'a>(option: Option<&str>, words: &'a [String]) -> (bool, &'a [String])
    ensures { (result.0, map string_bytes result.1.now)
        ≡ after_option (option_copied option.entry) (map string_bytes words.now) }
{
    match (option, words) {
        (Some(option), [first, others @ ..]) if first.as_str() == option => (true, others),
        _ => (false, words),
    }
}

/// The meaning of a program's words, of which the first may be an option.
fn asked_for<A: Arguments>(
    alloc: Global,
    manual: &Manual,
    words: &[String],
) -> Result<A, ArgumentError>
    ensures { ReadsWords A.reads (options manual.now) (map string_bytes words.now) result }
{
    match words {
        [first, ..] if is_option(first.as_str()) => {
            Err(no_option(alloc, first.as_str(), manual.option))
        }
        _ => A::from_words(alloc, words),
    }
}

/// Prints a program's manual or version, or reports what is wrong with its arguments, and returns the exit status.
fn tell_error<O: Write, E: Write>(
    error: &ArgumentError,
    manual: &Manual,
    output: &mut O,
    errors: &mut E,
) -> u8
    ensures bound { result ≤ 4 }
    ensures not_one { result ≢ 1 }
    ensures told { TellsError manual.now error.now (O.contents output.old) (O.contents output.new) (E.contents errors.old)
        (E.contents errors.new) result }
{
    match error {
        ArgumentError::Help => tell_manual(manual, output),
        ArgumentError::Version => tell_version(manual, output),
        ArgumentError::Memory => tell_no_memory(errors),
        ArgumentError::Count
        | ArgumentError::File
        | ArgumentError::Unknown(_)
        | ArgumentError::NotUtf8 => tell_wrong(error, manual, errors),
    }
}

/// Prints a program's manual, and returns the exit status.
fn tell_manual<O: Write>(manual: &Manual, output: &mut O) -> u8
    ensures bound { result ≤ 4 }
    ensures not_one { result ≢ 1 }
    ensures told { Tells (O.contents output.old) (O.contents output.new) (manual_text manual.now) 0 result }
{
    if write_manual(manual, output).is_err() || output.flush().is_err() {
        return FAULT;
    }
    DONE
}

/// Writes a program's manual.
fn write_manual<O: Write>(manual: &Manual, output: &mut O) -> io::Result<()>
    ensures { OnOk result (Appends (O.contents output.old) (O.contents output.new) (manual_text manual.now)) }
{
    write_call(manual, output)?;
    output.write_all(b"\n\n")?;
    output.write_all(manual.help.as_bytes())
}

/// Writes how a program is called.
fn write_call<O: Write>(manual: &Manual, output: &mut O) -> io::Result<()>
    ensures { OnOk result (Appends (O.contents output.old) (O.contents output.new) (call_text manual.now)) }
{
    output.write_all(manual.name.as_bytes())?;
    output.write_all(manual.arguments.as_bytes())?;
    output.write_all(b" < SCRIPT")
}

/// Prints a program's version, and returns the exit status.
fn tell_version<O: Write>(manual: &Manual, output: &mut O) -> u8
    ensures bound { result ≤ 4 }
    ensures not_one { result ≢ 1 }
    ensures told { Tells (O.contents output.old) (O.contents output.new) (version_line manual.now.name.now) 0 result }
{
    if write_version(manual.name, output).is_err() || output.flush().is_err() {
        return FAULT;
    }
    DONE
}

/// Reports what is wrong with a program's arguments, with the usage, and returns the exit status.
fn tell_wrong<E: Write>(error: &ArgumentError, manual: &Manual, errors: &mut E) -> u8
    ensures bound { result ≤ 4 }
    ensures not_one { result ≢ 1 }
    ensures told { Tells (E.contents errors.old) (E.contents errors.new) (wrong_text manual.now error.now) 2 result }
{
    if write_wrong(error, manual, errors).is_err() || errors.flush().is_err() {
        return FAULT;
    }
    BAD_LINE
}

/// Writes what is wrong with a program's arguments, and the usage.
fn write_wrong<E: Write>(error: &ArgumentError, manual: &Manual, errors: &mut E) -> io::Result<()>
    ensures { OnOk result (Appends (E.contents errors.old) (E.contents errors.new) (wrong_text manual.now error.now)) }
{
    write_error(error, errors)?;
    write_usage(manual, errors)
}

/// Writes what is wrong with a program's arguments, in a line; nothing if words are missing or too many.
fn write_error<E: Write>(error: &ArgumentError, errors: &mut E) -> io::Result<()>
    ensures { OnOk result (Appends (E.contents errors.old) (E.contents errors.new) (error_text error.now)) }
{
    match error {
        ArgumentError::File => errors.write_all(
            b"the script is read from standard input: put < before its file's name\n",
        ),
        ArgumentError::Unknown(unknown) => write_unknown(unknown, errors),
        ArgumentError::NotUtf8 => errors.write_all(b"an argument isn't UTF-8\n"),
        ArgumentError::Help
        | ArgumentError::Version
        | ArgumentError::Count
        | ArgumentError::Memory => Ok(()),
    }
}

/// Writes that there is no such word of its kind, and the one that may be meant, if there is one. A control character of the
/// word is written by its name.
fn write_unknown<E: Write>(unknown: &UnknownWord, errors: &mut E) -> io::Result<()>
    ensures { OnOk result (Appends (E.contents errors.old) (E.contents errors.new) (unknown_text unknown.now)) }
{
    errors.write_all(b"no ")?;
    errors.write_all(kind_name(unknown.kind).as_bytes())?;
    errors.write_all(b" ")?;
    write_shown(unknown.word.as_bytes(), errors)?;
    write_near(unknown.near, errors)
}

/// What words of this kind are called.
fn kind_name(kind: ArgumentKind) -> &'static str
    ensures { result.now ≡ kind_text kind }
{
    match kind {
        ArgumentKind::Role => "role",
        ArgumentKind::Number => "number",
        ArgumentKind::Tree => "tree",
        ArgumentKind::Dashed => "option",
    }
}

/// Writes the word that may be meant, if there is one, and the end of the line.
fn write_near<E: Write>(near: Option<&str>, errors: &mut E) -> io::Result<()>
    ensures { OnOk result (Appends (E.contents errors.old) (E.contents errors.new) (near_text (option_copied near.entry))) }
{
    match near {
        Some(near) => writeln!(errors, "; did you mean {near}?"),
        None => errors.write_all(b"\n"),
    }
}

/// Writes a program's usage.
fn write_usage<E: Write>(manual: &Manual, errors: &mut E) -> io::Result<()>
    ensures { OnOk result (Appends (E.contents errors.old) (E.contents errors.new) (usage_text manual.now)) }
{
    errors.write_all(b"usage: ")?;
    write_call(manual, errors)?;
    write_hint(manual, errors)
}

/// Writes what says more.
fn write_hint<E: Write>(manual: &Manual, errors: &mut E) -> io::Result<()>
    ensures { OnOk result (Appends (E.contents errors.old) (E.contents errors.new) (hint_text manual.now)) }
{
    let name = manual.name;
    writeln!(errors, "; {name} --help says more")
}

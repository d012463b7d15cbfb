//! What is said of a standard stream that failed.

ghost use Rattle.std.specs.Prelude.{◌≡◌, OnOk, option_copied};
ghost use Rattle.std.specs.Io.KnownBytes.{Appends};
ghost use Rattle.std.specs.IoError.{raw_os_error};
ghost use Rattle.script_lines.specs.Failures.{code_of, failure_among, failure_text, failure_told, is_of_reader, reason_known, reason_text, stream_text};

use std::io::{self, Error, Write};

/// A standard stream that a program reads or writes.
#[derive(Clone, Copy)]
pub(crate) enum Stream {
    Input,
    Output,
}

/// A stream that failed, and why.
#[derive(Clone, Copy)]
pub(crate) struct Failure {
    pub(crate) stream: Stream,
    /// The operating system's number for the error; 0 if it has none.
    pub(crate) code: u32,
}

/// The operating system's number for an error; 0 if it has none.
pub(crate) fn code_of(error: &Error) -> u32
    ensures { result ≡ code_of (raw_os_error error.now) }
{
    match error.raw_os_error() {
        Some(code) => code.unsigned_abs(),
        None => 0,
    }
}

/// Whether the stream is an output whose reader has closed its end of a pipe.
pub(crate) fn is_of_reader(failure: Failure) -> bool
    ensures { result ≡ is_of_reader failure }
{
    match failure.stream {
        Stream::Input => false,
        Stream::Output => failure.code == 32,
    }
}

/// The failure of the input, by the number of its error, or else that of the output.
pub(crate) fn failure_among(input: Option<u32>, output: Option<u32>) -> Option<Failure>
    ensures { result ≡ failure_among input output }
{
    match (input, output) {
        (Some(code), _) => Some(Failure {
            stream: Stream::Input,
            code,
        }),
        (None, Some(code)) => Some(Failure {
            stream: Stream::Output,
            code,
        }),
        (None, None) => None,
    }
}

/// Reports a failure, if there is one, unless the reader of the output has closed its pipe.
pub(crate) fn tell_failure<E: Write>(failure: Option<Failure>, errors: &mut E) -> io::Result<()>
    ensures { OnOk result (Appends (E.contents errors.old) (E.contents errors.new) (failure_told failure)) }
{
    match failure {
        Some(failure) if !is_of_reader(failure) => write_failure(failure, errors),
        Some(_) | None => Ok(()),
    }
}

/// Writes which stream failed, and why, in a line.
fn write_failure<E: Write>(failure: Failure, errors: &mut E) -> io::Result<()>
    ensures { OnOk result (Appends (E.contents errors.old) (E.contents errors.new) (failure_text failure)) }
{
    errors.write_all(stream_text(failure.stream).as_bytes())?;
    errors.write_all(b": ")?;
    write_reason(failure.code, errors)?;
    errors.write_all(b"\n")
}

/// What can't be done with a stream.
fn stream_text(stream: Stream) -> &'static str
    ensures { result.now ≡ stream_text stream }
{
    match stream {
        Stream::Input => "standard input can't be read",
        Stream::Output => "standard output can't be written",
    }
}

/// Writes why a stream failed.
fn write_reason<E: Write>(code: u32, errors: &mut E) -> io::Result<()>
    ensures { OnOk result (Appends (E.contents errors.old) (E.contents errors.new) (reason_text code)) }
{
    match reason_known(code) {
        Some(reason) => errors.write_all(reason.as_bytes()),
        None => write!(errors, "error {code} of the operating system"),
    }
}

/// What is known of an error by its number.
fn reason_known(code: u32) -> Option<&'static str>
    ensures { option_copied result ≡ reason_known code }
{
    match code {
        0 => Some("it failed"),
        5 => Some("input/output error"),
        9 => Some("it isn't open"),
        13 => Some("permission denied"),
        21 => Some("it is a directory"),
        27 => Some("the file is too large"),
        28 => Some("no space is left on the device"),
        104 => Some("the connection was reset"),
        122 => Some("the disk quota is used up"),
        _ => None,
    }
}

//! The streams of a program that answers: what it has written is there to be read before it waits for more input.

ghost use Rattle.std.specs.Prelude.{◌≡◌, ◌⊎◌, [], None, Some, IsErr, IsSome, OnOk, OnErr, IfErr, IfOk};
ghost use Rattle.std.specs.Io.Buffered.{writer_buffer, writer_contents};
ghost use Rattle.std.specs.Io.KnownBytes.{Appends, Keeps, ReadConsumes};
ghost use Rattle.std.specs.Io.{ReadsAtMost};
ghost use Rattle.std.specs.IoError.{raw_os_error};
ghost use Rattle.script_lines.specs.Failures.{code_of};

use crate::failures::code_of;
use std::alloc::Global;
use std::cell::{Cell, RefCell};
use std::io::{self, BufWriter, Error, ErrorKind, Read, Write};

/// An output with a buffer. Once it has failed nothing more is written to it, not even what is in the buffer.
#[derive(Drop)]
pub(crate) struct Output<W: Write + Drop> {
    writer: BufWriter<W>,
    /// The operating system's number for the error with which it failed, if it did; 0 if the error has none.
    failure: Option<u32>,
}

impl<W: Write + Drop> Output<W> {
    /// An output with an empty buffer.
    pub(crate) fn new(alloc: Global, writer: W) -> io::Result<Output<W>>
        ensures { IfOk result (λ output. (writer_buffer output.writer ≡ []) × (output.failure ≡ None)) }
    {
        Ok(Output {
            writer: BufWriter::new(alloc, writer)?,
            failure: None,
        })
    }

    /// Writes what is in the buffer.
    fn flush(&mut self) -> io::Result<()>
        ensures empty { OnOk result (writer_buffer self.new.writer ≡ []) }
        ensures bytes { Keeps (writer_contents W.contents self.old.writer) (writer_contents W.contents self.new.writer) }
        ensures fails { OnErr result (IsSome self.new.failure) }
        ensures failed { IsSome self.old.failure → IsErr result × (self.new ≡ self.old) }
    {
        if self.failure.is_some() {
            return Err(failed());
        }
        let flushed = self.writer.flush();
        self.failure = failure_of(&flushed);
        flushed
    }

    /// Puts bytes into the buffer, which is written where they have no room.
    fn write_all(&mut self, bytes: &[u8]) -> io::Result<()>
        ensures appends { OnOk result (Appends (writer_contents W.contents self.old.writer)
            (writer_contents W.contents self.new.writer) bytes.now) }
        ensures fails { OnErr result (IsSome self.new.failure) }
        ensures failed { IsSome self.old.failure → IsErr result × (self.new ≡ self.old) }
    {
        if self.failure.is_some() {
            return Err(failed());
        }
        let written = self.writer.write_all(bytes);
        self.failure = failure_of(&written);
        written
    }

    /// Ends it, and returns the number of the error with which it failed, if it did. What is in the buffer is not written.
    pub(crate) fn discard(self) -> Option<u32>
        ensures { result ≡ self.failure }
    {
        let _ = self.writer.into_parts();
        self.failure
    }
}

/// The operating system's number for the error that is answered, if one is.
fn failure_of<T>(answer: &io::Result<T>) -> Option<u32>
    ensures fine { OnOk answer.now (result ≡ None) }
    ensures failed { IfErr answer.now (λ error. result ≡ Some (code_of (raw_os_error error))) }
{
    match answer {
        Ok(_) => None,
        Err(error) => Some(code_of(error)),
    }
}

/// The error of an output that has failed before.
fn failed() -> Error {
    Error::from(ErrorKind::Other)
}

/// Reads once from the input, with nothing left in the output's buffer; or the output fails, and nothing is read.
fn read_after_flush<R: Read, W: Write + Drop>(
    input: &mut R,
    output: &mut Output<W>,
    bytes: &mut [u8],
) -> io::Result<usize>
    ensures bound { ReadsAtMost result bytes.new }
    ensures bytes { ReadConsumes (R.remaining input.old) (R.remaining input.new) result bytes.new }
    ensures flushed { (writer_buffer output.new.writer ≡ []) ⊎ IsSome output.new.failure × (input.new ≡ input.old) }
    ensures kept { Keeps (writer_contents W.contents output.old.writer) (writer_contents W.contents output.new.writer) }
{
    output.flush()?;
    input.read(bytes)
}

/// The output, as the program writes to it.
#[derive(Drop)]
pub(crate) struct SharedOutput<'a, W: Write + Drop> {
    output: &'a RefCell<Output<W>>,
}

impl<'a, W: Write + Drop> SharedOutput<'a, W> {
    pub(crate) fn new(output: &'a RefCell<Output<W>>) -> SharedOutput<'a, W> {
        SharedOutput { output }
    }
}

impl<'a, W: Write + Drop> Write for SharedOutput<'a, W> {
    fn write(&mut self, bytes: &[u8]) -> io::Result<usize> {
        self.write_all(bytes)?;
        Ok(bytes.len())
    }

    fn flush(&mut self) -> io::Result<()> {
        match self.output.try_borrow_mut() {
            Ok(mut output) => output.flush(),
            Err(_) => Err(failed()),
        }
    }

    fn write_all(&mut self, bytes: &[u8]) -> io::Result<()> {
        match self.output.try_borrow_mut() {
            Ok(mut output) => output.write_all(bytes),
            Err(_) => Err(failed()),
        }
    }
}

/// An input that flushes the output each time before it is read. A reader with a buffer reads it when it has nothing left to show,
/// so there is one flush for each filling of that buffer.
#[derive(Drop)]
pub(crate) struct FlushingInput<'a, R, W: Write + Drop> {
    input: R,
    output: &'a RefCell<Output<W>>,
    /// The operating system's number for the error of the last read, if it had one.
    failure: &'a Cell<Option<u32>>,
}

impl<'a, R: Read, W: Write + Drop> FlushingInput<'a, R, W> {
    pub(crate) fn new(
        input: R,
        output: &'a RefCell<Output<W>>,
        failure: &'a Cell<Option<u32>>,
    ) -> FlushingInput<'a, R, W> {
        FlushingInput {
            input,
            output,
            failure,
        }
    }
}

impl<'a, R: Read, W: Write + Drop> Read for FlushingInput<'a, R, W> {
    ghost remaining = { λ self. R.remaining self.input };

    fn read(&mut self, bytes: &mut [u8]) -> io::Result<usize> {
        match self.output.try_borrow_mut() {
            Ok(mut output) => {
                let read = read_after_flush(&mut self.input, &mut *output, bytes);
                if output.failure.is_none() {
                    self.failure.set(failure_of(&read));
                }
                read
            }
            Err(_) => Err(failed()),
        }
    }
}

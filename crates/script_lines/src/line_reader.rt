//! Reading a script from an input, line by line.

ghost use Rattle.std.specs.Prelude.{◌≡◌, ◌≢◌, ◌-◌, ◌≤◌, ◌<◌, All, IfErr, IfSome, Ok, Err, None, OnOk, OnSome, length, take, true, false};
ghost use Rattle.std.specs.Io.{IsEmptyOrEndsWith, StartsWith, StopsAt, appended_bytes};
ghost use Rattle.std.specs.Io.BufRead.{DropsThrough, strip_last, take_through};
ghost use Rattle.std.specs.Io.KnownBytes.{Consumes, IsAtEnd};
ghost use Rattle.script_lines.specs.InputLines.{CountsFaults, CountsLine, ReadsLine, ReadsNext, StopsReading, next_number, without_end};
ghost use Rattle.script_words.specs.declared.stops.Stop.TheVariants as stop_;

use crate::lines::{Line, read_line};
use script_words::stops::Stop;
use std::alloc::Global;
use std::io::{BufRead, ErrorKind};
use std::str;

/// How an input was looked at.
#[derive(Clone, Copy)]
pub(crate) struct Looks {
    /// How often for the last line.
    pub(crate) count: u64,
    /// How often it gave an error in all.
    pub(crate) failures: u64,
}

/// The lines of a script read so far.
#[derive(Drop)]
pub(crate) struct LineReader {
    alloc: Global,
    /// The last line that was read, with its line end.
    pub(crate) bytes: Vec<u8>,
    /// Its number, counted from 1.
    pub(crate) number: u64,
    /// How the input was looked at.
    pub(crate) looks: Looks,
}

impl LineReader {
    pub(crate) fn new(alloc: Global) -> LineReader
        ensures number { result.number ≡ 0 }
        ensures failures { result.looks.failures ≡ 0 }
    {
        LineReader {
            alloc,
            bytes: Vec::new(alloc),
            number: 0,
            looks: Looks {
                count: 0,
                failures: 0,
            },
        }
    }

    /// The meaning of the next line, or `None` at the end of the input.
    pub(crate) fn next<R: BufRead>(&mut self, input: &mut R) -> Result<Option<Line>, Stop>
        ensures reads { IfSome (R.remaining input.old) (λ bytes. ReadsNext bytes result) }
        ensures bytes { OnOk result (IfSome (R.remaining input.old) (λ left. self.new.bytes.items ≡ take_through 10 left)) }
        ensures rest { OnOk result (DropsThrough (R.remaining input.old) (R.remaining input.new) 10) }
        ensures counts { CountsLine self.old.number result self.new.number }
        ensures faults { CountsFaults result self.old.looks self.new.looks }
    {
        read_bytes(input, &mut self.bytes, &mut self.looks)?;
        if self.bytes.is_empty() {
            return Ok(None);
        }
        self.number = self.number.saturating_add(1);
        let line = line_of(self.alloc, &self.bytes)?;
        Ok(Some(line))
    }
}

/// What a line says that is in these bytes, with its line end.
fn line_of(alloc: Global, bytes: &[u8]) -> Result<Line, Stop>
    ensures reads { ReadsLine bytes.now result }
    ensures stops { result ≢ Err stop_.ReadFault }
{
    let Ok(text) = str::from_utf8(bytes) else {
        return Err(Stop::BadLine);
    };
    match read_line(alloc, without_line_end(text)) {
        Ok(line) => Ok(line),
        Err(stop) => Err(line_stop(stop)),
    }
}

/// What stops the reading of a line: that memory runs out, or else that the line is bad.
fn line_stop(stop: Stop) -> Stop
    ensures memory { stop ≡ stop_.Memory → result ≡ stop_.Memory }
    ensures bad { stop ≢ stop_.Memory → result ≡ stop_.BadLine }
{
    match stop {
        Stop::Memory => Stop::Memory,
        _ => Stop::BadLine,
    }
}

/// Reads the next line, with its line end. At the end of the input there are no bytes of it.
fn read_bytes<R: BufRead>(input: &mut R, bytes: &mut Vec<u8>, looks: &mut Looks) -> Result<(), Stop>
    ensures bytes { OnOk result (IfSome (R.remaining input.old) (λ left. bytes.new.items ≡ take_through 10 left)) }
    ensures rest { OnOk result (DropsThrough (R.remaining input.old) (R.remaining input.new) 10) }
    ensures stops { IfErr result StopsReading }
    ensures faults { CountsFaults result looks.old looks.new }
{
    bytes.clear();
    looks.count = 0;
    'looking: while looks.count < u64::MAX {
        if read_part(input, bytes, looks)? {
            return Ok(());
        }
    }
    Err(Stop::ReadFault)
}

/// Adds the bytes that the input shows, up to a newline, and answers whether the line has ended.
fn read_part<R: BufRead>(
    input: &mut R,
    bytes: &mut Vec<u8>,
    looks: &mut Looks,
) -> Result<bool, Stop>
    ensures appends { StartsWith bytes.new.items bytes.old.items }
    ensures bytes { Consumes (R.remaining input.old) (R.remaining input.new) (appended_bytes bytes.old.items bytes.new.items) }
    ensures ended { result ≡ Ok true → StopsAt (appended_bytes bytes.old.items bytes.new.items) 10
        × IsEmptyOrEndsWith (appended_bytes bytes.old.items bytes.new.items) 10 }
    ensures end { result ≡ Ok true → length (appended_bytes bytes.old.items bytes.new.items) ≡ 0 →
        OnSome (R.remaining input.old) (IsAtEnd (R.remaining input.new)) }
    ensures goes_on { result ≡ Ok false → All (λ byte. byte ≢ 10) (appended_bytes bytes.old.items bytes.new.items) }
    ensures stops { IfErr result StopsReading }
    ensures looks { looks.new.count ≡ next_number looks.old.count }
    ensures fails { result ≡ Err stop_.ReadFault → looks.new.failures ≡ next_number looks.old.failures }
    ensures kept { result ≢ Err stop_.ReadFault → looks.new.failures ≡ looks.old.failures }
{
    looks.count = looks.count.saturating_add(1);
    let shown = match input.fill_buf() {
        Ok(shown) => shown,
        Err(error) if error.kind() == ErrorKind::Interrupted => return Ok(false),
        Err(_) => {
            looks.failures = looks.failures.saturating_add(1);
            return Err(Stop::ReadFault);
        }
    };
    let (part, is_done) = line_part(shown);
    bytes.extend_from_slice(part)?;
    let end = part.len();
    input.consume(end);
    Ok(is_done)
}

/// The bytes up to and with the first newline, or all of them, and whether the line ends there: with a newline, or with no byte.
fn line_part(bytes: &[u8]) -> (&[u8], bool)
    ensures front { result.0.now ≡ take (length result.0.now) bytes.now }
    ensures bound { length result.0.now ≤ length bytes.now }
    ensures ended { result.1 ≡ true → StopsAt result.0.now 10 × IsEmptyOrEndsWith result.0.now 10 }
    ensures end { result.1 ≡ true → length result.0.now ≡ 0 → length bytes.now ≡ 0 }
    ensures goes_on { result.1 ≡ false → All (λ byte. byte ≢ 10) result.0.now }
{
    let part = &bytes[..line_length(bytes)];
    (part, part.is_empty() || part[part.len() - 1] == b'\n')
}

/// How many bytes there are up to and with the first newline, or at all.
fn line_length(bytes: &[u8]) -> usize
    ensures bound { result ≤ length bytes.now }
    ensures some { 0 < length bytes.now → 0 < result }
    ensures before { All (λ byte. byte ≢ 10) (take (result - 1) bytes.now) }
{
    match bytes.iter().position(|byte| *byte == b'\n') {
        Some(newline) => newline + 1,
        None => bytes.len(),
    }
}

/// The line without its newline, and without one carriage return before it.
fn without_line_end(line: &str) -> &str
    ensures { result.now ≡ without_end line.now }
{
    let line = line.strip_suffix('\n').unwrap_or(line);
    line.strip_suffix('\r').unwrap_or(line)
}

/// The bytes of a line without its newline, and without one carriage return before it.
pub(crate) fn without_end_of_line(line: &[u8]) -> &[u8]
    ensures { result.now ≡ without_end line.now }
{
    without_last(without_last(line, b'\n'), b'\r')
}

/// The bytes without this one at their end.
fn without_last(line: &[u8], end: u8) -> &[u8]
    ensures { result.now ≡ strip_last end line.now }
{
    if line.is_empty() || line[line.len() - 1] != end {
        return line;
    }
    &line[..line.len() - 1]
}

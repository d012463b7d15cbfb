//! Cutting the input into its two scripts.
ghost use Rattle.std.specs.Prelude.{◌≡◌, [], Err, IfOk, IfSome, IsOk, List, OnOk, option_map, ℕ};
ghost use Rattle.std.specs.Io.BufRead.{DropsThrough, take_through};
ghost use Rattle.compare.specs.Parts.{CutsFirst, HasNoBorder, IsCut, is_border};
ghost use Rattle.compare.specs.declared.parts.Unread.TheVariants as unread;

use script_lines::Stop;
use std::alloc::Global;
use std::io::{self, BufRead, ErrorKind};

/// The bytes of two scripts.
#[derive(Drop)]
pub(crate) struct Parts {
    pub(crate) first: Vec<u8>,
    pub(crate) second: Vec<u8>,
}

/// Why an input isn't cut.
#[derive(Clone, Copy)]
pub(crate) enum Unread {
    /// It has no border.
    NoBorder,
    /// Something stopped the reading.
    Stopped(Stop),
}

impl From<Stop> for Unread {
    ghost from_gives = { λ stop why. why ≡ unread.Stopped stop };

    fn from(stop: Stop) -> Unread {
        Unread::Stopped(stop)
    }
}

/// Reads the input to its end, and cuts it at the first line that is the border.
pub(crate) fn read_parts<R: BufRead>(alloc: Global, input: &mut R) -> Result<Parts, Unread>
    ensures cut { IfOk result (λ parts. IfSome (R.remaining input.old) (λ bytes. IsCut bytes parts.first.items parts.second.items)) }
    ensures no_border { result ≡ Err unread.NoBorder → IfSome (R.remaining input.old) (λ bytes.
        (lines : List ℕ) × HasNoBorder bytes lines []) }
{
    let Some(first) = read_first(alloc, input)? else {
        return Err(Unread::NoBorder);
    };
    let second = read_rest(alloc, input)?;
    Ok(Parts { first, second })
}

/// Reads the lines before the border, and the border. Returns `None` if the input has no border.
fn read_first<R: BufRead>(alloc: Global, input: &mut R) -> Result<Option<Vec<u8>>, Stop>
    ensures { IfOk result (λ first. IfSome (R.remaining input.old) (λ bytes.
        CutsFirst bytes (option_map (λ lines. lines.items) first) (R.remaining input.new))) }
{
    let mut first = Vec::new(alloc);
    let mut line = Vec::new(alloc);
    for _ in 0..u64::MAX {
        read_line(input, &mut line)?;
        if line.is_empty() {
            return Ok(None);
        }
        if is_border(&line) {
            return Ok(Some(first));
        }
        first.extend_from_slice(&line)?;
    }
    Err(Stop::ReadFault)
}

/// Reads the next line, with its end. At the end of the input there are no bytes of it.
fn read_line<R: BufRead>(input: &mut R, line: &mut Vec<u8>) -> Result<(), Stop>
    ensures bytes { OnOk result (IfSome (R.remaining input.old) (λ left. line.new.items ≡ take_through 10 left)) }
    ensures rest { OnOk result (DropsThrough (R.remaining input.old) (R.remaining input.new) 10) }
{
    line.clear();
    is_read(input.read_until(b'\n', line))
}

/// Reads the rest of the input.
fn read_rest<R: BufRead>(alloc: Global, input: &mut R) -> Result<Vec<u8>, Stop>
    ensures { IfOk result (λ rest. IfSome (R.remaining input.old) (λ left. rest.items ≡ left)) }
{
    let mut rest = Vec::new(alloc);
    is_read(input.read_to_end(&mut rest))?;
    Ok(rest)
}

/// What stopped a reading, if something did.
fn is_read(read: io::Result<usize>) -> Result<(), Stop>
    ensures { OnOk result (IsOk read) }
{
    match read {
        Ok(_) => Ok(()),
        Err(error) if error.kind() == ErrorKind::OutOfMemory => Err(Stop::Memory),
        Err(_) => Err(Stop::ReadFault),
    }
}

/// Whether the line is the border between the scripts, with any end.
fn is_border(line: &[u8]) -> bool
    ensures { result ≡ is_border line.now }
{
    line == b"# ---\n".as_slice()
        || line == b"# ---\r\n".as_slice()
        || line == b"# ---".as_slice()
        || line == b"# ---\r".as_slice()
}

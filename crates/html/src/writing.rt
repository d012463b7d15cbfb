//! Writes bytes, so that it is known of an error too what was written.
ghost use Rattle.std.specs.Prelude.{OnErr, OnOk};
ghost use Rattle.std.specs.Fmt.{decimal};
ghost use Rattle.std.specs.Io.KnownBytes.{Appends};
ghost use Rattle.html.specs.Written.{AppendsBeginning};

use itoa::Buffer;
use std::io::{self, ErrorKind, Write};

/// Writes bytes. Nothing is known of what `write_all` has written where it gives an error, so the bytes go to `write`.
///
/// # Errors
///
/// The output gave an error, or took nothing. A beginning of the bytes is written.
pub fn write_bytes<O: Write>(bytes: &[u8], out: &mut O) -> io::Result<()>
    ensures written { OnOk result (Appends (O.contents out.old) (O.contents out.new) bytes.now) }
    ensures cut { OnErr result (AppendsBeginning (O.contents out.old) (O.contents out.new) bytes.now) }
{
    let mut rest = bytes;
    for _ in 0..u64::MAX {
        if rest.is_empty() {
            return Ok(());
        }
        match out.write(rest) {
            Ok(0) => return Err(ErrorKind::WriteZero.into()),
            Ok(taken) => rest = &rest[taken..],
            Err(fault) if fault.kind() == ErrorKind::Interrupted => continue,
            Err(fault) => return Err(fault),
        }
    }
    Err(ErrorKind::Interrupted.into())
}

/// Writes a text, of which nothing is escaped.
///
/// # Errors
///
/// As [`write_bytes`].
pub fn write_plain<O: Write>(text: &str, out: &mut O) -> io::Result<()>
    ensures written { OnOk result (Appends (O.contents out.old) (O.contents out.new) text.now) }
    ensures cut { OnErr result (AppendsBeginning (O.contents out.old) (O.contents out.new) text.now) }
{
    write_bytes(text.as_bytes(), out)
}

/// Writes a number in decimal digits.
///
/// # Errors
///
/// As [`write_bytes`].
pub fn write_number<O: Write>(number: u64, out: &mut O) -> io::Result<()>
    ensures written { OnOk result (Appends (O.contents out.old) (O.contents out.new) (decimal number)) }
    ensures cut { OnErr result (AppendsBeginning (O.contents out.old) (O.contents out.new) (decimal number)) }
{
    let mut digits = Buffer::new();
    write_plain(digits.format(number), out)
}

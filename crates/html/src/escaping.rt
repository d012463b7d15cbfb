//! Escaping of texts.
ghost use Rattle.std.specs.Prelude.{OnErr, OnOk};
ghost use Rattle.std.specs.Io.KnownBytes.{Appends};
ghost use Rattle.html.specs.Escaped.{escaped_byte, escaped};
ghost use Rattle.html.specs.Written.{AppendsBeginning};

use crate::writing::write_bytes;
use std::io::{self, Write};

/// Writes a text for a page, between tags or in a quoted attribute: each of `<`, `>`, `&`, `"` and `'` as its entity,
/// a carriage return as `&#13;`, since a parser of pages reads a bare one as a line feed, and U+FFFD for U+0000, which no
/// page can show; all else unchanged.
///
/// # Errors
///
/// Returns the error of the output. A beginning of what is written for the text has then been written.
pub fn write_escaped<O: Write>(text: &str, out: &mut O) -> io::Result<()>
    ensures written { OnOk result (Appends (O.contents out.old) (O.contents out.new) (escaped text.now)) }
    ensures cut { OnErr result (AppendsBeginning (O.contents out.old) (O.contents out.new) (escaped text.now)) }
{
    write_escaped_bytes(text.as_bytes(), out)
}

/// Writes the bytes of a text in the same way.
///
/// # Errors
///
/// Returns the error of the output. A beginning of what is written for the text has then been written.
pub fn write_escaped_bytes<O: Write>(text: &[u8], out: &mut O) -> io::Result<()>
    ensures written { OnOk result (Appends (O.contents out.old) (O.contents out.new) (escaped text.now)) }
    ensures cut { OnErr result (AppendsBeginning (O.contents out.old) (O.contents out.new) (escaped text.now)) }
{
    for byte in text {
        write_byte(*byte, out)?;
    }
    Ok(())
}

/// Writes a byte of a text.
fn write_byte<O: Write>(byte: u8, out: &mut O) -> io::Result<()>
    ensures written { OnOk result (Appends (O.contents out.old) (O.contents out.new) (escaped_byte byte)) }
    ensures cut { OnErr result (AppendsBeginning (O.contents out.old) (O.contents out.new) (escaped_byte byte)) }
{
    match byte {
        b'<' => write_bytes(b"&lt;", out),
        b'>' => write_bytes(b"&gt;", out),
        b'&' => write_bytes(b"&amp;", out),
        b'"' => write_bytes(b"&quot;", out),
        b'\'' => write_bytes(b"&#39;", out),
        b'\r' => write_bytes(b"&#13;", out),
        b'\0' => write_bytes("\u{FFFD}".as_bytes(), out),
        _ => write_bytes(&[byte], out),
    }
}

//! Writing quoted texts.
ghost use Rattle.std.specs.Prelude.{OnOk, flat_map};
ghost use Rattle.std.specs.Io.KnownBytes.{Appends};
ghost use Rattle.script_words.specs.Quoted.{quoted_byte};

use std::io::{self, Write};

/// Writes the text between the quotes. A quote, a backslash and a newline are written as `\"`, `\\` and `\n`.
pub fn write_quoted<O: Write>(text: &[u8], out: &mut O) -> io::Result<()>
    ensures { OnOk result (Appends (O.contents out.old) (O.contents out.new) (flat_map quoted_byte text.now)) }
{
    for byte in text {
        write_byte(*byte, out)?;
    }
    Ok(())
}

/// Writes a byte of a quoted text.
fn write_byte<O: Write>(byte: u8, out: &mut O) -> io::Result<()>
    ensures { OnOk result (Appends (O.contents out.old) (O.contents out.new) (quoted_byte byte)) }
{
    match byte {
        b'"' => out.write_all(b"\\\""),
        b'\\' => out.write_all(b"\\\\"),
        b'\n' => out.write_all(b"\\n"),
        _ => out.write_all(&[byte]),
    }
}

//! A text as a terminal may show it.

ghost use Rattle.std.specs.Prelude.{◌≡◌, ◌<◌, ◌∷◌, [], OnOk};
ghost use Rattle.std.specs.Io.KnownBytes.{Appends};
ghost use Rattle.line_text.specs.Shown.{control_name, control_text, held_after, held_first, hex_digit, shown, shown_byte, shown_first};

use std::io::{self, Write};

/// Which bytes of a text aren't written yet, since what they are depends on the next one.
#[derive(Clone, Copy)]
pub(crate) enum Held {
    Nothing,
    /// 0xC2, with which control characters of two bytes begin.
    FirstOfTwo,
    /// 0xEF, with which a byte order mark begins.
    FirstOfMark,
    /// 0xEF and 0xBB, which a byte order mark has before its last byte.
    SecondOfMark,
}

/// Writes a text with the name of each control character, which a terminal might obey, and of each byte order mark, which it might not
/// show, in place of it: `<tab>`, `<U+001B>`, `<byte order mark>`. The text is UTF-8.
pub fn write_shown<O: Write>(text: &[u8], out: &mut O) -> io::Result<()>
    ensures { OnOk result (Appends (O.contents out.old) (O.contents out.new) (shown text.now)) }
{
    let mut held = Held::Nothing;
    for byte in text {
        write_byte(held, *byte, out)?;
        held = held_after(held, *byte);
    }
    Ok(())
}

/// Which bytes are held back after one more.
fn held_after(held: Held, byte: u8) -> Held
    ensures { result ≡ held_after held byte }
{
    match held {
        Held::Nothing => held_first(byte),
        Held::FirstOfMark if byte == 0xBB => Held::SecondOfMark,
        Held::FirstOfTwo | Held::FirstOfMark | Held::SecondOfMark => Held::Nothing,
    }
}

/// Whether a byte alone is held back.
fn held_first(byte: u8) -> Held
    ensures { result ≡ held_first byte }
{
    match byte {
        0xC2 => Held::FirstOfTwo,
        0xEF => Held::FirstOfMark,
        _ => Held::Nothing,
    }
}

/// Writes what is shown of a byte, with those that are held back.
fn write_byte<O: Write>(held: Held, byte: u8, out: &mut O) -> io::Result<()>
    ensures { OnOk result (Appends (O.contents out.old) (O.contents out.new) (shown_byte held byte)) }
{
    match held {
        Held::Nothing => write_first(byte, out),
        Held::FirstOfTwo if byte < 0xA0 => write_control(byte, out),
        Held::FirstOfTwo => out.write_all(&[0xC2, byte]),
        Held::FirstOfMark if byte == 0xBB => Ok(()),
        Held::FirstOfMark => out.write_all(&[0xEF, byte]),
        Held::SecondOfMark if byte == 0xBF => out.write_all(b"<byte order mark>"),
        Held::SecondOfMark => out.write_all(&[0xEF, 0xBB, byte]),
    }
}

/// Writes what is shown of a byte alone, unless it is held back.
fn write_first<O: Write>(byte: u8, out: &mut O) -> io::Result<()>
    ensures { OnOk result (Appends (O.contents out.old) (O.contents out.new) (shown_first byte)) }
{
    match byte {
        0xC2 | 0xEF => Ok(()),
        0..=0x1F | 0x7F => write_control(byte, out),
        _ => out.write_all(&[byte]),
    }
}

/// Writes the name of a control character in angle brackets.
fn write_control<O: Write>(code: u8, out: &mut O) -> io::Result<()>
    ensures { OnOk result (Appends (O.contents out.old) (O.contents out.new) (control_text code)) }
{
    out.write_all(b"<")?;
    write_name(code, out)?;
    out.write_all(b">")
}

/// Writes the name of a control character, or else its number.
fn write_name<O: Write>(code: u8, out: &mut O) -> io::Result<()>
    ensures { OnOk result (Appends (O.contents out.old) (O.contents out.new) (control_name code)) }
{
    match code {
        b'\t' => out.write_all(b"tab"),
        b'\n' => out.write_all(b"newline"),
        b'\r' => out.write_all(b"carriage return"),
        _ => {
            out.write_all(b"U+00")?;
            out.write_all(&[hex_digit(code / 16)])?;
            out.write_all(&[hex_digit(code % 16)])
        }
    }
}

/// A digit of base 16.
fn hex_digit(number: u8) -> u8
    requires { number < 16 }
    ensures { result ∷ [] ≡ hex_digit number }
{
    if number < 10 {
        number + b'0'
    } else {
        number + (b'A' - 10)
    }
}

//! Columns of a line.

ghost use Rattle.std.specs.Prelude.{◌≡◌};
ghost use Rattle.line_text.specs.Columns.{begins_character, column_after};

/// The column of what comes after this text, counted in characters (Unicode scalar values) from 1.
pub fn column_after(before: &[u8]) -> usize
    ensures { result ≡ column_after before.now }
{
    let mut column = 1;
    for byte in before {
        if begins_character(*byte) {
            column += 1;
        }
    }
    column
}

/// Whether the byte is the first of a character.
fn begins_character(byte: u8) -> bool
    ensures { result ≡ begins_character byte }
{
    byte < 0x80 || byte >= 0xC0
}

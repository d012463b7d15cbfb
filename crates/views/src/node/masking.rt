//! Passwords are shown as bullets, unless all of their characters are the same.
ghost use Rattle.std.specs.Prelude.{◌≡◌, ◌==◌, ◌+◌, ◌<◌, ◌^◌, length, OnOk, OnErr};
ghost use Rattle.std.specs.Str.{chars};
ghost use Rattle.model.specs.FlatText.{are_alike};
ghost use Rattle.model.specs.Values.{bullets};
ghost use Rattle.views.specs.Writes.{bullet_calls, IsCalled, IsCalledTillFault, IsWritten, IsCutShort};

use schema::{TextFault, TextWrite};

/// The character shown in place of each character of a password.
const BULLET: char = '\u{2022}';

/// Writes this many bullets, each by one call.
///
/// # Errors
///
/// Returns `TextFault` if the writer fails. It has then received a beginning of the bullets, counts one more failure,
/// and isn't called again.
pub fn write_bullets<W: TextWrite>(count: usize, writer: &mut W) -> Result<(), TextFault>
    requires { W.faults writer.old + 1 < 2 ^ 128 }
    ensures ok { OnOk result (IsWritten W.received W.faults (bullets count) writer.old writer.new) }
    ensures err { OnErr result (IsCutShort W.received W.faults (bullets count) writer.old writer.new) }
    ensures called { OnOk result (IsCalled W.steps (bullet_calls count) writer.old writer.new) }
    ensures stopped { OnErr result (IsCalledTillFault W.steps (bullet_calls count) writer.old writer.new) }
{
    for _ in 0..count {
        writer.write_char(BULLET)?;
    }
    Ok(())
}

/// Whether all scalars of the text are the same.
pub(crate) fn has_one_scalar(text: &str) -> bool
    ensures { result ≡ are_alike (λ a b. a == b) (chars text.now) }
{
    let mut scalars = text.chars();
    let Some(first) = scalars.next() else {
        return true;
    };
    for scalar in scalars {
        if scalar != first {
            return false;
        }
    }
    true
}

/// The number of scalars of the text.
pub fn scalar_count(text: &str) -> usize
    ensures { result ≡ length (chars text.now) }
{
    text.chars().count()
}

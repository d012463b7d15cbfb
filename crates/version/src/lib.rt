//! The version of the library and its programs. `tools/version` writes it to the other places that have it.
#![tactic(auto)]

ghost use Rattle.std.specs.Prelude.{◌≡◌, OnOk};
ghost use Rattle.std.specs.Io.KnownBytes.{Appends};
ghost use Rattle.version.specs.Version.{line_of, version_line, version_number, version_text};

use std::io::{self, Write};

/// Counts the versions that break what an earlier one promised.
pub const MAJOR: u32 = 0;
/// Counts those that add to it; while the first number is 0 these may break it too.
pub const MINOR: u32 = 1;
/// Counts those that only repair.
pub const PATCH: u32 = 0;
/// The three with dots between them; `tools/version` writes it.
const VERSION: &str = "0.1.0";

// (so that no two versions have the same number)
const _: () = prove!(MINOR < 100 && PATCH < 100);

/// The version as one number, 10,000 times its first number, 100 times its second, and its third: 10203 for 1.2.3.
pub fn version_number() -> u32
    ensures { result ≡ version_number }
{
    MAJOR * 10_000 + MINOR * 100 + PATCH
}

/// The version as text, its three numbers with dots between them.
pub fn version_text() -> &'static str
    ensures { result.now ≡ version_text }
{
    VERSION
}

/// Writes a line with a program's name and the version.
pub fn write_version<W: Write>(name: &str, output: &mut W) -> io::Result<()>
    ensures { OnOk result (Appends (W.contents output.old) (W.contents output.new) (version_line name.now)) }
{
    write_line(name, version_text(), output)
}

/// Writes a line with a program's name and a version.
fn write_line<W: Write>(name: &str, version: &str, output: &mut W) -> io::Result<()>
    ensures { OnOk result (Appends (W.contents output.old) (W.contents output.new) (line_of name.now version.now)) }
{
    output.write_all(name.as_bytes())?;
    output.write_all(b" (accesskit-proved) ")?;
    output.write_all(version.as_bytes())?;
    output.write_all(b"\n")
}

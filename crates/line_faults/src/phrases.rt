//! The words for a reason.

ghost use Rattle.std.specs.Prelude.{◌≡◌, OnOk};
ghost use Rattle.std.specs.Io.KnownBytes.{Appends};
ghost use Rattle.line_faults.specs.Messages.{form_text, other_text, plain_text, range_text, reason_text, set_text};
ghost use Rattle.line_faults.specs.declared.reasons.OtherReason.TheVariants as other_;

use crate::reasons::{Form, NumberRange, OtherReason, Reason, WordSet};
use std::io::{self, Write};

/// Writes a reason, up to the word that it is about.
pub(crate) fn write_reason<O: Write>(reason: Reason, out: &mut O) -> io::Result<()>
    ensures { OnOk result (Appends (O.contents out.old) (O.contents out.new) (reason_text reason)) }
{
    match reason {
        Reason::UnknownField(_) => out.write_all(b"no field"),
        Reason::UnknownRole => out.write_all(b"no role"),
        Reason::Other(reason) => write_other(reason, out),
    }
}

/// Writes a reason that names no field and no role.
fn write_other<O: Write>(reason: OtherReason, out: &mut O) -> io::Result<()>
    ensures { OnOk result (Appends (O.contents out.old) (O.contents out.new) (other_text reason)) }
{
    match reason {
        OtherReason::UnknownWord(set) => write_set(set, out),
        OtherReason::OutOfRange(range) => write_range(range, out),
        OtherReason::Parts(form) => write_form(form, out),
        _ => out.write_all(plain_text(reason).as_bytes()),
    }
}

/// Writes that a word isn't in a list.
fn write_set<O: Write>(set: WordSet, out: &mut O) -> io::Result<()>
    ensures { OnOk result (Appends (O.contents out.old) (O.contents out.new) (other_text (other_.UnknownWord set))) }
{
    let what = set_text(set);
    write!(out, "no {what}")
}

/// Writes that a number is out of its range.
fn write_range<O: Write>(range: NumberRange, out: &mut O) -> io::Result<()>
    ensures { OnOk result (Appends (O.contents out.old) (O.contents out.new) (other_text (other_.OutOfRange range))) }
{
    let bounds = range_text(range);
    write!(out, "not within {bounds}:")
}

/// Writes that a value hasn't the parts of its form.
fn write_form<O: Write>(form: Form, out: &mut O) -> io::Result<()>
    ensures { OnOk result (Appends (O.contents out.old) (O.contents out.new) (other_text (other_.Parts form))) }
{
    let parts = form_text(form);
    write!(out, "not of the form {parts}:")
}

/// The words for a reason without parts of its own.
fn plain_text(reason: OtherReason) -> &'static str
    ensures { result.now ≡ plain_text reason }
{
    match reason {
        OtherReason::NotUtf8 => "not UTF-8",
        OtherReason::EndsInside => "the input ends inside an update",
        OtherReason::Outside => "outside of an update:",
        OtherReason::Inside => "inside an update:",
        OtherReason::Space => "a space too many",
        OtherReason::EndsEarly => "the line ends early",
        OtherReason::TooMany => "a word too many:",
        OtherReason::NoNumber => "no number:",
        OtherReason::EmptyNumber => "a number is missing",
        OtherReason::NoTree => "no tree:",
        OtherReason::NoName => "a field without a name",
        OtherReason::NoValue => "no value of",
        OtherReason::FlagWithValue => "a value of the flag",
        OtherReason::GivenTwice => "given twice:",
        OtherReason::NoQuote => "no quote before",
        OtherReason::OpenQuote => "no quote after the text",
        OtherReason::Escape => "a backslash before another character than \", \\ and n",
        OtherReason::AfterQuote => "no space before",
        OtherReason::NoFocus => "no field \"focus\"",
        OtherReason::NoRoot => "a toolkit without the field \"root\"",
        OtherReason::UnknownWord(_) => "no word",
        OtherReason::OutOfRange(_) => "out of range:",
        OtherReason::Parts(_) => "not of its form:",
        OtherReason::Unclear => "bad line",
    }
}

/// What the words of a list are called.
fn set_text(set: WordSet) -> &'static str
    ensures { result.now ≡ set_text set }
{
    match set {
        WordSet::Commands => "command",
        WordSet::HostStates => "state of the host",
        WordSet::Filters => "filter",
        WordSet::Sides => "side",
        WordSet::Moves => "movement",
        WordSet::Actions => "action",
        WordSet::Toggles => "state of a toggle",
        WordSet::Truths => "truth value",
        WordSet::Lives => "live setting",
        WordSet::Orientations => "orientation",
        WordSet::SortDirections => "sort direction",
        WordSet::Currents => "kind of current item",
        WordSet::Popups => "kind of popup",
        WordSet::TextDirections => "text direction",
        WordSet::TextAligns => "alignment",
        WordSet::VerticalOffsets => "vertical offset",
        WordSet::DecorationStyles => "style of line",
    }
}

/// A range of numbers.
fn range_text(range: NumberRange) -> &'static str
    ensures { result.now ≡ range_text range }
{
    match range {
        NumberRange::Byte => "0 to 255",
        NumberRange::Short => "0 to 65535",
        NumberRange::Narrow => "0 to 4294967295",
        NumberRange::Count => "0 to 18446744073709551615",
        NumberRange::Units => "-2147483648 to 2147483647",
        NumberRange::Signed => "-9223372036854775808 to 9223372036854775807",
    }
}

/// The form of a value of several parts.
fn form_text(form: Form) -> &'static str
    ensures { result.now ≡ form_text form }
{
    match form {
        Form::Rect => "LEFT,TOP,RIGHT,BOTTOM",
        Form::Pair => "X,Y",
        Form::Color => "RED,GREEN,BLUE,OPACITY",
        Form::Decoration => "STYLE,RED,GREEN,BLUE,OPACITY",
        Form::Selection => "RUN:CHARACTER,RUN:CHARACTER",
        Form::Position => "RUN:CHARACTER",
    }
}

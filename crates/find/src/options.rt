//! The options of the program.

ghost use Rattle.std.specs.Prelude.{◌≡◌, find, map, option_copied, option_map};
ghost use Rattle.std.specs.Str.{bytes_eq};
ghost use Rattle.find.specs.Options.{IsNoOption, entry_of, option_named, option_names, options};

use atree_script::{ArgumentError, ArgumentKind, unknown_word};
use line_text::nearest;
use std::alloc::Global;

/// An option that stands alone.
#[derive(Clone, Copy)]
pub(crate) enum Flag {
    /// A part of a text is enough.
    Contains,
    /// Upper-case letters are the same as their lower-case ones.
    IgnoreCase,
    /// Each space counts.
    Exact,
    /// One or more nodes may be found.
    AnyNumber,
    /// The tree after each update is searched.
    Every,
}

/// An option with a word after it.
#[derive(Clone, Copy)]
pub(crate) enum Setting {
    Label,
    Text,
    Any,
    Level,
    /// The tree after the update with a number is searched.
    At,
}

/// An option.
#[derive(Clone, Copy)]
pub(crate) enum Switch {
    Flag(Flag),
    Setting(Setting),
}

/// An option by its name.
pub(crate) type NamedSwitch = (&'static str, Switch);

/// The table that [`options`] returns.
static OPTIONS: [NamedSwitch; 10] = [
    ("--contains", Switch::Flag(Flag::Contains)),
    ("--ignore-case", Switch::Flag(Flag::IgnoreCase)),
    ("--exact", Switch::Flag(Flag::Exact)),
    ("--any-number", Switch::Flag(Flag::AnyNumber)),
    ("--every", Switch::Flag(Flag::Every)),
    ("--label", Switch::Setting(Setting::Label)),
    ("--text", Switch::Setting(Setting::Text)),
    ("--any", Switch::Setting(Setting::Any)),
    ("--level", Switch::Setting(Setting::Level)),
    ("--at", Switch::Setting(Setting::At)),
];

/// The options, by their names.
fn options() -> &'static [NamedSwitch]
    ensures { map entry_of result.now ≡ options }
{
    &OPTIONS
}

/// The first of these options with this name.
fn named_in<'a>(table: &'a [NamedSwitch], name: &str) -> Option<&'a NamedSwitch>
    ensures { option_copied result ≡ find (λ entry. bytes_eq entry.0.now name.now) table.now }
{
    table.iter().find(|entry| entry.0 == name)
}

/// The entry of the table with this name.
fn named(name: &str) -> Option<&'static NamedSwitch>
    ensures { option_map entry_of (option_copied result) ≡ find (λ entry. bytes_eq entry.0 name.now) options }
{
    named_in(options(), name)
}

/// The option with this name.
pub(crate) fn option_named(name: &str) -> Option<Switch>
    ensures { result ≡ option_named name.now }
{
    match named(name) {
        Some(entry) => Some(entry.1),
        None => None,
    }
}

/// The names of the options.
static NAMES: [&str; 12] = [
    "--help",
    "--version",
    "--contains",
    "--ignore-case",
    "--exact",
    "--any-number",
    "--every",
    "--label",
    "--text",
    "--any",
    "--level",
    "--at",
];

/// The names of all options, those that every program has before the others.
fn option_names() -> &'static [&'static str]
    ensures { map (λ name. name.now) result.now ≡ option_names }
{
    &NAMES
}

/// The error that there is no such option, with the name of the nearest one if one is near.
pub(crate) fn no_option(alloc: Global, word: &str) -> ArgumentError
    ensures { IsNoOption word.now result }
{
    let near = nearest(word.as_bytes(), option_names());
    unknown_word(alloc, ArgumentKind::Dashed, word, near)
}

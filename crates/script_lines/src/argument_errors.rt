//! Why a program isn't run with its arguments.

ghost use Rattle.std.specs.Prelude.{◌≡◌, map, option_copied};
ghost use Rattle.std.specs.List.{list_any};
ghost use Rattle.std.specs.String.{string_bytes};
ghost use Rattle.script_lines.specs.ArgumentErrors.{IsNoOption, IsUnknownOption, IsUnknownWord, MayMean, is_like_a_file, is_option, miscounted, options_with};
ghost use Rattle.script_lines.specs.declared.argument_errors.ArgumentError.TheVariants.{Memory};

use line_text::nearest;
use std::alloc::{AllocError, Global};

/// The options that every program has.
const HELP: &str = "--help";

const VERSION: &str = "--version";

/// What a word of a program's arguments is.
#[derive(Clone, Copy)]
pub enum ArgumentKind {
    /// The name of a role.
    Role,
    /// The number of a node.
    Number,
    /// The name of a tree.
    Tree,
    /// A word that begins with two dashes.
    Dashed,
}

/// A word that isn't of the kind that is expected.
#[derive(Drop)]
pub struct UnknownWord {
    /// What is expected.
    pub kind: ArgumentKind,
    /// The word.
    pub word: String,
    /// The right word that is nearest to it, if one is near.
    pub near: Option<&'static str>,
}

/// Why a program isn't run with its arguments.
#[derive(Drop)]
pub enum ArgumentError {
    /// Its manual is asked for.
    Help,
    /// Its version is asked for.
    Version,
    /// Words are missing or too many.
    Count,
    /// A word is the name of a file. A script is read from standard input alone.
    File,
    /// A word isn't of the kind that is expected.
    Unknown(UnknownWord),
    /// A word isn't UTF-8.
    NotUtf8,
    /// Memory ran out.
    Memory,
}

impl From<AllocError> for ArgumentError {
    ghost from_gives = { λ _ error. error ≡ Memory };

    fn from(_refused: AllocError) -> ArgumentError {
        ArgumentError::Memory
    }
}

/// Whether a word is rather a file's name than a role, a number or a tree: it has a slash or a dot.
pub fn is_like_a_file(word: &str) -> bool
    ensures { result ≡ is_like_a_file word.now }
{
    word.as_bytes()
        .iter()
        .any(|byte| *byte == b'/' || *byte == b'.')
}

/// The error about words that are missing or too many; about a file if one of them is like a file's name.
#[tactic(auto, using(crate::proofs::Mapped::any_mapped))]
pub fn miscounted(words: &[String]) -> ArgumentError
    ensures { result ≡ miscounted (map string_bytes words.now) }
{
    if has_file(words) {
        return ArgumentError::File;
    }
    ArgumentError::Count
}

/// Whether one of the words is like a file's name.
fn has_file(words: &[String]) -> bool
    ensures { result ≡ list_any (λ word. is_like_a_file (string_bytes word)) words.now }
{
    words.iter().any(|word| is_like_a_file(word.as_str()))
}

/// The error about a word that isn't of this kind, with the right word that is nearest to it, if one is near; about a file if the word
/// is like a file's name.
pub fn unknown_word(
    alloc: Global,
    kind: ArgumentKind,
    word: &str,
    near: Option<&'static str>,
) -> ArgumentError
    ensures { IsUnknownWord kind word.now (option_copied near.entry) result }
{
    if is_like_a_file(word) {
        return ArgumentError::File;
    }
    match String::from_str(alloc, word) {
        Ok(word) => ArgumentError::Unknown(UnknownWord { kind, word, near }),
        Err(_) => ArgumentError::Memory,
    }
}

/// Whether a word is an option: it begins with two dashes, or is `-h`.
pub(crate) fn is_option(word: &str) -> bool
    ensures { result ≡ is_option word.now }
{
    word.as_bytes().starts_with(b"--") || word == "-h"
}

/// The error about an option of a program that has this one besides `--help` and `--version`.
pub(crate) fn no_option(alloc: Global, word: &str, option: Option<&'static str>) -> ArgumentError
    ensures { IsNoOption (options_with (option_copied option.entry)) word.now result }
{
    if word == HELP {
        return ArgumentError::Help;
    }
    if word == VERSION {
        return ArgumentError::Version;
    }
    unknown_option(alloc, word, option)
}

/// The error that there is no such option, with the one that may be meant.
fn unknown_option(alloc: Global, word: &str, option: Option<&'static str>) -> ArgumentError
    ensures { IsUnknownOption (options_with (option_copied option.entry)) word.now result }
{
    let meant = option_meant(word, option);
    unknown_word(alloc, ArgumentKind::Dashed, word, Some(meant))
}

/// The option that may be meant: the nearest of `--help`, `--version` and this one, and `--help` if none is near.
fn option_meant(word: &str, option: Option<&'static str>) -> &'static str
    ensures { MayMean (options_with (option_copied option.entry)) word.now result.now }
{
    let near = match option {
        Some(option) => nearest(word.as_bytes(), &[HELP, VERSION, option]),
        None => nearest(word.as_bytes(), &[HELP, VERSION]),
    };
    near.unwrap_or(HELP)
}

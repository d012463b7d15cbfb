//! The arguments of the program.

ghost use Rattle.std.specs.Prelude.{◌≡◌, ◌∷◌, [], None, map, string_bytes};
ghost use Rattle.script_lines.specs.ArgumentErrors.{miscounted};
ghost use Rattle.find.specs.Given.{Ends, GivesLabel, GivesNext, GivesSetting, GivesWanted, NamesNumber, ReadsOptions, ReadsWanted, Takes, with_flag};

use crate::given::roles_given;
use crate::options::{Flag, Setting, Switch, no_option, option_named};
use crate::wanted::{Wanted, When};
use atree_script::{ArgumentError, ArgumentKind, Arguments, is_like_a_file, number, unknown_word};
use matching::Matching;
use std::alloc::Global;

/// What the words so far ask for, and the option that the next word belongs to, if one does.
#[derive(Drop)]
pub(crate) struct Reading {
    pub(crate) wanted: Wanted,
    pub(crate) pending: Option<Setting>,
}

impl Arguments for Wanted {
    ghost reads = { ReadsWanted };

    /// A role, and a label and options if there are any.
    fn from_words(alloc: Global, words: &[String]) -> Result<Wanted, ArgumentError> {
        match words {
            [] => Err(ArgumentError::Count),
            [role, others @ ..] => wanted_by(alloc, role.as_str(), others),
        }
    }
}

/// What is asked for by a role and the words after it.
fn wanted_by(alloc: Global, role: &str, others: &[String]) -> Result<Wanted, ArgumentError>
    ensures { ReadsWanted (role.now ∷ map string_bytes others.now) result }
{
    let roles = roles_given(alloc, role)?;
    let reading = Reading {
        wanted: Wanted {
            roles,
            level: None,
            label: None,
            text: None,
            any: None,
            matching: Matching {
                is_part: false,
                ignores_case: false,
                is_exact: false,
            },
            any_number: false,
            when: When::AtEnd,
        },
        pending: None,
    };
    with_words(alloc, reading, others)
}

/// What is asked for by these words after those that are read.
fn with_words(alloc: Global, reading: Reading, words: &[String]) -> Result<Wanted, ArgumentError>
    ensures { ReadsOptions reading (map string_bytes words.now) result }
{
    match words {
        [] => ended(reading),
        [word, more @ ..] => {
            let next = with_word(alloc, reading, word.as_str())?;
            with_words(alloc, next, more)
        }
    }
}

/// What is asked for after the last word. An option may lack its word.
fn ended(reading: Reading) -> Result<Wanted, ArgumentError>
    ensures { Ends reading result }
{
    let Reading { wanted, pending } = reading;
    match pending {
        None => Ok(wanted),
        Some(_) => Err(ArgumentError::Count),
    }
}

/// What is asked for by one more word.
fn with_word(alloc: Global, reading: Reading, word: &str) -> Result<Reading, ArgumentError>
    ensures { Takes reading word.now result }
{
    let Reading { wanted, pending } = reading;
    match pending {
        Some(setting) => with_setting(alloc, wanted, setting, word),
        None => with_next(alloc, wanted, word),
    }
}

/// The same, of a word that belongs to no option before it.
fn with_next(alloc: Global, wanted: Wanted, word: &str) -> Result<Reading, ArgumentError>
    ensures { GivesNext wanted word.now result }
{
    match option_named(word) {
        Some(Switch::Flag(flag)) => Ok(Reading {
            wanted: with_flag(wanted, flag),
            pending: None,
        }),
        Some(Switch::Setting(setting)) => Ok(Reading {
            wanted,
            pending: Some(setting),
        }),
        None => with_label(alloc, wanted, word),
    }
}

/// The same, of a word that is no option.
fn with_label(alloc: Global, wanted: Wanted, word: &str) -> Result<Reading, ArgumentError>
    ensures { GivesLabel wanted word.now result }
{
    if word.as_bytes().starts_with(b"--") {
        return Err(no_option(alloc, word));
    }
    if wanted.label.is_some() {
        return Err(too_many(word));
    }
    with_setting(alloc, wanted, Setting::Label, word)
}

/// The error about a second label, which may be a file's name.
fn too_many(word: &str) -> ArgumentError
    ensures { result ≡ miscounted (word.now ∷ []) }
{
    if is_like_a_file(word) {
        return ArgumentError::File;
    }
    ArgumentError::Count
}

/// What is asked for with this option too.
fn with_flag(wanted: Wanted, flag: Flag) -> Wanted
    ensures { result ≡ with_flag flag wanted }
{
    let mut wanted = wanted;
    match flag {
        Flag::Contains => {
            wanted.matching.is_part = true;
            wanted
        }
        Flag::IgnoreCase => {
            wanted.matching.ignores_case = true;
            wanted
        }
        Flag::Exact => {
            wanted.matching.is_exact = true;
            wanted
        }
        Flag::AnyNumber => {
            wanted.any_number = true;
            wanted
        }
        Flag::Every => {
            wanted.when = When::Each;
            wanted
        }
    }
}

/// What is asked for with this option and its word too, where the next word belongs to none.
fn with_setting(
    alloc: Global,
    wanted: Wanted,
    setting: Setting,
    word: &str,
) -> Result<Reading, ArgumentError>
    ensures { GivesSetting wanted setting word.now result }
{
    let wanted = wanted_with(alloc, wanted, setting, word)?;
    Ok(Reading {
        wanted,
        pending: None,
    })
}

/// What is asked for with this option and its word too.
fn wanted_with(
    alloc: Global,
    wanted: Wanted,
    setting: Setting,
    word: &str,
) -> Result<Wanted, ArgumentError>
    ensures { GivesWanted wanted setting word.now result }
{
    let mut wanted = wanted;
    match setting {
        Setting::Label => {
            wanted.label = Some(String::from_str(alloc, word)?);
            Ok(wanted)
        }
        Setting::Text => {
            wanted.text = Some(String::from_str(alloc, word)?);
            Ok(wanted)
        }
        Setting::Any => {
            wanted.any = Some(String::from_str(alloc, word)?);
            Ok(wanted)
        }
        Setting::Level => {
            wanted.level = Some(number_given(alloc, word)? as usize);
            Ok(wanted)
        }
        Setting::At => {
            wanted.when = When::After(number_given(alloc, word)?);
            Ok(wanted)
        }
    }
}

/// The number that this word says, or the error that it is none.
fn number_given(alloc: Global, word: &str) -> Result<u64, ArgumentError>
    ensures { NamesNumber word.now result }
{
    match number(word) {
        Some(number) => Ok(number),
        None => Err(unknown_word(alloc, ArgumentKind::Number, word, None)),
    }
}

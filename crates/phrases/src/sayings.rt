//! The lines of speech.
ghost use Rattle.std.specs.Prelude.{Some, option_copied};

use crate::differences::Change;
use crate::focus::Focus;
use crate::quoted::{Named, Quoted};
use crate::states::{flag, live_word};
use schema::Live;
use std::fmt;

/// A dialog's title: `no name` if the dialog isn't named, and `label hidden` if its name isn't said.
#[derive(Clone, Copy)]
struct Titled<'a> {
    title: Option<&'a str>,
    is_hidden: bool,
}

impl fmt::Display for Titled<'_> {
    ghost use Rattle.phrases.specs.Sayings.{titled};

    ghost output = { λ s. Some (titled s.is_hidden (option_copied s.title)) };

    fn fmt<W: fmt::Write>(&self, f: &mut fmt::Formatter<W>) -> fmt::Result {
        if self.is_hidden {
            return f.write_str("label hidden");
        }
        match self.title {
            Some(title) => {
                let title = Quoted(title);
                write!(f, "{title}")
            }
            None => f.write_str("no name"),
        }
    }
}

/// What is said of a dialog.
#[derive(Clone, Copy)]
pub struct Dialog<'a> {
    /// The word for the role.
    pub role: &'a str,
    pub label: Option<&'a str>,
    /// Whether there may be a label that isn't said.
    pub is_label_hidden: bool,
    pub is_modal: bool,
}

/// Prints, for example, `dialog: "Sign in", modal`.
impl fmt::Display for Dialog<'_> {
    ghost use Rattle.phrases.specs.Sayings.{dialog_text};

    ghost output = { λ s. Some (dialog_text s) };

    fn fmt<W: fmt::Write>(&self, f: &mut fmt::Formatter<W>) -> fmt::Result {
        let role = self.role;
        let title = Titled {
            title: self.label,
            is_hidden: self.is_label_hidden,
        };
        let modal = flag(self.is_modal, "modal");
        write!(f, "{role}: {title}{modal}")
    }
}

/// What is said of a group.
#[derive(Clone, Copy)]
pub struct Group<'a> {
    /// The word for the role.
    pub role: &'a str,
    pub label: &'a str,
}

/// Prints, for example, `radio group: "Size"`.
impl fmt::Display for Group<'_> {
    ghost use Rattle.phrases.specs.Sayings.{group_text};

    ghost output = { λ s. Some (group_text s) };

    fn fmt<W: fmt::Write>(&self, f: &mut fmt::Formatter<W>) -> fmt::Result {
        let role = self.role;
        let label = Quoted(self.label);
        write!(f, "{role}: {label}")
    }
}

/// How many items there are.
#[derive(Clone, Copy)]
struct Items(usize);

impl fmt::Display for Items {
    ghost use Rattle.phrases.specs.Sayings.{items_text};

    ghost output = { λ s. Some (items_text s.0) };

    fn fmt<W: fmt::Write>(&self, f: &mut fmt::Formatter<W>) -> fmt::Result {
        let count = self.0;
        if count == 1 {
            return f.write_str("1 item");
        }
        write!(f, "{count} items")
    }
}

/// What is said of a list.
#[derive(Clone, Copy)]
pub struct Listing<'a> {
    /// The word for the role.
    pub role: &'a str,
    pub label: Option<&'a str>,
    pub items: usize,
}

/// Prints, for example, `list box: "Fonts", 8 items`.
impl fmt::Display for Listing<'_> {
    ghost use Rattle.phrases.specs.Sayings.{listing_text};

    ghost output = { λ s. Some (listing_text s.role.now (option_copied s.label) s.items) };

    fn fmt<W: fmt::Write>(&self, f: &mut fmt::Formatter<W>) -> fmt::Result {
        let role = self.role;
        let items = Items(self.items);
        match self.label {
            Some(label) => {
                let label = Quoted(label);
                write!(f, "{role}: {label}, {items}")
            }
            None => write!(f, "{role}: {items}"),
        }
    }
}

/// What is said of a landmark.
#[derive(Clone, Copy)]
pub struct Landmark<'a> {
    /// The word for the role.
    pub role: &'a str,
    pub label: Option<&'a str>,
}

/// Prints, for example, `landmark: navigation "Main"`.
impl fmt::Display for Landmark<'_> {
    ghost use Rattle.phrases.specs.Sayings.{landmark_text};

    ghost output = { λ s. Some (landmark_text s.role.now (option_copied s.label)) };

    fn fmt<W: fmt::Write>(&self, f: &mut fmt::Formatter<W>) -> fmt::Result {
        let role = self.role;
        let label = Named(self.label);
        write!(f, "landmark: {role}{label}")
    }
}

/// Prints, for example, `removed "a", typed "b"`.
impl fmt::Display for Change<'_> {
    ghost use Rattle.phrases.specs.Sayings.{change_text};

    ghost output = { λ s. Some (change_text s) };

    fn fmt<W: fmt::Write>(&self, f: &mut fmt::Formatter<W>) -> fmt::Result {
        let removed = Quoted(self.removed);
        let typed = Quoted(self.typed);
        if self.removed.is_empty() {
            write!(f, "typed {typed}")
        } else if self.typed.is_empty() {
            write!(f, "removed {removed}")
        } else {
            write!(f, "removed {removed}, typed {typed}")
        }
    }
}

/// Something to say, printed as one line.
#[derive(Clone, Copy)]
pub enum Saying<'a> {
    /// The newly focused node.
    Focused(Focus<'a>),
    /// The dialog that the focus has entered.
    InDialog(Dialog<'a>),
    /// The group that the focus has entered.
    InGroup(Group<'a>),
    /// The list that the focus has entered.
    InList(Listing<'a>),
    /// The landmark that the focus has entered.
    InLandmark(Landmark<'a>),
    /// A text of a live region.
    Told(Live, &'a str),
    /// The new label of the focused node.
    Named(&'a str),
    /// The new value of the focused node.
    Valued(&'a str),
    /// The new description of the focused node.
    Described(&'a str),
    /// A word for the new state of the focused node.
    Is(&'a str),
    /// The edit of the focused text.
    Changed(Change<'a>),
    /// The line that the caret has moved to.
    OnLine(&'a str),
    /// The character that the caret has come to.
    AtCharacter(&'a str),
    /// The word that the caret has come to.
    AtWord(&'a str),
    /// A text that is selected now.
    Selected(&'a str),
    /// A text that was selected, where nothing is now.
    Unselected(&'a str),
}

impl fmt::Display for Saying<'_> {
    ghost use Rattle.phrases.specs.Sayings.{saying};

    ghost output = { λ s. Some (saying s) };

    fn fmt<W: fmt::Write>(&self, f: &mut fmt::Formatter<W>) -> fmt::Result {
        match *self {
            Saying::Focused(focus) => writeln!(f, "focus: {focus}"),
            Saying::InDialog(dialog) => writeln!(f, "{dialog}"),
            Saying::InGroup(group) => writeln!(f, "{group}"),
            Saying::InList(list) => writeln!(f, "{list}"),
            Saying::InLandmark(landmark) => writeln!(f, "{landmark}"),
            Saying::Told(live, text) => {
                let live = live_word(live);
                let text = Quoted(text);
                writeln!(f, "live ({live}): {text}")
            }
            Saying::Named(label) => {
                let label = Quoted(label);
                writeln!(f, "label: {label}")
            }
            Saying::Valued(value) => {
                let value = Quoted(value);
                writeln!(f, "value: {value}")
            }
            Saying::Described(description) => {
                let description = Quoted(description);
                writeln!(f, "description: {description}")
            }
            Saying::Is(word) => writeln!(f, "state: {word}"),
            Saying::Changed(change) => writeln!(f, "text: {change}"),
            Saying::OnLine(line) => {
                let line = Quoted(line);
                writeln!(f, "line: {line}")
            }
            Saying::AtCharacter(text) => {
                let text = Quoted(text);
                writeln!(f, "character: {text}")
            }
            Saying::AtWord(text) => {
                let text = Quoted(text);
                writeln!(f, "word: {text}")
            }
            Saying::Selected(text) => {
                let text = Quoted(text);
                writeln!(f, "text: selected {text}")
            }
            Saying::Unselected(text) => {
                let text = Quoted(text);
                writeln!(f, "text: unselected {text}")
            }
        }
    }
}

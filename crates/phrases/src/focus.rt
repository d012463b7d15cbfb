//! What is said of the focus.
ghost use Rattle.std.specs.Prelude.{Some};

use crate::quoted::{Named, Part};
use crate::states::{State, flag, opening};
use schema::HasPopup;
use std::fmt;

/// A node's position in its set.
#[derive(Clone, Copy)]
pub struct Place {
    /// Counted from 0.
    pub position: usize,
    pub size: usize,
}

/// A node's position in its set, after a comma, if it has one.
#[derive(Clone, Copy)]
struct AtPlace(Option<Place>);

impl fmt::Display for AtPlace {
    ghost use Rattle.phrases.specs.Focus.{place_text};

    ghost output = { λ s. Some (place_text s.0) };

    fn fmt<W: fmt::Write>(&self, f: &mut fmt::Formatter<W>) -> fmt::Result {
        match self.0 {
            Some(place) => {
                let number = place.position as u128 + 1;
                let size = place.size;
                write!(f, ", {number} of {size}")
            }
            None => Ok(()),
        }
    }
}

/// A level in a hierarchy, after a comma, if there is one.
#[derive(Clone, Copy)]
struct AtLevel(Option<usize>);

impl fmt::Display for AtLevel {
    ghost use Rattle.phrases.specs.Focus.{level_text};

    ghost output = { λ s. Some (level_text s.0) };

    fn fmt<W: fmt::Write>(&self, f: &mut fmt::Formatter<W>) -> fmt::Result {
        match self.0 {
            Some(level) => write!(f, ", level {level}"),
            None => Ok(()),
        }
    }
}

/// What is said of a focused node.
#[derive(Clone, Copy)]
pub struct Focus<'a> {
    /// The word for the role.
    pub role: &'a str,
    pub label: Option<&'a str>,
    /// Whether there may be a label that isn't said.
    pub is_label_hidden: bool,
    /// The value as shown.
    pub value: Option<&'a str>,
    /// Whether there may be a value that isn't said.
    pub is_value_hidden: bool,
    /// The hint that the node shows while it is empty.
    pub placeholder: Option<&'a str>,
    pub state: State,
    pub popup: Option<HasPopup>,
    /// The level of a heading, or how deep an item is in a tree, from 1.
    pub level: Option<usize>,
    pub place: Option<Place>,
    pub description: Option<&'a str>,
}

/// What a focused node is called, and its value.
#[derive(Clone, Copy)]
struct Texts<'a>(Focus<'a>);

impl fmt::Display for Texts<'_> {
    ghost use Rattle.phrases.specs.Focus.{texts_said};

    ghost output = { λ s. Some (texts_said s.0) };

    fn fmt<W: fmt::Write>(&self, f: &mut fmt::Formatter<W>) -> fmt::Result {
        let focus = self.0;
        let role = focus.role;
        let label = Named(focus.label);
        let hidden_label = flag(focus.is_label_hidden, "label hidden");
        let value = Part {
            what: "value",
            text: focus.value,
        };
        let hidden_value = flag(focus.is_value_hidden, "value hidden");
        let placeholder = Part {
            what: "placeholder",
            text: focus.placeholder,
        };
        write!(
            f,
            "{role}{label}{hidden_label}{value}{hidden_value}{placeholder}"
        )
    }
}

/// Prints, for example, `check box "Send copies", checked, 2 of 5`.
impl fmt::Display for Focus<'_> {
    ghost use Rattle.phrases.specs.Focus.{focus_text};

    ghost output = { λ s. Some (focus_text s) };

    fn fmt<W: fmt::Write>(&self, f: &mut fmt::Formatter<W>) -> fmt::Result {
        let texts = Texts(*self);
        let state = self.state;
        let popup = opening(self.popup);
        let level = AtLevel(self.level);
        let place = AtPlace(self.place);
        let description = Part {
            what: "description",
            text: self.description,
        };
        write!(f, "{texts}{state}{popup}{level}{place}{description}")
    }
}

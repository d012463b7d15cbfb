//! Texts in quotes.
ghost use Rattle.std.specs.Prelude.{◌≡◌, Some, chars, flat_map, option_copied};
ghost use Rattle.phrases.specs.Quoted.{quoted_char, quoted, named, part};

use std::fmt;

/// A character of a quoted text.
#[derive(Clone, Copy)]
struct QuotedChar(char);

impl fmt::Display for QuotedChar {
    ghost output = { λ s. Some (quoted_char s.0) };

    fn fmt<W: fmt::Write>(&self, f: &mut fmt::Formatter<W>) -> fmt::Result {
        match self.0 {
            '"' => f.write_str("\\\""),
            '\\' => f.write_str("\\\\"),
            '\n' => f.write_str("\\n"),
            _ => f.write_char(self.0),
        }
    }
}

/// The text between the quotes.
#[derive(Clone, Copy)]
struct Inner<'a>(&'a str);

impl<'a> Inner<'a> {
    fn text(self) -> &'a str
        ensures { result.now ≡ self.entry.0.now }
    {
        self.0
    }
}

impl fmt::Display for Inner<'_> {
    ghost output = { λ s. Some (flat_map quoted_char (chars s.0.now)) };

    fn fmt<W: fmt::Write>(&self, f: &mut fmt::Formatter<W>) -> fmt::Result {
        for c in self.text().chars() {
            let c = QuotedChar(c);
            write!(f, "{c}")?;
        }
        Ok(())
    }
}

/// A text printed in quotes. A quote, a backslash and a newline in it are printed as `\"`, `\\` and `\n`, as in a
/// script.
#[derive(Clone, Copy)]
pub struct Quoted<'a>(pub &'a str);

impl fmt::Display for Quoted<'_> {
    ghost output = { λ s. Some (quoted s.0.now) };

    fn fmt<W: fmt::Write>(&self, f: &mut fmt::Formatter<W>) -> fmt::Result {
        let inner = Inner(self.0);
        write!(f, "\"{inner}\"")
    }
}

/// A name after a space, if there is one.
#[derive(Clone, Copy)]
pub(crate) struct Named<'a>(pub Option<&'a str>);

impl fmt::Display for Named<'_> {
    ghost output = { λ s. Some (named (option_copied s.0)) };

    fn fmt<W: fmt::Write>(&self, f: &mut fmt::Formatter<W>) -> fmt::Result {
        match self.0 {
            Some(name) => {
                let name = Quoted(name);
                write!(f, " {name}")
            }
            None => Ok(()),
        }
    }
}

/// A text with a word for what it is, after a comma, if there is one.
#[derive(Clone, Copy)]
pub(crate) struct Part<'a> {
    pub what: &'static str,
    pub text: Option<&'a str>,
}

impl fmt::Display for Part<'_> {
    ghost output = { λ s. Some (part s.what.now (option_copied s.text)) };

    fn fmt<W: fmt::Write>(&self, f: &mut fmt::Formatter<W>) -> fmt::Result {
        match self.text {
            Some(text) => {
                let what = self.what;
                let text = Quoted(text);
                write!(f, ", {what} {text}")
            }
            None => Ok(()),
        }
    }
}

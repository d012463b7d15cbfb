//! How texts are compared.
ghost use Rattle.std.specs.Prelude.{◌≡◌, IfOk, true, false, string_bytes};
ghost use Rattle.std.specs.StrCase.Lower.{str_to_lowercase};
ghost use Rattle.matching.specs.Matches.{cased, form, is_match, spaced};

use crate::folding::folded;
use crate::parts::stands_in;
use std::alloc::{AllocError, Global};

/// How a text that is sought is compared with one that is there.
#[derive(Clone, Copy, Debug, PartialEq, Eq)]
pub struct Matching {
    /// Whether a part of that text is enough.
    pub is_part: bool,
    /// Whether upper-case letters are the same as their lower-case ones.
    pub ignores_case: bool,
    /// Whether each space counts. Otherwise any spaces, tabs and line ends between two words are one space, and those at either end are
    /// none.
    pub is_exact: bool,
}

impl Matching {
    /// A sought text is the whole text, in its case, with spaces folded.
    pub const fn whole() -> Matching
        ensures { result ≡ record { is_part = false; ignores_case = false; is_exact = false } }
    {
        Matching {
            is_part: false,
            ignores_case: false,
            is_exact: false,
        }
    }

    /// A sought text is the whole text, to the letter.
    pub const fn exact() -> Matching
        ensures { result ≡ record { is_part = false; ignores_case = false; is_exact = true } }
    {
        Matching {
            is_part: false,
            ignores_case: false,
            is_exact: true,
        }
    }

    /// Whether this text is the sought one, so compared.
    ///
    /// # Errors
    ///
    /// Returns `AllocError` if memory runs out.
    pub fn is_match(self, alloc: Global, sought: &str, text: &str) -> Result<bool, AllocError>
        ensures { IfOk result (λ is. is ≡ is_match self sought.now text.now) }
    {
        let sought = self.form(alloc, sought)?;
        let text = self.form(alloc, text)?;
        Ok(if self.is_part {
            stands_in(&sought, &text)
        } else {
            sought == text
        })
    }

    /// What is compared of a text.
    fn form(self, alloc: Global, text: &str) -> Result<Vec<u8>, AllocError>
        ensures { IfOk result (λ made. made.items ≡ form self text.now) }
    {
        let cased = self.cased(alloc, text)?;
        self.spaced(alloc, cased.as_bytes())
    }

    /// The text, in lower case if case is ignored.
    fn cased(self, alloc: Global, text: &str) -> Result<String, AllocError>
        ensures { IfOk result (λ made. string_bytes made ≡ cased self text.now) }
    {
        if self.ignores_case {
            return text.to_lowercase(alloc);
        }
        String::from_str(alloc, text)
    }

    /// The text, with its spaces folded unless each counts.
    fn spaced(self, alloc: Global, text: &[u8]) -> Result<Vec<u8>, AllocError>
        ensures { IfOk result (λ made. made.items ≡ spaced self text.now) }
    {
        if self.is_exact {
            return Vec::from_slice(alloc, text);
        }
        folded(alloc, text)
    }
}

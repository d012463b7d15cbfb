//! Whether one text is in another.
ghost use Rattle.std.specs.Prelude.{◌≡◌};
ghost use Rattle.matching.specs.Matches.{stands_in};

/// Whether a part is in a text.
pub(crate) fn stands_in(part: &[u8], text: &[u8]) -> bool
    ensures { result ≡ stands_in part.now text.now }
{
    let mut rest = text;
    while let Some((_, more)) = rest.split_first() {
        if rest.starts_with(part) {
            return true;
        }
        rest = more;
    }
    part.is_empty()
}

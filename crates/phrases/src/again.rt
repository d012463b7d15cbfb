//! Avoiding repeated speech.
ghost use Rattle.std.specs.Prelude.{◌≡◌, option_copied};
ghost use Rattle.phrases.specs.News.{is_old, news};

/// Whether the text equals the old one.
fn is_old(old: Option<&str>, new: &str) -> bool
    ensures { result ≡ is_old (option_copied old.entry) new.now }
{
    match old {
        Some(old) => old == new,
        None => false,
    }
}

/// What to say of a text that changed from `old` to `new`: the new text, if it differs and isn't empty.
pub fn news<'a>(old: Option<&str>, new: Option<&'a str>) -> Option<&'a str>
    ensures { option_copied result ≡ news (option_copied old.entry) (option_copied new.entry) }
{
    let Some(text) = new else {
        return None;
    };
    if text.is_empty() || is_old(old, text) {
        None
    } else {
        Some(text)
    }
}

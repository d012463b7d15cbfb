//! The parts of a line or a word before and after a character.

ghost use Rattle.std.specs.Prelude.{◌≡◌, ◌<◌, ◌≤◌, ◌++◌, ◌∷◌, ℕ, List, Option, IfSome, IsSomeAnd, length, option_copied, option_map};
ghost use Rattle.script_words.specs.Cuts.{halves, part_before, rest_behind};
ghost use Rattle.script_words.specs.Reading.{Lacks, behind};
ghost use Rattle.script_words.specs.Words.{left};

/// The text before the first such character, and the text after it.
pub(crate) fn cut_at(line: &str, mark: char) -> (&str, Option<&str>)
    requires { mark < 128 }
    ensures reads { (text : List ℕ) (rest : Option (List ℕ)) → Lacks mark text → line.now ≡ text ++ behind mark rest
        → (result.0.now ≡ text) × (option_copied result.1 ≡ rest) }
    ensures whole { line.now ≡ result.0.now ++ behind mark (option_copied result.1) }
    ensures shorter { (length result.0.now ≤ length line.now) × (left (option_copied result.1) ≤ length line.now) }
    ensures part { result.0.now ≡ part_before mark line.now }
    ensures behind { option_copied result.1 ≡ rest_behind mark line.now }
{
    match line.split_once(mark) {
        Some((part, after)) => (part, Some(after)),
        None => (line, None),
    }
}

/// The text before the first such character, and the text after it, if there is one.
pub(crate) fn parts_at(word: &str, mark: char) -> Option<(&str, &str)>
    requires { mark < 128 }
    ensures reads { (text rest : List ℕ) → Lacks mark text → word.now ≡ text ++ (mark ∷ rest)
        → IsSomeAnd result (λ parts. (parts.0.now ≡ text) × (parts.1.now ≡ rest)) }
    ensures only { IfSome result (λ parts. word.now ≡ parts.0.now ++ (mark ∷ parts.1.now)) }
    ensures parts { option_map (λ parts. (parts.0.now, parts.1.now)) result ≡ halves mark word.now }
{
    word.split_once(mark)
}

//! The words of a line, cut at each space.

ghost use Rattle.std.specs.Prelude.{◌≡◌, ◌≤◌, ◌+◌, length};
ghost use Rattle.line_text.specs.Words.{next_word, part_length, word_at};

/// The length of the part before the first such byte.
#[tactic(auto, using(std::proofs::lemmas::List::Sums::position_or_len_is))]
pub fn part_length(text: &[u8], mark: u8) -> usize
    ensures exact { result ≡ part_length mark text.now }
    ensures bound { result ≤ length text.now }
{
    for (end, byte) in text.iter().enumerate() {
        if *byte == mark {
            return end;
        }
    }
    text.len()
}

/// The word that begins here, up to the next space. Past the end of the line it is empty.
pub fn word_at(line: &[u8], at: usize) -> &[u8]
    ensures { result.now ≡ word_at line.now at }
{
    if at >= line.len() {
        return &[];
    }
    let rest = &line[at..];
    &rest[..part_length(rest, b' ')]
}

/// Where the word that begins here ends.
pub fn word_end(line: &[u8], at: usize) -> usize
    ensures { result ≡ at + length (word_at line.now at) }
{
    if at >= line.len() {
        return at;
    }
    let length = part_length(&line[at..], b' ');
    at + length
}

/// Where the word after the one that begins here begins: after the next space, or one past the end of the line.
pub fn next_word(line: &[u8], at: usize) -> usize
    ensures { result ≡ next_word line.now at }
{
    if at >= line.len() {
        return at;
    }
    at + part_length(&line[at..], b' ') + 1
}

//! The comment before a command: the text of the comment lines right before it.

ghost use Rattle.std.specs.Prelude.{◌≡◌, ◌≢◌, ◌≤◌, ◌<◌, ◌++◌, All, length, slice_index_or, take};
ghost use Rattle.script_lines.specs.Comments.{after_signs, comment_text, comment_with, joined, space_between};
ghost use Rattle.script_words.specs.Reading.{Reads};

use script_words::stops::Stop;

/// Adds a line that is outside of updates to the comment so far: the text of a comment line comes after it, and an empty line ends it.
#[tactic(auto, using(crate::proofs::CommentTexts::line_is_empty, crate::proofs::CommentTexts::line_is_comment, crate::proofs::CommentTexts::line_is_other))]
pub(crate) fn add_line(comment: &mut Vec<u8>, line: &[u8]) -> Result<(), Stop>
    ensures { Reads result (λ _. comment.new.items ≡ comment_with comment.old.items line.now) }
{
    if line.is_empty() {
        comment.clear();
        return Ok(());
    }
    if line[0] == b'#' {
        return add_text(comment, comment_text(line));
    }
    Ok(())
}

/// Adds a text, after a space if there is something on both sides of it.
fn add_text(comment: &mut Vec<u8>, text: &[u8]) -> Result<(), Stop>
    ensures { Reads result (λ _. comment.new.items ≡ joined comment.old.items text.now) }
{
    add_space(comment, text)?;
    comment.extend_from_slice(text)?;
    Ok(())
}

/// Adds a space before this text, if there is something on both sides of it.
#[tactic(auto, using(crate::proofs::CommentTexts::space_is, crate::proofs::CommentTexts::nothing_before, crate::proofs::CommentTexts::nothing_after))]
fn add_space(comment: &mut Vec<u8>, text: &[u8]) -> Result<(), Stop>
    ensures { Reads result (λ _. comment.new.items ≡ comment.old.items ++ space_between comment.old.items text.now) }
{
    if comment.is_empty() || text.is_empty() {
        return Ok(());
    }
    comment.push(b' ')?;
    Ok(())
}

/// The text of a comment line: what comes after its signs, without the white space around it.
fn comment_text(line: &[u8]) -> &[u8]
    ensures { result.now ≡ comment_text line.now }
{
    after_signs(line).trim_ascii()
}

/// What comes after the signs that begin a comment line.
fn after_signs(line: &[u8]) -> &[u8]
    ensures { result.now ≡ after_signs line.now }
{
    &line[sign_count(line)..]
}

/// How many signs begin a comment line.
fn sign_count(line: &[u8]) -> usize
    ensures bound { result ≤ length line.now }
    ensures passes { All (λ byte. byte ≡ 35) (take result line.now) }
    ensures stops { result < length line.now → slice_index_or line.now result 0 ≢ 35 }
{
    match line.iter().position(|byte| *byte != b'#') {
        Some(count) => count,
        None => line.len(),
    }
}

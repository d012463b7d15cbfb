//! Laws of worlds and runs that differ in the characters of one password alone.
ghost use Rattle.model.specs.AlikeExamples.{LinesAreAlike, SessionsAreAlike};
ghost use Rattle.model.specs.SecretLaws.{AlikeIsMutual, ShapeKeepsAnswers, AlikeUpdatesFailAlike, AlikeUpdatesLeaveOneOutline, PasswordsHideWords, CommandsKeepSecret, RunsKeepSecret};

/// Being alike is symmetric.
pub fn alike_is_mutual()
    ensures { AlikeIsMutual }
{}

/// A query whose answer reveals nothing of the secret has the same answer in worlds of equal shape.
pub fn shape_keeps_answers()
    ensures { ShapeKeepsAnswers }
{}

/// Alike updates of alike worlds break the same rules.
pub fn alike_updates_fail_alike()
    ensures { AlikeUpdatesFailAlike }
{}

/// Alike updates leave worlds with the same outline.
pub fn alike_updates_leave_one_outline()
    ensures { AlikeUpdatesLeaveOneOutline }
{}

/// No word start is kept in the text of a password.
pub fn passwords_hide_words()
    ensures { PasswordsHideWords }
{}

/// Alike commands have alike replies and report the same events openly.
pub fn commands_keep_secret()
    ensures { CommandsKeepSecret }
{}

/// Alike runs have alike replies and report the same events openly.
pub fn runs_keep_secret()
    ensures { RunsKeepSecret }
{}

/// Two sessions that differ in a password alone.
pub fn sessions_are_alike()
    ensures { SessionsAreAlike }
{}

/// Two passwords of two lines.
pub fn lines_are_alike()
    ensures { LinesAreAlike }
{}

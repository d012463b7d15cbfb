//! Laws and worked examples of texts, values and labels.
ghost use Rattle.model.specs.TextExamples.{TwoLines, EmptyLineLast, Nothing, LongRun, WideCharacter, LinkedRuns, TwoRuns, TwoSecrets, Measured, SomeMakeTexts, Styled, MeasuredAlike, Stacked, Turned, Upright};
ghost use Rattle.model.specs.ValueExamples.{Values, Placeholders, ShownRuns};
ghost use Rattle.model.specs.LabelExamples.{LabelsOf};
ghost use Rattle.model.specs.OutlineLaws.{OutlineRules, OutlineShows};
ghost use Rattle.model.specs.SecretExamples.{SecretsAreAlike};
ghost use Rattle.model.specs.TextLaws.{AnswersWhetherText, TextsAreWhole, HasValueIfThere, HasLabelIfThere, BiasKeepsOffset, EqualAtOneOffset, SidesAreBiases, IndexesComeBack, TextIsCharacters, SearchesGoRunByRun, ShapeKeepsSecret, CharactersHaveLength, MarksAreWordStarts, WordStartIsNearest, WordStartBeforeIsNearest, TextsHaveLines};

/// Two lines, a word each.
pub fn two_lines()
    ensures { TwoLines }
{}

/// A line, and an empty one after it.
pub fn empty_line_last()
    ensures { EmptyLineLast }
{}

/// One empty run.
pub fn nothing()
    ensures { Nothing }
{}

/// Words can begin past the 256th character.
pub fn long_run()
    ensures { LongRun }
{}

/// A character of two UTF-16 code units.
pub fn wide_character()
    ensures { WideCharacter }
{}

/// Two runs on one line, and one on a line of its own.
pub fn linked_runs()
    ensures { LinkedRuns }
{}

/// Ranges over two runs.
pub fn two_runs()
    ensures { TwoRuns }
{}

/// A masked password.
pub fn two_secrets()
    ensures { TwoSecrets }
{}

/// Boxes and points of three letters.
pub fn measured()
    ensures { Measured }
{}

/// Two runs of one size, and one of another.
pub fn styled()
    ensures { Styled }
{}

/// A password whose metrics are given for its first characters only.
pub fn measured_alike()
    ensures { MeasuredAlike }
{}

/// Runs one above the other.
pub fn stacked()
    ensures { Stacked }
{}

/// Runs that make a text, and runs that don't.
pub fn some_make_texts()
    ensures { SomeMakeTexts }
{}

/// The answer is that of the eight conditions.
pub fn answers_whether_text()
    ensures { AnswersWhetherText }
{}

/// A well-formed text has a run, empty ones only last, links both ways, and words that rise.
pub fn texts_are_whole()
    ensures { TextsAreWhole }
{}

/// `has_value` holds exactly if there is a value.
#[tactic(auto, using(crate::proofs::Text::TextFacts::has_value_is))]
pub fn has_value_if_there()
    ensures { HasValueIfThere }
{}

/// `has_label` holds exactly if there is a label.
#[tactic(auto, using(crate::proofs::Text::TextFacts::has_label_is))]
pub fn has_label_if_there()
    ensures { HasLabelIfThere }
{}

/// A bias keeps the offset.
pub fn bias_keeps_offset()
    ensures { BiasKeepsOffset }
{}

/// Two positions compare as equal exactly if their offsets are equal.
pub fn equal_at_one_offset()
    ensures { EqualAtOneOffset }
{}

/// The sides of a position's offset are the position's biases.
pub fn sides_are_biases()
    ensures { SidesAreBiases }
{}

/// The position of the index of a position is its start side.
pub fn indexes_come_back()
    ensures { IndexesComeBack }
{}

/// The text of a range is its characters.
#[tactic(auto, using(crate::proofs::Text::RangeTexts::range_text))]
pub fn text_is_characters()
    ensures { TextIsCharacters }
{}

/// A search for a run goes run by run.
pub fn searches_go_run_by_run()
    ensures { SearchesGoRunByRun }
{}

/// A masked password is one text in all worlds of its shape.
pub fn shape_keeps_secret()
    ensures { ShapeKeepsSecret }
{}

/// Two worlds that differ in the characters of a password alone.
#[tactic(auto, using(crate::proofs::Examples::SecretExamples::secrets_are_alike))]
pub fn secrets_are_alike()
    ensures { SecretsAreAlike }
{}

/// Reached nodes, kept trees, the chain of the focus and broken rules depend on the outline of a world alone.
#[tactic(auto, using(crate::proofs::Alike::OutlineIsEnough::outline_rules))]
pub fn outline_rules()
    ensures { OutlineRules }
{}

/// What views show of nodes, apart from their texts, depends on the outline of a world alone.
#[tactic(auto, using(crate::proofs::Alike::OutlineIsEnough::outline_shows))]
pub fn outline_shows()
    ensures { OutlineShows }
{}

/// Values, masked and raw.
#[tactic(auto, using(crate::proofs::Examples::ValueExamples::values))]
pub fn values()
    ensures { Values }
{}

/// Placeholders, by the runs.
#[tactic(auto, using(crate::proofs::Examples::ValueExamples::placeholders))]
pub fn placeholders()
    ensures { Placeholders }
{}

/// Labels, own and by parts.
#[tactic(auto, using(crate::proofs::Examples::LabelExamples::labels))]
pub fn labels()
    ensures { LabelsOf }
{}

/// What a flat text has of its world.
#[tactic(auto, using(crate::proofs::Examples::ValueExamples::shown_runs))]
pub fn shown_runs()
    ensures { ShownRuns }
{}

/// A run whose rectangle was sent from right to left.
pub fn turned()
    ensures { Turned }
{}

/// Runs from top to bottom and from bottom to top.
pub fn upright()
    ensures { Upright }
{}

/// A character of a well-formed text has a scalar, and so a UTF-16 code unit.
pub fn characters_have_length()
    ensures { CharactersHaveLength }
{}

/// The marks of words are the positions where words begin.
pub fn marks_are_word_starts()
    ensures { MarksAreWordStarts }
{}

/// A movement to the next word ends at the nearest start of a word, or else at the end of the text.
#[tactic(auto, using(crate::proofs::Text::WordMarks::word_start_is_nearest))]
pub fn word_start_is_nearest()
    ensures { WordStartIsNearest }
{}

/// The same for a movement back to a word.
#[tactic(auto, using(crate::proofs::Text::WordMarks::word_start_before_is_nearest))]
pub fn word_start_before_is_nearest()
    ensures { WordStartBeforeIsNearest }
{}

/// The lines are the greatest groups of joined runs, and each run is in one.
#[tactic(auto, using(crate::proofs::Text::Lines::texts_have_lines))]
pub fn texts_have_lines()
    ensures { TextsHaveLines }
{}

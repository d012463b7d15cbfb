//! What is wrong in a line.

/// A fault of a line: its bytes in the line, without the line's end, and the reason.
#[derive(Clone, Copy)]
pub struct LineFault {
    /// Where the word at fault begins, in bytes from 0.
    pub start: usize,
    /// Where it ends. The same as `start` if it isn't a word.
    pub end: usize,
    pub reason: Reason,
}

/// Why a line is bad.
#[derive(Clone, Copy)]
pub enum Reason {
    /// No field has this name, in a line of this kind.
    UnknownField(FieldSet),
    /// No role has this name.
    UnknownRole,
    /// Something else.
    Other(OtherReason),
}

/// The lines that have fields.
#[derive(Clone, Copy)]
pub enum FieldSet {
    /// The line of a node.
    Node,
    /// The line that begins an update.
    Update,
}

/// Why a line is bad whose fields and role have names.
#[derive(Clone, Copy)]
pub enum OtherReason {
    /// The line isn't UTF-8, from here on.
    NotUtf8,
    /// The input ends inside an update.
    EndsInside,
    /// A line that is only allowed inside an update.
    Outside,
    /// A line that isn't allowed inside an update.
    Inside,
    /// None of the words that may be here.
    UnknownWord(WordSet),
    /// A space where a word is needed.
    Space,
    /// The line ends where another word is needed.
    EndsEarly,
    /// More words than the line may have.
    TooMany,
    /// No number.
    NoNumber,
    /// Nothing where a number is needed.
    EmptyNumber,
    /// A number out of this range.
    OutOfRange(NumberRange),
    /// No tree's id.
    NoTree,
    /// A field without a name.
    NoName,
    /// A field without the value that it needs.
    NoValue,
    /// A flag with a value.
    FlagWithValue,
    /// A field that is there twice.
    GivenTwice,
    /// A text that doesn't begin with a quote.
    NoQuote,
    /// A text without its closing quote.
    OpenQuote,
    /// A backslash before another character than `"`, `\` and `n`.
    Escape,
    /// Something other than a space after a text's closing quote.
    AfterQuote,
    /// Not as many parts as this form has.
    Parts(Form),
    /// An update's line without `focus=`.
    NoFocus,
    /// An update's line with a toolkit, but without `root=`.
    NoRoot,
    /// None of the above.
    Unclear,
}

/// A list of words.
#[derive(Clone, Copy)]
pub enum WordSet {
    Commands,
    HostStates,
    Filters,
    Sides,
    Moves,
    Actions,
    Toggles,
    Truths,
    Lives,
    Orientations,
    SortDirections,
    Currents,
    Popups,
    TextDirections,
    TextAligns,
    VerticalOffsets,
    DecorationStyles,
}

/// The range of a number.
#[derive(Clone, Copy)]
pub enum NumberRange {
    /// 0 to 2⁸ − 1.
    Byte,
    /// 0 to 2¹⁶ − 1.
    Short,
    /// 0 to 2³² − 1.
    Narrow,
    /// 0 to 2⁶⁴ − 1.
    Count,
    /// −2³¹ to 2³¹ − 1.
    Units,
    /// −2⁶³ to 2⁶³ − 1.
    Signed,
}

/// A value of several parts.
#[derive(Clone, Copy)]
pub enum Form {
    /// `LEFT,TOP,RIGHT,BOTTOM`.
    Rect,
    /// `X,Y`.
    Pair,
    /// `RED,GREEN,BLUE,OPACITY`.
    Color,
    /// `STYLE,RED,GREEN,BLUE,OPACITY`.
    Decoration,
    /// `RUN:CHARACTER,RUN:CHARACTER`.
    Selection,
    /// `RUN:CHARACTER`.
    Position,
}

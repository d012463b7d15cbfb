//! Small texts.

use crate::sketches::Has::{
    Bounds, Children, Direction, FontSize, Lengths, Move, Positions, Value, Widths, Words,
};
use crate::sketches::Sketch;
use schema::{Role, TextDirection};

/// What is shown of four characters of a password.
pub const BULLETS: &str = "\u{2022}\u{2022}\u{2022}\u{2022}";

/// A root with its runs.
pub type SmallText = &'static [Sketch];

const INPUT: Sketch = Sketch(0, Role::TextInput, &[Children(&[1])]);

const LINES_INPUT: Sketch = Sketch(0, Role::MultilineTextInput, &[Children(&[1, 2])]);

const PASSWORD: Sketch = Sketch(0, Role::PasswordInput, &[Children(&[1, 2])]);

/// A run of no characters, of which nothing is sent.
pub const NOTHING: SmallText = &[INPUT, Sketch(1, Role::TextRun, &[])];

/// A paragraph, and an empty run after it.
pub const EMPTY_LAST: SmallText = &[
    LINES_INPUT,
    Sketch(
        1,
        Role::TextRun,
        &[Value("ab\n"), Lengths(&[1, 1, 1]), Words(&[])],
    ),
    Sketch(2, Role::TextRun, &[Value(""), Lengths(&[]), Words(&[])]),
];

/// Two paragraphs, each with one word.
pub const PARAGRAPHS: SmallText = &[
    LINES_INPUT,
    Sketch(
        1,
        Role::TextRun,
        &[Value("ab\n"), Lengths(&[1, 1, 1]), Words(&[0])],
    ),
    Sketch(
        2,
        Role::TextRun,
        &[Value("cd"), Lengths(&[1, 1]), Words(&[0])],
    ),
];

const AB: Sketch = Sketch(
    1,
    Role::TextRun,
    &[Value("ab"), Lengths(&[1, 1]), Words(&[])],
);

const CD: Sketch = Sketch(
    2,
    Role::TextRun,
    &[Value("cd"), Lengths(&[1, 1]), Words(&[])],
);

/// Two runs of two characters each.
pub const MEETING: SmallText = &[Sketch(0, Role::TextInput, &[Children(&[1, 2])]), AB, CD];

/// A run that is measured, and moved.
const MEASURED: Sketch = Sketch(
    1,
    Role::TextRun,
    &[
        Value("abc"),
        Lengths(&[1, 1, 1]),
        Words(&[]),
        Move(100, 200),
        Bounds(0, 0, 30, 10),
        Positions(&[0, 10, 20]),
        Widths(&[10, 10, 10]),
    ],
);

/// Its root is moved, too, and says the direction of its text.
pub const RIGHTWARD: SmallText = &[
    Sketch(
        0,
        Role::TextInput,
        &[
            Children(&[1]),
            Move(5, 0),
            Direction(TextDirection::LeftToRight),
        ],
    ),
    MEASURED,
];

/// The same, from right to left.
pub const LEFTWARD: SmallText = &[
    Sketch(
        0,
        Role::TextInput,
        &[
            Children(&[1]),
            Move(5, 0),
            Direction(TextDirection::RightToLeft),
        ],
    ),
    MEASURED,
];

const P_AND_UMLAUT: Sketch = Sketch(
    1,
    Role::TextRun,
    &[Value("p\u{e4}"), Lengths(&[1, 2]), Words(&[])],
);

const SS: Sketch = Sketch(
    2,
    Role::TextRun,
    &[Value("ss"), Lengths(&[1, 1]), Words(&[])],
);

const XY: Sketch = Sketch(
    1,
    Role::TextRun,
    &[Value("xy"), Lengths(&[1, 1]), Words(&[])],
);

const ZW: Sketch = Sketch(
    2,
    Role::TextRun,
    &[Value("zw"), Lengths(&[1, 1]), Words(&[])],
);

/// A password of four characters, of which one has two bytes,
pub const SECRET: SmallText = &[PASSWORD, P_AND_UMLAUT, SS];

/// another one of its shape,
pub const OTHER_RUNS: SmallText = &[PASSWORD, XY, ZW];

/// and one more, of which a character has two scalars, and another one two units of UTF-16.
pub const WIDE_SECRET: SmallText = &[
    PASSWORD,
    Sketch(
        1,
        Role::TextRun,
        &[Value("e\u{301}\u{1f44d}"), Lengths(&[3, 4]), Words(&[])],
    ),
    SS,
];

/// A value of its own, and no run.
pub const OWN_VALUE: SmallText = &[Sketch(0, Role::MultilineTextInput, &[Value("x")])];

/// Two runs that look alike, and one of letters of another size.
pub const SIZES: SmallText = &[
    Sketch(0, Role::TextInput, &[Children(&[1, 2, 3])]),
    Sketch(1, Role::TextRun, &[Value("ab"), Lengths(&[1, 1])]),
    Sketch(2, Role::TextRun, &[Value("cd"), Lengths(&[1, 1])]),
    Sketch(
        3,
        Role::TextRun,
        &[Value("ef"), Lengths(&[1, 1]), FontSize(12)],
    ),
];

//! The style of a text, property by property.
ghost use Rattle.std.specs.Prelude.{◌≡◌, ◌↔◌, IsTrue, option_copied};
ghost use Rattle.views.specs.Nodes.{world_at, id_at};
ghost use Rattle.texts.specs.Looks.{AreSame};

use views::NodeRef;

/// A property that a run has itself or inherits from its ancestors.
#[derive(Clone, Copy)]
pub(crate) enum Look {
    Direction,
    FontFamily,
    Language,
    FontSize,
    FontWeight,
    BackgroundColor,
    ForegroundColor,
    Overline,
    Strikethrough,
    Underline,
    Alignment,
    Offset,
    Italic,
}

/// Whether both are absent or equal.
fn same_text(a: Option<&str>, b: Option<&str>) -> bool
    ensures { IsTrue result ↔ (option_copied a.entry ≡ option_copied b.entry) }
{
    a == b
}

/// Whether two nodes of a state have the same value of the property.
pub(crate) fn are_same(what: Look, a: NodeRef<'_>, b: NodeRef<'_>) -> bool
    requires { world_at a ≡ world_at b }
    ensures { IsTrue result ↔ AreSame what (world_at b.entry) (id_at a.entry) (id_at b.entry) }
{
    match what {
        Look::Direction => return a.text_direction() == b.text_direction(),
        Look::FontFamily => return same_text(a.font_family(), b.font_family()),
        Look::Language => return same_text(a.language(), b.language()),
        Look::FontSize => return a.font_size() == b.font_size(),
        Look::FontWeight => return a.font_weight() == b.font_weight(),
        Look::BackgroundColor => return a.background_color() == b.background_color(),
        Look::ForegroundColor => return a.foreground_color() == b.foreground_color(),
        Look::Overline => return a.overline() == b.overline(),
        Look::Strikethrough => return a.strikethrough() == b.strikethrough(),
        Look::Underline => return a.underline() == b.underline(),
        Look::Alignment => return a.text_align() == b.text_align(),
        Look::Offset => return a.vertical_offset() == b.vertical_offset(),
        Look::Italic => return a.is_italic() == b.is_italic(),
    }
}

//! The numbers by which programs in other languages name the fields of a node.

ghost use Rattle.std.specs.Prelude.{◌≡◌, map, slice_get};
ghost use Rattle.std.specs.List.{range_with_len};
ghost use Rattle.script_nodes.specs.FieldNumbers.{numbered_fields};

use crate::field_kinds::{
    ActionsField, BoolField, ColorField, CountField, DecorationField, Field, FlagField, IdField,
    IdsField, NumberField, NumbersField, TextField, UnitsField,
};

/// Each field with its number. Programs are built with these numbers: a new field is added at the end, with the next number, wherever
/// scripts have it, and no number is ever given to another field.
static NUMBERED_FIELDS: [(u32, Field); 74] = [
    (0, Field::Ids(IdsField::Children)),
    (1, Field::Ids(IdsField::LabelledBy)),
    (2, Field::Ids(IdsField::Controls)),
    (3, Field::Tree),
    (4, Field::Id(IdField::ActiveDescendant)),
    (5, Field::Text(TextField::Label)),
    (6, Field::Text(TextField::Value)),
    (7, Field::Text(TextField::Description)),
    (8, Field::Text(TextField::Placeholder)),
    (9, Field::Text(TextField::RoleDescription)),
    (10, Field::Text(TextField::Url)),
    (11, Field::Text(TextField::AuthorId)),
    (12, Field::Text(TextField::HtmlId)),
    (13, Field::Text(TextField::ClassName)),
    (14, Field::Text(TextField::BrailleLabel)),
    (15, Field::Text(TextField::BrailleRoleDescription)),
    (16, Field::Text(TextField::ColumnIndexText)),
    (17, Field::Text(TextField::RowIndexText)),
    (18, Field::Text(TextField::FontFamily)),
    (19, Field::Text(TextField::Language)),
    (20, Field::Flag(FlagField::Hidden)),
    (21, Field::Flag(FlagField::ClipsChildren)),
    (22, Field::Flag(FlagField::Disabled)),
    (23, Field::Flag(FlagField::ReadOnly)),
    (24, Field::Flag(FlagField::Required)),
    (25, Field::Flag(FlagField::Modal)),
    (26, Field::Flag(FlagField::Busy)),
    (27, Field::Flag(FlagField::Multiselectable)),
    (28, Field::Flag(FlagField::Italic)),
    (29, Field::Flag(FlagField::LiveAtomic)),
    (30, Field::Flag(FlagField::TouchTransparent)),
    (31, Field::Bounds),
    (32, Field::Transform),
    (33, Field::Selection),
    (34, Field::Numbers(NumbersField::CharacterLengths)),
    (35, Field::Numbers(NumbersField::WordStarts)),
    (36, Field::Units(UnitsField::CharacterPositions)),
    (37, Field::Units(UnitsField::CharacterWidths)),
    (38, Field::Id(IdField::PreviousOnLine)),
    (39, Field::Id(IdField::NextOnLine)),
    (40, Field::Toggled),
    (41, Field::Bool(BoolField::Expanded)),
    (42, Field::Bool(BoolField::Selected)),
    (43, Field::Live),
    (44, Field::Orientation),
    (45, Field::SortDirection),
    (46, Field::AriaCurrent),
    (47, Field::HasPopup),
    (48, Field::FontSize),
    (49, Field::FontWeight),
    (50, Field::Color(ColorField::Background)),
    (51, Field::Color(ColorField::Foreground)),
    (52, Field::Decoration(DecorationField::Overline)),
    (53, Field::Decoration(DecorationField::Strikethrough)),
    (54, Field::Decoration(DecorationField::Underline)),
    (55, Field::TextDirection),
    (56, Field::TextAlign),
    (57, Field::VerticalOffset),
    (58, Field::Number(NumberField::NumericValue)),
    (59, Field::Number(NumberField::MinNumericValue)),
    (60, Field::Number(NumberField::MaxNumericValue)),
    (61, Field::Number(NumberField::NumericValueStep)),
    (62, Field::Number(NumberField::NumericValueJump)),
    (63, Field::Count(CountField::Level)),
    (64, Field::Count(CountField::SizeOfSet)),
    (65, Field::Count(CountField::PositionInSet)),
    (66, Field::Number(NumberField::ScrollX)),
    (67, Field::Number(NumberField::ScrollXMin)),
    (68, Field::Number(NumberField::ScrollXMax)),
    (69, Field::Number(NumberField::ScrollY)),
    (70, Field::Number(NumberField::ScrollYMin)),
    (71, Field::Number(NumberField::ScrollYMax)),
    (72, Field::Actions(ActionsField::Own)),
    (73, Field::Actions(ActionsField::Children)),
];

/// The fields with their numbers, in the order of these.
fn numbered_fields() -> &'static [(u32, Field)]
    ensures numbers { map (λ entry. entry.0) result.now ≡ range_with_len 0 74 }
    ensures fields { map (λ entry. entry.1) result.now ≡ numbered_fields }
{
    &NUMBERED_FIELDS
}

/// What has this number in a table.
fn at_number<T: Copy>(table: &[T], number: u32) -> Option<T>
    ensures { result ≡ slice_get table.now number }
{
    table.get(number as usize).copied()
}

/// The field with this number.
pub fn field_numbered(number: u32) -> Option<Field>
    ensures { result ≡ slice_get numbered_fields number }
{
    match at_number(numbered_fields(), number) {
        Some((_, field)) => Some(field),
        None => None,
    }
}

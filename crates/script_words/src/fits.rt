//! Values are within the bounds of their types: laws, each the contract of a function that reads the value.
//!
//! What is written of a value is read back where its numbers, texts and names are within these bounds.

ghost use Rattle.std.specs.Prelude.{◌≡◌, ◌<◌, ◌^◌, All, MatchOption, option_copied, pos, slice_index_or};
ghost use Rattle.std.specs.Bool.{⊤};
ghost use Rattle.std.specs.Str.{IsUtf8};
ghost use Rattle.script_words.specs.Reading.{IsByte, IsColor, IsCount, IsDecoration, IsId, IsName, IsNumber, IsRect, IsRole, IsSelection, IsShort, IsTranslation, IsTreeName, IsUnits};

use model::NodeName;
use schema::{Color, NodeId, Rect, Role, TextDecoration, TextSelection, Translation, TreeId};

/// Node ids are numbers of 64 bits.
pub fn ids_fit(ids: &[NodeId])
    ensures { All IsId ids.now }
{
    for id in ids {
        id_fits(Some(*id));
    }
}

/// A node id is a number of 64 bits.
pub fn id_fits(id: Option<NodeId>)
    ensures { MatchOption id ⊤ IsId }
{}

/// A text is UTF-8.
pub fn text_fits(text: Option<&str>)
    ensures { MatchOption (option_copied text.entry) ⊤ IsUtf8 }
{}

/// Numbers of 16 bits.
pub fn shorts_fit(numbers: &[u16])
    ensures { All IsShort numbers.now }
{}

/// Numbers of 32 bits, with a sign.
pub fn units_fit(units: Option<&[i32]>)
    ensures { MatchOption (option_copied units.entry) ⊤ (λ units. All IsUnits units) }
{
    if let Some(numbers) = units {
        some_units_fit(numbers);
    }
}

/// Numbers of 32 bits, with a sign.
fn some_units_fit(units: &[i32])
    ensures { All IsUnits units.now }
{
    for index in 0..units.len() {
        let _unit = unit_at(units, index);
    }
}

/// The number at this index, or 0 past the end: one of 32 bits, with a sign.
fn unit_at(units: &[i32], index: usize) -> i128
    ensures exact { result ≡ slice_index_or units.now index (pos 0) }
    ensures narrow { IsUnits result }
{
    match units.get(index) {
        Some(unit) => i128::from(*unit),
        None => 0,
    }
}

/// A color's parts are bytes.
pub fn color_fits(color: Option<Color>)
    ensures { MatchOption color ⊤ IsColor }
{}

/// A decoration's color has bytes as its parts.
pub fn decoration_fits(decoration: Option<TextDecoration>)
    ensures { MatchOption decoration ⊤ IsDecoration }
{}

/// A number of 64 bits, with a sign.
pub fn number_fits(number: Option<i64>)
    ensures { MatchOption number ⊤ IsNumber }
{}

/// A count is a number of 64 bits.
pub fn count_fits(count: Option<usize>)
    ensures { MatchOption count ⊤ IsCount }
{}

/// A number of 32 bits.
pub fn size_fits(size: Option<u32>)
    ensures { MatchOption size ⊤ (λ size. size < 2 ^ 32) }
{}

/// A number of 16 bits.
pub fn short_fits(number: Option<u16>)
    ensures { MatchOption number ⊤ IsShort }
{}

/// A rectangle's corners are numbers of 32 bits.
pub fn rect_fits(rect: Option<Rect>)
    ensures { MatchOption rect ⊤ IsRect }
{}

/// The parts of a translation are numbers of 32 bits.
pub fn translation_fits(translation: Option<Translation>)
    ensures { MatchOption translation ⊤ IsTranslation }
{}

/// The ids and indexes of a selection are numbers of 64 bits.
pub fn selection_fits(selection: Option<TextSelection>)
    ensures { MatchOption selection ⊤ IsSelection }
{}

/// The number of a role is one of 16 bits.
pub fn role_fits(role: Role)
    ensures { IsRole role }
{}

/// A tree's name, if there is one, is sixteen bytes.
pub fn optional_tree_fits(tree: Option<TreeId>)
    ensures { MatchOption tree ⊤ IsTreeName }
{
    if let Some(tree) = tree {
        tree_fits(tree);
    }
}

/// A tree's name is sixteen bytes.
pub fn tree_fits(tree: TreeId)
    ensures { IsTreeName tree }
{
    bytes_fit(tree.0.as_bytes());
}

/// Bytes are numbers of eight bits.
fn bytes_fit(bytes: &[u8])
    ensures { All IsByte bytes.now }
{}

/// A node's name is a number of 64 bits and sixteen bytes.
pub fn name_fits(name: NodeName)
    ensures { IsName name }
{
    tree_fits(name.1);
}

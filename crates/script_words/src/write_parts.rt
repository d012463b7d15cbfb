//! Writing the parts of a line: fields with their values, each after a space.
#![tactic(auto, unfolding(crate::specs::Parts::flag_text, crate::specs::Parts::word_field))]

ghost use Rattle.std.specs.Prelude.{◌≡◌, OnOk, Some, flat_map, option_copied, option_map};
ghost use Rattle.std.specs.Fmt.{decimal, signed_decimal};
ghost use Rattle.std.specs.Str.{bytes_eq};
ghost use Rattle.std.specs.Io.KnownBytes.{Appends};
ghost use Rattle.schema.specs.TreeIds.{root_tree_id};
ghost use Rattle.script_words.specs.Parts.{action_text, actions_value, color_text, corners_text, decoration_text, field_text, flag_text, id_text, ids_value, numbers_value, pair_text, place_text, rect_text, selection_text, translation_text, tree_text, units_text, word_field};
ghost use Rattle.script_words.specs.Items.{comma_then};
ghost use Rattle.script_words.specs.Quoted.{quoted};

use crate::called::decoration_style_name;
use crate::quoted::write_quoted;
use schema::{
    Action, Color, NodeId, Rect, TextDecoration, TextPosition, TextSelection, Translation, TreeId,
};
use std::fmt;
use std::io::{self, Write};

/// Writes a flag, if it is set.
pub fn write_flag<O: Write>(name: &str, is_set: bool, out: &mut O) -> io::Result<()>
    ensures { OnOk result (Appends (O.contents out.old) (O.contents out.new) (flag_text name.now is_set)) }
{
    if is_set {
        return write!(out, " {name}");
    }
    Ok(())
}

/// Writes a field that is a text in quotes, if there is one.
pub fn write_quoted_field<O: Write>(name: &str, value: Option<&str>, out: &mut O) -> io::Result<()>
    ensures { OnOk result (Appends (O.contents out.old) (O.contents out.new)
        (word_field name.now (option_map quoted (option_copied value.entry)))) }
{
    let Some(text) = value else {
        return Ok(());
    };
    write!(out, " {name}=\"")?;
    write_quoted(text.as_bytes(), out)?;
    out.write_all(b"\"")
}

/// Writes a field that is a count, if there is one.
pub fn write_count<O: Write>(name: &str, value: Option<usize>, out: &mut O) -> io::Result<()>
    ensures { OnOk result (Appends (O.contents out.old) (O.contents out.new) (word_field name.now (option_map decimal value))) }
{
    let Some(count) = value else {
        return Ok(());
    };
    write!(out, " {name}={count}")
}

/// Writes a field that is a number of four bytes, if there is one.
pub fn write_narrow<O: Write>(name: &str, value: Option<u32>, out: &mut O) -> io::Result<()>
    ensures { OnOk result (Appends (O.contents out.old) (O.contents out.new) (word_field name.now (option_map decimal value))) }
{
    let Some(number) = value else {
        return Ok(());
    };
    write!(out, " {name}={number}")
}

/// Writes a field that is a number of two bytes, if there is one.
pub fn write_short<O: Write>(name: &str, value: Option<u16>, out: &mut O) -> io::Result<()>
    ensures { OnOk result (Appends (O.contents out.old) (O.contents out.new) (word_field name.now (option_map decimal value))) }
{
    let Some(number) = value else {
        return Ok(());
    };
    write!(out, " {name}={number}")
}

/// Writes a field that is a number, if there is one.
pub fn write_number<O: Write>(name: &str, value: Option<i64>, out: &mut O) -> io::Result<()>
    ensures { OnOk result (Appends (O.contents out.old) (O.contents out.new) (word_field name.now (option_map signed_decimal value))) }
{
    let Some(number) = value else {
        return Ok(());
    };
    write!(out, " {name}={number}")
}

/// Writes a field that is a node's id, if there is one.
pub fn write_id<O: Write>(name: &str, value: Option<NodeId>, out: &mut O) -> io::Result<()>
    ensures { OnOk result (Appends (O.contents out.old) (O.contents out.new) (word_field name.now (option_map id_text value))) }
{
    let Some(id) = value else {
        return Ok(());
    };
    write!(out, " {name}={id}")
}

/// Writes a field that is a word, if there is one.
pub fn write_word<O: Write>(name: &str, value: Option<&str>, out: &mut O) -> io::Result<()>
    ensures { OnOk result (Appends (O.contents out.old) (O.contents out.new) (word_field name.now (option_copied value.entry))) }
{
    let Some(word) = value else {
        return Ok(());
    };
    write!(out, " {name}={word}")
}

/// Ids, each after a comma.
#[derive(Clone, Copy)]
struct MoreIds<'a>(&'a [NodeId]);

impl fmt::Display for MoreIds<'_> {
    ghost output = { λ s. Some (flat_map (comma_then id_text) s.0.now) };

    fn fmt<W: fmt::Write>(&self, f: &mut fmt::Formatter<W>) -> fmt::Result {
        for item in self.0 {
            let item = *item;
            write!(f, ",{item}")?;
        }
        Ok(())
    }
}

/// Writes a field that is a list of ids, if there are any.
pub fn write_ids<O: Write>(name: &str, ids: &[NodeId], out: &mut O) -> io::Result<()>
    ensures { OnOk result (Appends (O.contents out.old) (O.contents out.new) (word_field name.now (ids_value ids.now))) }
{
    let Some((first, others)) = ids.split_first() else {
        return Ok(());
    };
    let first = *first;
    let others = MoreIds(others);
    write!(out, " {name}={first}{others}")
}

/// Numbers, each after a comma.
#[derive(Clone, Copy)]
struct MoreNumbers<'a>(&'a [u16]);

impl fmt::Display for MoreNumbers<'_> {
    ghost output = { λ s. Some (flat_map (comma_then decimal) s.0.now) };

    fn fmt<W: fmt::Write>(&self, f: &mut fmt::Formatter<W>) -> fmt::Result {
        for item in self.0 {
            let item = *item;
            write!(f, ",{item}")?;
        }
        Ok(())
    }
}

/// Writes a field that is a list of numbers, if there are any.
pub fn write_numbers<O: Write>(name: &str, numbers: &[u16], out: &mut O) -> io::Result<()>
    ensures { OnOk result (Appends (O.contents out.old) (O.contents out.new) (word_field name.now (numbers_value numbers.now))) }
{
    let Some((first, others)) = numbers.split_first() else {
        return Ok(());
    };
    let first = *first;
    let others = MoreNumbers(others);
    write!(out, " {name}={first}{others}")
}

/// Numbers in units of 1/64 pixel, each after a comma.
#[derive(Clone, Copy)]
struct MoreUnits<'a>(&'a [i32]);

impl fmt::Display for MoreUnits<'_> {
    ghost output = { λ s. Some (flat_map (comma_then signed_decimal) s.0.now) };

    fn fmt<W: fmt::Write>(&self, f: &mut fmt::Formatter<W>) -> fmt::Result {
        for item in self.0 {
            let item = *item;
            write!(f, ",{item}")?;
        }
        Ok(())
    }
}

/// Writes a field that is a list of numbers in units of 1/64 pixel, if there is one; `-` is an empty list.
pub fn write_unit_list<O: Write>(name: &str, value: Option<&[i32]>, out: &mut O) -> io::Result<()>
    ensures { OnOk result (Appends (O.contents out.old) (O.contents out.new)
        (word_field name.now (option_map units_text (option_copied value.entry)))) }
{
    let Some(numbers) = value else {
        return Ok(());
    };
    write_some_units(name, numbers, out)
}

/// Writes a field that is a list of numbers in units of 1/64 pixel; `-` is an empty list.
pub fn write_some_units<O: Write>(name: &str, numbers: &[i32], out: &mut O) -> io::Result<()>
    ensures { OnOk result (Appends (O.contents out.old) (O.contents out.new) (field_text name.now (units_text numbers.now))) }
{
    let Some((first, others)) = numbers.split_first() else {
        return write!(out, " {name}=-");
    };
    let first = *first;
    let others = MoreUnits(others);
    write!(out, " {name}={first}{others}")
}

/// An action by its name, or as, for example, `Other(7)`.
#[derive(Clone, Copy)]
struct ShownAction(Action);

impl fmt::Display for ShownAction {
    ghost output = { λ a. Some (action_text a.0) };

    fn fmt<W: fmt::Write>(&self, f: &mut fmt::Formatter<W>) -> fmt::Result {
        match self.0 {
            Action::Click => f.write_str("Click"),
            Action::Focus => f.write_str("Focus"),
            Action::Increment => f.write_str("Increment"),
            Action::Decrement => f.write_str("Decrement"),
            Action::Other(code) => write!(f, "Other({code})"),
        }
    }
}

/// Actions, each after a comma.
#[derive(Clone, Copy)]
struct MoreActions<'a>(&'a [Action]);

impl fmt::Display for MoreActions<'_> {
    ghost output = { λ s. Some (flat_map (comma_then action_text) s.0.now) };

    fn fmt<W: fmt::Write>(&self, f: &mut fmt::Formatter<W>) -> fmt::Result {
        for item in self.0 {
            let item = ShownAction(*item);
            write!(f, ",{item}")?;
        }
        Ok(())
    }
}

/// Writes a field that is a set of actions, if there are any.
pub fn write_actions<O: Write>(name: &str, actions: &[Action], out: &mut O) -> io::Result<()>
    ensures { OnOk result (Appends (O.contents out.old) (O.contents out.new) (word_field name.now (actions_value actions.now))) }
{
    let Some((first, others)) = actions.split_first() else {
        return Ok(());
    };
    let first = ShownAction(*first);
    let others = MoreActions(others);
    write!(out, " {name}={first}{others}")
}

/// Two numbers in units of 1/64 pixel, as `X,Y`.
#[derive(Clone, Copy)]
struct ShownPair(i32, i32);

impl fmt::Display for ShownPair {
    ghost output = { λ p. Some (pair_text p.0 p.1) };

    #[tactic(auto, unfolding(crate::specs::Parts::pair_text))]
    fn fmt<W: fmt::Write>(&self, f: &mut fmt::Formatter<W>) -> fmt::Result {
        let x = self.0;
        let y = self.1;
        write!(f, "{x},{y}")
    }
}

/// Two pairs of numbers in units of 1/64 pixel, as `X,Y,X,Y`.
#[derive(Clone, Copy)]
struct ShownRect(ShownPair, ShownPair);

impl fmt::Display for ShownRect {
    ghost output = { λ r. Some (corners_text r.0.0 r.0.1 r.1.0 r.1.1) };

    #[tactic(auto, unfolding(crate::specs::Parts::corners_text))]
    fn fmt<W: fmt::Write>(&self, f: &mut fmt::Formatter<W>) -> fmt::Result {
        let low = self.0;
        let high = self.1;
        write!(f, "{low},{high}")
    }
}

/// The corners of a rectangle.
fn shown_rect(rect: Rect) -> ShownRect
    ensures { corners_text result.0.0 result.0.1 result.1.0 result.1.1 ≡ rect_text rect }
{
    ShownRect(ShownPair(rect.x0, rect.y0), ShownPair(rect.x1, rect.y1))
}

/// Writes a field that is a rectangle, if there is one.
pub fn write_rect<O: Write>(name: &str, value: Option<Rect>, out: &mut O) -> io::Result<()>
    ensures { OnOk result (Appends (O.contents out.old) (O.contents out.new) (word_field name.now (option_map rect_text value))) }
{
    let Some(rect) = value else {
        return Ok(());
    };
    let corners = shown_rect(rect);
    write!(out, " {name}={corners}")
}

/// Writes a field that is a translation, if there is one.
pub fn write_translation<O: Write>(
    name: &str,
    value: Option<Translation>,
    out: &mut O,
) -> io::Result<()>
    ensures { OnOk result (Appends (O.contents out.old) (O.contents out.new) (word_field name.now (option_map translation_text value))) }
{
    let Some(moved) = value else {
        return Ok(());
    };
    let pair = ShownPair(moved.x, moved.y);
    write!(out, " {name}={pair}")
}

/// A position in a text run, as `ID:INDEX`.
#[derive(Clone, Copy)]
struct ShownPlace(TextPosition);

impl fmt::Display for ShownPlace {
    ghost output = { λ p. Some (place_text p.0) };

    fn fmt<W: fmt::Write>(&self, f: &mut fmt::Formatter<W>) -> fmt::Result {
        let node = self.0.node;
        let index = self.0.character_index;
        write!(f, "{node}:{index}")
    }
}

/// Writes a field that is a selection, if there is one.
pub fn write_selection<O: Write>(
    name: &str,
    value: Option<TextSelection>,
    out: &mut O,
) -> io::Result<()>
    ensures { OnOk result (Appends (O.contents out.old) (O.contents out.new) (word_field name.now (option_map selection_text value))) }
{
    let Some(selection) = value else {
        return Ok(());
    };
    let anchor = ShownPlace(selection.anchor);
    let focus = ShownPlace(selection.focus);
    write!(out, " {name}={anchor},{focus}")
}

/// A colour, as `RED,GREEN,BLUE,ALPHA`.
#[derive(Clone, Copy)]
struct ShownColor(Color);

impl fmt::Display for ShownColor {
    ghost output = { λ c. Some (color_text c.0) };

    fn fmt<W: fmt::Write>(&self, f: &mut fmt::Formatter<W>) -> fmt::Result {
        let Color {
            red,
            green,
            blue,
            alpha,
        } = self.0;
        write!(f, "{red},{green},{blue},{alpha}")
    }
}

/// Writes a field that is a colour, if there is one.
pub fn write_color<O: Write>(name: &str, value: Option<Color>, out: &mut O) -> io::Result<()>
    ensures { OnOk result (Appends (O.contents out.old) (O.contents out.new) (word_field name.now (option_map color_text value))) }
{
    let Some(color) = value else {
        return Ok(());
    };
    let color = ShownColor(color);
    write!(out, " {name}={color}")
}

/// Writes a field that is a line above, through or below text, if there is one.
pub fn write_decoration<O: Write>(
    name: &str,
    value: Option<TextDecoration>,
    out: &mut O,
) -> io::Result<()>
    ensures { OnOk result (Appends (O.contents out.old) (O.contents out.new) (word_field name.now (option_map decoration_text value))) }
{
    let Some(decoration) = value else {
        return Ok(());
    };
    let style = decoration_style_name(decoration.style);
    let color = ShownColor(decoration.color);
    write!(out, " {name}={style},{color}")
}

/// A tree's id: `root`, or a UUID.
#[derive(Clone, Copy)]
pub struct ShownTree(pub TreeId);

impl fmt::Display for ShownTree {
    ghost output = { λ t. Some (tree_text t.0) };

    fn fmt<W: fmt::Write>(&self, f: &mut fmt::Formatter<W>) -> fmt::Result {
        let tree = self.0;
        if is_root(tree) {
            return f.write_str("root");
        }
        write!(f, "{tree}")
    }
}

/// Whether this is the root tree's id.
fn is_root(tree: TreeId) -> bool
    ensures { result ≡ bytes_eq tree.0 root_tree_id.0 }
{
    tree == TreeId::root()
}

/// Writes a field that is a tree's id, if there is one.
pub fn write_tree<O: Write>(name: &str, value: Option<TreeId>, out: &mut O) -> io::Result<()>
    ensures { OnOk result (Appends (O.contents out.old) (O.contents out.new) (word_field name.now (option_map tree_text value))) }
{
    let Some(tree) = value else {
        return Ok(());
    };
    let tree = ShownTree(tree);
    write!(out, " {name}={tree}")
}

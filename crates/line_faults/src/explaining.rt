//! Why a line is bad.

ghost use Rattle.std.specs.Prelude.{◌≡◌, ◌≢◌, ◌+◌, codes, drop};
ghost use Rattle.std.specs.Str.{IsUtf8};
ghost use Rattle.line_text.specs.Starts.{IsFirst, IsUnknownAt};
ghost use Rattle.line_text.specs.Words.{word_at};
ghost use Rattle.line_faults.specs.Faults.{FieldIsFound, FieldIsThere, RoleIsThere, HasUnknownField, HasUnknownRole, IsAtFirstUnknown, SomeIsUnknown};
ghost use Rattle.line_faults.specs.Known.{is_field};
ghost use Rattle.line_faults.specs.declared.reasons.FieldSet.{FieldSet};
ghost use Rattle.line_faults.specs.declared.reasons.FieldSet.TheVariants as set_;
ghost use Rattle.line_faults.specs.declared.reasons.OtherReason.TheVariants as other_;
ghost use Rattle.line_faults.specs.declared.reasons.Reason.TheVariants as reason_;

use crate::cutting::{WordFault, fault_from};
use crate::fields::known_fields_fault;
use crate::heads::{command_fault, id_fault, tree_fault};
use crate::names::field_names;
use crate::reasons::{FieldSet, LineFault, OtherReason, Reason};
use crate::word_checks::{is_id, is_role, is_tree};
use line_text::{first_unknown, name_length, next_word, word_at, word_end};
use std::str;

/// The fault of a line that a reader of scripts has refused, given without its line end.
///
/// Inside an update a reader allows other lines than outside of one: `is_inside` says where it was.
///
/// A field with an unknown name and an unknown role come before other faults of the line; the first such field is given.
pub fn explain(line: &[u8], is_inside: bool) -> LineFault
    ensures role { RoleIsThere is_inside line.now result }
    ensures role_found { IsUtf8 line.now → HasUnknownRole is_inside line.now → result.reason ≡ reason_.UnknownRole }
    ensures field { FieldIsThere is_inside line.now result }
    ensures field_found { (set : FieldSet) → IsUtf8 line.now → HasUnknownField set is_inside line.now
        → result.reason ≡ reason_.UnknownField set }
{
    match str::from_utf8(line) {
        Ok(_) => text_fault(line, is_inside),
        Err(error) => other(WordFault {
            start: error.valid_up_to(),
            end: error.valid_up_to(),
            reason: OtherReason::NotUtf8,
        }),
    }
}

/// The fault of an input that ends inside an update.
pub fn input_ended() -> LineFault
    ensures { result.reason ≡ reason_.Other other_.EndsInside }
{
    other(WordFault {
        start: 0,
        end: 0,
        reason: OtherReason::EndsInside,
    })
}

/// A fault that is neither an unknown field nor an unknown role.
fn other(fault: WordFault) -> LineFault
    ensures { result.reason ≡ reason_.Other fault.reason }
{
    LineFault {
        start: fault.start,
        end: fault.end,
        reason: Reason::Other(fault.reason),
    }
}

/// The fault of a line that is UTF-8.
#[tactic(auto, using(crate::proofs::LinesFound::other_none))]
fn text_fault(line: &[u8], is_inside: bool) -> LineFault
    ensures role { RoleIsThere is_inside line.now result }
    ensures role_found { HasUnknownRole is_inside line.now → result.reason ≡ reason_.UnknownRole }
    ensures field { FieldIsThere is_inside line.now result }
    ensures field_found { FieldIsFound is_inside line.now result }
{
    let word = word_at(line, 0);
    if word == b"node".as_slice() {
        return node_fault(line, is_inside);
    }
    if word == b"update".as_slice() {
        return update_fault(line, is_inside);
    }
    other(command_fault(line, is_inside))
}

/// The fault of a node's line.
#[tactic(auto, using(crate::proofs::LinesFound::node_none, crate::proofs::LinesFound::node_found, crate::proofs::LinesFound::node_field))]
fn node_fault(line: &[u8], is_inside: bool) -> LineFault
    requires { word_at line.now 0 ≡ codes "node" }
    ensures role { RoleIsThere is_inside line.now result }
    ensures role_found { HasUnknownRole is_inside line.now → result.reason ≡ reason_.UnknownRole }
    ensures field { FieldIsThere is_inside line.now result }
    ensures field_found { FieldIsFound is_inside line.now result }
{
    if !is_inside {
        return other(fault_from(line, 0, OtherReason::Outside));
    }
    let id_at = next_word(line, 0);
    if !is_id(word_at(line, id_at)) {
        return other(id_fault(line, id_at));
    }
    let role_at = next_word(line, id_at);
    let role = word_at(line, role_at);
    if role.is_empty() {
        return other(fault_from(line, role_at, OtherReason::EndsEarly));
    }
    if !is_role(role) {
        return LineFault {
            start: role_at,
            end: word_end(line, role_at),
            reason: Reason::UnknownRole,
        };
    }
    fields_fault(FieldSet::Node, line, next_word(line, role_at))
}

/// The fault of a line that begins an update.
#[tactic(auto, using(crate::proofs::LinesFound::update_none, crate::proofs::LinesFound::update_found, crate::proofs::LinesFound::update_field))]
fn update_fault(line: &[u8], is_inside: bool) -> LineFault
    requires { word_at line.now 0 ≡ codes "update" }
    ensures no_role { result.reason ≢ reason_.UnknownRole }
    ensures field { FieldIsThere is_inside line.now result }
    ensures field_found { FieldIsFound is_inside line.now result }
{
    if is_inside {
        return other(fault_from(line, 0, OtherReason::Inside));
    }
    let tree_at = next_word(line, 0);
    if !is_tree(word_at(line, tree_at)) {
        return other(tree_fault(line, tree_at));
    }
    fields_fault(FieldSet::Update, line, next_word(line, tree_at))
}

/// The fault of the fields that begin here: the first with an unknown name, or else another.
#[tactic(auto, using(crate::proofs::KnownNames::rest_from))]
fn fields_fault(set: FieldSet, line: &[u8], at: usize) -> LineFault
    ensures no_role { result.reason ≢ reason_.UnknownRole }
    ensures field { (which : FieldSet) → result.reason ≡ reason_.UnknownField which → (which ≡ set)
        × IsAtFirstUnknown set line.now at result }
    ensures field_found { SomeIsUnknown set line.now at → result.reason ≡ reason_.UnknownField set }
{
    match unknown_from(set, line, at) {
        Some(place) => {
            let start = at + place;
            LineFault {
                start,
                end: start + name_length(&line[start..]),
                reason: Reason::UnknownField(set),
            }
        }
        None => other(known_fields_fault(set, line, at)),
    }
}

/// Where the first field with an unknown name is, in what begins here.
fn unknown_from(set: FieldSet, line: &[u8], at: usize) -> Option<usize>
    ensures { IsFirst (IsUnknownAt (is_field set) (drop at line.now)) result }
{
    if at >= line.len() {
        return None;
    }
    first_unknown(&line[at..], field_names(set))
}

//! The value of a node, as text.
ghost use Rattle.std.specs.Prelude.{◌≡◌, ◌+◌, ◌<◌, ◌^◌, [], is_some, unwrap_or, option_copied, option_map, IfOk, OnOk, OnErr};
ghost use Rattle.std.specs.String.{string_bytes};
ghost use Rattle.model.specs.Values.{shown_alone, shown_value, has_value_in_runs, is_without_text, placeholder, value_of};
ghost use Rattle.views.specs.Nodes.{world_at, id_at, data_at};
ghost use Rattle.views.specs.Secrets.{InEachOfShape};
ghost use Rattle.views.specs.ValueCalls.{alone_calls, own_value_calls, value_calls};
ghost use Rattle.views.specs.Writes.{IsWritten, IsCutShort, IsCalled, IsCalledTillFault, IsCalledBy};

use crate::node::NodeRef;
use crate::node::masking::{has_one_scalar, scalar_count, write_bullets};
use crate::node::run_texts::{needs_masking, write_document};
use crate::runs::Run;
use schema::{TextBuffer, TextFault, TextSelection, TextWrite};
use std::alloc::{AllocError, Global};

/// Writes the own value of a password whose runs make no text.
fn write_alone<W: TextWrite>(value: &str, writer: &mut W) -> Result<(), TextFault>
    requires { W.faults writer.old + 1 < 2 ^ 128 }
    ensures ok { OnOk result (IsWritten W.received W.faults (shown_alone value.now) writer.old writer.new) }
    ensures err { OnErr result (IsCutShort W.received W.faults (shown_alone value.now) writer.old writer.new) }
    ensures calls { IsCalledBy W.steps result (alone_calls value.now) writer.old writer.new }
{
    if has_one_scalar(value) {
        return writer.write_str(value);
    }
    write_bullets(scalar_count(value), writer)
}

impl<'a> NodeRef<'a> {
    /// The value as sent in the update. That of a password is not masked.
    pub fn raw_value(&self) -> Option<&'a str>
        ensures { option_copied result ≡ (data_at self.now).value }
    {
        self.node.value()
    }

    /// Whether the node has a text selection.
    pub fn has_text_selection(&self) -> bool
        ensures { result ≡ is_some (data_at self.now).text_selection }
    {
        self.node.text_selection().is_some()
    }

    /// The text selection as sent in the update. Its ends may name nodes that aren't in the state.
    pub fn raw_text_selection(&self) -> Option<TextSelection>
        ensures { result ≡ (data_at self.now).text_selection }
    {
        self.node.text_selection()
    }

    /// Whether there is no run, or a single run with empty text.
    fn is_without_text(&self) -> bool
        ensures { result ≡ is_without_text (world_at self.now) (id_at self.now) }
    {
        let Some(first) = Run::first(*self) else {
            return true;
        };
        first.next().is_none() && first.value().is_empty()
    }

    /// The hint that a text input shows while it is empty.
    pub fn placeholder(&self) -> Option<&'a str>
        ensures { option_copied result ≡ placeholder (world_at self.now) (id_at self.now) }
    {
        if self.is_text_input() && self.is_without_text() {
            return self.node.placeholder();
        }
        None
    }

    /// Whether the node has a value of its own.
    fn has_own_value(&self) -> bool
        ensures { result ≡ is_some (data_at self.now).value }
    {
        self.node.value().is_some()
    }

    /// Whether the text of the node's runs is its value, if it has no value of its own.
    fn has_value_in_runs(&self) -> bool
        ensures { result ≡ has_value_in_runs (world_at self.now) (id_at self.now) }
    {
        self.supports_text_ranges() && !self.is_multiline()
    }

    /// Writes the node's own value as shown.
    fn write_own_value<W: TextWrite>(&self, value: &str, writer: &mut W) -> Result<(), TextFault>
        requires { W.faults writer.old + 1 < 2 ^ 128 }
        ensures ok { let text = shown_value (world_at self.now) (id_at self.now) value.now in
            OnOk result (IsWritten W.received W.faults text writer.old writer.new) }
        ensures err { let text = shown_value (world_at self.now) (id_at self.now) value.now in
            OnErr result (IsCutShort W.received W.faults text writer.old writer.new) }
        ensures calls { let calls = own_value_calls (world_at self.now) (id_at self.now) value.now in
            IsCalledBy W.steps result calls writer.old writer.new }
    {
        if !self.is_password_input() {
            return writer.write_str(value);
        }
        if !self.supports_text_ranges() {
            return write_alone(value, writer);
        }
        if needs_masking(*self) {
            return write_document(*self, writer);
        }
        writer.write_str(value)
    }

    /// Writes the value and returns whether there is one: the node's own value, or else, unless the role is multiline,
    /// the text of its runs. Each character of a password is written as a bullet, unless all of them are the same. A
    /// bullet is written by one `write_char`; otherwise the own value, or each run, by one `write_str`. Does not allocate.
    ///
    /// # Errors
    ///
    /// Returns `TextFault` if the writer fails. It has then received a beginning of the value, counts one more failure,
    /// and is not called again.
    pub fn write_value<W: TextWrite>(&self, writer: &mut W) -> Result<bool, TextFault>
        requires { W.faults writer.old + 1 < 2 ^ 128 }
        ensures ok { let value = value_of (world_at self.now) (id_at self.now) in
            IfOk result (λ there. (there ≡ is_some value) × IsWritten W.received W.faults (unwrap_or value []) writer.old writer.new) }
        ensures err { let value = value_of (world_at self.now) (id_at self.now) in
            OnErr result (IsCutShort W.received W.faults (unwrap_or value []) writer.old writer.new) }
        ensures called { OnOk result (IsCalled W.steps (value_calls (world_at self.now) (id_at self.now)) writer.old writer.new) }
        ensures stopped { OnErr result (IsCalledTillFault W.steps
            (value_calls (world_at self.now) (id_at self.now)) writer.old writer.new) }
        ensures secret { IfOk result (λ there. InEachOfShape self.now (λ v. let value = value_of v (id_at self.now) in
            (there ≡ is_some value) × IsWritten W.received W.faults (unwrap_or value []) writer.old writer.new)) }
    {
        if let Some(value) = self.node.value() {
            self.write_own_value(value, writer)?;
            return Ok(true);
        }
        if !self.has_value_in_runs() {
            return Ok(false);
        }
        write_document(*self, writer)?;
        Ok(true)
    }

    /// Whether the node has a value.
    pub fn has_value(&self) -> bool
        ensures { result ≡ is_some (value_of (world_at self.now) (id_at self.now)) }
    {
        self.has_own_value() || self.has_value_in_runs()
    }

    /// Returns the value, as [`NodeRef::write_value`] writes it, or `None` if there isn't one.
    ///
    /// # Errors
    ///
    /// Returns `AllocError` if memory runs out.
    #[tactic(auto, using(model::proofs::Text::Secrets::one_value))]
    pub fn value(&self, alloc: Global) -> Result<Option<String>, AllocError>
        ensures text { IfOk result (λ text. option_map string_bytes text ≡ value_of (world_at self.now) (id_at self.now)) }
        ensures secret { IfOk result (λ text. InEachOfShape self.now (λ v. option_map string_bytes text ≡ value_of v (id_at self.now))) }
    {
        let mut buffer = TextBuffer::new(alloc);
        match self.write_value(&mut buffer) {
            Ok(true) => Ok(Some(buffer.into_string())),
            Ok(false) => Ok(None),
            Err(_) => Err(AllocError),
        }
    }
}

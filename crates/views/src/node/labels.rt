//! The label of a node.
ghost use Rattle.std.specs.Prelude.{◌≡◌, ◌+◌, ◌<◌, ◌^◌, [], map, is_some, unwrap_or, option_map, IfOk, OnOk, OnErr};
ghost use Rattle.std.specs.String.{string_bytes};
ghost use Rattle.model.specs.Labels.{label_part, joined_text, label_of, labelled_by as labels_of};
ghost use Rattle.views.specs.Nodes.{world_at, id_at, data_at};
ghost use Rattle.views.specs.PlainWalks.{node_in};
ghost use Rattle.views.specs.LabelWalks.{labels_left};
ghost use Rattle.views.specs.LabelTexts.{parts_of, spaced};
ghost use Rattle.views.specs.ValueCalls.{calls_of, joined_calls, label_calls, part_calls, spaced_calls};
ghost use Rattle.views.specs.Writes.{IsWritten, IsCutShort, IsCalled, IsCalledTillFault, IsWrittenBy, IsCalledBy};

use crate::node::NodeRef;
use crate::walks::LabelledBy;
use schema::{TextBuffer, TextFault, TextWrite};
use std::alloc::{AllocError, Global};

/// Writes the label parts of these nodes, with a space between each two, and returns whether there is one.
fn write_parts<W: TextWrite>(labels: LabelledBy<'_>, writer: &mut W) -> Result<bool, TextFault>
    requires { W.faults writer.old + 1 < 2 ^ 128 }
    ensures ok { let text = joined_text (parts_of (labels_left labels.entry)) in
        IfOk result (λ there. (there ≡ is_some text) × IsWritten W.received W.faults (unwrap_or text []) writer.old writer.new) }
    ensures err { let text = joined_text (parts_of (labels_left labels.entry)) in
        OnErr result (IsCutShort W.received W.faults (unwrap_or text []) writer.old writer.new) }
    ensures called { OnOk result (IsCalled W.steps (joined_calls (calls_of (labels_left labels.entry))) writer.old writer.new) }
    ensures stopped { OnErr result (IsCalledTillFault W.steps (joined_calls (calls_of (labels_left labels.entry))) writer.old writer.new) }
{
    let mut nodes = labels;
    let mut is_later = false;
    while let Some(node) = nodes.next() {
        if !node.gives_part() {
            continue;
        }
        node.write_part(is_later, writer)?;
        is_later = true;
    }
    Ok(is_later)
}

/// Whether one of the nodes has a label part.
fn has_part(labels: LabelledBy<'_>) -> bool
    ensures { result ≡ is_some (joined_text (parts_of (labels_left labels.entry))) }
{
    let mut nodes = labels;
    while let Some(node) = nodes.next() {
        if node.gives_part() {
            return true;
        }
    }
    false
}

impl<'a> NodeRef<'a> {
    /// The nodes that label this one: those that `labelled_by` names, skipping those that aren't in the state. If it
    /// names none and the node is a control such as a button, they are the labels and images in the node, searched in
    /// containers only.
    pub fn labelled_by(&self) -> LabelledBy<'a>
        ensures { let w = world_at self.now in
            labels_left result ≡ map (node_in w) (labels_of w (id_at self.now)) }
    {
        LabelledBy::new(*self)
    }

    /// Whether the node has a label of its own.
    fn has_own_label(&self) -> bool
        ensures { result ≡ is_some (data_at self.now).label }
    {
        self.node.label().is_some()
    }

    /// The node's own label, or an empty text.
    fn own_label(&self) -> &'a str
        ensures { result.now ≡ unwrap_or (data_at self.now).label [] }
    {
        self.node.label().unwrap_or("")
    }

    /// Whether the node has a part for another node's label: the value of a label, or any other node's own label.
    fn gives_part(&self) -> bool
        ensures { result ≡ is_some (label_part (world_at self.now) (id_at self.now)) }
    {
        if self.label_comes_from_value() {
            return self.has_value();
        }
        self.has_own_label()
    }

    /// Writes a part of a label, if there is one.
    fn write_bare_part<W: TextWrite>(&self, writer: &mut W) -> Result<(), TextFault>
        requires { W.faults writer.old + 1 < 2 ^ 128 }
        ensures ok { let part = unwrap_or (label_part (world_at self.now) (id_at self.now)) [] in
            OnOk result (IsWritten W.received W.faults part writer.old writer.new) }
        ensures err { let part = unwrap_or (label_part (world_at self.now) (id_at self.now)) [] in
            OnErr result (IsCutShort W.received W.faults part writer.old writer.new) }
        ensures called { OnOk result (IsCalled W.steps (part_calls (world_at self.now) (id_at self.now)) writer.old writer.new) }
        ensures stopped { OnErr result (IsCalledTillFault W.steps (part_calls (world_at self.now) (id_at self.now)) writer.old writer.new) }
    {
        if self.label_comes_from_value() {
            self.write_value(writer)?;
            return Ok(());
        }
        writer.write_str(self.own_label())
    }

    /// Writes a label part, after a space if it isn't the first.
    fn write_part<W: TextWrite>(&self, is_later: bool, writer: &mut W) -> Result<(), TextFault>
        requires { W.faults writer.old + 1 < 2 ^ 128 }
        ensures text { let part = unwrap_or (label_part (world_at self.now) (id_at self.now)) [] in
            IsWrittenBy W.received W.faults result (spaced is_later part) writer.old writer.new }
        ensures calls { let calls = spaced_calls is_later (part_calls (world_at self.now) (id_at self.now)) in
            IsCalledBy W.steps result calls writer.old writer.new }
    {
        if !is_later {
            return self.write_bare_part(writer);
        }
        writer.write_char(' ')?;
        self.write_bare_part(writer)
    }

    /// Writes the label and returns whether there is one: the node's own label, or else the parts of the nodes in
    /// [`NodeRef::labelled_by`], joined by spaces. The part of a label is its value, that of any other node its own
    /// label. The node's own label is written by one `write_str`, each other part likewise or bullet by bullet, and each
    /// space by one `write_char`. Does not allocate.
    ///
    /// # Errors
    ///
    /// Returns `TextFault` if the writer fails. It has then received a beginning of the label, counts one more failure,
    /// and is not called again.
    pub fn write_label<W: TextWrite>(&self, writer: &mut W) -> Result<bool, TextFault>
        requires { W.faults writer.old + 1 < 2 ^ 128 }
        ensures ok { let label = label_of (world_at self.now) (id_at self.now) in
            IfOk result (λ there. (there ≡ is_some label) × IsWritten W.received W.faults (unwrap_or label []) writer.old writer.new) }
        ensures err { let label = label_of (world_at self.now) (id_at self.now) in
            OnErr result (IsCutShort W.received W.faults (unwrap_or label []) writer.old writer.new) }
        ensures called { OnOk result (IsCalled W.steps (label_calls (world_at self.now) (id_at self.now)) writer.old writer.new) }
        ensures stopped { OnErr result (IsCalledTillFault W.steps
            (label_calls (world_at self.now) (id_at self.now)) writer.old writer.new) }
    {
        if let Some(label) = self.node.label() {
            writer.write_str(label)?;
            return Ok(true);
        }
        write_parts(self.labelled_by(), writer)
    }

    /// Whether the node has a label.
    pub fn has_label(&self) -> bool
        ensures { result ≡ is_some (label_of (world_at self.now) (id_at self.now)) }
    {
        self.has_own_label() || has_part(self.labelled_by())
    }

    /// Returns the label, as [`NodeRef::write_label`] writes it, or `None` if there isn't one.
    ///
    /// # Errors
    ///
    /// Returns `AllocError` if memory runs out.
    pub fn label(&self, alloc: Global) -> Result<Option<String>, AllocError>
        ensures { IfOk result (λ text. option_map string_bytes text ≡ label_of (world_at self.now) (id_at self.now)) }
    {
        let mut buffer = TextBuffer::new(alloc);
        match self.write_label(&mut buffer) {
            Ok(true) => Ok(Some(buffer.into_string())),
            Ok(false) => Ok(None),
            Err(_) => Err(AllocError),
        }
    }
}

//! The text of a range, piece by piece.
ghost use Rattle.std.specs.Prelude.{◌≡◌, ◌+◌, ◌-◌, ◌<◌, ◌^◌, true, OnOk, OnErr, IfOk};
ghost use Rattle.std.specs.List.{concat};
ghost use Rattle.std.specs.String.{string_bytes};
ghost use Rattle.model.specs.FlatText.{needs_masking};
ghost use Rattle.model.specs.Ranges.{pieces, text_of, passed_texts};
ghost use Rattle.model.specs.Values.{bullets};
ghost use Rattle.texts.specs.TextRanges.{world_in, root_in, text_in, range_at};
ghost use Rattle.texts.specs.Traversals.{longest, IsEnough, PassesAll};
ghost use Rattle.texts.specs.PieceTexts.{are_cut_off, left_by, IsPart, sent_part, shown_piece};
ghost use Rattle.texts.specs.TextCalls.{part_calls, range_calls};
ghost use Rattle.views.specs.Writes.{IsCalled, IsCalledTillFault, IsWritten, IsCutShort};
ghost use Rattle.texts.specs.Secrets.{InEachText};

use crate::pieces::Piece;
use crate::range::TextRange;
use schema::{TextBuffer, TextFault, TextWrite};
use std::alloc::{AllocError, Global};
use views::NodeRef;
use views::node::masking::write_bullets;
use views::node::run_texts::needs_masking;

/// The rest of a text after the characters that these lengths cut off its beginning.
fn past<'a>(text: &'a str, lengths: &[u16]) -> &'a str
    requires { are_cut_off text.now lengths.now ≡ true }
    ensures { result.now ≡ left_by text.now lengths.now }
{
    let mut rest = text;
    for length in lengths {
        rest = rest.split_at(usize::from(*length)).1;
    }
    rest
}

impl<'a> Piece<'a> {
    /// The text of the piece as sent in the update.
    fn sent(self) -> &'a str
        requires { IsPart self }
        ensures { result.now ≡ concat (sent_part self.entry) }
    {
        let value = self.run.value();
        let lengths = self.run.node().character_lengths();
        if self.from == 0 && self.to == lengths.len() {
            return value;
        }
        let rest = past(value, &lengths[..self.from]);
        let after = past(rest, &lengths[self.from..self.to]);
        rest.split_at(rest.len() - after.len()).0
    }

    /// Writes the text of the piece as shown.
    fn write<W: TextWrite>(self, masked: bool, writer: &mut W) -> Result<(), TextFault>
        requires room { W.faults writer.old + 1 < 2 ^ 128 }
        requires part { IsPart self }
        ensures ok { let text = shown_piece masked self.entry in
            OnOk result (IsWritten W.received W.faults text writer.old writer.new) }
        ensures err { let text = shown_piece masked self.entry in
            OnErr result (IsCutShort W.received W.faults text writer.old writer.new) }
        ensures called { OnOk result (IsCalled W.steps (part_calls masked self.entry) writer.old writer.new) }
        ensures stopped { let calls = part_calls masked self.entry in
            OnErr result (IsCalledTillFault W.steps calls writer.old writer.new) }
    {
        if masked {
            return write_bullets(self.to - self.from, writer);
        }
        writer.write_str(self.sent())
    }
}

impl TextRange<'_> {
    /// Writes the text of the range. Each character of a password is written as a bullet, unless all characters of the
    /// password are the same. The writer is called once for each bullet, by `write_char`, or else once for each run of
    /// the range, by `write_str`. Does not allocate.
    ///
    /// # Errors
    ///
    /// Returns `TextFault` if the writer fails. It has then received a beginning of the text, counts one more failure,
    /// and isn't called again.
    pub fn write_text<W: TextWrite>(&self, writer: &mut W) -> Result<(), TextFault>
        requires { W.faults writer.old + 1 < 2 ^ 128 }
        ensures ok { let text = text_of (text_in self.now) (range_at self.now) in
            OnOk result (IsWritten W.received W.faults text writer.old writer.new) }
        ensures err { let text = text_of (text_in self.now) (range_at self.now) in
            OnErr result (IsCutShort W.received W.faults text writer.old writer.new) }
        ensures called { OnOk result (IsCalled W.steps (range_calls self.now) writer.old writer.new) }
        ensures stopped { OnErr result (IsCalledTillFault W.steps (range_calls self.now) writer.old writer.new) }
        ensures secret { OnOk result (InEachText self.now.root
            (λ t. IsWritten W.received W.faults (text_of t (range_at self.now)) writer.old writer.new)) }
    {
        let range = *self;
        let masked = needs_masking(range.root);
        let (mut piece, last) = range.first_and_last();
        loop {
            piece.write(masked, writer)?;
            let Some(next) = range.next_piece(piece.run, last) else {
                return Ok(());
            };
            piece = next;
        }
    }

    /// Returns the text of the range, as [`TextRange::write_text`] writes it.
    ///
    /// # Errors
    ///
    /// Returns `AllocError` if memory runs out.
    #[tactic(auto, using(model::proofs::Text::Secrets::one_text))]
    pub fn text(&self, alloc: Global) -> Result<String, AllocError>
        ensures text { let bytes = text_of (text_in self.now) (range_at self.now) in
            IfOk result (λ text. string_bytes text ≡ bytes) }
        ensures secret { IfOk result (λ text. InEachText self.now.root (λ t. string_bytes text ≡ text_of t (range_at self.now))) }
    {
        let mut buffer = TextBuffer::new(alloc);
        match self.write_text(&mut buffer) {
            Ok(()) => Ok(buffer.into_string()),
            Err(_) => Err(AllocError),
        }
    }
}

impl<'a> Piece<'a> {
    /// The text of the piece as shown; for a masked piece, the first bullets of `bullets`.
    fn shown<'b>(self, masked: bool, bullets: &'b str) -> &'b str
    where
        'a: 'b,
        requires part { IsPart self }
        requires enough { IsEnough masked bullets.now (self.to - self.from) }
        ensures { result.now ≡ shown_piece masked self.entry }
    {
        if masked {
            let many = self.to - self.from;
            prove!(many <= bullets.len() / 3);
            return bullets.split_at(3 * many).0;
        }
        self.sent()
    }
}

/// A text of this many bullets.
fn text_of_bullets(alloc: Global, count: usize) -> Result<String, AllocError>
    ensures { IfOk result (λ text. string_bytes text ≡ bullets count) }
{
    let mut buffer = TextBuffer::new(alloc);
    match write_bullets(count, &mut buffer) {
        Ok(()) => Ok(buffer.into_string()),
        Err(_) => Err(AllocError),
    }
}

impl TextRange<'_> {
    /// The number of characters of the longest piece.
    fn longest(self) -> usize
        ensures { result ≡ longest (pieces (text_in self.entry) (range_at self.entry)) }
    {
        let (mut piece, last) = self.first_and_last();
        let mut most = 0;
        loop {
            most = most.max(piece.to - piece.from);
            let Some(next) = self.next_piece(piece.run, last) else {
                return most;
            };
            piece = next;
        }
    }

    /// Calls the function with each piece until it returns something.
    fn pass<T, F: FnMut(&NodeRef<'_>, &str) -> Option<T>>(
        self,
        masked: bool,
        bullets: &str,
        f: &mut F,
    ) -> Option<T>
        requires callable { F.IsAlwaysCallable f.old }
        requires masking { masked ≡ needs_masking (world_in self) (root_in self) }
        requires enough { let all = pieces (text_in self) (range_at self) in
            IsEnough masked bullets.now (longest all) }
        ensures { let passed = passed_texts (text_in self.entry) (range_at self.entry) in
            PassesAll F.FnMut (world_in self.entry) passed f.old result f.new }
    {
        let (mut piece, last) = self.first_and_last();
        loop {
            let view = piece.run.view();
            if let Some(answer) = f(&view, piece.shown(masked, bullets)) {
                return Some(answer);
            }
            let Some(next) = self.next_piece(piece.run, last) else {
                return None;
            };
            piece = next;
        }
    }

    /// The body of [`TextRange::traverse_text`], which takes the function by reference, so that its contract can speak
    /// of the function after the calls. If memory runs out, the function is unchanged, since that happens before the
    /// first call.
    fn traverse<T, F: FnMut(&NodeRef<'_>, &str) -> Option<T>>(
        self,
        alloc: Global,
        f: &mut F,
    ) -> Result<Option<T>, AllocError>
        requires { F.IsAlwaysCallable f.old }
        ensures passed { let w = world_in self.entry in
            let passed = passed_texts (text_in self.entry) (range_at self.entry) in
            IfOk result (λ answer. PassesAll F.FnMut w passed f.old answer f.new) }
        ensures uncalled { OnErr result (f.new ≡ f.old) }
        ensures masked { OnErr result (needs_masking (world_in self.entry) (root_in self.entry) ≡ true) }
    {
        if !needs_masking(self.root) {
            return Ok(self.pass(false, "", f));
        }
        let bullets = text_of_bullets(alloc, self.longest())?;
        Ok(self.pass(true, bullets.as_str(), f))
    }

    /// Calls the function with each run of the range and the text shown of it, until the function returns something,
    /// and returns that. Allocates only for a masked password, before the first call.
    ///
    /// # Errors
    ///
    /// Returns `AllocError` if memory runs out; the function was not called then.
    pub fn traverse_text<T, F: FnMut(&NodeRef<'_>, &str) -> Option<T>>(
        &self,
        alloc: Global,
        mut f: F,
    ) -> Result<Option<T>, AllocError>
        requires { F.IsAlwaysCallable f }
        ensures passed { let w = world_in self.now in
            let passed = passed_texts (text_in self.now) (range_at self.now) in
            IfOk result (λ answer. (last : F) × PassesAll F.FnMut w passed f answer last) }
        ensures refused { let masked = needs_masking (world_in self.now) (root_in self.now) in
            OnErr result (masked ≡ true) }
    {
        self.traverse(alloc, &mut f)
    }
}

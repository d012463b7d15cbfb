//! What is noted of the trees that a script has after its updates.

ghost use Rattle.std.specs.Prelude.{◌≡◌, ◌++◌, [], IfErr, IfOk, None, OnOk, Some, if◌then◌else◌, option_copied};
ghost use Rattle.std.specs.Io.KnownBytes.{Appends};
ghost use Rattle.script_words.specs.declared.stops.Stop.TheVariants.{Memory};
ghost use Rattle.find.specs.Noted.{answer_text, each_noted, is_answered, noted_after, noted_of, noted_when, numbered, one_noted, text_of};

use crate::search::tell_in;
use crate::wanted::{Wanted, When};
use atree_script::Stop;
use session::Session;
use std::alloc::Global;
use std::io::Write;

/// What is noted of the updates so far.
#[derive(Drop)]
pub(crate) struct Notes {
    /// What is to be printed.
    pub(crate) text: Vec<u8>,
    /// What was found after the last update, as it is printed.
    pub(crate) found: Vec<u8>,
    /// Whether as many nodes as are asked for were found after an update that was searched.
    pub(crate) is_enough: bool,
}

impl Notes {
    /// Notes what is found after an update with this number, if this was one.
    pub(crate) fn note_if(
        &mut self,
        alloc: Global,
        wanted: &Wanted,
        number: u64,
        is_update: bool,
        session: &Session,
    ) -> Result<(), Stop>
        ensures noted { OnOk result (noted_of self.new
            ≡ noted_after wanted.now number (if is_update then Some (Some session.now) else None) (noted_of self.old)) }
        ensures stopped { IfErr result (λ stop. stop ≡ Memory) }
    {
        if !is_update {
            return Ok(());
        }
        self.note(alloc, wanted, number, Some(session))
    }

    /// Notes what is found after an update with this number.
    pub(crate) fn note(
        &mut self,
        alloc: Global,
        wanted: &Wanted,
        number: u64,
        tree: Option<&Session>,
    ) -> Result<(), Stop>
        ensures noted { OnOk result (noted_of self.new
            ≡ noted_when wanted.now.when wanted.now number (option_copied tree.entry) (noted_of self.old)) }
        ensures stopped { IfErr result (λ stop. stop ≡ Memory) }
    {
        match wanted.when {
            When::AtEnd => Ok(()),
            When::After(last) => self.note_one(alloc, wanted, number == last, tree),
            When::Each => self.note_each(alloc, wanted, number, tree),
        }
    }

    /// Notes the answer, if the update is the one that is asked for.
    fn note_one(
        &mut self,
        alloc: Global,
        wanted: &Wanted,
        is_it: bool,
        tree: Option<&Session>,
    ) -> Result<(), Stop>
        ensures noted { OnOk result (noted_of self.new ≡ one_noted is_it wanted.now (option_copied tree.entry) (noted_of self.old)) }
        ensures stopped { IfErr result (λ stop. stop ≡ Memory) }
    {
        if !is_it {
            return Ok(());
        }
        self.is_enough = add_tree(alloc, wanted, tree, true, &mut self.text)?;
        Ok(())
    }

    /// Notes the answer, unless the same is found as after the update before.
    fn note_each(
        &mut self,
        alloc: Global,
        wanted: &Wanted,
        number: u64,
        tree: Option<&Session>,
    ) -> Result<(), Stop>
        ensures noted { OnOk result (noted_of self.new ≡ each_noted wanted.now number (option_copied tree.entry) (noted_of self.old)) }
        ensures stopped { IfErr result (λ stop. stop ≡ Memory) }
    {
        let mut found = Vec::new(alloc);
        let is_enough = add_tree(alloc, wanted, tree, false, &mut found)?;
        let is_same = found == self.found;
        add_unless(alloc, wanted, number, tree, is_same, &mut self.text)?;
        self.found = found;
        self.is_enough = self.is_enough || is_enough;
        Ok(())
    }
}

/// Adds what is found in a tree, and returns whether as many nodes are found as are asked for.
fn add_tree(
    alloc: Global,
    wanted: &Wanted,
    tree: Option<&Session>,
    near: bool,
    text: &mut Vec<u8>,
) -> Result<bool, Stop>
    ensures text { OnOk result (text.new.items ≡ text.old.items ++ text_of near wanted.now (option_copied tree.entry)) }
    ensures enough { IfOk result (λ is. is ≡ is_answered wanted.now (option_copied tree.entry)) }
    ensures stopped { IfErr result (λ stop. stop ≡ Memory) }
{
    match write_tree(alloc, wanted, tree, near, text) {
        Ok(is_enough) => Ok(is_enough),
        Err(_) => Err(Stop::Memory),
    }
}

/// Adds the answer below the number of its update, unless the same is found as before.
fn add_unless(
    alloc: Global,
    wanted: &Wanted,
    number: u64,
    tree: Option<&Session>,
    is_same: bool,
    text: &mut Vec<u8>,
) -> Result<(), Stop>
    ensures text { OnOk result (text.new.items
        ≡ text.old.items ++ (if is_same then [] else numbered number (answer_text wanted.now (option_copied tree.entry)))) }
    ensures stopped { IfErr result (λ stop. stop ≡ Memory) }
{
    if is_same {
        return Ok(());
    }
    match write_numbered(alloc, wanted, number, tree, text) {
        Ok(()) => Ok(()),
        Err(_) => Err(Stop::Memory),
    }
}

/// Writes the answer of a tree below the number of its update.
fn write_numbered<O: Write>(
    alloc: Global,
    wanted: &Wanted,
    number: u64,
    tree: Option<&Session>,
    out: &mut O,
) -> Result<(), Stop>
    ensures { OnOk result (Appends (O.contents out.old) (O.contents out.new)
        (numbered number (answer_text wanted.now (option_copied tree.entry)))) }
{
    writeln!(out, "update {number}:")?;
    write_tree(alloc, wanted, tree, true, out)?;
    Ok(())
}

/// Writes what is found in a tree, and of none which nodes come near, if `near` says so; or that there is no tree. Returns whether
/// as many nodes are found as are asked for.
pub(crate) fn write_tree<O: Write>(
    alloc: Global,
    wanted: &Wanted,
    tree: Option<&Session>,
    near: bool,
    out: &mut O,
) -> Result<bool, Stop>
    ensures printed { OnOk result (Appends (O.contents out.old) (O.contents out.new) (text_of near wanted.now (option_copied tree.entry))) }
    ensures enough { IfOk result (λ is. is ≡ is_answered wanted.now (option_copied tree.entry)) }
{
    match tree {
        Some(session) => tell_in(alloc, wanted, session, near, out),
        None => {
            out.write_all(b"no tree\n")?;
            Ok(false)
        }
    }
}

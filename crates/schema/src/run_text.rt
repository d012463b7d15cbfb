//! The value of a node with the lists about its characters, and whether they are known to fit together. They are stored apart
//! from the node, so that other nodes stay small.

ghost use Rattle.std.specs.Prelude.{◌≡◌, [], OnOk, OnErr, IfOk, IsTrue, Some, None, option_map, option_copied, string_bytes};
ghost use Rattle.schema.specs.RunLists.{no_lists, with_list, table_data};
ghost use Rattle.schema.specs.RunFits.{no_text, fit_together};

use crate::run_fits::{has_count, is_cut_by, rise_below};
use std::alloc::{AllocError, Global};
use std::marker::Model;

/// The lists about a text run's characters.
#[derive(Drop)]
struct RunTable {
    lengths: Vec<u16>,
    starts: Vec<u16>,
    positions: Option<Vec<i32>>,
    widths: Option<Vec<i32>>,
}

impl RunTable {
    fn new(alloc: Global) -> RunTable
        ensures { table_data result ≡ no_lists }
    {
        RunTable {
            lengths: Vec::new(alloc),
            starts: Vec::new(alloc),
            positions: None,
            widths: None,
        }
    }

    /// Puts a list in place of the one of its kind.
    fn put(&mut self, list: RunList)
        ensures { table_data self.new ≡ with_list list (table_data self.old) }
    {
        match list {
            RunList::Lengths(lengths) => self.lengths = lengths,
            RunList::Starts(starts) => self.starts = starts,
            RunList::Positions(positions) => self.positions = positions,
            RunList::Widths(widths) => self.widths = widths,
        }
    }
}

/// One of the lists, or `None` for one that may be unset.
#[derive(Drop)]
pub(crate) enum RunList {
    Lengths(Vec<u16>),
    Starts(Vec<u16>),
    Positions(Option<Vec<i32>>),
    Widths(Option<Vec<i32>>),
}

/// The value and the lists of a node that has one of them. Whether they fit together is found out once, by
/// [`RunText::note_fit`], and forgotten as soon as one of them is set.
#[derive(Drop)]
struct KeptText {
    value: String,
    lists: RunTable,
    has_value: bool,
    is_fit: bool,
}

impl Model for KeptText {
    ghost use Rattle.schema.specs.RunFits.{RunTextData};
    ghost use Rattle.schema.specs.KeptTexts.{text_data, IsMarkRight};

    ghost Value = { RunTextData };

    ghost view = { text_data };

    ghost invariant = { IsMarkRight };
}

impl KeptText {
    /// No value and no list.
    fn new(alloc: Global) -> KeptText
        ensures { result ≡ no_text }
    {
        KeptText {
            value: String::new(alloc),
            lists: RunTable::new(alloc),
            has_value: false,
            is_fit: false,
        }
    }

    /// The value.
    fn value(&self) -> Option<&str>
        ensures { option_copied result ≡ self.now.value }
    {
        if self.has_value {
            return Some(self.value.as_str());
        }
        None
    }

    /// The length of each character, in bytes.
    fn lengths(&self) -> &[u16]
        ensures { result.now ≡ self.now.lists.lengths }
    {
        self.lists.lengths.as_slice()
    }

    /// The index of the first character of each word.
    fn starts(&self) -> &[u16]
        ensures { result.now ≡ self.now.lists.starts }
    {
        self.lists.starts.as_slice()
    }

    /// Where each character begins, in units of 1/64 pixel.
    fn positions(&self) -> Option<&[i32]>
        ensures { option_copied result ≡ self.now.lists.positions }
    {
        slice_of(&self.lists.positions)
    }

    /// The width of each character, in units of 1/64 pixel.
    fn widths(&self) -> Option<&[i32]>
        ensures { option_copied result ≡ self.now.lists.widths }
    {
        slice_of(&self.lists.widths)
    }

    /// Sets the value.
    fn set_value(&mut self, value: String)
        ensures { self.new ≡ record self.old { value = Some (string_bytes value) } }
    {
        self.value = value;
        self.has_value = true;
        self.is_fit = false;
    }

    /// Clears the value.
    fn clear_value(&mut self, alloc: Global)
        ensures { self.new ≡ record self.old { value = None } }
    {
        self.value = String::new(alloc);
        self.has_value = false;
        self.is_fit = false;
    }

    /// Sets one of the lists.
    fn set_list(&mut self, list: RunList)
        ensures { self.new ≡ record self.old { lists = with_list list self.old.lists } }
    {
        self.is_fit = false;
        self.lists.put(list);
    }

    /// A copy of the value and the lists.
    fn copy(&self, alloc: Global) -> Result<KeptText, AllocError>
        ensures { IfOk result (λ copy. copy ≡ self.now) }
    {
        Ok(KeptText {
            value: String::from_str(alloc, self.value.as_str())?,
            lists: copy_of_table(alloc, &self.lists)?,
            has_value: self.has_value,
            is_fit: false,
        })
    }

    /// Whether the value and the lists fit together.
    fn fits(&self) -> bool
        ensures { result ≡ fit_together self.now }
    {
        let count = self.lengths().len();
        is_cut_by(self.value().unwrap_or(""), self.lengths())
            && rise_below(self.starts(), count)
            && has_count(self.positions(), count)
            && has_count(self.widths(), count)
    }

    /// Finds out whether the value and the lists fit together, and keeps that.
    fn note_fit(&mut self)
        ensures { self.new ≡ self.old }
    {
        self.is_fit = self.fits();
    }

    /// Whether the value and the lists are known to fit together.
    fn is_known_to_fit(&self) -> bool
        ensures { IsTrue result → IsTrue (fit_together self.now) }
    {
        self.is_fit
    }
}

/// The value and the lists about its characters. Nothing is allocated until the first of them is set.
#[derive(Drop)]
pub(crate) struct RunText {
    kept: Option<Box<KeptText>>,
}

impl Model for RunText {
    ghost use Rattle.std.specs.Option.{option_map_or};
    ghost use Rattle.schema.specs.RunFits.{RunTextData, no_text};

    ghost Value = { RunTextData };

    ghost view = { λ a. option_map_or (λ kept. kept.value) a.kept no_text };
}

impl RunText {
    /// No value and no list.
    pub(crate) fn new() -> RunText
        ensures { result ≡ no_text }
    {
        RunText { kept: None }
    }

    /// Whether none of them was ever set.
    #[inline(always)]
    pub(crate) fn is_empty(&self) -> bool
        ensures { IsTrue result → self.now ≡ no_text }
    {
        self.kept.is_none()
    }

    /// The value.
    pub(crate) fn value(&self) -> Option<&str>
        ensures { option_copied result ≡ self.now.value }
    {
        match &self.kept {
            Some(kept) => kept.value(),
            None => None,
        }
    }

    /// The length of each character, in bytes.
    pub(crate) fn lengths(&self) -> &[u16]
        ensures { result.now ≡ self.now.lists.lengths }
    {
        match &self.kept {
            Some(kept) => kept.lengths(),
            None => &[],
        }
    }

    /// The index of the first character of each word.
    pub(crate) fn starts(&self) -> &[u16]
        ensures { result.now ≡ self.now.lists.starts }
    {
        match &self.kept {
            Some(kept) => kept.starts(),
            None => &[],
        }
    }

    /// Where each character begins, in units of 1/64 pixel.
    pub(crate) fn positions(&self) -> Option<&[i32]>
        ensures { option_copied result ≡ self.now.lists.positions }
    {
        match &self.kept {
            Some(kept) => kept.positions(),
            None => None,
        }
    }

    /// The width of each character, in units of 1/64 pixel.
    pub(crate) fn widths(&self) -> Option<&[i32]>
        ensures { option_copied result ≡ self.now.lists.widths }
    {
        match &self.kept {
            Some(kept) => kept.widths(),
            None => None,
        }
    }

    /// Sets the value.
    pub(crate) fn set_value(&mut self, alloc: Global, value: String) -> Result<(), AllocError>
        ensures ok { OnOk result (self.new ≡ record self.old { value = Some (string_bytes value) }) }
        ensures err { OnErr result (self.new ≡ self.old) }
    {
        if let Some(kept) = &mut self.kept {
            kept.set_value(value);
            return Ok(());
        }
        let mut kept = KeptText::new(alloc);
        kept.set_value(value);
        self.kept = Some(Box::new(alloc, kept)?);
        Ok(())
    }

    /// Clears the value.
    pub(crate) fn clear_value(&mut self, alloc: Global)
        ensures { self.new ≡ record self.old { value = None } }
    {
        if let Some(kept) = &mut self.kept {
            kept.clear_value(alloc);
        }
    }

    /// Sets one of the lists.
    pub(crate) fn set_list(&mut self, alloc: Global, list: RunList) -> Result<(), AllocError>
        ensures ok { OnOk result (self.new ≡ record self.old { lists = with_list list self.old.lists }) }
        ensures err { OnErr result (self.new ≡ self.old) }
    {
        if let Some(kept) = &mut self.kept {
            kept.set_list(list);
            return Ok(());
        }
        let mut kept = KeptText::new(alloc);
        kept.set_list(list);
        self.kept = Some(Box::new(alloc, kept)?);
        Ok(())
    }

    /// Sets one of the lists to an empty one, which needs no memory.
    pub(crate) fn clear_list(&mut self, list: RunList)
        requires { with_list list no_lists ≡ no_lists }
        ensures { self.new ≡ record self.old { lists = with_list list self.old.lists } }
    {
        if let Some(kept) = &mut self.kept {
            kept.set_list(list);
        }
    }

    /// A copy of the value and the lists.
    pub(crate) fn copy(&self, alloc: Global) -> Result<RunText, AllocError>
        ensures { IfOk result (λ copy. copy ≡ self.now) }
    {
        match &self.kept {
            Some(kept) => {
                let copy = kept.copy(alloc)?;
                let kept = Box::new(alloc, copy)?;
                Ok(RunText { kept: Some(kept) })
            }
            None => Ok(RunText { kept: None }),
        }
    }

    /// Finds out whether the value and the lists fit together, and keeps that. Where there are none, nothing is done.
    pub(crate) fn note_fit(&mut self)
        ensures { self.new ≡ self.old }
    {
        if let Some(kept) = &mut self.kept {
            kept.note_fit();
        }
    }

    /// Whether the value and the lists are known to fit together.
    pub(crate) fn is_known_to_fit(&self) -> bool
        ensures { IsTrue result → IsTrue (fit_together self.now) }
    {
        match &self.kept {
            Some(kept) => kept.is_known_to_fit(),
            None => false,
        }
    }
}

fn slice_of(list: &Option<Vec<i32>>) -> Option<&[i32]>
    ensures { option_copied result ≡ option_map (λ v. v.items) list.now }
{
    list.as_ref().map(|list| list.as_slice())
}

fn copy_of_table(alloc: Global, table: &RunTable) -> Result<RunTable, AllocError>
    ensures { IfOk result (λ copy. table_data copy ≡ table_data table.now) }
{
    let lengths = Vec::from_slice(alloc, table.lengths.as_slice())?;
    let starts = Vec::from_slice(alloc, table.starts.as_slice())?;
    let positions = copy_of_ints(alloc, &table.positions)?;
    let widths = copy_of_ints(alloc, &table.widths)?;
    Ok(RunTable {
        lengths,
        starts,
        positions,
        widths,
    })
}

fn copy_of_ints(alloc: Global, list: &Option<Vec<i32>>) -> Result<Option<Vec<i32>>, AllocError>
    ensures { IfOk result (λ copy. option_map (λ v. v.items) copy ≡ option_map (λ v. v.items) list.now) }
{
    match list {
        Some(list) => Ok(Some(Vec::from_slice(alloc, list.as_slice())?)),
        None => Ok(None),
    }
}

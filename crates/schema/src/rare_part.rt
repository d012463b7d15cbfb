//! What few nodes have: who labels them, what they control, and the rarer texts. It is stored apart from the node, so that other
//! nodes stay small.

ghost use Rattle.std.specs.Prelude.{◌≡◌, ◌++◌, ◌∷◌, [], Some, None, OnOk, OnErr, IfOk, IsTrue, option_copied, string_bytes};
ghost use Rattle.schema.specs.RarePart.{no_rare, rare_data};
ghost use Rattle.schema.specs.RareTexts.{text_under, IsSetUnder};

use crate::NodeId;
use crate::rare_texts::{RareText, RareTexts};
use std::alloc::{AllocError, Global};
use std::marker::Model;

#[derive(Drop)]
struct Rare {
    labelled_by: Vec<NodeId>,
    controls: Vec<NodeId>,
    texts: RareTexts,
}

impl Rare {
    fn new(alloc: Global) -> Rare
        ensures { rare_data result ≡ no_rare }
    {
        Rare {
            labelled_by: Vec::new(alloc),
            controls: Vec::new(alloc),
            texts: RareTexts::new(alloc),
        }
    }

    /// A copy of the lists and the texts.
    fn copy(&self, alloc: Global) -> Result<Rare, AllocError>
        ensures { IfOk result (λ copy. rare_data copy ≡ rare_data self.now) }
    {
        Ok(Rare {
            labelled_by: Vec::from_slice(alloc, self.labelled_by.as_slice())?,
            controls: Vec::from_slice(alloc, self.controls.as_slice())?,
            texts: self.texts.copy(alloc)?,
        })
    }
}

/// The rare part of a node. Nothing is allocated until one of its lists or texts is set.
#[derive(Drop)]
pub(crate) struct RarePart {
    rare: Option<Box<Rare>>,
}

impl Model for RarePart {
    ghost use Rattle.std.specs.Option.{option_map_or};
    ghost use Rattle.schema.specs.RarePart.{RareData, no_rare, rare_data};

    ghost Value = { RareData };

    ghost view = { λ a. option_map_or (λ rare. rare_data rare.value) a.rare no_rare };
}

impl RarePart {
    /// Nothing.
    pub(crate) fn new() -> RarePart
        ensures { result ≡ no_rare }
    {
        RarePart { rare: None }
    }

    /// Whether nothing was ever set.
    #[inline(always)]
    pub(crate) fn is_empty(&self) -> bool
        ensures { IsTrue result → self.now ≡ no_rare }
    {
        self.rare.is_none()
    }

    /// Takes out the part, or makes an empty one.
    fn take_out(&mut self, alloc: Global) -> Result<Box<Rare>, AllocError>
        ensures ok { IfOk result (λ rare. rare_data rare.value ≡ self.old) }
        ensures err { OnErr result (self.new ≡ self.old) }
    {
        match self.rare.take() {
            Some(rare) => Ok(rare),
            None => Ok(Box::new(alloc, Rare::new(alloc))?),
        }
    }

    /// The text under a key.
    pub(crate) fn text(&self, key: RareText) -> Option<&str>
        ensures { option_copied result ≡ text_under key self.now.texts }
    {
        match &self.rare {
            Some(rare) => rare.texts.get(key),
            None => None,
        }
    }

    /// Sets one of the texts.
    pub(crate) fn set_text(
        &mut self,
        alloc: Global,
        key: RareText,
        text: String,
    ) -> Result<(), AllocError>
        ensures texts { OnOk result (IsSetUnder key (Some (string_bytes text)) self.old.texts self.new.texts) }
        ensures labelled_by { OnOk result (self.new.labelled_by ≡ self.old.labelled_by) }
        ensures controls { OnOk result (self.new.controls ≡ self.old.controls) }
        ensures err { OnErr result (self.new ≡ self.old) }
    {
        let mut rare = self.take_out(alloc)?;
        let set = rare.texts.set(key, text);
        self.rare = Some(rare);
        set
    }

    /// Clears one of the texts.
    pub(crate) fn clear_text(&mut self, key: RareText)
        ensures texts { IsSetUnder key None self.old.texts self.new.texts }
        ensures labelled_by { self.new.labelled_by ≡ self.old.labelled_by }
        ensures controls { self.new.controls ≡ self.old.controls }
    {
        if let Some(rare) = &mut self.rare {
            rare.texts.clear(key);
        }
    }

    /// A copy of the part.
    pub(crate) fn copy(&self, alloc: Global) -> Result<RarePart, AllocError>
        ensures { IfOk result (λ copy. copy ≡ self.now) }
    {
        match &self.rare {
            Some(rare) => {
                let copy = rare.copy(alloc)?;
                let rare = Box::new(alloc, copy)?;
                Ok(RarePart { rare: Some(rare) })
            }
            None => Ok(RarePart { rare: None }),
        }
    }

    /// The ids of the nodes that label this one.
    pub(crate) fn labelled_by(&self) -> &[NodeId]
        ensures { result.now ≡ self.now.labelled_by }
    {
        match &self.rare {
            Some(rare) => rare.labelled_by.as_slice(),
            None => &[],
        }
    }

    /// Sets them.
    pub(crate) fn set_labelled_by(
        &mut self,
        alloc: Global,
        ids: Vec<NodeId>,
    ) -> Result<(), AllocError>
        ensures ok { OnOk result (self.new ≡ record self.old { labelled_by = ids.items }) }
        ensures err { OnErr result (self.new ≡ self.old) }
    {
        let mut rare = self.take_out(alloc)?;
        rare.labelled_by = ids;
        self.rare = Some(rare);
        Ok(())
    }

    /// Adds an id at their end.
    pub(crate) fn push_labelled_by(&mut self, alloc: Global, id: NodeId) -> Result<(), AllocError>
        ensures ok { OnOk result (self.new ≡ record self.old { labelled_by = self.old.labelled_by ++ id ∷ [] }) }
        ensures err { OnErr result (self.new ≡ self.old) }
    {
        let mut rare = self.take_out(alloc)?;
        let pushed = rare.labelled_by.push(id);
        self.rare = Some(rare);
        pushed?;
        Ok(())
    }

    /// Clears them.
    pub(crate) fn clear_labelled_by(&mut self, alloc: Global)
        ensures { self.new ≡ record self.old { labelled_by = [] } }
    {
        if let Some(rare) = &mut self.rare {
            rare.labelled_by = Vec::new(alloc);
        }
    }

    /// The ids of the nodes that this one controls.
    pub(crate) fn controls(&self) -> &[NodeId]
        ensures { result.now ≡ self.now.controls }
    {
        match &self.rare {
            Some(rare) => rare.controls.as_slice(),
            None => &[],
        }
    }

    /// Sets them.
    pub(crate) fn set_controls(&mut self, alloc: Global, ids: Vec<NodeId>) -> Result<(), AllocError>
        ensures ok { OnOk result (self.new ≡ record self.old { controls = ids.items }) }
        ensures err { OnErr result (self.new ≡ self.old) }
    {
        let mut rare = self.take_out(alloc)?;
        rare.controls = ids;
        self.rare = Some(rare);
        Ok(())
    }

    /// Adds an id at their end.
    pub(crate) fn push_controls(&mut self, alloc: Global, id: NodeId) -> Result<(), AllocError>
        ensures ok { OnOk result (self.new ≡ record self.old { controls = self.old.controls ++ id ∷ [] }) }
        ensures err { OnErr result (self.new ≡ self.old) }
    {
        let mut rare = self.take_out(alloc)?;
        let pushed = rare.controls.push(id);
        self.rare = Some(rare);
        pushed?;
        Ok(())
    }

    /// Clears them.
    pub(crate) fn clear_controls(&mut self, alloc: Global)
        ensures { self.new ≡ record self.old { controls = [] } }
    {
        if let Some(rare) = &mut self.rare {
            rare.controls = Vec::new(alloc);
        }
    }
}

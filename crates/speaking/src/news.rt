//! What is new in live regions in a step: which nodes, and in which regions.
ghost use Rattle.std.specs.Prelude.{◌≡◌, ◌↔◌, IsTrue, OnOk, option_copied};
ghost use Rattle.speaking.specs.News.{no_news, is_region_of, is_new, HasNoRegion, IsNoted, Notes};

use accesskit_consumer::FullNodeId;
use std::alloc::{AllocError, Global};
use std::collections::BTreeSet;

/// What is new in live regions.
#[derive(Drop)]
pub(crate) struct News {
    /// The nodes whose texts are new.
    nodes: BTreeSet<FullNodeId>,
    /// The regions in which they are.
    regions: BTreeSet<FullNodeId>,
}

impl News {
    /// Nothing is new.
    pub(crate) fn new(alloc: Global) -> News
        ensures { result ≡ no_news }
    {
        News {
            nodes: BTreeSet::new(alloc),
            regions: BTreeSet::new(alloc),
        }
    }

    /// Whether anything is new in this region.
    pub(crate) fn is_in(&self, region: FullNodeId) -> bool
        ensures { result ≡ is_region_of self.now region }
    {
        self.regions.contains(&region)
    }

    /// Whether this node's text is new.
    pub(crate) fn has(&self, node: FullNodeId) -> bool
        ensures { result ≡ is_new self.now node }
    {
        self.nodes.contains(&node)
    }

    /// Whether nothing is new.
    pub(crate) fn is_empty(&self) -> bool
        ensures { IsTrue result ↔ HasNoRegion self.now }
    {
        self.regions.is_empty()
    }

    /// Notes that the text of a node in this region is new.
    fn add(&mut self, node: FullNodeId, region: FullNodeId) -> Result<(), AllocError>
        ensures { OnOk result (IsNoted node region self.old self.new) }
    {
        self.nodes.insert(node)?;
        self.regions.insert(region)?;
        Ok(())
    }

    /// Notes that this text of the node is new, if there is one, and the node is in a region.
    ///
    /// # Errors
    ///
    /// Returns `AllocError` if memory runs out.
    pub(crate) fn note(
        &mut self,
        node: FullNodeId,
        region: Option<FullNodeId>,
        text: Option<&str>,
    ) -> Result<(), AllocError>
        ensures { OnOk result (Notes node region (option_copied text.entry) self.old self.new) }
    {
        match (region, text) {
            (Some(region), Some(_)) => self.add(node, region),
            (Some(_), None) | (None, _) => Ok(()),
        }
    }
}

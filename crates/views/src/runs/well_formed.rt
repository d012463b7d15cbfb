//! Whether a node's runs make a text that can be walked by characters, and why not.
ghost use Rattle.std.specs.Prelude.{◌≡◌, ◌==◌, ◌||◌, is_none, length};
ghost use Rattle.model.specs.TextRuns.{is_password, run_ids, sent_runs, supports_text_ranges};
ghost use Rattle.model.specs.RoleClasses.{holds_text};
ghost use Rattle.views.specs.Nodes.{world_at, id_at, data_at};
ghost use Rattle.views.specs.Runs.{sent_of, sents_after, IsFirstOf};
ghost use Rattle.views.specs.TextDefects.{first_defect, text_defect};
ghost use Rattle.views.specs.DefectWalks.{defect_from};

use crate::node::NodeRef;
use crate::runs::Run;
use crate::runs::defects::{RunDefect, TextDefect};
use crate::runs::rules::{defect_between, last_defect, own_defect};

/// The first defect of a first run and those after it, without the first one's link back.
fn defect_from(first: Run<'_>, tree: u32, password: bool) -> Option<TextDefect>
    ensures { result ≡ defect_from tree password 0 (sent_of first.entry) (sents_after first.entry) }
{
    let mut run = first;
    let mut size = 0usize;
    loop {
        let sent = run.spot.member;
        if let Some(defect) = own_defect(sent, tree, password) {
            return Some(TextDefect::Run {
                id: sent.id,
                defect,
            });
        }
        let Some(sum) = size.checked_add(sent.value().len()) else {
            return Some(TextDefect::Run {
                id: sent.id,
                defect: RunDefect::TooLong,
            });
        };
        if !run.step() {
            return last_defect(sent);
        }
        if let Some(defect) = defect_between(sent, run.spot.member) {
            return Some(defect);
        }
        size = sum;
    }
}

/// The first defect of a node's runs, of which this is the first one.
fn first_defect(root: NodeRef<'_>, first: Run<'_>) -> Option<TextDefect>
    requires { IsFirstOf root first }
    ensures { let w = world_at root.entry in let id = id_at root.entry in
        result ≡ first_defect id.tree (is_password w id) (sent_runs w id) }
{
    if let Some(link) = first.node().previous_on_line() {
        return Some(TextDefect::Run {
            id: first.id(),
            defect: RunDefect::PreviousLink(link),
        });
    }
    defect_from(first, root.id.tree, root.is_password_input())
}

/// Whether the node's role is one whose runs can make a text.
fn holds_text(node: NodeRef<'_>) -> bool
    ensures { result ≡ holds_text (data_at node.entry).role }
{
    node.is_text_input() || node.is_document() || node.label_comes_from_value()
}

impl NodeRef<'_> {
    /// Whether the node's runs make a text that can be walked by characters. This needs all of the following: its role
    /// holds text; there is a run; all runs are in its own tree; each run's lengths cut its value into characters with
    /// nothing left over; word starts rise and are below the number of characters; no run but the last is empty;
    /// neighbours are linked both ways or not at all, and no other runs are linked; all values together have at most
    /// `usize::MAX` bytes; positions and widths, if given, are one for each character (for a password, at least one).
    pub fn supports_text_ranges(&self) -> bool
        ensures { result ≡ supports_text_ranges (world_at self.now) (id_at self.now) }
    {
        if !holds_text(*self) {
            return false;
        }
        let Some(first) = Run::first(*self) else {
            return false;
        };
        first_defect(*self, first).is_none()
    }

    /// Why the node's runs make no text, or `None` if they make one.
    ///
    /// It is the role, if that holds no text, or else the first run in the order of the tree that breaks a rule, with
    /// the first rule that it breaks in the order of [`RunDefect`]. It is `None` too if there are no runs, whatever the
    /// role.
    pub fn text_defect(&self) -> Option<TextDefect>
        ensures exact { result ≡ text_defect (world_at self.now) (id_at self.now) }
        ensures none { let w = world_at self.now in let id = id_at self.now in
            is_none result ≡ (length (run_ids w id) == 0 || supports_text_ranges w id) }
    {
        let Some(first) = Run::first(*self) else {
            return None;
        };
        if !holds_text(*self) {
            return Some(TextDefect::Role);
        }
        first_defect(*self, first)
    }
}

//! The runs of a text: a walk over them in order, and steps from a run to its neighbours. Nothing here allocates.
mod defects;
mod rules;
mod well_formed;

ghost use Rattle.std.specs.Prelude.{◌≡◌};
ghost use Rattle.model.specs.TextRuns.{run_filter};
ghost use Rattle.views.specs.Nodes.{world_at, id_at};
ghost use Rattle.views.specs.RunPlaces.{IsRunPlace, IsRunPlace-prop};

use crate::node::NodeRef;
use crate::walks::ends::{following, preceding};
use crate::walks::filter::Filter;
use crate::walks::searches::{next_shown, previous_shown};
use crate::walks::spot::{Member, Spot};
pub use defects::{RunDefect, TextDefect};
use model::filters::FilterResult;
use model::{FullNodeId, is_same};
use schema::{Node, Role, WideTranslation};

/// The filter that includes the runs of a root. It looks into all other nodes, but not into runs.
#[derive(Clone, Copy)]
struct RunFilter {
    root: FullNodeId,
}

impl Filter for RunFilter {
    ghost can_answer = { λ s. Unit {0} };

    ghost answers = { λ s n r. r ≡ run_filter (world_at n) s.root (id_at n) };

    fn answer(&self, node: &NodeRef<'_>) -> FilterResult {
        if is_same(node.id, self.root) {
            return FilterResult::Include;
        }
        if node.role() == Role::TextRun {
            return FilterResult::Include;
        }
        FilterResult::ExcludeNode
    }
}

impl<'a> Member<'a> {
    ghost use Rattle.model.specs.TextRuns.{run_value, said_count};
    ghost use Rattle.views.specs.Runs.{sent_as};

    /// The text of a run; empty if it has no value.
    pub(crate) fn value(self) -> &'a str
        ensures { result.now ≡ run_value (sent_as self.entry) }
    {
        self.node.value().unwrap_or("")
    }

    /// The number of characters of a run, by its list of lengths.
    pub(crate) fn character_count(self) -> usize
        ensures { result ≡ said_count (sent_as self.entry) }
    {
        self.node.character_lengths().len()
    }
}

/// A run of a root, with its place.
#[derive(Clone, Copy)]
pub struct Run<'a> {
    pub root: NodeRef<'a>,
    pub spot: Spot<'a>,
    ghost known: { IsRunPlace (world_at root) (id_at root) spot } by { IsRunPlace-prop (world_at root) (id_at root) spot },
}

impl<'a> Run<'a> {
    ghost use Rattle.std.specs.Prelude.{[], IfSome, MatchOption, MatchBool};
    ghost use Rattle.model.specs.TextRuns.{run_ids, run_value, said_count, ends_with_newline};
    ghost use Rattle.model.specs.Geometry.{transform, transform_within};
    ghost use Rattle.views.specs.Reach.{IsInReach};
    ghost use Rattle.views.specs.Runs.{text_root_of, root_id, run_world, run_id, run_of, sent_of, IsFirstOf, IsLastOf, IsAfter, IsPreviousRun, IsSpotAfter, StaysLast, ids_after, ids_before};

    /// The first run of a root, if there is one.
    pub fn first(root: NodeRef<'a>) -> Option<Run<'a>>
        ensures { let ids = run_ids (world_at root.entry) (id_at root.entry) in
            MatchOption result (ids ≡ []) (IsFirstOf root.entry) }
    {
        let state = root.state;
        state.know();
        let top = Member {
            id: root.id,
            node: root.node,
            place: root.place,
        };
        match next_shown(state, root.id, top, 0, &RunFilter { root: root.id }) {
            Some(spot) => Some(Run { root, spot }),
            None => None,
        }
    }

    /// The last run of a root, if there is one.
    pub fn last(root: NodeRef<'a>) -> Option<Run<'a>>
        ensures { let ids = run_ids (world_at root.entry) (id_at root.entry) in
            MatchOption result (ids ≡ []) (IsLastOf root.entry) }
    {
        let state = root.state;
        state.know();
        let top = Member {
            id: root.id,
            node: root.node,
            place: root.place,
        };
        let count = state.child_count(top);
        match previous_shown(state, root.id, top, count, &RunFilter { root: root.id }) {
            Some(spot) => Some(Run { root, spot }),
            None => None,
        }
    }

    /// The next sibling, if it is a run.
    #[inline(always)]
    fn beside(self) -> Option<Spot<'a>>
        ensures { IfSome result (IsSpotAfter self.entry) }
    {
        let state = self.root.state;
        state.know();
        let index = self.spot.index.checked_add(1)?;
        let spot = state.child(self.spot.parent, index)?;
        match spot.member.node.role() {
            Role::TextRun => Some(spot),
            _ => None,
        }
    }

    /// The place of the next run, if there is one. It looks at the next sibling first, since that is mostly a run.
    #[inline(always)]
    fn spot_after(self) -> Option<Spot<'a>>
        ensures { MatchOption result (ids_after self.entry ≡ []) (IsSpotAfter self.entry) }
    {
        match self.beside() {
            Some(spot) => Some(spot),
            None => self.spot_by_walk(),
        }
    }

    /// The place of the next run, if there is one, by a walk over all that follows.
    #[inline(never)]
    fn spot_by_walk(self) -> Option<Spot<'a>>
        ensures { MatchOption result (ids_after self.entry ≡ []) (IsSpotAfter self.entry) }
    {
        let root = self.root;
        following(root.state, root.id, self.spot, &RunFilter { root: root.id })
    }

    /// The next run, if there is one.
    #[inline(always)]
    pub fn next(self) -> Option<Run<'a>>
        ensures { MatchOption result (ids_after self.entry ≡ []) (IsAfter self.entry) }
    {
        let root = self.root;
        root.state.know();
        match self.spot_after() {
            Some(spot) => Some(Run { root, spot }),
            None => None,
        }
    }

    /// Goes on to the next run, and returns whether there was one; if not, the run is unchanged. Only the place is
    /// written, so this costs less than [`Run::next`] in a loop.
    #[inline(always)]
    pub fn step(&mut self) -> bool
        ensures { MatchBool result (IsAfter self.old self.new) (StaysLast self.old self.new) }
    {
        match self.beside() {
            Some(spot) => {
                self.go_to(spot);
                true
            }
            None => self.step_by_walk(),
        }
    }

    /// Goes on to the next run by a walk, as [`Run::step`]. It is never inlined, so that a step to a sibling stays short.
    #[inline(never)]
    fn step_by_walk(&mut self) -> bool
        ensures { MatchBool result (IsAfter self.old self.new) (StaysLast self.old self.new) }
    {
        match self.spot_by_walk() {
            Some(spot) => {
                self.go_to(spot);
                true
            }
            None => false,
        }
    }

    // goes on to the next run, which has this place
    #[inline(always)]
    fn go_to(&mut self, spot: Spot<'a>)
        requires { IsSpotAfter self.old spot }
        ensures { IsAfter self.old self.new }
    {
        self.root.state.know();
        self.spot = spot;
    }

    /// The previous run, if there is one.
    pub fn previous(self) -> Option<Run<'a>>
        ensures { MatchOption result (ids_before self.entry ≡ []) (IsPreviousRun self.entry) }
    {
        let root = self.root;
        root.state.know();
        match preceding(root.state, root.id, self.spot, &RunFilter { root: root.id }) {
            Some(spot) => Some(Run { root, spot }),
            None => None,
        }
    }

    /// The root of the text that the run belongs to.
    pub fn root(self) -> NodeRef<'a>
        ensures { result ≡ text_root_of self.entry }
    {
        self.root
    }

    /// The id of the run's node.
    pub fn id(self) -> FullNodeId
        ensures { result ≡ run_id self.entry }
    {
        self.spot.member.id
    }

    /// The run's data, as sent in updates.
    pub fn node(self) -> &'a Node
        ensures { result.now ≡ (sent_of self.entry).node }
    {
        self.spot.member.node
    }

    /// The text of the run; empty if it has no value.
    pub fn value(self) -> &'a str
        ensures { result.now ≡ run_value (sent_of self.entry) }
    {
        self.spot.member.value()
    }

    /// The number of characters of the run, by its list of lengths.
    pub fn character_count(self) -> usize
        ensures { result ≡ said_count (sent_of self.entry) }
    {
        self.spot.member.character_count()
    }

    /// Whether the run's text ends with a newline.
    pub fn ends_with_newline(self) -> bool
        ensures { result ≡ ends_with_newline (sent_of self.entry) }
    {
        self.value().as_bytes().ends_with(b"\n")
    }

    /// The run as a node.
    pub fn view(self) -> NodeRef<'a>
        ensures world { world_at result ≡ world_at (text_root_of self.entry) }
        ensures is { run_of result ≡ sent_of self.entry }
    {
        self.root.state.view(self.spot.member)
    }

    /// The sum of the translations of the run and all its ancestors. Adding a rectangle to it doesn't overflow.
    pub fn whole_move(self) -> WideTranslation
        ensures exact { result ≡ transform (run_world self.entry) (run_id self.entry) }
        ensures across { IsInReach result.x }
        ensures along { IsInReach result.y }
    {
        self.view().whole_move()
    }

    /// The sum of the translations of the run and the nodes between it and the root. Adding a rectangle to it doesn't
    /// overflow.
    pub fn move_in_root(self) -> WideTranslation
        ensures exact { result ≡
            transform_within (run_world self.entry) (root_id self.entry) (run_id self.entry) }
        ensures across { IsInReach result.x }
        ensures along { IsInReach result.y }
    {
        self.view().move_to_top(Some(self.root.id))
    }
}

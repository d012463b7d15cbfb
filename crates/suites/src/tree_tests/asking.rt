//! What views show while a handler is called, and while an update is prepared.

ghost use Rattle.std.specs.Prelude.{⊤};

use crate::sketches::ids::id;
use crate::sketches::recorder::Told::{Added, FocusMoved, Removed, Updated};
use crate::sketches::recorder::{Id, Told, id_of, pair};
use crate::sketches::updates::{
    CHILD_MOVED, FAMILY, INNER_DOCUMENT, INNER_MOVED, OUTER_DOCUMENT, WINDOW,
};
use crate::sketches::{Sent, grown_by, send};
use accesskit_consumer::tree::PlanEvent;
use std::alloc::Global;
use std::test::Fail;
use trees::{Prepared, Tree, TreeChangeHandler};
use views::{NodeRef, StateRef};

/// Where a state has a node: its parent and its first child.
type Kin = (Option<Id>, Option<Id>);

/// Where a state has these nodes, if it has them.
type Shown = [(Id, Option<Kin>); 4];

/// An update after others, what is told of it, and what the old state and the new one show meanwhile.
struct Case {
    before: &'static [Sent],
    sent: Sent,
    told: &'static [Told],
    old: Shown,
    new: Shown,
}

/// Asks the states of the views that it is told with.
#[derive(Drop)]
struct Asker {
    case: &'static Case,
    count: usize,
    /// Whether each call was the next one, and each state showed what it has.
    is_right: bool,
}

impl Asker {
    fn ask(&mut self, told: Told, old: Option<&NodeRef>, new: Option<&NodeRef>) {
        let is_next = self.case.told.get(self.count) == Some(&told);
        let are_shown = shows(old, &self.case.old) && shows(new, &self.case.new);
        self.is_right = self.is_right && is_next && are_shown;
        self.count = self.count.saturating_add(1);
    }
}

fn parent(node: &NodeRef) -> Option<Id> {
    match node.parent_id() {
        Some(parent) => Some(pair(parent)),
        None => None,
    }
}

fn first_child(node: &NodeRef) -> Option<Id> {
    match node.child_ids().next() {
        Some(child) => Some(pair(child)),
        None => None,
    }
}

fn kin_in(state: StateRef, (tree, node): Id) -> Option<Kin> {
    match state.node_by_id(id(tree, node)) {
        Some(node) => Some((parent(&node), first_child(&node))),
        None => None,
    }
}

/// Whether the state of a view, if there is one, shows this.
fn shows(beside: Option<&NodeRef>, shown: &Shown) -> bool {
    match beside {
        Some(node) => is_shown_by(node.tree_state(), shown),
        None => true,
    }
}

/// Whether a state shows this.
fn is_shown_by(state: StateRef, shown: &Shown) -> bool {
    for (id, kin) in shown {
        if kin_in(state, *id) != *kin {
            return false;
        }
    }
    true
}

impl TreeChangeHandler for Asker {
    ghost steps = { λ _ _ _. ⊤ };

    fn node_added(&mut self, node: &NodeRef) {
        let (tree, id) = pair(node.id());
        self.ask(Added(tree, id), None, Some(node));
    }

    fn node_updated(&mut self, old_node: &NodeRef, new_node: &NodeRef) {
        let (tree, id) = pair(new_node.id());
        self.ask(Updated(tree, id), Some(old_node), Some(new_node));
    }

    fn focus_moved(&mut self, old_node: Option<&NodeRef>, new_node: Option<&NodeRef>) {
        let told = FocusMoved(id_of(old_node), id_of(new_node));
        self.ask(told, old_node, new_node);
    }

    fn node_removed(&mut self, node: &NodeRef) {
        let (tree, id) = pair(node.id());
        self.ask(Removed(tree, id), Some(node), None);
    }
}

/// A child moves between its parents. A graft moves out of a tree that goes: the old views show that tree to the end, and
/// the new views don't show it from the beginning.
static CASES: [Case; 2] = [
    Case {
        before: &[FAMILY],
        sent: CHILD_MOVED,
        told: &[Updated(0, 1), Updated(0, 2), Updated(0, 3)],
        old: [
            ((0, 0), Some((None, Some((0, 1))))),
            ((0, 1), Some((Some((0, 0)), Some((0, 3))))),
            ((0, 2), Some((Some((0, 0)), None))),
            ((0, 3), Some((Some((0, 1)), None))),
        ],
        new: [
            ((0, 0), Some((None, Some((0, 1))))),
            ((0, 1), Some((Some((0, 0)), None))),
            ((0, 2), Some((Some((0, 0)), Some((0, 3))))),
            ((0, 3), Some((Some((0, 2)), None))),
        ],
    },
    Case {
        before: &[WINDOW, OUTER_DOCUMENT, INNER_DOCUMENT],
        sent: INNER_MOVED,
        told: &[
            Added(0, 2),
            Updated(0, 0),
            Updated(2, 0),
            Removed(0, 1),
            Removed(1, 0),
            Removed(1, 1),
        ],
        old: [
            ((0, 1), Some((Some((0, 0)), Some((1, 0))))),
            ((0, 2), None),
            ((1, 0), Some((Some((0, 1)), Some((1, 1))))),
            ((2, 0), Some((Some((1, 1)), Some((2, 1))))),
        ],
        new: [
            ((0, 1), None),
            ((0, 2), Some((Some((0, 0)), Some((2, 0))))),
            ((1, 0), None),
            ((2, 0), Some((Some((0, 2)), Some((2, 1))))),
        ],
    },
];

/// Whether a handler is notified of all of a case, while each state shows what it has.
fn is_told(alloc: Global, case: &'static Case) -> Result<bool, Fail> {
    let mut asker = Asker {
        case,
        count: 0,
        is_right: true,
    };
    let mut tree = grown_by(alloc, case.before)?;
    send(alloc, &mut tree, &case.sent, &mut asker)?;
    Ok(asker.is_right && asker.count == case.told.len())
}

/// Each view shows its own state, whatever the event is.
#[test]
fn views_show_their_states_while_told(rt: HostRuntime) -> Result<(), Fail> {
    for (row, case) in CASES.iter().enumerate() {
        assert!(rt; is_told(rt.alloc(), case)?, "row {row}");
    }
    Ok(())
}

/// The call of a handler that reports an event.
fn told_of(event: PlanEvent) -> Told {
    match event {
        PlanEvent::Added(id) => Added(id.tree, id.node.0),
        PlanEvent::Updated(id) => Updated(id.tree, id.node.0),
        PlanEvent::FocusMoved(old, new) => FocusMoved(old.map(pair), new.map(pair)),
        PlanEvent::Removed(id) => Removed(id.tree, id.node.0),
    }
}

fn are_told(events: &[PlanEvent], told: &[Told]) -> bool {
    for (number, event) in events.iter().enumerate() {
        if told.get(number) != Some(&told_of(*event)) {
            return false;
        }
    }
    events.len() == told.len()
}

/// The tree, prepared for the update of a case.
fn prepared(alloc: Global, tree: Tree, case: &Case) -> Result<Prepared, Fail> {
    match tree.prepare(case.sent.update(alloc)?) {
        Ok(prepared) => Ok(prepared),
        Err(refused) => Err(refused.why.into()),
    }
}

/// Whether both states of a case are shown while its update is prepared.
fn are_both_shown(prepared: &Prepared, case: &Case) -> bool {
    let new = prepared.new();
    is_shown_by(prepared.old(), &case.old)
        && is_shown_by(new.view(), &case.new)
        && are_told(prepared.events(), case.told)
}

/// Whether the update of a case leaves the old state where it is given up, and the new one where it is carried out then.
fn is_prepared(alloc: Global, case: &Case) -> Result<bool, Fail> {
    let first = prepared(alloc, grown_by(alloc, case.before)?, case)?;
    let is_right = are_both_shown(&first, case);
    let kept = first.give_up();
    let is_kept = is_shown_by(kept.state().view(), &case.old);
    let second = prepared(alloc, kept, case)?;
    let is_still_right = are_both_shown(&second, case);
    let changed = second.commit();
    let is_changed = is_shown_by(changed.state().view(), &case.new);
    Ok(is_right && is_kept && is_still_right && is_changed)
}

/// Each state is shown while an update is prepared.
#[test]
fn both_states_are_shown_while_prepared(rt: HostRuntime) -> Result<(), Fail> {
    for (row, case) in CASES.iter().enumerate() {
        assert!(rt; is_prepared(rt.alloc(), case)?, "row {row}");
    }
    Ok(())
}

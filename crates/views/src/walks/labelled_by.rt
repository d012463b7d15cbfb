//! The nodes that label a node. The walk does not allocate.
ghost use Rattle.std.specs.Prelude.{◌≡◌, ⊤, map};
ghost use Rattle.model.specs.Frontier.{filtered_children};
ghost use Rattle.model.specs.RoleClasses.{is_labelled_from_within};
ghost use Rattle.model.specs.Labels.{label_answer, label_filter, looks_within, labelled_by as labels_of};
ghost use Rattle.views.specs.Nodes.{world_at, id_at, data_at};
ghost use Rattle.views.specs.PlainWalks.{node_in, node_of};
ghost use Rattle.views.specs.LabelCourses.{IsLabelCourse, IsLabelCourse-prop};

use crate::node::NodeRef;
use crate::walks::controls::Controls;
use crate::walks::course::Course;
use crate::walks::filter::Filter;
use model::filters::FilterResult;
use schema::Role;
use std::iter::FusedIterator;

/// Whether a node of this role that names no labels is labelled by its contents.
fn is_labelled_from_within(role: Role) -> bool
    ensures { result ≡ is_labelled_from_within role }
{
    matches!(
        role,
        Role::Button
            | Role::CheckBox
            | Role::DefaultButton
            | Role::Link
            | Role::MenuItem
            | Role::MenuItemCheckBox
            | Role::MenuItemRadio
            | Role::RadioButton
    )
}

/// Whether the node is labelled by its contents.
fn looks_within(node: NodeRef<'_>) -> bool
    ensures { result ≡ looks_within (data_at node.entry) }
{
    node.node.labelled_by().is_empty() && is_labelled_from_within(node.node.role())
}

/// The filter that includes labels and images, and looks for them in containers only.
#[derive(Drop)]
struct LabelFilter;

impl Filter for LabelFilter {
    ghost can_answer = { λ _. ⊤ };

    ghost answers = { λ _ n r. r ≡ label_answer (data_at n).role };

    fn answer(&self, node: &NodeRef<'_>) -> FilterResult {
        match node.role() {
            Role::Label | Role::Image => FilterResult::Include,
            Role::GenericContainer => FilterResult::ExcludeNode,
            _ => FilterResult::ExcludeSubtree,
        }
    }
}

/// The labels and images in a node.
#[derive(Drop)]
struct LabelsWithin<'a> {
    course: Course<'a>,
    ghost on_course: { IsLabelCourse course } by { IsLabelCourse-prop course },
}

impl<'a> LabelsWithin<'a> {
    ghost use Rattle.std.specs.Iterator.{YieldsFirstBy, YieldsLastBy};
    ghost use Rattle.views.specs.LabelWalks.{within_left};

    fn new(node: NodeRef<'a>) -> LabelsWithin<'a>
        ensures { let w = world_at node.entry in
            let shown = filtered_children (label_filter w) w (id_at node.entry) in
            within_left result ≡ map (node_in w) shown }
    {
        LabelsWithin {
            course: Course::below(node, &LabelFilter),
        }
    }

    /// Takes the first node, if one is left.
    fn take_first(&mut self) -> Option<NodeRef<'a>>
        ensures { YieldsFirstBy node_of within_left self.old result self.new }
    {
        let mut course = self.course;
        let found = course.take_front(&LabelFilter);
        *self = LabelsWithin { course };
        found
    }

    /// Takes the last node, if one is left.
    fn take_last(&mut self) -> Option<NodeRef<'a>>
        ensures { YieldsLastBy node_of within_left self.old result self.new }
    {
        let mut course = self.course;
        let found = course.take_back(&LabelFilter);
        *self = LabelsWithin { course };
        found
    }
}

/// Where a node's labels come from: the node names them, or they are in it.
#[derive(Drop)]
enum LabelSource<'a> {
    Named(Controls<'a>),
    Within(LabelsWithin<'a>),
}

/// A walk over the nodes that label a node: those that it names, if they are in the state, or else, for a control such
/// as a button, the labels and images in it.
#[derive(Drop)]
pub struct LabelledBy<'a> {
    source: LabelSource<'a>,
}

impl<'a> LabelledBy<'a> {
    ghost use Rattle.views.specs.LabelWalks.{labels_left};

    pub(crate) fn new(node: NodeRef<'a>) -> LabelledBy<'a>
        ensures { let w = world_at node.entry in
            labels_left result ≡ map (node_in w) (labels_of w (id_at node.entry)) }
    {
        let source = if looks_within(node) {
            LabelSource::Within(LabelsWithin::new(node))
        } else {
            LabelSource::Named(Controls::over(node, node.node.labelled_by()))
        };
        LabelledBy { source }
    }
}

impl<'a> Iterator for LabelledBy<'a> {
    ghost use Rattle.std.specs.Iterator.{YieldsFirstBy, item_count};
    ghost use Rattle.views.specs.LabelWalks.{labels_left};

    type Item = NodeRef<'a>;

    ghost next_gives = { YieldsFirstBy node_of labels_left };

    ghost remaining = { item_count labels_left };

    fn next(&mut self) -> Option<NodeRef<'a>> {
        match &mut self.source {
            LabelSource::Named(nodes) => nodes.next(),
            LabelSource::Within(nodes) => nodes.take_first(),
        }
    }
}

impl<'a> DoubleEndedIterator for LabelledBy<'a> {
    ghost use Rattle.std.specs.Iterator.{YieldsLastBy};
    ghost use Rattle.views.specs.LabelWalks.{labels_left};

    ghost next_back_gives = { YieldsLastBy node_of labels_left };

    fn next_back(&mut self) -> Option<NodeRef<'a>> {
        match &mut self.source {
            LabelSource::Named(nodes) => nodes.next_back(),
            LabelSource::Within(nodes) => nodes.take_last(),
        }
    }
}

impl FusedIterator for LabelledBy<'_> {}

//! Laws of events and of the differences of two worlds.
ghost use Rattle.model.specs.EventLaws.{DifferencesAreOne, DifferencesExist, EachHasAReason, EachIsToldInOrder, HostChangeTellsFocus, KeptRecordsFollowRun, NothingToTell, RepeatTellsNothing, RepeatTellsRoot, RootIsTold, RecordsAreThere, RecordsGoOn, RecordsGoOnOverRun, CommandIsDone, RunIsThere, RunLeavesState, RecordsAreOne, RecordsFollow, RecordsFollowRun, RunsAreOne, StopLosesNoChange, StoppedRunBegins, WorkIsOne, WorkIsThere};
ghost use Rattle.model.specs.ToldExamples.{ButtonMoves, GraftMovesOut, GraftedTreeComes, GraftedRootIsLabelled, FocusGoesInside, FocusComesBack, InnerLabelWork, GraftMovesOutWork};
ghost use Rattle.model.specs.EventExamples.{ButtonGoes, FocusGoesToButton, FocusedButtonGoes, ButtonsChangePlaces, HostLosesFocus, LabelIsLittleWork, PicturedChange};

/// Two worlds have at most one list of differences.
pub fn differences_are_one()
    ensures { DifferencesAreOne }
{}

/// Two states have a list of differences.
pub fn differences_exist()
    ensures { DifferencesExist }
{}

/// A difference is in the list exactly if it has a reason.
pub fn each_has_a_reason()
    ensures { EachHasAReason }
{}

/// Each difference is in the list once, and its groups are in order.
pub fn each_is_told_in_order()
    ensures { EachIsToldInOrder }
{}

/// An unchanged world has no differences, if the update has no tree info or is for the root tree.
pub fn nothing_to_tell()
    ensures { NothingToTell }
{}

/// Tree info for another tree reports that tree's root as updated, even if nothing changed.
#[tactic(auto, using(crate::proofs::Differences::SameWorlds::root_to_tell))]
pub fn root_is_told()
    ensures { RootIsTold }
{}

/// A change of the host's focus reports the focus alone.
pub fn host_change_tells_focus()
    ensures { HostChangeTellsFocus }
{}

/// The records of a world, stepped by its differences to the next world, are the next world's.
pub fn records_follow()
    ensures { RecordsFollow }
{}

/// A state has records.
pub fn records_are_there()
    ensures { RecordsAreThere }
{}

/// From any records, the differences of two worlds can be followed.
pub fn records_go_on()
    ensures { RecordsGoOn }
{}

/// From any records, all events of a run can be followed.
pub fn records_go_on_over_run()
    ensures { RecordsGoOnOverRun }
{}

/// A mirror that receives all events of a run ends with the records of the run's last world.
#[tactic(auto, using(crate::proofs::Run::Runs::records_follow_run))]
pub fn records_follow_run()
    ensures { RecordsFollowRun }
{}

/// A mirror whose allocations may fail ends with the records of the run's last world, or keeps nothing.
#[tactic(auto, using(crate::proofs::Mirror::KeptRecords::kept_records_follow_run))]
pub fn kept_records_follow_run()
    ensures { KeptRecordsFollowRun }
{}

/// A world has only one set of records.
pub fn records_are_one()
    ensures { RecordsAreOne }
{}

/// Two runs of the same commands, in which memory ran out at the same ones, end in the same world, report the same
/// events, and reply alike.
#[tactic(auto, using(crate::proofs::Run::RunsAreOne::runs_agree))]
pub fn runs_are_one()
    ensures { RunsAreOne }
{}

/// Each command can be carried out on a state, as long as memory doesn't run out.
#[tactic(auto, using(crate::proofs::Run::RunIsThere::command_done))]
pub fn command_is_done()
    ensures { CommandIsDone }
{}

/// Each list of commands has a run from each state in which memory doesn't run out.
#[tactic(auto, using(crate::proofs::Run::RunIsThere::run_exists))]
pub fn run_is_there()
    ensures { RunIsThere }
{}

/// A run leaves a state.
#[tactic(auto, using(crate::proofs::Run::Runs::run_leaves_state))]
pub fn run_leaves_state()
    ensures { RunLeavesState }
{}

/// An update that repeats what a state has changes nothing; without tree info, or for the root tree, it reports
/// nothing.
pub fn repeat_tells_nothing()
    ensures { RepeatTellsNothing }
{}

/// With tree info for another tree, such an update reports that tree's root.
pub fn repeat_tells_root()
    ensures { RepeatTellsRoot }
{}

/// What a stopped run has done is the beginning of what the whole run does.
pub fn stopped_run_begins()
    ensures { StoppedRunBegins }
{}

/// A run that stops once it has started loses no change: the next command would have changed and reported nothing.
pub fn stop_loses_no_change()
    ensures { StopLosesNoChange }
{}

/// An update determines the numbers of its work.
pub fn work_is_one()
    ensures { WorkIsOne }
{}

/// An accepted update of a state has the numbers of its work.
#[tactic(auto, using(crate::proofs::Work::WorkIsThere::state_work_exists))]
pub fn work_is_there()
    ensures { WorkIsThere }
{}

/// The only button of a window is removed: the window is updated, and the button removed.
#[tactic(auto, using(crate::proofs::Examples::EventExamples::button_goes))]
pub fn button_goes()
    ensures { ButtonGoes }
{}

/// The focus goes from a window to its button: both are updated, and then it moves.
#[tactic(auto, using(crate::proofs::Examples::EventExamples::focus_goes_to_button))]
pub fn focus_goes_to_button()
    ensures { FocusGoesToButton }
{}

/// The focused button is removed: the focus moves before the removal is reported.
#[tactic(auto, using(crate::proofs::Examples::EventExamples::focused_button_goes))]
pub fn focused_button_goes()
    ensures { FocusedButtonGoes }
{}

/// Two buttons change places: they are updated as their window is.
#[tactic(auto, using(crate::proofs::Examples::EventExamples::buttons_change_places))]
pub fn buttons_change_places()
    ensures { ButtonsChangePlaces }
{}

/// A run in which the host loses its focus twice: the second time nothing is reported.
#[tactic(auto, using(crate::proofs::Examples::EventExamples::host_loses_focus))]
pub fn host_loses_focus()
    ensures { HostLosesFocus }
{}

/// A label for a button below the root allows 80 look-ups.
#[tactic(auto, using(crate::proofs::Examples::EventExamples::label_is_little_work))]
pub fn label_is_little_work()
    ensures { LabelIsLittleWork }
{}

/// A button is removed, another added, the one between them moves up, and the focus moves to it.
#[tactic(auto, using(crate::proofs::Examples::EventExamples::pictured_change))]
pub fn pictured_change()
    ensures { PicturedChange }
{}

/// A button moves to another container: both containers are updated, and so is the button, for its place.
#[tactic(auto, using(crate::proofs::Examples::ToldMoves::button_moves_is_told))]
pub fn button_moves_is_told()
    ensures { ButtonMoves }
{}

/// A graft moves out of a tree that is removed: the root of its tree is updated, and the node below that root isn't.
#[tactic(auto, using(crate::proofs::Examples::ToldExamples::graft_moves_out_is_told))]
pub fn graft_moves_out_is_told()
    ensures { GraftMovesOut }
{}

/// The tree of an empty graft is sent: its nodes are added, and the graft isn't reported.
#[tactic(auto, using(crate::proofs::Examples::ToldExamples::grafted_tree_comes))]
pub fn grafted_tree_comes()
    ensures { GraftedTreeComes }
{}

/// The root of a grafted tree gets a label: it alone is updated.
#[tactic(auto, using(crate::proofs::Examples::ToldExamples::grafted_root_is_labelled))]
pub fn grafted_root_is_labelled()
    ensures { GraftedRootIsLabelled }
{}

/// The work of the graft that moves out allows 208 look-ups.
#[tactic(auto, using(crate::proofs::Examples::ToldExamples::graft_moves_out_work))]
pub fn graft_moves_out_work()
    ensures { GraftMovesOutWork }
{}

/// The focus goes from a window into the document that it grafts, to the button that the document's tree declares focused.
#[tactic(auto, using(crate::proofs::Examples::InnerFocus::focus_goes_inside))]
pub fn focus_goes_inside()
    ensures { FocusGoesInside }
{}

/// The focus comes back to the window.
#[tactic(auto, using(crate::proofs::Examples::InnerFocus::focus_comes_back))]
pub fn focus_comes_back()
    ensures { FocusComesBack }
{}

/// The work of a label in a grafted document counts the node's depth in its own tree.
#[tactic(auto, using(crate::proofs::Examples::InnerWork::inner_label_work))]
pub fn inner_label_work()
    ensures { InnerLabelWork }
{}

//! The program `record`: reads a script, and writes each of its commands again in one form, or the tree that they leave.
#![tactic(auto)]

mod heads;
mod manual;
mod recording;
mod snapshot;
mod stage;

use crate::manual::MANUAL;
use crate::recording::Recorder;
use crate::snapshot::TreeRecorder;
use script_lines::{NoArguments, read_arguments, run_program};
use std::process::ExitCode;

fn main(rt: HostRuntime) -> ExitCode {
    match read_arguments(&rt, &MANUAL) {
        Ok((false, NoArguments)) => run_program(&rt, &Recorder),
        Ok((true, NoArguments)) => run_program(&rt, &TreeRecorder),
        Err(status) => ExitCode::from(status),
    }
}

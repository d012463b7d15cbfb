//! The program `compare`: reads two scripts, and prints how the trees that they leave differ.
#![tactic(auto)]

mod changes;
mod comparing;
mod manual;
mod matching;
mod parts;
mod program;
mod reading;
mod row;
mod rows;

use crate::manual::MANUAL;
use crate::program::Compare;
use script_lines::{NoArguments, read_run, run_program};
use std::process::ExitCode;

fn main(rt: HostRuntime) -> ExitCode {
    match read_run(&rt, &MANUAL) {
        Ok((is_strict, (_, NoArguments))) => run_program(&rt, &Compare { is_strict }),
        Err(status) => ExitCode::from(status),
    }
}

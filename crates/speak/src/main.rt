//! The program `speak`: reads a script, and prints what a screen reader would say at each of its steps.
#![tactic(auto)]

mod adapter;
mod manual;
mod numbering;

use crate::adapter::Speak;
use crate::manual::MANUAL;
use atree_script::{NoArguments, read_run, run_reporting};
use std::process::ExitCode;

fn main(rt: HostRuntime) -> ExitCode {
    match read_run(&rt, &MANUAL) {
        Ok((is_strict, (is_numbered, NoArguments))) => {
            run_reporting(&rt, is_strict, &Speak { is_numbered })
        }
        Err(status) => ExitCode::from(status),
    }
}

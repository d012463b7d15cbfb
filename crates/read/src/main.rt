//! The program `read ID TREE`: reads a script, and prints a text of its tree by lines, words and characters.
#![tactic(auto)]

mod asked;
mod defect;
mod given;
mod manual;
mod reading;
mod selected;

use crate::asked::Asked;
use crate::manual::MANUAL;
use atree_script::tell_as_asked;
use std::process::ExitCode;

fn main(rt: HostRuntime) -> ExitCode {
    tell_as_asked::<Asked>(&rt, &MANUAL)
}

//! The program `find ROLE [LABEL] [OPTION]..`: reads a script, and prints the nodes of its tree with that role and these texts.
#![tactic(auto)]

mod asked;
mod finding;
mod given;
mod manual;
mod near;
mod noting;
mod options;
mod reading;
mod report;
mod search;
mod shown;
mod sought_texts;
mod wanted;

use crate::finding::Finding;
use crate::manual::MANUAL;
use crate::wanted::Wanted;
use atree_script::{read_run, run_reporting};
use std::process::ExitCode;

fn main(rt: HostRuntime) -> ExitCode {
    let asked: Result<(bool, (bool, Wanted)), u8> = read_run(&rt, &MANUAL);
    match asked {
        Ok((is_strict, (_, wanted))) => run_reporting(&rt, is_strict, &Finding { wanted }),
        Err(status) => ExitCode::from(status),
    }
}

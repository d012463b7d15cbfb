//! The program `page`: reads a script, and writes an HTML page with each of its states as an outline and a picture.
#![tactic(auto)]

mod head;
mod laws;
mod manual;
mod pager;
mod reported;
mod sections;
mod sheet;
mod stops;
mod tally;

use atree_script::run_reports_alone;
use manual::MANUAL;
use pager::Page;
use std::process::ExitCode;

fn main(rt: HostRuntime) -> ExitCode {
    run_reports_alone(&rt, &MANUAL, &Page)
}

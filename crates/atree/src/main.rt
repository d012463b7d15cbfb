//! The program `atree`: runs a script from standard input, and prints events, answers and the tree.
#![tactic(auto)]

use atree_script::{Program, Streams, run_program_silently, run_script};
use std::io::{BufRead, Write};
use std::process::ExitCode;

/// The program that prints the effects of a script. It has no arguments.
struct Atree;

impl Program for Atree {
    fn run<R: BufRead, O: Write, E: Write>(&self, streams: &mut Streams<R, O, E>) -> u8 {
        let output = &mut streams.output;
        let errors = &mut streams.errors;
        run_script(streams.alloc, &mut streams.input, output, errors)
    }
}

fn main(rt: HostRuntime) -> ExitCode {
    run_program_silently(&rt, &Atree)
}

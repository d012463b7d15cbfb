//! Calls that allocate, and a session with a mirror, which the gate runs with each allocation refused in turn.
//!
//! With the argument `run` or `mirrored` it runs six commands in one run with a mirror beside it, by either call of a
//! session; with `calls` it makes the calls that allocate, one after another; with none it does all three.
#![tactic(auto)]

mod calls;
mod planning;
mod planting;
mod preparing;
mod reading;
mod runs;
mod setting;

use anyhow::anyhow;
use std::env::{Env, FillError};

/// What to run.
#[derive(Clone, Copy)]
enum Wanted {
    Run,
    Mirrored,
    Calls,
    All,
    Unknown,
}

/// The choice that the first argument makes. Reading it doesn't allocate.
fn asked_for(rt: &impl Env) -> Wanted {
    let mut word = [0u8; 16];
    match rt.arg(1, &mut word) {
        Ok(3) if word.starts_with(b"run") => Wanted::Run,
        Ok(8) if word.starts_with(b"mirrored") => Wanted::Mirrored,
        Ok(5) if word.starts_with(b"calls") => Wanted::Calls,
        Err(FillError::NotPresent) => Wanted::All,
        _ => Wanted::Unknown,
    }
}

fn main(rt: HostRuntime) -> anyhow::Result<()> {
    let alloc = rt.alloc();
    match asked_for(&rt) {
        Wanted::Run => runs::run(&rt, alloc, true),
        Wanted::Mirrored => runs::run(&rt, alloc, false),
        Wanted::Calls => calls::run(&rt, alloc),
        Wanted::All => {
            runs::run(&rt, alloc, true)?;
            runs::run(&rt, alloc, false)?;
            calls::run(&rt, alloc)
        }
        Wanted::Unknown => Err(anyhow!("`run`, `mirrored`, `calls`, or no argument")),
    }
}

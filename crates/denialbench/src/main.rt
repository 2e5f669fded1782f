//! The bench: reads a session from standard input and prints the outcome of each event.
//!
//! The exit status is 0, or 1 where a line cannot be read, or 2 where input, output or memory
//! failed.
#![tactic(auto)]

mod input;
mod run;
mod status;

use crate::input::Limited;
use std::io;
use std::process::ExitCode;

fn main(rt: HostRuntime) -> ExitCode {
    let mut reader = rt.reader();
    let mut writer = io::writer(&rt);
    run::run(rt.alloc(), &mut Limited::new(&mut reader), &mut writer).into()
}

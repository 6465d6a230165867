//! Reads collections of Go games, and lists what their trees are.
#![tactic(auto)]

mod commands;
mod inputs;
mod outputs;
mod telling;
mod words;

use command_lines::{Line, read_arguments};
use engine_core::{RunFault, own_words, status_of, write_output};
use inputs::list_all;
use std::io;
use std::process::ExitCode;

/// Does what the words of the command line ask for, or prints help or version. Returns the exit
/// status.
fn run(rt: &HostRuntime) -> Result<u8, RunFault> {
    let words = own_words(rt)?;
    match read_arguments(rt.alloc(), &words)? {
        Line::Asked(asked) => list_all(rt, &asked),
        Line::Told(text) => {
            write_output(&mut rt.stdout(), text.as_bytes())?;
            Ok(0)
        }
    }
}

fn main(rt: HostRuntime) -> ExitCode {
    match run(&rt) {
        Ok(status) => ExitCode::from(status),
        Err(fault) => {
            // If standard error takes nothing, the status still says what went wrong.
            let _ = eprintln!(rt; "shape_games: {fault}");
            ExitCode::from(status_of(&fault))
        }
    }
}

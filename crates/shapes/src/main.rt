//! Reads collections of Go games and dictionaries of their patterns, and prints what they say.
#![tactic(auto)]

mod tasks;

use engine_core::{RunFault, own_words};
use shapes_line::read_arguments;
use std::io;
use std::process::ExitCode;
use std::sync::Wait;
use std::thread::Threads;
use tasks::{Answer, do_task, status_after};

/// Reads the words of the command line and does what they ask for. The threads that count are
/// started through `threads`. Returns whether what was asked for was found, and the report of a
/// count.
fn run<T: Threads + Wait + Sync>(rt: &HostRuntime, threads: &T) -> Result<Answer, RunFault> {
    let words = own_words(rt)?;
    let task = read_arguments(rt.alloc(), &words)?;
    do_task(threads, rt.alloc(), task, &mut rt.stdin(), &mut rt.stdout())
}

/// Prints to standard error the report of a count, or the fault. If standard error takes nothing,
/// the status still says what went wrong.
fn tell(rt: &HostRuntime, done: &Result<Answer, RunFault>) {
    let _ = match done {
        Ok(answer) => match &answer.report {
            Some(report) => eprintln!(rt;
                "shapes: games {} other {} refused {}",
                report.games, report.others, report.refused
            ),
            None => Ok(()),
        },
        Err(fault) => eprintln!(rt; "shapes: {fault}"),
    };
}

fn main(rt: HostRuntime) -> ExitCode {
    let done = run(&rt, &rt);
    tell(&rt, &done);
    ExitCode::from(status_after(&done))
}

//! Joins dictionaries of any number and size: it reads their files in pieces, and holds a few of
//! them in memory.
#![tactic(auto)]

mod commands;
mod files;
mod stamps;
mod telling;
mod words;

ghost use Rattle.std.specs.Prelude.{◌≡◌, length, vec_len};

use command_lines::{Line, read_arguments};
use engine_core::{RunFault, own_words, status_of, write_output};
use files::{Dictionaries, Named, look_at, new_target, which_is_barred};
use merge_core::{MergeFault, run_merge};
use stamps::{Stamp, first_unlike, stamps_of};
use std::io;
use std::process::ExitCode;
use std::thread::Threads;
use telling::{tell, tell_barred, tell_changed};
use words::Asked;

/// Joins the dictionaries that `asked` names, and writes the join to standard output, or to a file
/// that is made only after all dictionaries were checked to be well-formed. The threads that join
/// are started through `threads`.
fn join<T: Threads + Sync>(
    threads: &T,
    rt: &HostRuntime,
    asked: &Asked<'_>,
) -> Result<(), MergeFault> {
    let alloc = rt.alloc();
    let sources = Dictionaries {
        rt,
        names: &asked.names,
    };
    match asked.out {
        Some(name) => {
            let mut target = new_target(Named { rt, name });
            run_merge(threads, alloc, asked.form, &sources, &mut target)
        }
        None => run_merge(threads, alloc, asked.form, &sources, &mut rt.stdout()),
    }
}

/// Looks at the dictionaries' files again after a join that ended well. If one has another stamp
/// (device, number, size, time) than in `before`, standard error says so, and the exit status for
/// that is returned; else 0.
fn look_again(rt: &HostRuntime, asked: &Asked<'_>, before: &[Stamp]) -> Result<u8, RunFault>
    requires { length before.now ≡ vec_len asked.now.names }
{
    let after = stamps_of(rt, &asked.names)?;
    match first_unlike(before, &after) {
        Some(k) => Ok(tell_changed(rt, k, asked.names[k])),
        None => Ok(0),
    }
}

/// Checks that the named files can be joined, joins them, and says on standard error what went
/// wrong. Returns the exit status.
fn join_files<T: Threads + Sync>(
    threads: &T,
    rt: &HostRuntime,
    asked: &Asked<'_>,
) -> Result<u8, RunFault> {
    let sights = look_at(rt, asked)?;
    if let Some(name) = which_is_barred(asked, &sights) {
        return Ok(tell_barred(rt, name));
    }
    let before = stamps_of(rt, &asked.names)?;
    match join(threads, rt, asked) {
        Ok(()) => look_again(rt, asked, &before),
        Err(fault) => Ok(tell(rt, asked, &fault)),
    }
}

/// Does what the words of the command line ask for, or prints help or version. Returns the exit
/// status.
fn run<T: Threads + Sync>(rt: &HostRuntime, threads: &T) -> Result<u8, RunFault> {
    let words = own_words(rt)?;
    match read_arguments(rt.alloc(), &words)? {
        Line::Asked(asked) => join_files(threads, rt, &asked),
        Line::Told(text) => {
            write_output(&mut rt.stdout(), text.as_bytes())?;
            Ok(0)
        }
    }
}

fn main(rt: HostRuntime) -> ExitCode {
    match run(&rt, &rt) {
        Ok(status) => ExitCode::from(status),
        Err(fault) => {
            // If standard error takes nothing, the status still says what went wrong.
            let _ = eprintln!(rt; "shape_merge: {fault}");
            ExitCode::from(status_of(&fault))
        }
    }
}

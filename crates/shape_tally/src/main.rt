//! Counts collections of any number and size, and writes one dictionary of all their games.
#![tactic(auto)]

mod clashes;
mod commands;
mod drafts;
mod inputs;
mod left_drafts;
mod lists;
mod progress;
mod reports;
mod spilled;
mod telling;
mod words;

use clashes::clash_of;
use command_lines::{Line, read_arguments};
use drafts::{Output, try_target};
use engine_core::{RunFault, own_words, status_of, write_output};
use game_files::{Source, sources};
use inputs::Inputs;
use lists::listed;
use reports::{status_of as status_after, write_lines};
use spilled::Spilled;
use std::alloc::AllocError;
use std::process::ExitCode;
use std::sync::Wait;
use std::thread::Threads;
use std::{env, io};
use tally_parts::{PartsFault, run_tally};
use telling::{tell_clash, tell_fault, tell_sum, tell_unlisted, tell_unmade};
use words::{Asked, Named};

/// The folder for temporary files if the system names none.
const TEMPORARY: &str = "/tmp";

/// Returns the folder of the file in which the dictionaries of parts wait until they are joined
/// (inputs are counted in parts): the folder that is asked for, else the system's for temporary
/// files.
fn folder_of(rt: &HostRuntime, asked: &Asked<'_>) -> Result<String, AllocError> {
    if let Some(folder) = asked.spill {
        return String::from_str(rt.alloc(), folder);
    }
    match env::temp_dir(rt) {
        Ok(found) if !found.as_path().as_str().is_empty() => Ok(found.into_string()),
        _ => String::from_str(rt.alloc(), TEMPORARY),
    }
}

/// Returns the inputs that the command line names, directly or by a list. `Read` if the list can't
/// be read, which is then reported on standard error; `Memory` if memory was refused.
fn sources_of(rt: &HostRuntime, asked: &Asked<'_>) -> Result<Vec<Source>, RunFault> {
    match &asked.named {
        Named::Words(files) => Ok(sources(rt, files)?),
        Named::List { file, end } => {
            let found = listed(rt, *file, *end);
            if let Err(RunFault::Read) = found {
                tell_unlisted(rt, *file);
            }
            found
        }
    }
}

/// Tests whether the file `name` could be written, before the count, so that no count is in vain.
/// Returns true if it could, or if `name` is None. If not, standard error says so.
fn can_be_written(rt: &HostRuntime, name: Option<&str>) -> bool {
    let Some(name) = name else {
        return true;
    };
    match try_target(rt, name) {
        Ok(()) => true,
        Err(error) => {
            tell_unmade(rt, name, error.kind());
            false
        }
    }
}

/// Writes the report, a line for each input, to the file `asked.report`, if one is asked for.
/// Returns false if it could not be written, and standard error says so then; else true.
fn write_report(
    rt: &HostRuntime,
    asked: &Asked<'_>,
    sources: &[Source],
    inputs: &Inputs<'_>,
) -> bool {
    let Some(name) = asked.report else {
        return true;
    };
    let mut output = Output::new(rt, Some(name));
    let done = match write_lines(rt.alloc(), sources, inputs.fates(), &mut output) {
        Ok(()) => output.finish(),
        Err(error) => Err(error),
    };
    match done {
        Ok(()) => true,
        Err(error) => {
            tell_unmade(rt, name, error.kind());
            false
        }
    }
}

/// Counts the games of `inputs` in parts, and writes their dictionary. `folder` is where the
/// dictionaries of parts wait until they are joined. Returns the exit status: 0 if the dictionary
/// is written; 1 if none is wanted, since `--strict` is given and an input was left out or has no
/// tree, or a folder has no games; a greater one after a fault, which standard error says.
fn write_dictionary<T: Threads + Wait + Sync>(
    rt: &HostRuntime,
    threads: &T,
    asked: &Asked<'_>,
    folder: &str,
    inputs: &mut Inputs<'_>,
) -> u8 {
    let mut spilled = Spilled::new(rt, folder);
    let mut output = Output::new(rt, asked.out);
    let done = run_tally(
        threads,
        rt.alloc(),
        asked.plan,
        inputs,
        &mut spilled,
        &mut output,
    );
    inputs.clear_progress();
    match done {
        Ok(()) => match output.finish() {
            Ok(()) => 0,
            Err(error) => {
                tell_unmade(rt, output.name().unwrap_or("standard output"), error.kind());
                6
            }
        },
        Err(fault) => tell_fault(rt, &fault, &output, folder),
    }
}

/// Does the count that `asked` describes: it writes the dictionary and the report, and on standard
/// error a line that sums up. Returns the exit status. If that is above 1, neither report nor sum
/// is written, and standard error says why; if only the report failed, the dictionary is written
/// all the same. The error is `Memory`: memory was refused.
fn tally<T: Threads + Wait + Sync>(
    rt: &HostRuntime,
    threads: &T,
    asked: &Asked<'_>,
) -> Result<u8, RunFault> {
    let folder = folder_of(rt, asked)?;
    let sources = match sources_of(rt, asked) {
        Ok(sources) => sources,
        Err(RunFault::Read) => return Ok(6),
        Err(fault) => return Err(fault),
    };
    if let Some(clash) = clash_of(rt, asked, sources.as_slice()) {
        return Ok(tell_clash(rt, clash));
    }
    if !can_be_written(rt, asked.out) || !can_be_written(rt, asked.report) {
        return Ok(6);
    }
    let mut inputs = Inputs::new(rt, sources.as_slice(), asked.is_strict)?;
    let status = write_dictionary(rt, threads, asked, folder.as_str(), &mut inputs);
    if status > 1 {
        return Ok(status);
    }
    if !write_report(rt, asked, sources.as_slice(), &inputs) {
        return Ok(6);
    }
    tell_sum(rt, inputs.sum());
    Ok(status_after(inputs.sum()))
}

/// Does what the words of the command line ask for, or prints help or version. Returns the exit
/// status.
fn run<T: Threads + Wait + Sync>(rt: &HostRuntime, threads: &T) -> Result<u8, RunFault> {
    let words = own_words(rt)?;
    match read_arguments(rt.alloc(), &words)? {
        Line::Asked(asked) => tally(rt, threads, &asked),
        Line::Told(text) => {
            write_output(&mut rt.stdout(), text.as_bytes())?;
            Ok(0)
        }
    }
}

fn main(rt: HostRuntime) -> ExitCode {
    match run(&rt, &rt) {
        Ok(status) => ExitCode::from(status),
        Err(fault) => {
            // If standard error takes nothing, the status still says what went wrong.
            let _ = eprintln!(rt; "shape_tally: {fault}");
            ExitCode::from(status_of(&fault))
        }
    }
}

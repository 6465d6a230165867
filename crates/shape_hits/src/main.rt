//! Reads a collection of Go games, and lists in which of them patterns are, and where.
#![tactic(auto)]

mod commands;
mod files;
mod inputs;
mod words;

use command_lines::{Line, read_arguments, why_unread};
use engine_core::{RunFault, own_words, status_of, write_output};
use files::make_folder;
use hits_core::{Wanted, WordsFault, read_wanted, status_of as words_status};
use inputs::list_all;
use std::fs::File;
use std::io;
use std::process::ExitCode;
use std::thread::Threads;
use words::Asked;

/// Returns the patterns whose words are listed in the file `name`; `Unread` if it can't be opened
/// or read, and else what is wrong with the list.
fn listed(rt: &HostRuntime, name: &str) -> Result<Wanted, WordsFault> {
    match File::open(rt, name) {
        Ok(mut file) => read_wanted(rt.alloc(), &mut file),
        Err(_) => Err(WordsFault::Unread),
    }
}

/// Returns the patterns that are looked for: the one that the command line spells, else those of
/// the list of words that it names.
fn wanted_of(rt: &HostRuntime, asked: &Asked<'_>) -> Result<Wanted, WordsFault> {
    match asked.shape {
        Some(shape) => Wanted::one(rt.alloc(), shape).map_err(|_| WordsFault::Memory),
        None => listed(rt, asked.words.unwrap_or("")),
    }
}

/// Prints to standard error what is wrong with the list of words. If the list could not be read,
/// its file and the reason are printed too. A failure to print is ignored.
fn tell(rt: &HostRuntime, asked: &Asked<'_>, fault: &WordsFault) {
    let _ = match (fault, asked.words) {
        (WordsFault::Unread, Some(name)) => {
            let why = why_unread(rt, name).unwrap_or("a read failed");
            eprintln!(rt; "shape_hits: {fault}: {name}: {why}")
        }
        _ => eprintln!(rt; "shape_hits: {fault}"),
    };
}

/// Prints the hits that `asked` asks for, and writes their files if a folder is named. The threads
/// that find them are started through `threads`. Returns the exit status.
fn find<T: Threads + Sync>(
    rt: &HostRuntime,
    threads: &T,
    asked: &Asked<'_>,
) -> Result<u8, RunFault> {
    let wanted = match wanted_of(rt, asked) {
        Ok(wanted) => wanted,
        Err(fault) => {
            tell(rt, asked, &fault);
            return Ok(words_status(&fault));
        }
    };
    if let Some(folder) = asked.folder {
        if let Err(fault) = make_folder(rt, folder) {
            return Ok(status_of(&fault));
        }
    }
    list_all(rt, threads, asked, &wanted)
}

/// Does what the words of the command line ask for, or prints help or version. Returns the exit
/// status.
fn run<T: Threads + Sync>(rt: &HostRuntime, threads: &T) -> Result<u8, RunFault> {
    let words = own_words(rt)?;
    match read_arguments(rt.alloc(), &words)? {
        Line::Asked(asked) => find(rt, threads, &asked),
        Line::Told(text) => {
            write_output(&mut rt.stdout(), text.as_bytes())?;
            Ok(0)
        }
    }
}

fn main(rt: HostRuntime) -> ExitCode {
    match run(&rt, &rt) {
        Ok(status) => ExitCode::from(status),
        Err(fault) => {
            // If standard error takes nothing, the status still says what went wrong.
            let _ = eprintln!(rt; "shape_hits: {fault}");
            ExitCode::from(status_of(&fault))
        }
    }
}

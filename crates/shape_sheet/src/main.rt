//! Reads a dictionary of Go patterns, and prints the first of them in an order, drawn.
#![tactic(auto)]

mod commands;
mod words;

use command_lines::{Line, read_arguments, why_unread};
use engine_core::{RunFault, own_words, read_input, status_of, write_output};
use sheet_core::{Asked, Form, run_sheet};
use std::fs::File;
use std::io;
use std::process::ExitCode;
use words::Drawing;

/// Returns the bytes of the file `name`, which has lines of hits. If it can't be read, prints that
/// to standard error and returns the exit status in place of the bytes.
fn hits_of(rt: &HostRuntime, name: &str) -> Result<Result<Vec<u8>, u8>, RunFault> {
    let read = match File::open(rt, name) {
        Ok(mut file) => read_input(rt.alloc(), &mut file),
        Err(_) => Err(RunFault::Read),
    };
    match read {
        Ok(hits) => Ok(Ok(hits)),
        Err(RunFault::Read) => {
            let why = why_unread(rt, name).unwrap_or("a read failed");
            // If standard error takes nothing, the status still says it.
            let _ = eprintln!(rt; "shape_sheet: L3 hits not read: {name}: {why}");
            Ok(Err(6))
        }
        Err(fault) => Err(fault),
    }
}

/// Whether a page shows a line of hits below any pattern: whether it has the tag `<ul>`. Text from
/// files has no such tag, since it is escaped.
fn has_places(page: &[u8]) -> bool {
    for start in 0..page.len() {
        if page[start..].starts_with(b"<ul>") {
            return true;
        }
    }
    false
}

/// Returns the lines of hits in the file `name`, none if no file is named. If the file can't be
/// read, prints that to standard error and returns the exit status in place of the lines.
fn lines_of(rt: &HostRuntime, name: Option<&str>) -> Result<Result<Vec<u8>, u8>, RunFault> {
    match name {
        None => Ok(Ok(Vec::new(rt.alloc()))),
        Some(name) => hits_of(rt, name),
    }
}

/// Returns the sheet, the drawing of the first patterns, of the dictionary on standard input. On a
/// page each pattern has the first of its lines in `hits` below it.
fn sheet_of(rt: &HostRuntime, asked: Asked, hits: &[u8]) -> Result<Vec<u8>, RunFault> {
    let mut sheet = Vec::new(rt.alloc());
    match run_sheet(rt.alloc(), asked, hits, &mut rt.stdin(), &mut sheet) {
        Ok(()) => Ok(sheet),
        Err(RunFault::Write { .. }) => Err(RunFault::Memory),
        Err(fault) => Err(fault),
    }
}

/// Prints the sheet (the drawing of a dictionary's first patterns). If the file of hits `name` is
/// given and no pattern of a page has a line in it, that is printed to standard error. Returns the
/// exit status.
fn draw(rt: &HostRuntime, asked: Asked, name: Option<&str>) -> Result<u8, RunFault> {
    let hits = match lines_of(rt, name)? {
        Ok(hits) => hits,
        Err(status) => return Ok(status),
    };
    let sheet = sheet_of(rt, asked, &hits)?;
    write_output(&mut rt.stdout(), &sheet)?;
    let Some(name) = name else {
        return Ok(0);
    };
    if asked.form == Form::Page && !has_places(&sheet) {
        // If standard error takes nothing, the sheet is written all the same.
        let _ = eprintln!(rt;
            "shape_sheet: no line of {name} is of a pattern here, as shape_hits --words has them"
        );
    }
    Ok(0)
}

/// Does what the words of the command line ask for, or prints help or version. Returns the exit
/// status.
fn run(rt: &HostRuntime) -> Result<u8, RunFault> {
    let words = own_words(rt)?;
    match read_arguments(rt.alloc(), &words)? {
        Line::Asked(Drawing { sheet, hits }) => draw(rt, sheet, hits),
        Line::Told(text) => {
            write_output(&mut rt.stdout(), text.as_bytes())?;
            Ok(0)
        }
    }
}

fn main(rt: HostRuntime) -> ExitCode {
    match run(&rt) {
        Ok(status) => ExitCode::from(status),
        Err(fault) => {
            // If standard error takes nothing, the status still says what went wrong.
            let _ = eprintln!(rt; "shape_sheet: {fault}");
            ExitCode::from(status_of(&fault))
        }
    }
}

//! Lines on standard error about what went wrong with a join. If a line can't be written, that is
//! ignored.
ghost use Rattle.std.specs.Prelude.{◌≡◌, ◌+◌, ◌<◌, ℕ, Some, length, slice_get};
ghost use Rattle.merge_core.specs.Status.{status_of};

use crate::words::Asked;
use command_lines::why_unread;
use merge_core::{MergeFault, status_of};
use std::{fs, io};

/// Returns the name of dictionary `n`, counted from 1, or an empty one if there is no such name.
fn name_of<'a>(names: &[&'a str], n: usize) -> &'a str
    ensures { (k : ℕ) → n ≡ k + 1 → k < length names.now → slice_get names.now k ≡ Some result }
{
    if n == 0 || n > names.len() {
        return "";
    }
    names[n - 1]
}

/// Says on standard error that a write of the file `name` failed after `written` bytes, and why, if
/// the system shows it.
fn tell_unwritten(rt: &HostRuntime, name: &str, written: usize) {
    let why = match fs::metadata(rt, name) {
        Ok(metadata) if metadata.is_dir() => "it is a folder",
        Ok(_) => "a write failed",
        Err(_) => "it can't be made",
    };
    let _ = eprintln!(rt; "shape_merge: I2 write failed after {written} bytes: {name}: {why}");
}

/// Says on standard error that the file `name`, dictionary `n` from 1, was not read, and why, if
/// the system shows it. `written` is how many bytes of the join were written.
fn tell_unread(rt: &HostRuntime, n: usize, name: &str, written: usize) {
    let why = why_unread(rt, name).unwrap_or("read failed or changed");
    let _ = eprintln!(rt; "shape_merge: dictionary {n}, {name}: I1 {why}, {written} bytes written");
}

/// Says on standard error that the dictionary `name` can't be joined, and why, as far as the system
/// shows it: a regular file is one that is written too. Returns the exit status, 2.
pub fn tell_barred(rt: &HostRuntime, name: &str) -> u8
    ensures { result ≡ 2 }
{
    let why = match fs::metadata(rt, name) {
        Ok(metadata) if metadata.is_dir() => "is a folder",
        Ok(metadata) if metadata.is_file() => "is also written",
        _ => "can't be read twice",
    };
    let _ = eprintln!(rt; "shape_merge: U1 usage: {name} {why}");
    2
}

/// Says on standard error that the file `name`, number `k` from 0, changed while it was joined.
/// Returns the exit status, 6.
pub fn tell_changed(rt: &HostRuntime, k: usize, name: &str) -> u8
    ensures { result ≡ 6 }
{
    let n = k.saturating_add(1);
    let _ = eprintln!(rt; "shape_merge: dictionary {n}, {name}: I1 changed while it was joined");
    6
}

/// Says on standard error, in one line, what `fault` is and with which file, and returns the exit
/// status. If standard error takes nothing, the status still says what went wrong.
pub fn tell(rt: &HostRuntime, asked: &Asked<'_>, fault: &MergeFault) -> u8
    ensures { result ≡ status_of fault.now }
{
    match (fault, asked.out) {
        (MergeFault::Dict { n, fault }, _) => {
            let name = name_of(&asked.names, *n);
            let _ = eprintln!(rt; "shape_merge: dictionary {n}, {name}: {fault}");
        }
        (MergeFault::Read { n, written }, _) => {
            tell_unread(rt, *n, name_of(&asked.names, *n), *written);
        }
        (MergeFault::Write { written }, Some(name)) => tell_unwritten(rt, name, *written),
        (other, _) => {
            let _ = eprintln!(rt; "shape_merge: {other}");
        }
    }
    status_of(fault)
}

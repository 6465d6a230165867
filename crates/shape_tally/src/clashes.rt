//! Files to be written that the same run also reads, or would write twice.
use crate::words::Asked;
use game_files::Source;
use std::fs;
use std::os::unix::fs::MetadataExt;

/// Why a file can't be written: the same run also uses it for something else.
#[derive(Clone, Copy, Debug, PartialEq, Eq)]
pub enum Clash<'a> {
    /// The file of this name is an input too.
    Input(&'a str),
    /// The dictionary and the report have one file, of this name.
    Report(&'a str),
}

/// The identity of a regular file: its device number and its inode number there.
#[derive(Clone, Copy, PartialEq, Eq)]
struct Identity {
    device: u64,
    number: u64,
}

/// Returns the identity of the regular file at the path `name`; symbolic links are followed. None
/// if no regular file is there, or its metadata can't be read.
fn identity_of(rt: &HostRuntime, name: &str) -> Option<Identity> {
    let found = fs::metadata(rt, name).ok()?;
    found.is_file().then_some(Identity {
        device: found.dev(),
        number: found.ino(),
    })
}

/// Whether the regular file at the path `name` is one of the inputs `sources`, perhaps under
/// another path. False if no such file is there. Standard input is not compared.
fn is_input(rt: &HostRuntime, sources: &[Source], name: &str) -> bool {
    let Some(file) = identity_of(rt, name) else {
        return false;
    };
    for source in sources {
        if let Source::File(input) = source {
            if identity_of(rt, input.as_str()) == Some(file) {
                return true;
            }
        }
    }
    false
}

/// Whether the paths `one` and `other` lead to one regular file. If `one` leads to none, whether
/// the two paths are equal as texts.
fn are_one(rt: &HostRuntime, one: &str, other: &str) -> bool {
    match identity_of(rt, one) {
        Some(file) => identity_of(rt, other) == Some(file),
        None => one == other,
    }
}

/// Returns why a file that `asked` names can't be written, or None if no file has such a clash.
/// Checked in this order: the dictionary `asked.out` is one of the inputs `sources`, the report
/// `asked.report` is one, both are one file. A dictionary for standard output (`asked.out` is None)
/// is not looked at.
pub fn clash_of<'a>(rt: &HostRuntime, asked: &Asked<'a>, sources: &[Source]) -> Option<Clash<'a>> {
    for name in [asked.out, asked.report].into_iter().flatten() {
        if is_input(rt, sources, name) {
            return Some(Clash::Input(name));
        }
    }
    match (asked.out, asked.report) {
        (Some(out), Some(report)) if are_one(rt, out, report) => Some(Clash::Report(out)),
        _ => None,
    }
}

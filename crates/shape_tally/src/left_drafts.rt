//! Drafts (unfinished files that were to take their target's name) that killed runs left.
use std::fs::{self, File};

/// What a draft's name ends in.
const ENDING: &str = ".draft";

/// Whether `word` is a decimal number: one digit or more, and nothing else.
fn is_number(word: &str) -> bool {
    !word.is_empty() && word.as_bytes().iter().all(|byte| byte.is_ascii_digit())
}

/// Whether `name` is that of a draft of the file `target` in the same folder: the target's name,
/// the number of a process, another number, and `.draft`.
fn is_draft_of(name: &str, target: &str) -> bool {
    let Some(rest) = name.strip_prefix(target) else {
        return false;
    };
    let Some(rest) = rest.strip_suffix(ENDING) else {
        return false;
    };
    match rest.split_once('.') {
        Some(("", numbers)) => match numbers.split_once('.') {
            Some((process, number)) => is_number(process) && is_number(number),
            None => false,
        },
        _ => false,
    }
}

/// Splits a file's path into its folder and its name there. The folder is `.` if the path has no
/// slash.
fn parts_of(path: &str) -> (&str, &str) {
    match path.rsplit_once('/') {
        Some(("", name)) => ("/", name),
        Some(parts) => parts,
        None => (".", path),
    }
}

/// Removes the draft at `path`, unless a run has it locked. If it can't be opened, locked or
/// removed, it stays, and no error is reported.
fn remove_left(rt: &HostRuntime, path: &str) {
    let Ok(file) = File::open(rt, path) else {
        return;
    };
    if file.try_lock().is_ok() {
        // A draft that can't be removed stays, and does no harm to this run.
        let _ = fs::remove_file(rt, path);
    }
}

/// Removes the drafts of the file `target` (unfinished files beside it that were to take its name)
/// that no run has locked any more. A draft that can't be opened or removed stays as it is, and no
/// error is reported.
pub fn remove_left_drafts(rt: &HostRuntime, target: &str) {
    let (folder, own) = parts_of(target);
    let Ok(entries) = fs::read_dir(rt, folder) else {
        return;
    };
    for entry in entries {
        let Ok(entry) = entry else {
            continue;
        };
        let path = entry.path();
        let (_, name) = parts_of(path.as_str());
        if is_draft_of(name, own) {
            remove_left(rt, path.as_str());
        }
    }
}

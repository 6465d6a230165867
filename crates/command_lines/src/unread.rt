//! Why a file that a word of the command line names was not read.
use std::fs::File;
use std::io::ErrorKind;

/// Tries to open the file of this name, and returns in a few words why it can't be opened, or None
/// if it can be.
pub fn why_unread(rt: &HostRuntime, name: &str) -> Option<&'static str> {
    match File::open(rt, name) {
        Ok(_) => None,
        Err(error) => Some(match error.kind() {
            ErrorKind::NotFound => "no such file",
            ErrorKind::PermissionDenied => "permission denied",
            _ => "it can't be opened",
        }),
    }
}

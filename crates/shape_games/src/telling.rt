//! What is printed to standard error about an input. A failure to print is ignored.
use game_files::{Cause, Shown, Why};
use std::{fmt, io};

/// The name of a file, shown with a colon before what is said of it; nothing for standard input.
#[derive(Clone, Copy)]
pub struct Named<'a>(pub Option<&'a str>);

impl fmt::Display for Named<'_> {
    fn fmt<W: fmt::Write>(&self, f: &mut fmt::Formatter<W>) -> fmt::Result {
        match self.0 {
            Some(name) => write!(f, "{}: ", Shown(name)),
            None => Ok(()),
        }
    }
}

/// Prints to standard error that an input has no tree, and if it is a file, what it may be.
pub fn tell_no_tree(rt: &HostRuntime, name: Option<&str>, cause: Cause) {
    let _ = match name {
        Some(_) => eprintln!(rt; "shape_games: {}no tree: {cause}", Named(name)),
        None => eprintln!(rt; "shape_games: no tree"),
    };
}

/// Prints to standard error what is wrong with a name.
pub fn tell_flaw(rt: &HostRuntime, name: &str, why: Why) {
    let _ = eprintln!(rt; "shape_games: {}{why}", Named(Some(name)));
}

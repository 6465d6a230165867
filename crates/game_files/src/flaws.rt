//! Flaws of names: why a name gives no file that is read, or not all of them, and the exit status
//! for it.
ghost use Rattle.std.specs.Prelude.{◌≡◌};
ghost use Rattle.game_files.specs.Flaws.{status_of};

use std::fmt;

/// Why a name gives no file that is read, or not all of them.
#[derive(Clone, Copy, Debug, PartialEq, Eq)]
pub enum Why {
    /// There is no such file.
    Missing,
    /// To look at it, or to open it, is not permitted.
    Denied,
    /// It is a link that leads back to itself.
    Circle,
    /// It can't be looked at, or opened, for another reason.
    Unopened,
    /// It is a folder, and no file below it has a name that ends in `.sgf`.
    NoGames,
    /// It is a folder, or a list of names, and this many names below or in it are not UTF-8 and
    /// were passed over.
    PassedOver(u64),
}

impl fmt::Display for Why {
    fn fmt<W: fmt::Write>(&self, f: &mut fmt::Formatter<W>) -> fmt::Result {
        match self {
            Why::Missing => f.write_str("I1 no such file"),
            Why::Denied => f.write_str("I1 permission denied"),
            Why::Circle => f.write_str("I1 a link that leads back to itself"),
            Why::Unopened => f.write_str("I1 it can't be opened"),
            Why::NoGames => f.write_str("no .sgf file below it"),
            Why::PassedOver(names) => {
                write!(f, "{names} names that are not UTF-8 are passed over")
            }
        }
    }
}

/// A name, and what is wrong with it.
#[derive(Debug, Drop)]
pub struct Flaw {
    /// The name as it was given; for a name below a folder, that of the folder stands before it.
    pub name: String,
    /// What is wrong with it.
    pub why: Why,
}

/// Returns the exit status of a run that met `why`: 0 if names were only passed over, 1 if a folder
/// has no file of games, 6 if a file could not be read.
pub fn status_of(why: Why) -> u8
    ensures { result ≡ status_of why }
{
    match why {
        Why::PassedOver(_) => 0,
        Why::NoGames => 1,
        Why::Missing | Why::Denied | Why::Circle | Why::Unopened => 6,
    }
}

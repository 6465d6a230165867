//! From a reader to a writer: the listing of a collection.
ghost use Rattle.std.specs.Prelude.{◌≤◌, IfOk, IfErr};
ghost use Rattle.engine_core.specs.Runs.{HasRead, Wrote, IsRunFault};
ghost use Rattle.listing_core.specs.Listing.{most_first, IsListing, HasListing, IsListingFault};

use crate::asked::Asked;
use crate::listings::{Summary, listing_of};
use engine_core::{RunFault, read_input, write_output};
use std::alloc::Global;
use std::io::{Read, Write};

/// The greatest number that the first game of an input may have: 2^63.
pub const MOST_FIRST: u64 = 1 << 63;

/// Reads a collection and writes what is asked for of it: a line for each tree, or the trees that
/// are chosen, in their order. Returns how the listing ended, and how many of the trees are games,
/// of other games, and refused. The next input's first game has the number `asked.first` plus the
/// number of games here.
///
/// In the forms `Lines` and `Columns` a tree's line has the number of its game, where it begins and
/// ends (byte indices, from 0), and what it is: a game with its board, its moves and its occasions
/// (moves onto empty points), a tree of another game, or a tree that is refused, with the fault of
/// its record. `Columns` have what the game's first node says besides. In the form `Trees` each
/// game that is chosen is cut out: written as it stands in the input.
///
/// With conditions only games that meet them all are written; their numbers stay those of all
/// games. Without conditions, a fault of syntax has a last line, after those of the trees before
/// it, unless trees are cut out. If there is no tree, nothing is written.
///
/// Games are numbered and occasions counted as by `shapes count`. It takes memory for the input,
/// what is written, and a tree with its record and board at a time.
///
/// # Errors
///
/// `Sgf` with S4 if the input has more than 2^28 bytes, and with S5 if memory for a tree was
/// refused. `Record` with G4 and `Board` with B1 if memory for the record or the board of a game
/// was refused. Such memory is asked for only if a whole tree is next, G4 only if an action of it
/// comes before the first fault, and B1 only if it is a game. `Memory` if memory for the input, for
/// what is written, or for the text of a condition's key was refused. `Read` if the reader failed.
/// Nothing is written then. `Write` if the writer failed: it has the exact number of bytes that
/// were written. A fault of syntax is no error: the returned `Summary` has it.
pub fn run_listing<R: Read, W: Write>(
    alloc: Global,
    asked: &Asked<'_>,
    reader: &mut R,
    writer: &mut W,
) -> Result<Summary, RunFault>
    requires { asked.now.first ≤ most_first }
    ensures read { HasRead result (R.remaining reader.old) (R.remaining reader.new) }
    ensures done { IfOk result (λ found. Wrote (IsListing asked.now found) (R.remaining reader.old)
        (W.contents writer.old) (W.contents writer.new)) }
    ensures fault { IfErr result (IsRunFault (HasListing asked.now) IsListingFault
        (R.remaining reader.old) (W.contents writer.old) (W.contents writer.new)) }
{
    let input = read_input(alloc, reader)?;
    let (listing, found) = listing_of(alloc, asked, &input)?;
    write_output(writer, &listing)?;
    Ok(found)
}

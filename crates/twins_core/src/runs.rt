//! Reads collections, and writes which of their games have the record of an earlier game.
ghost use Rattle.std.specs.Prelude.{◌≤◌, List, option_map, IfOk, IfErr};
ghost use Rattle.engine_core.specs.Runs.{HasRead, Wrote, IsRunFault};
ghost use Rattle.listing_core.specs.Listing.{most_first};
ghost use Rattle.twins_core.specs.Twins.{Met, Knows};
ghost use Rattle.twins_core.specs.Runs.{IsTwinsText, HasTwinsText, IsTwinsFault};

use crate::reading::meet_all;
use crate::twins::Twins;
use engine_core::{RunFault, read_input, write_output};
use listing_core::{Summary, listed_by};
use sgf_core::Trees;
use std::alloc::Global;
use std::io::{Read, Write};

/// Returns the lines for those games of an input whose record an earlier game has, and how its
/// reading ended. All games of the input are added to `twins`. The first has the number `first`,
/// and `name` is that of the input's file.
fn twins_text(
    alloc: Global,
    twins: &mut Twins,
    first: u64,
    name: Option<&str>,
    input: &[u8],
) -> Result<(Vec<u8>, Summary), RunFault>
    requires { first ≤ most_first }
    ensures text { (before : List Met) → Knows twins.old before → IfOk result (λ p.
        IsTwinsText first (option_map (λ n. n.now) name.entry) before twins.new p.1 input.now
        p.0.items) }
    ensures fault { IfErr result (IsTwinsFault input.now) }
{
    let mut trees = Trees::new(input)?;
    let mut text = Vec::new(alloc);
    let ending = meet_all(alloc, twins, &mut trees, first, name, &mut text)?;
    let summary = Summary {
        listed: listed_by(ending.fault, ending.report),
        report: ending.report,
    };
    Ok((text, summary))
}

/// Reads a collection and writes a line for each of its games whose record an earlier game has: the
/// number of the game, that of the first game with the record, and where the trees of both are,
/// with their files. The record is the size of the board with the setup and the moves. The
/// collection's first game has the number `first`, and `name` is that of its file.
///
/// Earlier games are those before it in this collection, and those of earlier runs with the same
/// `twins`. Afterwards `twins` has all games of the collection.
///
/// Returns how the reading ended, and how many trees are games, of other games, and refused; games
/// before a fault of syntax have been compared. It takes memory for the input, the lines, and a
/// tree with its record. For each new record `twins` keeps at most five bytes an action, where its
/// game is, and the name of the file. The time grows with the bytes of the input; besides, each
/// record is looked up among those that are kept.
///
/// # Errors
///
/// `Sgf` with S4 if the input has more than 2^28 bytes, and with S5 if memory for a tree was
/// refused. `Record` with G4 if memory for a record was refused. Such memory is asked for only if a
/// whole tree is next, and G4 only if an action of it comes before the first fault. `Memory` if
/// other memory was refused; `Read` if the reader failed. Nothing is written then. `Write` if the
/// writer failed: it has the exact number of bytes that were written. After an error nothing is
/// guaranteed of the games that `twins` has.
pub fn run_twins<R: Read, W: Write>(
    alloc: Global,
    twins: &mut Twins,
    first: u64,
    name: Option<&str>,
    reader: &mut R,
    writer: &mut W,
) -> Result<Summary, RunFault>
    requires { first ≤ most_first }
    ensures read { HasRead result (R.remaining reader.old) (R.remaining reader.new) }
    ensures done { (before : List Met) → Knows twins.old before → IfOk result (λ found.
        Wrote (IsTwinsText first (option_map (λ n. n.now) name.entry) before twins.new found)
        (R.remaining reader.old) (W.contents writer.old) (W.contents writer.new)) }
    ensures fault { (before : List Met) → Knows twins.old before → IfErr result (IsRunFault
        (HasTwinsText first (option_map (λ n. n.now) name.entry) before twins.new) IsTwinsFault
        (R.remaining reader.old) (W.contents writer.old) (W.contents writer.new)) }
{
    let input = read_input(alloc, reader)?;
    let (text, found) = twins_text(alloc, twins, first, name, &input)?;
    write_output(writer, &text)?;
    Ok(found)
}

//! The games of an input, with their numbers and the byte indices of their trees.
ghost use Rattle.std.specs.Prelude.{IfOk, IfErr};
ghost use Rattle.hits_core.specs.Inner.Reading.{HasReadAll, IsReadFault};

use crate::games::Game;
use game_core::{Games, Report};
use std::alloc::Global;
use tally_core::TallyFault;

/// Returns all games of `input`, of which the first has the number `first`, and the report: how
/// many trees are games, are of other games, and are refused for a fault in their record. It takes
/// memory for the records of the games, and for a tree at a time.
///
/// # Errors
///
/// `Sgf` with S4 if the input has more than 2^28 bytes, else with its first fault of syntax;
/// `Memory` if memory was refused; `Overflow` if a game's number would be over 2^64 - 1.
pub(crate) fn read_games(
    alloc: Global,
    input: &[u8],
    first: u64,
) -> Result<(Vec<Game>, Report), TallyFault>
    ensures games { IfOk result (λ p. HasReadAll input.now first p.0.items p.1) }
    ensures fault { IfErr result (IsReadFault input.now) }
{
    let mut reader = Games::new(input)?;
    let mut games = Vec::new(alloc);
    while let Some(job) = reader.next_job(alloc)? {
        let Some(number) = first.checked_add(job.game()) else {
            return Err(TallyFault::Overflow);
        };
        games.push(Game {
            number,
            place: job.at(),
            recorded: job.into_record(),
        })?;
    }
    Ok((games, reader.report()))
}

//! The hits of games (times that a pattern was played or was there), one game after another, up to
//! as many as are asked for.
ghost use Rattle.std.specs.Prelude.{◌≡◌, IfOk, IfErr, OnOk};
ghost use Rattle.tally_core.specs.declared.faults.TallyFault.TheVariants as fault;
ghost use Rattle.hits_core.specs.Inner.Finding.{AddsGame};
ghost use Rattle.hits_core.specs.Inner.Parts.{IsPart};

use crate::found::Found;
use crate::games::Game;
use crate::hits::Hit;
use crate::playing::find_played;
use crate::searches::Sought;
use crate::wanted::Wanted;
use crate::watching::find_there;
use std::alloc::Global;
use tally_core::TallyFault;

/// Replays `game`, and adds to `found` a hit for each time that a pattern of `wanted` was played,
/// or was there, as `sought` says, up to as many as are asked for. The only error is `Memory`:
/// memory was refused.
fn find_one(
    alloc: Global,
    wanted: &Wanted,
    sought: Sought,
    game: &Game,
    found: &mut Found,
) -> Result<(), TallyFault>
    ensures grown { OnOk result (AddsGame sought wanted.now game.now found.old found.new) }
    ensures fault { IfErr result (λ found. found ≡ fault.Memory) }
{
    match sought {
        Sought::Played => find_played(alloc, wanted, game, found),
        Sought::There => find_there(alloc, wanted, game, found),
    }
}

/// Returns the first hits in `games`, at most `most` (None for all): the times that a pattern of
/// `wanted` was played, or was there, as `sought` says. Once `most` are found, no further game is
/// replayed. It takes memory for the hits, and for one game's board. The only error is `Memory`:
/// memory was refused.
pub(crate) fn find_in(
    alloc: Global,
    wanted: &Wanted,
    sought: Sought,
    most: Option<u64>,
    games: &[Game],
) -> Result<Vec<Hit>, TallyFault>
    ensures part { IfOk result (λ hits. IsPart sought wanted.now most games.now hits.items) }
    ensures fault { IfErr result (λ found. found ≡ fault.Memory) }
{
    let mut found = Found {
        hits: Vec::new(alloc),
        most,
    };
    for game in games {
        if found.is_full() {
            return Ok(found.hits);
        }
        find_one(alloc, wanted, sought, game, &mut found)?;
    }
    Ok(found.hits)
}

//! Checks that each game is in exactly one share (what one worker has counted).
ghost use Rattle.std.specs.Prelude.{◌≡◌, ◌<◌, ℕ, List, ◌++◌, ◌∷◌, [], All, length, OnOk, IfOk};
ghost use Rattle.std.specs.Prelude.{IfErr};
ghost use Rattle.gather_core.specs.Covering.{all_games, Covers};
ghost use Rattle.table_shares.specs.Inner.Covering.{AreNoted, IsCoverFault};
ghost use Rattle.harvest_faults.specs.declared.faults.HarvestFault.TheVariants as fault;

use crate::shares::Share;
use harvest_faults::HarvestFault;
use std::alloc::Global;

/// For each game's number, whether the game was seen in a share, and the least game that was seen
/// twice.
#[derive(Drop)]
struct Seen {
    games: Vec<bool>,
    twice: Option<u64>,
}

/// Notes a game as seen. If it was seen before, `seen.twice` becomes `game`, unless it has a lesser
/// game already.
fn note(seen: &mut Seen, game: u64)
    requires { game < length seen.old.games.items }
    ensures long { length seen.new.games.items ≡ length seen.old.games.items }
    ensures noted { (list : List ℕ) → AreNoted list seen.old
        → AreNoted (list ++ game ∷ []) seen.new }
{
    let at = game as usize;
    if !seen.games[at] {
        seen.games[at] = true;
        return;
    }
    seen.twice = match seen.twice {
        None => Some(game),
        Some(least) => Some(least.min(game)),
    };
}

/// Notes each of `games` as seen, in `seen`.
fn note_all(seen: &mut Seen, games: &[u64])
    requires { All (λ game. game < length seen.old.games.items) games.now }
    ensures long { length seen.new.games.items ≡ length seen.old.games.items }
    ensures noted { (list : List ℕ) → AreNoted list seen.old
        → AreNoted (list ++ games.now) seen.new }
{
    for game in games {
        note(seen, *game);
    }
}

/// Returns which games the shares have, each of which must be below `games`. It takes memory for
/// `games` flags; `Memory` if that was refused.
fn seen_of(alloc: Global, games: u64, shares: &[Share]) -> Result<Seen, HarvestFault>
    requires { All (λ share. All (λ game. game < games) share.games) shares.now }
    ensures long { IfOk result (λ seen. length seen.games.items ≡ games) }
    ensures noted { IfOk result (AreNoted (all_games shares.now)) }
    ensures fault { IfErr result (λ found. found ≡ fault.Memory) }
{
    let games = vec![in alloc; false; games as usize]?;
    let mut seen = Seen { games, twice: None };
    for share in shares {
        note_all(&mut seen, share.games());
    }
    Ok(seen)
}

/// Checks that each game below `games` was seen once. `Twice` with the least game that was seen
/// more than once; else `Missing` with the least one that was not seen.
fn judge(seen: &Seen, games: u64) -> Result<(), HarvestFault>
    requires { length seen.now.games.items ≡ games }
    ensures ok { OnOk result ((list : List ℕ) → AreNoted list seen.now → Covers games list) }
    ensures fault { IfErr result (λ found. (list : List ℕ) → AreNoted list seen.now
        → IsCoverFault games list found) }
{
    if let Some(game) = seen.twice {
        return Err(HarvestFault::Twice(game));
    }
    for game in 0..games {
        if !seen.games[game as usize] {
            return Err(HarvestFault::Missing(game));
        }
    }
    Ok(())
}

/// Checks that each game below `games` is in one share, once. `Twice` with the least game that the
/// shares have more than once; else `Missing` with the least one that they don't have. `Memory` if
/// memory was refused.
pub(crate) fn check_games(alloc: Global, games: u64, shares: &[Share]) -> Result<(), HarvestFault>
    requires { All (λ share. All (λ game. game < games) share.games) shares.now }
    ensures ok { OnOk result (Covers games (all_games shares.now)) }
    ensures fault { IfErr result (IsCoverFault games (all_games shares.now)) }
{
    let seen = seen_of(alloc, games, shares)?;
    judge(&seen, games)
}

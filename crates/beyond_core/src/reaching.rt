//! Finds the game with which a counted collection first has more patterns than some number, from
//! the first games in its dictionary alone.
ghost use Rattle.std.specs.Prelude.{◌≡◌, ◌+◌, ◌<◌, ◌≤◌, ◌^◌, ℕ, length, get_or, IfOk, IfErr};
ghost use Rattle.harvest_faults.specs.declared.faults.HarvestFault.TheVariants as fault;
ghost use Rattle.beyond_core.specs.Inner.TooMany.{entries_before, new_count, AreCounts};

use harvest_faults::HarvestFault;
use shape_dict::{Entry, PieceDictionary};
use std::alloc::Global;

/// A game, and how many patterns the games below it have.
#[derive(Clone, Copy)]
pub(crate) struct Reached {
    pub game: u64,
    pub before: usize,
}

/// Adds 1, for each pattern of a list, to the count of its first game. `counts` has the counts of
/// the games from 0 on; other games are passed over.
fn count_firsts(counts: &mut [usize], entries: &[Entry])
    requires few { (i : ℕ) → i < length counts.old
        → get_or counts.old i 0 + length entries.now < 2 ^ 64 }
    ensures long { length counts.new ≡ length counts.old }
    ensures counted { (i : ℕ) → i < length counts.old
        → get_or counts.new i 0 ≡ get_or counts.old i 0 + new_count i entries.now }
{
    for entry in entries {
        let Some(game) = entry.first.get() else {
            continue;
        };
        if game < counts.len() as u64 {
            counts[game as usize] += 1;
        }
    }
}

/// Returns how many patterns each game is the first to have. It takes memory for these counts.
fn counts_of(alloc: Global, dictionary: &PieceDictionary) -> Result<Vec<usize>, HarvestFault>
    ensures long { IfOk result (λ counts. length counts.items ≡ dictionary.now.games) }
    ensures counted { IfOk result (λ counts. AreCounts counts.items dictionary.now.entries) }
    ensures fault { IfErr result (λ found. found ≡ fault.Memory) }
{
    let mut counts = vec![in alloc; 0usize; dictionary.games() as usize]?;
    for piece in dictionary.pieces() {
        count_firsts(counts.as_mut_slice(), piece.as_slice());
    }
    Ok(counts)
}

/// Returns the game with whose patterns there are first more than `most`: the games below it have
/// at most `most`, and together with it they have more. It takes memory for a count of each game.
pub(crate) fn game_of(
    alloc: Global,
    dictionary: &PieceDictionary,
    most: usize,
) -> Result<Reached, HarvestFault>
    requires { most < length (entries_before dictionary.now.games dictionary.now.entries) }
    ensures before { IfOk result (λ reached. reached.before
        ≡ length (entries_before reached.game dictionary.now.entries)) }
    ensures few { IfOk result (λ reached. reached.before ≤ most) }
    ensures more { IfOk result (λ reached. most
        < length (entries_before (reached.game + 1) dictionary.now.entries)) }
    ensures fault { IfErr result (λ found. found ≡ fault.Memory) }
{
    let counts = counts_of(alloc, dictionary)?;
    let mut before = 0;
    for (game, count) in counts.as_slice().iter().enumerate() {
        if *count > most - before {
            return Ok(Reached {
                game: game as u64,
                before,
            });
        }
        before += *count;
    }
    unreachable!()
}

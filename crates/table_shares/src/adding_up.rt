//! Makes the dictionary of all that shares have counted (a share is what one worker has counted).
ghost use Rattle.std.specs.Prelude.{◌≡◌, ◌≤◌, ◌^◌, All, IfOk, IfErr, OnOk};
ghost use Rattle.harvest_faults.specs.declared.faults.HarvestFault.TheVariants as fault;
ghost use Rattle.gather_core.specs.Shares.{IsShare};
ghost use Rattle.gather_core.specs.Covering.{all_games, Covers};
ghost use Rattle.gather_core.specs.Gathering.{all_rows};
ghost use Rattle.table_shares.specs.Inner.Totals.{AreEntriesOf};
ghost use Rattle.gather_core.specs.Gathering.{AreWithin, all_moves, IsGathered};

use crate::shares::Share;
use harvest_faults::HarvestFault;
use shape_core::{Kinds, kinds_stay};
use shape_dict::{Dictionary, Entry, put_in_order};
use std::thread::Threads;
use tally_core::has_diamonds;

/// Returns how many moves onto empty points the games of all shares have together, or `Overflow` if
/// they pass 2^64 - 1.
fn moves_of(shares: &[Share]) -> Result<u64, HarvestFault>
    ensures ok { IfOk result (λ moves. moves ≡ all_moves shares.now) }
    ensures shares { OnOk result (All IsShare shares.now) }
    ensures large { IfErr result (λ found. 2 ^ 64 ≤ all_moves shares.now) }
    ensures fault { IfErr result (λ found. found ≡ fault.Overflow) }
{
    let mut moves: u64 = 0;
    for share in shares {
        // For the proof alone: by the contract of `games` the sums of a share are those of its
        // games.
        let _ = share.games();
        let Some(more) = moves.checked_add(share.moves()) else {
            return Err(HarvestFault::Overflow);
        };
        moves = more;
    }
    Ok(moves)
}

/// Makes the dictionary of all shares (a share is what one worker has counted). `listed` are the
/// dictionary's entries, in any order: the sums of the shares' counts by pattern. Threads that `rt`
/// starts put them in order. Each share must have counted patterns of these `kinds`, and the shares
/// must together have each game below `games` once. It takes no memory.
///
/// # Errors
///
/// `Overflow` if the moves pass 2^64 - 1.
pub(crate) fn add_up<R: Threads + Sync>(
    rt: &R,
    kinds: Kinds,
    games: u64,
    listed: Vec<Entry>,
    shares: &[Share],
) -> Result<Dictionary, HarvestFault>
    requires kinds { All (λ share. share.kinds ≡ kinds) shares.now }
    requires within { AreWithin games shares.now }
    requires covers { Covers games (all_games shares.now) }
    requires entries { AreEntriesOf (all_rows shares.now) listed.items }
    ensures ok { IfOk result (IsGathered kinds games shares.now) }
    ensures fault { IfErr result (λ found. (found ≡ fault.Overflow)
        × (2 ^ 64 ≤ all_moves shares.now)) }
{
    // For the proof: a canonical word is of the kind (square or diamond) of the word it is made of.
    kinds_stay();
    let moves = moves_of(shares)?;
    let entries = put_in_order(rt, shares.len(), listed);
    Ok(Dictionary::new(games, moves, entries, has_diamonds(kinds)))
}

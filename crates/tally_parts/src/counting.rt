//! Counts one part (texts that are counted together), and stores its dictionary as a text.
ghost use Rattle.std.specs.Prelude.{◌≡◌, ◌≢◌, ◌^◌, ◌<◌, ℕ, List, All, OnOk, IfOk, IfErr};
ghost use Rattle.tally_parts.specs.declared.faults.PartsFault.TheVariants as fault;
ghost use Rattle.shape_dict.specs.Text.{IsSmall};
ghost use Rattle.batch_core.specs.Batch.{joined};
ghost use Rattle.tally_parts.specs.Parts.{kinds_for, IsDictionaryOfTexts};
ghost use Rattle.tally_parts.specs.Inner.Joining.{AreAllGood, IsKept};

use crate::faults::PartsFault;
use crate::plans::{Plan, kinds_for};
use crate::spills::Spills;
use batch_core::games_of_joined;
use harvest_core::{FreeGate, harvest_all};
use shape_dict::{Entry, PieceDictionary, Text};
use std::alloc::Global;
use std::sync::Wait;
use std::thread::Threads;

/// The most threads that make a text of a dictionary.
const MOST_THREADS: usize = 16;

/// The fewest threads that make a text of a dictionary: counting is over then.
const LEAST_THREADS: usize = 4;

/// Returns how many threads make a text of a dictionary: as many as the plan has workers, but at
/// least `LEAST_THREADS` and at most `MOST_THREADS`.
pub(crate) fn threads_for(plan: Plan) -> usize {
    usize::from(plan.workers).clamp(LEAST_THREADS, MOST_THREADS)
}

/// Shows the prover that the counts of an entry are below 2^64.
fn counts_fit(entry: Entry)
    ensures { entry.there < 2 ^ 64 }
{
    let _ = entry.there;
}

/// Shows the prover that the counts of all entries of a list are below 2^64.
fn list_fits(entries: &[Entry])
    ensures { All (λ entry. entry.there < 2 ^ 64) entries.now }
{
    for entry in entries {
        counts_fit(*entry);
    }
}

/// Shows the prover that all numbers of a dictionary are below 2^64.
fn numbers_fit(dictionary: &PieceDictionary)
    ensures { IsSmall dictionary.now }
{
    let _games = dictionary.games();
    let _moves = dictionary.moves();
    let _count = dictionary.len();
    let pieces = dictionary.pieces();
    for piece in pieces {
        list_fits(piece.as_slice());
    }
}

/// Counts the games of `part`, whose bytes are the texts one after another, by `plan.workers`
/// workers, and returns their dictionary. The games are numbered from 0 in the order of the texts.
///
/// # Errors
///
/// `Count` with `Memory` (F6) if memory was refused. No other fault comes, since each text can be
/// read.
pub(crate) fn count_part<R: Threads + Wait + Sync>(
    rt: &R,
    alloc: Global,
    plan: Plan,
    part: &[u8],
) -> Result<PieceDictionary, PartsFault>
    ensures counted { (texts : List (List ℕ)) → AreAllGood texts → part.now ≡ joined texts
        → IfOk result (IsDictionaryOfTexts (kinds_for plan.text) texts) }
    ensures small { IfOk result IsSmall }
    ensures wanted { IfErr result (λ found. found ≢ fault.Unwanted) }
{
    // For the proof alone: the games of the part are those of its texts.
    games_of_joined();
    match harvest_all(
        rt,
        alloc,
        kinds_for(plan.text),
        plan.workers,
        part,
        &FreeGate,
    ) {
        Ok(counted) => {
            numbers_fit(&counted.dictionary);
            Ok(counted.dictionary)
        }
        Err(fault) => Err(PartsFault::Count(fault)),
    }
}

/// Writes the dictionary of a part as text 3, which leaves nothing of it out, and stores that text
/// in `spills` as the last one.
///
/// # Errors
///
/// `Memory` if memory for the text was refused; `Spill` if it could not be stored.
pub(crate) fn spill<R: Threads + Sync, S: Spills>(
    rt: &R,
    alloc: Global,
    plan: Plan,
    dictionary: &PieceDictionary,
    spills: &mut S,
) -> Result<(), PartsFault>
    ensures kept { OnOk result (IsKept (S.number spills.old) (S.bytes spills.old) (S.number spills.new)
        (S.bytes spills.new) dictionary.now) }
    ensures wanted { IfErr result (λ found. found ≢ fault.Unwanted) }
{
    let Ok(parts) = dictionary.parts(rt, alloc, Text::Three, threads_for(plan)) else {
        return Err(PartsFault::Memory);
    };
    match spills.keep(rt, parts.as_slice()) {
        Ok(()) => Ok(()),
        Err(_) => Err(PartsFault::Spill),
    }
}

//! Several threads count a collection by words (the codes of patterns), and one dictionary is made
//! of what they have met.
ghost use Rattle.std.specs.Prelude.{◌≡◌, ◌⊎◌, ◌<◌, ◌≤◌, ℕ, List, length, IfOk, IfErr};
ghost use Rattle.std.specs.Prelude.{IsErrAnd};
ghost use Rattle.sgf_core.specs.Limit.{most_bytes};
ghost use Rattle.sgf_core.specs.declared.faults.SgfFault.TheVariants as sgf;
ghost use Rattle.tally_core.specs.Counted.{IsCounted};
ghost use Rattle.harvest_faults.specs.declared.faults.HarvestFault.TheVariants as fault;
ghost use Rattle.job_core.specs.Rule.{all_parts};
ghost use Rattle.slot_table.specs.Passes.{IsPassOf};
ghost use Rattle.harvest_core.specs.Inner.Threads.{reader_of, AreThreadCounts};
ghost use Rattle.harvest_core.specs.Harvest.{IsCountRefused};

use crate::gates::Gate;
use crate::threads::{ThreadCounts, count_all};
use crate::workers::Shared;
use gather_core::{GatheredWords, gather_words};
use harvest_faults::HarvestFault;
use job_core::{Endpoint, Games, new_queue};
use probe_core::{Capacity, OddRuns};
use shape_core::Kinds;
use slot_table::{Pass, SlotTable};
use std::alloc::Global;
use std::sync::Wait;
use std::thread;
use std::thread::Threads;
use tally_core::Counted;

/// The least number of threads that count: one reads, and the other counts meanwhile.
const LEAST_THREADS: u8 = 2;

/// The most games that the queue holds.
const PLACES: usize = 128;

/// What was counted, and whether each pattern has its number (the index of its slot) in the table.
#[derive(Drop)]
pub(crate) struct Harvested {
    pub counted: Counted,
    pub numbered: bool,
}

/// The table in which patterns get their numbers, the indices of its slots, and its first pass (the
/// right to call it).
#[derive(Drop)]
pub(crate) struct Numbering {
    pub table: SlotTable<OddRuns>,
    pub pass: Pass<OddRuns>,
}

/// Makes a table of this capacity (number of slots) in which no number is taken, and its first
/// pass.
///
/// # Errors
///
/// `Memory` if memory was refused.
pub(crate) fn numbering_of(alloc: Global, capacity: Capacity) -> Result<Numbering, HarvestFault>
    ensures pass { IfOk result (λ made. IsPassOf made.table made.pass) }
    ensures fault { IfErr result (λ found. found ≡ fault.Memory) }
{
    let (table, pass) = SlotTable::new(alloc, OddRuns { capacity })?;
    Ok(Numbering { table, pass })
}

/// Returns how many threads count if this many workers were asked for: the workers and the thread
/// that reads, but no more than there are processors, since those beyond would only wait, and at
/// least two. If the system does not say how many processors there are, it is all that were asked
/// for.
fn threads_for<R: Threads>(rt: &R, asked: u8) -> u8 {
    let processors = match thread::available_parallelism(rt) {
        Ok(count) => u8::try_from(count.get()).unwrap_or(u8::MAX),
        Err(_) => u8::MAX,
    };
    asked.saturating_add(1).min(processors).max(LEAST_THREADS)
}

/// Makes the dictionary of `counts`, what all threads have counted by words, and gives its patterns
/// numbers in the table of `numbering`.
///
/// # Errors
///
/// `Memory` if memory was refused.
fn dictionary_of<R: Threads + Sync>(
    rt: &R,
    alloc: Global,
    kinds: Kinds,
    numbering: Numbering,
    counts: ThreadCounts,
) -> Result<Harvested, HarvestFault>
    requires pass { IsPassOf numbering.table numbering.pass }
    requires counts { (bytes : List ℕ) × AreThreadCounts bytes kinds counts }
    ensures counted { (bytes : List ℕ) → AreThreadCounts bytes kinds counts
        → IfOk result (λ harvested. IsCounted kinds bytes harvested.counted) }
    ensures fault { IfErr result (λ found. found ≡ fault.Memory) }
{
    let Numbering { table, mut pass } = numbering;
    let ThreadCounts { shares, report } = counts;
    let GatheredWords {
        dictionary,
        numbered,
    } = gather_words(rt, alloc, kinds, report.games, &table, &mut pass, shares)?;
    Ok(Harvested {
        counted: Counted { dictionary, report },
        numbered,
    })
}

/// Counts all games of an input, and makes a table of this capacity (number of slots) meanwhile, in
/// one more thread if one can be started. Returns the table and what all threads have counted.
///
/// # Errors
///
/// Those of `count_all`; `Memory` if memory for the table was refused.
fn count_beside_table<'q, 'a, R: Threads + Wait + Sync, G: Gate>(
    rt: &R,
    shared: &Shared<'q, 'a>,
    gate: &G,
    capacity: Capacity,
    games: Games<'a>,
    endpoint: Endpoint<'q, 'a>,
) -> Result<(Numbering, ThreadCounts), HarvestFault>
    requires endpoint { endpoint ≡ reader_of shared.now all_parts }
    requires games { (games.bytes ≡ shared.now.bytes.now) × (games.report.games ≡ 0) }
    ensures pass { IfOk result (λ both. IsPassOf both.0.table both.0.pass) }
    ensures counts { IfOk result
        (λ both. AreThreadCounts shared.now.bytes.now shared.now.kinds both.1) }
    ensures fault { IfErr result (IsCountRefused shared.now.bytes.now) }
{
    let alloc = shared.alloc;
    let (made, counts) = thread::join(
        rt,
        move || -> Result<Numbering, HarvestFault>
            ensures pass { IfOk result (λ numbering. IsPassOf numbering.table numbering.pass) }
            ensures refused { IfErr result (λ found. found ≡ fault.Memory) }
        { numbering_of(alloc, capacity) },
        move || -> Result<ThreadCounts, HarvestFault>
            requires endpoint { endpoint ≡ reader_of shared.now all_parts }
            requires games { (games.bytes ≡ shared.now.bytes.now) × (games.report.games ≡ 0) }
            ensures counts { IfOk result
                (AreThreadCounts shared.entry.now.bytes.now shared.entry.now.kinds) }
            ensures fault { IfErr result (IsCountRefused shared.entry.now.bytes.now) }
        { count_all(rt, shared, gate, games, endpoint) },
    );
    let counts = counts?;
    Ok((made?, counts))
}

/// Counts the collection `bytes` by words in several threads, and returns its dictionary, and how
/// many of its trees are games, of other games, or refused.
///
/// As many threads count as there are workers, and this one, but no more than there are processors,
/// and at least two. This thread reads, and puts a job for each game into a queue, from which the
/// others draw. It counts what the queue has no room for, and draws too when all is read. The
/// patterns get numbers, the indices of slots, in one new table of 2^exponent slots, which one more
/// thread makes meanwhile. More than 2^exponent patterns are no fault: they are all counted, and
/// `numbered` is false. `gate` is called before each game is counted.
///
/// It takes memory for the queue, for the records of the games in it, for the table, for each
/// thread for what its games meet and for the board, and for the dictionary.
///
/// # Errors
///
/// `Sgf` with `TooLarge` (S4) if the input has more than 2^28 bytes, else with its first fault of
/// syntax; `Memory` if memory was refused.
pub(crate) fn count_in_threads<R: Threads + Wait + Sync, G: Gate>(
    rt: &R,
    alloc: Global,
    kinds: Kinds,
    workers: u8,
    exponent: u32,
    bytes: &[u8],
    gate: &G,
) -> Result<Harvested, HarvestFault>
    requires { exponent ≤ 22 }
    ensures large { most_bytes < length bytes.now
        → IsErrAnd result (λ found. (found ≡ fault.Memory) ⊎ (found ≡ fault.Sgf sgf.TooLarge)) }
    ensures counted { IfOk result (λ harvested. IsCounted kinds bytes.now harvested.counted) }
    ensures fault { IfErr result (IsCountRefused bytes.now) }
{
    let Some(capacity) = Capacity::new(exponent) else {
        return Err(HarvestFault::BadSettings);
    };
    let games = Games::new(bytes)?;
    // `seat` is the right of this thread to call the queue.
    let (queue, seat) = new_queue(alloc, PLACES)?;
    let shared = Shared {
        alloc,
        kinds,
        workers: threads_for(rt, workers),
        bytes,
        queue: &queue,
    };
    let endpoint = Endpoint::open(&queue, seat, bytes);
    let (numbering, counts) = count_beside_table(rt, &shared, gate, capacity, games, endpoint)?;
    dictionary_of(rt, alloc, kinds, numbering, counts)
}

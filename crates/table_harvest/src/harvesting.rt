//! Counts an input by several workers over one table, and makes its dictionary. A pass is the right
//! to call the table, a share is what one worker has counted, and a row of it the counts of one
//! pattern.
ghost use Rattle.std.specs.Prelude.{◌≡◌, ◌≢◌, ◌⊎◌, ◌*◌, ◌<◌, ◌≤◌, ◌++◌, ◌∷◌, [], ℕ, List};
ghost use Rattle.std.specs.Prelude.{length, max, min, All, Contains, MatchResult, IfOk, IfErr, IfSome};
ghost use Rattle.std.specs.Prelude.{Some};
ghost use Rattle.sgf_core.specs.Limit.{most_bytes};
ghost use Rattle.sgf_core.specs.declared.faults.SgfFault.TheVariants as sgf;
ghost use Rattle.shape_core.specs.declared.words.Kinds.{Kinds};
ghost use Rattle.slot_table.specs.declared.entries.Happened.{Happened};
ghost use Rattle.slot_table.specs.Passes.{IsPassOf, IsAlone, calls_of};
ghost use Rattle.slot_table.specs.Stakes.{IsAsMuch, IsWhole, halved, half_of};
ghost use Rattle.harvest_faults.specs.declared.faults.HarvestFault.TheVariants as fault;
ghost use Rattle.gather_core.specs.Gathering.{all_rows};
ghost use Rattle.gather_core.specs.Covering.{all_games};
ghost use Rattle.table_shares.specs.Asking.{AsksOnly};
ghost use Rattle.table_shares.specs.GatherFaults.{IsGatherFault};
ghost use Rattle.game_core.specs.Games.{HasReadAll};
ghost use Rattle.table_harvest.specs.InTable.{IsFullOf};
ghost use Rattle.harvest_core.specs.Working.{IsWorked};
ghost use Rattle.table_harvest.specs.Working.{IsRefusal};
ghost use Rattle.harvest_core.specs.Harvest.{IsRead};
ghost use Rattle.table_harvest.specs.Harvest.{IsHarvest, IsHarvestFault, IsRefusedAlone};
ghost use Rattle.table_harvest.specs.Harvest.{HasHarvested};
ghost use Rattle.table_harvest.specs.Inner.Threads.{AreResults};
ghost use Rattle.table_harvest.specs.Inner.Parted.{refusals_of};
ghost use Rattle.table_harvest.specs.Inner.Reading.{IsOnceEach};
ghost use Rattle.table_harvest.specs.Inner.Harvest.{AreTogether, IsExplained, IsTold};

use crate::parting::{Parted, part, want_memory, worst};
use crate::taking::Results;
use crate::threads::Caller;
use crate::workers::Worker;
use harvest_core::Gate;
use harvest_faults::HarvestFault;
use job_core::{Endpoint, Games, new_queue};
use probe_core::ProbeOrder;
use shape_core::Kinds;
use slot_table::{Pass, SlotTable, laws};
use std::alloc::Global;
use std::sync::Wait;
use std::thread::Threads;
use table_shares::{Share, confirm_full, gather};
use tally_core::{Counted, Report, Settings};

/// Returns the fault to report for a game that a worker could not count. If `refused` is `Full` (no
/// free slot in the table for a pattern), it is checked against the rows of all shares, and what
/// `confirm_full` finds is returned; else `refused` itself.
fn explain<O: ProbeOrder>(
    table: &SlotTable<O>,
    pass: &mut Pass<O>,
    shares: &[Share],
    refused: HarvestFault,
) -> HarvestFault
    requires pass { IsPassOf table.now pass.old }
    ensures pass { IsPassOf table.now pass.new }
    ensures later { AsksOnly table.now.slots pass.old pass.new }
    ensures explained { IsExplained table.now.slots pass.new.seen shares.now refused result }
    ensures why { (bytes : List ℕ) (kinds : Kinds) (earlier : List Happened) → IsRead bytes
        → All (IsWorked bytes kinds) shares.now → IsRefusal bytes kinds refused
        → IsFullOf table.now.slots pass.old.seen (Some refused)
        → AreTogether table.now.slots earlier pass.old (all_rows shares.now)
        → IsHarvestFault table.now.slots bytes kinds earlier pass.new result }
{
    match refused {
        HarvestFault::Full { game, word } => confirm_full(table, pass, shares, game, word),
        other => other,
    }
}

/// Merges all shares (what each worker has counted) into the dictionary, once the input was read to
/// its end, and returns it with `report`, the report on the input's trees. The errors are those of
/// `gather`, and `Memory`.
fn count_of<R: Threads + Sync, O: ProbeOrder>(
    rt: &R,
    alloc: Global,
    kinds: Kinds,
    table: &SlotTable<O>,
    pass: &mut Pass<O>,
    report: Report,
    shares: &[Share],
) -> Result<Counted, HarvestFault>
    requires pass { IsPassOf table.now pass.old }
    requires worked { (bytes : List ℕ) × HasReadAll bytes report
        × All (IsWorked bytes kinds) shares.now }
    ensures pass { IsPassOf table.now pass.new }
    ensures later { AsksOnly table.now.slots pass.old pass.new }
    ensures gathered { IfErr result
        (IsGatherFault table.now.slots report.games shares.now pass.old pass.new) }
    ensures harvest { (bytes : List ℕ) → HasReadAll bytes report
        → All (IsWorked bytes kinds) shares.now
        → IfOk result (IsHarvest table.now.slots pass.new.seen kinds bytes) }
    ensures fault { (bytes : List ℕ) (earlier : List Happened) → HasReadAll bytes report
        → All (IsWorked bytes kinds) shares.now → IsOnceEach report.games (all_games shares.now)
        → AreTogether table.now.slots earlier pass.old (all_rows shares.now)
        → IfErr result (IsHarvestFault table.now.slots bytes kinds earlier pass.new) }
{
    let gathered = gather(rt, alloc, table, pass, kinds, report.games, shares)?;
    let dictionary = gathered.into_pieces(alloc)?;
    Ok(Counted { dictionary, report })
}

/// Makes the dictionary from `results`, what all threads have counted, or returns the fault to
/// report, in this order: out of memory, that of the input, that of the games that were refused
/// (`worst` chooses it), and that of merging the shares. `pass` (the right to call the table) takes
/// over the calls of all threads. `bytes`, the input, is used in contracts only.
fn conclude<R: Threads + Sync, O: ProbeOrder>(
    rt: &R,
    alloc: Global,
    kinds: Kinds,
    table: &SlotTable<O>,
    pass: &mut Pass<O>,
    bytes: &[u8],
    results: Results<O>,
) -> Result<Counted, HarvestFault>
    requires pass { IsPassOf table.now pass.old }
    requires results { (stake : List ℕ) × AreResults table.now bytes.now kinds stake results }
    ensures pass { IsPassOf table.now pass.new }
    ensures calls { HasHarvested table.now.slots bytes.now kinds pass.old pass.new }
    ensures stake { pass.new.stake ≡ pass.old.stake ++ results.pass.stake }
    ensures alone { IsAlone pass.new }
    ensures memory { Contains (refusals_of results.worked.items) fault.Memory
        → result ≡ Err fault.Memory }
    ensures input { IfSome results.fault (λ found. (result ≡ Err found)
        ⊎ (result ≡ Err fault.Memory)) }
    ensures refused { results.fault ≡ None → MatchResult result
        (λ _. refusals_of results.worked.items ≡ []) (IsTold table.now.slots results pass.new) }
    ensures harvest { IfOk result (IsHarvest table.now.slots pass.new.seen kinds bytes.now) }
    ensures fault { IfErr result
        (IsHarvestFault table.now.slots bytes.now kinds (calls_of pass.old) pass.new) }
{
    let Results {
        worked,
        report,
        fault,
        pass: theirs,
    } = results;
    let _ = bytes;
    table.absorb(pass, theirs);
    let Parted { shares, refusals } = part(alloc, worked)?;
    if want_memory(&refusals) {
        return Err(HarvestFault::Memory);
    }
    if let Some(fault) = fault {
        return Err(fault);
    }
    match worst(&refusals) {
        Some(refused) => Err(explain(table, pass, &shares, refused)),
        None => count_of(rt, alloc, kinds, table, pass, report, &shares),
    }
}

/// Returns the capacity of the queue of jobs (games to count) for this number of workers: 16 jobs
/// for each, but at least 16 and at most 128.
fn places_for(workers: u8) -> usize
    ensures places { result ≡ min 128 (16 * max 1 workers) }
    ensures least { 16 ≤ result }
    ensures most { result ≤ 128 }
{
    (16 * usize::from(workers).max(1)).min(128)
}

/// Shows the prover: if a stake (a caller's part of the right to call the table) is split in two,
/// both halves together are the whole stake again, and what is as much as the whole right is the
/// whole right. It does nothing.
fn stakes_come_together()
    ensures halves { (stake back : List ℕ) → IsAsMuch back (half_of stake)
        → IsAsMuch (halved stake ++ back) stake }
    ensures whole { (stake whole : List ℕ) → IsAsMuch stake whole → IsWhole whole → IsWhole stake }
    ensures first { IsWhole (0 ∷ []) }
{
    laws::a_split_loses_no_stake();
    laws::stakes_add_up();
    laws::as_much_as_the_whole_is_the_whole();
}

/// Counts a whole collection, `bytes`, by several workers that number patterns in a shared table.
/// Returns the dictionary of its games, which are numbered from 0 in their order, and the report on
/// its trees. `count_plain`, which counts in one thread, returns the same, whatever the table, the
/// gate (what is called before each game), the number of workers and the order in which their steps
/// happen. This way to count is the project's own.
///
/// The calling thread reads, and counts the games for which the job queue has no room. As many
/// workers as the settings say, in threads that `rt` starts, count the games that they take from
/// the queue. The number of slots in the settings is ignored: the table has its own. It takes
/// memory for a queue of at most 128 games, for each thread for the largest tree and its record,
/// the board and the patterns of its games, and for the dictionary.
///
/// `pass` (the right to call the table) must be of the table, which may have numbers already.
/// Afterwards `pass` has made the calls of all threads: they entered patterns of the input alone,
/// and marked games of the input (noted them as the least) at numbers of their own patterns alone.
/// It has as much stake (its part of that right) as before, unless `Memory` was returned.
///
/// # Errors
///
/// `Sgf` with `SgfFault::TooLarge` if the input has more than 2^28 bytes, and then nothing was done
/// to the table. Else `Memory` if memory was refused or a worker was not started. Else `Sgf` with
/// the first fault of syntax. Else `Full` with a game and one of its patterns for which no number
/// (slot) was free, if the input has as many other patterns as the table has numbers. If nobody
/// else uses the table, there is no other fault.
///
/// If somebody else uses it, there are two more. `Stranger` if the table is full: it names the
/// least number whose key is not the word of a pattern of which a share has a row: somebody else
/// entered it. `Marks` if all games were counted: it names a number with a least game that somebody
/// else marked, and the shares' least game there, which is another.
///
/// After each fault the table keeps the numbers and marks that it got.
pub fn harvest_on<R: Threads + Wait + Sync, O: ProbeOrder, G: Gate>(
    rt: &R,
    alloc: Global,
    settings: Settings,
    table: &SlotTable<O>,
    pass: &mut Pass<O>,
    bytes: &[u8],
    gate: &G,
) -> Result<Counted, HarvestFault>
where
    O: Send + Sync,
    requires pass { IsPassOf table.now pass.old }
    ensures pass { IsPassOf table.now pass.new }
    ensures calls { HasHarvested table.now.slots bytes.now settings.kinds pass.old pass.new }
    ensures stake { result ≢ Err fault.Memory → IsAsMuch pass.new.stake pass.old.stake }
    ensures large { most_bytes < length bytes.now
        → (result ≡ Err (fault.Sgf sgf.TooLarge)) × (pass.new ≡ pass.old) }
    ensures harvest { IfOk result
        (IsHarvest table.now.slots pass.new.seen settings.kinds bytes.now) }
    ensures fault { IfErr result
        (IsHarvestFault table.now.slots bytes.now settings.kinds (calls_of pass.old) pass.new) }
    ensures alone { IsWhole pass.old.stake → calls_of pass.old ≡ []
        → IfErr result (IsRefusedAlone table.now.slots bytes.now settings.kinds) }
{
    // For the proof: once all passes that were split off are merged again, `pass` has the stake
    // that it had.
    stakes_come_together();
    let games = Games::new(bytes)?;
    let (queue, seat) = new_queue(alloc, places_for(settings.workers()))?;
    let own = Worker {
        endpoint: Endpoint::open(&queue, seat, bytes),
        table,
        pass: table.split(pass),
        gate,
        number: 0,
        workers: usize::from(settings.workers()),
        kinds: settings.kinds(),
    };
    let results = Caller::begin(games, own).run(rt, alloc)?;
    conclude(rt, alloc, settings.kinds(), table, pass, bytes, results)
}

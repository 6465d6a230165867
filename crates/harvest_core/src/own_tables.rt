//! Counts a whole collection with a table and a queue made for this count alone. A pattern's number
//! is the index of its slot in the table.
ghost use Rattle.std.specs.Prelude.{◌≡◌, ◌⊎◌, ◌^◌, ◌<◌, ◌≤◌, length, IfOk, IfErr, IsErrAnd};
ghost use Rattle.sgf_core.specs.Limit.{most_bytes};
ghost use Rattle.slot_table.specs.Passes.{IsPassOf};
ghost use Rattle.sgf_core.specs.declared.faults.SgfFault.TheVariants as sgf;
ghost use Rattle.tally_core.specs.Counted.{IsCounted};
ghost use Rattle.harvest_faults.specs.declared.faults.HarvestFault.TheVariants as fault;
ghost use Rattle.harvest_core.specs.Harvest.{IsCountedWithin, IsCountRefused, IsHarvestRefused};

use crate::gates::Gate;
use crate::gathering::{Harvested, Numbering, count_in_threads, numbering_of};
use beyond_core::first_too_many;
use gather_core::number_entries;
use harvest_faults::HarvestFault;
use probe_core::{Capacity, ProbeOrder};
use shape_core::Kinds;
use shape_dict::{Entry, PieceDictionary};
use slot_table::{Pass, SlotTable};
use std::alloc::Global;
use std::sync::Wait;
use std::thread::Threads;
use tally_core::{Counted, Settings};

/// How many slots a table has for each byte of the input. A move takes six bytes, and some 25
/// points then have a new pattern of each kind, so few inputs need more.
const SLOTS_A_BYTE: usize = 16;

/// Returns the exponent k of a table whose 2^k slots mostly suffice for the patterns of a
/// collection of `bytes` bytes; it is at most `most`.
fn likely_exponent(bytes: usize, most: u32) -> u32
    ensures { result ≤ most }
{
    let slots = bytes.saturating_mul(SLOTS_A_BYTE).max(1);
    (slots.ilog2() + 1).min(most)
}

/// Returns `counted`, what was counted of the collection `bytes`, if it has at most `most`
/// patterns.
///
/// # Errors
///
/// `Full` with the pattern with which there are first more than `most`, and the first game that has
/// it; `Memory` if memory was refused.
fn within(
    alloc: Global,
    kinds: Kinds,
    most: usize,
    bytes: &[u8],
    counted: Counted,
) -> Result<Counted, HarvestFault>
    requires { IsCounted kinds bytes.now counted }
    ensures counted { IfOk result (IsCountedWithin most kinds bytes.now) }
    ensures fault { IfErr result (IsHarvestRefused most bytes.now kinds) }
{
    if counted.dictionary.len() > most {
        return Err(first_too_many(alloc, kinds, most, bytes, &counted));
    }
    Ok(counted)
}

/// Gives the patterns of lists numbers in the table, list after list, until no number is free for
/// one. `pass` is the right to call the table.
fn number_pieces<O: ProbeOrder>(table: &SlotTable<O>, pass: &mut Pass<O>, pieces: &[Vec<Entry>])
    requires { IsPassOf table.now pass.old }
{
    for piece in pieces {
        if number_entries(table, pass, piece.as_slice()).is_err() {
            return;
        }
    }
}

/// Makes a new table of 2^k slots, and gives the patterns of a dictionary numbers in it. The table
/// is then dropped.
///
/// # Errors
///
/// `Memory` if memory for the table was refused.
fn number_again(alloc: Global, k: u32, dictionary: &PieceDictionary) -> Result<(), HarvestFault>
    requires { k ≤ 22 }
    ensures { IfErr result (λ found. found ≡ fault.Memory) }
{
    let Some(capacity) = Capacity::new(k) else {
        return Err(HarvestFault::BadSettings);
    };
    let Numbering { table, mut pass } = numbering_of(alloc, capacity)?;
    number_pieces(&table, &mut pass, dictionary.pieces());
    Ok(())
}

/// Counts a whole collection, `bytes`, by workers, and returns its dictionary, and how many of its
/// trees are games, of other games, or refused. The settings have the number of workers, the kinds
/// of pattern, and the exponent k: there may be at most 2^k patterns. It returns what `count_plain`
/// returns, whatever the gate, the number of workers and their turns. This is the project's own.
///
/// As many threads count as the settings have workers, and this one, but no more than there are
/// processors, and at least two; one more makes the table meanwhile. They are numbered from 0. This
/// thread is 0: it reads, and puts a job for each game into a queue, from which the others draw. It
/// counts a game itself when the queue is full, and draws with the others when all is read. If a
/// thread cannot be started, the others draw its games.
///
/// Each thread appends what its games meet to lists of its own; the gate is called before each
/// game. Each game is counted once, as the contracts of all endpoints of the queue prove together.
/// When no game is left, threads add the lists up, give the patterns numbers in one table, which
/// has 2^k slots, or fewer for a small input, and put them in order. If that table had no number
/// for a pattern, this thread numbers all of them once more, in a table of 2^k slots; nothing is
/// counted twice.
///
/// Calls at the queue may wait for a thread that is in the middle of one, and each thread waits for
/// items (jobs and ends) until it has drawn an end, the sign that no game is left: that this call
/// returns rests on the calls that wait keeping their promise, which no clause says. It takes
/// memory for the tables, for the queue and the records of the games in it, 128 at most, for each
/// thread for what its games meet and for a board, and for the dictionary.
///
/// # Errors
///
/// `Memory` if memory was refused. Else the result is determined by the input and the settings:
/// `Sgf` with `TooLarge` (S4) if the input has more than 2^28 bytes, else with its first fault of
/// syntax; else `Full` if it has more than 2^k patterns. `Full` names the pattern with which the
/// patterns, in the order in which the replays of the games meet them, are first more than 2^k, and
/// the first game that has it. No other fault comes.
pub fn harvest<R: Threads + Wait + Sync, G: Gate>(
    rt: &R,
    alloc: Global,
    settings: Settings,
    bytes: &[u8],
    gate: &G,
) -> Result<Counted, HarvestFault>
    ensures large { most_bytes < length bytes.now
        → IsErrAnd result (λ found. (found ≡ fault.Memory) ⊎ (found ≡ fault.Sgf sgf.TooLarge)) }
    ensures harvest { IfOk result
        (IsCountedWithin (2 ^ settings.k) settings.kinds bytes.now) }
    ensures fault { IfErr result (IsHarvestRefused (2 ^ settings.k) bytes.now settings.kinds) }
{
    let kinds = settings.kinds();
    let k = u32::from(settings.k());
    let most = 1 << settings.k();
    let likely = likely_exponent(bytes.len(), k);
    let Harvested { counted, numbered } = count_in_threads(
        rt,
        alloc,
        kinds,
        settings.workers(),
        likely,
        bytes,
        gate,
    )?;
    let counted = within(alloc, kinds, most, bytes, counted)?;
    if !numbered {
        number_again(alloc, k, &counted.dictionary)?;
    }
    Ok(counted)
}

/// Counts a whole collection, `bytes`, by this number of workers, however many patterns of these
/// kinds it has, and gives no pattern a number. Returns what `count_plain` returns, whatever the
/// gate, the number of workers and their turns. Threads, waiting and memory are those of `harvest`,
/// except for the table. This is the project's own.
///
/// # Errors
///
/// `Memory` if memory was refused; `Sgf` with `TooLarge` (S4) if the input has more than 2^28
/// bytes, else with its first fault of syntax. No other fault comes.
pub fn harvest_all<R: Threads + Wait + Sync, G: Gate>(
    rt: &R,
    alloc: Global,
    kinds: Kinds,
    workers: u8,
    bytes: &[u8],
    gate: &G,
) -> Result<Counted, HarvestFault>
    ensures large { most_bytes < length bytes.now
        → IsErrAnd result (λ found. (found ≡ fault.Memory) ⊎ (found ≡ fault.Sgf sgf.TooLarge)) }
    ensures harvest { IfOk result (IsCounted kinds bytes.now) }
    ensures fault { IfErr result (IsCountRefused bytes.now) }
{
    // A table in which no pattern but one finds a number costs nothing.
    let harvested = count_in_threads(rt, alloc, kinds, workers, 0, bytes, gate)?;
    Ok(harvested.counted)
}

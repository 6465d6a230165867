//! Threads take ranges of patterns by places (slots of a hash table): each range is added up, its
//! patterns get their numbers (indices of slots of a table) and are dealt to ranges of words.
ghost use Rattle.std.specs.Prelude.{◌≡◌, ◌++◌, ◌∷◌, [], true, List, length, IfOk, IfErr, OnOk};
ghost use Rattle.std.specs.Thread.{IsSync};
ghost use Rattle.shape_dict.specs.declared.entries.Entry.{Entry};
ghost use Rattle.range_core.specs.Totals.{all_of, HaveSmallSums};
ghost use Rattle.range_core.specs.Words.{word_ranges};
ghost use Rattle.slot_table.specs.History.{Keeps};
ghost use Rattle.slot_table.specs.Passes.{IsPassOf};
ghost use Rattle.harvest_faults.specs.declared.faults.HarvestFault.TheVariants as fault;
ghost use Rattle.gather_core.specs.Inner.Taking.{AreTaken, IsTaken};
ghost use Rattle.gather_core.specs.Numbering.{AreNumbered};

use crate::numbering::number_entries;
use harvest_faults::HarvestFault;
use probe_core::ProbeOrder;
use range_core::{Cuts, Lists, PLACE_LISTS, Range, Sums, WORD_RANGES};
use shape_dict::Entry;
use slot_table::{Pass, SlotTable};
use std::alloc::Global;
use std::thread::{Threads, join};

/// What the threads that take ranges share.
#[derive(Drop)]
pub(crate) struct Numbering<'t, O: ProbeOrder> {
    pub alloc: Global,
    pub table: &'t SlotTable<O>,
    /// The words that part one range of words from the next.
    pub cuts: &'t Cuts,
    /// How many entries each list by words has room for at first.
    pub room: usize,
}

/// What is made of ranges by places: lists by ranges of words, and the pass (right to call the
/// table) with which their patterns got numbers.
#[derive(Drop)]
pub(crate) struct Taken<O: ProbeOrder> {
    pub pass: Pass<O>,
    pub lists: Vec<Lists>,
    /// Whether each pattern has its number in the table.
    pub numbered: bool,
}

/// The memory in which a thread works on one range after another.
#[derive(Drop)]
struct Workspace {
    /// The sums of the range that is added up.
    sums: Sums,
    /// The summed entries of that range.
    entries: Vec<Entry>,
    /// The entries of all ranges so far, in a list for each range of words.
    words: Lists,
    /// Whether each pattern so far has its number in the table.
    numbered: bool,
}

/// Gives the patterns of `entries`, those of a range, numbers in the table. It gives none if
/// `numbered` is false, since a pattern before them has none, or if the range has too many: to fill
/// a table to its last slot takes long. Returns whether all patterns have numbers so far.
fn number_more<O: ProbeOrder>(
    table: &SlotTable<O>,
    pass: &mut Pass<O>,
    entries: &[Entry],
    numbered: bool,
) -> bool
    requires pass { IsPassOf table.now pass.old }
    ensures pass { IsPassOf table.now pass.new }
    ensures keeps { Keeps table.now.slots pass.old.seen pass.new.seen }
    ensures before { result ≡ true → numbered ≡ true }
    ensures numbered { result ≡ true → AreNumbered table.now.slots pass.new.seen entries.now }
{
    // A range twice as large as its part of the table tells that all ranges have more patterns than
    // there are slots, since a hash parts them; and once one has no number, others are of no use.
    if !numbered || entries.len() > table.capacity().slots() / PLACE_LISTS * 2 + 64 {
        return false;
    }
    number_entries(table, pass, entries).is_ok()
}

/// Adds a range up, gives its patterns numbers while any are free, and deals them to the ranges of
/// words in `work`. What its entries count of each pattern together must be below 2^64.
///
/// # Errors
///
/// `Memory` if memory was refused.
fn take_range<O: ProbeOrder>(
    numbering: &Numbering<'_, O>,
    pass: &mut Pass<O>,
    work: &mut Workspace,
    range: Range,
) -> Result<(), HarvestFault>
    requires taken { (ranges : List (List Entry))
        × AreTaken numbering.now ranges pass.old work.old.numbered (work.old.words ∷ []) }
    requires small { HaveSmallSums range }
    ensures pass { IsPassOf numbering.now.table.now pass.new }
    ensures len { OnOk result (length work.new.words ≡ word_ranges) }
    ensures taken { (ranges : List (List Entry))
        → AreTaken numbering.now ranges pass.old work.old.numbered (work.old.words ∷ [])
        → OnOk result (AreTaken numbering.now (range ∷ ranges) pass.new
        work.new.numbered (work.new.words ∷ [])) }
    ensures fault { IfErr result (λ found. found ≡ fault.Memory) }
{
    range.sum_to(numbering.alloc, &mut work.sums, &mut work.entries)?;
    let entries = work.entries.as_slice();
    work.numbered = number_more(numbering.table, pass, entries, work.numbered);
    work.words.deal(numbering.cuts, entries)?;
    Ok(())
}

/// Adds up one range after another in this thread, and returns their entries by ranges of words.
/// What the entries of each pattern count together must be below 2^64.
///
/// # Errors
///
/// `Memory` if memory was refused.
fn take_alone<O: ProbeOrder>(
    numbering: &Numbering<'_, O>,
    pass: Pass<O>,
    ranges: Vec<Range>,
) -> Result<Taken<O>, HarvestFault>
    requires pass { IsPassOf numbering.now.table.now pass }
    requires small { HaveSmallSums (all_of ranges.items) }
    ensures taken { IfOk result (IsTaken numbering.now ranges.items) }
    ensures fault { IfErr result (λ found. found ≡ fault.Memory) }
{
    let mut pass = pass;
    let mut ranges = ranges;
    let mut work = Workspace {
        sums: Sums::new(numbering.alloc),
        entries: Vec::new(numbering.alloc),
        words: Lists::empty(numbering.alloc, WORD_RANGES, numbering.room)?,
        numbered: true,
    };
    while let Some(range) = ranges.pop() {
        take_range(numbering, &mut pass, &mut work, range)?;
    }
    let Workspace {
        words,
        numbered,
        ..
    } = work;
    let mut lists = Vec::new(numbering.alloc);
    lists.push(words)?;
    Ok(Taken {
        pass,
        lists,
        numbered,
    })
}

/// Makes of the ranges `low` and `high` what `take_ranges` makes of all, each of the two in a
/// thread of its own if one can be started. `depth` is how often each is halved again.
#[cycle(taking)]
fn take_both<R: Threads + Sync, O: ProbeOrder + Send + Sync>(
    rt: &R,
    numbering: &Numbering<'_, O>,
    depth: usize,
    pass: Pass<O>,
    low: Vec<Range>,
    high: Vec<Range>,
) -> Result<Taken<O>, HarvestFault>
    requires pass { IsPassOf numbering.now.table.now pass }
    requires low { HaveSmallSums (all_of low.items) }
    requires high { HaveSmallSums (all_of high.items) }
    ensures taken { IfOk result (IsTaken numbering.now (low.items ++ high.items)) }
    ensures fault { IfErr result (λ found. found ≡ fault.Memory) }
{
    let mut pass = pass;
    let theirs = numbering.table.split(&mut pass);
    let (low, high) = join(
        rt,
        || -> Result<Taken<O>, HarvestFault>
            requires pass { IsSync R.row × IsPassOf numbering.now.table.now pass }
            requires small { HaveSmallSums (all_of low.items) }
            ensures taken { IfOk result (IsTaken numbering.entry.now low.items) }
            ensures fault { IfErr result (λ found. found ≡ fault.Memory) }
        { take_ranges(rt, numbering, depth, pass, low) },
        || -> Result<Taken<O>, HarvestFault>
            requires pass { IsSync R.row × IsPassOf numbering.now.table.now theirs }
            requires small { HaveSmallSums (all_of high.items) }
            ensures taken { IfOk result (IsTaken numbering.entry.now high.items) }
            ensures fault { IfErr result (λ found. found ≡ fault.Memory) }
        { take_ranges(rt, numbering, depth, theirs, high) },
    );
    let Taken {
        mut pass,
        mut lists,
        numbered,
    } = low?;
    let Taken {
        pass: theirs,
        lists: mut more,
        numbered: also,
    } = high?;
    numbering.table.absorb(&mut pass, theirs);
    lists.append(&mut more)?;
    Ok(Taken {
        pass,
        lists,
        numbered: numbered && also,
    })
}

/// Adds up ranges by places, gives their patterns numbers in the table, and returns their entries
/// in lists by ranges of words. The two halves of the ranges are in threads of their own if these
/// can be started, and each is halved again, `depth` times in all. What the entries of each pattern
/// count together must be below 2^64.
///
/// A pattern for which no number is free is taken without one, and then not all are numbered. The
/// pass must be of the table. It takes memory for the entries of each pattern once more, and gives
/// back that of the ranges one by one.
///
/// # Errors
///
/// `Memory` if memory was refused.
#[cycle(taking)]
pub(crate) fn take_ranges<R: Threads + Sync, O: ProbeOrder + Send + Sync>(
    rt: &R,
    numbering: &Numbering<'_, O>,
    depth: usize,
    pass: Pass<O>,
    ranges: Vec<Range>,
) -> Result<Taken<O>, HarvestFault>
    requires pass { IsPassOf numbering.now.table.now pass }
    requires small { HaveSmallSums (all_of ranges.items) }
    ensures taken { IfOk result (IsTaken numbering.now ranges.items) }
    ensures fault { IfErr result (λ found. found ≡ fault.Memory) }
{
    if depth == 0 {
        return take_alone(numbering, pass, ranges);
    }
    let mut low = ranges;
    let high = low.split_off(low.len() / 2)?;
    take_both(rt, numbering, depth - 1, pass, low, high)
}

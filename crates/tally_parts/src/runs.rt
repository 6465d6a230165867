//! From texts of games to a text of the dictionary of all their games. A part is the texts that are
//! counted together; a text that did not fit into one waits in a feed for the next.
ghost use Rattle.std.specs.Prelude.{◌≡◌, ◌≢◌, ◌≤◌, ℕ, List, false, length, OnOk, IfErr, Err};
ghost use Rattle.tally_parts.specs.declared.faults.PartsFault.TheVariants as fault;
ghost use Rattle.std.specs.Io.KnownBytes.{Appends};
ghost use Rattle.merge_core.specs.Merge.{AreInputs};
ghost use Rattle.shape_dict.specs.Text.{text_of};
ghost use Rattle.tally_parts.specs.Parts.{IsTallyText, IsFrontOut, kinds_for};
ghost use Rattle.tally_parts.specs.Inner.Joining.{ArePartsKept, IsSpilledButPart, IsSpilledSoFar, IsCut};
ghost use Rattle.tally_parts.specs.Inner.Joining.{IsTextOut, IsTextCut};

use crate::ahead::count_and_fill;
use crate::counting::{count_part, spill, threads_for};
use crate::faults::PartsFault;
use crate::filling::{Feed, fill};
use crate::plans::Plan;
use crate::spills::Spills;
use crate::texts::Texts;
use batch_core::games_come_together;
use engine_core::{RunFault, write_parts};
use merge_core::{Form, run_merge};
use shape_dict::{PieceDictionary, texts_are_distinct};
use std::alloc::Global;
use std::io::Write;
use std::mem::swap;
use std::sync::Wait;
use std::thread::Threads;
use tally_core::dictionaries_join;

/// Writes the dictionary of the only part, if all texts fitted into one part.
///
/// # Errors
///
/// `Memory` if memory for the text was refused; `Write` if the writer failed.
fn write_alone<R: Threads + Sync, W: Write>(
    rt: &R,
    alloc: Global,
    plan: Plan,
    dictionary: &PieceDictionary,
    writer: &mut W,
) -> Result<(), PartsFault>
    ensures done { OnOk result (Appends (W.contents writer.old) (W.contents writer.new)
        (text_of plan.text dictionary.now)) }
    ensures fault { IfErr result (λ _. IsCut (text_of plan.text dictionary.now)
        (W.contents writer.old) (W.contents writer.new)) }
    ensures wanted { IfErr result (λ found. found ≢ fault.Unwanted) }
{
    let Ok(parts) = dictionary.parts(rt, alloc, plan.text, threads_for(plan)) else {
        return Err(PartsFault::Memory);
    };
    match write_parts(writer, parts.as_slice()) {
        Ok(()) => Ok(()),
        Err(RunFault::Write { written }) => Err(PartsFault::Write { written }),
        Err(_) => Err(PartsFault::Write { written: 0 }),
    }
}

/// Counts the parts while a text waits in `feed`, which did not fit into the last of them. It
/// counts `part`, fills `next` meanwhile, stores the dictionary of `part` in `spills`, and goes on
/// with `next`. At the end `part` has the last texts, which are not counted yet.
///
/// # Errors
///
/// Those of `count_and_fill` and `spill`.
fn spill_full<R: Threads + Wait + Sync, T: Texts, S: Spills>(
    rt: &R,
    alloc: Global,
    plan: Plan,
    texts: &mut T,
    spills: &mut S,
    feed: &mut Feed,
    part: &mut Vec<u8>,
) -> Result<(), PartsFault>
    requires within { feed.old.next ≤ T.number texts.old }
    ensures number { T.number texts.new ≡ T.number texts.old }
    ensures bytes { T.bytes texts.new ≡ T.bytes texts.old }
    ensures wanted { IfErr result (λ found. found ≢ fault.Unwanted) }
    ensures ended { OnOk result (feed.new.waits ≡ false) }
    ensures spilled { (all : List (List ℕ)) → AreInputs (T.bytes texts.old) 0 all
        → length all ≡ T.number texts.old
        → IsSpilledButPart (kinds_for plan.text) all feed.old part.old.items (S.number spills.old)
        (S.bytes spills.old)
        → OnOk result (IsSpilledButPart (kinds_for plan.text) all feed.new part.new.items
        (S.number spills.new) (S.bytes spills.new)) }
{
    let mut next = Vec::new(alloc);
    'part: while feed.waits {
        next.clear();
        let dictionary = count_and_fill(rt, alloc, plan, part.as_slice(), texts, feed, &mut next)?;
        spill(rt, alloc, plan, &dictionary, spills)?;
        swap(part, &mut next);
    }
    Ok(())
}

/// Counts `part` and all parts after it, where a text waits in `feed` that did not fit into `part`,
/// and stores the dictionary of each in `spills`.
///
/// # Errors
///
/// Those of `spill_full`, `count_part` and `spill`.
fn spill_all<R: Threads + Wait + Sync, T: Texts, S: Spills>(
    rt: &R,
    alloc: Global,
    plan: Plan,
    texts: &mut T,
    spills: &mut S,
    feed: &mut Feed,
    part: &mut Vec<u8>,
) -> Result<(), PartsFault>
    requires within { feed.old.next ≤ T.number texts.old }
    ensures wanted { IfErr result (λ found. found ≢ fault.Unwanted) }
    ensures ended { OnOk result (feed.new.waits ≡ false) }
    ensures spilled { (all : List (List ℕ)) → AreInputs (T.bytes texts.old) 0 all
        → length all ≡ T.number texts.old
        → IsSpilledButPart (kinds_for plan.text) all feed.old part.old.items (S.number spills.old)
        (S.bytes spills.old)
        → OnOk result (IsSpilledSoFar (kinds_for plan.text) all feed.new (S.number spills.new)
        (S.bytes spills.new)) }
{
    spill_full(rt, alloc, plan, texts, spills, feed, part)?;
    let last = count_part(rt, alloc, plan, part.as_slice())?;
    spill(rt, alloc, plan, &last, spills)
}

/// Joins the parts' dictionaries, which are stored in `spills`, and writes the joined dictionary.
///
/// # Errors
///
/// `Merge` if they can't be joined, or the join can't be written.
fn write_joined<R: Threads + Sync, S: Spills + Sync, W: Write>(
    rt: &R,
    alloc: Global,
    plan: Plan,
    spills: &S,
    writer: &mut W,
) -> Result<(), PartsFault>
    ensures done { (texts inputs : List (List ℕ))
        → ArePartsKept (kinds_for plan.text) texts (S.number spills.now) (S.bytes spills.now)
        → AreInputs (S.bytes spills.now) 0 inputs → length inputs ≡ S.number spills.now
        → OnOk result (IsTextOut plan.text texts (W.contents writer.old) (W.contents writer.new)) }
    ensures fault { (texts inputs : List (List ℕ))
        → ArePartsKept (kinds_for plan.text) texts (S.number spills.now) (S.bytes spills.now)
        → AreInputs (S.bytes spills.now) 0 inputs → length inputs ≡ S.number spills.now
        → IfErr result (λ _.
        IsTextCut plan.text texts (W.contents writer.old) (W.contents writer.new)) }
    ensures wanted { IfErr result (λ found. found ≢ fault.Unwanted) }
{
    // For the proof alone: a text is that of one dictionary only, and the dictionary of two lists
    // of games is the join of the two lists' dictionaries.
    texts_are_distinct();
    dictionaries_join();
    games_come_together();
    let form = Form {
        text: plan.text,
        least: None,
    };
    match run_merge(rt, alloc, form, spills, writer) {
        Ok(()) => Ok(()),
        Err(fault) => Err(PartsFault::Merge(fault)),
    }
}

/// Reads texts of games one after another, counts the games of those that can be read, and writes
/// the dictionary of all these games in the format `plan.text`. Format 1 has squares alone, and the
/// others have diamonds too. The games are numbered from 0 in the order of the texts. A text of
/// games that has 2^28 bytes or more, or a fault of syntax, is left out whole, and `Texts::judged`
/// gets its fault.
///
/// The texts are counted in parts. A part has as many texts as `plan.most` bytes allow, or one text
/// that is larger. `harvest_all` counts a part by `plan.workers` workers; its comment says on how
/// many threads. While a part is counted the texts of the next one are read. If there is more than
/// one part, the dictionary of each is stored in `spills`, which must be empty at first, and
/// `run_merge` joins them. What is written is the same for each `plan.workers` and `plan.most`. It
/// takes memory for two parts and one text more, and for what `harvest_all` and `run_merge` take.
/// The method is this project's own.
///
/// # Errors
///
/// Nothing is written in these cases: `Memory`, or `Count` with `Memory` (F6), if memory was
/// refused. `Unwanted` if `Texts::is_wanted` is false once all texts were checked. `Spill` if a
/// part's dictionary could not be stored. `Merge` if a stored dictionary can't be read, or is not
/// what was stored, or if memory for the join was refused before its text began. Else the beginning
/// of the text is written, and the fault has its number of bytes: `Write` if the writer failed, or
/// `Merge` if it failed or memory was refused while the join was written.
pub fn run_tally<R: Threads + Wait + Sync, T: Texts, S: Spills + Sync, W: Write>(
    rt: &R,
    alloc: Global,
    plan: Plan,
    texts: &mut T,
    spills: &mut S,
    writer: &mut W,
) -> Result<(), PartsFault>
    requires none_kept { S.number spills.old ≡ 0 }
    ensures unwanted { result ≡ Err fault.Unwanted → T.IsWanted texts.new → ⊥ }
    ensures done { (all inputs : List (List ℕ)) → AreInputs (T.bytes texts.old) 0 all
        → length all ≡ T.number texts.old → AreInputs (S.bytes spills.new) 0 inputs
        → length inputs ≡ S.number spills.new → OnOk result ((written : List ℕ)
        × IsTallyText plan.text all written
        × Appends (W.contents writer.old) (W.contents writer.new) written) }
    ensures fault { (all inputs : List (List ℕ)) → AreInputs (T.bytes texts.old) 0 all
        → length all ≡ T.number texts.old → AreInputs (S.bytes spills.new) 0 inputs
        → length inputs ≡ S.number spills.new → IfErr result (λ _.
        IsFrontOut plan.text all (W.contents writer.old) (W.contents writer.new)) }
{
    let mut feed = Feed::new(alloc);
    let mut part = Vec::new(alloc);
    fill(alloc, texts, &mut feed, plan.most, &mut part)?;
    if !feed.waits {
        let only = count_part(rt, alloc, plan, part.as_slice())?;
        if !texts.is_wanted() {
            return Err(PartsFault::Unwanted);
        }
        return write_alone(rt, alloc, plan, &only, writer);
    }
    spill_all(rt, alloc, plan, texts, spills, &mut feed, &mut part)?;
    if !texts.is_wanted() {
        return Err(PartsFault::Unwanted);
    }
    write_joined(rt, alloc, plan, spills, writer)
}

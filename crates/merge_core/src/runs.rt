//! Joins the dictionaries of some sources and writes the join to a writer: large ones range by
//! range (a range of words is a stretch of the lines, which are in the order of their words), small
//! ones line by line.
ghost use Rattle.std.specs.Prelude.{◌≡◌, ℕ, List, length, vec_len, OnOk, IfErr};
ghost use Rattle.std.specs.Io.KnownBytes.{Appends};
ghost use Rattle.merge_core.specs.Merge.{AreInputs, IsMergeText, IsMergeFault, Took, written_of};
ghost use Rattle.merge_core.specs.Inner.Surveys.{IsSurveyed};

use crate::cuts::Plan;
use crate::faults::MergeFault;
use crate::forms::Form;
use crate::growing::grow;
use crate::judged::Totals;
use crate::judging::judge_all;
use crate::planning::plan_for;
use crate::rounds::{Front, ranges_at_once, write_ranges};
use crate::sources::Sources;
use crate::surveying::survey;
use crate::tallies::Tally;
use crate::writing::{header_of, stopped, write_lines};
use shape_dict::Text;
use std::alloc::Global;
use std::io::Write;
use std::thread::Threads;

/// Joins dictionaries line by line, in this thread alone. They are all checked first, if need be
/// again one after another to find the first fault; then they are read again, and their join is
/// written.
fn merge_lines<S: Sources, W: Write>(
    alloc: Global,
    form: Form,
    sources: &S,
    writer: &mut W,
) -> Result<(), MergeFault>
    ensures done { (inputs : List (List ℕ)) → AreInputs (S.bytes sources.now) 0 inputs
        → length inputs ≡ S.number sources.now → OnOk result ((written : List ℕ)
        × IsMergeText form inputs written
        × Appends (W.contents writer.old) (W.contents writer.new) written) }
    ensures fault { (inputs : List (List ℕ)) → AreInputs (S.bytes sources.now) 0 inputs
        → length inputs ≡ S.number sources.now → IfErr result
        (IsMergeFault form inputs (W.contents writer.old) (W.contents writer.new)) }
    ensures took { IfErr result (λ found.
        Took (W.contents writer.old) (W.contents writer.new) (written_of found)) }
{
    let (totals, counts) = match judge_all(alloc, sources, form.least) {
        Ok(joined) => joined,
        Err(fault) => return Err(fault),
    };
    let tree = match grow(alloc, sources, 0, sources.count()) {
        Ok(grown) => grown.tree,
        Err(fault) => return Err(stopped(fault, 0)),
    };
    let Ok(header) = header_of(alloc, form, totals, counts) else {
        return Err(MergeFault::Memory { written: 0 });
    };
    write_lines(tree, form, counts, header, writer)
}

/// Writes, range by range, the join of dictionaries that were checked. `joined` has the join's
/// totals and the tally of the patterns that it keeps, as the check found them.
fn merge_ranges<T: Threads + Sync, S: Sources + Sync, W: Write>(
    rt: &T,
    alloc: Global,
    form: Form,
    sources: &S,
    plan: &Plan,
    joined: (Totals, Tally),
    writer: &mut W,
) -> Result<(), MergeFault>
    requires all { vec_len plan.now.headers ≡ S.number sources.now }
    requires many { length plan.now.headers.items ≡ S.number sources.now }
    requires least { plan.now.least ≡ form.least }
    requires surveyed { IsSurveyed (S.bytes sources.now) plan.now joined.0 joined.1 }
    ensures done { (inputs : List (List ℕ)) → AreInputs (S.bytes sources.now) 0 inputs
        → length inputs ≡ S.number sources.now → OnOk result ((written : List ℕ)
        × IsMergeText form inputs written
        × Appends (W.contents writer.old) (W.contents writer.new) written) }
    ensures fault { (inputs : List (List ℕ)) → AreInputs (S.bytes sources.now) 0 inputs
        → length inputs ≡ S.number sources.now → IfErr result
        (IsMergeFault form inputs (W.contents writer.old) (W.contents writer.new)) }
    ensures took { IfErr result (λ found.
        Took (W.contents writer.old) (W.contents writer.new) (written_of found)) }
{
    let (totals, counts) = joined;
    let Ok(header) = header_of(alloc, form, totals, counts) else {
        return Err(MergeFault::Memory { written: 0 });
    };
    let patterns = match form.text {
        Text::One => counts.squares,
        Text::Two | Text::Three => counts.squares.saturating_add(counts.diamonds),
    };
    let front = Front { header, patterns };
    write_ranges(rt, alloc, form, sources, plan, &front, writer)
}

/// Joins dictionaries and writes the text of their join. Each input is a text of its own, in any of
/// the three formats (see `Text`) and of any size. The games of each are numbered after those of
/// the inputs before it.
///
/// If `form.least` is a number, only the squares that were there at least that often in the join
/// are written, and no diamonds. The games are still all those of the join, and the moves those at
/// which one of these squares was played.
///
/// Each input is read twice: first to check it and to count what the join has, and then to write.
/// If the inputs are large, two threads for each processor, at most 16, share this work. A thread
/// takes a range of words at a time (lines are in the order of their words), and memory for its
/// lines, about half a megabyte. If the inputs are small, or can't be checked by ranges, the
/// calling thread reads them line by line, with a block of 65,536 bytes of each in memory, and one
/// block of the text. If it finds a fault when it checks them, it checks them again, one after
/// another.
///
/// # Errors
///
/// `Empty` if there is no dictionary. `Dict` with the number of the first dictionary, from 1, that
/// is not well-formed (X1 to X5), or cannot be added to those before it since a sum is too large
/// (X7) or some count diamonds and others do not (X9), and its fault: nothing is written then.
///
/// `Read` if a dictionary could not be opened or read, or if what it gave in the second reading is
/// not well-formed, or has a word outside of the range of words that is read. `Changed` if the join
/// of the second reading can't be made, or has another number of patterns to be written than that
/// of the first. `Memory` if memory was refused. `Write` if the writer failed. Each of these four
/// has the number of bytes that were written. Any other change between the readings goes unseen,
/// and what is written is then the join of neither.
pub fn run_merge<T: Threads + Sync, S: Sources + Sync, W: Write>(
    rt: &T,
    alloc: Global,
    form: Form,
    sources: &S,
    writer: &mut W,
) -> Result<(), MergeFault>
    ensures done { (inputs : List (List ℕ)) → AreInputs (S.bytes sources.now) 0 inputs
        → length inputs ≡ S.number sources.now → OnOk result ((written : List ℕ)
        × IsMergeText form inputs written
        × Appends (W.contents writer.old) (W.contents writer.new) written) }
    ensures fault { (inputs : List (List ℕ)) → AreInputs (S.bytes sources.now) 0 inputs
        → length inputs ≡ S.number sources.now → IfErr result
        (IsMergeFault form inputs (W.contents writer.old) (W.contents writer.new)) }
    ensures took { IfErr result (λ found.
        Took (W.contents writer.old) (W.contents writer.new) (written_of found)) }
{
    let threads = ranges_at_once(rt);
    let Some(plan) = plan_for(rt, alloc, sources, form.least, threads) else {
        return merge_lines(alloc, form, sources, writer);
    };
    match survey(rt, alloc, sources, &plan, threads) {
        Some(joined) => merge_ranges(rt, alloc, form, sources, &plan, joined, writer),
        None => merge_lines(alloc, form, sources, writer),
    }
}

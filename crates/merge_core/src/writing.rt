//! Writes the text of a join as it is made.
ghost use Rattle.std.specs.Prelude.{◌≡◌, ◌++◌, ◌∷◌, [], List, OnOk, IfOk, IfErr, MatchResult};
ghost use Rattle.std.specs.Io.KnownBytes.{Appends};
ghost use Rattle.shape_dict.specs.declared.entries.Entry.{Entry as One};
ghost use Rattle.shape_dict.specs.Inner.Parts.{lines_of as text_lines};
ghost use Rattle.shape_dict.specs.Text.{header_text};
ghost use Rattle.merge_core.specs.Merge.{Took, written_of};
ghost use Rattle.merge_core.specs.Inner.Trees.{Yields};
ghost use Rattle.merge_core.specs.Inner.Writing.{IsStopped, stopped, header_for, lines_of};
ghost use Rattle.merge_core.specs.Inner.Writing.{diamonds_for, moves_for};

use crate::entries::{Entries, NextFault};
use crate::faults::MergeFault;
use crate::forms::{Form, is_kept, is_square};
use crate::judged::Totals;
use crate::output::{write_block, write_pending};
use crate::tallies::{Tally, no_tally, with_kept};
use crate::trees::{Tree, next_of};
use shape_dict::{Entry, Text, push_header, push_line};
use std::alloc::{AllocError, Global};
use std::io::Write;

/// Returns the moves for the header: all moves, or with `least` how often kept squares were played.
fn moves_for(least: Option<u64>, totals: Totals, counts: Tally) -> u64
    ensures { result ≡ moves_for least totals counts }
{
    match least {
        Some(_) => counts.squares_played,
        None => totals.moves,
    }
}

/// Returns the number of diamonds for the header. It is None, and the header names none, if the
/// joined dictionaries count no diamonds, or if `least` is given: squares alone are kept then.
fn diamonds_for(least: Option<u64>, totals: Totals, counts: Tally) -> Option<u64>
    ensures { result ≡ diamonds_for least totals counts }
{
    match least {
        Some(_) => None,
        None => {
            if totals.counts_diamonds {
                Some(counts.diamonds)
            } else {
                None
            }
        }
    }
}

/// Makes the bytes of a join's header. `counts` is the tally of the patterns that the join keeps by
/// `form.least`.
pub(crate) fn header_of(
    alloc: Global,
    form: Form,
    totals: Totals,
    counts: Tally,
) -> Result<Vec<u8>, AllocError>
    ensures { IfOk result (λ header. header.items
        ≡ header_text (header_for form totals counts)) }
{
    let mut header = Vec::new(alloc);
    let moves = moves_for(form.least, totals, counts);
    let diamonds = diamonds_for(form.least, totals, counts);
    push_header(
        &mut header,
        form.text,
        totals.games,
        moves,
        counts.squares,
        diamonds,
    )?;
    Ok(header)
}

/// Appends the line of `entry` to `out`, or nothing for a diamond in text 1, which has squares
/// alone.
fn push_one(out: &mut Vec<u8>, text: Text, entry: &Entry) -> Result<(), AllocError>
    ensures line { OnOk result (out.new.items
        ≡ out.old.items ++ text_lines text (entry.now ∷ [])) }
{
    let square = is_square(*entry);
    match text {
        Text::One => {
            if !square {
                return Ok(());
            }
            push_line(out, text, entry)
        }
        Text::Two | Text::Three => push_line(out, text, entry),
    }
}

/// Appends the line of `entry` to `out` if the form asks for it: if the join keeps the entry by
/// `form.least`, and the text has its kind of pattern (text 1 has squares alone).
pub(crate) fn push_entry(out: &mut Vec<u8>, form: Form, entry: &Entry) -> Result<(), AllocError>
    ensures line { OnOk result (out.new.items
        ≡ out.old.items ++ lines_of form (entry.now ∷ [])) }
{
    if !is_kept(form.least, entry) {
        return Ok(());
    }
    push_one(out, form.text, entry)
}

/// Turns a fault in making a join into a `MergeFault` after `written` bytes of the text were
/// written. `Overflow` becomes `Changed`, since another reading of the dictionaries had no such
/// sum.
pub(crate) fn stopped(fault: NextFault, written: usize) -> MergeFault
    ensures { result ≡ stopped written fault }
{
    match fault {
        NextFault::Read(n) => MergeFault::Read { n, written },
        NextFault::Memory => MergeFault::Memory { written },
        NextFault::Overflow | NextFault::Changed => MergeFault::Changed { written },
    }
}

/// Writes the header, which is in `pending`, and a line for each entry of the join that the form
/// asks for. Before the last block is written, the tally of the entries that the join keeps is
/// compared with `counts`, that of the first reading: `Changed` if they differ.
pub(crate) fn write_lines<E: Entries, W: Write>(
    mut tree: Tree<E>,
    form: Form,
    counts: Tally,
    mut pending: Vec<u8>,
    writer: &mut W,
) -> Result<(), MergeFault>
    ensures took { IfErr result (λ found.
        Took (W.contents writer.old) (W.contents writer.new) (written_of found)) }
    ensures known { (all : List One) → Yields E.yields tree all → MatchResult result
        (λ _. Appends (W.contents writer.old) (W.contents writer.new)
        (pending.items ++ lines_of form all))
        (IsStopped (W.contents writer.old) (W.contents writer.new)
        (pending.items ++ lines_of form all)) }
{
    let mut written = 0;
    let mut seen = no_tally();
    for _place in 0..u64::MAX {
        match next_of(&mut tree) {
            Ok(Some(entry)) => {
                seen = match with_kept(form.least, seen, &entry) {
                    Some(next) => next,
                    None => return Err(MergeFault::Changed { written }),
                };
                match push_entry(&mut pending, form, &entry) {
                    Ok(()) => {}
                    Err(_) => return Err(MergeFault::Memory { written }),
                }
                written = match write_block(writer, &mut pending, written) {
                    Ok(count) => count,
                    Err(fault) => return Err(fault),
                };
            }
            Ok(None) => {
                if seen != counts {
                    return Err(MergeFault::Changed { written });
                }
                match write_pending(writer, &mut pending, written) {
                    Ok(_) => return Ok(()),
                    Err(fault) => return Err(fault),
                }
            }
            Err(fault) => return Err(stopped(fault, written)),
        }
    }
    Err(MergeFault::Changed { written })
}

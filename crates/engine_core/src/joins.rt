//! `join`: reads dictionaries that follow one another, and writes their join.
ghost use Rattle.std.specs.Prelude.{◌≡◌, ◌<◌, ◌≤◌, length, IfOk, IfErr, IfSome};
ghost use Rattle.engine_core.specs.Inner.Batches.{IsBatch};
ghost use Rattle.engine_core.specs.Joins.{IsJoinedText, IsJoinText};
ghost use Rattle.engine_core.specs.Inner.Joins.{IsAdded, IsAddFault};
ghost use Rattle.engine_core.specs.Joins.{IsJoinRunFault};
ghost use Rattle.engine_core.specs.Runs.{HasRead, Wrote, IsRunFault};
ghost use Rattle.engine_core.specs.declared.boards.Outcome.TheVariants as outcome;
ghost use Rattle.sgf_core.specs.Limit.{most_bytes};

use crate::boards::Outcome;
use crate::faults::RunFault;
use crate::halves::{Batch, join_front, join_two};
use crate::input::read_input;
use crate::output::write_output;
use sgf_core::MOST_BYTES;
use shape_dict::{DictFault, Dictionary, Text};
use std::alloc::Global;
use std::io::{Read, Write};

/// Reads the dictionary at the front of the bytes and joins it to `sum`. Returns the join, and how
/// many bytes the dictionary's text has.
fn add_next(alloc: Global, sum: &Dictionary, bytes: &[u8]) -> Result<(Dictionary, usize), DictFault>
    ensures added { IfOk result (λ p. IsAdded sum.now bytes.now p.1 p.0) }
    ensures fault { IfErr result (IsAddFault sum.now bytes.now) }
{
    let (next, length) = Dictionary::read_front(alloc, bytes)?;
    let both = Dictionary::join(alloc, sum, &next)?;
    Ok((both, length))
}

/// Reads the dictionary that follows a batch (the joined dictionaries at the front of the input),
/// and returns a batch with that one added.
///
/// The error is `RunFault::Dict` with the number of the dictionary that was to be added, from 1,
/// and why it cannot be read or added; that may be lack of memory.
fn add_one(alloc: Global, input: &[u8], before: &Batch) -> Result<Batch, RunFault>
    requires few { length input.now ≤ most_bytes }
    requires before { IsBatch input.now before.now }
    requires more { before.now.length < length input.now }
    ensures batch { IfOk result (IsBatch input.now) }
    ensures enough { IfOk result (λ batch. before.now.length < batch.length) }
    ensures fault { IfErr result (IsJoinRunFault input.now) }
{
    let n = before.number + 1;
    match add_next(alloc, &before.sum, &input[before.length..]) {
        Ok((sum, length)) => Ok(Batch {
            sum,
            number: n,
            length: before.length + length,
        }),
        Err(fault) => Err(RunFault::Dict { n, fault }),
    }
}

/// Adds to a batch (the joined dictionaries at the front of the input) the dictionaries that follow
/// it, up to byte index `end` at least. They are joined with one another before they are added.
/// None if one of them cannot be read or joined, or memory was refused.
fn add_joined(alloc: Global, input: &[u8], before: &Batch, end: usize) -> Option<Batch>
    requires before { IsBatch input.now before.now }
    requires more { before.now.length ≤ end }
    requires within { end ≤ length input.now }
    ensures batch { IfSome result (IsBatch input.now) }
    ensures enough { IfSome result (λ batch. end ≤ batch.length) }
{
    let next = join_front(alloc, &input[before.length..], end - before.length)?;
    join_two(alloc, before, &next)
}

/// Adds to a batch (the joined dictionaries at the front of the input) the dictionaries that follow
/// it, up to byte index `end` at least. If they cannot be joined with one another first, those of
/// the first half of the bytes are added, and then the others. So the error is that of the first
/// dictionary that cannot be read or added, and each time only half of the bytes are read again.
fn add_up_to(alloc: Global, input: &[u8], before: Batch, end: usize) -> Result<Batch, RunFault>
    requires few { length input.now ≤ most_bytes }
    requires before { IsBatch input.now before }
    requires within { end ≤ length input.now }
    ensures batch { IfOk result (IsBatch input.now) }
    ensures enough { IfOk result (λ batch. end ≤ batch.length) }
    ensures fault { IfErr result (IsJoinRunFault input.now) }
{
    if before.length >= end {
        return Ok(before);
    }
    let half = (end - before.length) / 2;
    if half == 0 {
        return add_one(alloc, input, &before);
    }
    match add_joined(alloc, input, &before, end) {
        Some(all) => Ok(all),
        None => {
            let middle = before.length + half;
            let more = add_up_to(alloc, input, before, middle)?;
            add_up_to(alloc, input, more, end)
        }
    }
}

/// Joins all dictionaries whose texts follow one another in `input`. Returns the join, and how many
/// dictionaries there are.
fn join_all(alloc: Global, input: &[u8]) -> Result<(Dictionary, usize), RunFault>
    requires { length input.now ≤ most_bytes }
    ensures joined { IfOk result (λ p. IsJoinedText input.now p.1 p.0) }
    ensures fault { IfErr result (IsJoinRunFault input.now) }
{
    let (sum, length) = Dictionary::read_front(alloc, input)?;
    let first = Batch {
        sum,
        number: 1,
        length,
    };
    let all = add_up_to(alloc, input, first, input.len())?;
    Ok((all.sum, all.number))
}

/// Joins all dictionaries whose texts follow one another in `input`, and returns the join in the
/// text format `text`.
fn joined_text(alloc: Global, text: Text, input: &[u8]) -> Result<Vec<u8>, RunFault>
    ensures written { IfOk result (λ written. IsJoinText text input.now written.items) }
    ensures fault { IfErr result (IsJoinRunFault input.now) }
{
    if input.len() > MOST_BYTES {
        return Err(RunFault::Dict {
            n: 1,
            fault: DictFault::TooLarge,
        });
    }
    let (sum, number) = join_all(alloc, input)?;
    let mut written = Vec::new(alloc);
    sum.write(text, &mut written)
        .map_err(|fault| RunFault::Dict { n: number, fault })?;
    Ok(written)
}

/// Reads one dictionary or more, one after another, each in any of the three text formats, and
/// writes their join in the format `text`: the games of each are numbered after those of the
/// dictionaries before it. Returns `Done`.
///
/// It takes memory for the input, for the text, and for joins of some of the dictionaries that wait
/// to be joined. There are at most as many such joins as the number of the input's bytes can be
/// halved, and one more, which is made of two of them.
///
/// # Errors
///
/// `Dict` with the number of the first dictionary, from 1, that is not well-formed (X1 to X5), or
/// cannot be added to those before it since a sum is too large (X7) or only some count diamonds
/// (X9), and its fault; an input without a byte is `BadHeader` (X1) of dictionary 1. `Dict` with
/// `TooLarge` (X8) if the whole input has more than 2^28 bytes, and with `Memory` (X6) if memory
/// for a dictionary, a join or the text was refused. `Read` if the reader failed, `Memory` if
/// memory for the input was refused. Nothing is written then. `Write` if the writer failed: exactly
/// `written` bytes of the text were written.
pub fn run_join<R: Read, W: Write>(
    alloc: Global,
    text: Text,
    reader: &mut R,
    writer: &mut W,
) -> Result<Outcome, RunFault>
    ensures read { HasRead result (R.remaining reader.old) (R.remaining reader.new) }
    ensures done { IfOk result (λ found. (found ≡ outcome.Done)
        × Wrote (IsJoinText text) (R.remaining reader.old) (W.contents writer.old)
        (W.contents writer.new)) }
    ensures fault { IfErr result (IsRunFault (IsJoinText text) IsJoinRunFault
        (R.remaining reader.old) (W.contents writer.old) (W.contents writer.new)) }
{
    let input = read_input(alloc, reader)?;
    let written = joined_text(alloc, text, &input)?;
    write_output(writer, &written)?;
    Ok(Outcome::Done)
}

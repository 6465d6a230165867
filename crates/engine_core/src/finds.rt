//! `find`: how often one pattern was there and was played, by a dictionary.
ghost use Rattle.std.specs.Prelude.{◌≡◌, IfOk, IfErr};
ghost use Rattle.engine_core.specs.Finds.{IsEntryOf, IsFoundText, IsAbsentText, IsFindText};
ghost use Rattle.engine_core.specs.Finds.{IsFindFault};
ghost use Rattle.engine_core.specs.Runs.{HasRead, Wrote, IsRunFault};
ghost use Rattle.shape_dict.specs.Text.{line_text};
ghost use Rattle.shape_dict.specs.declared.entries.Text.TheVariants as kind;
ghost use Rattle.engine_core.specs.declared.boards.Outcome.TheVariants as outcome;

use crate::boards::Outcome;
use crate::faults::RunFault;
use crate::input::read_input;
use crate::output::write_output;
use shape_core::Shape;
use shape_dict::{Dictionary, Entry, FirstGame, Text, push_line};
use std::alloc::{AllocError, Global};
use std::io::{Read, Write};

/// Returns the pattern's entry in the dictionary whose text the input is, or None if it has none.
fn entry_in(alloc: Global, input: &[u8], shape: Shape) -> Result<Option<Entry>, RunFault>
    ensures found { IfOk result (IsEntryOf shape input.now) }
    ensures fault { IfErr result (IsFindFault input.now) }
{
    let dictionary = Dictionary::read(alloc, input)?;
    Ok(dictionary.find(shape))
}

/// Returns a pattern's line: its word in 13 hexadecimal digits, how often it was there, and how
/// often it was played.
fn found_line(alloc: Global, entry: &Entry) -> Result<Vec<u8>, AllocError>
    ensures { IfOk result (λ line. line.items ≡ line_text kind.One entry.now) }
{
    let mut line = Vec::new(alloc);
    push_line(&mut line, Text::One, entry)?;
    Ok(line)
}

/// Returns the pattern's line by the dictionary whose text `input` is, and `Done`. If the
/// dictionary does not have the pattern, the line says 0 twice, and the outcome is `NotFound`.
fn answer(alloc: Global, input: &[u8], shape: Shape) -> Result<(Vec<u8>, Outcome), RunFault>
    ensures done { IfOk result (λ p. p.1 ≡ outcome.Done → IsFoundText shape input.now p.0.items) }
    ensures not_found { IfOk result (λ p. p.1 ≡ outcome.NotFound
        → IsAbsentText shape input.now p.0.items) }
    ensures text { IfOk result (λ p. IsFindText shape input.now p.0.items) }
    ensures fault { IfErr result (IsFindFault input.now) }
{
    match entry_in(alloc, input, shape)? {
        Some(entry) => Ok((found_line(alloc, &entry)?, Outcome::Done)),
        None => {
            let absent = Entry {
                shape,
                there: 0,
                played: 0,
                first: FirstGame::new(None),
            };
            Ok((found_line(alloc, &absent)?, Outcome::NotFound))
        }
    }
}

/// Reads one dictionary, in any of the three texts, and writes the pattern's line: its word in 13
/// hexadecimal digits, how often it was there, and how often it was played. If the dictionary has
/// no such pattern, the line says 0 twice, and the call returns `NotFound`. It takes memory for the
/// input, the dictionary and the line.
///
/// # Errors
///
/// `Dict` with 1 and the fault of the text: more than 2^28 bytes (X8), or not well-formed (X1 to
/// X5), or memory for the dictionary was refused (X6). `Read` if the reader failed, `Memory` if
/// memory for the input or the line was refused: nothing is written then. `Write` if the writer
/// failed: exactly `written` bytes of the line were written.
pub fn run_find<R: Read, W: Write>(
    alloc: Global,
    shape: Shape,
    reader: &mut R,
    writer: &mut W,
) -> Result<Outcome, RunFault>
    ensures read { HasRead result (R.remaining reader.old) (R.remaining reader.new) }
    ensures done { IfOk result (λ found. found ≡ outcome.Done
        → Wrote (IsFoundText shape) (R.remaining reader.old) (W.contents writer.old)
        (W.contents writer.new)) }
    ensures not_found { IfOk result (λ found. found ≡ outcome.NotFound
        → Wrote (IsAbsentText shape) (R.remaining reader.old) (W.contents writer.old)
        (W.contents writer.new)) }
    ensures fault { IfErr result (IsRunFault (IsFindText shape) IsFindFault
        (R.remaining reader.old) (W.contents writer.old) (W.contents writer.new)) }
{
    let input = read_input(alloc, reader)?;
    let (line, outcome) = answer(alloc, &input, shape)?;
    write_output(writer, &line)?;
    Ok(outcome)
}

//! From a reader of a dictionary to a writer of its sheet, the drawing of its first patterns.
ghost use Rattle.std.specs.Prelude.{OnOk, IfOk, IfErr};
ghost use Rattle.engine_core.specs.Finds.{IsFindFault};
ghost use Rattle.engine_core.specs.Runs.{HasRead, Wrote, IsRunFault};
ghost use Rattle.sheet_core.specs.Runs.{IsSheetText};

use crate::asked::Asked;
use crate::sheets::sheet_text;
use engine_core::{RunFault, read_input, write_output};
use shape_dict::Dictionary;
use std::alloc::Global;
use std::io::{Read, Write};

/// Reads the dictionary whose text `input` is, and returns its sheet as `asked`. `hits` is text of
/// `shape_hits --words`, of which a page shows some lines below each pattern.
fn sheet_of(alloc: Global, asked: Asked, hits: &[u8], input: &[u8]) -> Result<Vec<u8>, RunFault>
    ensures text { IfOk result (λ text. IsSheetText asked hits.now input.now text.items) }
    ensures fault { IfErr result (IsFindFault input.now) }
{
    let dictionary = Dictionary::read(alloc, input)?;
    Ok(sheet_text(alloc, asked, hits, &dictionary)?)
}

/// Reads one dictionary, in any of its three text formats, and writes its sheet: the patterns that
/// are asked for, drawn on a page of HTML or as text for a terminal.
///
/// `hits` is text that `shape_hits --words` prints: lines with a pattern's word and where in a game
/// it was. On a page the first three at most of a pattern's lines stand below it.
///
/// It reads up to the reader's end, or 2^28 + 1 bytes and no more, unless the reader fails or
/// memory is refused. It takes memory for the input, the dictionary, the patterns of the kind that
/// were there often enough, and the sheet.
///
/// # Errors
///
/// `Dict` with the dictionary's number, which is 1, and the first fault of the text: X1 to X5 if it
/// is not well-formed, X6 if memory for its entries was refused, X8 if it has more than 2^28 bytes.
/// `Read` if the reader failed; `Memory` if memory for the input or the sheet was refused. Nothing
/// is written then. `Write` if the writer failed: it has the exact number of bytes of the sheet
/// that were written.
pub fn run_sheet<R: Read, W: Write>(
    alloc: Global,
    asked: Asked,
    hits: &[u8],
    reader: &mut R,
    writer: &mut W,
) -> Result<(), RunFault>
    ensures read { HasRead result (R.remaining reader.old) (R.remaining reader.new) }
    ensures done { OnOk result (Wrote (IsSheetText asked hits.now) (R.remaining reader.old)
        (W.contents writer.old) (W.contents writer.new)) }
    ensures fault { IfErr result (IsRunFault (IsSheetText asked hits.now) IsFindFault
        (R.remaining reader.old) (W.contents writer.old) (W.contents writer.new)) }
{
    let input = read_input(alloc, reader)?;
    let sheet = sheet_of(alloc, asked, hits, &input)?;
    write_output(writer, &sheet)?;
    Ok(())
}

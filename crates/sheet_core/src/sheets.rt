//! The sheet of a dictionary: its first patterns in an order, drawn.
ghost use Rattle.std.specs.Prelude.{◌≡◌, IfOk};
ghost use Rattle.sheet_core.specs.Sheets.{IsSheetOf, written_text};

use crate::asked::{Asked, Form};
use crate::choosing::choose;
use crate::page::page_text;
use crate::plain::plain_text;
use shape_dict::{Dictionary, Entry};
use std::alloc::{AllocError, Global};

/// Returns the text of the `chosen` patterns, a page or plain text as `asked.form` says. `hits` is
/// text of `shape_hits --words`, which is used on a page only.
fn written_text(
    alloc: Global,
    asked: Asked,
    hits: &[u8],
    dictionary: &Dictionary,
    chosen: &[Entry],
) -> Result<Vec<u8>, AllocError>
    ensures { IfOk result (λ text. text.items
        ≡ written_text asked hits.now dictionary.now chosen.now) }
{
    match asked.form {
        Form::Page => page_text(alloc, asked, hits, dictionary, chosen),
        Form::Plain => plain_text(alloc, asked, dictionary.entries(), chosen),
    }
}

/// Returns the sheet of `dictionary`: the patterns that are asked for, as a page or as text. On a
/// page the first three at most of a pattern's lines in `hits` (text of `shape_hits --words`) stand
/// below it. It takes memory for the patterns of the kind that were there often enough, and for the
/// text.
///
/// # Errors
///
/// `AllocError` if memory was refused.
pub fn sheet_text(
    alloc: Global,
    asked: Asked,
    hits: &[u8],
    dictionary: &Dictionary,
) -> Result<Vec<u8>, AllocError>
    ensures { IfOk result (λ text. IsSheetOf asked hits.now dictionary.now text.items) }
{
    let chosen = choose(
        alloc,
        asked.order,
        asked.kind,
        asked.least,
        asked.most,
        dictionary,
    )?;
    written_text(alloc, asked, hits, dictionary, &chosen)
}

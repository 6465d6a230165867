//! The text of a sheet (patterns of a dictionary, drawn with their counts) for a terminal.
ghost use Rattle.std.specs.Prelude.{◌≡◌, ◌+◌, ◌≤◌, ◌++◌, length, OnOk, IfOk};
ghost use Rattle.sheet_core.specs.Plain.{marked_glyphs, row_text, board_text, uses_text};
ghost use Rattle.sheet_core.specs.Pieces.{ranked};
ghost use Rattle.sheet_core.specs.Plain.{caption_text, figure_text, plain_text};

use crate::asked::Asked;
use crate::empty::push_empty;
use crate::pieces::{push_first, push_percent};
use crate::rows::{Row, rows_of};
use shape_core::{Word, glyphs};
use shape_dict::{Entry, push_number, push_word};
use std::alloc::{AllocError, Global};

/// As many spaces as the row has that is indented most.
const SPACES: [u8; 3] = [b' '; 3];

/// The number, from 0, of the cell in the middle, which is the point itself.
const MIDDLE: usize = 12;

/// Returns the glyphs of a word's 25 cells, with `*` for the point in the middle.
fn marked_glyphs(word: Word) -> [u8; 25]
    ensures { result ≡ marked_glyphs word }
{
    let mut marked = glyphs(word);
    marked[MIDDLE] = b'*';
    marked
}

/// Appends one row of a pattern as a line: its indentation, and its cells' part of `glyphs`.
fn push_row(text: &mut Vec<u8>, glyphs: &[u8], row: Row) -> Result<(), AllocError>
    requires indent { row.indent ≤ 3 }
    requires cells { row.first + row.count ≤ length glyphs.now }
    ensures { OnOk result (text.new.items ≡ text.old.items ++ row_text glyphs.now row) }
{
    text.extend_from_slice(&SPACES[..row.indent])?;
    text.extend_from_slice(&glyphs[row.first..row.first + row.count])?;
    text.push(b'\n')?;
    Ok(())
}

/// Appends the pattern `word` as rows of glyphs, a line for each row.
fn push_board(text: &mut Vec<u8>, word: Word) -> Result<(), AllocError>
    ensures { OnOk result (text.new.items ≡ text.old.items ++ board_text word) }
{
    let marked = marked_glyphs(word);
    for row in rows_of(word.kind()) {
        push_row(text, &marked, *row)?;
    }
    Ok(())
}

/// Appends how often a pattern was there and was played, and its plays for a hundred times that it
/// was there.
fn push_uses(text: &mut Vec<u8>, entry: &Entry) -> Result<(), AllocError>
    ensures { OnOk result (text.new.items ≡ text.old.items ++ uses_text entry.now) }
{
    text.extend_from_slice(b" there ")?;
    push_number(text, entry.there)?;
    text.extend_from_slice(b" played ")?;
    push_number(text, entry.played)?;
    text.extend_from_slice(b" urgency ")?;
    push_percent(text, entry)
}

/// Appends the line of a pattern: its rank, word and counts, and its first game if that is known.
fn push_caption(text: &mut Vec<u8>, rank: u64, entry: &Entry) -> Result<(), AllocError>
    ensures { OnOk result (text.new.items ≡ text.old.items ++ caption_text rank entry.now) }
{
    push_number(text, rank)?;
    text.push(b' ')?;
    push_word(text, entry.shape)?;
    push_uses(text, entry)?;
    push_first(text, entry.first.get())?;
    text.push(b'\n')?;
    Ok(())
}

/// Appends a pattern with its rank: its line, its board, and an empty line.
fn push_figure(text: &mut Vec<u8>, rank: u64, entry: &Entry) -> Result<(), AllocError>
    ensures { OnOk result (text.new.items ≡ text.old.items ++ figure_text rank entry.now) }
{
    push_caption(text, rank, entry)?;
    push_board(text, entry.shape.word())?;
    text.push(b'\n')?;
    Ok(())
}

/// Appends the figures of the `chosen` patterns (line, board and empty line), the first with rank
/// 1.
fn push_figures(text: &mut Vec<u8>, chosen: &[Entry]) -> Result<(), AllocError>
    ensures { OnOk result (text.new.items
        ≡ text.old.items ++ ranked figure_text 1 chosen.now) }
{
    let mut rank = 1;
    for entry in chosen {
        push_figure(text, rank, entry)?;
        rank += 1;
    }
    Ok(())
}

/// Returns the text for a terminal that shows the `chosen` patterns, the first with rank 1. If
/// there are none, the text says why none of the dictionary's `entries` was chosen for what is
/// `asked`. It takes memory for the text.
///
/// # Errors
///
/// `AllocError` if memory was refused.
pub fn plain_text(
    alloc: Global,
    asked: Asked,
    entries: &[Entry],
    chosen: &[Entry],
) -> Result<Vec<u8>, AllocError>
    ensures { IfOk result (λ text. text.items ≡ plain_text asked entries.now chosen.now) }
{
    let mut text = Vec::new(alloc);
    if chosen.is_empty() {
        push_empty(&mut text, asked, entries)?;
        text.push(b'\n')?;
        return Ok(text);
    }
    push_figures(&mut text, chosen)?;
    Ok(text)
}

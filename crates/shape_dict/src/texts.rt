//! The whole text of a dictionary: its header, and a line for each pattern.
ghost use Rattle.std.specs.Prelude.{◌≡◌, ◌++◌, OnOk};
ghost use Rattle.std.specs.List.{flat_map};
ghost use Rattle.shape_dict.specs.Contents.{squares_of};
ghost use Rattle.shape_dict.specs.Text.{front_text, counts_text, games_text, header_text};
ghost use Rattle.shape_dict.specs.Text.{line_text};
ghost use Rattle.shape_dict.specs.Inner.Parts.{lines_of};
ghost use Rattle.shape_dict.specs.Writing.{Begins};
ghost use Rattle.shape_dict.specs.declared.entries.Text.TheVariants as kind;

use crate::entries::{Entry, Text};
use crate::kinds::is_of;
use crate::writing::{push_bytes, push_line, push_number, push_optional};
use shape_core::Kind;
use std::alloc::AllocError;

/// Appends the first words of a header to `out`, those before its number of games: `shapes 1 games`
/// and a space, or the same with 2 or 3, for the format `text`.
fn push_front(out: &mut Vec<u8>, text: Text) -> Result<(), AllocError>
    ensures ok { OnOk result (out.new.items ≡ out.old.items ++ front_text text) }
    ensures begins { Begins out.old.items out.new.items }
{
    match text {
        Text::One => push_bytes(out, b"shapes 1 games "),
        Text::Two => push_bytes(out, b"shapes 2 games "),
        Text::Three => push_bytes(out, b"shapes 3 games "),
    }
}

/// Appends how many patterns there are to `out`, for a header: in text 1 the squares, else the
/// squares and the diamonds, or `-` if `diamonds` is None.
fn push_counts(
    out: &mut Vec<u8>,
    text: Text,
    squares: u64,
    diamonds: Option<u64>,
) -> Result<(), AllocError>
    ensures ok { OnOk result (out.new.items ≡ out.old.items ++ counts_text text squares diamonds) }
    ensures begins { Begins out.old.items out.new.items }
{
    match text {
        Text::One => {
            push_bytes(out, b" patterns ")?;
            push_number(out, squares)
        }
        Text::Two | Text::Three => {
            push_bytes(out, b" squares ")?;
            push_number(out, squares)?;
            push_bytes(out, b" diamonds ")?;
            push_optional(out, diamonds)
        }
    }
}

/// Appends the first words of a header to `out`, with its numbers of games and of moves.
fn push_games(out: &mut Vec<u8>, text: Text, games: u64, moves: u64) -> Result<(), AllocError>
    ensures ok { OnOk result (out.new.items ≡ out.old.items ++ games_text text games moves) }
    ensures begins { Begins out.old.items out.new.items }
{
    push_front(out, text)?;
    push_number(out, games)?;
    push_bytes(out, b" moves ")?;
    push_number(out, moves)
}

/// Appends the header of a text in the format `text` to `out`: the format's number, the games and
/// moves, and how many squares follow. In texts 2 and 3 it also says how many diamonds follow, or
/// `-` for None if they are not counted.
///
/// # Errors
///
/// `AllocError` if memory was refused: `out` still begins with what it held, and may have a part of
/// the header after it.
pub fn push_header(
    out: &mut Vec<u8>,
    text: Text,
    games: u64,
    moves: u64,
    squares: u64,
    diamonds: Option<u64>,
) -> Result<(), AllocError>
    ensures ok { OnOk result (out.new.items
        ≡ out.old.items ++ header_text (record {
          text = text;
          games = games;
          moves = moves;
          squares = squares;
          diamonds = diamonds;
        })) }
    ensures begins { Begins out.old.items out.new.items }
{
    push_games(out, text, games, moves)?;
    push_counts(out, text, squares, diamonds)?;
    push_bytes(out, b"\n")
}

/// Appends the line of each entry to `out`, in the format `text`.
fn push_lines(out: &mut Vec<u8>, text: Text, entries: &[Entry]) -> Result<(), AllocError>
    ensures ok { OnOk result (out.new.items
        ≡ out.old.items ++ flat_map (line_text text) entries.now) }
    ensures begins { Begins out.old.items out.new.items }
{
    for entry in entries {
        push_line(out, text, entry)?;
    }
    Ok(())
}

/// Appends the line of each square to `out`, in text 1.
fn push_squares(out: &mut Vec<u8>, entries: &[Entry]) -> Result<(), AllocError>
    ensures ok { OnOk result (out.new.items
        ≡ out.old.items ++ flat_map (line_text kind.One) (squares_of entries.now)) }
    ensures begins { Begins out.old.items out.new.items }
{
    for entry in entries {
        if is_of(Kind::Square, entry) {
            push_line(out, Text::One, entry)?;
        }
    }
    Ok(())
}

/// Appends the lines of `entries` to `out`, in the format `text`: in text 1 of the squares alone.
pub(crate) fn push_entries(
    out: &mut Vec<u8>,
    text: Text,
    entries: &[Entry],
) -> Result<(), AllocError>
    ensures ok { OnOk result (out.new.items ≡ out.old.items ++ lines_of text entries.now) }
    ensures begins { Begins out.old.items out.new.items }
{
    match text {
        Text::One => push_squares(out, entries),
        Text::Two | Text::Three => push_lines(out, text, entries),
    }
}

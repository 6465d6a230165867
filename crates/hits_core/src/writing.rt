//! The lines of hits (times that a pattern was played or was there), appended to bytes.
ghost use Rattle.std.specs.Prelude.{◌≡◌, ◌++◌, OnOk, IfOk, option_map};
ghost use Rattle.std.specs.List.{flat_map};
ghost use Rattle.hits_core.specs.Lines.{letter_of, point_text, colour_text, front_text};
ghost use Rattle.hits_core.specs.Lines.{column_letter, column_text, coordinates_text, spelled};
ghost use Rattle.hits_core.specs.Lines.{turn_text, where_text, ending, line_text};

use crate::hits::Hit;
use crate::searches::{Search, Shown, Spelling};
use game_files::push_name;
use go_board::{Colour, Point};
use shape_core::Shape;
use shape_dict::{push_number, push_word};
use std::alloc::{AllocError, Global};

/// Returns the letter that SGF has for a column or row, `side` from 0: a to z, then A to Z.
fn letter(side: u8) -> u8
    ensures { result ≡ letter_of side }
{
    if side < 26 {
        b'a' + side
    } else {
        b'A' + (side - 26).min(25)
    }
}

/// Appends a point as SGF has it: the letter of its column, then that of its row.
pub(crate) fn push_point(text: &mut Vec<u8>, point: Point) -> Result<(), AllocError>
    ensures { OnOk result (text.new.items ≡ text.old.items ++ point_text point) }
{
    text.extend_from_slice(&[letter(point.column), letter(point.row)])
}

/// Returns the letter of a column from 0 to 24 as boards are labelled: A to Z without I.
fn column_letter(column: u8) -> u8
    ensures { result ≡ column_letter column }
{
    if column < 8 {
        b'A' + column
    } else {
        b'B' + column.min(24)
    }
}

/// Appends the label of a column, from 0: a letter from A to Z without I, and from column 25 on two
/// letters, first AA.
fn push_column(text: &mut Vec<u8>, column: u8) -> Result<(), AllocError>
    ensures { OnOk result (text.new.items ≡ text.old.items ++ column_text column) }
{
    if column < 25 {
        return text.extend_from_slice(&[column_letter(column)]);
    }
    text.extend_from_slice(&[column_letter(column / 25 - 1), column_letter(column % 25)])
}

/// Appends a point of a board of `rows` rows as boards are labelled: the letter of its column and
/// the number of its row from below, such as Q16.
fn push_coordinates(text: &mut Vec<u8>, rows: u8, point: Point) -> Result<(), AllocError>
    ensures { OnOk result (text.new.items ≡ text.old.items ++ coordinates_text rows point) }
{
    push_column(text, point.column)?;
    push_number(text, u64::from(rows.saturating_sub(point.row)))
}

/// Appends a point of a board of `rows` rows as `spelling` says: as `dp`, or as `Q16`.
fn push_spelled(
    text: &mut Vec<u8>,
    spelling: Spelling,
    rows: u8,
    point: Point,
) -> Result<(), AllocError>
    ensures { OnOk result (text.new.items ≡ text.old.items ++ spelled spelling rows point) }
{
    match spelling {
        Spelling::Letters => push_point(text, point),
        Spelling::Coordinates => push_coordinates(text, rows, point),
    }
}

/// Appends `black` or `white`.
fn push_colour(text: &mut Vec<u8>, colour: Colour) -> Result<(), AllocError>
    ensures { OnOk result (text.new.items ≡ text.old.items ++ colour_text colour) }
{
    match colour {
        Colour::Black => text.extend_from_slice(b"black"),
        Colour::White => text.extend_from_slice(b"white"),
    }
}

/// Appends what a line begins with: `word` and a space if `shown` asks for words, else nothing.
fn push_front(text: &mut Vec<u8>, shown: Shown, word: Shape) -> Result<(), AllocError>
    ensures { OnOk result (text.new.items ≡ text.old.items ++ front_text shown word) }
{
    match shown {
        Shown::Places => Ok(()),
        Shown::WordsToo => {
            push_word(text, word)?;
            text.extend_from_slice(b" ")
        }
    }
}

/// Appends the number of the hit's game and that of its move, each with a space after it.
fn push_turn(text: &mut Vec<u8>, hit: &Hit) -> Result<(), AllocError>
    ensures { OnOk result (text.new.items ≡ text.old.items ++ turn_text hit.now) }
{
    push_number(text, hit.game)?;
    text.extend_from_slice(b" ")?;
    push_number(text, hit.number)?;
    text.extend_from_slice(b" ")
}

/// Appends the hit's point, who was to move, and the byte index at which the game's tree begins,
/// with a space after the first and the second.
fn push_where(text: &mut Vec<u8>, spelling: Spelling, hit: &Hit) -> Result<(), AllocError>
    ensures { OnOk result (text.new.items ≡ text.old.items ++ where_text spelling hit.now) }
{
    push_spelled(text, spelling, hit.rows, hit.at)?;
    text.extend_from_slice(b" ")?;
    push_colour(text, hit.mover)?;
    text.extend_from_slice(b" ")?;
    push_number(text, hit.place as u64)
}

/// Appends the end of a line: a space and the name of the file, if there is one, and a line feed.
fn push_ending(text: &mut Vec<u8>, name: Option<&str>) -> Result<(), AllocError>
    ensures { OnOk result (text.new.items ≡ text.old.items
        ++ ending (option_map (λ n. n.now) name.entry)) }
{
    if let Some(name) = name {
        text.extend_from_slice(b" ")?;
        push_name(text, name)?;
    }
    text.extend_from_slice(b"\n")
}

/// Appends the line of `hit`: its word if `search` asks for it, the game, the move, the point, who
/// was to move, the byte index of the game's tree, and the name of the file if there is one.
fn push_line(text: &mut Vec<u8>, search: Search<'_>, hit: &Hit) -> Result<(), AllocError>
    ensures { OnOk result (text.new.items ≡ text.old.items ++ line_text search.entry hit.now) }
{
    push_front(text, search.shown, hit.word)?;
    push_turn(text, hit)?;
    push_where(text, search.spelling, hit)?;
    push_ending(text, search.name)
}

/// Returns the text with a line for each of `hits`, in their order. `AllocError` if memory was
/// refused.
pub(crate) fn text_of(
    alloc: Global,
    search: Search<'_>,
    hits: &[Hit],
) -> Result<Vec<u8>, AllocError>
    ensures { IfOk result (λ text. text.items ≡ flat_map (line_text search.entry) hits.now) }
{
    let mut text = Vec::new(alloc);
    for hit in hits {
        push_line(&mut text, search, hit)?;
    }
    Ok(text)
}

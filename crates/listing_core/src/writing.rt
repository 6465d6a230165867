//! The lines of a listing, one for each tree of a collection, appended to bytes.
ghost use Rattle.std.specs.Prelude.{◌≡◌, ◌++◌, OnOk, option_map};
ghost use Rattle.std.specs.Fmt.{decimal};
ghost use Rattle.listing_core.specs.Lines.{record_fault_text, sgf_fault_text, number_text};
ghost use Rattle.listing_core.specs.Lines.{size_text, place_text, what_text, ending, line_text};
ghost use Rattle.listing_core.specs.Lines.{fault_line};

use crate::lines::{Line, What};
use game_files::push_name;
use go_board::Size;
use go_record::RecordFault;
use sgf_core::SgfFault;
use shape_dict::push_number;
use std::alloc::AllocError;

/// Appends a byte index or a count in decimal.
pub(crate) fn push_count(text: &mut Vec<u8>, count: usize) -> Result<(), AllocError>
    ensures { OnOk result (text.new.items ≡ text.old.items ++ decimal count) }
{
    push_number(text, count as u64)
}

/// Appends the name of a fault and `at`, the byte index of what is wrong.
fn push_placed(text: &mut Vec<u8>, name: &[u8], at: usize) -> Result<(), AllocError>
    ensures { OnOk result (text.new.items ≡ text.old.items ++ (name.now ++ decimal at)) }
{
    text.extend_from_slice(name)?;
    push_count(text, at)
}

/// Appends the text of a record's fault, such as `G2 bad point at 877`.
pub(crate) fn push_record_fault(text: &mut Vec<u8>, fault: RecordFault) -> Result<(), AllocError>
    ensures { OnOk result (text.new.items ≡ text.old.items ++ record_fault_text fault) }
{
    match fault {
        RecordFault::BadSize(at) => push_placed(text, b"G1 bad size at ", at),
        RecordFault::BadPoint(at) => push_placed(text, b"G2 bad point at ", at),
        RecordFault::OffBoard(at) => push_placed(text, b"G3 off the board at ", at),
        RecordFault::Memory => text.extend_from_slice(b"G4 no memory"),
    }
}

/// Appends the text of a collection's fault of syntax, such as `S2 bad byte at 950`.
fn push_sgf_fault(text: &mut Vec<u8>, fault: SgfFault) -> Result<(), AllocError>
    ensures { OnOk result (text.new.items ≡ text.old.items ++ sgf_fault_text fault) }
{
    match fault {
        SgfFault::Truncated(at) => push_placed(text, b"S1 truncated tree at ", at),
        SgfFault::BadByte(at) => push_placed(text, b"S2 bad byte at ", at),
        SgfFault::NoValue(at) => push_placed(text, b"S3 no value at ", at),
        SgfFault::TooLarge => text.extend_from_slice(b"S4 input too large"),
        SgfFault::Memory => text.extend_from_slice(b"S5 no memory"),
    }
}

/// Appends the number of a game, or `-` if there is none.
fn push_game_number(text: &mut Vec<u8>, number: Option<u64>) -> Result<(), AllocError>
    ensures { OnOk result (text.new.items ≡ text.old.items ++ number_text number) }
{
    match number {
        None => text.extend_from_slice(b"-"),
        Some(number) => push_number(text, number),
    }
}

/// Appends the number of a game (`-` if it is None), and the byte indices `from` and `to` between
/// which its tree is, with `between` after each of the three.
pub(crate) fn push_place(
    text: &mut Vec<u8>,
    between: &[u8],
    number: Option<u64>,
    from: usize,
    to: usize,
) -> Result<(), AllocError>
    ensures { OnOk result (text.new.items
        ≡ text.old.items ++ place_text between.now number from to) }
{
    push_game_number(text, number)?;
    text.extend_from_slice(between)?;
    push_count(text, from)?;
    text.extend_from_slice(between)?;
    push_count(text, to)?;
    text.extend_from_slice(between)
}

/// Appends the size of a board: columns and rows, such as `19x19`.
pub(crate) fn push_size(text: &mut Vec<u8>, size: Size) -> Result<(), AllocError>
    ensures { OnOk result (text.new.items ≡ text.old.items ++ size_text size) }
{
    push_count(text, usize::from(size.columns()))?;
    text.extend_from_slice(b"x")?;
    push_count(text, usize::from(size.rows()))
}

/// Appends what a tree is: `game` with its board, moves and occasions (moves onto empty points),
/// `other`, or `refused` with the fault of its record.
fn push_what(text: &mut Vec<u8>, what: What) -> Result<(), AllocError>
    ensures { OnOk result (text.new.items ≡ text.old.items ++ what_text what) }
{
    match what {
        What::Game {
            size,
            moves,
            occasions,
        } => {
            text.extend_from_slice(b"game ")?;
            push_size(text, size)?;
            text.extend_from_slice(b" moves ")?;
            push_count(text, moves)?;
            text.extend_from_slice(b" occasions ")?;
            push_count(text, occasions)
        }
        What::Other => text.extend_from_slice(b"other"),
        What::Refused(fault) => {
            text.extend_from_slice(b"refused ")?;
            push_record_fault(text, fault)
        }
    }
}

/// Appends the end of a line: `before` and the name of the file, if there is one, and a line feed.
pub(crate) fn push_ending(
    text: &mut Vec<u8>,
    before: &[u8],
    name: Option<&str>,
) -> Result<(), AllocError>
    ensures { OnOk result (text.new.items ≡ text.old.items
        ++ ending before.now (option_map (λ n. n.now) name.entry)) }
{
    if let Some(name) = name {
        text.extend_from_slice(before)?;
        push_name(text, name)?;
    }
    text.push(b'\n')?;
    Ok(())
}

/// Appends a tree's line, with spaces between: its number, where it begins and ends, what it is,
/// and the name of its file if there is one.
pub(crate) fn push_line(
    text: &mut Vec<u8>,
    name: Option<&str>,
    line: &Line,
) -> Result<(), AllocError>
    ensures { OnOk result (text.new.items ≡ text.old.items
        ++ line_text (option_map (λ n. n.now) name.entry) line.now) }
{
    push_place(text, b" ", line.number, line.from, line.to)?;
    push_what(text, line.what)?;
    push_ending(text, b" ", name)
}

/// Appends the last line of an input with a fault of syntax: the byte indices `from` and `to`
/// between which no tree could be read, the fault, `columns` (the tabs of columns that are empty,
/// or nothing) and the name of the file if there is one. `between` stands between the parts.
pub(crate) fn push_fault(
    text: &mut Vec<u8>,
    between: &[u8],
    columns: &[u8],
    name: Option<&str>,
    from: usize,
    to: usize,
    fault: SgfFault,
) -> Result<(), AllocError>
    ensures { OnOk result (text.new.items ≡ text.old.items ++ fault_line between.now columns.now
        (option_map (λ n. n.now) name.entry) from to fault) }
{
    push_place(text, between, None, from, to)?;
    text.extend_from_slice(b"fault ")?;
    push_sgf_fault(text, fault)?;
    text.extend_from_slice(columns)?;
    push_ending(text, between, name)
}

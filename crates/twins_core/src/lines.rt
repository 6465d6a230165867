//! The line of a twin (a game whose record an earlier game has), with the first game that has it.
ghost use Rattle.std.specs.Prelude.{◌≡◌, ◌++◌, OnOk, option_map, string_bytes};
ghost use Rattle.std.specs.Fmt.{decimal};
ghost use Rattle.go_record.specs.Actions.{Actions};
ghost use Rattle.twins_core.specs.Twins.{tab, name_text, line_text};
ghost use Rattle.twins_core.specs.Inner.Seats.{bounds_text, met_at, met_in};

use crate::seats::{Place, Seat};
use game_files::push_name;
use shape_dict::push_number;
use std::alloc::AllocError;

/// Appends a tab and the byte index of the tree's first byte, and then a tab and the byte index
/// after its last byte, both in decimal. `place.number` is not appended, nor a tab or line feed at
/// the end.
fn push_bounds(text: &mut Vec<u8>, place: Place) -> Result<(), AllocError>
    ensures { OnOk result (text.new.items ≡ text.old.items ++ bounds_text place) }
{
    text.push(b'\t')?;
    push_number(text, place.from as u64)?;
    text.push(b'\t')?;
    push_number(text, place.to as u64)
}

/// Appends a tab and the name of a file, if there is one.
fn push_file(text: &mut Vec<u8>, name: Option<&str>) -> Result<(), AllocError>
    ensures { OnOk result (text.new.items
        ≡ text.old.items ++ name_text (option_map (λ n. n.now) name.entry)) }
{
    if let Some(name) = name {
        text.push(b'\t')?;
        push_name(text, name)?;
    }
    Ok(())
}

/// Appends a tab and the name of the file of a seat (where a game is), if it has one.
fn push_seat_file(text: &mut Vec<u8>, seat: &Seat) -> Result<(), AllocError>
    ensures { OnOk result (text.new.items
        ≡ text.old.items ++ name_text (option_map string_bytes seat.now.name)) }
{
    match &seat.name {
        Some(name) => push_file(text, Some(name.as_str())),
        None => Ok(()),
    }
}

/// Appends the line of a game whose record an earlier game has. The game is at `place`, in the file
/// `name` (None for no named file); `first` is where the first game with the same record is.
pub(crate) fn push_line(
    text: &mut Vec<u8>,
    place: Place,
    name: Option<&str>,
    first: &Seat,
) -> Result<(), AllocError>
    ensures { (game : Actions) → OnOk result (text.new.items ≡ text.old.items
        ++ line_text (met_at game place (option_map (λ n. n.now) name.entry))
        (met_in game first.now)) }
{
    push_number(text, place.number)?;
    text.push(b'\t')?;
    push_number(text, first.place.number)?;
    push_bounds(text, place)?;
    push_bounds(text, first.place)?;
    push_file(text, name)?;
    push_seat_file(text, first)?;
    text.push(b'\n')?;
    Ok(())
}

//! Which properties set stones, which play them, and a node's first value of a given name.
ghost use Rattle.std.specs.Prelude.{◌≡◌};
ghost use Rattle.std.specs.Option.{option_map};
ghost use Rattle.sgf_core.specs.Values.{value_of};
ghost use Rattle.go_board.specs.Extent.{Extent};
ghost use Rattle.go_record.specs.Inner.Adding.{deeds_of, round_deeds};
ghost use Rattle.go_record.specs.Record.{is_named, setup_stone, move_colour, front_value};
ghost use Rattle.go_record.specs.Record.{first_value};

use crate::deeds::Deed;
use go_board::{Colour, Stone};
use sgf_core::{Node, Prop, Value};

/// Whether the property has this `name`, as `Prop::is` says.
fn is_named(prop: &Prop<'_>, name: &[u8]) -> bool
    ensures { result ≡ is_named name.now prop.now }
{
    prop.is(name)
}

/// Returns what a setup property puts on its points: black for AB, white for AW, `Stone::Empty` for
/// AE. None if the property is no setup.
fn setup_stone(prop: &Prop<'_>) -> Option<Stone>
    ensures { result ≡ setup_stone prop.now }
{
    if is_named(prop, b"AB") {
        Some(Stone::Black)
    } else if is_named(prop, b"AW") {
        Some(Stone::White)
    } else if is_named(prop, b"AE") {
        Some(Stone::Empty)
    } else {
        None
    }
}

/// Returns the colour whose moves a property has (B or W), or None if the property has no moves.
fn move_colour(prop: &Prop<'_>) -> Option<Colour>
    ensures { result ≡ move_colour prop.now }
{
    if is_named(prop, b"B") {
        Some(Colour::Black)
    } else if is_named(prop, b"W") {
        Some(Colour::White)
    } else {
        None
    }
}

/// Returns the property's first value, or None if it has no value.
fn front_value<'a>(prop: &Prop<'a>) -> Option<Value<'a>>
    ensures { option_map value_of result ≡ front_value prop.now.values }
{
    prop.values().first().copied()
}

/// One of the two rounds in which the properties of a node are read: setups first, then moves.
#[derive(Clone, Copy)]
pub(crate) enum Round {
    /// The round of the setups, which comes first.
    Setups,
    /// The round of the moves.
    Moves,
}

/// Returns what a property does in this `round`. None if it belongs to the other round, or is
/// neither a setup nor a move.
pub(crate) fn deed_in(round: Round, prop: &Prop<'_>) -> Option<Deed>
    ensures { (size : Extent) → deeds_of size result prop.now ≡ round_deeds size round prop.now }
{
    match round {
        Round::Setups => setup_stone(prop).map(Deed::Setup),
        Round::Moves => move_colour(prop).map(Deed::Move),
    }
}

/// Returns the first value of the node's first property of this `name`, or None if it has no such
/// property.
pub(crate) fn first_value<'a>(node: &Node<'_, 'a>, name: &[u8]) -> Option<Value<'a>>
    ensures { option_map value_of result ≡ first_value name.now node.now }
{
    for prop in node.props() {
        if is_named(prop, name) {
            return front_value(prop);
        }
    }
    None
}

//! Seats: where a game is, by its number, the byte indices of its tree, and its file.
ghost use Rattle.std.specs.Prelude.{◌≡◌, IfOk, option_map, string_bytes};

use std::alloc::{AllocError, Global};

/// The number of a game, and the byte indices in the input of its tree's first byte (`from`) and
/// after its last (`to`).
#[derive(Clone, Copy, Debug)]
pub(crate) struct Place {
    pub(crate) number: u64,
    pub(crate) from: usize,
    pub(crate) to: usize,
}

/// Where a game is: its number and its tree, and the name of its file, if it has one.
#[derive(Debug, Drop)]
pub(crate) struct Seat {
    pub(crate) place: Place,
    pub(crate) name: Option<String>,
}

/// Returns the seat of a game: `place` with a copy of `name`. It takes memory for the name.
pub(crate) fn seat_of(alloc: Global, place: Place, name: Option<&str>) -> Result<Seat, AllocError>
    ensures { IfOk result (λ seat. (seat.place ≡ place)
        × (option_map string_bytes seat.name ≡ option_map (λ n. n.now) name.entry)) }
{
    let name = match name {
        Some(name) => Some(String::from_str(alloc, name)?),
        None => None,
    };
    Ok(Seat { place, name })
}

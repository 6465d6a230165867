//! Who is to move, as a number.
ghost use Rattle.std.specs.Prelude.{◌≡◌};
ghost use Rattle.shape_keys.specs.Mover.{mover_of};

use go_board::Colour;

/// Returns the player to move: Black for 1, White for 2, None for any other number.
pub(crate) fn mover_of(number: u32) -> Option<Colour>
    ensures { result ≡ mover_of number }
{
    match number {
        1 => Some(Colour::Black),
        2 => Some(Colour::White),
        _ => None,
    }
}

//! Which bits a change of a cell's code changes in the word's eight images.
ghost use Rattle.std.specs.Prelude.{◌≡◌, ◌<◌};
ghost use Rattle.shape_core.specs.Inner.Images.{bits_row};

use crate::diamond_bits::DIAMOND_BITS;
use crate::square_bits::SQUARE_BITS;
use crate::words::Kind;

/// Writes a table from its part for change 1: the parts for each change of a code, from 0 to 3.
macro_rules! for_each_change {
    ($([$($bit:literal),*],)*) => {
        [
            [$([$(0 * $bit),*],)*],
            [$([$(1 * $bit),*],)*],
            [$([$(2 * $bit),*],)*],
            [$([$(3 * $bit),*],)*],
        ]
    };
}

pub(crate) use for_each_change;

/// Returns the bits that a `change` of the code of a `cell`, by exclusive or, changes in each of
/// the eight images of a word of this `kind`. The first two are the word itself and its image with
/// rows for columns. The others are this pair with left and right exchanged, then with top and
/// bottom exchanged, and then with both exchanged.
#[inline(always)]
pub fn cell_bits(kind: Kind, change: u8, cell: usize) -> &'static [u64; 8]
    requires change { change < 4 }
    requires cell { cell < 25 }
    ensures { result.now ≡ bits_row kind change cell }
{
    match kind {
        Kind::Square => &SQUARE_BITS[usize::from(change)][cell],
        Kind::Diamond => &DIAMOND_BITS[usize::from(change)][cell],
    }
}

//! The eight symmetries of the square, and the exchange of colours.
ghost use Rattle.std.specs.Prelude.{◌≡◌, ◌<◌, SomeIff};
ghost use Rattle.shape_core.specs.Symmetry.{numbered, image_of, exchange_of};

use crate::masks::{diagonal, exchanged, left_right, top_bottom};
use crate::words::Word;

/// A symmetry of the square, in the order of their numbers from 0 to 7.
#[derive(Clone, Copy, Debug, PartialEq, Eq)]
pub enum Symmetry {
    /// Nothing moves.
    Same,
    /// A quarter turn to the right.
    RightTurn,
    /// A half turn.
    HalfTurn,
    /// A quarter turn to the left.
    LeftTurn,
    /// Left and right are exchanged.
    LeftRight,
    /// Top and bottom are exchanged.
    TopBottom,
    /// Rows and columns are exchanged.
    FallingDiagonal,
    /// Rows and columns are exchanged, each counted from its other end.
    RisingDiagonal,
}

impl Symmetry {
    /// Returns the symmetry of this number, from 0 to 7 in the order of the variants, or None for a
    /// greater number.
    pub fn new(number: u8) -> Option<Symmetry>
        ensures { SomeIff result (number < 8) (numbered number) }
    {
        match number {
            0 => Some(Symmetry::Same),
            1 => Some(Symmetry::RightTurn),
            2 => Some(Symmetry::HalfTurn),
            3 => Some(Symmetry::LeftTurn),
            4 => Some(Symmetry::LeftRight),
            5 => Some(Symmetry::TopBottom),
            6 => Some(Symmetry::FallingDiagonal),
            7 => Some(Symmetry::RisingDiagonal),
            _ => None,
        }
    }
}

/// Returns the image of a word under a symmetry: each cell's code is at the cell to which the
/// symmetry moves it. It is of the word's kind. Takes no memory.
pub fn image(word: Word, symmetry: Symmetry) -> Word
    ensures { result ≡ image_of symmetry word }
{
    let bits = word.bits();
    let moved = match symmetry {
        Symmetry::Same => bits,
        Symmetry::RightTurn => left_right(diagonal(bits)),
        Symmetry::HalfTurn => top_bottom(left_right(bits)),
        Symmetry::LeftTurn => top_bottom(diagonal(bits)),
        Symmetry::LeftRight => left_right(bits),
        Symmetry::TopBottom => top_bottom(bits),
        Symmetry::FallingDiagonal => diagonal(bits),
        Symmetry::RisingDiagonal => top_bottom(left_right(diagonal(bits))),
    };
    Word::of_bits(moved)
}

/// Returns the word with black for white and white for black. It is of the word's kind. Takes no
/// memory.
pub fn exchange(word: Word) -> Word
    ensures { result ≡ exchange_of word }
{
    Word::of_bits(exchanged(word.bits()))
}

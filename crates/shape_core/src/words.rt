//! Pattern words: numbers with two bits for each of 25 cells, and a bit for the kind (square or
//! diamond).
use std::marker::Model;

/// The two kinds of pattern: the five-by-five square, and the diamond of the 25 points at most
/// three steps away.
#[derive(Clone, Copy, Debug, PartialEq, Eq)]
pub enum Kind {
    /// Five columns and five rows, two to each side of the middle.
    Square,
    /// Rows of one, three, five, seven, five, three and one.
    Diamond,
}

/// The kinds of pattern whose words a board keeps, or that are counted.
#[derive(Clone, Copy, Debug, PartialEq, Eq)]
pub enum Kinds {
    /// Squares alone.
    Squares,
    /// Squares and diamonds.
    Both,
}

/// The word of a pattern: below 2^50 it is that of a square, from 2^50 on and below 2^51 that of a
/// diamond.
///
/// It is the sum over its 25 cells of the cell's code times 4 to the power of the cell's number,
/// and 2^50 more for a diamond. Codes are 0 for empty, 1 for black, 2 for white and 3 for off the
/// board. This code is the project's own.
#[derive(Clone, Copy, Debug, PartialEq, Eq, PartialOrd, Ord)]
pub struct Word {
    bits: u64,
}

impl Model for Word {
    ghost use Rattle.std.specs.Prelude.{ℕ, ◌<◌, ◌^◌};

    ghost Value = { ℕ };

    ghost view = { λ w. w.bits };

    ghost invariant = { λ w. w.bits < 2 ^ 51 };

    ghost inverse = { λ n. record { bits = n } };
}

/// The number that the word of a diamond has added to the sum over its cells.
pub const DIAMOND: u64 = 1 << 50;

impl Word {
    ghost use Rattle.std.specs.Prelude.{◌≡◌, ◌<◌, ◌^◌, SomeIff};
    ghost use Rattle.shape_core.specs.Word.{code_at, kind_of};

    /// Returns the word that is this number, or None if the number is 2^51 or more.
    pub fn new(bits: u64) -> Option<Word>
        ensures { SomeIff result (bits < 2 ^ 51) bits }
    {
        if bits < 2 * DIAMOND {
            Some(Word { bits })
        } else {
            None
        }
    }

    /// Returns the word that is this number, which must be below 2^51.
    pub(crate) fn of_bits(bits: u64) -> Word
        requires { bits < 2 ^ 51 }
        ensures { result ≡ bits }
    {
        Word { bits }
    }

    /// Returns the word as a number, which is below 2^51.
    pub fn bits(self) -> u64
        ensures value { result ≡ self }
        ensures small { self < 2 ^ 51 }
    {
        self.bits
    }

    /// Returns the code of a cell: 0 empty, 1 black, 2 white, 3 off the board. The cell is below
    /// 25.
    pub fn code(self, cell: usize) -> u8
        requires { cell < 25 }
        ensures value { result ≡ code_at self cell }
        ensures small { result < 4 }
    {
        ((self.bits >> (2 * cell)) & 3) as u8
    }

    /// Returns the kind of the word's pattern: a square or a diamond.
    pub fn kind(self) -> Kind
        ensures { result ≡ kind_of self }
    {
        if self.bits < DIAMOND {
            Kind::Square
        } else {
            Kind::Diamond
        }
    }
}

//! Shapes: canonical patterns, the words that are the least of their eight images under the
//! symmetries.
ghost use Rattle.std.specs.Prelude.{◌≡◌, ◌<◌, ◌^◌, SomeIff};
ghost use Rattle.shape_core.specs.Word.{kind_of};
ghost use Rattle.shape_core.specs.Symmetry.{least_image, canonical_of};

use crate::imaged::ImagedWord;
use crate::words::{Kind, Word};
use go_board::Colour;
use std::marker::Model;

/// A canonical pattern: one word that stands for a pattern under all eight symmetries of the
/// square, and for either colour to move (with White to move, the colours are exchanged first). It
/// is the least of its eight images.
#[derive(Clone, Copy, Debug, PartialEq, Eq, PartialOrd, Ord)]
pub struct Shape {
    word: Word,
}

impl Model for Shape {
    ghost use Rattle.std.specs.Prelude.{ℕ, ◌<◌, ◌^◌, ◌≡◌};
    ghost use Rattle.shape_core.specs.Symmetry.{least_image};

    ghost Value = { ℕ };

    ghost view = { λ s. s.word };

    ghost invariant = { λ s. (s.word < 2 ^ 51) × (least_image s.word ≡ s.word) };

    ghost inverse = { λ n. record { word = n } };
}

impl Shape {
    /// Returns the shape's word.
    pub fn word(self) -> Word
        ensures value { result ≡ self }
        ensures small { self < 2 ^ 51 }
        ensures least { least_image self ≡ self }
    {
        self.word
    }

    /// Returns the shape that has this word, or None if the word is not the least of its eight
    /// images. Takes no memory.
    pub fn of_word(word: Word) -> Option<Shape>
        ensures { SomeIff result (least_image word ≡ word) word }
    {
        if ImagedWord::new(word).least() == word {
            Some(Shape { word })
        } else {
            None
        }
    }
}

/// Returns the canonical pattern of a word with `mover` to move: the least of the word's eight
/// images under the symmetries, for White after the colours are exchanged. Takes no memory.
pub fn canonical(word: Word, mover: Colour) -> Shape
    ensures { result ≡ canonical_of word mover }
{
    least_seen(ImagedWord::new(word), word.kind(), mover)
}

/// Returns the canonical pattern of a word of this `kind` that comes with its images, with `mover`
/// to move: the least of the images, for White after the colours are exchanged.
#[inline(always)]
pub fn least_seen(word: ImagedWord, kind: Kind, mover: Colour) -> Shape
    requires { kind_of word ≡ kind }
    ensures { result ≡ canonical_of word mover }
{
    let word = match mover {
        Colour::Black => word.least(),
        Colour::White => word.least_exchanged(kind),
    };
    Shape { word }
}

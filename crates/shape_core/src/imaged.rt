//! Pattern words together with their images under the symmetries, so that the least is at hand.
ghost use Rattle.std.specs.Prelude.{◌≡◌, ◌<◌, ℕ, [], ◌∷◌, bit_xor};
ghost use Rattle.shape_core.specs.Inner.Word.{with_change};
ghost use Rattle.shape_core.specs.Word.{kind_of};
ghost use Rattle.shape_core.specs.Symmetry.{least_image, exchange_of};

use crate::cell_bits::cell_bits;
use crate::lanes::{left_right, lesser, top_bottom, twice_exchanged};
use crate::masks::diagonal;
use crate::words::{Kind, Word};
use std::marker::Model;
use std::simd::prelude::*;

/// A word and its images under the seven other symmetries of the square, in four pairs.
#[derive(Clone, Copy)]
pub struct ImagedWord {
    /// The word, and its image with rows for columns.
    pair: u64x2,
    /// The pair with left and right exchanged.
    flipped: u64x2,
    /// The pair with top and bottom exchanged.
    turned: u64x2,
    /// The pair with left and right exchanged, and top and bottom too.
    both: u64x2,
}

impl Model for ImagedWord {
    ghost use Rattle.std.specs.Prelude.{ℕ, slice_index};
    ghost use Rattle.shape_core.specs.Inner.Images.{AreImages, pair_of, flipped_of, turned_of};
    ghost use Rattle.shape_core.specs.Inner.Images.{both_of};

    ghost Value = { ℕ };

    ghost view = { λ i. slice_index i.pair 0 };

    ghost invariant = { λ i. AreImages (slice_index i.pair 0) i.pair i.flipped i.turned i.both };

    ghost inverse = { λ n. record {
      pair = pair_of n;
      flipped = flipped_of n;
      turned = turned_of n;
      both = both_of n;
    } };
}

/// Changes the two words, one in each lane of the vector, by exclusive or with `one` and `other`.
fn changed(words: u64x2, one: u64, other: u64) -> u64x2
    ensures { (a b : ℕ) → words ≡ a ∷ b ∷ [] → result
        ≡ bit_xor a one ∷ bit_xor b other ∷ [] }
{
    words ^ u64x2::from_array([one, other])
}

impl ImagedWord {
    /// Computes the images of a word, and returns it with them.
    pub fn new(word: Word) -> ImagedWord
        ensures { result ≡ word }
    {
        let bits = word.bits();
        let kind = word.kind();
        let pair = u64x2::from_array([bits, diagonal(bits)]);
        let flipped = left_right(pair, kind);
        ImagedWord {
            pair,
            flipped,
            turned: top_bottom(pair, kind),
            both: top_bottom(flipped, kind),
        }
    }

    /// Returns the word itself, without its images.
    pub fn word(self) -> Word
        ensures { result ≡ self }
    {
        let [word, _] = self.pair.to_array();
        Word::of_bits(word)
    }

    /// Returns the word, which is of this `kind`, with its images, after the code of one `cell` is
    /// changed by exclusive or with `change`.
    #[inline(always)]
    pub fn with_change(self, kind: Kind, cell: usize, change: u8) -> ImagedWord
        requires kind { kind_of self ≡ kind }
        requires cell { cell < 25 }
        requires change { change < 4 }
        ensures { result ≡ with_change self cell change }
    {
        let bits = cell_bits(kind, change, cell);
        ImagedWord {
            pair: changed(self.pair, bits[0], bits[1]),
            flipped: changed(self.flipped, bits[2], bits[3]),
            turned: changed(self.turned, bits[4], bits[5]),
            both: changed(self.both, bits[6], bits[7]),
        }
    }

    /// Returns the least of the word and its images.
    #[inline(always)]
    pub fn least(self) -> Word
        ensures value { result ≡ least_image self }
        ensures least { least_image result ≡ result }
    {
        let least = lesser(self.pair, self.flipped);
        let least = lesser(least, self.turned);
        let [one, other] = lesser(least, self.both).to_array();
        Word::of_bits(one.min(other))
    }

    /// Returns the least of the word, which is of this `kind`, and its images, after the colours
    /// are exchanged. The least of their doubles is halved, so that only one number is shifted.
    #[inline(always)]
    pub fn least_exchanged(self, kind: Kind) -> Word
        requires { kind_of self ≡ kind }
        ensures value { result ≡ least_image (exchange_of self) }
        ensures least { least_image result ≡ result }
    {
        let pair = twice_exchanged(self.pair, kind);
        let flipped = twice_exchanged(self.flipped, kind);
        let turned = twice_exchanged(self.turned, kind);
        let both = twice_exchanged(self.both, kind);
        let least = lesser(pair, flipped);
        let least = lesser(least, turned);
        let [one, other] = lesser(least, both).to_array();
        Word::of_bits(one.min(other) / 2)
    }
}

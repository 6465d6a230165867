//! Symmetries and the exchange of colours for one word, of a square or of a diamond, by masks and
//! shifts. A word has two bits for each point, row by row from the lowest bits up.
ghost use Rattle.std.specs.Prelude.{◌≡◌, ◌<◌, ◌≤◌, ◌^◌, ◌*◌, ◌/◌, ◌%◌, bit_and, bit_or};
ghost use Rattle.shape_core.specs.Symmetry.{image_of, exchange_of};
ghost use Rattle.shape_core.specs.Word.{kind_of};
ghost use Rattle.shape_core.specs.declared.symmetries.Symmetry.TheVariants as symmetry;

use crate::lanes;
use crate::words::{DIAMOND, Kind};
use std::simd::prelude::*;

/// Exchanges the bits of `word` that are set in `mask` with the bits that are `places` positions
/// above them. All other bits of the result are 0.
fn swapped(word: u64, mask: u64, places: u32) -> u64
    requires { places < 64 }
    ensures { result
        ≡ bit_or (bit_and word mask * 2 ^ places % 2 ^ 64) (bit_and (word / 2 ^ places) mask) }
{
    ((word & mask) << places) | ((word >> places) & mask)
}

/// Returns the word of a square with rows and columns exchanged.
fn square_diagonal(word: u64) -> u64
    requires { word < 2 ^ 50 }
    ensures { result ≡ image_of symmetry.FallingDiagonal word }
{
    (word & 0x3003003003003)
        | swapped(word, 0xc00c00c00c, 8)
        | swapped(word, 0x30030030, 16)
        | swapped(word, 0xc00c0, 24)
        | swapped(word, 0x300, 32)
}

/// Returns the word of a diamond with rows and columns exchanged.
fn diamond_diagonal(word: u64) -> u64
    requires low { 2 ^ 50 ≤ word }
    requires high { word < 2 ^ 51 }
    ensures { result ≡ image_of symmetry.FallingDiagonal word }
{
    (word & 0x400c003000c00)
        | swapped(word, 0x3000000000c, 6)
        | swapped(word, 0xc003000, 10)
        | swapped(word, 0x30000030, 16)
        | swapped(word, 0xc0000003, 18)
        | swapped(word, 0xc000, 20)
        | swapped(word, 0x300c0, 26)
}

/// Returns the kind of the word's pattern: a square or a diamond.
fn kind(word: u64) -> Kind
    ensures { result ≡ kind_of word }
{
    if word < DIAMOND {
        Kind::Square
    } else {
        Kind::Diamond
    }
}

/// Returns the word with left and right exchanged.
pub fn left_right(word: u64) -> u64
    requires { word < 2 ^ 51 }
    ensures value { result ≡ image_of symmetry.LeftRight word }
    ensures small { result < 2 ^ 51 }
{
    let [moved, _] = lanes::left_right(u64x2::from_array([word, word]), kind(word)).to_array();
    moved
}

/// Returns the word with top and bottom exchanged.
pub fn top_bottom(word: u64) -> u64
    requires { word < 2 ^ 51 }
    ensures value { result ≡ image_of symmetry.TopBottom word }
    ensures small { result < 2 ^ 51 }
{
    let [moved, _] = lanes::top_bottom(u64x2::from_array([word, word]), kind(word)).to_array();
    moved
}

/// Returns the word with rows for columns and columns for rows.
#[tactic(auto, using(crate::proofs::Images::image_of_small))]
pub fn diagonal(word: u64) -> u64
    requires { word < 2 ^ 51 }
    ensures value { result ≡ image_of symmetry.FallingDiagonal word }
    ensures small { result < 2 ^ 51 }
{
    if word < DIAMOND {
        square_diagonal(word)
    } else {
        diamond_diagonal(word)
    }
}

/// Returns the word with black for white and white for black: the two bits of each cell exchanged.
pub fn exchanged(word: u64) -> u64
    requires { word < 2 ^ 51 }
    ensures value { result ≡ exchange_of word }
    ensures small { result < 2 ^ 51 }
{
    (word & DIAMOND) | swapped(word, 0x1555555555555, 1)
}

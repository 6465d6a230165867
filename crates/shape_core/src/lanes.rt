//! Symmetries and the exchange of colours for two words of one kind at once. Each word is in one
//! lane of a vector, that is, one of its two numbers.
ghost use Rattle.std.specs.Prelude.{◌≡◌, ◌<◌, ◌*◌, ◌/◌, ◌%◌, ◌^◌, ℕ, [], ◌∷◌, bit_and, bit_or, min};
ghost use Rattle.shape_core.specs.Word.{kind_of};
ghost use Rattle.shape_core.specs.Symmetry.{image_of, exchange_of};
ghost use Rattle.shape_core.specs.declared.words.Kind.TheVariants as kind;
ghost use Rattle.shape_core.specs.declared.symmetries.Symmetry.TheVariants as symmetry;

use crate::words::{DIAMOND, Kind};
use std::simd::prelude::*;

/// Exchanges, in each of the two words, the bits that are set in `mask` with the bits that are
/// `places` positions above them. All other bits of the result are 0.
fn swapped(words: u64x2, mask: u64, places: u64) -> u64x2
    requires { places < 64 }
    ensures { (a b : ℕ) → words ≡ a ∷ b ∷ [] → result
        ≡ bit_or (bit_and a mask * 2 ^ places % 2 ^ 64) (bit_and (a / 2 ^ places) mask)
        ∷ bit_or (bit_and b mask * 2 ^ places % 2 ^ 64) (bit_and (b / 2 ^ places) mask) ∷ [] }
{
    let masks = u64x2::splat(mask);
    let shifts = u64x2::splat(places);
    ((words & masks) << shifts) | ((words >> shifts) & masks)
}

/// Mirrors two words of squares: column c moves to column 4 - c.
fn square_left_right(words: u64x2) -> u64x2
    ensures { (a b : ℕ) → words ≡ a ∷ b ∷ [] → a < 2 ^ 51 → b < 2 ^ 51
        → kind_of a ≡ kind.Square → kind_of b ≡ kind.Square
        → result ≡ image_of symmetry.LeftRight a ∷ image_of symmetry.LeftRight b ∷ [] }
{
    (words & u64x2::splat(0x300c0300c030))
        | swapped(words, 0xc0300c0300c, 4)
        | swapped(words, 0x300c0300c03, 8)
}

/// Mirrors two words of squares: row r moves to row 4 - r.
fn square_top_bottom(words: u64x2) -> u64x2
    ensures { (a b : ℕ) → words ≡ a ∷ b ∷ [] → a < 2 ^ 51 → b < 2 ^ 51
        → kind_of a ≡ kind.Square → kind_of b ≡ kind.Square
        → result ≡ image_of symmetry.TopBottom a ∷ image_of symmetry.TopBottom b ∷ [] }
{
    (words & u64x2::splat(0x3ff00000)) | swapped(words, 0xffc00, 20) | swapped(words, 0x3ff, 40)
}

/// Mirrors two words of diamonds: each cell moves to the other side of the middle column, as far
/// from it as before.
fn diamond_left_right(words: u64x2) -> u64x2
    ensures { (a b : ℕ) → words ≡ a ∷ b ∷ [] → a < 2 ^ 51 → b < 2 ^ 51
        → kind_of a ≡ kind.Diamond → kind_of b ≡ kind.Diamond
        → result ≡ image_of symmetry.LeftRight a ∷ image_of symmetry.LeftRight b ∷ [] }
{
    (words & u64x2::splat(0x7303003003033))
        | swapped(words, 0xc0c00c00c0c, 4)
        | swapped(words, 0x300300300, 8)
        | swapped(words, 0xc0000, 12)
}

/// Mirrors two words of diamonds: each cell moves to the other side of the middle row, as far from
/// it as before.
fn diamond_top_bottom(words: u64x2) -> u64x2
    ensures { (a b : ℕ) → words ≡ a ∷ b ∷ [] → a < 2 ^ 51 → b < 2 ^ 51
        → kind_of a ≡ kind.Diamond → kind_of b ≡ kind.Diamond
        → result ≡ image_of symmetry.TopBottom a ∷ image_of symmetry.TopBottom b ∷ [] }
{
    (words & u64x2::splat(0x40000fffc0000))
        | swapped(words, 0x3ff00, 24)
        | swapped(words, 0xfc, 40)
        | swapped(words, 0x3, 48)
}

/// Returns two words of this `kind` with left and right exchanged.
pub fn left_right(words: u64x2, kind: Kind) -> u64x2
    ensures { (a b : ℕ) → words ≡ a ∷ b ∷ [] → a < 2 ^ 51 → b < 2 ^ 51
        → kind_of a ≡ kind → kind_of b ≡ kind
        → result ≡ image_of symmetry.LeftRight a ∷ image_of symmetry.LeftRight b ∷ [] }
{
    match kind {
        Kind::Square => square_left_right(words),
        Kind::Diamond => diamond_left_right(words),
    }
}

/// Returns two words of this `kind` with top and bottom exchanged.
pub fn top_bottom(words: u64x2, kind: Kind) -> u64x2
    ensures { (a b : ℕ) → words ≡ a ∷ b ∷ [] → a < 2 ^ 51 → b < 2 ^ 51
        → kind_of a ≡ kind → kind_of b ≡ kind
        → result ≡ image_of symmetry.TopBottom a ∷ image_of symmetry.TopBottom b ∷ [] }
{
    match kind {
        Kind::Square => square_top_bottom(words),
        Kind::Diamond => diamond_top_bottom(words),
    }
}

/// Returns twice each of two words of this `kind` with black for white and white for black. Twice
/// an exchanged code is the code and three times its lower bit, so that no bits have to be moved.
pub fn twice_exchanged(words: u64x2, kind: Kind) -> u64x2
    ensures { (a b : ℕ) → words ≡ a ∷ b ∷ [] → a < 2 ^ 51 → b < 2 ^ 51
        → kind_of a ≡ kind → kind_of b ≡ kind
        → result ≡ 2 * exchange_of a ∷ 2 * exchange_of b ∷ [] }
{
    let lower = words & u64x2::splat(0x1555555555555);
    let mark = match kind {
        Kind::Square => 0,
        Kind::Diamond => DIAMOND,
    };
    words + lower + (lower + lower) + u64x2::splat(mark)
}

/// Returns, for each of the two lanes, the lesser of the word in `words` and the word in `others`.
/// All are below 2^52. If the first is less, the difference wraps and has the top bit set.
/// One instruction selects by that bit alone, where comparing numbers without a sign takes several.
pub fn lesser(words: u64x2, others: u64x2) -> u64x2
    ensures { (a b c d : ℕ) → words ≡ a ∷ b ∷ [] → others ≡ c ∷ d ∷ []
        → a < 2 ^ 52 → b < 2 ^ 52 → c < 2 ^ 52 → d < 2 ^ 52
        → result ≡ min a c ∷ min b d ∷ [] }
{
    let differences = words - others;
    differences
        .simd_ge(u64x2::splat(1 << 63))
        .select(words, others)
}

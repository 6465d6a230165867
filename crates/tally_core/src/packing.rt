//! Packs the square and the diamond that a point has, both since the same move, in three numbers.
ghost use Rattle.std.specs.Prelude.{◌≡◌, ◌<◌, ◌^◌, None};
ghost use Rattle.tally_core.specs.Inner.Packing.{stay_of, BeginsAt};

use crate::stays::{Stay, Stays};
use std::marker::Model;

/// From this number on, `square` does not say all: `diamond` is to be read too.
const MORE: usize = 1 << 63;

/// Stands for no pattern, in place of an index in the list of the game's patterns: no list is that
/// long.
const NOTHING: usize = MORE - 1;

/// What one point of the board has for one colour to move: its square, its diamond, and how many
/// moves onto empty points this colour had made in this game when the point got both. A walk of a
/// game stores one such value for each point and colour. They are small enough that those of both
/// colours, of a board of 19 by 19, fit a processor's first cache.
#[derive(Drop, Clone)]
pub struct PackedStays {
    /// The index of the square in the list of the game's patterns, if the point has a square alone.
    /// Else `MORE` is added to it, or to `NOTHING` if the point has no square.
    square: usize,
    /// The index of the diamond in the list of the game's patterns, or `NOTHING`. It is of no
    /// meaning if the point has a square alone, so that it is neither read nor written then.
    diamond: usize,
    /// How many moves onto empty points the colour to move had made when the point got both.
    since: u64,
}

impl Model for PackedStays {
    ghost use Rattle.tally_core.specs.declared.stays.Stays.{Stays};
    ghost use Rattle.tally_core.specs.Inner.Packing.{stays_of};

    ghost Value = { Stays };

    ghost view = { λ p. stays_of p.square p.diamond p.since };
}

/// Makes the stay (a pattern that a point has, and since when) of a point that has had the pattern
/// at index `at` of the list of the game's patterns since its colour had made `since` moves onto
/// empty points. None if `at` is `NOTHING`.
fn stay_at(at: usize, since: u64) -> Option<Stay>
    ensures { result ≡ stay_of at since }
{
    if at == NOTHING {
        return None;
    }
    Some(Stay { meeting: at, since })
}

/// Returns the index of the stay's pattern in the list of the game's patterns, or `NOTHING` if
/// `stay` is None. `since` is for the contract alone: the stay must have begun then.
fn index_of(stay: Option<Stay>, since: u64) -> usize
    requires { BeginsAt since stay }
    ensures stay { stay_of result since ≡ stay }
    ensures small { result < 2 ^ 63 }
{
    let _ = since;
    match stay {
        Some(stay) => stay.meeting,
        None => NOTHING,
    }
}

impl PackedStays {
    /// Makes the value for a point that has no pattern.
    pub fn none() -> PackedStays
        ensures { result ≡ record { square = None; diamond = None } }
    {
        PackedStays {
            square: MORE + NOTHING,
            diamond: NOTHING,
            since: 0,
        }
    }

    /// Packs the `square` and the `diamond` of a point. Each that is not None must have begun at
    /// `since`: when its colour had made that many moves onto empty points in this game.
    pub fn new(square: Option<Stay>, diamond: Option<Stay>, since: u64) -> PackedStays
        requires square { BeginsAt since square }
        requires diamond { BeginsAt since diamond }
        ensures { result ≡ record { square = square; diamond = diamond } }
    {
        PackedStays {
            square: MORE + index_of(square, since),
            diamond: index_of(diamond, since),
            since,
        }
    }

    /// Unpacks the point's square and diamond, each None if the point has none. Both have in
    /// `since` how many moves onto empty points their colour had made in this game when the point
    /// got them.
    pub fn get(&self) -> Stays
        ensures { result ≡ self.now }
    {
        if self.square < MORE {
            return Stays {
                square: Some(Stay {
                    meeting: self.square,
                    since: self.since,
                }),
                diamond: None,
            };
        }
        Stays {
            square: stay_at(self.square - MORE, self.since),
            diamond: stay_at(self.diamond, self.since),
        }
    }

    /// Replaces the value by that for a point that has this `square` alone, which must have begun
    /// at `since`, unless it is None.
    pub fn put_square(&mut self, square: Option<Stay>, since: u64)
        requires { BeginsAt since square }
        ensures { self.new ≡ record { square = square; diamond = None } }
    {
        match square {
            Some(stay) => self.square = stay.meeting,
            None => *self = PackedStays::none(),
        }
        self.since = since;
    }
}

//! The game that had a pattern first, which may be unknown, in eight bytes.
ghost use Rattle.std.specs.Prelude.{◌≡◌, ◌+◌, ◌^◌, ◌<◌, IfSome};

use std::marker::Model;

/// The game that had a pattern first, if it is known. It is stored as one more than the game's
/// number, or 0 if it is unknown: that takes half the memory of an `Option<u64>`, and a dictionary
/// has one for each pattern.
///
/// Contracts see the game's number, or None.
#[derive(Clone, Copy, Debug, PartialEq, Eq)]
pub struct FirstGame {
    above: u64,
}

impl Model for FirstGame {
    ghost use Rattle.std.specs.Prelude.{ℕ, Option};
    ghost use Rattle.shape_dict.specs.Inner.FirstGames.{number_of, kept};

    ghost Value = { Option ℕ };

    ghost view = { λ first. number_of first.above };

    ghost inverse = { λ number. record { above = kept number } };
}

impl FirstGame {
    ghost use Rattle.std.specs.Prelude.{◌≡◌, ◌+◌, ◌^◌, ◌<◌, ◌≤◌, IfSome, IfNone, IsSomeAnd};
    ghost use Rattle.std.specs.Option.{option_map};

    /// Makes a first game from its number, which must be below 2^64 - 1, or an unknown one from
    /// None.
    pub fn new(game: Option<u64>) -> FirstGame
        requires { IfSome game (λ game. game + 1 < 2 ^ 64) }
        ensures { result ≡ game }
    {
        match game {
            None => FirstGame { above: 0 },
            Some(game) => FirstGame { above: game + 1 },
        }
    }

    /// The game, or None if it is unknown.
    pub fn get(self) -> Option<u64>
        ensures { result ≡ self }
    {
        if self.above == 0 {
            None
        } else {
            Some(self.above - 1)
        }
    }

    /// Returns the first game with `games` added to its number, or None if the sum would pass
    /// 2^64 - 2. An unknown game stays unknown.
    pub fn moved(self, games: u64) -> Option<FirstGame>
        ensures some { IfSome result (λ first. first ≡ option_map (λ game. game + games) self) }
        ensures none { IfNone result (IsSomeAnd self (λ game. 2 ^ 64 ≤ game + games + 1)) }
    {
        if self.above == 0 {
            return Some(self);
        }
        let above = self.above.checked_add(games)?;
        Some(FirstGame { above })
    }
}

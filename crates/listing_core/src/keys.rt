//! Keys of columns and conditions: the size of a game's board, and properties of its first node.
ghost use Rattle.std.specs.Prelude.{◌≡◌};
ghost use Rattle.listing_core.specs.Columns.{key_text, shown_keys};

/// What a column shows, or a condition tests.
#[derive(Clone, Copy, Debug, PartialEq, Eq)]
pub enum Key {
    /// SZ: the size of the board, which every game has.
    Size,
    /// PB, the name of the black player.
    BlackName,
    /// PW, the name of the white player.
    WhiteName,
    /// BR, the black player's rank.
    BlackRank,
    /// WR, the white player's rank.
    WhiteRank,
    /// DT, the date.
    Date,
    /// RE, how the game ended.
    Outcome,
    /// HA, the number of handicap stones.
    Handicap,
    /// KM, the komi.
    Komi,
}

/// The keys that have a column of their own, in the order of their columns.
pub(crate) const SHOWN: [Key; 8] = [
    Key::BlackName,
    Key::WhiteName,
    Key::BlackRank,
    Key::WhiteRank,
    Key::Date,
    Key::Outcome,
    Key::Handicap,
    Key::Komi,
];

/// Returns the two letters of a key, such as `SZ`, which are the name of its property.
pub fn key_text(key: Key) -> &'static [u8]
    ensures { result.now ≡ key_text key }
{
    match key {
        Key::Size => b"SZ",
        Key::BlackName => b"PB",
        Key::WhiteName => b"PW",
        Key::BlackRank => b"BR",
        Key::WhiteRank => b"WR",
        Key::Date => b"DT",
        Key::Outcome => b"RE",
        Key::Handicap => b"HA",
        Key::Komi => b"KM",
    }
}

//! The lines of dictionaries' texts, read off the front of bytes.
ghost use Rattle.std.specs.Prelude.{◌≡◌, ◌++◌, ◌<◌, ◌^◌, ℕ, List, IfSome, IfNone};
ghost use Rattle.std.specs.Prelude.{IsSomeAnd, MatchBool, codes, Option};
ghost use Rattle.std.specs.Fmt.{decimal};
ghost use Rattle.shape_dict.specs.Text.{first_text, line_text, line_feed};
ghost use Rattle.shape_dict.specs.Inner.Parsing.{IsEnded, IsPlain, IsSpelled, MayStand, entry_of_line};
ghost use Rattle.shape_dict.specs.Reading.{kind_at, IsLine, HasNoLine};
ghost use Rattle.shape_dict.specs.declared.entries.Entry.{Entry};

use crate::entries::Text;
use crate::headers::Header;
use crate::hexadecimals::word_bits;
use crate::numbers::{after, number_after, optional_after};
use shape_core::{Kind, Word};

/// What a line says of its pattern: its word, how often it was there and was played, and its first
/// game, or None if that is unknown or the text has none.
#[derive(Clone, Copy)]
pub(crate) struct Line {
    pub(crate) word: Word,
    pub(crate) there: u64,
    pub(crate) played: u64,
    pub(crate) first: Option<u64>,
}

/// Reads how often a pattern was there and was played, and returns both with the bytes after them.
/// None if the bytes begin otherwise, or a number is over 2^64 - 1.
fn uses(bytes: &[u8]) -> Option<(u64, u64, &[u8])>
    ensures found { IfSome result (λ p. (bytes.now
        ≡ codes " " ++ (decimal p.0 ++ (codes " " ++ (decimal p.1 ++ p.2.now)))) × (p.0 < 2 ^ 64)
        × (p.1 < 2 ^ 64)) }
    ensures only { (there : ℕ) → (played : ℕ) → (left : List ℕ) → there < 2 ^ 64 → played < 2 ^ 64
        → IsEnded left
        → bytes.now ≡ codes " " ++ (decimal there ++ (codes " " ++ (decimal played ++ left)))
        → IsSomeAnd result (λ p. (p.0 ≡ there) × (p.1 ≡ played) × (p.2.now ≡ left)) }
{
    let (there, rest) = number_after(bytes, b" ")?;
    let (played, rest) = number_after(rest, b" ")?;
    Some((there, played, rest))
}

/// Reads the end of a line: in text 3 the first game, or `-`, and a line feed, else the line feed
/// alone. Returns the game, or None if there is none, and the bytes after the line. The result is
/// None if the bytes begin otherwise.
fn first_and_end(bytes: &[u8], text: Text) -> Option<(Option<u64>, &[u8])>
    ensures found { IfSome result (λ p. (bytes.now ≡ first_text text p.0 ++ (line_feed ++ p.1.now))
        × IsPlain text p.0 × IfSome p.0 (λ game. game < 2 ^ 64)) }
    ensures only { (first : Option ℕ) → (left : List ℕ) → IsPlain text first
        → IfSome first (λ game. game < 2 ^ 64)
        → bytes.now ≡ first_text text first ++ (line_feed ++ left)
        → IsSomeAnd result (λ p. (p.0 ≡ first) × (p.1.now ≡ left)) }
{
    match text {
        Text::One | Text::Two => {
            let left = after(bytes, b"\n")?;
            Some((None, left))
        }
        Text::Three => {
            let (first, rest) = optional_after(bytes, b" ")?;
            let left = after(rest, b"\n")?;
            Some((first, left))
        }
    }
}

/// Reads a line by its form alone, without a check of what its numbers say, and returns it with the
/// bytes after it. None if it is not well-formed.
fn spelled_line(bytes: &[u8], text: Text) -> Option<(Line, &[u8])>
    ensures found { IfSome result (λ p. IsSpelled text (entry_of_line p.0)
        × (bytes.now ≡ line_text text (entry_of_line p.0) ++ p.1.now)) }
    ensures only { (entry : Entry) → (left : List ℕ) → IsSpelled text entry
        → bytes.now ≡ line_text text entry ++ left
        → IsSomeAnd result (λ p. (entry_of_line p.0 ≡ entry) × (p.1.now ≡ left)) }
{
    let (bits, rest) = word_bits(bytes)?;
    let word = Word::new(bits)?;
    let (there, played, rest) = uses(rest)?;
    let (first, rest) = first_and_end(rest, text)?;
    Some((
        Line {
            word,
            there,
            played,
            first,
        },
        rest,
    ))
}

/// Returns the kind of the pattern that comes after `place` lines of a text: the squares come
/// first.
fn kind_at(header: &Header, place: u64) -> Kind
    ensures { result ≡ kind_at header.now place }
{
    if place < header.squares {
        Kind::Square
    } else {
        Kind::Diamond
    }
}

/// Whether a first game is unknown or below `games`, the number of games counted.
fn is_counted(games: u64, first: Option<u64>) -> bool
    ensures { MatchBool result (IfSome first (λ game. game < games))
        (IfSome first (λ game. game < games) → ⊥) }
{
    match first {
        None => true,
        Some(game) => game < games,
    }
}

/// Whether a line may come after `place` others in a text with this header: its kind is right, its
/// pattern was there once or more and was played at most as often, and its first game is unknown or
/// one of the games counted.
fn may_stand(header: &Header, place: u64, line: &Line) -> bool
    ensures { MatchBool result (MayStand header.now place line.now)
        (MayStand header.now place line.now → ⊥) }
{
    line.word.kind() == kind_at(header, place)
        && 1 <= line.there
        && line.played <= line.there
        && is_counted(header.games, line.first)
}

/// Reads the line at the front of the bytes, and returns it with the bytes after it. `place` is how
/// many lines came before it. None if it is not well-formed, or can't come there in a text with
/// this header.
pub(crate) fn read_line<'a>(
    header: &Header,
    place: u64,
    bytes: &'a [u8],
) -> Option<(Line, &'a [u8])>
    ensures found { IfSome result (λ p. IsLine header.now place (entry_of_line p.0)
        × (bytes.now ≡ line_text header.now.text (entry_of_line p.0) ++ p.1.now)) }
    ensures none { IfNone result (HasNoLine header.now place bytes.now) }
{
    match spelled_line(bytes, header.text) {
        Some((line, rest)) if may_stand(header, place, &line) => Some((line, rest)),
        _ => None,
    }
}

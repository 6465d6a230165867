//! The headers of dictionaries' texts, read off the front of bytes.
ghost use Rattle.std.specs.Prelude.{◌≡◌, ◌++◌, ◌<◌, ◌^◌, ℕ, List, IfSome, IfNone, IsSomeAnd};
ghost use Rattle.std.specs.Prelude.{Option, None, codes, min, ◌-◌};
ghost use Rattle.std.specs.Fmt.{decimal};
ghost use Rattle.shape_dict.specs.Text.{front_text, counts_text, header_text};
ghost use Rattle.shape_dict.specs.Inner.Parsing.{IsEnded};
ghost use Rattle.shape_dict.specs.Reading.{IsHeader, HasNoHeader, lines_after};
ghost use Rattle.shape_dict.specs.declared.entries.Text.{Text as Kind};
ghost use Rattle.shape_dict.specs.declared.entries.Text.TheVariants as kind;

use crate::entries::Text;
use crate::numbers::{after, number, number_after, optional_after};

/// What a header says: in which of the three formats its text is, the games and moves, how many
/// squares follow, and how many diamonds if they are counted.
#[derive(Clone, Copy, Debug, PartialEq, Eq)]
pub struct Header {
    pub text: Text,
    pub games: u64,
    pub moves: u64,
    pub squares: u64,
    pub diamonds: Option<u64>,
}

/// Reads the first words of a header, up to its number of games: `shapes 1 games `, or the same
/// with 2 or 3. That number is the format of the dictionary's text. Returns the format, and the
/// bytes from the number of games on. None if `bytes` begin otherwise.
fn front(bytes: &[u8]) -> Option<(Text, &[u8])>
    ensures found { IfSome result (λ p. bytes.now ≡ front_text p.0 ++ p.1.now) }
    ensures only { (text : Kind) → (left : List ℕ) → bytes.now ≡ front_text text ++ left
        → IsSomeAnd result (λ p. (p.0 ≡ text) × (p.1.now ≡ left)) }
{
    if let Some(rest) = after(bytes, b"shapes 1 games ") {
        return Some((Text::One, rest));
    }
    if let Some(rest) = after(bytes, b"shapes 2 games ") {
        return Some((Text::Two, rest));
    }
    let rest = after(bytes, b"shapes 3 games ")?;
    Some((Text::Three, rest))
}

/// Reads the numbers of games and of moves, and returns them with the bytes after them. None if the
/// bytes begin otherwise, or a number is over 2^64 - 1.
fn games_and_moves(bytes: &[u8]) -> Option<(u64, u64, &[u8])>
    ensures found { IfSome result (λ p. (bytes.now
        ≡ decimal p.0 ++ (codes " moves " ++ (decimal p.1 ++ p.2.now))) × (p.0 < 2 ^ 64)
        × (p.1 < 2 ^ 64)) }
    ensures only { (games : ℕ) → (moves : ℕ) → (left : List ℕ) → games < 2 ^ 64 → moves < 2 ^ 64
        → IsEnded left
        → bytes.now ≡ decimal games ++ (codes " moves " ++ (decimal moves ++ left))
        → IsSomeAnd result (λ p. (p.0 ≡ games) × (p.1 ≡ moves) × (p.2.now ≡ left)) }
{
    let (games, rest) = number(bytes)?;
    let (moves, rest) = number_after(rest, b" moves ")?;
    Some((games, moves, rest))
}

/// Reads how many squares and diamonds a header says there are, and returns these with the bytes
/// after them. The diamonds are None in text 1, or if they are not counted. The result is None if
/// the bytes begin otherwise, or a number is over 2^64 - 1.
fn counts(bytes: &[u8], text: Text) -> Option<(u64, Option<u64>, &[u8])>
    ensures found { IfSome result (λ p. (bytes.now ≡ counts_text text p.0 p.1 ++ p.2.now)
        × (p.0 < 2 ^ 64) × IfSome p.1 (λ n. n < 2 ^ 64) × (text ≡ kind.One → p.1 ≡ None)) }
    ensures only { (squares : ℕ) → (diamonds : Option ℕ) → (left : List ℕ) → squares < 2 ^ 64
        → IfSome diamonds (λ n. n < 2 ^ 64) → (text ≡ kind.One → diamonds ≡ None) → IsEnded left
        → bytes.now ≡ counts_text text squares diamonds ++ left
        → IsSomeAnd result (λ p. (p.0 ≡ squares) × (p.1 ≡ diamonds) × (p.2.now ≡ left)) }
{
    match text {
        Text::One => {
            let (squares, rest) = number_after(bytes, b" patterns ")?;
            Some((squares, None, rest))
        }
        Text::Two | Text::Three => {
            let (squares, rest) = number_after(bytes, b" squares ")?;
            let (diamonds, rest) = optional_after(rest, b" diamonds ")?;
            Some((squares, diamonds, rest))
        }
    }
}

/// Reads the header at the front of the bytes, and returns it with the bytes after it, or None if
/// they do not begin with one. It takes no memory.
pub fn read_header(bytes: &[u8]) -> Option<(Header, &[u8])>
    ensures found { IfSome result (λ p. IsHeader p.0 × (bytes.now ≡ header_text p.0 ++ p.1.now)) }
    ensures none { IfNone result (HasNoHeader bytes.now) }
{
    let (text, rest) = front(bytes)?;
    let (games, moves, rest) = games_and_moves(rest)?;
    let (squares, diamonds, rest) = counts(rest, text)?;
    let rest = after(rest, b"\n")?;
    Some((
        Header {
            text,
            games,
            moves,
            squares,
            diamonds,
        },
        rest,
    ))
}

/// How many lines follow a header, or 2^64 - 1 if they are more.
pub fn count_lines(header: &Header) -> u64
    ensures { result ≡ min (lines_after header.now) (2 ^ 64 - 1) }
{
    header.squares.saturating_add(header.diamonds.unwrap_or(0))
}

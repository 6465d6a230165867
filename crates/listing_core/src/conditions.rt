//! The conditions that a game has to meet to be chosen, spelled as `KEY=VALUE`.
ghost use Rattle.std.specs.Prelude.{◌≡◌, ◌≢◌, ◌∷◌, [], IfSome, IfNone, OnOk, IfOk};
ghost use Rattle.sgf_core.specs.Marks.{marks_of};
ghost use Rattle.sgf_core.specs.Tree.{GameTree, main_line_of};
ghost use Rattle.listing_core.specs.Columns.{key_text};
ghost use Rattle.listing_core.specs.Conditions.{IsSpelled, SpellsNone, fits, side_fits, meets};
ghost use Rattle.listing_core.specs.Conditions.{meets_all};
ghost use Rattle.listing_core.specs.declared.keys.Key.{Key};

use crate::columns::push_key_value;
use crate::keys::Key;
use crate::writing::push_count;
use go_board::Size;
use sgf_core::Tree;
use std::alloc::{AllocError, Global};

/// A condition for a game: what the game says for `key` (such as its date) has to be `value`, or
/// only to begin with `value` if `is_front` is true.
#[derive(Clone, Copy, Debug, PartialEq, Eq)]
pub struct Condition<'a> {
    /// The key that is looked at.
    pub key: Key,
    /// What the game has to say of the key, or how that has to begin.
    pub value: &'a [u8],
    /// Whether anything may follow the value.
    pub is_front: bool,
}

/// Returns the key that these two letters name, or None if they name none.
fn key_of(first: u8, second: u8) -> Option<Key>
    ensures some { IfSome result (λ found. key_text found ≡ first ∷ second ∷ []) }
    ensures none { IfNone result ((found : Key) → key_text found ≢ first ∷ second ∷ []) }
{
    match (first, second) {
        (b'S', b'Z') => Some(Key::Size),
        (b'P', b'B') => Some(Key::BlackName),
        (b'P', b'W') => Some(Key::WhiteName),
        (b'B', b'R') => Some(Key::BlackRank),
        (b'W', b'R') => Some(Key::WhiteRank),
        (b'D', b'T') => Some(Key::Date),
        (b'R', b'E') => Some(Key::Outcome),
        (b'H', b'A') => Some(Key::Handicap),
        (b'K', b'M') => Some(Key::Komi),
        _ => None,
    }
}

/// Returns the condition that a text spells: `KEY=VALUE`, where KEY is one of SZ, PB, PW, BR, WR,
/// DT, RE, HA and KM. A `*` at the end stands for any rest of the text. None if the text spells no
/// condition. It takes no memory.
pub fn condition_of(text: &str) -> Option<Condition<'_>>
    ensures spelled { IfSome result (IsSpelled text.now) }
    ensures none { IfNone result (SpellsNone text.now) }
{
    let bytes = text.as_bytes();
    if bytes.len() < 3 || bytes[2] != b'=' {
        return None;
    }
    let key = key_of(bytes[0], bytes[1])?;
    let value = &bytes[3..];
    match value.strip_suffix(b"*") {
        Some(front) => Some(Condition {
            key,
            value: front,
            is_front: true,
        }),
        None => Some(Condition {
            key,
            value,
            is_front: false,
        }),
    }
}

/// Whether `text` is the value of `condition`, or begins with it if `is_front` is set.
fn fits(condition: &Condition<'_>, text: &[u8]) -> bool
    ensures { result ≡ fits condition.now text.now }
{
    if condition.is_front {
        text.starts_with(condition.value)
    } else {
        text == condition.value
    }
}

/// Whether the number of columns of a square board is what `condition` asks for, so that `SZ=19` is
/// met by 19x19. False if the board is not square. It takes memory for the number.
fn side_fits(alloc: Global, condition: &Condition<'_>, size: Size) -> Result<bool, AllocError>
    ensures { IfOk result (λ found. found ≡ side_fits condition.now size) }
{
    if size.columns() != size.rows() {
        return Ok(false);
    }
    let mut side = Vec::new(alloc);
    push_count(&mut side, usize::from(size.columns()))?;
    Ok(fits(condition, &side))
}

/// Whether the game `tree`, with a board of this size, meets the condition. It takes memory for the
/// text that is compared.
fn meets(
    alloc: Global,
    condition: &Condition<'_>,
    tree: &Tree<'_>,
    size: Size,
) -> Result<bool, AllocError>
    ensures { (game : GameTree) → tree.now.marks ≡ marks_of game
        → IfOk result (λ found. found ≡ meets condition.now (main_line_of game) size) }
{
    let mut text = Vec::new(alloc);
    push_key_value(&mut text, condition.key, tree, size)?;
    if fits(condition, &text) {
        return Ok(true);
    }
    match condition.key {
        Key::Size => side_fits(alloc, condition, size),
        _ => Ok(false),
    }
}

/// Whether the game `tree`, with a board of this size, meets all conditions. It takes memory for
/// the texts that are compared.
pub(crate) fn meets_all(
    alloc: Global,
    conditions: &[Condition<'_>],
    tree: &Tree<'_>,
    size: Size,
) -> Result<bool, AllocError>
    ensures { (game : GameTree) → tree.now.marks ≡ marks_of game
        → IfOk result (λ found. found ≡ meets_all conditions.now (main_line_of game) size) }
{
    for condition in conditions {
        if !meets(alloc, condition, tree, size)? {
            return Ok(false);
        }
    }
    Ok(true)
}

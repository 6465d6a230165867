//! Where patterns were in games, as the lines of hits say.
ghost use Rattle.std.specs.Prelude.{◌≡◌, ◌++◌, ◌∷◌, [], ℕ, List, OnOk, IfOk, map};
ghost use Rattle.std.specs.List.{flat_map};
ghost use Rattle.sheet_core.specs.Places.{lines_after, is_of, place_in, escaped, place_text, places_of};
ghost use Rattle.sheet_core.specs.Places.{items_text, places_text};

use shape_core::Shape;
use shape_dict::push_word;
use std::alloc::{AllocError, Global};

/// How many lines of hits are shown for a pattern at most.
const MOST: usize = 3;

/// How many bytes a word and the space after it have in a line of hits.
const FRONT: usize = 14;

/// Returns the lines of `bytes`, without their line feeds. What follows the last line feed is a
/// line too, even if it is empty. It takes memory for the list, and copies no line.
pub(crate) fn lines_of<'a>(alloc: Global, bytes: &'a [u8]) -> Result<Vec<&'a [u8]>, AllocError>
    ensures { IfOk result (λ lines. map (λ line. line.now) lines.items
        ≡ lines_after [] bytes.now) }
{
    let mut lines = Vec::new(alloc);
    let mut start = 0;
    for place in 0..bytes.len() {
        if bytes[place] == b'\n' {
            lines.push(&bytes[start..place])?;
            start = place + 1;
        }
    }
    lines.push(&bytes[start..])?;
    Ok(lines)
}

/// Whether a line of hits is for the pattern `word`: its word stands first, and a space follows. It
/// takes memory for the word's digits.
fn is_of(alloc: Global, word: Shape, line: &[u8]) -> Result<bool, AllocError>
    ensures { IfOk result (λ is. is ≡ is_of word line.now) }
{
    let mut front = Vec::new(alloc);
    push_word(&mut front, word)?;
    front.push(b' ')?;
    Ok(line.starts_with(&front))
}

/// Returns what follows the word and the space in a line of hits: the game, the move, the point,
/// and so on. Empty if the line is too short.
fn place_in(line: &[u8]) -> &[u8]
    ensures { result.now ≡ place_in line.now }
{
    &line[FRONT.min(line.len())..]
}

/// Appends a byte of text as HTML spells it.
fn push_escaped(text: &mut Vec<u8>, byte: u8) -> Result<(), AllocError>
    ensures { OnOk result (text.new.items ≡ text.old.items ++ escaped byte) }
{
    match byte {
        b'&' => text.extend_from_slice(b"&amp;"),
        b'<' => text.extend_from_slice(b"&lt;"),
        b'>' => text.extend_from_slice(b"&gt;"),
        _ => text.extend_from_slice(&[byte]),
    }
}

/// Appends bytes of text as HTML spells them.
fn push_all_escaped(text: &mut Vec<u8>, bytes: &[u8]) -> Result<(), AllocError>
    ensures { OnOk result (text.new.items ≡ text.old.items ++ flat_map escaped bytes.now) }
{
    for byte in bytes {
        push_escaped(text, *byte)?;
    }
    Ok(())
}

/// Appends `place`, a line of hits without its word, as an item of a list in HTML.
fn push_place(text: &mut Vec<u8>, place: &[u8]) -> Result<(), AllocError>
    ensures { OnOk result (text.new.items ≡ text.old.items ++ place_text place.now) }
{
    text.extend_from_slice(b"<li>")?;
    push_all_escaped(text, place)?;
    text.extend_from_slice(b"</li>")
}

/// Adds what follows the word in `line` to `places`, if the line is for the pattern `word` and
/// `places` has fewer than three.
fn push_found<'a>(
    alloc: Global,
    places: &mut Vec<&'a [u8]>,
    line: &'a [u8],
    word: Shape,
) -> Result<(), AllocError>
    ensures { OnOk result ((before : List (List ℕ)) → map (λ place. place.now) places.old.items
        ≡ places_of before word → map (λ place. place.now) places.new.items
        ≡ places_of (before ++ line.now ∷ []) word) }
{
    if places.len() >= MOST {
        return Ok(());
    }
    if !is_of(alloc, word, line)? {
        return Ok(());
    }
    places.push(place_in(line))?;
    Ok(())
}

/// Returns the first three at most of the lines of hits that are for the pattern `word`, each
/// without the word and the space after it.
fn places_of<'a>(
    alloc: Global,
    lines: &[&'a [u8]],
    word: Shape,
) -> Result<Vec<&'a [u8]>, AllocError>
    ensures { IfOk result (λ places. map (λ place. place.now) places.items
        ≡ places_of (map (λ line. line.now) lines.now) word) }
{
    let mut places = Vec::new(alloc);
    for line in lines {
        push_found(alloc, &mut places, *line, word)?;
    }
    Ok(places)
}

/// Appends `places`, lines of hits without their words, as items of a list in HTML.
fn push_items(text: &mut Vec<u8>, places: &[&[u8]]) -> Result<(), AllocError>
    ensures { OnOk result (text.new.items
        ≡ text.old.items ++ items_text (map (λ place. place.now) places.now)) }
{
    for place in places {
        push_place(text, *place)?;
    }
    Ok(())
}

/// Appends `places`, lines of hits without their words, as a list in HTML; nothing if there are
/// none.
#[tactic(auto, unfolding(crate::specs::Places::places_text))]
fn push_list(text: &mut Vec<u8>, places: &[&[u8]]) -> Result<(), AllocError>
    ensures { OnOk result (text.new.items
        ≡ text.old.items ++ places_text (map (λ place. place.now) places.now)) }
{
    if places.is_empty() {
        return Ok(());
    }
    text.extend_from_slice(b"<ul>")?;
    push_items(text, places)?;
    text.extend_from_slice(b"</ul>")
}

/// Appends a list in HTML of the first three at most of the lines of hits that are for the pattern
/// `word`; nothing if there are none.
pub(crate) fn push_places(
    alloc: Global,
    text: &mut Vec<u8>,
    lines: &[&[u8]],
    word: Shape,
) -> Result<(), AllocError>
    ensures { OnOk result (text.new.items ≡ text.old.items
        ++ places_text (places_of (map (λ line. line.now) lines.now) word)) }
{
    push_list(text, &places_of(alloc, lines, word)?)
}

//! Images of words, and the words of a field, worked out by their definitions.
use go_board::{Colour, Played, Point, Size, Stone};
use shape_core::{Field, Kinds, Symmetry, exchange, from_glyphs, glyphs, image};
use std::alloc::Global;

/// Returns the glyphs of the image, under the symmetry of this number, of a square with one black
/// stone next to a corner. None if the number is above 7.
fn corner_under(number: u8) -> Option<[u8; 25]> {
    let corner = from_glyphs(b".X.......................").ok()?;
    Some(glyphs(image(corner, Symmetry::new(number)?)))
}

/// Returns the glyphs of the square with these glyphs after its colours are exchanged. None if
/// these are not 25 glyphs.
fn exchanged(square: &[u8]) -> Option<[u8; 25]> {
    let word = from_glyphs(square).ok()?;
    Some(glyphs(exchange(word)))
}

#[test]
fn images_and_exchanges_are_these(rt: HostRuntime) {
    let rows: [(u8, &[u8; 25]); 8] = [
        (0, b".X......................."),
        (1, b".........X..............."),
        (2, b".......................X."),
        (3, b"...............X........."),
        (4, b"...X....................."),
        (5, b".....................X..."),
        (6, b".....X..................."),
        (7, b"...................X....."),
    ];
    for (number, wanted) in &rows {
        assert!(rt; corner_under(*number) == Some(**wanted), "{number}");
    }
    assert!(rt; corner_under(8) == None);
    assert!(rt; exchanged(b".XO#.....................") == Some(*b".OX#....................."));
}

/// The corner of a field of three columns and three rows.
const CORNER: Point = Point { column: 0, row: 0 };

/// Sets a point, if it is on the field.
fn set(field: &mut Field, stone: Stone, point: Point) {
    if field.size().has(point) {
        field.set(point, stone);
    }
}

/// Plays Black, and returns what the move takes; None if its point is off the field.
fn play(field: &mut Field, point: Point) -> Option<Played> {
    if !field.size().has(point) {
        return None;
    }
    Some(field.play(Colour::Black, point))
}

/// Whether the square and the diamond of the corner have these glyphs.
fn is_at_corner(field: &Field, square: &[u8; 25], diamond: &[u8; 25]) -> bool {
    field.size().has(CORNER)
        && field.kinds() == Kinds::Both
        && glyphs(field.word(CORNER)) == *square
        && glyphs(field.diamond(CORNER)) == *diamond
}

/// Sets a white stone at the corner of an empty field of three columns and three rows and a black
/// one beside it, and plays Black below it. Returns whether that takes the white stone, and the
/// square and the diamond of the corner have the black stones alone.
fn takes_the_corner(field: &mut Field) -> bool {
    set(field, Stone::White, CORNER);
    set(field, Stone::Black, Point { column: 1, row: 0 });
    let played = play(field, Point { column: 0, row: 1 });
    played
        == Some(Played {
            taken: 1,
            own_lost: 0,
        })
        && field.removed() == [CORNER].as_slice()
        && is_at_corner(
            field,
            b"############.X.##X..##...",
            b"############.X.###X..#..#",
        )
}

/// The same on a new field. None if memory for it was refused.
fn corner_is_taken(alloc: Global) -> Option<bool> {
    let mut field = Field::new(alloc, Size::new(3, 3)?).ok()?;
    Some(takes_the_corner(&mut field))
}

#[test]
fn a_capture_changes_these_words(rt: HostRuntime) {
    assert!(rt; corner_is_taken(rt.alloc()) == Some(true));
}

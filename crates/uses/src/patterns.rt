//! The examples of the pages of `shape_core` and `shape_dict`.
use go_board::{Colour, Point, Size};
use shape_core::{Field, canonical, from_glyphs, glyphs};
use shape_dict::{Dictionary, Text};
use std::test::Fail;

#[test]
fn shape_core(rt: HostRuntime) -> Result<(), Fail> {
    let word = from_glyphs(b"......XO.................")
        .ok()
        .ok_or("glyphs")?;
    let shape = canonical(word, Colour::Black);
    assert!(rt; shape.word().bits() == 0x0000000009000);
    let size = Size::new(9, 9).ok_or("a size")?;
    let mut field = Field::new(rt.alloc(), size)?;
    field.play(Colour::Black, Point { column: 4, row: 4 });
    let word = field.word(Point { column: 4, row: 3 });
    assert!(rt; glyphs(word)[17] == b'X');
    Ok(())
}

#[test]
fn shape_dict(rt: HostRuntime) -> Result<(), Fail> {
    let alloc = rt.alloc();
    let one = Dictionary::read(
        alloc,
        b"shapes 1 games 1 moves 1 patterns 1\n3fffffcffffff 1 1\n",
    )?;
    let sum = Dictionary::join(alloc, &one, &one)?;
    let mut text = Vec::new(alloc);
    sum.write(Text::One, &mut text)?;
    let wanted = b"shapes 1 games 2 moves 2 patterns 1\n3fffffcffffff 2 2\n";
    assert!(rt; text.as_slice() == wanted.as_slice());
    Ok(())
}

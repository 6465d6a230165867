//! The drawing of a pattern: a tile under each point on the board, lines that run on where the
//! board does, thick ones at its edge, stones, and the next move.
ghost use Rattle.std.specs.Prelude.{◌≡◌, ◌++◌, OnOk};
ghost use Rattle.std.specs.List.{flat_map};
ghost use Rattle.sheet_core.specs.Drawing.{view_text, title_text, move_text, tile_text, tiles_text};
ghost use Rattle.sheet_core.specs.Drawing.{way_text, half_text, upright_text, level_text};
ghost use Rattle.sheet_core.specs.Drawing.{cross_text, lines_text, upright_edge, level_edge};
ghost use Rattle.sheet_core.specs.Drawing.{edge_text, edges_text, middle_text, circle_text};
ghost use Rattle.sheet_core.specs.Drawing.{stone_text, next_text, picture_text, drawing_text};

use crate::cells::{Cell, cells_of, is_on};
use crate::sides::{Side, ends_at};
use shape_core::{Kind, Word, glyphs};
use shape_dict::push_number;
use std::alloc::AllocError;

/// Appends the beginning of a drawing in SVG: the part of the plane that is shown, and the
/// background of all its cells.
fn push_view(text: &mut Vec<u8>, kind: Kind) -> Result<(), AllocError>
    ensures { OnOk result (text.new.items ≡ text.old.items ++ view_text kind) }
{
    match kind {
        Kind::Square => text.extend_from_slice(
            b"<svg viewBox='.5 .5 5 5' role='img'><path class='outside' d='M1 1h5v5h-5z'/>",
        ),
        Kind::Diamond => text.extend_from_slice(
            b"<svg viewBox='-.5 -.5 7 7' role='img'><path class='outside' d='M3 0h1v1h1v1h1v1h1v1h-1v1h-1v1h-1v1h-1v-1h-1v-1h-1v-1h-1v-1h1v-1h1v-1h1z'/>",
        ),
    }
}

/// Appends the title, which is read out in place of the picture: the 25 glyphs, as `shapes find`
/// takes them.
fn push_title(text: &mut Vec<u8>, word: Word) -> Result<(), AllocError>
    ensures { OnOk result (text.new.items ≡ text.old.items ++ title_text word) }
{
    text.extend_from_slice(b"<title>")?;
    text.extend_from_slice(&glyphs(word))?;
    text.extend_from_slice(b", X to move in the middle</title>")?;
    Ok(())
}

/// Appends the SVG command that moves the pen to `cell` without drawing a line.
fn push_move(text: &mut Vec<u8>, cell: Cell) -> Result<(), AllocError>
    ensures { OnOk result (text.new.items ≡ text.old.items ++ move_text cell) }
{
    text.push(b'M')?;
    push_number(text, u64::from(cell.column))?;
    text.push(b' ')?;
    push_number(text, u64::from(cell.row))
}

/// Appends the tile of `cell`, a square of wood, if the cell is on the board.
fn push_tile(text: &mut Vec<u8>, cell: Cell) -> Result<(), AllocError>
    ensures { OnOk result (text.new.items ≡ text.old.items ++ tile_text cell) }
{
    if !is_on(cell) {
        return Ok(());
    }
    push_move(text, cell)?;
    text.extend_from_slice(b"h1v1h-1z")
}

/// Appends the tiles (squares of wood) of those of `cells` that are on the board.
fn push_tiles(text: &mut Vec<u8>, cells: &[Cell]) -> Result<(), AllocError>
    ensures { OnOk result (text.new.items ≡ text.old.items ++ tiles_text cells.now) }
{
    text.extend_from_slice(b"<path class='wood' d='")?;
    for cell in cells {
        push_tile(text, *cell)?;
    }
    text.extend_from_slice(b"'/>")
}

/// Returns the SVG command that draws a line of half a cell towards `side`.
fn way(side: Side) -> &'static [u8]
    ensures { result.now ≡ way_text side }
{
    match side {
        Side::Right => b"h.5",
        Side::Below => b"v.5",
        Side::Left => b"h-.5",
        Side::Above => b"v-.5",
    }
}

/// Appends the half of a line from the middle of `cell` to its `side`, unless the board ends there,
/// as the pattern's `cells` show.
fn push_half(text: &mut Vec<u8>, cells: &[Cell], cell: Cell, side: Side) -> Result<(), AllocError>
    ensures { OnOk result (text.new.items ≡ text.old.items ++ half_text cells.now cell side) }
{
    if ends_at(side, cells, cell) {
        return Ok(());
    }
    push_move(text, cell)?;
    text.extend_from_slice(way(side))
}

/// Appends the line through a cell up and down.
fn push_upright(text: &mut Vec<u8>, cells: &[Cell], cell: Cell) -> Result<(), AllocError>
    ensures { OnOk result (text.new.items ≡ text.old.items ++ upright_text cells.now cell) }
{
    push_half(text, cells, cell, Side::Below)?;
    push_half(text, cells, cell, Side::Above)
}

/// Appends the line through a cell to the right and to the left.
fn push_level(text: &mut Vec<u8>, cells: &[Cell], cell: Cell) -> Result<(), AllocError>
    ensures { OnOk result (text.new.items ≡ text.old.items ++ level_text cells.now cell) }
{
    push_half(text, cells, cell, Side::Right)?;
    push_half(text, cells, cell, Side::Left)
}

/// Appends both lines through `cell`, if it is on the board.
fn push_cross(text: &mut Vec<u8>, cells: &[Cell], cell: Cell) -> Result<(), AllocError>
    ensures { OnOk result (text.new.items ≡ text.old.items ++ cross_text cells.now cell) }
{
    if !is_on(cell) {
        return Ok(());
    }
    push_upright(text, cells, cell)?;
    push_level(text, cells, cell)
}

/// Appends the lines of the board through all `cells`.
fn push_lines(text: &mut Vec<u8>, cells: &[Cell]) -> Result<(), AllocError>
    ensures { OnOk result (text.new.items ≡ text.old.items ++ lines_text cells.now) }
{
    text.extend_from_slice(b"<path class='grid' d='")?;
    for cell in cells {
        push_cross(text, cells, *cell)?;
    }
    text.extend_from_slice(b"'/>")
}

/// Appends the line through a cell up and down, if it is an edge of the board.
fn push_upright_edge(text: &mut Vec<u8>, cells: &[Cell], cell: Cell) -> Result<(), AllocError>
    ensures { OnOk result (text.new.items ≡ text.old.items ++ upright_edge cells.now cell) }
{
    if ends_at(Side::Left, cells, cell) || ends_at(Side::Right, cells, cell) {
        return push_upright(text, cells, cell);
    }
    Ok(())
}

/// Appends the line through a cell to the right and to the left, if it is an edge of the board.
fn push_level_edge(text: &mut Vec<u8>, cells: &[Cell], cell: Cell) -> Result<(), AllocError>
    ensures { OnOk result (text.new.items ≡ text.old.items ++ level_edge cells.now cell) }
{
    if ends_at(Side::Above, cells, cell) || ends_at(Side::Below, cells, cell) {
        return push_level(text, cells, cell);
    }
    Ok(())
}

/// Appends the lines through a cell that are edges of the board, if the cell is on it.
fn push_edge(text: &mut Vec<u8>, cells: &[Cell], cell: Cell) -> Result<(), AllocError>
    ensures { OnOk result (text.new.items ≡ text.old.items ++ edge_text cells.now cell) }
{
    if !is_on(cell) {
        return Ok(());
    }
    push_upright_edge(text, cells, cell)?;
    push_level_edge(text, cells, cell)
}

/// Appends the lines through `cells` that are edges of the board, thick.
fn push_edges(text: &mut Vec<u8>, cells: &[Cell]) -> Result<(), AllocError>
    ensures { OnOk result (text.new.items ≡ text.old.items ++ edges_text cells.now) }
{
    text.extend_from_slice(b"<path class='edge' d='")?;
    for cell in cells {
        push_edge(text, cells, *cell)?;
    }
    text.extend_from_slice(b"'/>")
}

/// Appends the attributes of a circle's centre, which is at `cell`.
fn push_middle(text: &mut Vec<u8>, cell: Cell) -> Result<(), AllocError>
    ensures { OnOk result (text.new.items ≡ text.old.items ++ middle_text cell) }
{
    text.extend_from_slice(b" cx='")?;
    push_number(text, u64::from(cell.column))?;
    text.extend_from_slice(b"' cy='")?;
    push_number(text, u64::from(cell.row))?;
    text.extend_from_slice(b"'")
}

/// Appends a circle at `cell`; `begun` is the beginning of its element, with its class and radius.
fn push_circle(text: &mut Vec<u8>, begun: &[u8], cell: Cell) -> Result<(), AllocError>
    ensures { OnOk result (text.new.items ≡ text.old.items ++ circle_text begun.now cell) }
{
    text.extend_from_slice(begun)?;
    push_middle(text, cell)?;
    text.extend_from_slice(b"/>")
}

/// Appends the stone of a cell, if it has one.
fn push_stone(text: &mut Vec<u8>, cell: Cell) -> Result<(), AllocError>
    ensures { OnOk result (text.new.items ≡ text.old.items ++ stone_text cell) }
{
    match cell.glyph {
        b'X' => push_circle(text, b"<circle class='black' r='.46'", cell),
        b'O' => push_circle(text, b"<circle class='white' r='.46'", cell),
        _ => Ok(()),
    }
}

/// Appends the stones of cells.
fn push_stones(text: &mut Vec<u8>, cells: &[Cell]) -> Result<(), AllocError>
    ensures { OnOk result (text.new.items ≡ text.old.items ++ flat_map stone_text cells.now) }
{
    for cell in cells {
        push_stone(text, *cell)?;
    }
    Ok(())
}

/// Appends the next move, a black stone with a 1 in the middle, and the end of the drawing.
fn push_next_move(text: &mut Vec<u8>) -> Result<(), AllocError>
    ensures { OnOk result (text.new.items ≡ text.old.items ++ next_text) }
{
    text.extend_from_slice(
        b"<circle class='black' r='.46' cx='3' cy='3'/><path class='one' d='M2.86 2.9l.16-.13v.46'/></svg>",
    )
}

/// Appends what is drawn of `cells` (tiles, lines, edges and stones), the next move, and the end of
/// the drawing.
fn push_cells(text: &mut Vec<u8>, cells: &[Cell]) -> Result<(), AllocError>
    ensures { OnOk result (text.new.items ≡ text.old.items ++ picture_text cells.now) }
{
    push_tiles(text, cells)?;
    push_lines(text, cells)?;
    push_edges(text, cells)?;
    push_stones(text, cells)?;
    push_next_move(text)
}

/// Appends the drawing of the pattern `word` in SVG: tiles, lines, edges, stones and the next move.
#[tactic(auto, unfolding(crate::specs::Drawing::drawing_text))]
pub(crate) fn push_drawing(text: &mut Vec<u8>, word: Word) -> Result<(), AllocError>
    ensures { OnOk result (text.new.items ≡ text.old.items ++ drawing_text word) }
{
    push_view(text, word.kind())?;
    push_title(text, word)?;
    push_cells(text, &cells_of(word))?;
    Ok(())
}

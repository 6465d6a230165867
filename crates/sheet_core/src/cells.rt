//! Where the cells of a pattern, which are its 25 points, are drawn.
ghost use Rattle.std.specs.Prelude.{◌≡◌};
ghost use Rattle.sheet_core.specs.Cells.{cells_of, cell_places, is_on};

use shape_core::{Kind, Word, glyphs};

/// Where a cell is drawn: column and row, from 0. The middle of a pattern is at column 3 and row 3.
#[derive(Clone, Copy)]
pub(crate) struct Place {
    pub(crate) column: u8,
    pub(crate) row: u8,
}

/// A cell as it is drawn: the column and row at which it is drawn, both from 0, and its glyph (`.`
/// empty, `X` black, `O` white, `#` off the board).
#[derive(Clone, Copy)]
pub(crate) struct Cell {
    pub(crate) column: u8,
    pub(crate) row: u8,
    pub(crate) glyph: u8,
}

/// Where the 25 cells of a square are drawn, in the order of the cells.
const SQUARE_PLACES: [Place; 25] = [
    Place { column: 1, row: 1 },
    Place { column: 2, row: 1 },
    Place { column: 3, row: 1 },
    Place { column: 4, row: 1 },
    Place { column: 5, row: 1 },
    Place { column: 1, row: 2 },
    Place { column: 2, row: 2 },
    Place { column: 3, row: 2 },
    Place { column: 4, row: 2 },
    Place { column: 5, row: 2 },
    Place { column: 1, row: 3 },
    Place { column: 2, row: 3 },
    Place { column: 3, row: 3 },
    Place { column: 4, row: 3 },
    Place { column: 5, row: 3 },
    Place { column: 1, row: 4 },
    Place { column: 2, row: 4 },
    Place { column: 3, row: 4 },
    Place { column: 4, row: 4 },
    Place { column: 5, row: 4 },
    Place { column: 1, row: 5 },
    Place { column: 2, row: 5 },
    Place { column: 3, row: 5 },
    Place { column: 4, row: 5 },
    Place { column: 5, row: 5 },
];

/// Where the 25 cells of a diamond are drawn, in the order of the cells.
const DIAMOND_PLACES: [Place; 25] = [
    Place { column: 3, row: 0 },
    Place { column: 2, row: 1 },
    Place { column: 3, row: 1 },
    Place { column: 4, row: 1 },
    Place { column: 1, row: 2 },
    Place { column: 2, row: 2 },
    Place { column: 3, row: 2 },
    Place { column: 4, row: 2 },
    Place { column: 5, row: 2 },
    Place { column: 0, row: 3 },
    Place { column: 1, row: 3 },
    Place { column: 2, row: 3 },
    Place { column: 3, row: 3 },
    Place { column: 4, row: 3 },
    Place { column: 5, row: 3 },
    Place { column: 6, row: 3 },
    Place { column: 1, row: 4 },
    Place { column: 2, row: 4 },
    Place { column: 3, row: 4 },
    Place { column: 4, row: 4 },
    Place { column: 5, row: 4 },
    Place { column: 2, row: 5 },
    Place { column: 3, row: 5 },
    Place { column: 4, row: 5 },
    Place { column: 3, row: 6 },
];

/// Returns where the 25 cells of a pattern of this `kind` are drawn, in the order of the cells.
fn cell_places(kind: Kind) -> [Place; 25]
    ensures { result ≡ cell_places kind }
{
    match kind {
        Kind::Square => SQUARE_PLACES,
        Kind::Diamond => DIAMOND_PLACES,
    }
}

/// Returns the 25 cells of the pattern `word` in their order, each with where it is drawn and its
/// glyph. Takes no memory.
pub(crate) fn cells_of(word: Word) -> [Cell; 25]
    ensures { result ≡ cells_of word }
{
    let places = cell_places(word.kind());
    let glyphs = glyphs(word);
    let mut cells = [Cell {
        column: 0,
        row: 0,
        glyph: b'#',
    }; 25];
    for k in 0..25 {
        let place = places[k];
        cells[k] = Cell {
            column: place.column,
            row: place.row,
            glyph: glyphs[k],
        };
    }
    cells
}

/// Whether `cell` is on the board: its glyph is not `#`.
pub(crate) fn is_on(cell: Cell) -> bool
    ensures { result ≡ is_on cell }
{
    cell.glyph != b'#'
}

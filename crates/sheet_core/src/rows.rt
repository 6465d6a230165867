//! The rows of the two kinds of pattern.
ghost use Rattle.std.specs.Prelude.{◌≡◌};
ghost use Rattle.sheet_core.specs.Plain.{rows_of};

use shape_core::Kind;

/// A row of a pattern: by how many spaces it is indented, the number of its first cell (from 0),
/// and how many cells it has.
#[derive(Clone, Copy)]
pub(crate) struct Row {
    pub(crate) indent: usize,
    pub(crate) first: usize,
    pub(crate) count: usize,
}

/// The rows of a square: five rows of five cells.
const SQUARE_ROWS: [Row; 5] = [
    Row {
        indent: 0,
        first: 0,
        count: 5,
    },
    Row {
        indent: 0,
        first: 5,
        count: 5,
    },
    Row {
        indent: 0,
        first: 10,
        count: 5,
    },
    Row {
        indent: 0,
        first: 15,
        count: 5,
    },
    Row {
        indent: 0,
        first: 20,
        count: 5,
    },
];

/// The rows of a diamond: one, three, five, seven, five, three and one cell.
const DIAMOND_ROWS: [Row; 7] = [
    Row {
        indent: 3,
        first: 0,
        count: 1,
    },
    Row {
        indent: 2,
        first: 1,
        count: 3,
    },
    Row {
        indent: 1,
        first: 4,
        count: 5,
    },
    Row {
        indent: 0,
        first: 9,
        count: 7,
    },
    Row {
        indent: 1,
        first: 16,
        count: 5,
    },
    Row {
        indent: 2,
        first: 21,
        count: 3,
    },
    Row {
        indent: 3,
        first: 24,
        count: 1,
    },
];

/// Returns the rows of a pattern of this kind, from the top.
pub(crate) fn rows_of(kind: Kind) -> &'static [Row]
    ensures { result.now ≡ rows_of kind }
{
    match kind {
        Kind::Square => &SQUARE_ROWS,
        Kind::Diamond => &DIAMOND_ROWS,
    }
}

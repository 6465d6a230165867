//! Points, sizes, colours and stones of a board.
use std::marker::Model;

/// A point of a board: its column from the left and its row from the top, both from 0.
#[derive(Clone, Copy, Debug, PartialEq, Eq)]
pub struct Point {
    pub column: u8,
    pub row: u8,
}

/// The colour of a player.
#[derive(Clone, Copy, Debug, PartialEq, Eq)]
pub enum Colour {
    Black,
    White,
}

impl Colour {
    ghost use Rattle.std.specs.Prelude.{◌≡◌};
    ghost use Rattle.go_board.specs.Play.{other, stone_of};

    /// Returns the colour of the opponent.
    pub fn other(self) -> Colour
        ensures { result ≡ other self }
    {
        match self {
            Colour::Black => Colour::White,
            Colour::White => Colour::Black,
        }
    }

    /// Returns a stone of this colour.
    pub fn stone(self) -> Stone
        ensures { result ≡ stone_of self }
    {
        match self {
            Colour::Black => Stone::Black,
            Colour::White => Stone::White,
        }
    }
}

/// What stands on a point.
#[derive(Clone, Copy, Debug, PartialEq, Eq)]
pub enum Stone {
    Empty,
    Black,
    White,
}

/// The size of a board: its columns and rows, each from 1 to 52 (the file format SGF FF[4] has
/// letters for as many).
#[derive(Clone, Copy, Debug, PartialEq, Eq)]
pub struct Size {
    columns: u8,
    rows: u8,
}

impl Model for Size {
    ghost use Rattle.go_board.specs.Extent.{Extent, IsExtent};

    ghost Value = { Extent };

    ghost view = { λ s. record { columns = s.columns; rows = s.rows } };

    ghost invariant = { λ s. IsExtent (record { columns = s.columns; rows = s.rows }) };

    ghost inverse = { λ e. record { columns = e.columns; rows = e.rows } };
}

impl Size {
    ghost use Rattle.std.specs.Prelude.{◌≡◌, ◌*◌, ◌<◌, ◌/◌, ◌%◌, ◌↔◌, IsTrue, IsSome, IfSome};
    ghost use Rattle.go_board.specs.Extent.{IsExtent};
    ghost use Rattle.go_board.specs.Point.{IsOn, index_of};

    /// Returns the size of this many `columns` and `rows`, or None if either is outside 1 to 52.
    pub fn new(columns: u8, rows: u8) -> Option<Size>
        ensures some { IsSome result ↔ IsExtent (record { columns = columns; rows = rows }) }
        ensures value { IfSome result (λ size. size ≡ record { columns = columns; rows = rows }) }
    {
        if columns >= 1 && columns <= 52 && rows >= 1 && rows <= 52 {
            Some(Size { columns, rows })
        } else {
            None
        }
    }

    /// Returns the number of columns, from 1 to 52.
    pub fn columns(self) -> u8
        ensures value { result ≡ self.columns }
        ensures size { IsExtent self }
    {
        self.columns
    }

    /// Returns the number of rows, from 1 to 52.
    pub fn rows(self) -> u8
        ensures value { result ≡ self.rows }
        ensures size { IsExtent self }
    {
        self.rows
    }

    /// Returns the number of points of a board of this size: the length of a list with an item for
    /// each point.
    pub fn area(self) -> usize
        ensures value { result ≡ self.columns * self.rows }
        ensures size { IsExtent self }
    {
        usize::from(self.columns) * usize::from(self.rows)
    }

    /// Returns the index of a point in a list with an item for each point of the board, row by row
    /// from the top and each row from the left. The point is on a board of this size.
    pub fn index(self, point: Point) -> usize
        requires { IsOn self point }
        ensures value { result ≡ index_of self point }
        ensures below { result < self.columns * self.rows }
    {
        point.row as usize * self.columns as usize + point.column as usize
    }

    /// Returns the point that has this `index` in a list with an item for each point of the board,
    /// row by row from the top and each row from the left. The index is below `area`.
    pub fn point(self, index: usize) -> Point
        requires { index < self.columns * self.rows }
        ensures on_board { IsOn self result }
        ensures value { result
            ≡ record { column = index % self.columns; row = index / self.columns } }
    {
        let columns = usize::from(self.columns);
        Point {
            column: (index % columns) as u8,
            row: (index / columns) as u8,
        }
    }

    /// Whether the point is on a board of this size.
    pub fn has(self, point: Point) -> bool
        ensures { IsTrue result ↔ IsOn self point }
    {
        point.column < self.columns && point.row < self.rows
    }
}

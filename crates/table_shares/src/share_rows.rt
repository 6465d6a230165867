//! An iterator over the rows of a share (one pattern's counts each), by rising numbers.
ghost use Rattle.std.specs.Prelude.{◌≡◌};
ghost use Rattle.table_shares.specs.ShareRows.{IsNextRow, rows_left};

use crate::rows::Rows;
use gather_core::Row;
use std::iter::FusedIterator;
use std::marker::Model;

/// Iterates over the rows of a share (one pattern's counts each), by rising numbers (the patterns'
/// slots in the table). It takes no memory, and searches the share's map of numbers once for each
/// row.
///
/// Contracts see the rows, and the number `from`: the rows of that number and of greater ones are
/// still to come.
#[derive(Drop)]
pub struct ShareRows<'a> {
    rows: &'a Rows,
    from: usize,
}

impl<'a> Model for ShareRows<'a> {
    ghost use Rattle.table_shares.specs.ShareRows.{RowsFrom};

    ghost Value = { RowsFrom };

    ghost view = { λ walk. record { rows = walk.rows.now; from = walk.from } };
}

impl<'a> ShareRows<'a> {
    /// Returns an iterator over all of these rows.
    pub(crate) fn new(rows: &'a Rows) -> ShareRows<'a>
        ensures { result ≡ record { rows = rows.now; from = 0 } }
    {
        ShareRows { rows, from: 0 }
    }
}

impl<'a> Iterator for ShareRows<'a> {
    type Item = Row;

    ghost next_gives = { IsNextRow };

    ghost remaining = { rows_left };

    /// Returns the next row, that of the least number still to come. If no row is left, it returns
    /// None, now and at all later calls.
    fn next(&mut self) -> Option<Row> {
        let row = self.rows.first_from(self.from)?;
        self.from = row.number + 1;
        Some(row)
    }
}

impl<'a> FusedIterator for ShareRows<'a> {}

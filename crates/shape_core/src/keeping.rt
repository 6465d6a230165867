//! Updates the pattern words of a board as a stone changes: the code (two bits for what stands
//! there) of one cell in each word that has the point among its cells, and the marks of the points
//! whose words change.
ghost use Rattle.std.specs.Prelude.{◌≡◌, ◌<◌, ◌≤◌, ◌+◌, ◌*◌, ◌^◌, ◌⊎◌, ℕ, length, slice_index, get_or};
ghost use Rattle.std.specs.Prelude.{◌-◌, bit_xor, take, [], ◌∷◌, true};
ghost use Rattle.std.specs.List.{list_all};
ghost use Rattle.go_board.specs.declared.points.Point.{Point};
ghost use Rattle.go_board.specs.declared.points.Stone.{Stone};
ghost use Rattle.go_board.specs.Extent.{IsExtent};
ghost use Rattle.go_board.specs.Point.{IsOn, index_of};
ghost use Rattle.go_board.specs.Position.{Position, placed};
ghost use Rattle.shape_core.specs.Inner.Word.{with_change};
ghost use Rattle.shape_core.specs.Around.{stone_code};
ghost use Rattle.shape_core.specs.Inner.Table.{IsInRun, SeesInRow, is_away_within, cells_of};
ghost use Rattle.shape_core.specs.Inner.Table.{rows_of};
ghost use Rattle.shape_core.specs.Field.{IsMarked, MarksNear};
ghost use Rattle.shape_core.specs.KeptLists.{AreMarks};
ghost use Rattle.shape_core.specs.Inner.KeptLists.{AreWords, AreOfKind, DifferingAreMarked};

use crate::cells::{row_at, row_count, row_seeing};
use crate::imaged::ImagedWord;
use crate::marks::mark_run;
use crate::words::Kind;
use go_board::{Point, Size};

/// Changes the code of one cell, by exclusive or with `change`, in the word of each point of a row
/// of the board, from the point `from` on and before column `end`. All words are of this `kind`. In
/// column c it is the cell `last - c`, one cell earlier with each step to the right.
fn recode_run(
    size: Size,
    words: &mut [ImagedWord],
    kind: Kind,
    from: Point,
    end: u8,
    last: usize,
    change: u8,
)
    requires row { from.row < size.rows }
    requires left { from.column ≤ end }
    requires columns { end ≤ size.columns }
    requires first { end ≤ last + 1 }
    requires last { last < from.column + 25 }
    requires change { change < 4 }
    requires words { length words.old ≡ size.columns * size.rows }
    requires kinds { AreOfKind kind words.old }
    ensures kinds { AreOfKind kind words.new }
    ensures there { (q : Point) →
        IsOn size q →
        IsInRun from.row from.column end q →
        slice_index words.new (index_of size q)
        ≡ with_change (slice_index words.old (index_of size q)) (last - q.column) change }
    ensures elsewhere { (q : Point) →
        IsOn size q →
        ¬ IsInRun from.row from.column end q →
        slice_index words.new (index_of size q) ≡ slice_index words.old (index_of size q) }
{
    for column in from.column..end {
        let index = size.index(Point { column, ..from });
        words[index] = words[index].with_change(kind, last - usize::from(column), change);
    }
}

/// Changes the code of `point`, by exclusive or with `change`, in each word that has `point` in one
/// row of the pattern, and marks in `changed` the points of these words. All words are of this
/// `kind`, and `index` counts the rows of its pattern from the top, from 0. The further right a
/// point lies, the earlier the cell in which its word has `point`.
fn recode_row(
    size: Size,
    words: &mut [ImagedWord],
    changed: &mut [u64],
    point: Point,
    kind: Kind,
    index: usize,
    change: u8,
)
    requires extent { IsExtent size }
    requires on_board { IsOn size point }
    requires index { index < length (rows_of kind) }
    requires change { change < 4 }
    requires words { length words.old ≡ size.columns * size.rows }
    requires kinds { AreOfKind kind words.old }
    requires marks { AreMarks size changed.old }
    ensures kinds { AreOfKind kind words.new }
    ensures marks { AreMarks size changed.new }
    ensures stay { (q : Point) → IsMarked changed.old q → IsMarked changed.new q }
    ensures only { (q : Point) → IsMarked changed.new q →
        IsMarked changed.old q ⊎ SeesInRow q (get_or (rows_of kind) index (0, 0)) point }
    ensures there { (q : Point) →
        IsOn size q →
        SeesInRow q (get_or (rows_of kind) index (0, 0)) point →
        (slice_index words.new (index_of size q)
        ≡ with_change (slice_index words.old (index_of size q))
        (length (cells_of (take index (rows_of kind)))
        + (point.column + (get_or (rows_of kind) index (0, 0)).0 - q.column)) change)
        × IsMarked changed.new q }
    ensures elsewhere { (q : Point) →
        IsOn size q →
        ¬ SeesInRow q (get_or (rows_of kind) index (0, 0)) point →
        slice_index words.new (index_of size q) ≡ slice_index words.old (index_of size q) }
{
    let ((side, down), first) = row_at(kind, index);
    if let Some(row) = row_seeing(size, point, down) {
        let column = point.column.saturating_sub(side);
        let right = point.column + side;
        let end = size.columns().min(right + 1);
        let last = first + usize::from(right);
        recode_run(size, words, kind, Point { column, row }, end, last, change);
        mark_run(changed, row, column, end);
    }
}

/// Updates the `words` of all points after a stone was put on `point` or removed, which changed the
/// point's code by exclusive or with `change`. All words are of this `kind`. In each word that has
/// `point` among its cells that cell's code is changed, and the word's point is marked in
/// `changed`.
#[inline(always)]
pub fn recode(
    size: Size,
    words: &mut [ImagedWord],
    changed: &mut [u64],
    kind: Kind,
    point: Point,
    change: u8,
)
    requires extent { IsExtent size }
    requires on_board { IsOn size point }
    requires change { change < 4 }
    requires words { length words.old ≡ size.columns * size.rows }
    requires kinds { AreOfKind kind words.old }
    requires marks { AreMarks size changed.old }
    ensures kinds { AreOfKind kind words.new }
    ensures marks { AreMarks size changed.new }
    ensures stay { (q : Point) → IsMarked changed.old q → IsMarked changed.new q }
    ensures near { (reach : ℕ) →
        list_all (is_away_within reach) (cells_of (rows_of kind)) ≡ true →
        MarksNear reach (point ∷ []) changed.old changed.new }
    ensures differing { DifferingAreMarked size words.old words.new changed.new }
    ensures follow { (position : Position) (stone : Stone) →
        change ≡ bit_xor (stone_code (position point)) (stone_code stone) →
        AreWords kind size position words.old →
        AreWords kind size (placed position point stone) words.new }
{
    for index in 0..row_count(kind) {
        recode_row(size, words, changed, point, kind, index, change);
    }
}

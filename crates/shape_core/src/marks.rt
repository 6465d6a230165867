//! Marks of points whose words have changed (a word codes the pattern round its point): for each
//! row of the board a number with a bit for each column.
ghost use Rattle.std.specs.Prelude.{◌≡◌, ◌<◌, ◌≤◌, length, slice_index};
ghost use Rattle.std.specs.Prelude.{◌⊎◌, EachIndex};
ghost use Rattle.go_board.specs.declared.points.Point.{Point};
ghost use Rattle.go_board.specs.Extent.{Extent};
ghost use Rattle.shape_core.specs.Field.{IsMarked, AreJoined};
ghost use Rattle.shape_core.specs.KeptLists.{AreMarks};
ghost use Rattle.shape_core.specs.Inner.Table.{IsInRun};

/// Marks in `changed` the points of a `row` from column `left` on and before column `end`, both
/// counted from 0.
pub fn mark_run(changed: &mut [u64], row: u8, left: u8, end: u8)
    requires row { row < length changed.old }
    requires columns { left ≤ end }
    requires few { end < 64 }
    ensures marks { (size : Extent) → end ≤ size.columns →
        AreMarks size changed.old → AreMarks size changed.new }
    ensures stay { (q : Point) → IsMarked changed.old q → IsMarked changed.new q }
    ensures there { (q : Point) → IsInRun row left end q → IsMarked changed.new q }
    ensures only { (q : Point) → IsMarked changed.new q →
        IsMarked changed.old q ⊎ IsInRun row left end q }
{
    changed[usize::from(row)] |= (1 << end) - (1 << left);
}

/// Adds the points that are marked in `changed` to both sets `first` and `second`, and unmarks
/// them. All three have a number for each row of the board, whose bit c is for column c, counted
/// from 0.
pub fn move_marks(changed: &mut [u64], first: &mut [u64], second: &mut [u64])
    requires first { length first.old ≡ length changed.old }
    requires second { length second.old ≡ length changed.old }
    ensures first { AreJoined changed.old first.old first.new }
    ensures second { AreJoined changed.old second.old second.new }
    ensures taken { EachIndex changed.new (λ k. slice_index changed.new k ≡ 0) }
{
    for row in 0..changed.len() {
        let marks = changed[row];
        first[row] |= marks;
        second[row] |= marks;
        changed[row] = 0;
    }
}

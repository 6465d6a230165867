//! Groups of joined stones: whether they have a liberty, and their removal.
ghost use Rattle.std.specs.Prelude.{◌≡◌, ◌≢◌, ◌*◌, ◌⊎◌, ◌↔◌, [], length, IsTrue, Contains};
ghost use Rattle.std.specs.Bool.{OnTrue, OnFalse};
ghost use Rattle.go_board.specs.declared.points.Point.{Point};
ghost use Rattle.go_board.specs.declared.points.Stone.TheVariants as kind;
ghost use Rattle.go_board.specs.Point.{IsOn};
ghost use Rattle.go_board.specs.Position.{position_in, AreJoined, IsAlive};
ghost use Rattle.go_board.specs.Play.{Removes, IsCaptured};
ghost use Rattle.go_board.specs.Inner.Groups.{IsDead, HasLiberty, Gathers, IsSurrounded};

use crate::around::neighbours;
use crate::point_sets::PointSet;
use crate::points::{Colour, Point, Size, Stone};

/// Returns whether `point` has an empty neighbour. If it has none, its neighbours with this `stone`
/// are added to `group`; if it has one, some of them may be.
fn visit(size: Size, stones: &[Stone], group: &mut PointSet, stone: Stone, point: Point) -> bool
    requires on_board { IsOn size point }
    requires board { length stones.now ≡ size.columns * size.rows }
    requires sized { group.old.size ≡ size }
    ensures sized { group.new.size ≡ size }
    ensures gathers { Gathers size (position_in size stones.now) stone point group.old.points
        group.new.points }
    ensures liberty { OnTrue result (HasLiberty size (position_in size stones.now) point) }
    ensures surrounded { OnFalse result (IsSurrounded size (position_in size stones.now) stone
        group.new.points point) }
{
    for next in &neighbours(size, point) {
        if let Some(next) = *next {
            let there = stones[size.index(next)];
            if there == Stone::Empty {
                return true;
            }
            if there == stone {
                group.add(next);
            }
        }
    }
    false
}

/// Returns whether the group of the stone on `point` has a liberty. `group` is cleared and used to
/// collect the stones: if there is no liberty, it has the whole group afterwards. It is out of
/// line, so that `remove_if_dead` can be inlined.
#[inline(never)]
pub(crate) fn is_alive(size: Size, stones: &[Stone], group: &mut PointSet, point: Point) -> bool
    requires on_board { IsOn size point }
    requires board { length stones.now ≡ size.columns * size.rows }
    requires sized { group.old.size ≡ size }
    ensures sized { group.new.size ≡ size }
    ensures alive { IsTrue result ↔ IsAlive size (position_in size stones.now) point }
    ensures group { OnFalse result
        ((q : Point) → Contains group.new.points q ↔ AreJoined size (position_in size stones.now)
        point q) }
{
    let stone = stones[size.index(point)];
    group.clear();
    group.add(point);
    let mut next = 0;
    while next < group.len() {
        let member = group.points()[next];
        if visit(size, stones, group, stone, member) {
            return true;
        }
        next += 1;
    }
    false
}

/// Removes the stones at the points of `group` from the board, and adds the points to `removed`.
fn remove(size: Size, stones: &mut [Stone], group: &PointSet, removed: &mut PointSet)
    requires board { length stones.old ≡ size.columns * size.rows }
    requires group_sized { group.now.size ≡ size }
    requires removed_sized { removed.old.size ≡ size }
    ensures removed_sized { removed.new.size ≡ size }
    ensures stones { Removes size (Contains group.now.points) (position_in size stones.old)
        (position_in size stones.new) }
    ensures removed { (q : Point) →
        Contains removed.new.points q ↔ (Contains removed.old.points q
        ⊎ Contains group.now.points q) }
{
    for point in group.points() {
        stones[size.index(*point)] = Stone::Empty;
        removed.add(*point);
    }
}

/// Removes the group of `point` from the board, and adds its points to `removed`, if `stone` stands
/// there and the group has no liberty. `group` is used to collect the stones, and has no meaning
/// afterwards. It is inlined, since most neighbours of a move have no such stone.
#[inline(always)]
pub(crate) fn remove_if_dead(
    size: Size,
    stones: &mut [Stone],
    group: &mut PointSet,
    removed: &mut PointSet,
    stone: Stone,
    point: Point,
)
    requires on_board { IsOn size point }
    requires board { length stones.old ≡ size.columns * size.rows }
    requires group_sized { group.old.size ≡ size }
    requires removed_sized { removed.old.size ≡ size }
    ensures group_sized { group.new.size ≡ size }
    ensures removed_sized { removed.new.size ≡ size }
    ensures stones { Removes size
        (IsDead size (position_in size stones.old) stone point)
        (position_in size stones.old)
        (position_in size stones.new) }
    ensures removed { (q : Point) →
        Contains removed.new.points q
        ↔ (Contains removed.old.points q
        ⊎ IsDead size (position_in size stones.old) stone point q) }
{
    if stones[size.index(point)] == stone && !is_alive(size, stones, group, point) {
        remove(size, stones, group, removed);
    }
}

/// Removes the opponent's stones that a move of `mover` at `point` captures, and adds their points
/// to `removed`, which must be empty. The stone of the move is already on the board. `group` is
/// used to collect stones, and has no meaning afterwards.
pub(crate) fn capture(
    size: Size,
    stones: &mut [Stone],
    group: &mut PointSet,
    removed: &mut PointSet,
    mover: Colour,
    point: Point,
)
    requires on_board { IsOn size point }
    requires board { length stones.old ≡ size.columns * size.rows }
    requires group_sized { group.old.size ≡ size }
    requires removed_sized { removed.old.size ≡ size }
    requires none_removed { removed.old.points ≡ [] }
    ensures group_sized { group.new.size ≡ size }
    ensures removed_sized { removed.new.size ≡ size }
    ensures stones { Removes size
        (IsCaptured size (position_in size stones.old) mover point)
        (position_in size stones.old)
        (position_in size stones.new) }
    ensures removed { (q : Point) →
        Contains removed.new.points q ↔ IsCaptured size (position_in size stones.old) mover point
        q }
{
    let opponent = mover.other().stone();
    for next in &neighbours(size, point) {
        if let Some(next) = *next {
            remove_if_dead(size, stones, group, removed, opponent, next);
        }
    }
}

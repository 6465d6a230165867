//! Boards: stones set and moves played.
use crate::faults::BoardFault;
use crate::groups::{capture, is_alive, remove_if_dead};
use crate::point_sets::PointSet;
use crate::points::{Colour, Point, Size, Stone};
use std::alloc::Global;
use std::marker::Model;

/// How many stones a move removed. At most one of the two numbers is above 0.
#[derive(Clone, Copy, Debug, PartialEq, Eq)]
pub struct Played {
    /// The stones of the other colour.
    pub taken: u32,
    /// The stones of the mover's own colour, the one of the move among them.
    pub own_lost: u32,
}

/// A position on a board, and the points that the last move emptied.
///
/// All memory is taken by `new` and `copied`, for each point of the board.
#[derive(Debug, Drop)]
pub struct Board {
    size: Size,
    /// What stands on each point, row by row from the top, each row from the left.
    stones: Vec<Stone>,
    /// Memory for the group that is looked at; nothing is kept there between calls.
    group: PointSet,
    /// The points that the last `play` emptied.
    removed: PointSet,
}

impl Model for Board {
    ghost use Rattle.go_board.specs.Board.{Stones};
    ghost use Rattle.go_board.specs.Inner.Board.{IsHeld};

    ghost Value = { Stones };

    ghost view = { λ b. record {
      size = b.size;
      stones = b.stones.items;
      removed = b.removed.points;
    } };

    ghost invariant = { λ b. IsHeld b.size b.stones.items b.group.size b.removed };
}

impl Board {
    ghost use Rattle.std.specs.Prelude.{◌≡◌, ◌≢◌, ◌↔◌, [], IsTrue, IfOk};
    ghost use Rattle.go_board.specs.declared.points.Point.{Point};
    ghost use Rattle.go_board.specs.declared.points.Stone.TheVariants as kind;
    ghost use Rattle.go_board.specs.Point.{IsOn};
    ghost use Rattle.go_board.specs.Position.{IsAlive};
    ghost use Rattle.go_board.specs.Play.{SetsOn, PlaysOn};
    ghost use Rattle.go_board.specs.Board.{position_of, IsBoard};

    /// Makes an empty board of this size, from which nothing was removed. It takes memory for each
    /// point of the board.
    ///
    /// # Errors
    ///
    /// `Memory` if memory was refused. No board is made then.
    pub fn new(alloc: Global, size: Size) -> Result<Board, BoardFault>
        ensures size { IfOk result (λ board. board.size ≡ size) }
        ensures empty { IfOk result (λ board. (q : Point) → IsOn size q
            → position_of board q ≡ kind.Empty) }
        ensures removed { IfOk result (λ board. board.removed ≡ []) }
        ensures board { IfOk result IsBoard }
    {
        let stones = vec![in alloc; Stone::Empty; size.area()]?;
        let group = PointSet::new(alloc, size)?;
        let removed = PointSet::new(alloc, size)?;
        Ok(Board {
            size,
            stones,
            group,
            removed,
        })
    }

    /// Makes another board with the same stones, whose `removed` is empty. It takes memory for each
    /// point of the board.
    ///
    /// # Errors
    ///
    /// `Memory` if memory was refused. No board is made then.
    pub fn copied(&self, alloc: Global) -> Result<Board, BoardFault>
        ensures size { IfOk result (λ board. board.size ≡ self.now.size) }
        ensures stones { IfOk result (λ board. board.stones ≡ self.now.stones) }
        ensures removed { IfOk result (λ board. board.removed ≡ []) }
        ensures board { IfOk result IsBoard }
    {
        let mut board = Board::new(alloc, self.size)?;
        board.stones.copy_from_slice(&self.stones);
        Ok(board)
    }

    /// Returns the size of the board.
    pub fn size(&self) -> Size
        ensures value { result ≡ self.now.size }
        ensures board { IsBoard self.now }
    {
        self.size
    }

    /// Returns what stands on a point: a stone of either colour, or `Stone::Empty`. The point is on
    /// the board.
    pub fn cell(&self, point: Point) -> Stone
        requires { IsOn self.now.size point }
        ensures value { result ≡ position_of self.now point }
        ensures board { IsBoard self.now }
    {
        self.stones[self.size.index(point)]
    }

    /// Puts a stone on a point, or empties it, whatever stood there; nothing is captured. The point
    /// is on the board.
    pub fn set(&mut self, point: Point, stone: Stone)
        requires { IsOn self.old.size point }
        ensures sets { SetsOn self.old point stone self.new }
        ensures board { IsBoard self.new }
    {
        let index = self.size.index(point);
        self.stones[index] = stone;
    }

    /// Plays a move, by the rule of capture: the stone is placed, whatever stood there; then each
    /// group of the other colour that is next to it and has no liberty is removed; then its own
    /// group, if that has none. Returns how many stones were removed. The point is on the board.
    ///
    /// It takes no memory, and its time is that of the groups that it looks at.
    pub fn play(&mut self, colour: Colour, point: Point) -> Played
        requires { IsOn self.old.size point }
        ensures plays { PlaysOn self.old colour point self.new result }
        ensures board { IsBoard self.new }
    {
        let size = self.size;
        self.stones[size.index(point)] = colour.stone();
        self.removed.clear();
        capture(
            size,
            &mut self.stones,
            &mut self.group,
            &mut self.removed,
            colour,
            point,
        );
        let taken = self.removed.len();
        if taken == 0 {
            let own = colour.stone();
            remove_if_dead(
                size,
                &mut self.stones,
                &mut self.group,
                &mut self.removed,
                own,
                point,
            );
        }
        let own_lost = self.removed.len() - taken;
        Played {
            taken: taken as u32,
            own_lost: own_lost as u32,
        }
    }

    /// Whether the group of the stone on a point has a liberty: an empty neighbour of one of its
    /// stones. The point is on the board, and a stone stands there. The position does not change,
    /// nor do the points that `removed` lists.
    pub fn has_liberty(&mut self, point: Point) -> bool
        requires on_board { IsOn self.old.size point }
        requires stone { position_of self.old point ≢ kind.Empty }
        ensures alive { IsTrue result ↔ IsAlive self.old.size (position_of self.old) point }
        ensures same { self.new ≡ self.old }
    {
        is_alive(self.size, &self.stones, &mut self.group, point)
    }

    /// Returns the points that the last `play` emptied, each once; none before the first `play`.
    /// `set` and `has_liberty` do not change them.
    pub fn removed(&self) -> &[Point]
        ensures value { result.now ≡ self.now.removed }
        ensures board { IsBoard self.now }
    {
        self.removed.points()
    }
}

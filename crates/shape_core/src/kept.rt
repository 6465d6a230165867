//! The words of all points of a board, kept up to date as stones change, and the marks of the
//! points whose words have changed.
ghost use Rattle.std.specs.Prelude.{◌≡◌, ◌<◌, ◌*◌, ◌%◌, ◌/◌, ℕ, length, slice_index, IfOk, All};
ghost use Rattle.std.specs.Prelude.{[], ◌∷◌};
ghost use Rattle.go_board.specs.declared.points.Point.{Point};
ghost use Rattle.go_board.specs.Board.{position_of};
ghost use Rattle.go_board.specs.Point.{IsOn};
ghost use Rattle.go_board.specs.Position.{Position, placed};
ghost use Rattle.shape_core.specs.Around.{word_around};
ghost use Rattle.shape_core.specs.Field.{IsMarked, MarksNear, reach_of};
ghost use Rattle.shape_core.specs.Inner.KeptLists.{AreWords, AreOfKind, emptied};

use crate::imaged::ImagedWord;
use crate::keeping::recode;
use crate::surroundings::{around, code_of, diamond};
use crate::words::{Kind, Kinds, Word};
use go_board::{Board, Point, Size, Stone};
use std::alloc::{AllocError, Global};

/// The cell in the middle of a pattern, of either kind.
const MIDDLE: usize = 12;

/// The words of a board's points, and the marks of the points whose words have changed.
#[derive(Drop)]
pub struct KeptWords {
    pub size: Size,
    pub kinds: Kinds,
    /// The words of the squares with their images, row by row from the top, each row from the left.
    pub squares: Vec<ImagedWord>,
    /// The words of the diamonds with their images, in the order of `squares`. Empty if diamonds
    /// are not kept.
    pub diamonds: Vec<ImagedWord>,
    /// For each row a number, whose bit c is set if the point in column c, counted from 0, is
    /// marked.
    pub changed: Vec<u64>,
}

impl KeptWords {
    ghost use Rattle.shape_core.specs.Inner.Keeping.{HasRoom, Follows, Changes};

    /// Computes the words of these `kinds` of all points of `board` as it is, with no point marked.
    /// It takes memory for each point of the board; `AllocError` if that is refused.
    pub fn new(alloc: Global, board: &Board, kinds: Kinds) -> Result<KeptWords, AllocError>
        ensures size { IfOk result (λ kept. kept.size ≡ board.now.size) }
        ensures kinds { IfOk result (λ kept. kept.kinds ≡ kinds) }
        ensures room { IfOk result HasRoom }
        ensures follow { IfOk result (λ kept. Follows kept (position_of board.now)) }
        ensures unmarked { IfOk result (λ kept. (q : Point) → ¬ IsMarked kept.changed.items q) }
    {
        let size = board.size();
        let squares = words_of(alloc, board, Kind::Square)?;
        let diamonds = match kinds {
            Kinds::Squares => Vec::new(alloc),
            Kinds::Both => words_of(alloc, board, Kind::Diamond)?,
        };
        let changed = vec![in alloc; 0; usize::from(size.rows())]?;
        Ok(KeptWords {
            size,
            kinds,
            squares,
            diamonds,
            changed,
        })
    }

    /// Makes a copy of the words and of the marks of changed points. It takes memory for each point
    /// of the board; `AllocError` if that is refused.
    pub fn copied(&self, alloc: Global) -> Result<KeptWords, AllocError>
        requires room { HasRoom self.now }
        ensures size { IfOk result (λ kept. kept.size ≡ self.now.size) }
        ensures kinds { IfOk result (λ kept. kept.kinds ≡ self.now.kinds) }
        ensures room { IfOk result HasRoom }
        ensures squares { IfOk result (λ kept. kept.squares.items ≡ self.now.squares.items) }
        ensures diamonds { IfOk result (λ kept. kept.diamonds.items ≡ self.now.diamonds.items) }
        ensures changed { IfOk result (λ kept. kept.changed.items ≡ self.now.changed.items) }
    {
        Ok(KeptWords {
            size: self.size,
            kinds: self.kinds,
            squares: list_of(alloc, &self.squares)?,
            diamonds: list_of(alloc, &self.diamonds)?,
            changed: list_of(alloc, &self.changed)?,
        })
    }

    /// Updates the words after `stone` was set on `point`, or after the point was emptied
    /// (`Stone::Empty`), and marks each point of which a kept word changes.
    pub fn change(&mut self, point: Point, stone: Stone)
        requires on_board { IsOn self.old.size point }
        requires room { HasRoom self.old }
        ensures room { HasRoom self.new }
        ensures change { Changes self.old self.new }
        ensures follow { (position : Position) →
            Follows self.old position → Follows self.new (placed position point stone) }
        ensures near { MarksNear (reach_of self.old.kinds) (point ∷ [])
            self.old.changed.items self.new.changed.items }
        ensures still { (position : Position) →
            Follows self.old position → position point ≡ stone → self.new ≡ self.old }
    {
        let change = self.squares[self.size.index(point)].word().code(MIDDLE) ^ code_of(stone);
        if change != 0 {
            recode(
                self.size,
                &mut self.squares,
                &mut self.changed,
                Kind::Square,
                point,
                change,
            );
            if let Kinds::Both = self.kinds {
                recode(
                    self.size,
                    &mut self.diamonds,
                    &mut self.changed,
                    Kind::Diamond,
                    point,
                    change,
                );
            }
        }
    }

    /// Updates the words after these points were emptied, and marks each point of which a kept word
    /// changes.
    pub fn empty(&mut self, points: &[Point])
        requires on_board { All (IsOn self.old.size) points.now }
        requires room { HasRoom self.old }
        ensures room { HasRoom self.new }
        ensures change { Changes self.old self.new }
        ensures follow { (position : Position) →
            Follows self.old position → Follows self.new (emptied position points.now) }
        ensures near { MarksNear (reach_of self.old.kinds) points.now
            self.old.changed.items self.new.changed.items }
    {
        for point in points {
            self.change(*point, Stone::Empty);
        }
    }
}

/// Copies these `items` into a new list. It takes memory for them; `AllocError` if that is refused.
fn list_of<T: Copy>(alloc: Global, items: &[T]) -> Result<Vec<T>, AllocError>
    ensures { IfOk result (λ list. list.items ≡ items.now) }
{
    let mut list = Vec::new(alloc);
    list.extend_from_slice(items)?;
    Ok(list)
}

/// Returns the words of this kind, with their images, of all points of a board: row by row from the
/// top, each row from the left. It takes memory for each point; `AllocError` if that is refused.
fn words_of(alloc: Global, board: &Board, kind: Kind) -> Result<Vec<ImagedWord>, AllocError>
    ensures words { IfOk result (λ words. AreWords kind board.now.size (position_of board.now)
        words.items) }
    ensures kinds { IfOk result (λ words. AreOfKind kind words.items) }
{
    let size = board.size();
    let mut words = Vec::with_capacity(alloc, size.area())?;
    for index in 0..size.area() {
        words.push(ImagedWord::new(word_at(board, size.point(index), kind)))?;
    }
    Ok(words)
}

/// Computes the word of a point's pattern of this `kind`.
fn word_at(board: &Board, point: Point, kind: Kind) -> Word
    requires { IsOn board.now.size point }
    ensures { result ≡ word_around kind board.now.size (position_of board.now) point }
{
    match kind {
        Kind::Square => around(board, point),
        Kind::Diamond => diamond(board, point),
    }
}

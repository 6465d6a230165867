//! Fields: boards that keep the pattern words of all their points.
use crate::empty_points::EmptyPoints;
use crate::kept::KeptWords;
use crate::marks::move_marks;
use crate::shapes::{Shape, least_seen};
use crate::words::{Kind, Kinds, Word};
use go_board::{Board, BoardFault, Colour, Played, Point, Replayable, Size, Stone};
use std::alloc::Global;
use std::marker::Model;

/// A board that keeps the pattern words of all its points up to date. It marks the points whose
/// words have changed since the last `move_changed`.
///
/// All memory is taken by `new`, `with_kinds` and `copied`.
#[derive(Drop)]
pub struct Field {
    board: Board,
    /// The words of all points, and the marks of those whose words have changed.
    kept: KeptWords,
    /// The empty points, as bits of the rows.
    empties: EmptyPoints,
}

impl Model for Field {
    ghost use Rattle.shape_core.specs.Field.{Kept};
    ghost use Rattle.shape_core.specs.Inner.Keeping.{IsField};

    ghost Value = { Kept };

    ghost view = { λ f. record {
      board = f.board;
      kinds = f.kept.kinds;
      changed = f.kept.changed.items;
    } };

    ghost invariant = { λ f. IsField f.board f.kept f.empties };
}

impl Field {
    ghost use Rattle.std.specs.Prelude.{◌≡◌, ◌<◌, [], ◌∷◌, length, IfOk};
    ghost use Rattle.go_board.specs.declared.points.Point.{Point};
    ghost use Rattle.go_board.specs.declared.points.Stone.TheVariants as stone;
    ghost use Rattle.go_board.specs.Point.{IsOn};
    ghost use Rattle.go_board.specs.Play.{SetsOn, PlaysOn, stone_of};
    ghost use Rattle.go_board.specs.Board.{position_of, IsBoard};
    ghost use Rattle.shape_core.specs.declared.words.Kind.TheVariants as kind;
    ghost use Rattle.shape_core.specs.Around.{word_around};
    ghost use Rattle.shape_core.specs.Symmetry.{canonical_of};
    ghost use Rattle.shape_core.specs.Field.{IsMarked, MarksChanges};
    ghost use Rattle.shape_core.specs.Field.{AreJoined, MarksNear, reach_of, AreEmptyColumns};
    ghost use Rattle.shape_core.specs.KeptLists.{AreMarks};

    /// Makes an empty board of this size, which keeps the words of squares and of diamonds, with no
    /// point marked.
    ///
    /// It takes memory for each point of the board.
    ///
    /// # Errors
    ///
    /// `BoardFault::Memory` if memory was refused. No field is made then.
    pub fn new(alloc: Global, size: Size) -> Result<Field, BoardFault>
        ensures size { IfOk result (λ field. field.board.size ≡ size) }
        ensures empty { IfOk result
            (λ field. (q : Point) → IsOn size q → position_of field.board q ≡ stone.Empty) }
        ensures removed { IfOk result (λ field. field.board.removed ≡ []) }
        ensures kinds { IfOk result (λ field. field.kinds ≡ Kinds.Both) }
        ensures unmarked { IfOk result (λ field. (q : Point) → ¬ IsMarked field.changed q) }
        ensures board { IfOk result (λ field. IsBoard field.board) }
    {
        Field::with_kinds(alloc, size, Kinds::Both)
    }

    /// Makes an empty board of this size, which keeps the words of these `kinds` of pattern, with
    /// no point marked.
    ///
    /// It takes memory for each point of the board.
    ///
    /// # Errors
    ///
    /// `BoardFault::Memory` if memory was refused. No field is made then.
    pub fn with_kinds(alloc: Global, size: Size, kinds: Kinds) -> Result<Field, BoardFault>
        ensures size { IfOk result (λ field. field.board.size ≡ size) }
        ensures empty { IfOk result
            (λ field. (q : Point) → IsOn size q → position_of field.board q ≡ stone.Empty) }
        ensures removed { IfOk result (λ field. field.board.removed ≡ []) }
        ensures kinds { IfOk result (λ field. field.kinds ≡ kinds) }
        ensures unmarked { IfOk result (λ field. (q : Point) → ¬ IsMarked field.changed q) }
        ensures board { IfOk result (λ field. IsBoard field.board) }
    {
        let board = Board::new(alloc, size)?;
        let kept = KeptWords::new(alloc, &board, kinds)?;
        let empties = EmptyPoints::new(alloc, size)?;
        Ok(Field {
            board,
            kept,
            empties,
        })
    }

    /// Makes another field with the same stones, words and marked points, whose `removed` is empty.
    /// It takes memory for each point of the board.
    ///
    /// # Errors
    ///
    /// `BoardFault::Memory` if memory was refused. No field is made then.
    pub fn copied(&self, alloc: Global) -> Result<Field, BoardFault>
        ensures size { IfOk result (λ field. field.board.size ≡ self.now.board.size) }
        ensures stones { IfOk result (λ field. field.board.stones ≡ self.now.board.stones) }
        ensures removed { IfOk result (λ field. field.board.removed ≡ []) }
        ensures kinds { IfOk result (λ field. field.kinds ≡ self.now.kinds) }
        ensures marks { IfOk result (λ field. field.changed ≡ self.now.changed) }
        ensures board { IfOk result (λ field. IsBoard field.board) }
    {
        let board = self.board.copied(alloc)?;
        let kept = self.kept.copied(alloc)?;
        let empties = self.empties.copied(alloc)?;
        Ok(Field {
            board,
            kept,
            empties,
        })
    }

    /// Returns the size of the board.
    pub fn size(&self) -> Size
        ensures value { result ≡ self.now.board.size }
        ensures board { IsBoard self.now.board }
    {
        self.board.size()
    }

    /// Returns the kinds of pattern whose words are kept: squares alone, or diamonds too.
    pub fn kinds(&self) -> Kinds
        ensures { result ≡ self.now.kinds }
    {
        self.kept.kinds
    }

    /// Returns what stands on a point: a stone of either colour, or `Stone::Empty`. The point is on
    /// the board.
    pub fn cell(&self, point: Point) -> Stone
        requires { IsOn self.now.board.size point }
        ensures value { result ≡ position_of self.now.board point }
        ensures board { IsBoard self.now.board }
    {
        self.board.cell(point)
    }

    /// Returns the empty points of a row: bit c of the number is set if the point in column c,
    /// counted from 0, is empty. The row is one of the board's.
    pub fn empty_columns(&self, row: u8) -> u64
        requires { row < self.now.board.size.rows }
        ensures columns { AreEmptyColumns self.now.board.size (position_of self.now.board) row
            result }
        ensures board { IsBoard self.now.board }
    {
        self.empties.rows[usize::from(row)]
    }

    /// Returns the points that the last `play` emptied, each once; none before the first `play`.
    /// `set` does not change them.
    pub fn removed(&self) -> &[Point]
        ensures value { result.now ≡ self.now.board.removed }
        ensures board { IsBoard self.now.board }
    {
        self.board.removed()
    }

    /// Returns the word of a point's square, as the board is now. The point is on the board.
    pub fn word(&self, point: Point) -> Word
        requires { IsOn self.now.board.size point }
        ensures { result
            ≡ word_around kind.Square self.now.board.size (position_of self.now.board) point }
    {
        self.kept.squares[self.kept.size.index(point)].word()
    }

    /// Returns the word of a point's diamond, as the board is now. The point is on the board, and
    /// diamonds are kept.
    pub fn diamond(&self, point: Point) -> Word
        requires on_board { IsOn self.now.board.size point }
        requires kept { self.now.kinds ≡ Kinds.Both }
        ensures { result
            ≡ word_around kind.Diamond self.now.board.size (position_of self.now.board) point }
    {
        self.kept.diamonds[self.kept.size.index(point)].word()
    }

    /// Returns the canonical pattern of a point's square with `mover` to move: the least of its
    /// word's eight images under the symmetries, for White after the colours are exchanged. The
    /// point is on the board. Takes no memory.
    #[inline(always)]
    pub fn canonical(&self, point: Point, mover: Colour) -> Shape
        requires { IsOn self.now.board.size point }
        ensures { result ≡ canonical_of
            (word_around kind.Square self.now.board.size (position_of self.now.board) point)
            mover }
    {
        let word = self.kept.squares[self.kept.size.index(point)];
        least_seen(word, Kind::Square, mover)
    }

    /// Returns the canonical pattern of a point's diamond with `mover` to move: the least of its
    /// word's eight images under the symmetries, for White after the colours are exchanged. The
    /// point is on the board, and diamonds are kept. Takes no memory.
    pub fn canonical_diamond(&self, point: Point, mover: Colour) -> Shape
        requires on_board { IsOn self.now.board.size point }
        requires kept { self.now.kinds ≡ Kinds.Both }
        ensures { result ≡ canonical_of
            (word_around kind.Diamond self.now.board.size (position_of self.now.board) point)
            mover }
    {
        let word = self.kept.diamonds[self.kept.size.index(point)];
        least_seen(word, Kind::Diamond, mover)
    }

    /// Adds the marked points, whose words have changed since the last call, to both sets `first`
    /// and `second`, and unmarks all points. A set has a number for each row of the board, whose
    /// bit c is for column c, counted from 0.
    pub fn move_changed(&mut self, first: &mut [u64], second: &mut [u64])
        requires first { length first.old ≡ self.old.board.size.rows }
        requires second { length second.old ≡ self.old.board.size.rows }
        ensures board { self.new.board ≡ self.old.board }
        ensures kinds { self.new.kinds ≡ self.old.kinds }
        ensures marks { AreMarks self.old.board.size self.old.changed }
        ensures first { AreJoined self.old.changed first.old first.new }
        ensures second { AreJoined self.old.changed second.old second.new }
        ensures taken { (q : Point) → ¬ IsMarked self.new.changed q }
    {
        move_marks(&mut self.kept.changed, first, second);
    }

    /// Puts a stone on a point, or empties it, whatever stood there; nothing is captured. The point
    /// is on the board.
    ///
    /// Each point of which a kept word changes is marked, and no point that is more than two
    /// columns or rows away, three if diamonds are kept. No point is marked if `stone` stood there
    /// already. Takes no memory.
    pub fn set(&mut self, point: Point, stone: Stone)
        requires { IsOn self.old.board.size point }
        ensures sets { SetsOn self.old.board point stone self.new.board }
        ensures board { IsBoard self.new.board }
        ensures kinds { self.new.kinds ≡ self.old.kinds }
        ensures marks { MarksChanges self.old self.new }
        ensures near { MarksNear (reach_of self.old.kinds) (point ∷ [])
            self.old.changed self.new.changed }
        ensures still { position_of self.old.board point ≡ stone
            → self.new.changed ≡ self.old.changed }
    {
        self.board.set(point, stone);
        self.kept.change(point, stone);
        self.empties.put(point, stone);
    }

    /// Plays a move, as the board does: the stone is placed, whatever stood there; then each group
    /// of the other colour that is next to it and has no liberty is removed; then its own group, if
    /// that has none. Returns how many stones were removed. The point is on the board.
    ///
    /// Each point of which a kept word changes is marked, and no point that is more than two
    /// columns or rows away, three if diamonds are kept, from the move's point and from all that
    /// were emptied. Takes no memory.
    pub fn play(&mut self, colour: Colour, point: Point) -> Played
        requires { IsOn self.old.board.size point }
        ensures plays { PlaysOn self.old.board colour point self.new.board result }
        ensures board { IsBoard self.new.board }
        ensures kinds { self.new.kinds ≡ self.old.kinds }
        ensures marks { MarksChanges self.old self.new }
        ensures near { MarksNear (reach_of self.old.kinds) (point ∷ self.new.board.removed)
            self.old.changed self.new.changed }
        ensures still { position_of self.old.board point ≡ stone_of colour
            → MarksNear (reach_of self.old.kinds) self.new.board.removed
            self.old.changed self.new.changed }
    {
        let played = self.board.play(colour, point);
        self.kept.change(point, colour.stone());
        self.kept.empty(self.board.removed());
        self.empties.put(point, colour.stone());
        self.empties.empty(self.board.removed());
        played
    }
}

impl Replayable for Field {
    ghost use Rattle.shape_core.specs.Tracks.{Tracks, tracks_itself, tracks_on, MarksOnlyNear};

    ghost board_of = { λ field. field.board };

    ghost Stays = { Tracks };

    ghost stays = { tracks_itself };

    ghost stays_on = { tracks_on };

    ghost Touches = { MarksOnlyNear };

    fn put(&mut self, point: Point, stone: Stone) {
        self.set(point, stone);
    }

    fn play_move(&mut self, colour: Colour, point: Point) -> Played {
        self.play(colour, point)
    }
}

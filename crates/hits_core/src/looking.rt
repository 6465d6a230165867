//! The patterns of a point that are looked for.
ghost use Rattle.std.specs.Prelude.{◌≡◌, map, IfErr, OnOk};
ghost use Rattle.go_board.specs.Point.{IsOn};
ghost use Rattle.go_board.specs.Board.{position_of};
ghost use Rattle.tally_core.specs.declared.faults.TallyFault.TheVariants as fault;
ghost use Rattle.hits_core.specs.Wanted.{wanted_at};
ghost use Rattle.hits_core.specs.Inner.Finding.{patterns_in, hit_in, GrowsBy};

use crate::found::Found;
use crate::games::Game;
use crate::hits::Hit;
use crate::wanted::Wanted;
use go_board::{Board, Colour, Point};
use shape_core::{Field, Kinds, Shape, around, canonical, diamond, kinds_stay};
use tally_core::TallyFault;

/// The wanted patterns of one point: its square and its diamond, each None if it is not one that is
/// looked for.
#[derive(Clone, Copy)]
pub(crate) struct Sight {
    pub(crate) square: Option<Shape>,
    pub(crate) diamond: Option<Shape>,
}

/// A move onto an empty point: the number of its game, the byte index at which that game's tree
/// begins, the rows of the board, the number of the move in the game, and the player who moves.
#[derive(Clone, Copy)]
pub(crate) struct Moment {
    pub(crate) game: u64,
    pub(crate) place: usize,
    pub(crate) rows: u8,
    pub(crate) number: u64,
    pub(crate) mover: Colour,
}

/// Returns the wanted patterns that `point` has for the player `mover`: its square and its diamond
/// in canonical form, each None if it is not one of `wanted`.
pub(crate) fn see_board(board: &Board, wanted: &Wanted, mover: Colour, point: Point) -> Sight
    requires { IsOn board.now.size point }
    ensures { patterns_in result
        ≡ wanted_at wanted.now board.now.size (position_of board.now) mover point }
{
    // For the proof: the canonical form of a square is a square, and of a diamond a diamond.
    kinds_stay();
    let square = wanted.pick(canonical(around(board, point), mover));
    let diamond = match wanted.kinds() {
        Kinds::Squares => None,
        Kinds::Both => wanted.pick(canonical(diamond(board, point), mover)),
    };
    Sight { square, diamond }
}

/// Adds to `found` a hit for each pattern in `sight`, the wanted patterns that `point` has before
/// the move `moment`. Nothing is added once `found` has as many hits as are asked for. The only
/// error is `Memory`: memory was refused.
pub(crate) fn push_sight(
    found: &mut Found,
    moment: Moment,
    point: Point,
    sight: Sight,
) -> Result<(), TallyFault>
    ensures grown { OnOk result
        (GrowsBy found.old found.new (map (hit_in moment point) (patterns_in sight))) }
    ensures fault { IfErr result (λ found. found ≡ fault.Memory) }
{
    if let Some(word) = sight.square {
        found.push(moment.hit(point, word))?;
    }
    if let Some(word) = sight.diamond {
        found.push(moment.hit(point, word))?;
    }
    Ok(())
}

impl Moment {
    ghost use Rattle.std.specs.Prelude.{◌≡◌};
    ghost use Rattle.hits_core.specs.Inner.Finding.{hit_in, moment_on};

    /// Returns the moment of a move of `game`: its number in the game is `number`, and `mover`
    /// plays it.
    pub(crate) fn of(game: &Game, number: u64, mover: Colour) -> Moment
        ensures { result ≡ moment_on game.now number mover }
    {
        Moment {
            game: game.number,
            place: game.place,
            rows: game.recorded.size().rows(),
            number,
            mover,
        }
    }

    /// Returns the hit of the pattern `word`, which the point `at` has before this move.
    fn hit(self, at: Point, word: Shape) -> Hit
        ensures { result ≡ hit_in self at word }
    {
        Hit {
            game: self.game,
            number: self.number,
            at,
            mover: self.mover,
            place: self.place,
            rows: self.rows,
            word,
        }
    }
}

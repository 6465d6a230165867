//! `board`: from the bytes of a collection to the final position of its first game.
ghost use Rattle.std.specs.Prelude.{◌≡◌, ◌⊎◌, IfOk, IfErr, IfSome, IfNone};
ghost use Rattle.std.specs.Io.KnownBytes.{Keeps};
ghost use Rattle.engine_core.specs.Boards.{position_text, IsFinal, IsBoardText, HasNoBoard};
ghost use Rattle.engine_core.specs.Boards.{IsBoardFault};
ghost use Rattle.engine_core.specs.Runs.{HasRead, Wrote, IsRunFault, input_of};
ghost use Rattle.go_board.specs.Position.{Position};
ghost use Rattle.go_board.specs.declared.faults.BoardFault.TheVariants as board_fault;
ghost use Rattle.engine_core.specs.declared.faults.RunFault.TheVariants as fault;
ghost use Rattle.engine_core.specs.declared.boards.Outcome.TheVariants as outcome;

use crate::faults::RunFault;
use crate::input::read_input;
use crate::output::write_output;
use crate::text::board_text;
use go_board::{Board, BoardFault};
use go_record::{Kind, Record, read_record, replay};
use sgf_core::Trees;
use std::alloc::Global;
use std::io::{Read, Write};

/// Whether a run found what it was asked for: `Done` if it did, else `NotFound`.
#[derive(Clone, Copy, Debug, PartialEq, Eq)]
pub enum Outcome {
    Done,
    NotFound,
}

/// Replays a game, and returns the text of its final position: `.`, `X` and `O`, a line for each
/// row.
fn final_text(alloc: Global, game_record: &Record) -> Result<Vec<u8>, RunFault>
    ensures text { IfOk result (λ text. (final : Position) × IsFinal game_record.now final
        × (text.items ≡ position_text game_record.now.size final)) }
    ensures fault { IfErr result (λ found. (found ≡ fault.Memory)
        ⊎ (found ≡ fault.Board board_fault.Memory)) }
{
    let mut board = Board::new(alloc, game_record.size())?;
    replay(&mut board, game_record.actions());
    Ok(board_text(alloc, &board)?)
}

/// Returns the text of the final position of the game in the first tree of `input`. None if there
/// is no tree or it is of another game than Go.
#[tactic(auto, using(crate::proofs::Runs::sgf_cause))]
fn first_text(alloc: Global, input: &[u8]) -> Result<Option<Vec<u8>>, RunFault>
    ensures text { IfOk result (λ found. IfSome found (λ text. IsBoardText input.now text.items)) }
    ensures none { IfOk result (λ found. IfNone found (HasNoBoard input.now)) }
    ensures fault { IfErr result (IsBoardFault input.now) }
{
    let mut trees = Trees::new(input)?;
    let Some(tree) = trees.next_tree(alloc)? else {
        return Ok(None);
    };
    match read_record(alloc, &tree)? {
        Kind::Go(game_record) => Ok(Some(final_text(alloc, &game_record)?)),
        Kind::Other => Ok(None),
    }
}

/// Reads a collection and writes the final position of its first game: its rows from the top, `.`
/// for an empty point, `X` for Black, `O` for White, each row ended by a line feed. Bytes after the
/// first tree are not checked. If there is no tree, or the first is of another game than Go, it
/// writes nothing and returns `NotFound`.
///
/// # Errors
///
/// `Sgf` if the collection has more than 2^28 bytes (S4), its first tree has a fault of syntax (S1
/// to S3), or memory for the tree was refused (S5). `Record` if the game's size or one of its
/// points is bad (G1 to G3), or memory for its record was refused (G4). `Board` if memory for the
/// board was refused (B1). `Read` if the reader failed, `Memory` if memory for the input or the
/// text was refused. Nothing is written in these cases. `Write` if the writer failed: exactly
/// `written` bytes of the text were written.
pub fn run_board<R: Read, W: Write>(
    alloc: Global,
    reader: &mut R,
    writer: &mut W,
) -> Result<Outcome, RunFault>
    ensures read { HasRead result (R.remaining reader.old) (R.remaining reader.new) }
    ensures done { IfOk result (λ found. found ≡ outcome.Done
        → Wrote IsBoardText (R.remaining reader.old) (W.contents writer.old)
        (W.contents writer.new)) }
    ensures not_found { IfOk result (λ found. found ≡ outcome.NotFound
        → IfSome (R.remaining reader.old) (λ all. HasNoBoard (input_of all))) }
    ensures nothing { IfOk result (λ found. found ≡ outcome.NotFound
        → Keeps (W.contents writer.old) (W.contents writer.new)) }
    ensures fault { IfErr result (IsRunFault IsBoardText IsBoardFault (R.remaining reader.old)
        (W.contents writer.old) (W.contents writer.new)) }
{
    let input = read_input(alloc, reader)?;
    let Some(text) = first_text(alloc, &input)? else {
        return Ok(Outcome::NotFound);
    };
    write_output(writer, &text)?;
    Ok(Outcome::Done)
}

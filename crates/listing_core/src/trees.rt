//! The trees of an input, read one after another, and the line of each.
ghost use Rattle.std.specs.Prelude.{◌≡◌, ◌≤◌, List, length, IfOk, IfErr, Result, Ok};
ghost use Rattle.sgf_core.specs.Tree.{GameTree, Node, main_line_of};
ghost use Rattle.sgf_core.specs.Marks.{marks_of};
ghost use Rattle.go_record.specs.Adding.{IsRecordOrMemory};
ghost use Rattle.go_record.specs.Record.{record_of};
ghost use Rattle.go_record.specs.declared.records.Kind.{Kind};
ghost use Rattle.go_record.specs.declared.records.Kind.TheVariants as kind;
ghost use Rattle.go_record.specs.declared.faults.RecordFault.{RecordFault};
ghost use Rattle.listing_core.specs.Listing.{IsWhat, number_of};
ghost use Rattle.listing_core.specs.Inner.Reading.{IsLineOf, IsTreeStep, IsStep};
ghost use Rattle.listing_core.specs.Inner.Wants.{Wants, NextWants};
ghost use Rattle.listing_core.specs.declared.wants.Want.TheVariants as want;

use crate::asked::Asked;
use crate::choosing::push_piece;
use crate::lines::{Line, What};
use crate::occasions::{count_occasions, moves_in};
use crate::wants::Want;
use go_board::Board;
use go_record::{Kind, Record, RecordFault, read_record};
use sgf_core::{SgfFault, Tree, Trees};
use std::alloc::Global;

/// What one step of a listing found.
#[derive(Clone, Copy)]
pub(crate) enum Step {
    /// A tree with this line.
    Tree(Line),
    /// No tree was left.
    End,
    /// The next tree has this fault of syntax.
    Fault(SgfFault),
}

/// Returns what a game is: its board's size, how many moves and passes it has, and how many moves
/// onto empty points. The error is `Board`: memory for a board was refused.
fn game_of(alloc: Global, game_record: &Record) -> Result<What, Want>
    ensures what { IfOk result (IsWhat (Ok (kind.Go game_record.now))) }
    ensures wanted { IfErr result (λ found. found ≡ want.Board) }
{
    let mut board = Board::new(alloc, game_record.size())?;
    let actions = game_record.actions();
    let occasions = count_occasions(&mut board, actions);
    Ok(What::Game {
        size: game_record.size(),
        moves: moves_in(actions),
        occasions,
    })
}

/// Returns what a tree is, by `recorded`, the result of reading its record. The error is `Record`
/// if memory for that record was refused, and `Board` if memory for a board was refused.
fn what_of(alloc: Global, recorded: Result<Kind, RecordFault>) -> Result<What, Want>
    ensures what { (line : List Node) → IsRecordOrMemory line recorded
        → IfOk result (IsWhat (record_of line)) }
    ensures wanted { (line : List Node) → IsRecordOrMemory line recorded
        → IfErr result (Wants line) }
{
    match recorded {
        Ok(Kind::Go(game_record)) => game_of(alloc, &game_record),
        Ok(Kind::Other) => Ok(What::Other),
        Err(RecordFault::Memory) => Err(Want::Record),
        Err(fault) => Ok(What::Refused(fault)),
    }
}

/// Returns the number of a tree, which is `next`, the number of the next game, if it is a game;
/// else None.
fn number_of(what: &What, next: u64) -> Option<u64>
    ensures { (recorded : Result Kind RecordFault) → IsWhat recorded what.now
        → result ≡ number_of recorded next }
{
    match what {
        What::Game { .. } => Some(next),
        What::Other | What::Refused(_) => None,
    }
}

/// Returns the line that lists `tree`: its number if it is a game, where its bytes begin and end,
/// and `what` it is. `next` is the number of the next game.
fn line_of(tree: &Tree<'_>, next: u64, what: What) -> Line
    ensures line { (recorded : Result Kind RecordFault) → IsWhat recorded what
        → IsLineOf recorded next result }
    ensures bounds { (result.from ≡ tree.now.at) × (result.to ≡ tree.now.end) }
{
    Line {
        number: number_of(&what, next),
        from: tree.at(),
        to: tree.end(),
        what,
    }
}

/// Reads what `tree` is, appends what is written of it to `text`, and returns its line. `next` is
/// the number that the tree has if it is a game. The error says what memory was refused for.
fn push_tree(
    alloc: Global,
    asked: &Asked<'_>,
    input: &[u8],
    tree: &Tree<'_>,
    next: u64,
    text: &mut Vec<u8>,
) -> Result<Line, Want>
    requires { tree.now.end ≤ length input.now }
    ensures tree { (game : GameTree) → tree.now.marks ≡ marks_of game
        → IfOk result (IsTreeStep asked.now input.now tree.now game next text.old.items
        text.new.items) }
    ensures wanted { (game : GameTree) → tree.now.marks ≡ marks_of game
        → IfErr result (Wants (main_line_of game)) }
{
    let what = what_of(alloc, read_record(alloc, tree))?;
    let line = line_of(tree, next, what);
    push_piece(alloc, asked, input, tree, &line, text)?;
    Ok(line)
}

/// Reads the next tree, appends what is written of it to `text`, and returns whether there was a
/// tree, none was left, or it had a fault of syntax. `trees` reads the bytes of `input`; `next` is
/// the number of the next game. The error says what memory was refused for.
pub(crate) fn push_next_tree(
    alloc: Global,
    asked: &Asked<'_>,
    input: &[u8],
    trees: &mut Trees<'_>,
    next: u64,
    text: &mut Vec<u8>,
) -> Result<Step, Want>
    requires { trees.old.bytes ≡ input.now }
    ensures step { IfOk result
        (IsStep asked.now trees.old trees.new next text.old.items text.new.items) }
    ensures wanted { IfErr result (NextWants trees.old.bytes trees.old.from) }
{
    match trees.next_tree(alloc) {
        Ok(Some(tree)) => Ok(Step::Tree(push_tree(alloc, asked, input, &tree, next, text)?)),
        Ok(None) => Ok(Step::End),
        Err(SgfFault::Memory) => Err(Want::Tree),
        Err(fault) => Ok(Step::Fault(fault)),
    }
}

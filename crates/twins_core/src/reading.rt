//! Reads the trees of an input one after another, and compares each game with the games before it.
//! A twin is a game whose record (board size and actions) an earlier game has.
ghost use Rattle.std.specs.Prelude.{◌≡◌, ◌≤◌, ◌<◌, ◌+◌, ◌^◌, ◌≢◌, [], List, length, option_map, IfOk, IfErr};
ghost use Rattle.sgf_core.specs.Limit.{most_bytes};
ghost use Rattle.sgf_core.specs.Tree.{GameTree, main_line_of};
ghost use Rattle.sgf_core.specs.Marks.{marks_of};
ghost use Rattle.game_core.specs.Collection.{record_of_tree};
ghost use Rattle.listing_core.specs.Listing.{most_first};
ghost use Rattle.twins_core.specs.Twins.{Met, Knows};
ghost use Rattle.twins_core.specs.Runs.{met_of};
ghost use Rattle.listing_core.specs.Inner.Wants.{Wants, NextWants, IsWanted};
ghost use Rattle.listing_core.specs.declared.wants.Want.TheVariants as want;
ghost use Rattle.twins_core.specs.Inner.Reading.{sort_of, counted, MeetsAll, IsRead, IsStep};
ghost use Rattle.twins_core.specs.Inner.Reading.{IsEnding};

use crate::seats::Place;
use crate::twins::Twins;
use game_core::Report;
use go_record::{Kind, RecordFault, read_record};
use listing_core::Want;
use sgf_core::{SgfFault, Tree, Trees};
use std::alloc::Global;

/// What a tree is: a game of Go, a tree of another game, or one that is refused for a fault in its
/// record.
#[derive(Clone, Copy)]
pub(crate) enum Sort {
    Game,
    Other,
    Refused,
}

/// What one step of the reading found.
#[derive(Clone, Copy)]
pub(crate) enum Step {
    /// A tree of this sort; `end` is the byte index after it.
    Tree { sort: Sort, end: usize },
    /// No tree was left.
    End,
    /// The next tree has this fault of syntax.
    Fault(SgfFault),
}

/// How the reading of an input's trees ended: the byte index after the last tree that was read (0
/// if there is none), how many trees of each `Sort` were read, and the fault of syntax at which
/// reading stopped, if there is one.
#[derive(Clone, Copy)]
pub(crate) struct Ending {
    pub(crate) end: usize,
    pub(crate) report: Report,
    pub(crate) fault: Option<SgfFault>,
}

/// Returns the sort of `tree`. If it is a game, it has the `number` given and is compared with the
/// games before it: if one has the same record (board size and actions), a line about `tree` is
/// appended to `text`, with the file's `name` if there is one; else `twins` keeps it as the first
/// with its record.
///
/// # Errors
///
/// What memory was refused for. A tree with a fault in its record is no error, but `Refused`.
fn meet_tree(
    alloc: Global,
    twins: &mut Twins,
    tree: &Tree<'_>,
    number: u64,
    name: Option<&str>,
    text: &mut Vec<u8>,
) -> Result<Sort, Want>
    ensures sort { (game : GameTree) → tree.now.marks ≡ marks_of game
        → IfOk result (λ found. found ≡ sort_of (record_of_tree game)) }
    ensures meets { (game : GameTree) → tree.now.marks ≡ marks_of game → (before : List Met)
        → Knows twins.old before → IfOk result (λ _. MeetsAll twins.new before
        (met_of (option_map (λ n. n.now) name.entry) (record_of_tree game) number tree.now.at
        tree.now.end) text.old.items text.new.items) }
    ensures wanted { (game : GameTree) → tree.now.marks ≡ marks_of game
        → IfErr result (Wants (main_line_of game)) }
    ensures no_board { IfErr result (λ found. found ≢ want.Board) }
{
    match read_record(alloc, tree) {
        Ok(Kind::Go(game)) => {
            let place = Place {
                number,
                from: tree.at(),
                to: tree.end(),
            };
            twins.meet(alloc, &game, place, name, text)?;
            Ok(Sort::Game)
        }
        Ok(Kind::Other) => Ok(Sort::Other),
        Err(RecordFault::Memory) => Err(Want::Record),
        Err(_) => Ok(Sort::Refused),
    }
}

/// Reads the next tree. Returns its sort and its end, that no tree was left, or its fault of
/// syntax. If it is a game, its number is `number`, and it is compared with the games before, as by
/// `meet_tree`.
fn meet_next(
    alloc: Global,
    twins: &mut Twins,
    trees: &mut Trees<'_>,
    number: u64,
    name: Option<&str>,
    text: &mut Vec<u8>,
) -> Result<Step, Want>
    ensures read { IfOk result (IsRead trees.old trees.new) }
    ensures step { (before : List Met) → Knows twins.old before
        → IfOk result (IsStep (option_map (λ n. n.now) name.entry) twins.new trees.old trees.new
        number before text.old.items text.new.items) }
    ensures wanted { IfErr result (NextWants trees.old.bytes trees.old.from) }
    ensures no_board { IfErr result (λ found. found ≢ want.Board) }
{
    match trees.next_tree(alloc) {
        Ok(Some(tree)) => {
            let sort = meet_tree(alloc, twins, &tree, number, name, text)?;
            Ok(Step::Tree {
                sort,
                end: tree.end(),
            })
        }
        Ok(None) => Ok(Step::End),
        Err(SgfFault::Memory) => Err(Want::Tree),
        Err(fault) => Ok(Step::Fault(fault)),
    }
}

/// Returns `report` with one more tree in it, of this sort.
fn counted(report: Report, sort: Sort) -> Report
    requires { report.games + report.others + report.refused < 2 ^ 63 }
    ensures { result ≡ counted report sort }
{
    let mut report = report;
    match sort {
        Sort::Game => report.games += 1,
        Sort::Other => report.others += 1,
        Sort::Refused => report.refused += 1,
    }
    report
}

/// Reads all trees of an input, and compares each game with the games before, as by `meet_tree`.
/// Returns how the reading ended. The input's first game has the number `first`, and `name` is that
/// of its file.
pub(crate) fn meet_all(
    alloc: Global,
    twins: &mut Twins,
    trees: &mut Trees<'_>,
    first: u64,
    name: Option<&str>,
    text: &mut Vec<u8>,
) -> Result<Ending, Want>
    requires small { length trees.old.bytes ≤ most_bytes }
    requires first { first ≤ most_first }
    requires begins { trees.old.from ≡ 0 }
    requires none { text.old.items ≡ [] }
    ensures ending { (before : List Met) → Knows twins.old before
        → IfOk result (IsEnding first (option_map (λ n. n.now) name.entry) before twins.new
        trees.old.bytes text.new.items) }
    ensures wanted { IfErr result (IsWanted trees.old.bytes) }
    ensures no_board { IfErr result (λ found. found ≢ want.Board) }
{
    let mut report = Report {
        games: 0,
        others: 0,
        refused: 0,
    };
    let mut last = 0;
    'tree: loop {
        let number = first + report.games;
        let fault = match meet_next(alloc, twins, trees, number, name, text)? {
            Step::Tree { sort, end } => {
                report = counted(report, sort);
                last = end;
                continue 'tree;
            }
            Step::End => None,
            Step::Fault(fault) => Some(fault),
        };
        return Ok(Ending {
            end: last,
            report,
            fault,
        });
    }
}

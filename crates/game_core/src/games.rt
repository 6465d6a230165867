//! The games of an input, one after another.
ghost use Rattle.std.specs.Prelude.{◌≡◌, ◌≢◌, ◌+◌, ◌<◌, ◌≤◌, ◌↔◌, length, Ok, Err, Some, None, true, false};
ghost use Rattle.std.specs.Prelude.{IfOk, IfErr, IfSome, IfNone, IsOk};
ghost use Rattle.sgf_core.specs.Tree.{GameTree};
ghost use Rattle.sgf_core.specs.Marks.{marks_of};
ghost use Rattle.sgf_core.specs.Next.{IsNextTree, HasNoTree};
ghost use Rattle.sgf_core.specs.declared.faults.SgfFault.TheVariants as sgf;
ghost use Rattle.go_record.specs.declared.faults.RecordFault.TheVariants as record_fault;
ghost use Rattle.game_core.specs.Faults.{IsNextFault, IsGamesFault};
ghost use Rattle.game_core.specs.declared.faults.GamesFault.TheVariants as fault;
ghost use Rattle.game_core.specs.declared.games.TreeOutcome.TheVariants as outcome;
ghost use Rattle.game_core.specs.Games.{HasRead};
ghost use Rattle.game_core.specs.Reading.{IsNextGame, HasNoGame, IsStopped};
ghost use Rattle.game_core.specs.Inner.Reading.{IsTreeOutcome, IsNextRecord, Counts};
ghost use Rattle.sgf_core.specs.Limit.{most_bytes};

use crate::faults::GamesFault;
use crate::jobs::Job;
use crate::reports::Report;
use go_record::{Kind, Record, RecordFault, read_record};
use sgf_core::{SgfFault, Tree, Trees};
use std::alloc::Global;
use std::marker::Model;

/// Whether another tree may come, and if not, why.
#[derive(Clone, Copy)]
enum Stage {
    /// The next tree is looked for.
    Trees,
    /// No tree is left.
    End,
    /// This fault was met.
    Fault(GamesFault),
}

/// What `read_one_tree` found.
#[derive(Drop)]
enum TreeOutcome<'a> {
    /// The tree is a game, and this is its job: its number, its bounds in the input and its record.
    Job(Job<'a>),
    /// The tree is skipped: it is of another game, or its record has a fault.
    Passed,
    /// No tree was left.
    End,
}

/// A tree that was read: its bounds as byte offsets in the input, and its record or the record's
/// fault.
#[derive(Drop)]
struct Recorded {
    at: usize,
    end: usize,
    recorded: Result<Kind, RecordFault>,
}

/// A reader of the games of an input, which are numbered from 0 in their order. It counts which
/// trees are games, which are of other games, and which are refused.
///
/// Contracts see the input, the byte offset `from` up to which its trees were read, the report on
/// these trees, the `fault` that was met, if any, and whether the reader has `ended`: no tree was
/// left.
#[derive(Drop)]
pub struct Games<'a> {
    bytes: &'a [u8],
    trees: Trees<'a>,
    from: usize,
    report: Report,
    stage: Stage,
}

impl<'a> Model for Games<'a> {
    ghost use Rattle.std.specs.Prelude.{◌≡◌};
    ghost use Rattle.game_core.specs.Games.{HasRead};
    ghost use Rattle.game_core.specs.Reading.{Reading};
    ghost use Rattle.game_core.specs.Inner.Reading.{IsStage, fault_of, has_ended};

    ghost Value = { Reading };

    ghost view = { λ games. record {
      bytes = games.bytes.now;
      from = games.from;
      report = games.report;
      fault = fault_of games.stage;
      ended = has_ended games.stage;
    } };

    ghost invariant = { λ games. HasRead games.bytes.now games.from games.report
        × IsStage games.bytes.now games.from games.trees.from games.stage
        × (games.trees.bytes ≡ games.bytes.now) };
}

/// Reads the next tree, or returns None if none is left. `Sgf` at a fault of syntax, which `trees`
/// keeps and returns again at each later call. `Memory` if memory was refused.
fn next_tree<'a>(alloc: Global, trees: &mut Trees<'a>) -> Result<Option<Tree<'a>>, GamesFault>
    ensures tree { IfOk result (λ found. IfSome found (λ read. (tree : GameTree)
        × IsNextTree trees.old.bytes trees.old.from read.at read.end tree
        × (read.marks ≡ marks_of tree))) }
    ensures after { IfOk result (λ found. IfSome found (λ read.
        trees.new ≡ record trees.old { from = read.end })) }
    ensures forward { IfOk result (λ found. IfSome found (λ read. trees.old.from < read.end)) }
    ensures none { IfOk result (λ found. IfNone found (HasNoTree trees.old.bytes trees.old.from)) }
    ensures bytes { trees.new.bytes ≡ trees.old.bytes }
    ensures fault { IfErr result (IsNextFault trees.old.bytes trees.old.from) }
{
    match trees.next_tree(alloc) {
        Ok(found) => Ok(found),
        Err(SgfFault::Memory) => Err(GamesFault::Memory),
        Err(fault) => Err(GamesFault::Sgf(fault)),
    }
}

/// Returns what reading a record gave, `recorded`, as it is: a fault of the record is then inside
/// of `Ok`. Only if that fault is out of memory, returns `GamesFault::Memory`.
fn unless_memory(
    recorded: Result<Kind, RecordFault>,
) -> Result<Result<Kind, RecordFault>, GamesFault>
    ensures same { IfOk result (λ found. (found ≡ recorded)
        × (recorded ≢ Err record_fault.Memory)) }
    ensures memory { IfErr result
        (λ found. (found ≡ fault.Memory) × (recorded ≡ Err record_fault.Memory)) }
{
    match recorded {
        Ok(kind) => Ok(Ok(kind)),
        Err(RecordFault::Memory) => Err(GamesFault::Memory),
        Err(fault) => Ok(Err(fault)),
    }
}

/// Reads the next tree and its record, or returns None if no tree is left. A fault of the record is
/// part of the result. `Sgf` at a fault of syntax, `Memory` if memory was refused.
fn next_record(alloc: Global, trees: &mut Trees<'_>) -> Result<Option<Recorded>, GamesFault>
    ensures record { IfOk result (λ found.
        IfSome found (IsNextRecord trees.old.bytes trees.old.from)) }
    ensures after { IfOk result (λ found. IfSome found (λ read. trees.new.from ≡ read.end)) }
    ensures none { IfOk result (λ found. IfNone found (HasNoTree trees.old.bytes trees.old.from)) }
    ensures bytes { trees.new.bytes ≡ trees.old.bytes }
    ensures fault { IfErr result (IsNextFault trees.old.bytes trees.old.from) }
{
    let Some(tree) = next_tree(alloc, trees)? else {
        return Ok(None);
    };
    let recorded = unless_memory(read_record(alloc, &tree))?;
    Ok(Some(Recorded {
        at: tree.at(),
        end: tree.end(),
        recorded,
    }))
}

/// Counts a tree in the report by `recorded`, its record or the record's fault, and returns the
/// record if the tree is a game of Go. None if it is of another game, or its record has a fault.
fn count(report: &mut Report, recorded: Result<Kind, RecordFault>) -> Option<Record>
    requires { (report.old.games < most_bytes) × (report.old.others < most_bytes)
        × (report.old.refused < most_bytes) }
    ensures { Counts report.old recorded report.new result }
{
    match recorded {
        Ok(Kind::Go(game)) => {
            report.games += 1;
            return Some(game);
        }
        Ok(Kind::Other) => report.others += 1,
        Err(_) => report.refused += 1,
    }
    None
}

impl<'a> Games<'a> {
    /// Makes a reader at the beginning of this input. It takes no memory.
    ///
    /// # Errors
    ///
    /// `Sgf` with `SgfFault::TooLarge`, exactly if the input has more than 2^28 bytes.
    pub fn new(bytes: &'a [u8]) -> Result<Games<'a>, GamesFault>
        ensures small { IsOk result ↔ (length bytes.now ≤ most_bytes) }
        ensures begins { IfOk result (λ games. games ≡ record {
          bytes = bytes.now;
          from = 0;
          report = record { games = 0; others = 0; refused = 0 };
          fault = None;
          ended = false;
        }) }
        ensures large { IfErr result (λ found. found ≡ fault.Sgf sgf.TooLarge) }
        ensures fault { IfErr result (IsGamesFault bytes.now) }
    {
        let trees = Trees::new(bytes).map_err(GamesFault::Sgf)?;
        let report = Report {
            games: 0,
            others: 0,
            refused: 0,
        };
        Ok(Games {
            bytes,
            trees,
            from: 0,
            report,
            stage: Stage::Trees,
        })
    }

    /// Reads the next tree, counts it in the report, and returns what it was, or `End` if none is
    /// left. A fault of syntax or out of memory is kept: each later call returns it again and
    /// changes nothing.
    fn read_one_tree(&mut self, alloc: Global) -> Result<TreeOutcome<'a>, GamesFault>
        ensures bytes { self.new.bytes ≡ self.old.bytes }
        ensures outcome { IfOk result (IsTreeOutcome self.old self.new) }
        ensures stopped { IfErr result (IsStopped self.old self.new) }
        ensures fault { IfErr result (IsGamesFault self.old.bytes) }
        ensures after_fault { IfErr result (λ found. self.new.fault ≡ Some found) }
        ensures same { IfSome self.old.fault (λ found. (result ≡ Err found)
            × (self.new ≡ self.old)) }
        ensures ended { self.old.ended ≡ true
            → (result ≡ Ok outcome.End) × (self.new ≡ self.old) }
    {
        match self.stage {
            Stage::Trees => (),
            Stage::End => return Ok(TreeOutcome::End),
            Stage::Fault(fault) => return Err(fault),
        }
        match next_record(alloc, &mut self.trees) {
            Ok(Some(read)) => {
                self.from = read.end;
                let game = self.report.games;
                match count(&mut self.report, read.recorded) {
                    Some(record) => Ok(TreeOutcome::Job(Job::new(
                        self.bytes, game, read.at, read.end, record,
                    ))),
                    None => Ok(TreeOutcome::Passed),
                }
            }
            Ok(None) => {
                self.stage = Stage::End;
                Ok(TreeOutcome::End)
            }
            Err(fault) => {
                self.stage = Stage::Fault(fault);
                Err(fault)
            }
        }
    }

    /// Returns the job of the next game (its number, its bounds in the input and its record), or
    /// None if no game is left. Trees of other games, and those whose records have a fault, are
    /// counted in the report and skipped.
    ///
    /// It takes memory for a tree and its record. After None each later call returns None and
    /// changes nothing.
    ///
    /// # Errors
    ///
    /// `Sgf` if the tree after those that were skipped has a fault of syntax. `Memory` if memory
    /// was refused; it is returned only if that tree is whole, so never in place of a fault of
    /// syntax. The report is then that of the trees before the faulty one. Each later call returns
    /// the same fault, even out of memory, and changes nothing.
    pub fn next_job(&mut self, alloc: Global) -> Result<Option<Job<'a>>, GamesFault>
        ensures bytes { self.new.bytes ≡ self.old.bytes }
        ensures job { IfOk result (λ found. IfSome found (IsNextGame self.old self.new)) }
        ensures none { IfOk result (λ found. IfNone found (HasNoGame self.old self.new)) }
        ensures stopped { IfErr result (IsStopped self.old self.new) }
        ensures fault { IfErr result (IsGamesFault self.old.bytes) }
        ensures after_fault { IfErr result (λ found. self.new.fault ≡ Some found) }
        ensures same { IfSome self.old.fault (λ found. (result ≡ Err found)
            × (self.new ≡ self.old)) }
        ensures after_none { IfOk result (λ found. IfNone found (self.new.ended ≡ true)) }
        ensures ended { self.old.ended ≡ true → (result ≡ Ok None) × (self.new ≡ self.old) }
    {
        loop {
            match self.read_one_tree(alloc)? {
                TreeOutcome::Job(job) => return Ok(Some(job)),
                TreeOutcome::Passed => (),
                TreeOutcome::End => return Ok(None),
            }
        }
    }

    /// Returns how many of the trees read so far are games of Go, are of other games, and are
    /// refused. It takes no memory.
    pub fn report(&self) -> Report
        ensures report { result ≡ self.now.report }
        ensures read { HasRead self.now.bytes self.now.from self.now.report }
    {
        self.report
    }
}

//! The listing of an input: what is written of its trees, and how it ends.
ghost use Rattle.std.specs.Prelude.{◌≡◌, ◌≤◌, ◌<◌, ◌+◌, ◌^◌, [], length, IfOk, IfErr};
ghost use Rattle.sgf_core.specs.Limit.{most_bytes};
ghost use Rattle.listing_core.specs.Listing.{most_first, listed_of, IsListing, IsListingFault};
ghost use Rattle.listing_core.specs.Inner.Reading.{counted, IsEnding};
ghost use Rattle.listing_core.specs.Inner.Wants.{IsWanted};

use crate::asked::Asked;
use crate::choosing::push_fault_piece;
use crate::lines::What;
use crate::trees::{Step, push_next_tree};
use crate::wants::Want;
use engine_core::RunFault;
use game_core::Report;
use sgf_core::{SgfFault, Trees};
use std::alloc::Global;

/// How a listing ended.
#[derive(Clone, Copy, Debug, PartialEq, Eq)]
pub enum Listed {
    /// Each tree of the input is listed.
    Done,
    /// The input has no tree.
    NoTree,
    /// The trees up to this fault of syntax are listed.
    Fault(SgfFault),
}

/// How a listing ended, and how many games, trees of other games and refused trees it met.
#[derive(Clone, Copy, Debug, PartialEq, Eq)]
pub struct Summary {
    /// How the listing ended.
    pub listed: Listed,
    /// How many of the input's trees are games, of other games, and refused.
    pub report: Report,
}

/// How the reading of an input's trees ended: the byte index after the last tree that was read (0
/// if there is none); how many of the trees that were read are games, of other games, and refused;
/// and the fault of syntax at which reading stopped, if there is one.
#[derive(Clone, Copy)]
pub(crate) struct Ending {
    pub(crate) end: usize,
    pub(crate) report: Report,
    pub(crate) fault: Option<SgfFault>,
}

/// Returns `report` with one more tree in it, which is `what`.
fn counted(report: Report, what: What) -> Report
    requires { report.games + report.others + report.refused < 2 ^ 63 }
    ensures { result ≡ counted report what }
{
    let mut report = report;
    match what {
        What::Game { .. } => report.games += 1,
        What::Other => report.others += 1,
        What::Refused(_) => report.refused += 1,
    }
    report
}

/// Reads all trees of `input`, appends what is written of them to `text`, and returns how the
/// reading ended. `trees` reads the same `input`, from its beginning. The error says what memory
/// was refused for.
fn push_lines(
    alloc: Global,
    asked: &Asked<'_>,
    input: &[u8],
    trees: &mut Trees<'_>,
    text: &mut Vec<u8>,
) -> Result<Ending, Want>
    requires small { length input.now ≤ most_bytes }
    requires first { asked.now.first ≤ most_first }
    requires bytes { trees.old.bytes ≡ input.now }
    requires begins { trees.old.from ≡ 0 }
    requires none { text.old.items ≡ [] }
    ensures ending { IfOk result (IsEnding asked.now input.now text.new.items) }
    ensures wanted { IfErr result (IsWanted input.now) }
{
    let mut report = Report {
        games: 0,
        others: 0,
        refused: 0,
    };
    let mut end = 0;
    'tree: loop {
        let next = asked.first + report.games;
        let fault = match push_next_tree(alloc, asked, input, trees, next, text)? {
            Step::Tree(line) => {
                report = counted(report, line.what);
                end = line.to;
                continue 'tree;
            }
            Step::End => None,
            Step::Fault(fault) => Some(fault),
        };
        return Ok(Ending { end, report, fault });
    }
}

/// Returns how a listing ended: `Fault` if `fault` is one, else `NoTree` if `report` has no tree,
/// else `Done`. It takes no memory.
pub fn listed_by(fault: Option<SgfFault>, report: Report) -> Listed
    ensures { result ≡ listed_of fault report }
{
    if let Some(fault) = fault {
        return Listed::Fault(fault);
    }
    if report.games == 0 && report.others == 0 && report.refused == 0 {
        return Listed::NoTree;
    }
    Listed::Done
}

/// Returns the text that lists the trees of `input` as `asked`, and the summary: how the listing
/// ended, and how many of the trees are games, of other games, and refused.
pub(crate) fn listing_of(
    alloc: Global,
    asked: &Asked<'_>,
    input: &[u8],
) -> Result<(Vec<u8>, Summary), RunFault>
    requires { asked.now.first ≤ most_first }
    ensures listing { IfOk result (λ p. IsListing asked.now p.1 input.now p.0.items) }
    ensures fault { IfErr result (IsListingFault input.now) }
{
    let mut trees = Trees::new(input)?;
    let mut text = Vec::new(alloc);
    let ending = push_lines(alloc, asked, input, &mut trees, &mut text)?;
    if let Some(fault) = ending.fault {
        push_fault_piece(asked, ending.end, input.len(), fault, &mut text)?;
    }
    let summary = Summary {
        listed: listed_by(ending.fault, ending.report),
        report: ending.report,
    };
    Ok((text, summary))
}

//! Reads one tree, mark by mark (parenthesis, semicolon or property), in one pass and with no
//! recursion.
ghost use Rattle.std.specs.Prelude.{◌≡◌, ℕ, ◌<◌, ◌≤◌, ◌++◌, ◌∷◌, [], true, IfOk, IfErr, IsSomeAnd};
ghost use Rattle.std.specs.Prelude.{length, drop, slice_range};
ghost use Rattle.sgf_core.specs.Limit.{most_bytes};
ghost use Rattle.sgf_core.specs.Tree.{GameTree};
ghost use Rattle.sgf_core.specs.Grammar.{WritesTree};
ghost use Rattle.sgf_core.specs.Next.{BeginsTree, IsFirstBegin};
ghost use Rattle.sgf_core.specs.Marks.{marks_of};
ghost use Rattle.sgf_core.specs.Reading.{IsFaultOrMemory};
ghost use Rattle.sgf_core.specs.Inner.Pieces.{ReadsMark, MarkFault, IsKept};
ghost use Rattle.sgf_core.specs.Inner.Turns.{IsTurn};
ghost use Rattle.sgf_core.specs.declared.marks.Mark.{Mark as Part};

use crate::bytes::is_letter;
use crate::faults::SgfFault;
use crate::marks::{Expects, Mark};
use crate::property::read_property;
use crate::scan::white_end;
use crate::written::Tree;
use std::alloc::Global;

/// Reads the next mark (parenthesis, semicolon or property) from the byte index `from` on, in the
/// tree that begins at `at`, and returns it with the byte index after it. `expects` says which
/// marks may come. The mark is None if it is a property for whose values memory was refused. A
/// fault is one of syntax: `Truncated`, `BadByte` or `NoValue`.
fn read_mark<'a>(
    alloc: Global,
    bytes: &'a [u8],
    at: usize,
    from: usize,
    expects: Expects,
) -> Result<(Option<Mark<'a>>, usize), SgfFault>
    requires { from ≤ length bytes.now }
    ensures read { IfOk result (λ found. (read : Part)
        × ReadsMark bytes.now expects from found.1 read × IsKept found.0 read) }
    ensures fault { IfErr result (MarkFault bytes.now at expects from) }
{
    let place = white_end(bytes, from);
    if place == bytes.len() {
        return Err(SgfFault::Truncated(at));
    }
    match (expects, bytes[place]) {
        (Expects::Node, b';') => Ok((Some(Mark::Node), place + 1)),
        (Expects::Any, b';') => Ok((Some(Mark::Node), place + 1)),
        (Expects::Any, b'(') => Ok((Some(Mark::Begin), place + 1)),
        (Expects::Any, b')') => Ok((Some(Mark::End), place + 1)),
        (Expects::Tree, b'(') => Ok((Some(Mark::Begin), place + 1)),
        (Expects::Tree, b')') => Ok((Some(Mark::End), place + 1)),
        (Expects::Any, byte) if is_letter(byte) => {
            let (property, end) = read_property(alloc, bytes, at, place)?;
            match property {
                Some(property) => Ok((Some(Mark::Prop(property)), end)),
                None => Ok((None, end)),
            }
        }
        _ => Err(SgfFault::BadByte(place)),
    }
}

/// What a mark does to the number of trees that are open: begun and not yet ended.
#[derive(Clone, Copy)]
enum Turn {
    /// Nothing: it is a node or a property.
    Stays,
    /// It begins a tree.
    Opens,
    /// It ends a tree.
    Closes,
}

/// Returns what a mark that was read does to the number of trees that are open (begun and not yet
/// ended). None stands for a property that was not stored, since memory was refused.
fn turn_of(mark: &Option<Mark<'_>>) -> Turn
    ensures { (read : Part) → IsKept mark.now read → IsTurn read result }
{
    match mark {
        None => Turn::Stays,
        Some(mark) => match mark {
            Mark::Begin => Turn::Opens,
            Mark::Node => Turn::Stays,
            Mark::Prop(_) => Turn::Stays,
            Mark::End => Turn::Closes,
        },
    }
}

/// Appends `mark` to `marks` if `kept` says that all marks before it are there. Returns whether all
/// are there now: false if `kept` is false, `mark` is None or memory was refused.
fn keep_mark<'a>(marks: &mut Vec<Mark<'a>>, mark: Option<Mark<'a>>, kept: bool) -> bool
    ensures { result ≡ true → (kept ≡ true)
        × IsSomeAnd mark.entry (λ one. marks.new.items ≡ marks.old.items ++ one ∷ []) }
{
    if !kept {
        return false;
    }
    match mark {
        Some(mark) => match marks.push(mark) {
            Ok(()) => true,
            Err(_) => false,
        },
        None => false,
    }
}

/// Reads and returns the tree whose first parenthesis is at the byte index `at`. If memory is
/// refused, the rest is read all the same, but no longer stored: so `Memory` is returned only if a
/// whole tree is there, and else the tree's fault of syntax.
pub(crate) fn read_tree<'a>(alloc: Global, bytes: &'a [u8], at: usize) -> Result<Tree<'a>, SgfFault>
    requires small { length bytes.now ≤ most_bytes }
    requires begins { BeginsTree (drop at bytes.now) }
    ensures bounds { IfOk result (λ read. (read.at ≡ at) × (at < read.end)
        × (read.end ≤ length bytes.now)) }
    ensures tree { IfOk result (λ read. (tree : GameTree)
        × WritesTree at tree (slice_range bytes.now at read.end) × (read.marks ≡ marks_of tree)) }
    ensures fault { IfErr result (λ fault. (from : ℕ)
        → IsFirstBegin bytes.now from at → IsFaultOrMemory bytes.now from fault) }
{
    let mut marks = Vec::new(alloc);
    let mut kept = keep_mark(&mut marks, Some(Mark::Begin), true);
    let mut expects = Expects::Node;
    // The number of trees that are open round the innermost.
    let mut depth: usize = 0;
    let mut place = at + 1;
    loop {
        let (mark, end) = read_mark(alloc, bytes, at, place, expects)?;
        place = end;
        match turn_of(&mark) {
            Turn::Stays => expects = Expects::Any,
            Turn::Opens => {
                expects = Expects::Node;
                depth += 1;
            }
            Turn::Closes => {
                if depth == 0 {
                    if keep_mark(&mut marks, mark, kept) {
                        return Ok(Tree { at, end, marks });
                    }
                    return Err(SgfFault::Memory);
                }
                expects = Expects::Tree;
                depth -= 1;
            }
        }
        kept = keep_mark(&mut marks, mark, kept);
    }
}

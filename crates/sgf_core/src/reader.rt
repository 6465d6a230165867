//! The reader of a collection: one tree after the other.
ghost use Rattle.std.specs.Prelude.{◌≡◌, ◌<◌, ◌≤◌, Some, None, IfOk, IfErr, IfSome, IfNone};
ghost use Rattle.std.specs.Prelude.{IsOk, ◌↔◌, MatchOption, length};
ghost use Rattle.sgf_core.specs.Limit.{most_bytes};
ghost use Rattle.sgf_core.specs.Tree.{GameTree};
ghost use Rattle.sgf_core.specs.Next.{IsFirstBegin, HasNoTree, IsNextTree};
ghost use Rattle.sgf_core.specs.Marks.{marks_of};
ghost use Rattle.sgf_core.specs.Reading.{IsFaultOrMemory, IsAfterFault};
ghost use Rattle.sgf_core.specs.Inner.Reading.{kept_fault};
ghost use Rattle.sgf_core.specs.declared.faults.SgfFault.TheVariants.{TooLarge};

use crate::faults::SgfFault;
use crate::parse::read_tree;
use crate::scan::white_end;
use crate::written::Tree;
use memchr::memchr;
use std::alloc::Global;
use std::marker::Model;

/// The most bytes that an input may have, a limit of this project's own.
pub const MOST_BYTES: usize = 1 << 28;

/// Reads the trees of a collection in their order, as SGF FF[4] has them. Bytes outside trees are
/// skipped: a tree begins where a parenthesis, any white bytes and a semicolon follow one another
/// (this project's own reading).
#[derive(Debug, Drop)]
pub struct Trees<'a> {
    bytes: &'a [u8],
    /// The byte index from which on the next tree is looked for.
    from: usize,
    /// The fault of syntax that was met, if any, which each later call returns.
    fault: Option<SgfFault>,
}

impl<'a> Model for Trees<'a> {
    ghost use Rattle.sgf_core.specs.Reading.{Reading};
    ghost use Rattle.sgf_core.specs.Inner.Reading.{IsReading};

    ghost Value = { Reading };

    ghost view = { λ trees. record {
      bytes = trees.bytes.now;
      from = trees.from;
      fault = trees.fault;
    } };

    ghost invariant = { λ trees. IsReading (record {
      bytes = trees.bytes.now;
      from = trees.from;
      fault = trees.fault;
    }) };
}

/// Returns the first byte index from `from` on at which a tree begins, or None if none begins.
fn next_tree_start(bytes: &[u8], from: usize) -> Option<usize>
    requires { from ≤ length bytes.now }
    ensures { MatchOption result (HasNoTree bytes.now from) (λ at. IsFirstBegin bytes.now from at) }
{
    let mut place = from;
    while let Some(offset) = memchr(b'(', &bytes[place..]) {
        let at = place + offset;
        place = white_end(bytes, at + 1);
        if place < bytes.len() && bytes[place] == b';' {
            return Some(at);
        }
    }
    None
}

/// Returns the fault that each later call is to return: `fault` itself, or None if it is out of
/// memory, since memory may come free before that call.
fn kept(fault: SgfFault) -> Option<SgfFault>
    ensures { result ≡ kept_fault fault }
{
    match fault {
        SgfFault::Memory => None,
        _ => Some(fault),
    }
}

impl<'a> Trees<'a> {
    /// Makes a reader of the trees in `bytes`, at the beginning. It takes no memory.
    ///
    /// # Errors
    ///
    /// `TooLarge` if the input has more than `MOST_BYTES` bytes, 2^28. No reader is made then.
    pub fn new(bytes: &'a [u8]) -> Result<Trees<'a>, SgfFault>
        ensures small { IsOk result ↔ (length bytes.now ≤ most_bytes) }
        ensures begins { IfOk result (λ trees. trees
            ≡ record { bytes = bytes.now; from = 0; fault = None }) }
        ensures large { IfErr result (λ fault. fault ≡ TooLarge) }
    {
        if bytes.len() > MOST_BYTES {
            return Err(SgfFault::TooLarge);
        }
        Ok(Trees {
            bytes,
            from: 0,
            fault: None,
        })
    }

    /// Reads and returns the next tree, or None if no tree begins any more.
    ///
    /// # Errors
    ///
    /// `Truncated` if the input ends within the next tree, `NoValue` if another byte comes where
    /// the first value of an identifier has to begin, and `BadByte` at any other byte that can't
    /// come where it is. The reader keeps such a fault, and each later call returns it again.
    ///
    /// `Memory` if memory was refused for the tree's marks or for a property's values other than
    /// its first: only if a tree is next, and never in place of a fault of syntax. The reader is
    /// then as it was before the call, so the call may be tried again.
    pub fn next_tree(&mut self, alloc: Global) -> Result<Option<Tree<'a>>, SgfFault>
        ensures tree { IfOk result (λ found. IfSome found (λ read. (tree : GameTree)
            × IsNextTree self.old.bytes self.old.from read.at read.end tree
            × (read.marks ≡ marks_of tree))) }
        ensures after_tree { IfOk result (λ found. IfSome found (λ read.
            self.new ≡ record self.old { from = read.end })) }
        ensures forward { IfOk result (λ found. IfSome found (λ read.
            (self.old.from < read.end) × (read.end ≤ length self.old.bytes))) }
        ensures none { IfOk result (λ found. IfNone found
            (HasNoTree self.old.bytes self.old.from)) }
        ensures after_none { IfOk result (λ found. IfNone found
            (self.new ≡ record self.old { from = length self.old.bytes })) }
        ensures fault { IfErr result (λ fault. IsFaultOrMemory self.old.bytes self.old.from fault) }
        ensures same { IfSome self.old.fault (λ fault. result ≡ Err fault) }
        ensures after_fault { IfErr result (λ fault. IsAfterFault self.old self.new fault) }
    {
        if let Some(fault) = self.fault {
            return Err(fault);
        }
        let Some(at) = next_tree_start(self.bytes, self.from) else {
            self.from = self.bytes.len();
            return Ok(None);
        };
        match read_tree(alloc, self.bytes, at) {
            Ok(tree) => {
                self.from = tree.end;
                Ok(Some(tree))
            }
            Err(fault) => {
                self.fault = kept(fault);
                Err(fault)
            }
        }
    }
}

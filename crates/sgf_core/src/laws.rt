//! Laws on what a collection is: its bytes have one reading, and its trees no more values than
//! bytes. Each is the contract of a function that does nothing.
ghost use Rattle.std.specs.Prelude.{◌≡◌, ◌+◌, ◌<◌, ℕ, List};
ghost use Rattle.sgf_core.specs.Tree.{GameTree, main_line_of};
ghost use Rattle.sgf_core.specs.Counts.{value_count};
ghost use Rattle.sgf_core.specs.Next.{IsNextTree, HasNoTree};
ghost use Rattle.sgf_core.specs.Reading.{IsFaultAt};
ghost use Rattle.sgf_core.specs.declared.faults.SgfFault.{SgfFault};

/// States for proofs that at most one tree is next from a given byte offset on, with one offset at
/// which it begins and one at which it ends. So the tree that is read is the one that is next.
pub fn one_next_tree()
    ensures { (bytes : List ℕ) (from at end : ℕ) (tree : GameTree) (other_at other_end : ℕ)
        (other : GameTree)
        → IsNextTree bytes from at end tree → IsNextTree bytes from other_at other_end other
        → (at ≡ other_at) × (end ≡ other_end) × (tree ≡ other) }
{}

/// States for proofs that the next tree from a given byte offset on has at most one fault. So the
/// fault that is returned is the one that the tree has.
pub fn one_fault()
    ensures { (bytes : List ℕ) (from : ℕ) (fault other : SgfFault)
        → IsFaultAt bytes from fault → IsFaultAt bytes from other → fault ≡ other }
{}

/// States for proofs that at most one of these holds from a given byte offset on: a tree is next,
/// the next tree has a fault, or no tree begins.
pub fn one_answer()
    ensures tree_or_fault { (bytes : List ℕ) (from at end : ℕ) (tree : GameTree) (fault : SgfFault)
        → IsNextTree bytes from at end tree → IsFaultAt bytes from fault → ⊥ }
    ensures tree_or_none { (bytes : List ℕ) (from at end : ℕ) (tree : GameTree)
        → IsNextTree bytes from at end tree → HasNoTree bytes from → ⊥ }
    ensures fault_or_none { (bytes : List ℕ) (from : ℕ) (fault : SgfFault)
        → IsFaultAt bytes from fault → HasNoTree bytes from → ⊥ }
{}

/// States for proofs that a tree's main line has fewer values than the tree has bytes. So a count
/// of values over the trees of a collection stays below the limit on the input's bytes.
pub fn few_values()
    ensures { (bytes : List ℕ) (from at end : ℕ) (tree : GameTree)
        → IsNextTree bytes from at end tree → at + value_count (main_line_of tree) < end }
{}

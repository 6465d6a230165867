//! A tree as it is written: its bounds, and its marks in order.
ghost use Rattle.std.specs.Prelude.{◌≡◌};
ghost use Rattle.sgf_core.specs.Tree.{GameTree, main_line_of};
ghost use Rattle.sgf_core.specs.Marks.{marks_of};
ghost use Rattle.sgf_core.specs.Written.{IsSomeTree};

use crate::lines::MainLine;
use crate::marks::Mark;
use std::marker::Model;

/// A game tree, as SGF FF[4] has it: its bounds in the whole input, and its marks (parentheses,
/// semicolons and properties). It is read whole: a sequence of one or more nodes, then inner trees.
/// Every `Tree` is some tree of the grammar, and its end comes after its beginning.
#[derive(Debug, Drop)]
pub struct Tree<'a> {
    pub(crate) at: usize,
    pub(crate) end: usize,
    pub(crate) marks: Vec<Mark<'a>>,
}

impl<'a> Model for Tree<'a> {
    ghost use Rattle.sgf_core.specs.Written.{WrittenTree, IsSomeTree};

    ghost Value = { WrittenTree };

    ghost view = { λ tree. record { at = tree.at; end = tree.end; marks = tree.marks.items } };

    ghost invariant = { λ tree. IsSomeTree (record {
      at = tree.at;
      end = tree.end;
      marks = tree.marks.items;
    }) };
}

impl<'a> Tree<'a> {
    /// Returns the byte index, in the whole input, of the tree's first parenthesis.
    pub fn at(&self) -> usize
        ensures { result ≡ self.now.at }
    {
        self.at
    }

    /// Returns the byte index, in the whole input, after the tree's last parenthesis.
    pub fn end(&self) -> usize
        ensures { result ≡ self.now.end }
    {
        self.end
    }

    /// Returns the tree's marks (parentheses, semicolons and properties) in the order in which the
    /// tree is written: its own `Begin` first, its own `End` last.
    pub fn marks(&self) -> &[Mark<'a>]
        ensures marks { result.now ≡ self.now.marks }
        ensures tree { IsSomeTree self.now }
    {
        self.marks.as_slice()
    }

    /// Returns an iterator over the nodes of the main line: the tree's own, then those of its first
    /// inner tree, and so on. Nothing is copied, and no memory is taken.
    pub fn main_line(&self) -> MainLine<'_, 'a>
        ensures line { (tree : GameTree) → self.now.marks ≡ marks_of tree
            → result ≡ main_line_of tree }
        ensures tree { IsSomeTree self.now }
    {
        MainLine::new(self.marks())
    }
}

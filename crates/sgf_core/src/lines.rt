//! The main line of a tree, its nodes and their properties, each read from the tree's marks: the
//! list of its parentheses, semicolons and properties.
ghost use Rattle.std.specs.Prelude.{◌≡◌, ◌+◌, ◌<◌, ◌∷◌, [], length, drop, MatchOption};
ghost use Rattle.std.specs.Iterator.{YieldsFirst, YieldsFirstRef, item_count};
ghost use Rattle.sgf_core.specs.Inner.Lines.{line_of, leading_properties};

use crate::marks::{Mark, Prop};
use std::iter::FusedIterator;
use std::marker::Model;

/// An iterator over the nodes of a tree's main line: from the root, at each branch into the first
/// variation (inner tree). Each step reads some of the tree's marks (parentheses, semicolons and
/// properties), and takes no memory.
#[derive(Debug, Drop)]
pub struct MainLine<'t, 'a> {
    /// The marks that are still to be read.
    marks: &'t [Mark<'a>],
}

impl<'t, 'a> Model for MainLine<'t, 'a> {
    ghost use Rattle.std.specs.Prelude.{List};
    ghost use Rattle.sgf_core.specs.Tree.{Node};
    ghost use Rattle.sgf_core.specs.Inner.Lines.{line_of};

    ghost Value = { List Node };

    ghost view = { λ line. line_of line.marks.now };
}

/// Returns the index in `marks` of the first `Mark::Node`, or None if a `Mark::End` comes before it
/// or there is none.
fn node_place(marks: &[Mark<'_>]) -> Option<usize>
    ensures { MatchOption result (line_of marks.now ≡ []) (λ place. (place < length marks.now)
        × (line_of marks.now ≡ leading_properties (drop (place + 1) marks.now) ∷ line_of
        (drop (place + 1) marks.now))) }
{
    for (place, mark) in marks.iter().enumerate() {
        match mark {
            Mark::Node => return Some(place),
            Mark::End => return None,
            Mark::Begin | Mark::Prop(_) => {}
        }
    }
    None
}

impl<'t, 'a> MainLine<'t, 'a> {
    /// Makes the iterator over the main line of the tree that has these `marks`.
    pub(crate) fn new(marks: &'t [Mark<'a>]) -> MainLine<'t, 'a>
        ensures { result ≡ line_of marks.now }
    {
        MainLine { marks }
    }
}

impl<'t, 'a> Iterator for MainLine<'t, 'a> {
    type Item = Node<'t, 'a>;

    ghost next_gives = { YieldsFirst (λ line. line) };

    ghost remaining = { item_count (λ line. line) };

    /// Returns the next node of the main line. If none is left, it returns None, now and at all
    /// later calls.
    fn next(&mut self) -> Option<Node<'t, 'a>> {
        let marks = self.marks;
        let place = node_place(marks)?;
        self.marks = &marks[place + 1..];
        Some(Node {
            marks: &marks[place + 1..],
        })
    }
}

impl<'t, 'a> FusedIterator for MainLine<'t, 'a> {}

/// A node, as SGF FF[4] has it: its properties, in order.
#[derive(Debug, Drop)]
pub struct Node<'t, 'a> {
    /// All marks after the node's semicolon. The node's properties are those before the first other
    /// mark.
    marks: &'t [Mark<'a>],
}

impl<'t, 'a> Model for Node<'t, 'a> {
    ghost use Rattle.sgf_core.specs.Tree.{Node};
    ghost use Rattle.sgf_core.specs.Inner.Lines.{leading_properties};

    ghost Value = { Node };

    ghost view = { λ node. leading_properties node.marks.now };
}

impl<'t, 'a> Node<'t, 'a> {
    /// Returns an iterator over the node's properties, in order. Nothing is copied.
    pub fn props(&self) -> Props<'t, 'a>
        ensures { result ≡ self.now }
    {
        Props { marks: self.marks }
    }
}

/// An iterator over the properties of a node, in order. Each step reads one of the tree's marks
/// (parentheses, semicolons and properties), and takes no memory.
#[derive(Debug, Drop)]
pub struct Props<'t, 'a> {
    /// The marks that are still to be read; the properties end before the first other mark.
    marks: &'t [Mark<'a>],
}

impl<'t, 'a> Model for Props<'t, 'a> {
    ghost use Rattle.std.specs.Prelude.{List};
    ghost use Rattle.sgf_core.specs.Tree.{Property};
    ghost use Rattle.sgf_core.specs.Inner.Lines.{leading_properties};

    ghost Value = { List Property };

    ghost view = { λ props. leading_properties props.marks.now };
}

impl<'t, 'a> Iterator for Props<'t, 'a> {
    type Item = &'t Prop<'a>;

    ghost next_gives = { YieldsFirstRef (λ props. props) };

    ghost remaining = { item_count (λ props. props) };

    /// Returns the next property of the node. If none is left, it returns None, now and at all
    /// later calls.
    fn next(&mut self) -> Option<&'t Prop<'a>> {
        let marks = self.marks;
        match marks.first()? {
            Mark::Prop(property) => {
                self.marks = &marks[1..];
                Some(property)
            }
            Mark::Begin | Mark::Node | Mark::End => None,
        }
    }
}

impl<'t, 'a> FusedIterator for Props<'t, 'a> {}

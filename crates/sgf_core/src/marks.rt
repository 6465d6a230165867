//! The parts of a tree: its marks (parentheses, semicolons and properties), the properties' values,
//! and which mark may come next.
ghost use Rattle.std.specs.Prelude.{◌≡◌, ◌↔◌, IsTrue, map};
ghost use Rattle.sgf_core.specs.Tree.{name_of};
ghost use Rattle.sgf_core.specs.Values.{value_of};

use crate::bytes::is_name_of;
use smallvec::SmallVec;
use std::marker::Model;

/// A value of a property, as SGF FF[4] has it: the bytes between its brackets as they are written,
/// with their escapes.
#[derive(Clone, Copy, Debug, Default, PartialEq, Eq)]
pub struct Value<'a> {
    /// The byte index, in the whole input, of the value's first byte: the one after the opening
    /// bracket.
    pub at: usize,
    /// Its bytes: a slice of the input.
    pub bytes: &'a [u8],
}

/// A property, as SGF FF[4] has it: an identifier and its values, one or more.
#[derive(Debug, Drop)]
pub struct Prop<'a> {
    /// The letters of the identifier, as they are written.
    pub(crate) identifier: &'a [u8],
    /// The values, in order. The first takes no memory of its own.
    pub(crate) values: SmallVec<Value<'a>, 1>,
}

impl<'a> Model for Prop<'a> {
    ghost use Rattle.std.specs.Prelude.{map};
    ghost use Rattle.sgf_core.specs.Tree.{Property};
    ghost use Rattle.sgf_core.specs.Values.{value_of};

    ghost Value = { Property };

    ghost view = { λ p. record {
      identifier = p.identifier.now;
      values = map value_of
          p.values.items;
    } };
}

impl<'a> Prop<'a> {
    /// Whether `name` is the property's name: the upper-case letters of its identifier, in order.
    /// So `Black` is `B` and `SiZe` is `SZ`, as in older formats (this project's own reading).
    pub fn is(&self, name: &[u8]) -> bool
        ensures { IsTrue result ↔ (name_of self.now.identifier ≡ name.now) }
    {
        is_name_of(name, self.identifier)
    }

    /// Returns the property's values, in order. Nothing is copied.
    pub fn values(&self) -> &[Value<'a>]
        ensures { map value_of result.now ≡ self.now.values }
    {
        self.values.as_slice()
    }
}

/// One part of a tree, as the tree is written.
#[derive(Debug, Drop)]
pub enum Mark<'a> {
    /// A parenthesis that begins a tree.
    Begin,
    /// A semicolon that begins a node.
    Node,
    /// A property, with all its values.
    Prop(Prop<'a>),
    /// A parenthesis that ends a tree.
    End,
}

/// What may come next within a tree.
#[derive(Clone, Copy)]
pub(crate) enum Expects {
    /// A node: after the tree's first parenthesis.
    Node,
    /// Any mark (node, property, beginning or end of a tree): within a node.
    Any,
    /// The beginning of another inner tree, or the end of the tree round it: after an inner tree.
    Tree,
}

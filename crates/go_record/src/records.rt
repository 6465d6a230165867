//! The record of a game: its board's size and its actions.
use crate::actions::Action;
use go_board::Size;
use std::marker::Model;

/// What a tree's main line is: a game of Go, with its record, or another game.
#[derive(Debug, Drop)]
pub enum Kind {
    /// A game of Go.
    Go(Record),
    /// A tree of another game.
    Other,
}

/// A game of Go: the size of its board, and the actions on it. Every point of these is on the
/// board.
#[derive(Debug, Drop)]
pub struct Record {
    size: Size,
    actions: Vec<Action>,
}

impl Model for Record {
    ghost use Rattle.go_record.specs.Actions.{Actions, AreOnBoard};

    ghost Value = { Actions };

    ghost view = { λ r. record { size = r.size; actions = r.actions.items } };

    ghost invariant = { λ r. AreOnBoard (record { size = r.size; actions = r.actions.items }) };
}

impl Record {
    ghost use Rattle.std.specs.Prelude.{◌≡◌, All};
    ghost use Rattle.go_record.specs.Actions.{AreOnBoard, IsActionOn};

    /// Makes the record of these actions on a board of this size. Each of their points is on the
    /// board.
    pub(crate) fn new(size: Size, actions: Vec<Action>) -> Record
        requires { All (IsActionOn size) actions.items }
        ensures { result ≡ record { size = size; actions = actions.items } }
    {
        Record { size, actions }
    }

    /// Returns the size of the board.
    pub fn size(&self) -> Size
        ensures { result ≡ self.now.size }
    {
        self.size
    }

    /// Returns the actions, in order.
    pub fn actions(&self) -> &[Action]
        ensures value { result.now ≡ self.now.actions }
        ensures on_board { AreOnBoard self.now }
    {
        self.actions.as_slice()
    }
}

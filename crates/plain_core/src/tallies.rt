//! The tally of one game: how often each of its patterns was there and was played.
ghost use Rattle.std.specs.Prelude.{IfOk, IfErr};
ghost use Rattle.plain_core.specs.Tally.{IsTally};
ghost use Rattle.tally_core.specs.Faults.{IsTallyFault};

use crate::counts::Counts;
use crate::dictionaries::entries_of;
use crate::replays::count_game;
use go_record::Record;
use shape_core::Kinds;
use shape_dict::{Entry, FirstGame};
use std::alloc::Global;
use std::marker::Model;
use tally_core::{TallyFault, Walk};

/// How often each pattern of one game was there and was played. Each value is the tally of some
/// game: `tally_plain` alone makes one.
#[derive(Drop)]
pub struct Tally {
    moves: u64,
    entries: Vec<Entry>,
}

impl Model for Tally {
    ghost use Rattle.plain_core.specs.Tally.{Tallied, IsSomeTally};

    ghost Value = { Tallied };

    ghost view = { λ t. record { moves = t.moves; entries = t.entries.items } };

    ghost invariant = { λ t. IsSomeTally
        (record { moves = t.moves; entries = t.entries.items }) };
}

impl Tally {
    ghost use Rattle.std.specs.Prelude.{◌≡◌};
    ghost use Rattle.plain_core.specs.Tally.{IsSomeTally};

    /// Returns how many moves onto empty points the game has. For proofs, the contract also says
    /// that `self` is the tally of some game.
    pub fn moves(&self) -> u64
        ensures moves { result ≡ self.now.moves }
        ensures tally { IsSomeTally self.now }
    {
        self.moves
    }

    /// Returns the entries of the patterns, in the order of their words and without first games.
    /// For proofs, the contract also says that `self` is the tally of some game.
    pub fn entries(&self) -> &[Entry]
        ensures entries { result.now ≡ self.now.entries }
        ensures tally { IsSomeTally self.now }
    {
        self.entries.as_slice()
    }
}

/// Counts the patterns of a game. In the position before each move onto an empty point, the
/// canonical pattern of each empty point, with the mover to move, counts as there once, and that of
/// the move's point counts as played too; this definition is the project's own. `kinds` says which
/// kinds of pattern are counted.
///
/// # Errors
///
/// `TallyFault::Memory` if memory for the board or the counts was refused. `TallyFault::Overflow`
/// if the game has at least 2^64 / 5410 actions, which no input has: with fewer, no count passes
/// 2^64 - 1.
pub fn tally_plain(alloc: Global, kinds: Kinds, game_record: &Record) -> Result<Tally, TallyFault>
    ensures tally { IfOk result (IsTally kinds game_record.now) }
    ensures fault { IfErr result (IsTallyFault game_record.now) }
{
    let mut counts = Counts::new(alloc);
    let mut walk = Walk::begin(alloc, kinds);
    // A game that is counted alone has no number, so the entries name no first game.
    let unnumbered = FirstGame::new(None);
    let moves = count_game(&mut counts, &mut walk, game_record, unnumbered)?;
    Ok(Tally {
        moves,
        entries: entries_of(counts),
    })
}

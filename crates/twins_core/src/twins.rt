//! The first game of each record: the later ones are its twins.
ghost use Rattle.std.specs.Prelude.{◌≡◌, ◌∷◌, ◌++◌, [], List, None, OnOk, option_map};
ghost use Rattle.go_record.specs.Actions.{Actions};
ghost use Rattle.twins_core.specs.Twins.{Met, Knows};
ghost use Rattle.twins_core.specs.Inner.Seats.{met_at};
ghost use Rattle.twins_core.specs.Inner.Meets.{Meets};

use crate::codes::code_of;
use crate::lines::push_line;
use crate::seats::{Place, Seat, seat_of};
use go_record::Record;
use std::alloc::{AllocError, Global};
use std::collections::BTreeMap;
use std::marker::Model;

/// For each record (board size, setup and moves), the first game that has it, among the games that
/// were passed to `meet`.
///
/// Contracts see what it keeps: of each record its code (bytes that no other record has), with the
/// number of the first game that has it, where its tree is, and its file. `Knows` says which games
/// were passed to `meet`.
#[derive(Drop)]
pub struct Twins {
    first: BTreeMap<Vec<u8>, Seat>,
}

impl Model for Twins {
    ghost use Rattle.std.specs.Prelude.{List};
    ghost use Rattle.twins_core.specs.Twins.{Kept};
    ghost use Rattle.twins_core.specs.Inner.Finds.{kept_in};

    ghost Value = { List Kept };

    ghost view = { λ twins. kept_in twins.first };
}

impl Twins {
    /// Makes a `Twins` that has no game yet. It takes no memory.
    pub fn new(alloc: Global) -> Twins
        ensures { Knows result [] }
    {
        Twins {
            first: BTreeMap::new(alloc),
        }
    }

    /// Compares `game`, which is at `place` in the file `name`, with the games before. If an
    /// earlier game has its record, the line of `game` is appended to `text`; else `game` is kept
    /// as the first that has it.
    pub(crate) fn meet(
        &mut self,
        alloc: Global,
        game: &Record,
        place: Place,
        name: Option<&str>,
        text: &mut Vec<u8>,
    ) -> Result<(), AllocError>
        ensures { (before : List Met) → Knows self.old before → OnOk result
            (Meets self.new before (met_at game.now place (option_map (λ n. n.now) name.entry))
            text.old.items text.new.items) }
    {
        let code = code_of(alloc, game)?;
        if let Some(first) = self.first.get(code.as_slice()) {
            return push_line(text, place, name, first);
        }
        let seat = seat_of(alloc, place, name)?;
        self.first.insert(code, seat)?;
        Ok(())
    }
}

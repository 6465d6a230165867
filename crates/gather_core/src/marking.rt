//! The key of a pattern in a table, and the mark of its first game there.
ghost use Rattle.std.specs.Prelude.{◌≡◌, ◌<◌, IfSome};
ghost use Rattle.slot_table.specs.History.{least_at, IsAtMost};
ghost use Rattle.slot_table.specs.Passes.{IsPassOf};
ghost use Rattle.gather_core.specs.Entering.{MarksOnly, IsMarkAt};

use probe_core::{Key, ProbeOrder};
use shape_core::Shape;
use shape_dict::FirstGame;
use slot_table::{Pass, SlotTable};

/// Returns the key of a pattern: its canonical word.
pub fn key_of(shape: Shape) -> Key
    ensures { result ≡ shape }
{
    Key::new(shape.word().bits()).unwrap()
}

/// Marks `game` as the first game at `number`, a slot of the table, unless a game that is no later
/// is marked there. If `game` is unknown, nothing is done. `pass`, the right to call the table,
/// must be of the table.
pub fn mark_first<O: ProbeOrder>(
    table: &SlotTable<O>,
    pass: &mut Pass<O>,
    number: usize,
    game: FirstGame,
)
    requires pass { IsPassOf table.now pass.old }
    requires number { number < table.now.slots }
    ensures pass { IsPassOf table.now pass.new }
    ensures marks { MarksOnly table.now.slots (IsMarkAt number game) pass.old pass.new }
    ensures marked { IfSome game (IsAtMost (least_at number pass.new.seen)) }
{
    let Some(game) = game.get() else {
        return;
    };
    let is_early = table.first(pass, number).is_some_and(|first| first <= game);
    if !is_early {
        table.mark(pass, number, game);
    }
}

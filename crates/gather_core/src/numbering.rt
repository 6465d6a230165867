//! Gives patterns their numbers (the indices of their slots) in a table, and marks their first
//! games there.
ghost use Rattle.std.specs.Prelude.{◌≡◌, ℕ, ◌∷◌, [], All, IfErr, IfSome, OnOk};
ghost use Rattle.slot_table.specs.Passes.{IsPassOf};
ghost use Rattle.gather_core.specs.Entering.{CallsOnly};
ghost use Rattle.gather_core.specs.WordShares.{IsSettled, IsKeyIn, IsFirstOf, IsNumberFault};
ghost use Rattle.harvest_faults.specs.declared.faults.HarvestFault.TheVariants as fault;

use crate::marking::{key_of, mark_first};
use harvest_faults::HarvestFault;
use probe_core::{Answer, ProbeOrder};
use shape_dict::Entry;
use slot_table::{Pass, SlotTable};

/// Returns the fault that no number is free for the pattern of an entry. It has the pattern's first
/// game, or 0 if that is unknown.
fn full(entry: &Entry) -> HarvestFault
    ensures { (game : ℕ) × (result ≡ fault.Full game entry.now.shape)
        × IfSome entry.now.first (λ first. game ≡ first) }
{
    HarvestFault::Full {
        game: entry.first.get().unwrap_or(0),
        word: entry.shape.word(),
    }
}

/// Enters the pattern of an entry into the table, and marks the entry's first game at its number.
///
/// # Errors
///
/// `Full` if no number is free for the pattern.
fn number_one<O: ProbeOrder>(
    table: &SlotTable<O>,
    pass: &mut Pass<O>,
    entry: &Entry,
) -> Result<(), HarvestFault>
    requires pass { IsPassOf table.now pass.old }
    ensures pass { IsPassOf table.now pass.new }
    ensures settled { OnOk result (IsSettled table.now.slots pass.new.seen entry.now) }
    ensures calls { CallsOnly table.now.slots (IsKeyIn (entry.now ∷ []))
        (IsFirstOf table.now.slots pass.new.seen (entry.now ∷ [])) pass.old pass.new }
    ensures fault { IfErr result
        (IsNumberFault table.now.slots pass.new.seen (entry.now ∷ [])) }
{
    let Answer::Number(number) = table.enter(pass, key_of(entry.shape)) else {
        return Err(full(entry));
    };
    mark_first(table, pass, number, entry.first);
    Ok(())
}

/// Enters the pattern of each entry into the table, and marks the entry's first game at its number.
///
/// No other pattern is entered, and no other game marked. `pass`, the right to call the table, must
/// be of the table. It takes no memory.
///
/// # Errors
///
/// `Full` if no number is free for a pattern, with its first game, or 0 if that is unknown. By then
/// patterns of these entries may have got numbers and marks in the table.
pub fn number_entries<O: ProbeOrder>(
    table: &SlotTable<O>,
    pass: &mut Pass<O>,
    entries: &[Entry],
) -> Result<(), HarvestFault>
    requires pass { IsPassOf table.now pass.old }
    ensures pass { IsPassOf table.now pass.new }
    ensures settled { OnOk result (All (IsSettled table.now.slots pass.new.seen) entries.now) }
    ensures calls { CallsOnly table.now.slots (IsKeyIn entries.now)
        (IsFirstOf table.now.slots pass.new.seen entries.now) pass.old pass.new }
    ensures fault { IfErr result (IsNumberFault table.now.slots pass.new.seen entries.now) }
{
    for entry in entries {
        number_one(table, pass, entry)?;
    }
    Ok(())
}

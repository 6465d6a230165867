//! Enters a game's patterns into the table, each by its key (the pattern's word), and at last notes
//! the game at each pattern's number (slot). A pass is the right to call the table.
ghost use Rattle.std.specs.Prelude.{◌≡◌, ◌-◌, ◌^◌, ◌<◌, length, IfSome, IfNone, IfErr, OnOk, OnErr};
ghost use Rattle.slot_table.specs.Batches.{entered, AreMade, AreTold, AreEnteredUntil};
ghost use Rattle.slot_table.specs.Passes.{IsPassOf};
ghost use Rattle.tally_core.specs.Walk.{shapes_of};
ghost use Rattle.gather_core.specs.Entering.{MarksOnly};
ghost use Rattle.table_shares.specs.Inner.Entering.{AreNumbers, IsFirstRefusal, AreMarked};
ghost use Rattle.table_shares.specs.Inner.Entering.{IsMarkAmong};
ghost use Rattle.table_shares.specs.Inner.Making.{AreBelow};
ghost use Rattle.harvest_faults.specs.declared.faults.HarvestFault.TheVariants as fault;

use gather_core::{key_of, mark_first};
use harvest_faults::HarvestFault;
use probe_core::{Answer, Key, ProbeOrder};
use shape_dict::FirstGame;
use slot_table::{Pass, SlotTable};
use tally_core::Meeting;

/// Replaces `keys` by the keys of a game's patterns, in the order of `meetings` (the patterns with
/// their counts). `Memory` if memory was refused.
pub(crate) fn list_keys(keys: &mut Vec<Key>, meetings: &[Meeting]) -> Result<(), HarvestFault>
    ensures keys { OnOk result (keys.new.items ≡ shapes_of meetings.now) }
    ensures fault { IfErr result (λ found. found ≡ fault.Memory) }
{
    keys.clear();
    for meeting in meetings {
        keys.push(key_of(meeting.shape))?;
    }
    Ok(())
}

/// Enters these keys into the table, each if it isn't there, and replaces `answers` by the answer
/// for each key: the number (slot) that it has, or `Full` if no slot is free. After the first
/// `Full` most keys are not entered, and their answer is `Absent`.
///
/// # Errors
///
/// `Memory` if memory was refused; then nothing was entered.
pub(crate) fn enter_keys<O: ProbeOrder>(
    table: &SlotTable<O>,
    pass: &mut Pass<O>,
    keys: &[Key],
    answers: &mut Vec<Answer>,
) -> Result<(), HarvestFault>
    requires { IsPassOf table.now pass.old }
    ensures pass { IsPassOf table.now pass.new }
    ensures made { OnOk result
        (AreMade table.now.slots (entered keys.now answers.new.items) pass.old pass.new) }
    ensures told { OnOk result
        (AreTold table.now.slots pass.new.seen keys.now answers.new.items) }
    ensures until { OnOk result (AreEnteredUntil answers.new.items (length keys.now)) }
    ensures length { OnOk result (length answers.new.items ≡ length keys.now) }
    ensures same { OnErr result (pass.new ≡ pass.old) }
    ensures fault { IfErr result (λ found. found ≡ fault.Memory) }
{
    answers.resize(keys.len(), Answer::Absent)?;
    table.enter_all(pass, keys, answers.as_mut_slice());
    Ok(())
}

/// Returns the index of the first answer that is not `Answer::Number`, or None if all are numbers.
pub(crate) fn refused(answers: &[Answer]) -> Option<usize>
    ensures some { IfSome result (IsFirstRefusal answers.now) }
    ensures none { IfNone result (AreNumbers answers.now (length answers.now)) }
{
    for (i, found) in answers.iter().enumerate() {
        let Answer::Number(_) = *found else {
            return Some(i);
        };
    }
    None
}

/// Notes `game` in the table at each number among `answers`, unless the table has a game there that
/// is no later. Answers that are no number are skipped.
pub(crate) fn mark_all<O: ProbeOrder>(
    table: &SlotTable<O>,
    pass: &mut Pass<O>,
    answers: &[Answer],
    game: u64,
)
    requires pass { IsPassOf table.now pass.old }
    requires numbers { AreBelow table.now.slots answers.now }
    requires game { game < 2 ^ 64 - 1 }
    ensures pass { IsPassOf table.now pass.new }
    ensures marks { MarksOnly table.now.slots (IsMarkAmong answers.now game) pass.old pass.new }
    ensures marked { AreMarked pass.new.seen game answers.now (length answers.now) }
{
    for found in answers {
        let Answer::Number(number) = *found else {
            continue;
        };
        mark_first(table, pass, number, FirstGame::new(Some(game)));
    }
}

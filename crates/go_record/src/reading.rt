//! Reads a tree's main line into the record of a game.
ghost use Rattle.std.specs.Prelude.{◌≡◌, All, Ok, IfOk, IfErr};
ghost use Rattle.sgf_core.specs.Tree.{GameTree, main_line_of};
ghost use Rattle.sgf_core.specs.Marks.{marks_of};
ghost use Rattle.sgf_core.specs.Written.{IsSomeTree};
ghost use Rattle.sgf_core.specs.Values.{value_of};
ghost use Rattle.go_record.specs.Record.{is_go, board_of, root_of, first_value};
ghost use Rattle.go_record.specs.Record.{collected, node_deeds};
ghost use Rattle.go_record.specs.Actions.{IsActionOn};
ghost use Rattle.go_record.specs.Adding.{IsRecordOrMemory};
ghost use Rattle.go_record.specs.Inner.Adding.{IsFaultOrMemory};
ghost use Rattle.std.specs.Option.{option_map};
ghost use Rattle.std.specs.List.{flat_map};

use crate::actions::Action;
use crate::adding::add_nodes;
use crate::faults::RecordFault;
use crate::names::first_value;
use crate::records::{Kind, Record};
use crate::spelling::{number, size, trimmed};
use go_board::Size;
use sgf_core::{MainLine, Tree, Value};
use std::alloc::Global;

/// Returns the first value of the first property of this `name` in the first node of a main line,
/// or None if there is no such property.
fn root_value<'a>(mut line: MainLine<'_, 'a>, name: &[u8]) -> Option<Value<'a>>
    ensures { option_map value_of result ≡ first_value name.now (root_of line.entry) }
{
    let root = line.next()?;
    first_value(&root, name)
}

/// Returns whether a tree with this `value` of GM, the property for the kind of game, is a game of
/// Go: it has no GM, or the value is empty or the number 1.
fn is_go(value: Option<Value<'_>>) -> bool
    ensures { result ≡ is_go (option_map value_of value.entry) }
{
    let Some(value) = value else {
        return true;
    };
    let text = trimmed(value.bytes);
    text.is_empty() || number(text) == Some(1)
}

/// Returns the board's size by the `value` of SZ, the property for it: 19 by 19 if there is none or
/// it is empty. `BadSize` if it is no size from 1 to 52 by 1 to 52.
fn board_of(value: Option<Value<'_>>) -> Result<Size, RecordFault>
    ensures { result ≡ board_of (option_map value_of value.entry) }
{
    match value {
        None => Ok(Size::new(19, 19).unwrap()),
        Some(value) => size(value.bytes).ok_or(RecordFault::BadSize(value.at)),
    }
}

/// Returns the actions of a main line, on a board of this `size`. It takes memory for them. If
/// values have faults, it returns the fault of the first of these instead, or `Memory` if memory
/// was refused before that.
fn actions_of(alloc: Global, size: Size, line: MainLine<'_, '_>) -> Result<Vec<Action>, RecordFault>
    ensures actions { IfOk result (λ actions. collected (flat_map (node_deeds size) line.entry)
        ≡ Ok actions.items) }
    ensures fault { IfErr result (IsFaultOrMemory (flat_map (node_deeds size) line.entry)) }
    ensures on_board { IfOk result (λ actions. All (IsActionOn size) actions.items) }
{
    let mut actions = Vec::new(alloc);
    add_nodes(size, line, &mut actions)?;
    Ok(actions)
}

/// Returns the record of a tree's main line, or `Other` if the tree is of another game.
///
/// Only the first GM (kind of game) and the first SZ (size of the board) of the first node count,
/// each by its first value. No GM, an empty value and the number 1 are Go; no SZ and an empty value
/// are 19 by 19. In each node all setup properties come first, in their order, and then all moves,
/// in theirs; each value is an action of its own, except an empty setup value, which does nothing
/// (this project's reading of SGF FF[4]).
///
/// # Errors
///
/// There is no error if the tree is of another game, whatever its SZ is. `BadSize` if the value of
/// SZ is no size from 1 to 52 by 1 to 52. Otherwise the first of these, in the order of the
/// actions: `BadPoint` if a value spells no point, rectangle or pass, and `OffBoard` if a point of
/// it is off the board. Each has the byte offset of its value in the input.
///
/// `Memory` if memory for the actions was refused. It is asked for only if an action comes before
/// the first fault: never for a tree of another game, with a bad size, or without an action before
/// its first fault. The tree is only read, so the call may be tried again.
pub fn read_record(alloc: Global, tree: &Tree<'_>) -> Result<Kind, RecordFault>
    ensures reads { (game : GameTree) → tree.now.marks ≡ marks_of game
        → IsRecordOrMemory (main_line_of game) result }
    ensures tree { IsSomeTree tree.now }
{
    if !is_go(root_value(tree.main_line(), b"GM")) {
        return Ok(Kind::Other);
    }
    let size = board_of(root_value(tree.main_line(), b"SZ"))?;
    let actions = actions_of(alloc, size, tree.main_line())?;
    Ok(Kind::Go(Record::new(size, actions)))
}

//! The actions of a main line, node by node: of each node all setups (stones put or removed without
//! a move) first, then all moves.
ghost use Rattle.std.specs.Prelude.{map, All, OnOk};
ghost use Rattle.std.specs.List.{flat_map};
ghost use Rattle.sgf_core.specs.Values.{value_of};
ghost use Rattle.go_record.specs.Actions.{IsActionOn};
ghost use Rattle.go_record.specs.Inner.Adding.{Adds, action_of, round_deeds};
ghost use Rattle.go_record.specs.Record.{node_deeds};

use crate::actions::Action;
use crate::deeds::Deed;
use crate::faults::RecordFault;
use crate::names::{Round, deed_in};
use go_board::Size;
use sgf_core::{MainLine, Node, Value};

/// Appends to `actions`, in order, the action of each of a property's `values`; an empty setup
/// value has none. `deed` says whether the property sets stones or plays moves, and which. It stops
/// at the first value with a fault and returns that fault, or `Memory` if memory was refused. The
/// actions before that stay appended.
fn add_values(
    size: Size,
    deed: Deed,
    values: &[Value<'_>],
    actions: &mut Vec<Action>,
) -> Result<(), RecordFault>
    requires { All (IsActionOn size) actions.old.items }
    ensures adds { Adds (map (λ v. action_of size deed (value_of v)) values.now) actions.old.items
        actions.new.items result }
    ensures on_board { OnOk result (All (IsActionOn size) actions.new.items) }
{
    for value in values {
        if let Some(action) = deed.action(size, *value)? {
            actions.push(action)?;
        }
    }
    Ok(())
}

/// Appends to `actions` those of a node's setup properties or of its move properties, as `round`
/// says. It stops at the first fault and returns it; the actions before that stay appended.
fn add_round(
    size: Size,
    round: Round,
    node: &Node<'_, '_>,
    actions: &mut Vec<Action>,
) -> Result<(), RecordFault>
    requires { All (IsActionOn size) actions.old.items }
    ensures adds { Adds (flat_map (round_deeds size round) node.now) actions.old.items
        actions.new.items result }
    ensures on_board { OnOk result (All (IsActionOn size) actions.new.items) }
{
    for prop in node.props() {
        if let Some(deed) = deed_in(round, prop) {
            add_values(size, deed, prop.values(), actions)?;
        }
    }
    Ok(())
}

/// Appends the actions of a main line's nodes to `actions`: of each node its setups, then its
/// moves. It takes memory. It stops at the first fault and returns it; the actions before that stay
/// appended.
pub(crate) fn add_nodes(
    size: Size,
    line: MainLine<'_, '_>,
    actions: &mut Vec<Action>,
) -> Result<(), RecordFault>
    requires { All (IsActionOn size) actions.old.items }
    ensures adds { Adds (flat_map (node_deeds size) line.entry) actions.old.items actions.new.items
        result }
    ensures on_board { OnOk result (All (IsActionOn size) actions.new.items) }
{
    for node in line {
        add_round(size, Round::Setups, &node, actions)?;
        add_round(size, Round::Moves, &node, actions)?;
    }
    Ok(())
}

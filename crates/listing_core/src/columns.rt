//! The columns of a line: where the tree is, what it is, and what a game's first node says.
ghost use Rattle.std.specs.Prelude.{◌≡◌, ◌++◌, ℕ, OnOk, option_map, List};
ghost use Rattle.std.specs.Fmt.{decimal};
ghost use Rattle.sgf_core.specs.Marks.{marks_of};
ghost use Rattle.sgf_core.specs.Tree.{GameTree, main_line_of};
ghost use Rattle.sgf_core.specs.Values.{value_of};
ghost use Rattle.go_record.specs.Record.{front_value, first_value, root_of};
ghost use Rattle.listing_core.specs.Columns.{value_text, key_text, property_text, key_value};
ghost use Rattle.listing_core.specs.Columns.{column, key_columns, shown_keys, refused_columns};
ghost use Rattle.listing_core.specs.Columns.{what_columns, columns_text};
ghost use Rattle.listing_core.specs.Lines.{ending};

use crate::keys::{Key, SHOWN, key_text};
use crate::lines::{Line, What};
use crate::simple::push_simple;
use crate::writing::{push_count, push_ending, push_place, push_record_fault, push_size};
use go_board::Size;
use go_record::RecordFault;
use sgf_core::{MainLine, Node, Prop, Tree, Value};
use std::alloc::AllocError;

/// The tabs in place of the columns that only a game has.
pub(crate) const NO_COLUMNS: &[u8] = b"\t\t\t\t\t\t\t\t\t\t\t";

/// Returns the first value of a property, or None if it has none.
fn front_value<'a>(prop: &Prop<'a>) -> Option<Value<'a>>
    ensures { option_map value_of result ≡ front_value prop.now.values }
{
    prop.values().first().copied()
}

/// Returns the first value of the node's first property of this name, or None if it has none.
fn first_value<'a>(node: &Node<'_, 'a>, name: &[u8]) -> Option<Value<'a>>
    ensures { option_map value_of result ≡ first_value name.now node.now }
{
    for prop in node.props() {
        if prop.is(name) {
            return front_value(prop);
        }
    }
    None
}

/// Returns the first value of the property of this name in the first node of a main line, or None
/// if that node has no such property.
fn root_value<'a>(mut line: MainLine<'_, 'a>, name: &[u8]) -> Option<Value<'a>>
    ensures { option_map value_of result ≡ first_value name.now (root_of line.entry) }
{
    let root = line.next()?;
    first_value(&root, name)
}

/// Appends what a value says, as simple text (one line without escapes); nothing if there is none.
fn push_value(text: &mut Vec<u8>, value: Option<Value<'_>>) -> Result<(), AllocError>
    ensures { OnOk result (text.new.items
        ≡ text.old.items ++ value_text (option_map value_of value.entry)) }
{
    match value {
        Some(value) => push_simple(text, value.bytes),
        None => Ok(()),
    }
}

/// Appends the first value of the property of this name in the tree's first node, as simple text;
/// nothing if it has no such property.
fn push_property(text: &mut Vec<u8>, name: &[u8], tree: &Tree<'_>) -> Result<(), AllocError>
    ensures { (game : GameTree) → tree.now.marks ≡ marks_of game
        → OnOk result (text.new.items
        ≡ text.old.items ++ property_text name.now (main_line_of game)) }
{
    push_value(text, root_value(tree.main_line(), name))
}

/// Appends what a game says for `key`: the size of its board, or the property of this name in its
/// first node (nothing if it has none).
pub(crate) fn push_key_value(
    text: &mut Vec<u8>,
    key: Key,
    tree: &Tree<'_>,
    size: Size,
) -> Result<(), AllocError>
    ensures { (game : GameTree) → tree.now.marks ≡ marks_of game
        → OnOk result (text.new.items
        ≡ text.old.items ++ key_value key (main_line_of game) size) }
{
    match key {
        Key::Size => push_size(text, size),
        _ => push_property(text, key_text(key), tree),
    }
}

/// Appends a tab and a number.
fn push_count_column(text: &mut Vec<u8>, count: usize) -> Result<(), AllocError>
    ensures { OnOk result (text.new.items ≡ text.old.items ++ column (decimal count)) }
{
    text.push(b'\t')?;
    push_count(text, count)
}

/// Appends the columns of what a game's first node says (players, ranks, date and so on), each
/// after a tab.
fn push_key_columns(text: &mut Vec<u8>, tree: &Tree<'_>, size: Size) -> Result<(), AllocError>
    ensures { (game : GameTree) → tree.now.marks ≡ marks_of game
        → OnOk result (text.new.items
        ≡ text.old.items ++ key_columns shown_keys (main_line_of game) size) }
{
    for key in SHOWN {
        text.push(b'\t')?;
        push_key_value(text, key, tree, size)?;
    }
    Ok(())
}

/// Appends the columns of a tree that is refused: `refused` with the fault of its record, and the
/// tabs of columns that only a game has.
fn push_refused_columns(text: &mut Vec<u8>, fault: RecordFault) -> Result<(), AllocError>
    ensures { OnOk result (text.new.items ≡ text.old.items ++ refused_columns fault) }
{
    text.extend_from_slice(b"refused ")?;
    push_record_fault(text, fault)?;
    text.extend_from_slice(NO_COLUMNS)
}

/// Appends the columns that say what the tree is. For a game these are also the columns of its
/// board's size, its moves, its occasions (moves onto empty points), and what its first node says.
fn push_what_columns(text: &mut Vec<u8>, tree: &Tree<'_>, what: What) -> Result<(), AllocError>
    ensures { (game : GameTree) → tree.now.marks ≡ marks_of game
        → OnOk result (text.new.items
        ≡ text.old.items ++ what_columns (main_line_of game) what) }
{
    match what {
        What::Game {
            size,
            moves,
            occasions,
        } => {
            text.extend_from_slice(b"game\t")?;
            push_size(text, size)?;
            push_count_column(text, moves)?;
            push_count_column(text, occasions)?;
            push_key_columns(text, tree, size)
        }
        What::Other => {
            text.extend_from_slice(b"other")?;
            text.extend_from_slice(NO_COLUMNS)
        }
        What::Refused(fault) => push_refused_columns(text, fault),
    }
}

/// Appends the line of columns of a tree: its number, where it begins and ends, what it is, and at
/// the end the name of its file, if there is one.
pub(crate) fn push_columns(
    text: &mut Vec<u8>,
    name: Option<&str>,
    tree: &Tree<'_>,
    line: &Line,
) -> Result<(), AllocError>
    ensures { (game : GameTree) → tree.now.marks ≡ marks_of game
        → OnOk result (text.new.items ≡ text.old.items
        ++ columns_text (option_map (λ n. n.now) name.entry) (main_line_of game) line.now) }
{
    push_place(text, b"\t", line.number, line.from, line.to)?;
    push_what_columns(text, tree, line.what)?;
    push_ending(text, b"\t", name)
}

//! Which trees are chosen, and what is written of them.
ghost use Rattle.std.specs.Prelude.{◌≡◌, ◌++◌, ◌≤◌, length, slice_range, OnOk, IfOk};
ghost use Rattle.shape_dict.specs.Text.{line_feed};
ghost use Rattle.sgf_core.specs.Marks.{marks_of};
ghost use Rattle.sgf_core.specs.Tree.{GameTree, main_line_of};
ghost use Rattle.listing_core.specs.Choice.{lists_all, is_chosen, name_in, form_text, piece};
ghost use Rattle.listing_core.specs.Choice.{fault_piece};

use crate::asked::{Asked, Form};
use crate::columns::{NO_COLUMNS, push_columns};
use crate::conditions::meets_all;
use crate::lines::{Line, What};
use crate::writing::{push_fault, push_line};
use sgf_core::{SgfFault, Tree};
use std::alloc::{AllocError, Global};

/// Whether trees that are no games are written too: if there are no conditions, and the form is
/// lines or columns. Only games are cut out (written as they stand in the input).
fn lists_all(asked: &Asked<'_>) -> bool
    ensures { result ≡ lists_all asked.now.form asked.now.conditions.now }
{
    match asked.form {
        Form::Lines | Form::Columns => asked.conditions.is_empty(),
        Form::Trees => false,
    }
}

/// Whether `tree` is chosen. `what` says what it is by its record: a game is chosen if it meets all
/// conditions, and any other tree if `lists_all` is true. It takes memory for the texts that are
/// compared.
fn is_chosen(
    alloc: Global,
    asked: &Asked<'_>,
    tree: &Tree<'_>,
    what: What,
) -> Result<bool, AllocError>
    ensures { (game : GameTree) → tree.now.marks ≡ marks_of game → IfOk result (λ found. found
        ≡ is_chosen asked.now.form asked.now.conditions.now (main_line_of game) what) }
{
    match what {
        What::Game { size, .. } => meets_all(alloc, asked.conditions, tree, size),
        What::Other | What::Refused(_) => Ok(lists_all(asked)),
    }
}

/// Appends the bytes of a tree, which are those of `input` from `from` up to `to`, and a line feed.
fn push_cut(text: &mut Vec<u8>, input: &[u8], from: usize, to: usize) -> Result<(), AllocError>
    requires { (from ≤ to) × (to ≤ length input.now) }
    ensures { OnOk result (text.new.items
        ≡ text.old.items ++ (slice_range input.now from to ++ line_feed)) }
{
    text.extend_from_slice(&input[from..to])?;
    text.push(b'\n')?;
    Ok(())
}

/// Appends a chosen tree in the form that is asked for: a line of words, a line of columns, or the
/// tree itself as it stands in `input`.
fn push_form(
    asked: &Asked<'_>,
    input: &[u8],
    tree: &Tree<'_>,
    line: &Line,
    text: &mut Vec<u8>,
) -> Result<(), AllocError>
    requires { (line.now.from ≤ line.now.to) × (line.now.to ≤ length input.now) }
    ensures { (game : GameTree) → tree.now.marks ≡ marks_of game → OnOk result (text.new.items
        ≡ text.old.items ++ form_text asked.now.form (name_in asked.now) input.now
        (main_line_of game) line.now) }
{
    match asked.form {
        Form::Lines => push_line(text, asked.name, line),
        Form::Columns => push_columns(text, asked.name, tree, line),
        Form::Trees => push_cut(text, input, line.from, line.to),
    }
}

/// Appends to `text` what is written of `tree` in the form that is asked for; nothing if the tree
/// is not chosen. `line` is what a listing says of the tree: what it is, and its place in `input`.
/// It takes memory for the text, and for texts that are compared.
pub(crate) fn push_piece(
    alloc: Global,
    asked: &Asked<'_>,
    input: &[u8],
    tree: &Tree<'_>,
    line: &Line,
    text: &mut Vec<u8>,
) -> Result<(), AllocError>
    requires { (line.now.from ≤ line.now.to) × (line.now.to ≤ length input.now) }
    ensures { (game : GameTree) → tree.now.marks ≡ marks_of game → OnOk result (text.new.items
        ≡ text.old.items ++ piece asked.now input.now (main_line_of game) line.now) }
{
    if is_chosen(alloc, asked, tree, line.what)? {
        push_form(asked, input, tree, line, text)?;
    }
    Ok(())
}

/// Appends the last line of an input with a fault of syntax: no tree can be read from byte `from`
/// on, up to `to`, the end of the input. Appends nothing if there are conditions, or if trees are
/// cut out (written as they stand).
pub(crate) fn push_fault_piece(
    asked: &Asked<'_>,
    from: usize,
    to: usize,
    fault: SgfFault,
    text: &mut Vec<u8>,
) -> Result<(), AllocError>
    ensures { OnOk result (text.new.items
        ≡ text.old.items ++ fault_piece asked.now from to fault) }
{
    if !lists_all(asked) {
        return Ok(());
    }
    match asked.form {
        Form::Lines => push_fault(text, b" ", b"", asked.name, from, to, fault),
        Form::Columns => push_fault(text, b"\t", NO_COLUMNS, asked.name, from, to, fault),
        Form::Trees => Ok(()),
    }
}

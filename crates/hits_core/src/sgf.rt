//! The SGF file of a hit (a time that a pattern was played or was there): its game up to the
//! position before the move.
ghost use Rattle.std.specs.Prelude.{◌≡◌, ◌++◌, ◌≤◌, OnOk, IfOk, None, length, take, drop};
ghost use Rattle.hits_core.specs.Lines.{point_text};
ghost use Rattle.hits_core.specs.Sgf.{actions_before, actions_from, value_text, size_text};
ghost use Rattle.hits_core.specs.Sgf.{span_text, setup_name, colour_name, goes_on, setup_front};
ghost use Rattle.hits_core.specs.Sgf.{is_same_stone, node_text, action_text, actions_text};
ghost use Rattle.hits_core.specs.Sgf.{mark_text, played_text, root_text, position_branch, sgf_text};

use crate::hits::Hit;
use crate::writing::push_point;
use go_board::{Colour, Point, Size, Stone};
use go_record::{Action, Record};
use shape_dict::push_number;
use std::alloc::{AllocError, Global};

/// Returns the index in `actions` of the move or pass with `moves` moves and passes before it, or
/// the length of `actions` if there is none. Setup is not counted.
fn place_of(actions: &[Action], moves: u64) -> usize
    ensures inside { result ≤ length actions.now }
    ensures before { take result actions.now ≡ actions_before moves actions.now }
    ensures from { drop result actions.now ≡ actions_from moves actions.now }
{
    let mut left = moves;
    for place in 0..actions.len() {
        match actions[place] {
            Action::Set { .. } => {}
            Action::Move { .. } | Action::Pass { .. } => {
                if left == 0 {
                    return place;
                }
                left -= 1;
            }
        }
    }
    actions.len()
}

/// Appends a point as SGF has it in a value, such as `[dp]`.
fn push_point_value(text: &mut Vec<u8>, point: Point) -> Result<(), AllocError>
    ensures { OnOk result (text.new.items ≡ text.old.items ++ value_text (point_text point)) }
{
    text.extend_from_slice(b"[")?;
    push_point(text, point)?;
    text.extend_from_slice(b"]")
}

/// Appends the size of a board as SGF has it: `19`, or columns and rows as `19:13` if they differ.
#[tactic(auto, unfolding(crate::specs::Sgf::size_text))]
fn push_size(text: &mut Vec<u8>, size: Size) -> Result<(), AllocError>
    ensures { OnOk result (text.new.items ≡ text.old.items ++ size_text size) }
{
    push_number(text, u64::from(size.columns()))?;
    if size.columns() == size.rows() {
        return Ok(());
    }
    text.extend_from_slice(b":")?;
    push_number(text, u64::from(size.rows()))
}

/// Appends the size of a board as an SGF value, such as `[19]`.
fn push_size_value(text: &mut Vec<u8>, size: Size) -> Result<(), AllocError>
    ensures { OnOk result (text.new.items ≡ text.old.items ++ value_text (size_text size)) }
{
    text.extend_from_slice(b"[")?;
    push_size(text, size)?;
    text.extend_from_slice(b"]")
}

/// Appends the beginning of the file: the first node with the version of SGF, Go, and the board's
/// size.
fn push_root(text: &mut Vec<u8>, size: Size) -> Result<(), AllocError>
    ensures { OnOk result (text.new.items ≡ text.old.items ++ root_text size) }
{
    text.extend_from_slice(b"(;FF[4]GM[1]SZ")?;
    push_size_value(text, size)
}

/// Appends the points of a rectangle as SGF has them: `aa` if it is one point, else its corners
/// `aa:cc`.
fn push_span(text: &mut Vec<u8>, low: Point, high: Point) -> Result<(), AllocError>
    ensures { OnOk result (text.new.items ≡ text.old.items ++ span_text low high) }
{
    push_point(text, low)?;
    if low.column == high.column && low.row == high.row {
        return Ok(());
    }
    text.extend_from_slice(b":")?;
    push_point(text, high)
}

/// Returns the SGF property that sets up `stone`: AB, AW, or AE, which takes stones away.
fn setup_name(stone: Stone) -> &'static [u8]
    ensures { result.now ≡ setup_name stone }
{
    match stone {
        Stone::Black => b"AB",
        Stone::White => b"AW",
        Stone::Empty => b"AE",
    }
}

/// Returns the SGF property of a colour's moves: B or W.
fn colour_name(colour: Colour) -> &'static [u8]
    ensures { result.now ≡ colour_name colour }
{
    match colour {
        Colour::Black => b"B",
        Colour::White => b"W",
    }
}

/// Whether two stones are the same.
fn is_same_stone(one: Stone, other: Stone) -> bool
    ensures { result ≡ is_same_stone one other }
{
    match (one, other) {
        (Stone::Black, Stone::Black) => true,
        (Stone::White, Stone::White) => true,
        (Stone::Empty, Stone::Empty) => true,
        _ => false,
    }
}

/// Whether a setup of `stone` after the action `before` is written as one more value of that
/// action's property: if `before` is a setup of the same stone.
fn goes_on(before: Option<Action>, stone: Stone) -> bool
    ensures { result ≡ goes_on before stone }
{
    match before {
        Some(Action::Set { stone: last, .. }) => is_same_stone(last, stone),
        Some(Action::Move { .. }) | Some(Action::Pass { .. }) | None => false,
    }
}

/// Appends the name of the property that sets up `stone`. If there is an action `before`, a new
/// node is begun first; but nothing is appended if `before` is a setup of the same stone, whose
/// property gets one more value.
fn push_setup_front(
    text: &mut Vec<u8>,
    before: Option<Action>,
    stone: Stone,
) -> Result<(), AllocError>
    ensures { OnOk result (text.new.items ≡ text.old.items ++ setup_front before stone) }
{
    if before.is_none() {
        return text.extend_from_slice(setup_name(stone));
    }
    if goes_on(before, stone) {
        return Ok(());
    }
    text.extend_from_slice(b"\n;")?;
    text.extend_from_slice(setup_name(stone))
}

/// Appends `action` as SGF; `before` is the action before it, if there is one.
fn push_action(text: &mut Vec<u8>, before: Option<Action>, action: Action) -> Result<(), AllocError>
    ensures { OnOk result (text.new.items ≡ text.old.items ++ action_text before action) }
{
    match action {
        Action::Set { low, high, stone } => {
            push_setup_front(text, before, stone)?;
            text.extend_from_slice(b"[")?;
            push_span(text, low, high)?;
            text.extend_from_slice(b"]")
        }
        Action::Move { colour, at } => {
            text.extend_from_slice(b"\n;")?;
            text.extend_from_slice(colour_name(colour))?;
            push_point_value(text, at)
        }
        Action::Pass { colour } => {
            text.extend_from_slice(b"\n;")?;
            text.extend_from_slice(colour_name(colour))?;
            text.extend_from_slice(b"[]")
        }
    }
}

/// Appends `actions` as SGF. If the first of them is setup, it is written into the first node.
fn push_actions(text: &mut Vec<u8>, actions: &[Action]) -> Result<(), AllocError>
    ensures { OnOk result (text.new.items ≡ text.old.items ++ actions_text None actions.now) }
{
    let mut before = None;
    for action in actions {
        push_action(text, before, *action)?;
        before = Some(*action);
    }
    Ok(())
}

/// Appends a mark on a point, a triangle.
fn push_mark(text: &mut Vec<u8>, point: Point) -> Result<(), AllocError>
    ensures { OnOk result (text.new.items ≡ text.old.items ++ mark_text point) }
{
    text.extend_from_slice(b"TR")?;
    push_point_value(text, point)
}

/// Appends the branch that shows the position before the move of `hit`: who is to move, and a mark
/// on the hit's point.
fn push_position(text: &mut Vec<u8>, hit: &Hit) -> Result<(), AllocError>
    ensures { OnOk result (text.new.items ≡ text.old.items ++ position_branch hit.now) }
{
    text.extend_from_slice(b"\n(;PL[")?;
    text.extend_from_slice(colour_name(hit.mover))?;
    text.extend_from_slice(b"]")?;
    push_mark(text, hit.at)?;
    text.extend_from_slice(b")")
}

/// Appends a branch with the first of `actions`, if that is a move or a pass; else nothing.
fn push_played(text: &mut Vec<u8>, actions: &[Action]) -> Result<(), AllocError>
    ensures { OnOk result (text.new.items ≡ text.old.items ++ played_text actions.now) }
{
    match actions.first() {
        None | Some(Action::Set { .. }) => Ok(()),
        Some(Action::Move { colour, at }) => {
            text.extend_from_slice(b"\n(;")?;
            text.extend_from_slice(colour_name(*colour))?;
            push_point_value(text, *at)?;
            text.extend_from_slice(b")")
        }
        Some(Action::Pass { colour }) => {
            text.extend_from_slice(b"\n(;")?;
            text.extend_from_slice(colour_name(*colour))?;
            text.extend_from_slice(b"[])")
        }
    }
}

/// Returns the SGF file for `hit`, a hit in the game `game`: the game up to the position before the
/// hit's move, with a mark on the hit's point, and two branches. The first, in which the main line
/// ends, has no move: it has the mark again, and says who is to move. The other has the move that
/// was played. It takes memory for the text.
///
/// # Errors
///
/// `AllocError` if memory was refused.
pub fn sgf_of(alloc: Global, game: &Record, hit: &Hit) -> Result<Vec<u8>, AllocError>
    ensures { IfOk result (λ text. text.items ≡ sgf_text game.now hit.now) }
{
    let actions = game.actions();
    let place = place_of(actions, hit.number.saturating_sub(1));
    let mut text = Vec::new(alloc);
    push_root(&mut text, game.size())?;
    push_actions(&mut text, &actions[..place])?;
    push_mark(&mut text, hit.at)?;
    push_position(&mut text, hit)?;
    push_played(&mut text, &actions[place..])?;
    text.extend_from_slice(b")\n")?;
    Ok(text)
}

//! The words of the command line of `shape_sheet`, and the sheet (the drawing of a dictionary's
//! first patterns) that they ask for.
ghost use Rattle.std.specs.Prelude.{◌≡◌, ◌≢◌, refl, IfSome, IfNone};
ghost use Rattle.command_lines.specs.Values.{rows_in};
ghost use Rattle.engine_core.specs.declared.faults.RunFault.TheVariants as fault;
ghost use Rattle.shape_sheet.specs.Commands.{program_app};
ghost use Rattle.shape_sheet.specs.Words.{HasNoOrder, HasNoSheet, IsAsked, IsDrawing, IsOrderOf, name_of};
ghost use Rattle.sheet_core.specs.declared.orders.Order.{Order};

use crate::commands::program;
use clap::{ArgMatches, Command};
use command_lines::{FromArguments, choice, number, word_of};
use engine_core::RunFault;
use shape_core::Kind;
use sheet_core::{Asked, Form, Order};
use std::alloc::{AllocError, Global};

/// What the words ask for: a sheet, which draws the first patterns of a dictionary.
#[derive(Debug, Drop)]
pub struct Drawing<'a> {
    /// The sheet that is to be drawn.
    pub sheet: Asked,
    /// The name of the file with lines of hits, if one is named.
    pub hits: Option<&'a str>,
}

/// Returns the order of this name, or None if no order has it.
fn order_named(name: &str) -> Option<Order>
    ensures found { IfSome result (λ order. name.now ≡ name_of order) }
    ensures none { IfNone result ((order : Order) → name.now ≢ name_of order) }
{
    match name {
        "played" => Some(Order::Played),
        "urgency" => Some(Order::Urgency),
        "there" => Some(Order::There),
        "bound" => Some(Order::Bound),
        _ => None,
    }
}

/// Returns the order that the option `--by` names, or None if it names none.
fn order_of(matches: &ArgMatches<'_>) -> Option<Order>
    ensures found { IfSome result (IsOrderOf (rows_in matches.now)) }
    ensures none { IfNone result (HasNoOrder (rows_in matches.now)) }
{
    match word_of(matches, "by") {
        Some(name) => order_named(name),
        None => None,
    }
}

/// Returns what the sheet is to show; None if no known order is named, or a number is missing.
#[tactic(auto, using(crate::proofs::Asked::no_sheet_order, crate::proofs::Asked::no_sheet_least, crate::proofs::Asked::no_sheet_most))]
fn sheet_of(matches: &ArgMatches<'_>) -> Option<Asked>
    ensures asked { IfSome result (IsAsked (rows_in matches.now)) }
    ensures none { IfNone result (HasNoSheet (rows_in matches.now)) }
{
    let order = order_of(matches)?;
    let least = number(matches, "least")?;
    let most = number(matches, "most")?;
    Some(Asked {
        order,
        kind: choice(matches, "diamonds", Kind::Diamond, Kind::Square),
        least,
        most: most as usize,
        form: choice(matches, "plain", Form::Plain, Form::Page),
    })
}

impl<'a> FromArguments<'a> for Drawing<'a> {
    ghost app = { program_app };

    ghost IsAsked = { IsDrawing };

    ghost IsWrong = { λ rows found. (found ≡ fault.Usage) × HasNoSheet rows };

    ghost simple = { refl };

    fn program(alloc: Global) -> Result<Command<'a>, AllocError> {
        program(alloc)
    }

    /// Returns what the values ask for; no values at all ask for a page of the 50 squares that were
    /// played most. `Usage` if a value names no known order, or a number is missing or too large.
    fn from_values(_alloc: Global, matches: &ArgMatches<'a>) -> Result<Drawing<'a>, RunFault> {
        match sheet_of(matches) {
            Some(sheet) => Ok(Drawing {
                sheet,
                hits: word_of(matches, "hits"),
            }),
            None => Err(RunFault::Usage),
        }
    }
}

//! Defines programs and subcommands for `clap`, and adds arguments to them.
ghost use Rattle.std.specs.Prelude.{◌≡◌, false, IfOk};
ghost use Rattle.clap.specs.Words.{app_of, new_app, rule_of, with_rule, with_subcommand};
ghost use Rattle.clap.specs.declared.Command.TheViews.{out-Command as fields_of};
ghost use Rattle.command_lines.specs.Arguments.{bare_app};

use clap::{Arg, Command};
use std::alloc::{AllocError, Global};

/// The version of all programs, which is the one at the top of `CHANGELOG.md`.
const VERSION: &str = "1.1.0";

/// Defines a subcommand of this name, without arguments. Its help says what it is about, how it is
/// used and, at the end, `notes`. It takes no memory.
pub fn command_named<'a>(
    alloc: Global,
    name: &'a str,
    about: &'a str,
    usage: &'a str,
    notes: &'a str,
) -> Command<'a>
    ensures app { app_of result ≡ new_app name.entry.now }
    ensures local { (fields_of result).has_globals ≡ false }
{
    Command::new(alloc, name)
        .about(about)
        .override_usage(usage)
        .after_help(notes)
}

/// Defines the program of this name, without arguments and subcommands. Its help says what it is
/// about, how it is used and, at the end, `notes`; `--version` prints its name and version. The
/// words that it is to read do not begin with its name. It takes no memory.
pub fn program_named<'a>(
    alloc: Global,
    name: &'a str,
    about: &'a str,
    usage: &'a str,
    notes: &'a str,
) -> Command<'a>
    ensures { app_of result ≡ bare_app name.entry.now }
{
    command_named(alloc, name, about, usage, notes)
        .version(VERSION)
        .no_binary_name(true)
}

/// Returns the command with one more argument, after its others. It takes memory.
///
/// # Errors
///
/// `AllocError` if memory was refused.
pub fn with_argument<'a>(command: Command<'a>, argument: Arg<'a>) -> Result<Command<'a>, AllocError>
    requires { argument.global ≡ false }
    ensures app { IfOk result (λ new.
        app_of new ≡ with_rule (app_of command.entry) (rule_of argument.entry)) }
    ensures local { IfOk result (λ new.
        (fields_of new).has_globals ≡ (fields_of command.entry).has_globals) }
{
    command.arg(argument)
}

/// Returns the command with one more subcommand, after its others. It takes memory.
///
/// # Errors
///
/// `AllocError` if memory was refused.
pub fn with_command<'a>(command: Command<'a>, other: Command<'a>) -> Result<Command<'a>, AllocError>
    requires { (fields_of other).has_globals ≡ false }
    ensures { IfOk result (λ new.
        app_of new ≡ with_subcommand (app_of command.entry) (app_of other.entry).top) }
{
    command.subcommand(other)
}

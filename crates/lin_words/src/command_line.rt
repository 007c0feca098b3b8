//! The command line, as `clap` is told of it, and the values that it finds.
ghost use Rattle.std.specs.Prelude.{◌≡◌, IfOk, option_map};
ghost use Rattle.clap.specs.Words.{app_of, first_of, found_of, rows_of, with_rule};
ghost use Rattle.lin_words.specs.CommandLine.{bare_command_line, command_line, option, positional, with_options, with_positionals, with_trace_to_depth};

use clap::{Arg, ArgMatches, Command};
use std::alloc::{AllocError, Global};

/// The command of the program: a task and a file, and nine options of one value each. It has no flags.
pub fn program<'a>(alloc: Global) -> Result<Command<'a>, AllocError>
    ensures { IfOk result (λ c. app_of c ≡ command_line) }
{
    let command = add_positionals(alloc, bare(alloc))?;
    add_options(alloc, command)
}

fn bare<'a>(alloc: Global) -> Command<'a>
    ensures { app_of result ≡ bare_command_line }
{
    Command::new(alloc, "mcrl2lin")
        .disable_help_flag(true)
        .disable_version_flag(true)
}

fn add_positionals<'a>(alloc: Global, command: Command<'a>) -> Result<Command<'a>, AllocError>
    ensures { IfOk result (λ c. app_of c ≡ with_positionals (app_of command.entry)) }
{
    let command = add_positional(alloc, command, "task")?;
    add_positional(alloc, command, "file")
}

fn add_options<'a>(alloc: Global, command: Command<'a>) -> Result<Command<'a>, AllocError>
    ensures { IfOk result (λ c. app_of c ≡ with_options (app_of command.entry)) }
{
    let command = add_trace_to_depth(alloc, command)?;
    let command = add_option(alloc, command, "ending")?;
    let command = add_option(alloc, command, "invariant")?;
    add_option(alloc, command, "after")
}

fn add_trace_to_depth<'a>(alloc: Global, command: Command<'a>) -> Result<Command<'a>, AllocError>
    ensures { IfOk result (λ c. app_of c ≡ with_trace_to_depth (app_of command.entry)) }
{
    let command = add_option(alloc, command, "trace")?;
    let command = add_option(alloc, command, "method")?;
    let command = add_option(alloc, command, "fuel")?;
    let command = add_option(alloc, command, "bound")?;
    let command = add_option(alloc, command, "seed")?;
    add_option(alloc, command, "depth")
}

fn add_positional<'a>(
    alloc: Global,
    command: Command<'a>,
    id: &'a str,
) -> Result<Command<'a>, AllocError>
    ensures { IfOk result (λ c. app_of c ≡ with_rule (app_of command.entry) (positional id.entry.now)) }
{
    command.arg(Arg::new(alloc, id).required(true))
}

fn add_option<'a>(
    alloc: Global,
    command: Command<'a>,
    id: &'a str,
) -> Result<Command<'a>, AllocError>
    ensures { IfOk result (λ c. app_of c ≡ with_rule (app_of command.entry) (option id.entry.now)) }
{
    command.arg(Arg::new(alloc, id).long(id))
}

/// The value in the matches that stands under this name, where there is one.
pub fn value_of<'a>(matches: &ArgMatches<'a>, id: &str) -> Option<&'a str>
    ensures { option_map (λ s. s.now) result ≡ first_of id.now (rows_of (found_of matches.now)) }
{
    matches.get_str(id)
}

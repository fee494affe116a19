//! The command that `clap` tells of the words.

ghost use Rattle.std.specs.Prelude.{◌≡◌, false, IfOk, option_map};
ghost use Rattle.clap.specs.Words.{app_of, subcommand_rows_of};
ghost use Rattle.clap.specs.declared.builder.command.Command.TheViews.{out-Command};
ghost use Rattle.top_words.specs.Matches.{bare_app, command_chosen, generate_app, program, rebuild_chosen, run_chosen, workers_app, chosen};
ghost use Rattle.top_words.specs.Commands.{generate_of, rebuild_by, run_by};

use crate::command::Command;
use crate::numbers::{number_of, workers_of};
use clap::{Arg, ArgMatches, Command as Parser};
use std::alloc::{AllocError, Global};

/// The name under which a number of workers is given.
const WORKERS: &str = "workers";

/// The name under which a plan's number is given.
const NUMBER: &str = "number";

/// How many workers a run and a rebuild have where nothing is said.
const USUAL_WORKERS: u32 = 4;

/// A command whose number comes after `--workers`: `run` and `rebuild`.
fn workers_parser<'a>(alloc: Global, name: &'a str) -> Result<Parser<'a>, AllocError>
    ensures app { IfOk result (λ parser. app_of parser ≡ workers_app name.now) }
    ensures local { IfOk result (λ parser. (out-Command parser).has_globals ≡ false) }
{
    let workers = Arg::new(alloc, WORKERS).long(WORKERS);
    Parser::new(alloc, name).arg(workers)
}

/// `generate`, whose number is alone.
fn generate_parser<'a>(alloc: Global) -> Result<Parser<'a>, AllocError>
    ensures app { IfOk result (λ parser. app_of parser ≡ generate_app) }
    ensures local { IfOk result (λ parser. (out-Command parser).has_globals ≡ false) }
{
    Parser::new(alloc, "generate").arg(Arg::new(alloc, NUMBER))
}

/// The program itself. Among the words its name doesn't stand.
fn bare_parser<'a>(alloc: Global) -> Parser<'a>
    ensures app { app_of result ≡ bare_app }
    ensures local { (out-Command result).has_globals ≡ false }
{
    Parser::new(alloc, "ghost").no_binary_name(true)
}

/// What `clap` is told of the program: one level of subcommands. Numbers are texts to it.
pub(crate) fn program<'a>(alloc: Global) -> Result<Parser<'a>, AllocError>
    ensures { IfOk result (λ parser. app_of parser ≡ program) }
{
    bare_parser(alloc)
        .subcommand(Parser::new(alloc, "check"))?
        .subcommand(Parser::new(alloc, "replay"))?
        .subcommand(workers_parser(alloc, "run")?)?
        .subcommand(generate_parser(alloc)?)?
        .subcommand(Parser::new(alloc, "trace"))?
        .subcommand(Parser::new(alloc, "audit"))?
        .subcommand(workers_parser(alloc, "rebuild")?)
}

fn run_by(number: &str) -> Option<Command>
    ensures { result ≡ run_by number.now }
{
    Some(Command::Run(workers_of(number)?))
}

fn run_chosen(number: Option<&str>) -> Option<Command>
    ensures { result ≡ run_chosen (option_map (λ text. text.now) number.entry) }
{
    match number {
        None => Some(Command::Run(USUAL_WORKERS)),
        Some(number) => run_by(number),
    }
}

fn rebuild_by(number: &str) -> Option<Command>
    ensures { result ≡ rebuild_by number.now }
{
    Some(Command::Rebuild(workers_of(number)?))
}

fn rebuild_chosen(number: Option<&str>) -> Option<Command>
    ensures { result ≡ rebuild_chosen (option_map (λ text. text.now) number.entry) }
{
    match number {
        None => Some(Command::Rebuild(USUAL_WORKERS)),
        Some(number) => rebuild_by(number),
    }
}

fn generate_of(number: &str) -> Option<Command>
    ensures { result ≡ generate_of number.now }
{
    Some(Command::Generate(number_of(number)?))
}

fn command_chosen(name: &str, workers: Option<&str>, number: Option<&str>) -> Option<Command>
    ensures { result ≡ command_chosen name.now (option_map (λ text. text.now) workers.entry) (option_map (λ text. text.now) number.entry) }
{
    if name == "check" {
        Some(Command::Check)
    } else if name == "replay" {
        Some(Command::Replay)
    } else if name == "run" {
        run_chosen(workers)
    } else if name == "generate" {
        generate_of(number?)
    } else if name == "trace" {
        Some(Command::Trace)
    } else if name == "audit" {
        Some(Command::Audit)
    } else if name == "rebuild" {
        rebuild_chosen(workers)
    } else {
        None
    }
}

/// The command that the matches tell, if they tell one.
pub(crate) fn chosen(matches: &ArgMatches<'_>) -> Option<Command>
    ensures { result ≡ chosen (subcommand_rows_of matches.now) }
{
    let (name, numbers) = matches.subcommand()?;
    command_chosen(name, numbers.get_str(WORKERS), numbers.get_str(NUMBER))
}

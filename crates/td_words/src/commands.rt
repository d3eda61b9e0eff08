//! The program's command, as clap has it, made of the table of subcommands.
ghost use Rattle.std.specs.Prelude.{◌≡◌, false, IfOk, map};
ghost use Rattle.std.specs.List.{fold};
ghost use Rattle.clap.specs.Words.{app_of, shape_of, rule_of, with_rule, with_subcommand};
ghost use Rattle.td_words.specs.Command.{alone, td, leaf_shape};
ghost use Rattle.td_words.specs.Command.{workers_rule, picks_rule, valued_rule, word_rule, number_rule, option_rule, flag_rule, text_rule};
ghost use Rattle.td_words.specs.Table.{has_globals, rule_in, subcommand_in};

use crate::help::{TD, text_of};
use crate::table::{Argument, Row, batch_to_sim, copy_to_load, format_to_upgrade, stream_and_plan};
use clap::builder::ValueParser;
use clap::{Arg, ArgAction, Command};
use std::alloc::{AllocError, Global};

/// `td` with its subcommands.
pub(crate) fn command<'a>(alloc: Global) -> Result<Command<'a>, AllocError>
    ensures { IfOk result (λ c. app_of c ≡ td) }
{
    let td = with_rows(alloc, alone(alloc), batch_to_sim())?;
    let td = with_rows(alloc, td, format_to_upgrade())?;
    let td = with_rows(alloc, td, copy_to_load())?;
    with_rows(alloc, td, stream_and_plan())
}

/// `td` without its subcommands, one of which has to stand there.
fn alone<'a>(alloc: Global) -> Command<'a>
    ensures app { app_of result ≡ alone }
    ensures globals { has_globals result ≡ false }
{
    Command::new(alloc, "td")
        .about(
            "A dataflow engine: takes a plan and epochs of records, and gives the records of each epoch at the plan's outputs",
        )
        .after_help(TD)
        .subcommand_required(true)
}

/// A command with the subcommands of these rows.
fn with_rows<'a>(
    alloc: Global,
    command: Command<'a>,
    rows: &[Row],
) -> Result<Command<'a>, AllocError>
    ensures { IfOk result (λ c. app_of c ≡ fold with_subcommand (app_of command.entry) (map leaf_shape (map subcommand_in rows.now))) }
{
    let mut command = command;
    for row in rows {
        let leaf = leaf_of(alloc, row)?;
        command = command.subcommand(leaf)?;
    }
    Ok(command)
}

/// The subcommand of a row.
fn leaf_of<'a>(alloc: Global, row: &Row) -> Result<Command<'a>, AllocError>
    ensures shape { IfOk result (λ c. shape_of c ≡ leaf_shape (subcommand_in row.now)) }
    ensures globals { IfOk result (λ c. has_globals c ≡ false) }
{
    let leaf = Command::new(alloc, row.name)
        .about(row.about)
        .after_help(text_of(row.details));
    with_arguments(alloc, leaf, row.arguments)
}

/// A command with these arguments, none of which is global.
fn with_arguments<'a>(
    alloc: Global,
    command: Command<'a>,
    arguments: &[Argument],
) -> Result<Command<'a>, AllocError>
    requires globals { has_globals command ≡ false }
    ensures app { IfOk result (λ c. app_of c ≡ fold with_rule (app_of command.entry) (map rule_in arguments.now)) }
    ensures globals { IfOk result (λ c. has_globals c ≡ false) }
{
    let mut command = command;
    for argument in arguments {
        command = command.arg(arg_of(alloc, *argument))?;
    }
    Ok(command)
}

/// An argument, as clap has it.
fn arg_of<'a>(alloc: Global, argument: Argument) -> Arg<'a>
    ensures rule { rule_of result ≡ rule_in argument }
    ensures local { result.global ≡ false }
{
    match argument {
        Argument::Word(id, value, help) => word_arg(alloc, id, value, help),
        Argument::Number(id, value, help) => number_arg(alloc, id, value, help),
        Argument::Workers => workers_arg(alloc),
        Argument::Picks => picks_arg(alloc),
        Argument::NumberOption {
            id,
            value,
            help,
            least,
            most,
        } => number_option_arg(alloc, id, value, help, least, most),
        Argument::TextOption(id, value, help) => text_option_arg(alloc, id, value, help),
        Argument::Flag(id, help) => flag_arg(alloc, id, help),
    }
}

/// An argument with a value.
fn valued_arg<'a>(alloc: Global, id: &'a str, value: &'a str, help: &'a str) -> Arg<'a>
    ensures rule { rule_of result ≡ valued_rule id.entry.now }
    ensures local { result.global ≡ false }
{
    Arg::new(alloc, id).value_name(value).help(help)
}

/// A word that has to stand there.
fn word_arg<'a>(alloc: Global, id: &'a str, value: &'a str, help: &'a str) -> Arg<'a>
    ensures rule { rule_of result ≡ word_rule id.entry.now }
    ensures local { result.global ≡ false }
{
    valued_arg(alloc, id, value, help).required(true)
}

/// A number of 32 bits that has to stand there. `-0` is no such number, as in Rust's `parse`. Whether M, N and K are a shape is
/// asked after the plan was read.
fn number_arg<'a>(alloc: Global, id: &'a str, value: &'a str, help: &'a str) -> Arg<'a>
    ensures rule { rule_of result ≡ number_rule id.entry.now }
    ensures local { result.global ≡ false }
{
    word_arg(alloc, id, value, help).value_parser(ValueParser::unsigned(0, 4_294_967_295))
}

/// An option with a text, as the name of a file, which may be left out.
fn text_option_arg<'a>(alloc: Global, id: &'a str, value: &'a str, help: &'a str) -> Arg<'a>
    ensures rule { rule_of result ≡ text_rule id.entry.now }
    ensures local { result.global ≡ false }
{
    valued_arg(alloc, id, value, help).long(id)
}

/// An option with a number of `least` to `most`, which may be left out, as `--cut-every E`.
fn number_option_arg<'a>(
    alloc: Global,
    id: &'a str,
    value: &'a str,
    help: &'a str,
    least: u64,
    most: u64,
) -> Arg<'a>
    ensures rule { rule_of result ≡ option_rule id.entry.now least most }
    ensures local { result.global ≡ false }
{
    text_option_arg(alloc, id, value, help).value_parser(ValueParser::unsigned(least, most))
}

/// `--workers W`.
fn workers_arg<'a>(alloc: Global) -> Arg<'a>
    ensures rule { rule_of result ≡ workers_rule }
    ensures local { result.global ≡ false }
{
    text_option_arg(alloc, "workers", "W", "How many shards, 1 to 16")
        .value_parser(ValueParser::signed(1, 16))
        .default_value("1")
}

/// `--picks LIST`.
fn picks_arg<'a>(alloc: Global) -> Arg<'a>
    ensures rule { rule_of result ≡ picks_rule }
    ensures local { result.global ≡ false }
{
    text_option_arg(
        alloc,
        "picks",
        "LIST",
        "Which message or notification is taken in each turn: numbers joined by commas, over and over",
    )
    .default_value("0")
}

/// A flag, as `--progress`.
fn flag_arg<'a>(alloc: Global, id: &'a str, help: &'a str) -> Arg<'a>
    ensures rule { rule_of result ≡ flag_rule id.entry.now }
    ensures local { result.global ≡ false }
{
    Arg::new(alloc, id)
        .long(id)
        .action(ArgAction::SetTrue)
        .help(help)
}

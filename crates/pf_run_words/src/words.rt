//! The words of the command line.
ghost use Rattle.std.specs.Prelude.{◌≡◌, false, IfOk, IfSome, map, option_map, string_bytes};
ghost use Rattle.clap.specs.Words.{app_of, rule_of};
ghost use Rattle.clap.specs.declared.builder.command.Command.TheViews.{out-Command as fields_of};
ghost use Rattle.pf_run_words.specs.Words.{bare_program, command, dir_rule, gen_shape, group_rule, log_shape, number_rule, run_shape, server_rule, workers_rule};
ghost use Rattle.pf_run_words.specs.Tasks.{HasParsed, IsInRange, dir_of, task_of};

use clap::error::ErrorKind;
use clap::{Arg, ArgMatches, Command};
use pf_base::NoMemory;
use std::alloc::{AllocError, Global};

/// What the words ask for.
#[derive(Clone, Copy, Debug, PartialEq, Eq)]
pub enum Task {
    /// To run the script of the source, and to write its report.
    Run { workers: u32 },
    /// To run the script that a number generates, and to write one line.
    Gen { number: u64, workers: u32 },
    /// To judge the tables that the source's list of transactions makes, and to write one line.
    Check,
    /// To list the records of a server of a group, as a restart would find them on its disks.
    Log { group: u8, server: u8 },
}

/// `--workers`, with one whole number from 1 to 8.
fn workers_option<'a>(alloc: Global) -> Arg<'a>
    ensures rule { rule_of result ≡ workers_rule }
    ensures global { result.global ≡ false }
{
    Arg::new(alloc, "workers")
        .long("workers")
        .default_value("2")
        .value_parser(clap::value_parser!(u32).range(1..=8))
}

/// `--dir`, with one value.
fn dir_option<'a>(alloc: Global) -> Arg<'a>
    ensures rule { rule_of result ≡ dir_rule }
    ensures global { result.global ≡ false }
{
    Arg::new(alloc, "dir").long("dir")
}

/// `N`, a whole number of 64 bits that has to come.
fn number_place<'a>(alloc: Global) -> Arg<'a>
    ensures rule { rule_of result ≡ number_rule }
    ensures global { result.global ≡ false }
{
    Arg::new(alloc, "N")
        .required(true)
        .value_parser(clap::value_parser!(u64))
}

/// `G`, a whole number from 0 to 7 that has to come.
fn group_place<'a>(alloc: Global) -> Arg<'a>
    ensures rule { rule_of result ≡ group_rule }
    ensures global { result.global ≡ false }
{
    Arg::new(alloc, "G")
        .required(true)
        .value_parser(clap::value_parser!(u8).range(0..=7))
}

/// `I`, a whole number from 0 to 2 that has to come.
fn server_place<'a>(alloc: Global) -> Arg<'a>
    ensures rule { rule_of result ≡ server_rule }
    ensures global { result.global ≡ false }
{
    Arg::new(alloc, "I")
        .required(true)
        .value_parser(clap::value_parser!(u8).range(0..=2))
}

/// `run`, with the options `--dir` and `--workers`.
fn run_command<'a>(alloc: Global) -> Result<Command<'a>, AllocError>
    ensures shape { IfOk result (λ made. (app_of made).top ≡ run_shape) }
    ensures local { IfOk result (λ made. (fields_of made).has_globals ≡ false) }
{
    Command::new(alloc, "run")
        .arg(dir_option(alloc))?
        .arg(workers_option(alloc))
}

/// `gen N`, with the option `--workers`.
fn gen_command<'a>(alloc: Global) -> Result<Command<'a>, AllocError>
    ensures shape { IfOk result (λ made. (app_of made).top ≡ gen_shape) }
    ensures local { IfOk result (λ made. (fields_of made).has_globals ≡ false) }
{
    Command::new(alloc, "gen")
        .arg(number_place(alloc))?
        .arg(workers_option(alloc))
}

/// `log G I`, with the option `--dir`.
fn log_command<'a>(alloc: Global) -> Result<Command<'a>, AllocError>
    ensures shape { IfOk result (λ made. (app_of made).top ≡ log_shape) }
    ensures local { IfOk result (λ made. (fields_of made).has_globals ≡ false) }
{
    Command::new(alloc, "log")
        .arg(dir_option(alloc))?
        .arg(group_place(alloc))?
        .arg(server_place(alloc))
}

/// The program, of which one subcommand has to come, and which has no help.
fn bare_command<'a>(alloc: Global) -> Command<'a>
    ensures { app_of result ≡ bare_program }
{
    Command::new(alloc, "polarfs")
        .no_binary_name(true)
        .disable_help_flag(true)
        .disable_help_subcommand(true)
        .subcommand_required(true)
}

/// What the program reads of its words: `run`, `gen`, `check` and `log`.
fn command<'a>(alloc: Global) -> Result<Command<'a>, AllocError>
    ensures { IfOk result (λ made. app_of made ≡ command) }
{
    bare_command(alloc)
        .subcommand(run_command(alloc)?)?
        .subcommand(gen_command(alloc)?)?
        .subcommand(Command::new(alloc, "check"))?
        .subcommand(log_command(alloc)?)
}

/// What a parse finds, where the words are accepted, and else `None`.
fn parsed<'a>(alloc: Global, words: &'a [String]) -> Result<Option<ArgMatches<'a>>, NoMemory>
    ensures { IfOk result (HasParsed (map string_bytes words.now)) }
{
    match command(alloc)?.try_get_matches_from(words) {
        Ok(found) => Ok(Some(found)),
        Err(error) => {
            if error.kind() == ErrorKind::OutOfMemory {
                Err(NoMemory)
            } else {
                Ok(None)
            }
        }
    }
}

/// What the words ask for, where they are accepted, and else `None`. The workers are 1 to 8, a group 0 to 7 and a server 0 to 2.
///
/// `NoMemory` (1) where memory runs out before it is known.
pub fn read_task(alloc: Global, words: &[String]) -> Result<Option<Task>, NoMemory>
    ensures told { IfOk result (λ told. told ≡ task_of (map string_bytes words.now)) }
    ensures bound { IfOk result (λ told. IfSome told IsInRange) }
{
    let found = parsed(alloc, words)?;
    let Some(matches) = found else {
        return Ok(None);
    };
    if let Some(met) = matches.subcommand_matches("run") {
        let Some(workers) = met.get_one::<u32>("workers") else {
            return Ok(None);
        };
        return Ok(Some(Task::Run { workers }));
    }
    if let Some(met) = matches.subcommand_matches("gen") {
        let (Some(number), Some(workers)) = (met.get_one::<u64>("N"), met.get_one::<u32>("workers"))
        else {
            return Ok(None);
        };
        return Ok(Some(Task::Gen { number, workers }));
    }
    if let Some(met) = matches.subcommand_matches("log") {
        let (Some(group), Some(server)) = (met.get_one::<u8>("G"), met.get_one::<u8>("I")) else {
            return Ok(None);
        };
        return Ok(Some(Task::Log { group, server }));
    }
    match matches.subcommand_matches("check") {
        Some(_) => Ok(Some(Task::Check)),
        None => Ok(None),
    }
}

/// The value of `--dir`: a folder, where the words are accepted and name one, and else `None`.
///
/// `NoMemory` (1) where memory runs out before it is known.
pub fn dir_of(alloc: Global, words: &[String]) -> Result<Option<String>, NoMemory>
    ensures { IfOk result (λ told. option_map string_bytes told ≡ dir_of (map string_bytes words.now)) }
{
    let found = parsed(alloc, words)?;
    let Some(matches) = found else {
        return Ok(None);
    };
    let Some(met) = matches.subcommand() else {
        return Ok(None);
    };
    match met.1.get_str("dir") {
        Some(value) => {
            let folder = String::from_str(alloc, value)?;
            Ok(Some(folder))
        }
        None => Ok(None),
    }
}

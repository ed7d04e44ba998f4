//! What a command line asks for.

ghost use Rattle.std.specs.Prelude.{◌≡◌, ◌↔◌, [], false, ℕ, List, IfOk, IfErr, map, unwrap_or, codes};
ghost use Rattle.clap.specs.Words.{App, HasKind, Shape, all_of, app_of, fault_of as clap_faults, found_of, kind_of, rows_of, rule_of, shape_of, subcommand_rows_of, with_subcommand};
ghost use Rattle.clap.specs.declared.builder.command.Command.TheViews.{out-Command};
ghost use Rattle.ld_words.specs.CommandLine.{IsLineFault, IsLineIn, IsLineOf, IsScheduleLine, ReadsCheck, ReadsFlag, chains_shape, check_shape, condense_shape, explain_shape, file_rule, files_rule, flag_rule, graph_shape, lockdep_app, many_app, schedule_shape, workers_rule};

use clap::error::ErrorKind;
use clap::{Arg, ArgAction, ArgMatches, Command, value_parser};
use std::alloc::{AllocError, Global};

/// The program's version.
pub const VERSION: &str = "0.7.0";

// The last line of the help for what looks for findings, and for what only writes a text.
const FINDS: &str =
    "Exit status: 0 if nothing was found, 1 if something was, 2 if the run was refused";

const SCHEDULES: &str =
    "Exit status: 0 if nothing can stand still, 1 if something can, 2 if the run was refused";

const WRITES: &str = "Exit status: 0 if the text was written, 2 if the run was refused";

/// What a command line asks for.
#[derive(Debug, Drop)]
pub enum Line<'a> {
    /// The report of the traces in these files, or of the one on standard input if no file is named, by `workers`
    /// workers; with room for many keys if `many` is set.
    Check {
        workers: u16,
        many: bool,
        files: Vec<&'a str>,
    },
    /// What was found in these traces, and the records that cause it; as JSON if `json` is set. If `locks` or
    /// `confirmed_only` is set, what was found between types of locks, each with what it was seen between; if
    /// `confirmed_only` is, the status is that of what was seen between single locks.
    Explain {
        workers: u16,
        many: bool,
        json: bool,
        locks: bool,
        confirmed_only: bool,
        files: Vec<&'a str>,
    },
    /// Their facts as a picture; only what is part of a finding, if `findings` is set.
    Graph {
        workers: u16,
        many: bool,
        findings: bool,
        files: Vec<&'a str>,
    },
    /// One trace that has exactly their facts.
    Condense {
        workers: u16,
        many: bool,
        files: Vec<&'a str>,
    },
    /// What is said of the histories in these files, or of the one on standard input if no file is named; as JSON if `json`
    /// is set.
    Schedule {
        json: bool,
        files: Vec<&'a str>,
    },
    /// The chains of the trace in this file, or of the one on standard input if no file is named.
    Chains {
        file: Option<&'a str>,
    },
}

/// Why a command line asks for nothing that the program does with traces.
#[derive(Debug, Drop)]
pub enum LineFault {
    /// Help or the version was asked for. The error's text is what to write.
    Help(clap::Error),
    /// P1: the words aren't a command line of the program, by `clap`'s definition.
    Refused,
    /// P4: memory was refused.
    Memory,
}

// The number of workers, `--workers N`.
fn workers_option<'a>(alloc: Global) -> Arg<'a>
    ensures rule { rule_of result ≡ workers_rule }
    ensures local { result.global ≡ false }
{
    Arg::new(alloc, "workers")
        .long("workers")
        .value_name("N")
        .value_parser(value_parser!(u16))
        .default_value("4")
        .help("How many workers check the traces, from 1 to 64")
}

// A flag of this name.
fn flag<'a>(alloc: Global, name: &'a str, help: &'a str) -> Arg<'a>
    ensures rule { rule_of result ≡ flag_rule name.now }
    ensures local { result.global ≡ false }
{
    Arg::new(alloc, name)
        .long(name)
        .action(ArgAction::SetTrue)
        .help(help)
}

// The files of traces, in their order.
fn files_argument<'a>(alloc: Global) -> Arg<'a>
    ensures rule { rule_of result ≡ files_rule }
    ensures local { result.global ≡ false }
{
    Arg::new(alloc, "FILE").num_args(0..).help(
        "A file with a trace; without one, a trace is read from standard input",
    )
}

// The files of histories, in their order.
fn histories_argument<'a>(alloc: Global) -> Arg<'a>
    ensures rule { rule_of result ≡ files_rule }
    ensures local { result.global ≡ false }
{
    Arg::new(alloc, "FILE").num_args(0..).help(
        "A file with a history; without one, a history is read from standard input",
    )
}

// The one file of a trace.
fn file_argument<'a>(alloc: Global) -> Arg<'a>
    ensures rule { rule_of result ≡ file_rule }
    ensures local { result.global ≡ false }
{
    Arg::new(alloc, "FILE").help(
        "A file with a trace; without one, a trace is read from standard input",
    )
}

// The subcommand of this name, with the options of those that may take many keys, and the last line of its help.
fn many_command<'a>(
    alloc: Global,
    name: &'a str,
    about: &'a str,
    last: &'a str,
) -> Result<Command<'a>, AllocError>
    ensures app { IfOk result (λ command. app_of command ≡ many_app name.now) }
    ensures local { IfOk result (λ command. (out-Command command).has_globals ≡ false) }
{
    Command::new(alloc, name)
        .about(about)
        .after_help(last)
        .arg(workers_option(alloc))?
        .arg(flag(alloc, "many", "Take up to 8192 lock keys instead of 256"))
}

// The command lines of the report.
fn check_command<'a>(alloc: Global) -> Result<Command<'a>, AllocError>
    ensures shape { IfOk result (λ command. shape_of command ≡ check_shape) }
    ensures local { IfOk result (λ command. (out-Command command).has_globals ≡ false) }
{
    many_command(
        alloc,
        "check",
        "Report the lock order of traces, and which of it can deadlock",
        FINDS,
    )?
    .arg(files_argument(alloc))
}

// The command lines of the explanation.
fn explain_command<'a>(alloc: Global) -> Result<Command<'a>, AllocError>
    ensures shape { IfOk result (λ command. shape_of command ≡ explain_shape) }
    ensures local { IfOk result (λ command. (out-Command command).has_globals ≡ false) }
{
    many_command(
        alloc,
        "explain",
        "Explain each finding by the records that cause it",
        FINDS,
    )?
    .arg(flag(alloc, "json", "Write the findings as JSON"))?
    .arg(flag(
        alloc,
        "locks",
        "Say whether single locks make a finding; take up to 8192 names",
    ))?
    .arg(flag(
        alloc,
        "confirmed-only",
        "As --locks, with status 1 only for what single locks make",
    ))?
    .arg(files_argument(alloc))
}

// The command lines of the picture.
fn graph_command<'a>(alloc: Global) -> Result<Command<'a>, AllocError>
    ensures shape { IfOk result (λ command. shape_of command ≡ graph_shape) }
    ensures local { IfOk result (λ command. (out-Command command).has_globals ≡ false) }
{
    many_command(
        alloc,
        "graph",
        "Draw the lock order as a graph in the language DOT",
        FINDS,
    )?
    .arg(flag(alloc, "findings", "Show only what is part of a finding"))?
    .arg(files_argument(alloc))
}

// The command lines of the condensed trace.
fn condense_command<'a>(alloc: Global) -> Result<Command<'a>, AllocError>
    ensures shape { IfOk result (λ command. shape_of command ≡ condense_shape) }
    ensures local { IfOk result (λ command. (out-Command command).has_globals ≡ false) }
{
    many_command(
        alloc,
        "condense",
        "Write one small trace with the lock order and usage of all traces",
        WRITES,
    )?
    .arg(files_argument(alloc))
}

// The command lines of the schedules.
fn schedule_command<'a>(alloc: Global) -> Result<Command<'a>, AllocError>
    ensures shape { IfOk result (λ command. shape_of command ≡ schedule_shape) }
    ensures local { IfOk result (λ command. (out-Command command).has_globals ≡ false) }
{
    Command::new(alloc, "schedule")
        .about("Say whether recorded steps can stand still in another order")
        .after_help(SCHEDULES)
        .arg(flag(alloc, "json", "Write the rings as JSON"))?
        .arg(histories_argument(alloc))
}

// The command lines of the chains.
fn chains_command<'a>(alloc: Global) -> Result<Command<'a>, AllocError>
    ensures shape { IfOk result (λ command. shape_of command ≡ chains_shape) }
    ensures local { IfOk result (λ command. (out-Command command).has_globals ≡ false) }
{
    Command::new(alloc, "chains")
        .about("Write the chains of a trace")
        .after_help(WRITES)
        .arg(file_argument(alloc))
}

// A command with one more subcommand, if that could be made.
fn with_subcommand<'a>(
    command: Command<'a>,
    subcommand: Result<Command<'a>, AllocError>,
) -> Result<Command<'a>, AllocError>
    ensures { (app : App) (shape : Shape) → app_of command.entry ≡ app
        → IfOk subcommand.entry (λ made. shape_of made ≡ shape)
        → IfOk subcommand.entry (λ made. (out-Command made).has_globals ≡ false)
        → IfOk result (λ new. app_of new ≡ with_subcommand app shape) }
{
    command.subcommand(subcommand?)
}

// The command lines that the program accepts.
fn command<'a>(alloc: Global) -> Result<Command<'a>, AllocError>
    ensures { IfOk result (λ command. app_of command ≡ lockdep_app) }
{
    let app = Command::new(alloc, "lockdep")
        .about("Check recorded traces of tasks for lock orders that can deadlock")
        .after_help(FINDS)
        .version(VERSION)
        .subcommand_required(true);
    let app = with_subcommand(app, check_command(alloc))?;
    let app = with_subcommand(app, explain_command(alloc))?;
    let app = with_subcommand(app, graph_command(alloc))?;
    let app = with_subcommand(app, condense_command(alloc))?;
    let app = with_subcommand(app, schedule_command(alloc))?;
    with_subcommand(app, chains_command(alloc))
}

// The FILE words.
fn files_of<'a>(alloc: Global, found: &ArgMatches<'a>) -> Result<Vec<&'a str>, AllocError>
    ensures { IfOk result (λ files. map (λ file. file.now) files.items
        ≡ unwrap_or (all_of (codes "FILE") (rows_of (found_of found.now))) []) }
{
    let mut files = Vec::new(alloc);
    if let Some(given) = found.get_raw("FILE") {
        files.extend_from_slice(given)?;
    }
    Ok(files)
}

// What the words of a subcommand give that may take many keys: the number of workers, whether there may be many keys,
// and the files.
fn many_words<'a>(
    alloc: Global,
    found: &ArgMatches<'a>,
) -> Result<(u16, bool, Vec<&'a str>), LineFault>
    ensures check { IfOk result (λ read. ReadsCheck (rows_of (found_of found.now)) read.0
        (map (λ file. file.now) read.2.items)) }
    ensures many { IfOk result (λ read. ReadsFlag (codes "many") (rows_of (found_of found.now)) read.1) }
    ensures no_help { IfErr result (λ fault. (words : List (List ℕ)) → IsLineFault words fault) }
{
    // There is always a number: the option has a default. P1 would be untrue of words that `clap` has taken.
    let Some(workers) = found.get_one::<u16>("workers") else {
        return Err(LineFault::Memory);
    };
    match files_of(alloc, found) {
        Ok(files) => Ok((workers, found.get_flag("many"), files)),
        Err(_) => Err(LineFault::Memory),
    }
}

// What the words of `schedule` ask for.
fn schedule_line<'a>(alloc: Global, found: &ArgMatches<'a>) -> Result<Line<'a>, LineFault>
    ensures ok { IfOk result (IsScheduleLine (rows_of (found_of found.now))) }
    ensures no_help { IfErr result (λ fault. (words : List (List ℕ)) → IsLineFault words fault) }
{
    let json = found.get_flag("json");
    match files_of(alloc, found) {
        Ok(files) => Ok(Line::Schedule { json, files }),
        Err(_) => Err(LineFault::Memory),
    }
}

// What the words of a subcommand ask for.
fn line_of<'a>(alloc: Global, matches: &ArgMatches<'a>) -> Result<Line<'a>, LineFault>
    ensures ok { IfOk result (IsLineIn (subcommand_rows_of matches.now)) }
    ensures no_help { IfErr result (λ fault. (words : List (List ℕ)) → IsLineFault words fault) }
{
    if let Some(found) = matches.subcommand_matches("check") {
        let (workers, many, files) = many_words(alloc, found)?;
        return Ok(Line::Check {
            workers,
            many,
            files,
        });
    }
    if let Some(found) = matches.subcommand_matches("explain") {
        let (workers, many, files) = many_words(alloc, found)?;
        return Ok(Line::Explain {
            workers,
            many,
            json: found.get_flag("json"),
            locks: found.get_flag("locks"),
            confirmed_only: found.get_flag("confirmed-only"),
            files,
        });
    }
    if let Some(found) = matches.subcommand_matches("graph") {
        let (workers, many, files) = many_words(alloc, found)?;
        let findings = found.get_flag("findings");
        return Ok(Line::Graph {
            workers,
            many,
            findings,
            files,
        });
    }
    if let Some(found) = matches.subcommand_matches("condense") {
        let (workers, many, files) = many_words(alloc, found)?;
        return Ok(Line::Condense {
            workers,
            many,
            files,
        });
    }
    if let Some(found) = matches.subcommand_matches("schedule") {
        return schedule_line(alloc, found);
    }
    // There is no other subcommand.
    let Some(found) = matches.subcommand_matches("chains") else {
        return Err(LineFault::Memory);
    };
    let file = found.get_str("FILE");
    Ok(Line::Chains { file })
}

// The fault for an error of clap.
fn fault_of(error: clap::Error) -> LineFault
    ensures fault { (words : List (List ℕ)) → HasKind (clap_faults lockdep_app words) error
        → IsLineFault words result }
    ensures memory { (result ≡ LineFault.Memory) ↔ (kind_of error ≡ ErrorKind.OutOfMemory) }
{
    match error.kind() {
        ErrorKind::DisplayHelp | ErrorKind::DisplayVersion => LineFault::Help(error),
        ErrorKind::OutOfMemory => LineFault::Memory,
        _ => LineFault::Refused,
    }
}

/// What the command line asks for. The words begin with the program's name, and are read as `clap` defines it: `check
/// [--workers N] [--many] [FILE...]`, with N a whole number from 0 to 65,535 and 4 if it isn't given, `explain
/// [--workers N] [--many] [--json] [--locks] [--confirmed-only] [FILE...]`, `graph [--workers N] [--many] [--findings] [FILE...]`, `condense
/// [--workers N] [--many] [FILE...]`, `schedule [--json] [FILE...]` and `chains [FILE]`.
///
/// Refusals: `Help` if help or the version is asked for, `Memory` if memory is refused, and `Refused` for every other
/// line that isn't accepted [this project's own].
pub fn command_line<'a>(alloc: Global, words: &'a [&'a str]) -> Result<Line<'a>, LineFault>
    ensures ok { IfOk result (IsLineOf (map (λ word. word.now) words.entry.now)) }
    ensures refused { IfErr result (IsLineFault (map (λ word. word.now) words.entry.now)) }
{
    let Ok(command) = command(alloc) else {
        return Err(LineFault::Memory);
    };
    match command.try_get_matches_from(words) {
        Ok(matches) => line_of(alloc, &matches),
        Err(error) => Err(fault_of(error)),
    }
}

//! The arguments of the command line.

ghost use Rattle.std.specs.Prelude.{◌≡◌, ◌⊎◌, ◌<◌, ◌≤◌, codes, map, string_bytes, IfErr, IfNone, IfOk, IfSome, None, OnErr};
ghost use Rattle.clap.specs.Words.{first_value, found_of, kind_of, one_text, subcommand_rows_of};
ghost use Rattle.noc_commands.specs.Workers.{HasWorkers};
ghost use Rattle.noc_commands.specs.declared.command.TheConstants.{MAX_WORKERS};
ghost use Rattle.noc_cli.specs.Args.{AreNoVerdicts, AreVerdicts, IsAskedBy, IsCommand, IsNoCommand, IsNoReport, IsNoRequest, IsRefusal, IsReport, IsRequestIn, IsSaidIfAny, NamesFiles, SaysNoWorkers, SaysWorkers};

use crate::command_line::program;
use clap::error::ErrorKind;
use clap::{ArgMatches, Error};
use noc_commands::{Command, MAX_WORKERS, Report, VerdictSet};
use std::alloc::{AllocError, Global};

/// What the arguments ask for: a command, with the names of its files.
#[derive(Clone, Copy)]
pub struct Args<'a> {
    /// What is asked for.
    pub command: Command,
    /// The name of the configuration's file.
    pub config: &'a str,
    /// That of the routing table, where one is named.
    pub table: Option<&'a str>,
    /// That of the ranks, where they are named.
    pub ranks: Option<&'a str>,
    /// That of the traffic, where one is named.
    pub traffic: Option<&'a str>,
}

const NO_COMMAND: &str = "a command is missing";

const NO_CONFIG: &str = "a configuration is missing";

const NO_CYCLE: &str = "--cycle is missing";

const NO_ROUTER: &str = "--router is missing";

const NO_WORKERS: &str = "--workers is a number from 1 to 16";

const NO_REPORT: &str = "--report takes the name of a report";

const NO_VERDICTS: &str =
    "--verdict takes names of verdicts, as a trace writes them, with a comma between";

/// The arguments behind the program's name, which is the first argument, or clap's text
/// on why they make no sense.
pub fn read_args<'a>(alloc: Global, args: &'a [String]) -> Result<Args<'a>, Error>
    ensures workers { IfOk result (λ asked. HasWorkers asked.command) }
    ensures said { IfOk result (IsAskedBy (map string_bytes args.entry.now)) }
    ensures refused { IfErr result (IsRefusal (map string_bytes args.entry.now)) }
{
    let matches = program(alloc)?.try_get_matches_from(args)?;
    request_in(alloc, &matches)
}

// What arguments ask for that clap's rules let through.
fn request_in<'a>(alloc: Global, matches: &ArgMatches<'a>) -> Result<Args<'a>, Error>
    ensures said { IfOk result (IsRequestIn (subcommand_rows_of matches.now)) }
    ensures refused { IfErr result (λ error. (kind_of error ≡ ErrorKind.OutOfMemory)
        ⊎ IsNoRequest (subcommand_rows_of matches.now) (kind_of error)) }
{
    let Some((name, of)) = matches.subcommand() else {
        return Err(refusal(alloc, ErrorKind::MissingSubcommand, NO_COMMAND)?);
    };
    match args_of(name, of) {
        Ok(args) => Ok(args),
        Err(message) => Err(refusal(alloc, ErrorKind::ValueValidation, message)?),
    }
}

// clap's text on arguments of this fault.
fn refusal(alloc: Global, kind: ErrorKind, message: &str) -> Result<Error, AllocError>
    ensures { IfOk result (λ error. kind_of error ≡ kind) }
{
    let mut program = program(alloc)?;
    let refusal = program.error(kind, message);
    drop(program);
    refusal
}

// What the arguments of a command ask for, or what is wrong with them. clap lets through no
// command without its configuration, and no `explain` without its numbers.
fn args_of<'a>(name: &str, matches: &ArgMatches<'a>) -> Result<Args<'a>, &'static str>
    ensures command { IfOk result (λ args. IsCommand (found_of matches.now) name.now args.command) }
    ensures files { IfOk result (NamesFiles (found_of matches.now)) }
    ensures err { OnErr result (IsNoCommand (found_of matches.now) name.now
        ⊎ (first_value (found_of matches.now) (codes "CONFIG") ≡ None)) }
{
    let command = command_of(name, matches)?;
    let config = matches.get_str("CONFIG").ok_or(NO_CONFIG)?;
    Ok(Args {
        command,
        config,
        table: matches.get_str("table"),
        ranks: matches.get_str("ranks"),
        traffic: matches.get_str("TRAFFIC"),
    })
}

// The command of a name, or what is wrong with its options. clap lets no other name through.
fn command_of(name: &str, matches: &ArgMatches<'_>) -> Result<Command, &'static str>
    ensures ok { IfOk result (IsCommand (found_of matches.now) name.now) }
    ensures err { OnErr result (IsNoCommand (found_of matches.now) name.now) }
{
    match name {
        "run" => run_of(matches),
        "explain" => explain_of(matches),
        "trace" => trace_of(matches),
        "check" => Ok(Command::Check),
        "ranks" => Ok(Command::Ranks),
        _ => Err(NO_COMMAND),
    }
}

// The run that options ask for, or what is wrong with them.
fn run_of(matches: &ArgMatches<'_>) -> Result<Command, &'static str>
    ensures ok { IfOk result (IsCommand (found_of matches.now) (codes "run")) }
    ensures err { OnErr result (SaysNoWorkers (found_of matches.now)
        ⊎ IsNoReport (first_value (found_of matches.now) (codes "report"))) }
{
    let workers = workers_of(matches).ok_or(NO_WORKERS)?;
    let report = report_of(matches).ok_or(NO_REPORT)?;
    Ok(Command::Run {
        workers,
        report,
        drain: matches.get_flag("drain"),
    })
}

// What options ask to be explained, or what is missing.
fn explain_of(matches: &ArgMatches<'_>) -> Result<Command, &'static str>
    ensures ok { IfOk result (IsCommand (found_of matches.now) (codes "explain")) }
    ensures err { OnErr result (IsSaidIfAny (one_text (found_of matches.now) (codes "cycle")) None
        ⊎ IsSaidIfAny (one_text (found_of matches.now) (codes "router")) None) }
{
    match (number_of(matches, "cycle"), index_of(matches, "router")) {
        (Some(cycle), Some(router)) => Ok(Command::Explain { cycle, router }),
        (None, _) => Err(NO_CYCLE),
        (Some(_), None) => Err(NO_ROUTER),
    }
}

// The trace that options ask for, or what is wrong with them.
fn trace_of(matches: &ArgMatches<'_>) -> Result<Command, &'static str>
    ensures ok { IfOk result (IsCommand (found_of matches.now) (codes "trace")) }
    ensures err { OnErr result (AreNoVerdicts
        (first_value (found_of matches.now) (codes "verdict"))) }
{
    let verdicts = verdicts_of(matches)?;
    Ok(Command::Trace {
        from: number_of(matches, "from"),
        to: number_of(matches, "to"),
        router: index_of(matches, "router"),
        packet: number_of(matches, "packet"),
        verdicts,
        changes: matches.get_flag("changes"),
    })
}

// The number that an argument says, if it says one.
fn number_of(matches: &ArgMatches<'_>, id: &str) -> Option<u64>
    ensures { IsSaidIfAny (one_text (found_of matches.now) id.now) result }
{
    matches.get_one(id)
}

// The same where it is that of a router, or a number of workers.
fn index_of(matches: &ArgMatches<'_>, id: &str) -> Option<usize>
    ensures { IsSaidIfAny (one_text (found_of matches.now) id.now) result }
{
    matches.get_one(id)
}

// The workers of a run, if they are 1 to 16.
fn workers_of(matches: &ArgMatches<'_>) -> Option<usize>
    ensures range { IfSome result (λ workers. (0 < workers) × (workers ≤ MAX_WORKERS)) }
    ensures said { IfSome result (SaysWorkers (found_of matches.now)) }
    ensures none { IfNone result (SaysNoWorkers (found_of matches.now)) }
{
    let workers = index_of(matches, "workers")?;
    (1 <= workers && workers <= MAX_WORKERS).then_some(workers)
}

// The verdicts of a trace, or all where none are named; or what is wrong with their names.
fn verdicts_of(matches: &ArgMatches<'_>) -> Result<Option<VerdictSet>, &'static str>
    ensures ok { IfOk result (AreVerdicts (first_value (found_of matches.now) (codes "verdict"))) }
    ensures err { OnErr result (AreNoVerdicts
        (first_value (found_of matches.now) (codes "verdict"))) }
{
    match matches.get_str("verdict") {
        Some(names) => match VerdictSet::named(names) {
            Some(verdicts) => Ok(Some(verdicts)),
            None => Err(NO_VERDICTS),
        },
        None => Ok(None),
    }
}

// The report of a run, which is that of latencies where none is named. clap lets through no word
// that names none.
fn report_of(matches: &ArgMatches<'_>) -> Option<Report>
    ensures some { IfSome result (IsReport (first_value (found_of matches.now) (codes "report"))) }
    ensures none { IfNone result (IsNoReport (first_value (found_of matches.now)
        (codes "report"))) }
{
    match matches.get_str("report") {
        Some(arg) => Report::named(arg),
        None => Some(Report::Latency),
    }
}

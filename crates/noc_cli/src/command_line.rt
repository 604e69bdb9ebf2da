//! The command line of the program: its commands, with the arguments that each takes.

ghost use Rattle.std.specs.Prelude.{◌≡◌, IfOk, OnOk, [], ◌∷◌, map};
ghost use Rattle.std.specs.List.{AllZip};
ghost use Rattle.clap.specs.declared.builder.value_parser.ValueParser.{ValueParser};
ghost use Rattle.clap.specs.Words.{app_of};
ghost use Rattle.noc_cli.specs.CommandLine.{AddsLeaf, IsArg, IsLeaf, IsProgram, TakesReports, check_shape, explain_shape, file_arg, flag_arg, number_arg, option_arg, program_shape, ranks_shape, rule_in, run_shape, shape_in, trace_shape};

use crate::version::VERSION;
use clap::{Arg, ArgAction, Command, value_parser};
use noc_commands::{REPORT_HELP, REPORT_NAMES};
use std::alloc::{AllocError, Global};

// What an argument takes. Help calls the value of an option by the name that is given here.
#[derive(Copy)]
enum Takes<'a> {
    // A file, which has to be named.
    File,
    // Nothing: an option that is there or not.
    Nothing,
    // A text.
    Text(&'a str),
    // A text, which has to be given.
    NeededText(&'a str),
    // A number of 64 bits.
    Number(&'a str),
    // A number of 64 bits, which has to be given.
    NeededNumber(&'a str),
    // A number of 64 bits, which is 1 where none is given.
    Count(&'a str),
    // One of these names of reports, which is `latency` where none is given.
    Report(&'a str, &'a [&'a str]),
}

impl<'a> Clone for Takes<'a> {
    ghost use Rattle.std.specs.Prelude.{◌≡◌, ⊤};

    ghost is_clone = { λ x y. y ≡ x };

    ghost is_infallible = { λ _. ⊤ };

    fn clone(&self) -> Result<Takes<'a>, AllocError> {
        Ok(*self)
    }
}

// An argument of a command: its id, which an option has behind two dashes, what it takes, and what
// help says of it.
type Argument<'a> = (&'a str, Takes<'a>, &'a str);

// A command: its name, what it is for, what help says behind its arguments, and these.
type Subcommand<'a> = (&'a str, &'a str, &'a str, &'a [Argument<'a>]);

const USAGE: &str = "noc COMMAND ..
       noc < JOINED";

const AFTER_HELP: &str =
    "Without a command, noc reads JOINED from standard input (a configuration, a line ---, and traffic),
and writes the latency report.

A configuration (TOML) has these keys:
  kind, radix, channels, buffer, classes, rule, cycles
Traffic (CSV) has this header, and a line for each packet:
  source,destination,class,length,due
docs/FORMATS.md tells all of the files, the reports and the fault lines.

Examples:
  noc < examples/two_routers.noc
  noc run mesh.toml traffic.csv --report summary
  noc explain mesh.toml traffic.csv --cycle 5 --router 2
  noc trace mesh.toml traffic.csv --packet 3
  noc ranks torus.toml > ranks.csv
  noc check torus.toml --ranks ranks.csv

Exit status:
  0  done
  2  the words make no sense, or ask for help
  3  a text, a shape, an option or a packet is refused
  4  a relation or ranks are refused
  5  the network is stuck
  6  memory or a worker was refused
  7  the report could not be written";

const AFTER_RUN_HELP: &str =
    "With --drain, where packets may still be out after the configuration's cycles, the run goes on:
every 64 cycles it ends if all packets are out, and it ends at the limit, which is the last due
time and the number of events that the traffic takes. With ranks, all packets are out by then.

The report is the same for every number of workers. N workers run N tiles of the network, each in a
thread, or as many tiles as there are blocks of 64 routers. One thread runs fewer than 512 cycles,
and cycles in which nothing happens.

Examples:
  noc run mesh.toml traffic.csv --report stalls
  noc run mesh.toml traffic.csv --drain --report summary

The status is 5 where the network is stuck at the end of the run.";

const AFTER_TRACE_HELP: &str =
    "The columns are cycle,router,port,vc,verdict,packet,out,permitted: those of explain with the cycle and
the router before them, and behind them the output channels that the relation permits to a packet that
asks for one. A channel that is Empty has no line.

With --packet, channels that do not hold the packet count as Empty. With --changes, a line says what was
not said of its channel in the cycle before, and a channel that is Empty from now on has a line.
With --verdict, of the lines that there would be without it, those with these verdicts are left.

Examples:
  noc trace mesh.toml traffic.csv --packet 3
  noc trace mesh.toml traffic.csv --verdict Routed,Moved
  noc trace mesh.toml traffic.csv --from 100 --to 199 --router 2 --changes";

const CONFIG_HELP: &str = "The configuration (TOML)";

const TRAFFIC_HELP: &str = "The packets (CSV; header: source,destination,class,length,due)";

const WORKERS_HELP: &str =
    "How many threads may run it: 1 to 16, and at most one for each router, see below";

const DRAIN_HELP: &str = "Run on until every packet is out, or to the network's limit, see below";

const TABLE_HELP: &str = "The routing table (CSV) of the rule 'table'";

const RANKS_HELP: &str = "The ranks of the channels (CSV)";

const RUN_RANKS_HELP: &str = "Check these ranks before the run";

const CYCLE_HELP: &str = "The cycle, from 0 to one less than the configuration's cycles";

const FROM_HELP: &str = "The first cycle; without it 0";

const TO_HELP: &str = "The last cycle; without it the last of the configuration";

const NEEDED_ROUTER_HELP: &str = "The number of the router, from 0";

const ROUTER_HELP: &str = "Only this router, by its number, from 0";

const PACKET_HELP: &str = "Only channels that hold this packet, by its number, from 0";

const VERDICT_HELP: &str = "Only lines with these verdicts, by their names in a trace";

const CHANGES_HELP: &str = "Only what is new since the cycle before";

// The arguments of the program, which texts call noc, whatever the name of its file is.
pub(crate) fn program<'a>(alloc: Global) -> Result<Command<'a>, AllocError>
    ensures { IfOk result IsProgram }
{
    let mut commands = Vec::new(alloc);
    add_commands(alloc, &mut commands)?;
    match bare_program(alloc) {
        Ok(program) => program.subcommands(commands),
        Err(error) => Err(error),
    }
}

// The program without its commands.
fn bare_program<'a>(alloc: Global) -> Result<Command<'a>, AllocError>
    ensures { IfOk result (λ program. app_of program
        ≡ record { top = program_shape; subs = [] }) }
{
    Command::new(alloc, "noc")
        .version(VERSION)
        .about("Simulates a wormhole network-on-chip with virtual channels, cycle by cycle.")
        .override_usage(USAGE)
        .after_help(AFTER_HELP)
        .bin_name("noc")
}

// The commands of the program.
static COMMANDS: [Subcommand<'static>; 5] = [
    (
        "run",
        "Runs the network for the configuration's cycles, and writes a report",
        AFTER_RUN_HELP,
        &[
            ("CONFIG", Takes::File, CONFIG_HELP),
            ("TRAFFIC", Takes::File, TRAFFIC_HELP),
            ("table", Takes::Text("F"), TABLE_HELP),
            ("ranks", Takes::Text("F"), RUN_RANKS_HELP),
            ("workers", Takes::Count("N"), WORKERS_HELP),
            ("drain", Takes::Nothing, DRAIN_HELP),
            (
                "report",
                Takes::Report("REPORT", &REPORT_NAMES),
                REPORT_HELP,
            ),
        ],
    ),
    (
        "explain",
        "Writes what each input channel of a router did in one cycle, and why it waited",
        "Example: noc explain mesh.toml traffic.csv --cycle 5 --router 2",
        &[
            ("CONFIG", Takes::File, CONFIG_HELP),
            ("TRAFFIC", Takes::File, TRAFFIC_HELP),
            ("cycle", Takes::NeededNumber("N"), CYCLE_HELP),
            ("router", Takes::NeededNumber("R"), NEEDED_ROUTER_HELP),
            ("table", Takes::Text("F"), TABLE_HELP),
        ],
    ),
    (
        "trace",
        "Writes what the input channels did in each cycle of a span, and why they waited",
        AFTER_TRACE_HELP,
        &[
            ("CONFIG", Takes::File, CONFIG_HELP),
            ("TRAFFIC", Takes::File, TRAFFIC_HELP),
            ("from", Takes::Number("A"), FROM_HELP),
            ("to", Takes::Number("B"), TO_HELP),
            ("router", Takes::Number("R"), ROUTER_HELP),
            ("packet", Takes::Number("P"), PACKET_HELP),
            ("verdict", Takes::Text("V[,V..]"), VERDICT_HELP),
            ("changes", Takes::Nothing, CHANGES_HELP),
            ("table", Takes::Text("F"), TABLE_HELP),
        ],
    ),
    (
        "check",
        "Writes 'accepted' if the ranks rise with each hop that the routing relation permits",
        "Example: noc check torus.toml --ranks ranks.csv",
        &[
            ("CONFIG", Takes::File, CONFIG_HELP),
            ("ranks", Takes::NeededText("F"), RANKS_HELP),
            ("table", Takes::Text("F"), TABLE_HELP),
        ],
    ),
    (
        "ranks",
        "Writes the ranks by formula of the routing rule, as a rank file",
        "Example: noc ranks torus.toml > ranks.csv",
        &[
            ("CONFIG", Takes::File, CONFIG_HELP),
            ("table", Takes::Text("F"), TABLE_HELP),
        ],
    ),
];

// Adds the commands of the program. (The loop stands apart: one over what is static costs its proof
// much.)
fn add_commands<'a>(alloc: Global, commands: &mut Vec<Command<'a>>) -> Result<(), AllocError>
    requires { commands.old.items ≡ [] }
    ensures { OnOk result ((names : ValueParser) × TakesReports names
        × AllZip IsLeaf (run_shape names ∷ explain_shape ∷ trace_shape ∷ check_shape
        ∷ ranks_shape ∷ []) commands.new.items) }
{
    add_all(alloc, &COMMANDS, commands)
}

// Adds these commands.
fn add_all<'a>(
    alloc: Global,
    subcommands: &[Subcommand<'a>],
    commands: &mut Vec<Command<'a>>,
) -> Result<(), AllocError>
    requires { commands.old.items ≡ [] }
    ensures { OnOk result (AllZip IsLeaf (map shape_in subcommands.now) commands.new.items) }
{
    for subcommand in subcommands {
        add_command(alloc, subcommand, commands)?;
    }
    Ok(())
}

// Adds a command, which has no command below it.
fn add_command<'a>(
    alloc: Global,
    subcommand: &Subcommand<'a>,
    commands: &mut Vec<Command<'a>>,
) -> Result<(), AllocError>
    ensures { OnOk result (AddsLeaf (shape_in subcommand.now)
        commands.old.items commands.new.items) }
{
    let (name, about, after_help, arguments) = *subcommand;
    let args = args_of(alloc, arguments)?;
    let command = Command::new(alloc, name)
        .about(about)
        .after_help(after_help)
        .args(args)?;
    commands.push(command)?;
    Ok(())
}

// Arguments for clap, one after another.
fn args_of<'a>(alloc: Global, arguments: &[Argument<'a>]) -> Result<Vec<Arg<'a>>, AllocError>
    ensures { IfOk result (λ args. AllZip IsArg (map rule_in arguments.now) args.items) }
{
    let mut args = Vec::new(alloc);
    for argument in arguments {
        args.push(arg_of(alloc, argument))?;
    }
    Ok(args)
}

// An argument for clap.
fn arg_of<'a>(alloc: Global, argument: &Argument<'a>) -> Arg<'a>
    ensures { IsArg (rule_in argument.now) result }
{
    let (id, help) = (argument.0, argument.2);
    match argument.1 {
        Takes::File => file_arg(alloc, id, help),
        Takes::Nothing => flag_arg(alloc, id, help),
        Takes::Text(value) => option_arg(alloc, id, value, help),
        Takes::NeededText(value) => option_arg(alloc, id, value, help).required(true),
        Takes::Number(value) => number_arg(alloc, id, value, help),
        Takes::NeededNumber(value) => number_arg(alloc, id, value, help).required(true),
        Takes::Count(value) => number_arg(alloc, id, value, help).default_value("1"),
        Takes::Report(value, names) => option_arg(alloc, id, value, help)
            .value_parser(names)
            .default_value("latency"),
    }
}

// A file that has to be named.
fn file_arg<'a>(alloc: Global, id: &'a str, help: &'a str) -> Arg<'a>
    ensures { IsArg (file_arg id.entry.now) result }
{
    Arg::new(alloc, id).required(true).help(help)
}

// An option with a value, which help calls `value`.
fn option_arg<'a>(alloc: Global, id: &'a str, value: &'a str, help: &'a str) -> Arg<'a>
    ensures { IsArg (option_arg id.entry.now) result }
{
    Arg::new(alloc, id).long(id).value_name(value).help(help)
}

// An option whose value is a number of 64 bits.
fn number_arg<'a>(alloc: Global, id: &'a str, value: &'a str, help: &'a str) -> Arg<'a>
    ensures { IsArg (number_arg id.entry.now) result }
{
    option_arg(alloc, id, value, help).value_parser(value_parser!(u64))
}

// An option without a value.
fn flag_arg<'a>(alloc: Global, id: &'a str, help: &'a str) -> Arg<'a>
    ensures { IsArg (flag_arg id.entry.now) result }
{
    Arg::new(alloc, id)
        .long(id)
        .action(ArgAction::SetTrue)
        .help(help)
}

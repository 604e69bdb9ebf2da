//! What the program does, from its arguments to its exit status.

ghost use Rattle.std.specs.Prelude.{◌≡◌, IfErr, IfOk, map, string_bytes};
ghost use Rattle.std.specs.Process.{exit_status};
ghost use Rattle.noc_commands.specs.Workers.{HasWorkers};
ghost use Rattle.noc_program.specs.Ending.{IsExitStatus};
ghost use Rattle.noc_program.specs.Requests.{IsRefusedAs};
ghost use Rattle.noc_program.specs.Telling.{HasEnded, TellsVersion, WasAnswered};

use crate::arguments::{Refusal, all_args, parse_args};
use crate::device::answer_on;
use crate::telling::report_refusal;
use crate::version::write_version;
use noc_answers::Request;
use noc_asked::{Asked, report};
use noc_faults::{Fault, Status};
use noc_files::{Out, Sink};
use std::fs::Files;
use std::io::{self, Write};
use std::process::ExitCode;
use std::rt::Env;
use std::sync::Wait;
use std::thread::Threads;
use std::time::Clock;

/// Does what the arguments of the command line ask for (`run_args`), or tells to `errors` why they
/// ask for nothing, and gives the exit status.
pub fn run<
    R: Env + Files + Input + Print + AllocGlobal + Threads + Wait + Clock + Sync,
    W: Write + Drop,
>(rt: &R, errors: W) -> ExitCode
    ensures { IsExitStatus (exit_status result) }
{
    let mut errors = Out::new(errors);
    let ended = match all_args(rt) {
        Ok(args) => run_args(rt, &args, &mut errors),
        Err(refusal) => Err(refusal),
    };
    match ended {
        Ok(status) => status,
        Err(refusal) => report_refusal(errors.into_inner(), &refusal),
    }
}

/// Does what these arguments ask for, the program's name being the first: answers a request on
/// standard output, or prints the version. A fault is told to `errors` by its line. Gives the exit
/// status, or why the arguments ask for nothing.
pub fn run_args<R: Files + Input + Print + AllocGlobal + Threads + Wait + Clock + Sync, W: Sink>(
    rt: &R,
    args: &[String],
    errors: &mut W,
) -> Result<ExitCode, Refusal>
    ensures done { IfOk result (λ code. HasEnded W.contents W.has_failed errors.old errors.new
        (map string_bytes args.now) (exit_status code)) }
    ensures refused { IfErr result (λ refusal. IsRefusedAs (map string_bytes args.now) refusal
        × (errors.new ≡ errors.old)) }
{
    match parse_args(rt, args) {
        Ok(Asked::Answer(request)) => Ok(print_answer(rt, &request, errors)),
        Ok(Asked::Version) => Ok(print_version(rt, errors)),
        Err(refusal) => Err(refusal),
    }
}

// Answers a request on standard output, and gives the exit status.
fn print_answer<R: Print + AllocGlobal + Threads + Wait + Clock + Sync, W: Sink>(
    rt: &R,
    request: &Request,
    errors: &mut W,
) -> ExitCode
    requires { HasWorkers request.now.command }
    ensures { WasAnswered W.contents W.has_failed errors.old errors.new request.now
        (exit_status result) }
{
    let ended = answer_on(rt, rt.alloc(), request, io::writer(rt));
    report(ended, errors)
}

// Tells the version on standard output, and gives the exit status.
fn print_version<R: Print, W: Sink>(rt: &R, errors: &mut W) -> ExitCode
    ensures { TellsVersion W.contents W.has_failed errors.old errors.new (exit_status result) }
{
    let written = write_version(&mut Out::new(io::writer(rt)));
    report(written.map(|()| Status::Done).map_err(Fault::Write), errors)
}

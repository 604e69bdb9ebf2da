//! The request that the arguments make, with the texts of the files that they name.

ghost use Rattle.std.specs.Prelude.{IfErr, IfOk, map, string_bytes};
ghost use Rattle.noc_program.specs.Requests.{IsAskedAs, IsRefusedAs};

use clap::error::ErrorKind;
use noc_answers::{Request, Text};
use noc_asked::{Asked, asked_of};
use noc_cli::read_args;
use noc_commands::Command;
use noc_files::{InputFault, read_all};
use std::env::FillError;
use std::fs::{File, Files};
use std::rt::Env;
use std::{env, io};

/// The most bytes of one input text.
const INPUT_LIMIT: usize = 67_108_864;

/// Why the arguments make no request.
#[derive(Drop)]
pub enum Refusal {
    /// Memory was refused.
    Memory,
    /// An argument is no text in UTF-8: its number, the program's name being 0, where the argument
    /// is not too long to be looked at.
    NotText(Option<usize>),
    /// They make no sense, or help was asked for.
    Args(clap::Error),
}

// What these arguments ask for, the program's name being the first. A request has the texts of the
// files that they name.
pub(crate) fn parse_args(
    rt: &(impl Files + Input + AllocGlobal),
    args: &[String],
) -> Result<Asked, Refusal>
    ensures asked { IfOk result (IsAskedAs (map string_bytes args.now)) }
    ensures refused { IfErr result (IsRefusedAs (map string_bytes args.now)) }
{
    if args.len() <= 1 {
        return Ok(Asked::Answer(Request {
            config: read_all(rt.alloc(), &mut rt.reader(), INPUT_LIMIT),
            table: None,
            ranks: None,
            traffic: Err(InputFault::ReadFailed),
            command: Command::Joined,
        }));
    }
    let file_text = |name: &str| -> Text {
        match File::open(rt, name) {
            Ok(mut file) => read_all(rt.alloc(), &mut file, INPUT_LIMIT),
            Err(_) => Err(InputFault::ReadFailed),
        }
    };
    match read_args(rt.alloc(), args) {
        Ok(args) => Ok(asked_of(&args, file_text)),
        Err(error) => match error.kind() {
            ErrorKind::DisplayVersion => Ok(Asked::Version),
            ErrorKind::OutOfMemory => Err(Refusal::Memory),
            _ => Err(Refusal::Args(error)),
        },
    }
}

// The arguments of the command line, the program's name first.
pub(crate) fn all_args(rt: &(impl Env + AllocGlobal)) -> Result<Vec<String>, Refusal> {
    match env::args(rt) {
        Ok(args) => args.collect(rt.alloc()).map_err(|_| Refusal::Memory),
        Err(error) if error.kind() == io::ErrorKind::OutOfMemory => Err(Refusal::Memory),
        Err(_) => Err(Refusal::NotText(wrong_arg(rt))),
    }
}

// The number of the first argument that is no text in UTF-8, of arguments of less than 4096 bytes.
fn wrong_arg(rt: &impl Env) -> Option<usize> {
    let mut bytes = [0u8; 4096];
    for number in 0..usize::MAX {
        match rt.arg(number, &mut bytes) {
            Ok(length) if str::from_utf8(&bytes[..length]).is_err() => return Some(number),
            Ok(_) | Err(FillError::TooLong) => {}
            Err(FillError::NotPresent) => break,
        }
    }
    None
}

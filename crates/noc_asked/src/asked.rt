//! What the arguments ask for, with the texts of the files that they name.

ghost use Rattle.std.specs.Prelude.{◌≡◌};
ghost use Rattle.std.specs.Fn.{FnReturnsAt};
ghost use Rattle.noc_asked.specs.Asked.{AsksAs, ReadsIfNamed, ReadsOrFails};

use noc_cli::Args;
use noc_files::InputFault;
use noc_requests::{Request, Text};

/// What the arguments ask for.
#[derive(Drop)]
pub enum Asked {
    /// An answer.
    Answer(Request),
    /// Which version of the program this is.
    Version,
}

/// What these arguments ask for, which have a command: its answer, with what `read` gives for the
/// files that they name.
pub fn asked_of<F: Fn(&str) -> Text>(args: &Args<'_>, read: F) -> Asked
    requires { F.IsAlwaysCallable read }
    ensures { AsksAs args.now result }
{
    let request = request_of(args, read);
    Asked::Answer(request)
}

/// The request of the arguments, with what `read` gives for the files that they name. Traffic that
/// is not named is not read.
pub fn request_of<F: Fn(&str) -> Text>(args: &Args<'_>, read: F) -> Request
    requires { F.IsAlwaysCallable read }
    ensures command { result.command ≡ args.now.command }
    ensures config { FnReturnsAt F.Fn read args.now.config.now result.config }
    ensures table { ReadsIfNamed (FnReturnsAt F.Fn read) args.now.table result.table }
    ensures ranks { ReadsIfNamed (FnReturnsAt F.Fn read) args.now.ranks result.ranks }
    ensures traffic { ReadsOrFails (FnReturnsAt F.Fn read) args.now.traffic result.traffic }
{
    Request {
        config: read(args.config),
        table: text_if_named(args.table, &read),
        ranks: text_if_named(args.ranks, &read),
        traffic: text_or_fault(args.traffic, &read),
        command: args.command,
    }
}

// What `read` gives for a name, where there is one.
fn text_if_named<F: Fn(&str) -> Text>(name: Option<&str>, read: &F) -> Option<Text>
    requires { F.IsAlwaysCallable read.now }
    ensures { ReadsIfNamed (FnReturnsAt F.Fn read.now) name.entry result }
{
    match name {
        Some(name) => Some(read(name)),
        None => None,
    }
}

// What `read` gives for a name, or that nothing was read where there is none.
fn text_or_fault<F: Fn(&str) -> Text>(name: Option<&str>, read: &F) -> Text
    requires { F.IsAlwaysCallable read.now }
    ensures { ReadsOrFails (FnReturnsAt F.Fn read.now) name.entry result }
{
    match name {
        Some(name) => read(name),
        None => Err(InputFault::ReadFailed),
    }
}

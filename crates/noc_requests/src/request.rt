//! Requests: commands with the texts of their files.

ghost use Rattle.std.specs.Prelude.{◌≡◌};
ghost use Rattle.noc_requests.specs.Prelude.{files_of, lent_files, lent_text, owned_text};

use noc_commands::Command;
use noc_files::InputFault;

/// The bytes of one file, or the fault of reading it.
pub type Text = Result<Vec<u8>, InputFault>;

/// The bytes of one file, lent, or the fault of reading it.
pub type Bytes<'a> = Result<&'a [u8], InputFault>;

/// A command with the texts of its files. A command that looks at no traffic takes any text there.
#[derive(Drop)]
pub struct Request {
    /// The configuration, or a joined text.
    pub config: Text,
    /// The routing table, where one is named.
    pub table: Option<Text>,
    /// The ranks, where they are named.
    pub ranks: Option<Text>,
    /// The traffic.
    pub traffic: Text,
    /// What is asked for.
    pub command: Command,
}

/// A command with the texts that it looks at: a joined text is parted here.
#[derive(Clone, Copy)]
pub struct Files<'a> {
    /// The configuration.
    pub config: Bytes<'a>,
    /// The routing table, where there is one.
    pub table: Option<Bytes<'a>>,
    /// The ranks, where there are some.
    pub ranks: Option<Bytes<'a>>,
    /// The traffic.
    pub traffic: Bytes<'a>,
    /// What is asked for.
    pub command: Command,
}

/// The texts of a request as they stand.
pub fn files_of(request: &Request) -> Files<'_>
    ensures { lent_files result ≡ files_of request.now }
{
    Files {
        config: bytes_of(&request.config),
        table: request.table.as_ref().map(bytes_of),
        ranks: request.ranks.as_ref().map(bytes_of),
        traffic: bytes_of(&request.traffic),
        command: request.command,
    }
}

// The bytes of a text.
fn bytes_of(text: &Text) -> Bytes<'_>
    ensures { lent_text result ≡ owned_text text.now }
{
    match text {
        Ok(bytes) => Ok(bytes.as_slice()),
        Err(fault) => Err(*fault),
    }
}

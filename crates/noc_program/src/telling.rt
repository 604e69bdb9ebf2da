//! How the program tells why nothing was asked for.

ghost use Rattle.std.specs.Prelude.{◌≡◌, ◌≢◌};
ghost use Rattle.std.specs.Process.{exit_status};

use crate::arguments::Refusal;
use arrayvec::ArrayString;
use noc_asked::report;
use noc_faults::Fault;
use noc_files::{InputFault, Out};
use std::fmt::Write as _;
use std::io::Write;
use std::process::ExitCode;

/// The exit status of arguments that make no sense.
const WRONG_ARGS: u8 = 2;

// Tells why the arguments make no request, and gives the exit status.
pub(crate) fn report_refusal<W: Write + Drop>(mut to: W, refusal: &Refusal) -> ExitCode
    ensures memory { refusal.now ≡ Refusal.Memory → exit_status result ≡ 6 }
    ensures args { refusal.now ≢ Refusal.Memory → exit_status result ≡ WRONG_ARGS }
{
    let _ = match refusal {
        Refusal::Memory => {
            return report(Err(Fault::Config(InputFault::Memory)), &mut Out::new(to));
        }
        Refusal::NotText(None) => writeln!(to, "error: a word is no text in UTF-8"),
        Refusal::NotText(Some(number)) => {
            let mut line = ArrayString::<64>::new();
            let _ = write!(line, "error: word {number} is no text in UTF-8\n");
            to.write_all(line.as_bytes())
        }
        Refusal::Args(error) => write!(to, "{error}"),
    };
    ExitCode::from(WRONG_ARGS)
}

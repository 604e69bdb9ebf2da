//! How the program tells how an answer has ended.

ghost use Rattle.std.specs.Process.{exit_status};
ghost use Rattle.noc_asked.specs.Telling.{Tells};

use noc_faults::{Fault, Status, fault_line, status_of};
use noc_files::Sink;
use std::process::ExitCode;

/// Gives the exit status of an answer, and tells its fault, if there is one, by its line
/// (docs/FORMATS.md, "Fault lines"). The line goes out in one write, so that programs side by side,
/// with one file for their errors, leave whole lines there.
pub fn report<W: Sink>(ended: Result<Status, Fault>, errors: &mut W) -> ExitCode
    ensures { Tells W.contents W.has_failed errors.old errors.new ended (exit_status result) }
{
    match ended {
        Ok(status) => ExitCode::from(status.code()),
        Err(fault) => {
            let _ = fault_line(&fault, errors);
            ExitCode::from(status_of(&fault))
        }
    }
}

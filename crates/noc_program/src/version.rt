//! What `--version` says.

ghost use Rattle.noc_files.specs.Writing.{Wrote};
ghost use Rattle.noc_program.specs.Version.{version_text};

use noc_cli::{FORMATS, KIT, VERSION};
use noc_files::{Sink, WriteFault, write_pieces};

/// Writes the number of the program, the number of its formats, and the kit with which it is
/// proved, a line for each.
pub fn write_version<W: Sink>(sink: &mut W) -> Result<(), WriteFault>
    ensures { Wrote W.contents W.has_failed sink.old sink.new version_text result }
{
    let pieces = ["noc ", VERSION, "\nformats ", FORMATS, "\nkit ", KIT, "\n"];
    write_pieces(&pieces, sink)
}

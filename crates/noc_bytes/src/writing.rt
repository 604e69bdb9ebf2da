//! Putting texts into a sink.

ghost use Rattle.std.specs.Prelude.{◌≡◌, ◌+◌, ◌^◌, ◌<◌, ◌≤◌, Some, length};
ghost use Rattle.std.specs.List.{flat_map};
ghost use Rattle.noc_bytes.specs.Titles.{write_title};
ghost use Rattle.noc_bytes.specs.Writing.{Wrote};

use crate::input_fault::LONGEST_TITLE;
use crate::sink::Sink;
use std::error::Error;
use std::fmt;

/// A sink failed after exactly the first `written` bytes of a text.
#[derive(Clone, Copy, Debug, PartialEq, Eq)]
pub struct WriteFault {
    /// How many bytes of the text the sink took.
    pub written: u64,
}

impl WriteFault {
    /// The number and the name of the fault, as its fault line has them; at most `LONGEST_TITLE`
    /// bytes (docs/FORMATS.md, "Fault lines").
    pub fn title(&self) -> &'static str
        ensures title { result.now ≡ write_title }
        ensures short { length result.now ≤ LONGEST_TITLE }
    {
        "1 WriteFailed"
    }

    /// The fault of a text that has so many bytes before the one of this fault.
    pub fn after(self, before: u64) -> WriteFault
        requires { before + self.written < 2 ^ 64 }
        ensures { result.written ≡ before + self.written }
    {
        WriteFault {
            written: before + self.written,
        }
    }
}

/// Its title.
impl fmt::Display for WriteFault {
    ghost output = { λ _. Some write_title };

    fn fmt<W: fmt::Write>(&self, f: &mut fmt::Formatter<W>) -> fmt::Result {
        f.write_str(self.title())
    }
}

impl Error for WriteFault {}

/// Puts a text to its end, or answers the fault after which the sink took no more.
pub fn put_all<W: Sink>(sink: &mut W, bytes: &[u8]) -> Result<(), WriteFault>
    ensures { Wrote W.contents W.has_failed sink.old sink.new bytes.now result }
{
    let mut at = 0;
    while at < bytes.len() {
        let taken = sink.put(&bytes[at..]);
        if taken == 0 {
            return Err(WriteFault { written: at as u64 });
        }
        at += taken;
    }
    Ok(())
}

/// Writes pieces of a text one after the other, or answers the fault after
/// which the sink took no more.
pub fn write_pieces<W: Sink>(pieces: &[&str], sink: &mut W) -> Result<(), WriteFault>
    requires { length (flat_map (λ p. p.now) pieces.now) < 2 ^ 64 }
    ensures { Wrote W.contents W.has_failed sink.old sink.new
        (flat_map (λ p. p.now) pieces.now) result }
{
    let mut written = 0u64;
    for piece in pieces {
        if let Err(fault) = put_all(sink, piece.as_bytes()) {
            return Err(fault.after(written));
        }
        written += piece.len() as u64;
    }
    Ok(())
}

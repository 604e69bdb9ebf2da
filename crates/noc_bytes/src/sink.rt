//! Where reports go.

ghost use Rattle.std.specs.Prelude.{◌≡◌, ◌≤◌, ◌==◌, ◌&&◌, ◌||◌, ℕ, Bool, false, true, not, List, Option, length, take};
ghost use Rattle.std.specs.Io.KnownBytes.{Appends, Keeps};

use std::io::Write;
use std::marker::Model;

/// What takes bytes until it fails.
pub trait Sink {
    // The bytes that it has taken, where they are known.
    ghost contents: { Self → Option (List ℕ) };

    // Whether it has failed, which is for good.
    ghost has_failed: { Self → Bool };

    /// Takes as many of the first bytes as it answers.
    fn put(&mut self, bytes: &[u8]) -> usize
        ensures within { result ≤ length bytes.now }
        ensures takes { Appends (contents self.old) (contents self.new) (take result bytes.now) }

        // Taking none of some bytes, and nothing else, makes it fail.
        ensures fails { has_failed self.new
            ≡ (has_failed self.old || (result == 0 && not (length bytes.now == 0))) }
        ensures closed { has_failed self.old ≡ true → result ≡ 0 };

    /// Whether it has failed.
    fn failed(&self) -> bool
        ensures { result ≡ has_failed self.now };

    /// Hands on what it has taken and kept back, or fails. A sink that keeps
    /// nothing back leaves this out.
    fn hand_on(&mut self)
        ensures bytes { Keeps (contents self.old) (contents self.new) }
        ensures closed { has_failed self.old ≡ true → has_failed self.new ≡ true }
    {}
}

/// The sink over a writer. It fails where `write` or `flush` fails, or `write`
/// takes nothing of some bytes.
#[derive(Drop)]
pub struct Out<W> {
    writer: W,
    failed: bool,
}

// A sink over a writer is seen as the writer, and whether it has failed.
impl<W> Model for Out<W> {
    ghost use Rattle.std.specs.Prelude.{Bool};

    ghost Value = { W × Bool };

    ghost view = { λ s. (s.writer, s.failed) };
}

impl<W> Out<W> {
    /// The sink over this writer, which has not failed.
    pub fn new(writer: W) -> Out<W>
        ensures { result ≡ (writer, false) }
    {
        Out {
            writer,
            failed: false,
        }
    }

    /// Gives the writer back.
    pub fn into_inner(self) -> W
        ensures { result ≡ self.0 }
    {
        let Out { writer, failed: _ } = self;
        writer
    }
}

impl<W: Write> Sink for Out<W> {
    ghost contents = { λ s. W.contents s.0 };

    ghost has_failed = { λ s. s.1 };

    fn put(&mut self, bytes: &[u8]) -> usize {
        if self.failed || bytes.is_empty() {
            return 0;
        }
        match self.writer.write(bytes) {
            Ok(taken) if 0 < taken => taken,
            _ => {
                self.failed = true;
                0
            }
        }
    }

    fn failed(&self) -> bool {
        self.failed
    }

    fn hand_on(&mut self) {
        if !self.failed && self.writer.flush().is_err() {
            self.failed = true;
        }
    }
}

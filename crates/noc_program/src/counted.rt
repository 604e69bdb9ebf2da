//! A writer that counts what the device below it takes.

ghost use Rattle.noc_program.specs.Counted.{counted_contents};

use std::io::{self, Write};

// A writer, and how many bytes it has taken.
#[derive(Drop)]
pub(crate) struct Counted<W> {
    pub(crate) writer: W,
    pub(crate) taken: u64,
}

impl<W: Write> Write for Counted<W> {
    ghost contents = { counted_contents W.contents };

    // Nothing is taken that cannot be counted.
    fn write(&mut self, bytes: &[u8]) -> io::Result<usize> {
        let room = u64::MAX - self.taken;
        if room < bytes.len() as u64 {
            return Ok(0);
        }
        let count = self.writer.write(bytes)?;
        self.taken += count as u64;
        Ok(count)
    }

    fn flush(&mut self) -> io::Result<()> {
        self.writer.flush()
    }
}

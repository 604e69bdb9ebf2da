//! A sink of two members.

ghost use Rattle.std.specs.Prelude.{None};

use noc_files::Sink;

// Takes one byte in each call, and no more than `capacity` in all.
#[derive(Drop)]
pub(crate) struct Tray {
    pub(crate) bytes: Vec<u8>,
    pub(crate) capacity: usize,
    pub(crate) failed: bool,
}

impl Sink for Tray {
    ghost contents = { λ _. None };

    ghost has_failed = { λ s. s.failed };

    fn put(&mut self, bytes: &[u8]) -> usize {
        let Some(byte) = bytes.first() else {
            return 0;
        };
        if self.failed || self.capacity <= self.bytes.len() || self.bytes.push(*byte).is_err() {
            self.failed = true;
            return 0;
        }
        1
    }

    fn failed(&self) -> bool {
        self.failed
    }
}

//! Devices that take some bytes and then no more.

ghost use Rattle.std.specs.Prelude.{◌≤◌};

use noc_files::{Out, Sink, WriteFault, write_pieces};
use std::io;
use std::io::{ErrorKind, Write};

// What a device does once it is full.
#[derive(Clone, Copy)]
enum End {
    TakesNothing,
    Fails,
}

// Takes one byte for each call into a buffer, and none once it has as many as it may take. It says
// how often it was called.
#[derive(Drop)]
struct Narrow {
    taken: [u8; LENGTH],
    capacity: usize,
    count: usize,
    calls: usize,
    end: End,
}

impl Write for Narrow {
    fn write(&mut self, buf: &[u8]) -> io::Result<usize> {
        self.calls = self.calls.saturating_add(1);
        if buf.is_empty() || self.capacity <= self.count || LENGTH <= self.count {
            return match self.end {
                End::TakesNothing => Ok(0),
                End::Fails => Err(io::Error::from(ErrorKind::StorageFull)),
            };
        }
        self.taken[self.count] = buf[0];
        self.count += 1;
        Ok(1)
    }

    fn flush(&mut self) -> io::Result<()> {
        Ok(())
    }
}

const PIECES: [&str; 5] = ["fault ", "", "network", " 4", "\n"];

const TEXT: &[u8] = b"fault network 4\n";

const LENGTH: usize = 16;

// What a device made of a text: the answer, whether the sink has failed, how many bytes were
// taken, and by how many calls.
type WriteOutcome = (Result<(), WriteFault>, bool, usize, usize);

// What is wanted of a text of so many bytes where a device takes `count` of them.
fn wanted(count: usize, length: usize) -> WriteOutcome {
    if count < length {
        let written = count as u64;
        (Err(WriteFault { written }), true, count, count + 1)
    } else {
        (Ok(()), false, length, length)
    }
}

// Whether the pieces go as far as they should into a device that takes `capacity` bytes of them.
fn goes_so_far(capacity: usize, end: End) -> bool
    requires { capacity ≤ LENGTH }
{
    let mut out = Out::new(Narrow {
        taken: [0; LENGTH],
        capacity,
        count: 0,
        calls: 0,
        end,
    });
    let answer = write_pieces(&PIECES, &mut out);
    let failed = out.failed();
    let narrow = out.into_inner();
    let outcome = (answer, failed, narrow.count, narrow.calls);
    outcome == wanted(capacity, LENGTH) && TEXT.starts_with(&narrow.taken[..capacity])
}

#[test]
fn pieces_into_a_sink_that_takes_some_bytes(rt: HostRuntime) {
    for count in 0..LENGTH + 1 {
        let takes_nothing = goes_so_far(count, End::TakesNothing);
        let fails = goes_so_far(count, End::Fails);
        assert!(rt; takes_nothing && fails);
    }
}

//! Bytes that are read to their end or up to a limit, how often that reads, and readers that fail.

use noc_files::{InputFault, read_all};
use std::alloc::Global;
use std::io;
use std::io::{ErrorKind, Read};

// Gives the bytes of a text one for each read, and says how often it was read. One of its reads
// fails, if it comes so far.
#[derive(Drop)]
struct Drip<'a> {
    rest: &'a [u8],
    reads: usize,
    fails_at: usize,
}

impl Read for Drip<'_> {
    fn read(&mut self, buf: &mut [u8]) -> io::Result<usize> {
        self.reads = self.reads.saturating_add(1);
        if self.reads == self.fails_at {
            return Err(io::Error::from(ErrorKind::Interrupted));
        }
        if self.rest.is_empty() || buf.is_empty() {
            return Ok(0);
        }
        buf[0] = self.rest[0];
        self.rest = &self.rest[1..];
        Ok(1)
    }
}

// A reader of a text, of whose reads one fails.
fn dripping(rest: &[u8], fails_at: usize) -> Drip<'_> {
    Drip {
        rest,
        reads: 0,
        fails_at,
    }
}

// What a text of these bytes gives where ten may be read, and how often it was read.
fn fault_of_ten(alloc: Global, text: &[u8], fails_at: usize) -> (Option<InputFault>, usize) {
    let mut reader = dripping(text, fails_at);
    let fault = read_all(alloc, &mut reader, 10).err();
    (fault, reader.reads)
}

#[test]
fn bytes_one_by_one_up_to_the_limit(rt: HostRuntime) -> Result<(), InputFault> {
    let mut reader = dripping(b"0123456789", usize::MAX);
    let bytes = read_all(rt.alloc(), &mut reader, 10)?;
    let is_whole = bytes.as_slice() == b"0123456789".as_slice();
    drop(bytes);
    assert!(rt; is_whole && reader.reads == 11);
    Ok(())
}

#[test]
fn one_byte_above_the_limit(rt: HostRuntime) {
    let long = fault_of_ten(rt.alloc(), b"0123456789a", usize::MAX);
    let empty = fault_of_ten(rt.alloc(), b"", usize::MAX);
    assert!(rt; long == (Some(InputFault::TooLong), 11) && empty == (None, 1));
}

#[test]
fn a_reader_that_fails_is_read_no_more(rt: HostRuntime) {
    for fails_at in 1..12usize {
        let failed = fault_of_ten(rt.alloc(), b"0123456789a", fails_at);
        assert!(rt; failed == (Some(InputFault::ReadFailed), fails_at));
    }
}

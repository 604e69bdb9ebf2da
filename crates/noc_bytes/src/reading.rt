//! Reading all of an input.

ghost use Rattle.std.specs.Prelude.{◌≤◌, Ok, Err, length, nat_le, vec_len, if◌then◌else◌, IfOk, IfSome, OnOk};
ghost use Rattle.std.specs.Io.KnownBytes.{IsAtEnd};
ghost use Rattle.noc_bytes.specs.Reading.{Reads};

use crate::input_fault::InputFault;
use std::alloc::Global;
use std::io::Read;

/// All the bytes that a reader gives, or `TooLong` where it gives more than `limit` bytes, `Memory`
/// where a growth was refused, and `ReadFailed` where it failed: a read that fails is not tried
/// again. It makes at most `limit` + 1 reads.
pub fn read_all<R: Read>(alloc: Global, reader: &mut R, limit: usize) -> Result<Vec<u8>, InputFault>
    ensures short { IfOk result (λ v. vec_len v ≤ limit) }
    ensures end { OnOk result (IsAtEnd (R.remaining reader.new)) }
    ensures known { IfSome (R.remaining reader.old)
        (λ xs. Reads result (if nat_le (length xs) limit then Ok xs else Err InputFault.TooLong)) }
{
    let mut bytes = Vec::new(alloc);
    let mut chunk = [0u8; 4096];
    'reads: loop {
        let count = match reader.read(&mut chunk) {
            Ok(count) => count,
            Err(_) => return Err(InputFault::ReadFailed),
        };
        if count == 0 {
            return Ok(bytes);
        }
        if limit - bytes.len() < count {
            return Err(InputFault::TooLong);
        }
        bytes.extend_from_slice(&chunk[..count])?;
    }
}

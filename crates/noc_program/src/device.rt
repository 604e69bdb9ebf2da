//! The way of an answer onto a device.

ghost use Rattle.std.specs.Prelude.{◌≡◌, [], IfSome, IsErr};
ghost use Rattle.std.specs.Io.Buffered.{writer_buffer, writer_contents, writer_inner};
ghost use Rattle.std.specs.Io.KnownBytes.{Keeps};
ghost use Rattle.noc_commands.specs.Workers.{HasWorkers};
ghost use Rattle.noc_program.specs.Counted.{IsOpened, IsTakenBack, counted_contents};
ghost use Rattle.noc_program.specs.Ending.{EndsAs};
ghost use Rattle.noc_program.specs.Telling.{IsEndOf, IsEndOn};

use crate::counted::Counted;
use noc_answers::{Request, answer, answer_one};
use noc_commands::Command;
use noc_faults::{Fault, Status};
use noc_files::{InputFault, Out, WriteFault};
use std::alloc::Global;
use std::io::{BufWriter, Write};
use std::sync::Wait;
use std::thread::Threads;
use std::time::Clock;

// Writes to a device through a buffer, with the bytes counted below it.
type Buffered<W> = Out<BufWriter<Counted<W>>>;

/// Writes the answer to a device, through a buffer, and gives the device back. It is not given back
/// only where there is no memory for the buffer: then nothing is written, and the fault is want of
/// memory, told as that of the configuration.
pub fn write_answer<R: Threads + Wait + Clock + Sync, W: Write + Drop>(
    rt: &R,
    alloc: Global,
    request: &Request,
    device: W,
) -> (Result<Status, Fault>, Option<W>)
    requires { HasWorkers request.now.command }
    ensures { IsEndOn W.contents request.now device result.0 result.1 }
{
    let Some(mut out) = buffered(alloc, device) else {
        return (Err(Fault::Config(InputFault::Memory)), None);
    };
    let answered = answer(rt, alloc, request, &mut out);
    let (ended, device) = taken_back(answered, out);
    (ended, Some(device))
}

/// Writes the answer to a device as `write_answer` does, with one thread, and needs no right to
/// wait: so it returns, whatever is asked.
pub fn write_answer_one<R: Threads + Sync, W: Write + Drop>(
    rt: &R,
    alloc: Global,
    request: &Request,
    device: W,
) -> (Result<Status, Fault>, Option<W>)
    ensures { IsEndOn W.contents request.now device result.0 result.1 }
{
    let Some(mut out) = buffered(alloc, device) else {
        return (Err(Fault::Config(InputFault::Memory)), None);
    };
    let answered = answer_one(rt, alloc, request, &mut out);
    let (ended, device) = taken_back(answered, out);
    (ended, Some(device))
}

// Writes the answer to a device. Only a run by two or more workers may wait for other threads.
pub(crate) fn answer_on<R: Threads + Wait + Clock + Sync, W: Write + Drop>(
    rt: &R,
    alloc: Global,
    request: &Request,
    device: W,
) -> Result<Status, Fault>
    requires { HasWorkers request.now.command }
    ensures { IsEndOf request.now result }
{
    let (ended, _) = match request.command {
        Command::Run { workers, .. } if 1 < workers => write_answer(rt, alloc, request, device),
        _ => write_answer_one(rt, alloc, request, device),
    };
    ended
}

// A buffer before a device, from which no byte has gone out, where there is memory for it.
fn buffered<W: Write + Drop>(alloc: Global, device: W) -> Option<Buffered<W>>
    ensures { IfSome result (λ out. IsOpened W.contents device out.0) }
{
    let counted = Counted {
        writer: device,
        taken: 0,
    };
    let writer = BufWriter::new(alloc, counted).ok()?;
    Some(Out::new(writer))
}

// How an answer ends, with the device of its buffer. What a fault left in the buffer goes nowhere.
fn taken_back<W: Write + Drop>(
    answered: Result<Status, Fault>,
    out: Buffered<W>,
) -> (Result<Status, Fault>, W)
    ensures { IsTakenBack W.contents out.0 answered result.1 result.0 }
{
    let mut writer = out.into_inner();
    let ended = finished(answered, &mut writer);
    let (counted, _) = writer.into_parts();
    (ended, counted.writer)
}

// How an answer ends: a whole one goes out to its last byte, and a fault of writing has the number
// of bytes that were counted below the buffer.
fn finished<W: Write + Drop>(
    answered: Result<Status, Fault>,
    writer: &mut BufWriter<Counted<W>>,
) -> Result<Status, Fault>
    ensures ends { EndsAs (writer_buffer writer.new ≡ []) (writer_inner writer.new).taken
        answered result }
    ensures bytes { Keeps (writer_contents (counted_contents W.contents) writer.old)
        (writer_contents (counted_contents W.contents) writer.new) }
    ensures still { IsErr answered → writer.new ≡ writer.old }
{
    match answered {
        Ok(status) if writer.flush().is_ok() => Ok(status),
        Ok(_) | Err(Fault::Write(_)) => Err(Fault::Write(WriteFault {
            written: writer.get_ref().taken,
        })),
        Err(fault) => Err(fault),
    }
}

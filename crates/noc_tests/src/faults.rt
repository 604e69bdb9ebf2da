//! What faults show of themselves (docs/FORMATS.md, "Fault lines"): `Fault` its line without the
//! end, and what stands in it its number and its name.

use noc_faults::{Fault, OptionFault};
use noc_files::{InputFault, Key, WriteFault};
use std::alloc::Global;
use std::error::Error;

// Whether an error shows itself by this text.
fn shows(alloc: Global, error: &impl Error, text: &str) -> bool {
    match error.to_string(alloc) {
        Ok(shown) => shown.as_str() == text,
        Err(_) => false,
    }
}

// Whether faults of an input, of a sink and of options show themselves as in their lines.
fn all_show(alloc: Global) -> bool {
    let missing = InputFault::MissingKey(Key::Buffer);
    let of_config = Fault::Config(missing);
    let refused = WriteFault { written: 17 };
    let of_write = Fault::Write(refused);
    shows(alloc, &missing, "6 MissingKey")
        && shows(alloc, &of_config, "fault config 6 MissingKey key buffer")
        && shows(alloc, &refused, "1 WriteFailed")
        && shows(alloc, &of_write, "fault write 1 WriteFailed written 17")
        && shows(alloc, &OptionFault::NoTable, "4 NoTable")
}

#[test]
fn faults_show_themselves_as_in_their_lines(rt: HostRuntime) {
    assert!(rt; all_show(rt.alloc()));
}

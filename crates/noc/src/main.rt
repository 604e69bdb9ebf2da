//! The simulator. All that it does stands in the library `noc_program`.
#![tactic(auto)]

use noc_program::run;
use std::process::ExitCode;

fn main(rt: HostRuntime) -> ExitCode {
    run(&rt, rt.stderr())
}

//! What the program can be asked for: commands, the reports of a run with their names, and sets of
//! verdicts by their names. It is a crate of its own, so that `noc_cli`, which makes commands of
//! words, stands on no engine and is proved beside the engines.
#![tactic(auto)]

mod command;
mod report;
mod verdicts;

pub use command::{Command, MAX_WORKERS};
pub use report::{REPORT_HELP, REPORT_NAMES, Report};
pub use verdicts::VerdictSet;

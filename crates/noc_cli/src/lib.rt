//! The arguments of the command line: the commands that they ask for, with the files that they
//! name. It stands on `noc_commands` and on no engine, so that it is proved beside the engines.
#![tactic(auto)]

mod args;
mod command_line;
mod version;

pub use args::{Args, read_args};
pub use version::{FORMATS, KIT, VERSION};

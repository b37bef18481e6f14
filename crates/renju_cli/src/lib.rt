//! The program `renju` as one call from words and bytes to bytes and a status.
//!
//! Each command stands in a crate of commands: those of tables, of positions, of the brain, `solve` and `quiet`. `commands` lists
//! them, `forms` tells what words each wants, and `run` has the one public call.
#![tactic(auto)]

mod commands;
mod forms;
mod numbers;
mod run;

pub use command_base::Status;
pub use commands::{Form, USAGE};
pub use run::run_renju;

//! Tests of the program and of what it reads and writes by: lines and words, devices, the commands of a manager, a brain without
//! memory, and whole runs over devices in memory that fail.
//!
//! A module `of_NAME` tries the crate NAME. It uses public calls alone, so it stands apart from that crate, which is proved once:
//! a crate with tests is proved a second time for them. Like cases are rows of a table, each call is made by a small function that
//! promises nothing, and one function compares.
#![tactic(auto)]

#[cfg(test)]
mod compared;
#[cfg(test)]
mod devices;
#[cfg(test)]
mod line_reader;
#[cfg(test)]
mod of_brain_session;
#[cfg(test)]
mod of_gomocup_text;
#[cfg(test)]
mod of_renju_cli;
#[cfg(test)]
mod of_renju_io;
#[cfg(test)]
mod of_text_lines;

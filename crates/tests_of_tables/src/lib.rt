//! Tests of tables: nodes and starts, and what makes and checks them; and runs of the callers that `docs/CALLING.md` names. What the
//! program shows of texts, images and books is a case of `.ci/cases.py`.
//!
//! A module `of_NAME` tries the crate NAME. It uses public calls alone, so it stands apart from that crate, which is proved once:
//! a crate with tests is proved a second time for them. Like cases are rows of a table, each call is made by a small function that
//! promises nothing, and one function compares.
#![tactic(auto)]

#[cfg(test)]
mod compared;
#[cfg(test)]
mod of_calling;
#[cfg(test)]
mod of_strategy_checker;
#[cfg(test)]
mod of_strategy_compiler;
#[cfg(test)]
mod of_strategy_graph;
#[cfg(test)]
mod of_zone_checker;

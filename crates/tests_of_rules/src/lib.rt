//! Tests of what the rules of play are told by: boards, the shapes of rows, fouls and positions.
//!
//! A module `of_NAME` tries the crate NAME. It uses public calls alone, so it stands apart from that crate, which is
//! proved once: a crate with tests is proved a second time for them. Like cases are rows of a table, each call is made by a small
//! function that promises nothing, and one function compares.
#![tactic(auto)]

#[cfg(test)]
mod compared;
#[cfg(test)]
mod of_foul_judge;
#[cfg(test)]
mod of_row_shapes;
#[cfg(test)]
mod of_stone_board;
#[cfg(test)]
mod plain_fouls;
#[cfg(test)]
mod shape_codes;

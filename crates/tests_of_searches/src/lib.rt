//! Tests of the searches and of what they stand on: trees and tables of positions, line tables, moves that make fours, wins by
//! fours, wins along sequences of threats, wins by threats, and searches over positions and over line tables, which answer alike.
//!
//! A module `of_NAME` tries the crate NAME. It uses public calls alone, so it stands apart from that crate, which is proved once:
//! a crate with tests is proved a second time for them. Like cases are rows of a table, each call is made by a small function that
//! promises nothing, and one function compares.
#![tactic(auto)]

#[cfg(test)]
mod compared;
#[cfg(test)]
mod counting;
#[cfg(test)]
mod drill_positions;
#[cfg(test)]
mod full_compilers;
#[cfg(test)]
mod of_defence_finder;
#[cfg(test)]
mod of_four_search;
#[cfg(test)]
mod of_line_proof;
#[cfg(test)]
mod of_line_tables;
#[cfg(test)]
mod of_position_table;
#[cfg(test)]
mod of_proof_number;
#[cfg(test)]
mod of_proof_tree;
#[cfg(test)]
mod of_threat_moves;
#[cfg(test)]
mod remade;
#[cfg(test)]
mod views;

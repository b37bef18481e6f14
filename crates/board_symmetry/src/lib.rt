//! The eight symmetries of a board, and the images of boards, tables and roots under them.
//!
//! An image is made point by point: a stone, an attack or a reply goes where the symmetry takes its point. Since a symmetry takes
//! lines to lines, all that the rules say of a board they say of its image. The functions of `laws` prove it: outcomes,
//! fouls, wins and accepted tables stay what they are.
//!
//! The laws are proved of a turn: a map of the points of a board onto themselves, and back, with an axis for each axis and a way for
//! each way, so that the same steps lead from point to point on both. A flip of each axis and the exchange of x and y are turns, one
//! turn after another is one, and these make the eight. Stones, runs and shapes go over to their images one by one; fouls, outcomes
//! and wins by induction on the empty points; acceptance and arrivals by induction on the nodes of the table.
//!
//! `specs/Points.antt` has the eight, and what each does to a point and to a board; `specs/Images.antt` the images of tables and
//! roots; `specs/Laws.antt` the laws.
#![tactic(auto)]

mod boards;
mod laws;
mod symmetry;
mod tables;

pub use boards::image_board;
pub use laws::{
    images_compose, images_keep_moves, images_keep_positions, images_keep_tables, images_keep_wins,
    inverses_take_back,
};
pub use symmetry::Symmetry;
pub use tables::{image_root, image_table};

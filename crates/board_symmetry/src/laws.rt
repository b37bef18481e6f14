//! The laws of images, each as the contract of a function that computes nothing.
//!
//! What is known of a board and a table is known of all their images: a position is searched or checked once, and stands for
//! eight.
#![tactic(auto)]

ghost use Rattle.board_symmetry.specs.Laws.{ImagesKeepMoves, ImagesKeepPositions, ImagesKeepWins, ImagesKeepNodes, ImagesKeepStarts, ImagesKeepRoots, ImagesCompose, InversesTakeBack};

/// A move at the image of a point has, at the image of the board, the outcome that the move at the point has, and is the same
/// foul.
pub fn images_keep_moves()
    ensures moves { ImagesKeepMoves }
{}

/// The image of a board is a lawful position exactly where the board is one.
pub fn images_keep_positions()
    ensures positions { ImagesKeepPositions }
{}

/// The image of a board is won within so many moves, and by the other side after each move, exactly where the board is; and so
/// by fours and by threats.
pub fn images_keep_wins()
    ensures wins { ImagesKeepWins }
{}

/// A node of the image of a table has its depth, and at the image of a board it is accepted and has the arrivals, the answers and
/// the games of the node at the board. A start does so too, whose games are those after each reply, and so does a root of either
/// kind.
pub fn images_keep_tables()
    ensures nodes { ImagesKeepNodes }
    ensures starts { ImagesKeepStarts }
    ensures roots { ImagesKeepRoots }
{}

/// Two symmetries one after another are one of the eight.
pub fn images_compose()
    ensures composed { ImagesCompose }
{}

/// The inverse of a symmetry takes back what it did to a point, a board and a table.
pub fn inverses_take_back()
    ensures back { InversesTakeBack }
{}

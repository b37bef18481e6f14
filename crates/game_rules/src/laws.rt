//! The laws of play, each as the contract of a function that computes nothing.
//!
//! A move keeps a position lawful, the tests that compute say what the facts say, and the three kinds of wins are ordered: by
//! fours, by threats, by any moves.
#![tactic(auto)]

ghost use Rattle.game_rules.specs.Laws.{MovesContinue, TestsTell, FoursAreThreats, ThreatsWin, MoreMovesWin};

/// A move that goes on leads from a lawful position to one in which the other side is to move, and taking its stone back
/// gives the position before.
pub fn moves_continue()
    ensures continues { MovesContinue }
{}

/// The tests of won games, which compute, answer as the facts: that a move wins, or goes on and leaves a win after each
/// reply.
pub fn tests_tell()
    ensures tell { TestsTell }
{}

/// A win by fours is a win by threats, a win by threats is a win, and a win within some moves is one within more.
pub fn wins_are_ordered()
    ensures fours { FoursAreThreats }
    ensures threats { ThreatsWin }
    ensures more { MoreMovesWin }
{}

//! What a game that follows an accepted table comes to, as the contracts of functions that compute nothing.
#![tactic(auto)]

ghost use Rattle.game_referee.specs.Followers.{FollowerNeverLoses, GamesGoByRoot, GamesGoByTable};

/// A game that follows a table from an accepted node is never won by the defender and never drawn, its moves with odd numbers
/// are the front of the attacks of the table, and its verdict agrees with the end of the game against the table, case by case. From
/// a start the moves after the first one do so, by the node that answers it.
pub fn game_goes_by_table()
    ensures goes { GamesGoByTable }
    ensures from_root { GamesGoByRoot }
{}

/// Whichever side moves first, a game that follows a table from an accepted root is not lost by the side of the table, and is no
/// draw; a point that is no move is the other side's. So it is of each front of the moves, and where moves come after the end, of
/// the game that had ended.
pub fn follower_never_loses()
    ensures kept { FollowerNeverLoses }
{}

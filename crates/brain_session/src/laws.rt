//! The laws of games that are played by what is held, each as the contract of a function that computes nothing.
//!
//! They say what a reader of the headline asks: whoever holds an accepted table wins by it against all legal replies, within the
//! moves that the table has. Their proofs go by the moves that are left.

ghost use Rattle.brain_session.specs.HeldGames.{HeldGamesAreLed, HeldGamesGoWell, LegalRepliesAreAnswered, SessionsGoWell};
ghost use Rattle.brain_session.specs.HeldGames.{StartsAreTight, WhoeverHoldsWins};
ghost use Rattle.brain_session.specs.OwnGames.{OwnGamesGoWell, OwnRepliesAreAnswered};
ghost use Rattle.brain_session.specs.RootGames.{RootsBeginGames};
ghost use Rattle.brain_session.specs.Drawings.{SessionsAreDrawn};
ghost use Rattle.brain_session.specs.LineGames.{HeldLinesWin};
ghost use Rattle.brain_session.specs.TurnLines.{OwnRepliesAreAnsweredInBytes, RepliesAreAnsweredInBytes, TurnLinesAreRead};

/// Whatever a brain that holds accepted roots was told before, and whatever it is told later: where it begins to follow a
/// held root, its answers are the attacks of the table against the replies, one for one, and the game is won within the
/// depth of the node, or the replies have run out. A held root leads to that node, which is no deeper than the root.
pub fn held_games_go_well()
    ensures go_well { HeldGamesGoWell }
    ensures led { HeldGamesAreLed }
{}

/// The same of each line of a session over any bytes.
pub fn sessions_go_well()
    ensures go_well { SessionsGoWell }
{}

/// At the board of a start that is held, no move of the opponent wins or draws.
pub fn starts_are_tight()
    ensures tight { StartsAreTight }
{}

/// Whoever holds an accepted table and answers by it wins within the number of its root, whatever legal replies come, or
/// the replies have run out: from the root on where its side moves first, and after each move there that is no foul where
/// the opponent does.
pub fn whoever_holds_wins()
    ensures wins { WhoeverHoldsWins }
{}

/// Every list of legal replies that a brain is sent after the command with which a held game begins is answered by the
/// attacks of the table against them, one for one, and a foul that ends the game by the line that says so.
pub fn legal_replies_are_answered()
    ensures answered { LegalRepliesAreAnswered }
{}

/// Whatever a brain that holds accepted roots was told before: where it is to answer in a game that has come to a held root, and
/// follows nothing, its answer is the attack of the root's node, and a held game begins there.
pub fn roots_begin_games()
    ensures begin { RootsBeginGames }
{}

/// Whatever such a brain was told before, and whatever it is told later: where it begins to follow a win by fours that it found
/// itself, its answers are the attacks of the win's table against the replies, one for one, and the game is won within the
/// moves that it found, or the replies have run out. Every list of legal replies that it is sent then is answered by these attacks.
pub fn own_games_go_well()
    ensures go_well { OwnGamesGoWell }
    ensures answered { OwnRepliesAreAnswered }
{}

/// Points that are written as lines `TURN X,Y` behind whole lines are read as these turns: so what is said of replies is said of
/// the bytes that a manager sends.
pub fn turn_lines_are_read()
    ensures read { TurnLinesAreRead }
{}

/// Where the lines of legal replies are sent behind lines of which the last begins a held game, the bytes that the brain writes are
/// those of the answers before, and then the lines of the attacks of the table, byte for byte. So it is where the last line begins a
/// game by a win of the brain's own, with the attacks of this win.
pub fn replies_are_answered_in_bytes()
    ensures answered { RepliesAreAnsweredInBytes }
    ensures own { OwnRepliesAreAnsweredInBytes }
{}

/// Whatever a session was told before: after lines that set a board up, that send a position or that make moves, the board of the
/// brain has exactly the stones that a reader of the lines and of the answers to them has drawn.
pub fn sessions_are_drawn()
    ensures drawn { SessionsAreDrawn }
{}

/// Where a reader of the lines sees the position of a held root whose side moves first, under its rule and of none held before it,
/// sent by BOARD, or the empty board at BEGIN, and the brain answers by a move, each list of legal replies that is sent behind is
/// answered by the attacks of the table, byte for byte, and the game is won within the depth of the root, or the replies have run
/// out. Nothing is said so of a start, nor of a root that TURN leads to: `roots_begin_games` says of them when a game begins.
pub fn held_lines_win()
    ensures win { HeldLinesWin }
{}

//! What a cover shows, as the contracts of functions that compute nothing.
#![tactic(auto)]

ghost use Rattle.reply_cover.specs.Laws.{CoversAreExact, CoversWin};

/// Where a position is covered by parts that are won, the other side wins within the moves of the cover, whatever the side to move
/// plays first; and a move before it, where a side plays a move that goes on to the position, that side wins within one move more.
pub fn covers_win()
    ensures win { CoversWin }
{}

/// A position is told to be covered exactly where each reply is no move, a foul, or goes on to a board of which a part has an
/// image; and a reply that is told to be open is the first that is none of these.
pub fn covers_are_exact()
    ensures exact { CoversAreExact }
{}

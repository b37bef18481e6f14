//! The laws of defences, each as the contract of a function that computes nothing.
#![tactic(auto)]

ghost use Rattle.defence_finder.specs.Laws.{DefencesAreTold, SpentIsTold, NoDefenceLoses, BeatenRepliesWin, BeatenRepliesArePlanned};

/// The test of a defence, which computes, answers as the fact.
pub fn defences_are_told()
    ensures told { DefencesAreTold }
{}

/// There is a first move after which the budget does not suffice exactly where it does not after some move that goes on.
pub fn spent_is_told()
    ensures told { SpentIsTold }
{}

/// Where there is no defence, the other side wins within so many moves whatever is played first, and so does the start that is
/// made of the answers to the replies. These answers stand for the plans of the wins with the fewest moves after the replies, so that
/// there is one such start.
pub fn no_defence_loses()
    ensures loses { NoDefenceLoses }
    ensures wins { BeatenRepliesWin }
    ensures planned { BeatenRepliesArePlanned }
{}

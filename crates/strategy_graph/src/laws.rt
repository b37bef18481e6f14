//! The laws of tables, each as the contract of a function that computes nothing.
//!
//! What an accepted table promises is told here once, by the games against it; checker, brain and commands cite these.
#![tactic(auto)]

ghost use Rattle.strategy_graph.specs.Laws.{NodesGoByNode, AcceptedWins, AcceptedStartWins, GamesEndWell, GrowthKeeps, GrowthKeepsStart, FaultsRefute, FaultsRefuteStart};

/// Depth, acceptance and arrivals of a node go by those of the nodes that it names: the bound on the nodes that follow
/// one another, by which they are defined, plays no part.
pub fn nodes_go_by_node()
    ensures steps { NodesGoByNode }
{}

/// An accepted node wins within its depth: whatever the replies, the side to move wins with so many attacks.
pub fn accepted_wins()
    ensures wins { AcceptedWins }
{}

/// Where a start is accepted, the side that answers wins within its depth, whatever is played first.
pub fn accepted_start_wins()
    ensures wins { AcceptedStartWins }
{}

/// Whatever the replies, a game from an accepted node is won with at most as many attacks as the depth, or a reply is
/// no move, or fewer replies than the depth were given.
pub fn games_end_well()
    ensures ends { GamesEndWell }
{}

/// What a node says depends on the nodes up to it alone, so it says the same in each table that begins with this one.
pub fn growth_keeps()
    ensures same { GrowthKeeps }
{}

/// A start that names nodes of a table says the same with each table that begins with this one.
pub fn growth_keeps_start()
    ensures same { GrowthKeepsStart }
{}

/// A node from which a line leads to a fault is not accepted.
pub fn faults_refute()
    ensures refuted { FaultsRefute }
{}

/// A start from which a line leads to a fault is not accepted.
pub fn faults_refute_start()
    ensures refuted { FaultsRefuteStart }
{}

//! The laws of zones, each as the contract of a function that computes nothing.
#![tactic(auto)]

ghost use Rattle.relevance_zone.specs.Laws.{ZonesGoByNode, ZonesBear, ZonesAccept, ZonesWin};

/// Which zones a node has at a board goes by those of the nodes that it names: the bound on the nodes that follow one another, by
/// which they are defined, plays no part.
pub fn zones_go_by_node()
    ensures steps { ZonesGoByNode }
{}

/// Where the attacker has no fouls, a node that has a zone at a board is accepted at each lawful position with further stones of the
/// defender that the zone bears, where the attacker is to move. The board itself may be one after a pass.
pub fn zones_bear()
    ensures accepted { ZonesBear }
{}

/// What is accepted by a zone at a lawful position is accepted there, though most replies were never played.
pub fn zones_accept()
    ensures accepted { ZonesAccept }
{}

/// So it wins within its depth.
pub fn zones_win()
    ensures wins { ZonesWin }
{}

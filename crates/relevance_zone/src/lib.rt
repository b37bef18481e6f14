//! Relevance zones: which further stones of the defender can harm a win, and which replies have to be walked.
//!
//! Where a node of a table wins after a pass of the defender, most replies change nothing about it. Its zone says which may: it has
//! the points of all attacks behind the node, and for each window, five points in a row, how many further stones of the defender it
//! bears, so that the defender has no five before the attacker. The node is accepted at each position with further stones that the
//! zone bears. So of the replies to an attack only those that are listed are walked, and those that harm the zone which the rest has
//! after a pass: acceptance without a look at every reply, nor at every position.
//!
//! The idea is that of relevance-zone-oriented proof search (Wu and Lin, for Connect6, where the pass is a null move). A zone is
//! any that meets the definition, however it was found: the fewer points it has and the more it bears, the fewer replies harm it.
//! Where the attacker has fouls nothing is said: a further stone of White's may make a foul of a move that was none.
//!
//! `specs/Windows.antt` has windows, `specs/Zones.antt` what it is for a node to have a zone, `specs/Laws.antt` what follows.
#![tactic(auto)]

mod laws;

pub use laws::{zones_accept, zones_bear, zones_go_by_node, zones_win};

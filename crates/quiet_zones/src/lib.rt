//! Zones of the search for quiet moves: which replies may harm a win.
//!
//! The zone of a node at a board is a list of marks, one for each point (the relevance zones of Wu and Lin, for Connect6, where the pass
//! is a null move). A reply that does not harm it is answered by the node as a pass is. The zones are hints for a free search, and no
//! clause speaks of them: a table that is made by them is given to the checker.
//!
//! It keeps `REMEMBERED` zones of a node at a board, and `MOST_MARKS` marks with those of one question more.
#![tactic(auto)]

mod frames;
mod marks;
mod walk;
mod zones;

pub use zones::Zones;

/// So many zones are remembered at most.
const REMEMBERED: u32 = 65_536;

/// So many marks of zones are kept at most before all are forgotten.
const MOST_MARKS: usize = 16_777_216;

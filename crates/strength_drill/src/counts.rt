//! What the drill counts.
//!
//! The counts of a part are added to those of the rest: so what is counted doesn't depend on the order of the games.
#![tactic(auto)]

ghost use Rattle.std.specs.Prelude.{◌≡◌, ◌+◌, ◌<◌};
ghost use Rattle.strength_drill.specs.Counts.{together, AreWithin};

/// The counts of a drill, or of a part of it.
#[derive(Clone, Copy, Debug, PartialEq, Eq)]
pub struct Counts {
    /// The searches that found a win.
    pub wins: u32,
    /// Those that found that there is none.
    pub none: u32,
    /// Those that had more positions than the budget.
    pub spent: u32,
    /// The tables that were accepted.
    pub accepted: u32,
    /// The games that were won.
    pub games: u32,
    /// The moves of the brain in all games.
    pub moves: u32,
}

impl Counts {
    /// Nothing is counted.
    pub(crate) const NONE: Counts = Counts {
        wins: 0,
        none: 0,
        spent: 0,
        accepted: 0,
        games: 0,
        moves: 0,
    };

    /// Adds the counts of one position to these, which are of so many.
    pub(crate) fn add(&mut self, other: Counts, positions: u32)
        requires few { positions < 1_000 }
        requires these { AreWithin positions self.old }
        requires others { AreWithin 1 other }
        ensures together { self.new ≡ together self.old other }
        ensures within { AreWithin (positions + 1) self.new }
    {
        self.wins += other.wins;
        self.none += other.none;
        self.spent += other.spent;
        self.accepted += other.accepted;
        self.games += other.games;
        self.moves += other.moves;
    }
}

//! A position as the searches use it.
//!
//! All that a search asks of a position stands here. So a position that is kept in another way, and knows more of itself
//! beforehand, can take the place of the plain one.
#![tactic(auto)]

ghost use Rattle.std.specs.Prelude.{◌≡◌, false, IsTrue};
ghost use Rattle.game_rules.specs.Grid.{Grid, is_empty, holds, lift as lift_lem};
ghost use Rattle.game_rules.specs.Shapes.{five as five_lem};
ghost use Rattle.game_rules.specs.Games.{five_points as five_points_lem, has_five as has_five_lem};
ghost use Rattle.game_rules.specs.Play.{IsPosition, IsUnwon, outcome as outcome_lem, mover as mover_lem, after, other};
ghost use Rattle.row_shapes.specs.FivePoints.{in_short};

use game_rules::Outcome;
use row_shapes::{FivePoints, Rule};
use stone_board::{Board, Point, Side};

/// A lawful position under a rule, however it is kept. Its meaning is the board of the position. No call takes memory: none is
/// given an allocator, or can tell that memory ran out.
pub trait Seen<R: Rule> {
    ghost position: { Self → Grid };

    /// The side to move.
    fn side(&self) -> Side
        ensures side { result ≡ mover_lem (position self.now) }
        ensures lawful { IsPosition R.KIND (position self.now) };

    /// The board of the position.
    fn board(&self) -> &Board
        ensures board { result.now ≡ position self.now };

    /// The outcome of a move of the side to move at any point. The position is as before.
    fn outcome(&mut self, p: Point) -> Outcome
        ensures outcome { result ≡ outcome_lem R.KIND (position self.old) p }
        ensures same { position self.new ≡ position self.old }
        ensures lawful { IsPosition R.KIND (position self.old) };

    /// Plays a move that goes on.
    fn play(&mut self, p: Point)
        requires goes_on { outcome_lem R.KIND (position self.old) p ≡ Outcome.GoesOn }
        ensures played { position self.new ≡ after (position self.old) p }
        ensures lawful { IsPosition R.KIND (position self.old) }
        ensures goes_on { IsPosition R.KIND (position self.new) };

    /// Takes back a stone of the side that is not to move, where no winning run is left without it.
    fn undo(&mut self, p: Point)
        requires stone { IsTrue (holds (position self.old) (other (mover_lem (position self.old))) p) }
        requires unwon { IsUnwon R.KIND (lift_lem (position self.old) p) }
        ensures undone { position self.new ≡ lift_lem (position self.old) p }
        ensures lawful { IsPosition R.KIND (position self.new) };

    /// Whether an empty point is a five point of the side.
    fn five(&self, side: Side, p: Point) -> bool
        requires empty { IsTrue (is_empty (position self.now) p) }
        ensures five { result ≡ five_lem R.KIND (position self.now) side p };

    /// Whether the side has a five point.
    fn has_five(&self, side: Side) -> bool
        ensures five { result ≡ has_five_lem R.KIND (position self.now) side };

    /// The five points of the side in short.
    fn fives_in_short(&self, side: Side) -> FivePoints
        ensures fives { result ≡ in_short (five_points_lem R.KIND (position self.now) side) };

    /// The five points that the side to move has after its stone on an empty point, where it has none before it.
    fn fives_made(&self, p: Point) -> FivePoints
        requires empty { IsTrue (is_empty (position self.now) p) }
        requires none { has_five_lem R.KIND (position self.now) (mover_lem (position self.now)) ≡ false }
        ensures made { result ≡ in_short (five_points_lem R.KIND (after (position self.now) p) (mover_lem (position self.now))) };
}

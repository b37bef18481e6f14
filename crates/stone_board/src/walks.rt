//! How far a walk along an axis stays on the board: it is known at its start, so that a walk does not ask for the border at
//! each step.
#![tactic(auto)]

ghost use Rattle.std.specs.Prelude.{◌≡◌, ◌<◌};
ghost use Rattle.stone_board.specs.Walks.{steps_left as steps_left_lem};

use game_rules::{Axis, Point, Way};

/// How many steps from a point of a board of this width and height stay on it, in one way along the axis.
#[inline(always)]
pub fn steps_left(way: Way, axis: Axis, width: u8, height: u8, p: Point) -> u8
    requires column { p.x < width }
    requires row { p.y < height }
    ensures steps { result ≡ steps_left_lem way axis width height p }
{
    let right = width - 1 - p.x;
    let below = height - 1 - p.y;
    match way {
        Way::Ahead => match axis {
            Axis::Row => right,
            Axis::Column => below,
            Axis::Down => right.min(below),
            Axis::Up => right.min(p.y),
        },
        Way::Behind => match axis {
            Axis::Row => p.x,
            Axis::Column => p.y,
            Axis::Down => p.x.min(p.y),
            Axis::Up => p.x.min(below),
        },
    }
}

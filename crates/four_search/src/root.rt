//! The first position of a search.
//!
//! It alone is scanned, point by point. What is found there is the same for each number of moves, so it is kept from one depth
//! to the next.
#![tactic(auto)]

ghost use Rattle.std.specs.Prelude.{◌≡◌, false, IfOk};
ghost use Rattle.game_rules.specs.Play.{mover, other};
ghost use Rattle.game_rules.specs.Games.{has_five};
ghost use Rattle.four_search.specs.Roots.{TellsRoot};

use crate::four_points::{FourPoint, all_four_points};
use foul_judge::Seen;
use row_shapes::Rule;
use std::alloc::{AllocError, Global};
use threat_moves::FivePoints;

/// What is seen at the first position.
#[derive(Drop)]
pub(crate) enum Root {
    /// The attacker has a five point.
    Five,
    /// It has none. These are the defender's in short, and the points that make one for the attacker.
    NoFive {
        threat: FivePoints,
        four_points: Vec<FourPoint>,
    },
}

/// Looks at the first position. `Err` says that memory ran out.
pub(crate) fn look<R: Rule, V: Seen<R>>(alloc: Global, view: &V) -> Result<Root, AllocError>
    ensures root { IfOk result (λ root. TellsRoot R.KIND (V.position view.now) root) }
{
    let attacker = view.side();
    if view.has_five(attacker) {
        return Ok(Root::Five);
    }
    let threat = view.fives_in_short(attacker.other());
    let four_points = all_four_points::<R, V>(alloc, view)?;
    Ok(Root::NoFive {
        threat,
        four_points,
    })
}

/// The same where neither side has a five point.
pub(crate) fn look_without_fives<R: Rule, V: Seen<R>>(
    alloc: Global,
    view: &V,
) -> Result<Root, AllocError>
    requires none { has_five R.KIND (V.position view.now) (mover (V.position view.now)) ≡ false }
    requires safe { has_five R.KIND (V.position view.now) (other (mover (V.position view.now))) ≡ false }
    ensures root { IfOk result (TellsRoot R.KIND (V.position view.now)) }
{
    let four_points = all_four_points::<R, V>(alloc, view)?;
    Ok(Root::NoFive {
        threat: FivePoints::None,
        four_points,
    })
}

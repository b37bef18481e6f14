//! Which gains of a list of threats are needed, and its least final point.
//!
//! A gain is needed where a later threat, or the final point, would be none without its stone (Allis, van den Herik and Huntjens).
//! A list with a gain that nothing needs could be told shorter, and is no sequence.
#![tactic(auto)]

ghost use Rattle.std.specs.Prelude.{◌≡◌, true, false, IfOk, IfSome};
ghost use Rattle.game_rules.specs.Games.{has_five as has_five_lem};
ghost use Rattle.threat_space.specs.Sequences.{played_all, is_final_point as is_final_point_lem, threat_depends as threat_depends_lem, final_depends as final_depends_lem, is_needed as is_needed_lem, all_needed as all_needed_lem, final_of as final_of_lem};
ghost use Rattle.threat_space.specs.Lines.{HasPairsAfter};
ghost use Rattle.threat_space.specs.Barren.{HasLastGain, IsNearAfter, CannotEnd, HasNoFinal};

use crate::boards::{play, without};
use crate::pairs::{has_point, pair_points};
use row_shapes::{Rule, is_five_point};
use std::alloc::AllocError;
use stone_board::{Board, Point, Side};
use threat_moves::{Threat, is_double_point, is_new_double_point, is_threat};

/// What is known of the board after a list of threats, and so of the final points of the list.
#[derive(Drop)]
struct Ends<'a> {
    /// Whether the side has a five point there.
    some_five: bool,
    /// A gain, if there is one, with which a final point has to be on a line if it is not one of `far`.
    last_gain: Option<Point>,
    /// The pairs that are on no line with it.
    far: &'a [Point],
}

/// The final points of a list of threats.
#[derive(Drop)]
pub(crate) struct Finals {
    /// The least with which the list is a sequence, if there is one.
    pub(crate) least: Option<Point>,
    /// True only where no list that leads to the same board and ends with the same gain has one.
    pub(crate) barren: bool,
}

/// The final points of the list of threats. The threats lead from the first board to the second, which is as before. Where the side
/// has fouls, `far` are the pairs that are on no line with the last gain.
pub(crate) fn finals_of<R: Rule>(
    start: &Board,
    board: &mut Board,
    side: Side,
    threats: &[Threat],
    far: &[Point],
) -> Result<Finals, AllocError>
    requires played { board.old ≡ played_all start.now side threats.now }
    requires far { HasPairsAfter R.KIND board.old side threats.now far.now }
    ensures least { IfOk result (λ found. found.least ≡ final_of_lem R.KIND side start.now threats.now) }
    ensures barren { IfOk result (λ found. found.barren ≡ true → HasNoFinal R.KIND side board.old threats.now) }
    ensures same { board.new ≡ board.old }
{
    let may_make = pair_points::<R>(board, side);
    let ends = Ends {
        some_five: may_make.some_five,
        last_gain: last_gain::<R>(board, side, threats, may_make.some_five, far),
        far,
    };
    let mut barren = true;
    for p in may_make.points.points(board) {
        if can_end::<R>(board, side, p, &ends) {
            barren = false;
            if all_needed::<R>(start, side, threats, p)? {
                return Ok(Finals {
                    least: Some(p),
                    barren,
                });
            }
        }
    }
    Ok(Finals {
        least: None,
        barren,
    })
}

/// The last gain, if a final point has to be on a line with it or to be one of `far`: that is so where the side, as is told, has no
/// five point. The threats lead from some board to this one.
fn last_gain<R: Rule>(
    board: &Board,
    side: Side,
    threats: &[Threat],
    some_five: bool,
    far: &[Point],
) -> Option<Point>
    requires five { some_five ≡ has_five_lem R.KIND board.now side }
    requires far { HasPairsAfter R.KIND board.now side threats.now far.now }
    ensures last { IfSome result (HasLastGain threats.now) }
    ensures near { IfSome result (λ g. IsNearAfter R.KIND side board.now g far.now) }
{
    let count = threats.len();
    if some_five || count == 0 {
        return None;
    }
    let gain = threats[count - 1].gain;
    if board.is_empty(gain) {
        return None;
    }
    Some(gain)
}

/// Whether a list of threats that leads to this board, and ends as is told, may have this final point. The board is as before.
fn can_end<R: Rule>(board: &mut Board, side: Side, p: Point, ends: &Ends) -> bool
    requires five { ends.now.some_five ≡ has_five_lem R.KIND board.old side }
    requires near { IfSome ends.now.last_gain (λ g. IsNearAfter R.KIND side board.old g ends.now.far.now) }
    ensures ends { result ≡ true → is_final_point_lem R.KIND board.old side p ≡ true }
    ensures none { result ≡ false → CannotEnd R.KIND side board.old ends.now.last_gain p }
    ensures same { board.new ≡ board.old }
{
    if let Some(gain) = ends.last_gain {
        if !gain.is_aligned(p) && !has_point(ends.far, p) {
            return false;
        }
    }
    is_final_point::<R>(board, side, p, ends.some_five)
}

/// Whether the point is a final point of the side, of which it is told whether it has a five point. The board is as before.
#[tactic(auto, unfolding(crate::specs::Sequences::is_final_point))]
fn is_final_point<R: Rule>(board: &mut Board, side: Side, p: Point, some_five: bool) -> bool
    requires five { some_five ≡ has_five_lem R.KIND board.old side }
    ensures least { result ≡ is_final_point_lem R.KIND board.old side p }
    ensures same { board.new ≡ board.old }
{
    if !some_five {
        return is_new_double_point::<R>(board, side, p);
    }
    is_any_final_point::<R>(board, side, p)
}

/// Whether the point is a five point or a double point of the side. The board is as before.
#[tactic(auto, unfolding(crate::specs::Sequences::is_final_point))]
fn is_any_final_point<R: Rule>(board: &mut Board, side: Side, p: Point) -> bool
    ensures least { result ≡ is_final_point_lem R.KIND board.old side p }
    ensures same { board.new ≡ board.old }
{
    is_five_point::<R>(board, side, p) || is_double_point::<R>(board, side, p)
}

/// Whether each gain of these threats, which follow one another from the board, is one that a later threat or the final
/// point depends on.
fn all_needed<R: Rule>(
    board: &Board,
    side: Side,
    threats: &[Threat],
    last: Point,
) -> Result<bool, AllocError>
    ensures needed { IfOk result (λ needed. needed ≡ all_needed_lem R.KIND side last board.now threats.now) }
{
    let mut here = board.copy()?;
    gains_needed::<R>(&mut here, side, threats, last)
}

/// The same on a board on which the threats are played.
fn gains_needed<R: Rule>(
    here: &mut Board,
    side: Side,
    threats: &[Threat],
    last: Point,
) -> Result<bool, AllocError>
    ensures needed { IfOk result (λ needed. needed ≡ all_needed_lem R.KIND side last here.old threats.now) }
{
    for (i, threat) in threats.iter().enumerate() {
        play(here, side, threat);
        if !is_needed::<R>(here, side, threat.gain, &threats[i + 1..], last)? {
            return Ok(false);
        }
    }
    Ok(true)
}

/// Whether one of these threats, which follow one another from the board, or the final point after them depends on the gain.
fn is_needed<R: Rule>(
    board: &Board,
    side: Side,
    gain: Point,
    threats: &[Threat],
    last: Point,
) -> Result<bool, AllocError>
    ensures needed { IfOk result (λ needed. needed ≡ is_needed_lem R.KIND side last board.now gain threats.now) }
{
    let mut here = board.copy()?;
    some_depends::<R>(&mut here, side, gain, threats, last)
}

/// The same on a board on which the threats are played.
fn some_depends<R: Rule>(
    here: &mut Board,
    side: Side,
    gain: Point,
    threats: &[Threat],
    last: Point,
) -> Result<bool, AllocError>
    ensures needed { IfOk result (λ needed. needed ≡ is_needed_lem R.KIND side last here.old gain threats.now) }
{
    for threat in threats {
        if threat_depends::<R>(here, side, gain, threat)? {
            return Ok(true);
        }
        play(here, side, threat);
    }
    final_depends::<R>(here, side, gain, last)
}

/// Whether the threat is none without the stone on the gain.
#[tactic(auto, unfolding(crate::specs::Sequences::threat_depends))]
fn threat_depends<R: Rule>(
    board: &Board,
    side: Side,
    gain: Point,
    threat: &Threat,
) -> Result<bool, AllocError>
    ensures depends { IfOk result (λ depends. depends ≡ threat_depends_lem R.KIND board.now side gain threat.now) }
{
    let mut other = without(board, gain)?;
    Ok(!is_threat::<R>(&mut other, side, threat.gain, threat.axis, threat.kind))
}

/// Whether the final point is none without the stone on the gain.
#[tactic(auto, unfolding(crate::specs::Sequences::final_depends))]
fn final_depends<R: Rule>(
    board: &Board,
    side: Side,
    gain: Point,
    last: Point,
) -> Result<bool, AllocError>
    ensures depends { IfOk result (λ depends. depends ≡ final_depends_lem R.KIND board.now side gain last) }
{
    let mut other = without(board, gain)?;
    Ok(!is_any_final_point::<R>(&mut other, side, last))
}

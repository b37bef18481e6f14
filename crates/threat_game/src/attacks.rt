//! The moves of the attacker.
//!
//! A move of the game of threats goes on and leaves its side a five point or a double point. A double point that stands already
//! wins at once where the other side has no five point. Else each move of the game is tried; where the other side has a five
//! point, the one move that may help is to take it, and no other is looked at. A move that leaves a five point lies in an open window
//! with three stones; where no point makes two five points yet, one that leaves a double point lies in a window with two, and only the
//! points of such windows are looked at.
#![tactic(auto)]

ghost use Rattle.std.specs.Prelude.{◌≡◌, ◌<◌, ◌&&◌, not, true, false, All, IfOk, IfSome, IfNone, IsTrue};
ghost use Rattle.std.specs.List.{list_any};
ghost use Rattle.game_rules.specs.Grid.{Grid, is_empty};
ghost use Rattle.game_rules.specs.Shapes.{is_same_point};
ghost use Rattle.game_rules.specs.Play.{IsPosition, outcome as outcome_lem, mover, other, after, goes_on as goes_on_lem};
ghost use Rattle.game_rules.specs.Games.{has_five as has_five_lem, five_points as five_points_lem, has_threat};
ghost use Rattle.row_shapes.specs.FivePoints.{in_short};
ghost use Rattle.open_windows.specs.PointSets.{has_point, TellsWindows};
ghost use Rattle.threat_game.specs.ThreatGame.{is_threat_move as is_threat_move_lem};
ghost use Rattle.threat_game.specs.FreeMoves.{EachGoesOn};
ghost use Rattle.threat_game.specs.NearDoubles.{is_some_point as is_some_point_lem, makes_two as makes_two_lem};
ghost use Rattle.threat_game.specs.NearDoubles.{points_of_two};
ghost use Rattle.threat_game.specs.Attacks.{AreAttacks, AreCandidates, IsAttempt, IsDoubleTold, IsDoubleWin, has_standing_double};
ghost use Rattle.threat_game.specs.Attacks.{best_reply as best_reply_lem};

use crate::doubles::{DoublePoint, double_at};
use crate::near_doubles::leaves_double;
use crate::near_stones::near_stones;
use crate::quiet_points::is_quiet;
use foul_judge::{Outcome, Seen};
use open_windows::{PointSet, window_points};
use row_shapes::{FivePoints, Rule, takes};
use std::alloc::{AllocError, Global};
use stone_board::{Board, MAX_SIDE, Point, Points};
use threat_moves::{is_four_move, is_three_move};

/// What the moves of the attacker come to, where it has no five point and two moves or more.
#[derive(Drop)]
pub enum Attacks {
    /// This double point goes on, and the other side has no five point.
    DoublePoint(DoublePoint),
    /// After this move each reply fouls.
    NoReply(Point),
    /// The moves to be tried, in reading order: after each the other side has no five point, and a reply that goes on. To each
    /// other move of the game of threats a reply wins or fills the board.
    Moves(Points),
}

/// What is to be done with a move.
#[derive(Clone, Copy)]
enum Attempt {
    /// It has to be tried.
    Tried,
    /// Each reply to it fouls.
    EachReplyFouls,
    /// It need not be tried.
    Passed,
}

/// What the moves of a side come to.
#[derive(Clone, Copy, Debug, PartialEq, Eq)]
pub enum BestReply {
    /// One goes on.
    GoesOn,
    /// None goes on, and one wins or fills the board.
    Saves,
    /// Each fouls.
    Fouls,
}

/// The moves of the attacker. Where the other side has no five point and a double point goes on, one is told. The view is as before,
/// also where memory ran out, and so is the board, a copy of its own.
pub fn find_attacks<R: Rule, V: Seen<R>>(
    alloc: Global,
    view: &mut V,
    board: &mut Board,
) -> Result<Attacks, AllocError>
    requires none { has_five_lem R.KIND (V.position view.old) (mover (V.position view.old)) ≡ false }
    requires copy { board.old ≡ V.position view.old }
    ensures attacks { IfOk result (λ a. AreAttacks R.KIND (V.position view.old) a) }
    ensures standing { has_five_lem R.KIND (V.position view.old) (other (mover (V.position view.old))) ≡ false
        → has_standing_double R.KIND (V.position view.old) ≡ true → IfOk result IsDoubleTold }
    ensures same { V.position view.new ≡ V.position view.old }
    ensures same_board { board.new ≡ board.old }
{
    let attacker = view.side();
    let threat = view.fives_in_short(attacker.other());
    let windows = window_points(view.board(), attacker, 3);
    let twos = all_twos::<R, V>(alloc, view, &windows)?;
    if let FivePoints::None = threat {
        match find_double::<R, V>(alloc, view, board, twos.as_slice())? {
            Some(double) => Ok(Attacks::DoublePoint(double)),
            None => find_moves::<R, V>(alloc, view, board, threat, twos.as_slice(), &windows),
        }
    } else {
        find_moves::<R, V>(alloc, view, board, threat, twos.as_slice(), &windows)
    }
}

/// A double point that goes on, if one of these points does, which make two. Neither side has a five point.
fn find_double<R: Rule, V: Seen<R>>(
    alloc: Global,
    view: &mut V,
    board: &mut Board,
    twos: &[Point],
) -> Result<Option<DoublePoint>, AllocError>
    requires none { has_five_lem R.KIND (V.position view.old) (mover (V.position view.old)) ≡ false }
    requires safe { has_five_lem R.KIND (V.position view.old) (other (mover (V.position view.old))) ≡ false }
    requires copy { board.old ≡ V.position view.old }
    requires twos { All (λ p. makes_two_lem R.KIND (V.position view.old) (mover (V.position view.old)) p ≡ true) twos.now }
    ensures double { IfOk result (λ found. IfSome found (IsDoubleWin R.KIND (V.position view.old))) }
    ensures none { IfOk result (λ found. IfNone found (list_any (λ p. goes_on_lem (outcome_lem R.KIND (V.position view.old) p)) twos.now
        ≡ false)) }
    ensures same { V.position view.new ≡ V.position view.old }
    ensures same_board { board.new ≡ board.old }
{
    for p in twos {
        if let Outcome::GoesOn = view.outcome(*p) {
            let side = view.side();
            return double_at::<R>(alloc, board, side, *p);
        }
    }
    Ok(None)
}

/// The points where a stone of the side to move leaves it two five points or more, in reading order. It has none, and these are its
/// windows with three stones.
pub(crate) fn all_twos<R: Rule, V: Seen<R>>(
    alloc: Global,
    view: &V,
    windows: &PointSet,
) -> Result<Points, AllocError>
    requires windows { TellsWindows (V.position view.now) (mover (V.position view.now)) 3 windows.now }
    requires none { has_five_lem R.KIND (V.position view.now) (mover (V.position view.now)) ≡ false }
    ensures twos { IfOk result (λ twos. twos ≡ points_of_two R.KIND (V.position view.now) (mover (V.position view.now))) }
{
    let mut twos = Points::new(alloc);
    for p in windows.points(view.board()) {
        if makes_two::<R, V>(view, p) {
            twos.push(p)?;
        }
    }
    Ok(twos)
}

/// Whether the point is empty and a stone of the side to move, which has no five point, leaves it two there or more.
fn makes_two<R: Rule, V: Seen<R>>(view: &V, p: Point) -> bool
    requires none { has_five_lem R.KIND (V.position view.now) (mover (V.position view.now)) ≡ false }
    ensures two { result ≡ makes_two_lem R.KIND (V.position view.now) (mover (V.position view.now)) p }
{
    if !view.board().is_empty(p) {
        return false;
    }
    view.fives_made(p).is_several()
}

/// The five points that the side to move has after its stone on an empty point, where it has none before it: none but in these
/// windows.
pub(crate) fn fives_by<R: Rule, V: Seen<R>>(view: &V, windows: &PointSet, p: Point) -> FivePoints
    requires empty { IsTrue (is_empty (V.position view.now) p) }
    requires none { has_five_lem R.KIND (V.position view.now) (mover (V.position view.now)) ≡ false }
    requires windows { TellsWindows (V.position view.now) (mover (V.position view.now)) 3 windows.now }
    ensures made { result ≡ in_short (five_points_lem R.KIND (after (V.position view.now) p) (mover (V.position view.now))) }
{
    if !windows.has(p) {
        return FivePoints::None;
    }
    view.fives_made(p)
}

/// Whether there is a five point.
pub(crate) fn is_some_point(fives: FivePoints) -> bool
    ensures some { result ≡ is_some_point_lem fives }
{
    !matches!(fives, FivePoints::None)
}

/// The set of this point alone.
pub(crate) fn the_point(p: Point) -> PointSet
    requires column { p.x < MAX_SIDE }
    requires row { p.y < MAX_SIDE }
    ensures point { (q : Point) → has_point result q ≡ is_same_point q p }
{
    let mut points = PointSet::empty();
    points.add(p);
    points
}

/// The moves to be tried, or one to which each reply fouls. The other side has these five points, and the side to move these windows.
fn find_moves<R: Rule, V: Seen<R>>(
    alloc: Global,
    view: &mut V,
    board: &mut Board,
    threat: FivePoints,
    twos: &[Point],
    windows: &PointSet,
) -> Result<Attacks, AllocError>
    requires windows { TellsWindows (V.position view.old) (mover (V.position view.old)) 3 windows.now }
    requires twos { twos.now ≡ points_of_two R.KIND (V.position view.old) (mover (V.position view.old)) }
    requires none { has_five_lem R.KIND (V.position view.old) (mover (V.position view.old)) ≡ false }
    requires lawful { IsPosition R.KIND (V.position view.old) }
    requires copy { board.old ≡ V.position view.old }
    requires told { threat ≡ in_short (five_points_lem R.KIND (V.position view.old) (other (mover (V.position view.old)))) }
    ensures attacks { IfOk result (λ a. AreAttacks R.KIND (V.position view.old) a) }
    ensures same { V.position view.new ≡ V.position view.old }
    ensures same_board { board.new ≡ board.old }
{
    let candidates = candidate_points::<R, V>(view, threat, twos);
    let mut moves = Points::new(alloc);
    for p in candidates.points(view.board()) {
        match judge_move::<R, V>(view, board, threat, twos, windows, p) {
            Attempt::Tried => moves.push(p)?,
            Attempt::EachReplyFouls => return Ok(Attacks::NoReply(p)),
            Attempt::Passed => {}
        }
    }
    Ok(Attacks::Moves(moves))
}

/// Points among which each move is that has to be tried, and each to which each reply fouls: one that takes the five points of the other
/// side; where there is none and no point makes two five points, one in an open window with two stones; else any.
fn candidate_points<R: Rule, V: Seen<R>>(view: &V, threat: FivePoints, twos: &[Point]) -> PointSet
    requires twos { twos.now ≡ points_of_two R.KIND (V.position view.now) (mover (V.position view.now)) }
    requires none { has_five_lem R.KIND (V.position view.now) (mover (V.position view.now)) ≡ false }
    requires lawful { IsPosition R.KIND (V.position view.now) }
    requires told { threat ≡ in_short (five_points_lem R.KIND (V.position view.now) (other (mover (V.position view.now)))) }
    ensures others { AreCandidates R.KIND (V.position view.now) result }
{
    match threat {
        FivePoints::Several => PointSet::empty(),
        FivePoints::One(only) => the_point(only),
        FivePoints::None => {
            if twos.is_empty() {
                window_points(view.board(), view.side(), 2)
            } else {
                PointSet::all()
            }
        }
    }
}

/// What is to be done with the move.
fn judge_move<R: Rule, V: Seen<R>>(
    view: &mut V,
    board: &mut Board,
    threat: FivePoints,
    twos: &[Point],
    windows: &PointSet,
    p: Point,
) -> Attempt
    requires twos { twos.now ≡ points_of_two R.KIND (V.position view.old) (mover (V.position view.old)) }
    requires windows { TellsWindows (V.position view.old) (mover (V.position view.old)) 3 windows.now }
    requires none { has_five_lem R.KIND (V.position view.old) (mover (V.position view.old)) ≡ false }
    requires lawful { IsPosition R.KIND (V.position view.old) }
    requires copy { board.old ≡ V.position view.old }
    requires told { threat ≡ in_short (five_points_lem R.KIND (V.position view.old) (other (mover (V.position view.old)))) }
    ensures attempt { IsAttempt R.KIND (V.position view.old) p result }
    ensures same { V.position view.new ≡ V.position view.old }
    ensures same_board { board.new ≡ board.old }
{
    if !takes(threat, p) {
        return Attempt::Passed;
    }
    if !is_new_threat::<R, V>(view, board, twos, windows, p) {
        return Attempt::Passed;
    }
    match best_reply_to::<R, V>(view, p) {
        BestReply::GoesOn => Attempt::Tried,
        BestReply::Saves => Attempt::Passed,
        BestReply::Fouls => Attempt::EachReplyFouls,
    }
}

/// Whether the move goes on.
pub fn goes_on<R: Rule, V: Seen<R>>(view: &mut V, p: Point) -> bool
    ensures on { result ≡ goes_on_lem (outcome_lem R.KIND (V.position view.old) p) }
    ensures lawful { IsPosition R.KIND (V.position view.old) }
    ensures same { V.position view.new ≡ V.position view.old }
{
    if is_quiet_move::<R, V>(view, p) {
        return true;
    }
    matches!(view.outcome(p), Outcome::GoesOn)
}

/// Whether the move goes on, as far as is told without the judge: the point is quiet for a side that has fouls, and another is empty.
fn is_quiet_move<R: Rule, V: Seen<R>>(view: &V, p: Point) -> bool
    ensures on { IsTrue result → outcome_lem R.KIND (V.position view.now) p ≡ Outcome.GoesOn }
    ensures lawful { IsPosition R.KIND (V.position view.now) }
{
    if !R::has_fouls(view.side()) {
        return false;
    }
    let board = view.board();
    board.empties() >= 2 && is_quiet(board, p)
}

/// Whether each move of the side to move on an empty point goes on, as far as is told at once: it has no five point, and where it
/// has no fouls and two points or more are empty, each does.
pub fn each_goes_on<R: Rule, V: Seen<R>>(view: &V) -> bool
    requires none { has_five_lem R.KIND (V.position view.now) (mover (V.position view.now)) ≡ false }
    ensures each { IsTrue result → EachGoesOn R.KIND (V.position view.now) }
{
    !R::has_fouls(view.side()) && view.board().empties() >= 2
}

/// Whether the move goes on, where it may be told that each on an empty point does.
pub fn goes_on_where<R: Rule, V: Seen<R>>(view: &mut V, each: bool, p: Point) -> bool
    requires each { IsTrue each → EachGoesOn R.KIND (V.position view.old) }
    ensures on { result ≡ goes_on_lem (outcome_lem R.KIND (V.position view.old) p) }
    ensures same { V.position view.new ≡ V.position view.old }
{
    if each {
        view.board().is_empty(p)
    } else {
        goes_on::<R, V>(view, p)
    }
}

/// Whether the move goes on and leaves its side a five point or a double point.
pub fn is_threat_move<R: Rule, V: Seen<R>>(view: &mut V, board: &mut Board, p: Point) -> bool
    requires copy { board.old ≡ V.position view.old }
    ensures threat { result ≡ is_threat_move_lem R.KIND (V.position view.old) p }
    ensures same { V.position view.new ≡ V.position view.old }
    ensures same_board { board.new ≡ board.old }
{
    if is_four_move::<R, V>(view, p) {
        return true;
    }
    is_three_move::<R, V>(view, board, p)
}

/// The same where the side has no five point, these points make two, and these are its open windows with three stones.
fn is_new_threat<R: Rule, V: Seen<R>>(
    view: &mut V,
    board: &mut Board,
    twos: &[Point],
    windows: &PointSet,
    p: Point,
) -> bool
    requires twos { twos.now ≡ points_of_two R.KIND (V.position view.old) (mover (V.position view.old)) }
    requires windows { TellsWindows (V.position view.old) (mover (V.position view.old)) 3 windows.now }
    requires none { has_five_lem R.KIND (V.position view.old) (mover (V.position view.old)) ≡ false }
    requires copy { board.old ≡ V.position view.old }
    ensures threat { result ≡ is_threat_move_lem R.KIND (V.position view.old) p }
    ensures same { V.position view.new ≡ V.position view.old }
    ensures same_board { board.new ≡ board.old }
{
    if !view.board().is_empty(p) {
        return false;
    }
    if !leaves_threat::<R, V>(view, board, twos, windows, p) {
        return false;
    }
    goes_on::<R, V>(view, p)
}

/// Whether a stone of the side to move on an empty point leaves it a five point or a double point. It has no five point before.
fn leaves_threat<R: Rule, V: Seen<R>>(
    view: &V,
    board: &mut Board,
    twos: &[Point],
    windows: &PointSet,
    p: Point,
) -> bool
    requires empty { IsTrue (is_empty (V.position view.now) p) }
    requires twos { twos.now ≡ points_of_two R.KIND (V.position view.now) (mover (V.position view.now)) }
    requires windows { TellsWindows (V.position view.now) (mover (V.position view.now)) 3 windows.now }
    requires none { has_five_lem R.KIND (V.position view.now) (mover (V.position view.now)) ≡ false }
    requires copy { board.old ≡ V.position view.now }
    ensures threat { result ≡ has_threat R.KIND (after (V.position view.now) p) (mover (V.position view.now)) }
    ensures same_board { board.new ≡ board.old }
{
    if is_some_point(fives_by::<R, V>(view, windows, p)) {
        return true;
    }
    let side = view.side();
    let near = near_stones(board, side, p);
    leaves_double::<R>(board, side, twos, windows, near, p)
}

/// What the replies to a move that goes on come to.
pub fn best_reply_to<R: Rule, V: Seen<R>>(view: &mut V, p: Point) -> BestReply
    requires on { outcome_lem R.KIND (V.position view.old) p ≡ Outcome.GoesOn }
    ensures best { result ≡ best_reply_lem R.KIND (after (V.position view.old) p) }
    ensures same { V.position view.new ≡ V.position view.old }
{
    view.play(p);
    let best = best_reply::<R, V>(view);
    view.undo(p);
    best
}

/// What the moves of the side to move come to.
fn best_reply<R: Rule, V: Seen<R>>(view: &mut V) -> BestReply
    ensures best { result ≡ best_reply_lem R.KIND (V.position view.old) }
    ensures same { V.position view.new ≡ V.position view.old }
{
    let mut saved = false;
    for q in view.board().points() {
        match view.outcome(q) {
            Outcome::GoesOn => return BestReply::GoesOn,
            Outcome::Wins | Outcome::Draws => saved = true,
            Outcome::Refused | Outcome::Fouls(_) => {}
        }
    }
    if saved {
        BestReply::Saves
    } else {
        BestReply::Fouls
    }
}

//! The replies to a move of the attacker.
//!
//! All replies that go on are taken. Most are settled at once: one that leaves the attacker a five point, or a double point
//! while the other side has no five point. The five points and the double points before the reply tell of those after it. Where
//! the attacker has one or two moves left it is seen at once whether a reply escapes.
//!
//! A win after one reply mostly wins after others too, since it plays on the same points. So one reply stands for all of them,
//! and only the others beside it are children. From it on only the points are asked at which another reply may not be met by its win: by a
//! five point, this point alone; by a double point, its points, and those of the windows in which the defender may make a five point.
#![tactic(auto)]

ghost use Rattle.std.specs.Prelude.{◌≡◌, ◌<◌, ◌≤◌, ◌+◌, ℕ, true, false, All, length, IfOk, IfSome, IfNone, IsTrue, is_none, IsErrOf, OnOk, Some, slice_get, [], ◌∷◌, ◌++◌, not};
ghost use Rattle.std.specs.List.{find, sum_by};
ghost use Rattle.game_rules.specs.Grid.{Grid, is_empty};
ghost use Rattle.game_rules.specs.Shapes.{is_same_point};
ghost use Rattle.game_rules.specs.Play.{IsPosition, outcome as outcome_lem, mover, other, after, goes_on as goes_on_lem};
ghost use Rattle.game_rules.specs.Games.{WinsByThreats, has_five as has_five_lem, five_points as five_points_lem};
ghost use Rattle.open_windows.specs.PointSets.{TellsWindows};
ghost use Rattle.strategy_graph.specs.declared.TheConstants.{MAX_NODES};
ghost use Rattle.strategy_compiler.specs.Growth.{GrowsBy};
ghost use Rattle.threat_game.specs.FreeMoves.{EachGoesOn};
ghost use Rattle.threat_game.specs.Attacks.{has_reply, is_last_move, IsKept, IsStillKept};
ghost use Rattle.threat_game.specs.Replies.{AreKept, AreReplies, AreStopped, AreJudgedInPart, HasEscape, IfEscape, IsChild, IsJudged, IsJudgement, IsBeside, is_beside as is_beside_lem, moves_for, is_open as is_open_lem, is_standing as is_standing_lem, is_same_double as is_same_double_lem, stands_for as stands_for_lem, is_met as is_met_lem, IsMetAt, StandsBy, TellsUnmet, first_with as first_with_lem, put_first, kept_children, counted_for, nodes_for};
ghost use Rattle.threat_game.specs.Wins.{IsThreatWin};

use crate::attacks::{each_goes_on, fives_by, goes_on_where, is_some_point, the_point};
use crate::doubles::{
    DoublePoint, Kept, answers_to_win, compile_double, compile_standing, first_doubles,
};
use crate::escapes::fails_after;
use crate::last_moves::last_move;
use crate::written::{compile_five, compile_last};
use foul_judge::{Outcome, Seen};
use open_windows::{PointSet, five_points, window_points};
use row_shapes::Rule;
use std::alloc::{AllocError, Global};
use stone_board::{Board, Point, Points, Side};
use strategy_compiler::{Compiler, SearchError, WrittenWin};

/// What is known at once of a position of the attacker.
#[derive(Clone, Copy, Debug, PartialEq, Eq)]
pub enum Judged {
    /// This is a five point of the attacker.
    Five(Point),
    /// After this double point each reply that goes on leaves a five point. So many nodes answer them.
    DoublePoint(DoublePoint, u64),
    /// After this move each reply fouls.
    Last(Point),
    /// Nothing.
    Open,
}

/// What is known of a point as a reply.
#[derive(Clone, Copy)]
enum Judgement {
    /// It does not go on.
    NoReply,
    /// After it there is no win within the moves left.
    Escape,
    /// This is known of the position after it.
    Known(Judged),
}

/// A reply, and what is known of the position after it.
#[derive(Clone, Copy, Debug, PartialEq, Eq)]
pub struct Child {
    pub at: Point,
    pub judged: Judged,
}

/// The replies to an attack that get a node, and how many positions of the attacker are counted for them. Where a win after the
/// first of them wins after other replies too, these get none.
#[derive(Drop)]
pub struct Children {
    pub all: Vec<Child>,
    pub count: u64,
}

impl Children {
    /// Adds the child after one more reply.
    fn add(&mut self, at: Point, judged: Judged) -> Result<(), AllocError>
        requires few { counted_for judged ≤ 3 }
        requires room { self.old.count ≤ 3100 }
        ensures all { OnOk result (self.new.all.items ≡ self.old.all.items ++ (record { at = at; judged = judged }) ∷ []) }
        ensures count { OnOk result (self.new.count ≡ self.old.count + counted_for judged) }
    {
        self.all.push(Child { at, judged })?;
        self.count += counted(judged);
        Ok(())
    }
}

/// The replies of the side to move, which has no five point but a move that goes on, where the attacker has so many more moves,
/// at least 1; or `None` where after one of them there is no win, which is seen with one or two moves alone. The view is as before,
/// also where memory ran out, and so is the board, a copy of its own.
pub fn judge_replies<R: Rule, V: Seen<R>>(
    alloc: Global,
    view: &mut V,
    board: &mut Board,
    moves: u32,
) -> Result<Option<Children>, AllocError>
    requires some_moves { 1 ≤ moves }
    requires no_five { has_five_lem R.KIND (V.position view.old) (mover (V.position view.old)) ≡ false }
    requires reply { has_reply R.KIND (V.position view.old) ≡ true }
    requires copy { board.old ≡ V.position view.old }
    ensures replies { IfOk result (λ found. AreReplies R.KIND moves (V.position view.old) found) }
    ensures early { IfOk result (λ found. IfNone found (moves ≤ 2)) }
    ensures same { V.position view.new ≡ V.position view.old }
    ensures same_board { board.new ≡ board.old }
{
    let attacker = view.side().other();
    let fives = five_points::<R>(alloc, view.board(), attacker)?;
    let doubles = doubles_for::<R>(alloc, board, attacker, fives.len())?;
    match each_reply::<R, V>(alloc, view, board, moves, &fives, doubles.as_slice())? {
        None => Ok(None),
        Some(judged) => Ok(Some(children_of(alloc, judged.as_slice())?)),
    }
}

/// The children of a node after whose replies this is judged: the first whose win may stand after others, and each after which
/// it does not.
fn children_of(alloc: Global, judged: &[Child]) -> Result<Children, AllocError>
    requires each { All (λ child. counted_for child.judged ≤ 3) judged.now }
    requires short { length judged.now ≤ 1024 }
    ensures all { IfOk result (λ children. children.all.items ≡ kept_children judged.now) }
    ensures count { IfOk result (λ children. children.count ≡ sum_by (λ child. counted_for child.judged) (kept_children judged.now)) }
{
    let first = first_standing(judged);
    let mut children = begun(alloc, first)?;
    for child in judged {
        if !is_met(first, child.judged) {
            children.add(child.at, child.judged)?;
        }
    }
    Ok(children)
}

/// This child alone, or none.
fn begun(alloc: Global, first: Option<Child>) -> Result<Children, AllocError>
    requires few { IfSome first (λ child. counted_for child.judged ≤ 3) }
    ensures all { IfOk result (λ children. children.all.items ≡ put_first first []) }
    ensures count { IfOk result (λ children. children.count ≡ sum_by (λ child. counted_for child.judged) (put_first first [])) }
    ensures few { IfOk result (λ children. children.count ≤ 3) }
{
    let mut children = Children {
        all: Vec::new(alloc),
        count: 0,
    };
    if let Some(child) = first {
        children.add(child.at, child.judged)?;
    }
    Ok(children)
}

/// The first child whose win may stand after other replies.
fn first_standing(judged: &[Child]) -> Option<Child>
    ensures first { result ≡ find (λ child. is_standing_lem child.judged) judged.now }
{
    for child in judged {
        if is_standing(child.judged) {
            return Some(*child);
        }
    }
    None
}

/// Whether a win that is judged so may stand after other replies.
fn is_standing(judged: Judged) -> bool
    ensures standing { result ≡ is_standing_lem judged }
{
    match judged {
        Judged::Five(_) => true,
        Judged::DoublePoint(_, nodes) => nodes == 2,
        Judged::Last(_) | Judged::Open => false,
    }
}

/// Whether the win after this reply, if there is one, wins where this is judged.
fn is_met(first: Option<Child>, judged: Judged) -> bool
    ensures met { result ≡ is_met_lem first judged }
{
    match first {
        Some(child) => stands_for(child.judged, judged),
        None => false,
    }
}

/// Whether the win that is compiled for what is judged first wins where the other is judged.
fn stands_for(first: Judged, judged: Judged) -> bool
    ensures stands { result ≡ stands_for_lem first judged }
{
    match (first, judged) {
        (Judged::Five(w), Judged::Five(v)) => w.is(v),
        (Judged::DoublePoint(d, nodes), Judged::DoublePoint(e, _)) => nodes == 2
            && is_same_double(d, e),
        _ => false,
    }
}

/// Whether the two double points and their five points are the same.
fn is_same_double(d: DoublePoint, e: DoublePoint) -> bool
    ensures same { result ≡ is_same_double_lem d e }
{
    d.at.is(e.at) && d.first.is(e.first) && d.second.is(e.second)
}

/// Double points of the side, if it has no five point. It has so many.
fn doubles_for<R: Rule>(
    alloc: Global,
    board: &mut Board,
    side: Side,
    fives: usize,
) -> Result<Vec<Kept>, AllocError>
    requires fives { fives ≡ length (five_points_lem R.KIND board.old side) }
    ensures kept { IfOk result (λ found. AreKept R.KIND board.old side found.items) }
    ensures same { board.new ≡ board.old }
{
    if fives == 0 {
        return first_doubles::<R>(alloc, board, side);
    }
    Ok(Vec::new(alloc))
}

/// What is known before the replies.
#[derive(Clone, Copy)]
struct BeforeReplies<'a> {
    /// Whether it is known that each move on an empty point goes on.
    free: bool,
    /// The five points of the attacker.
    fives: &'a Points,
    /// Some of its double points.
    doubles: &'a [Kept],
    /// The windows of the defender with three stones.
    windows: &'a PointSet,
}

/// What is judged of the replies, where the attacker has these five points and these double points before them: of each but some after
/// which the win after the first wins too.
fn each_reply<R: Rule, V: Seen<R>>(
    alloc: Global,
    view: &mut V,
    board: &mut Board,
    moves: u32,
    fives: &Points,
    doubles: &[Kept],
) -> Result<Option<Vec<Child>>, AllocError>
    requires lawful { IsPosition R.KIND (V.position view.old) }
    requires some_moves { 1 ≤ moves }
    requires no_five { has_five_lem R.KIND (V.position view.old) (mover (V.position view.old)) ≡ false }
    requires reply { has_reply R.KIND (V.position view.old) ≡ true }
    requires copy { board.old ≡ V.position view.old }
    requires fives { fives.now ≡ five_points_lem R.KIND (V.position view.old) (other (mover (V.position view.old))) }
    requires doubles { AreKept R.KIND (V.position view.old) (other (mover (V.position view.old))) doubles.now }
    ensures escape { IfOk result (λ found. IfNone found (HasEscape R.KIND moves (V.position view.old))) }
    ensures early { IfOk result (λ found. IfNone found (moves ≤ 2)) }
    ensures judged { IfOk result (λ found. IfSome found (λ part. AreJudgedInPart R.KIND moves (V.position view.old) part.items)) }
    ensures same { V.position view.new ≡ V.position view.old }
    ensures same_board { board.new ≡ board.old }
{
    let windows = window_points(view.board(), view.side(), 3);
    let known = BeforeReplies {
        free: each_goes_on::<R, V>(view),
        fives,
        doubles,
        windows: &windows,
    };
    let mut part = Vec::new(alloc);
    let mut first = None;
    let mut standing = None;
    let mut points = PointSet::all().points(view.board());
    while let Some(q) = points.next() {
        if !is_met_at::<R, V>(view, known, first, standing, q) {
            match judge::<R, V>(alloc, view, board, known, q, moves)? {
                Judgement::NoReply => {}
                Judgement::Escape => return Ok(None),
                Judgement::Known(judged) => {
                    let child = Child { at: q, judged };
                    part.push(child)?;
                    first = first_with(first, child);
                    standing = standing_double::<R, V>(view, doubles, first);
                    points.keep(&unmet_points::<R, V>(view, known, first, standing));
                }
            }
        }
    }
    Ok(Some(part))
}

/// The first child whose win may stand after other replies, where this is the first of those before, and one more is judged.
fn first_with(first: Option<Child>, child: Child) -> Option<Child>
    ensures first { result ≡ first_with_lem first child }
{
    if first.is_none() && is_standing(child.judged) {
        return Some(child);
    }
    first
}

/// Whether the point is no reply, or the win after this first reply is known to win after it too. Where it stands by a double point, this
/// is it.
fn is_met_at<R: Rule, V: Seen<R>>(
    view: &V,
    known: BeforeReplies,
    first: Option<Child>,
    standing: Option<DoublePoint>,
    q: Point,
) -> bool
    requires lawful { IsPosition R.KIND (V.position view.now) }
    requires no_five { has_five_lem R.KIND (V.position view.now) (mover (V.position view.now)) ≡ false }
    requires fives { known.fives.now ≡ five_points_lem R.KIND (V.position view.now) (other (mover (V.position view.now))) }
    requires windows { TellsWindows (V.position view.now) (mover (V.position view.now)) 3 known.windows.now }
    requires stands { IfSome standing (StandsBy R.KIND (V.position view.now) first) }
    ensures met { IsTrue result → outcome_lem R.KIND (V.position view.now) q ≡ Outcome.GoesOn
        → IsMetAt R.KIND (V.position view.now) first q }
{
    if !view.board().is_empty(q) {
        return true;
    }
    match five_beside(known.fives, q) {
        Some(five) => is_met(first, Judged::Five(five)),
        None => {
            let Some(double) = standing else {
                return false;
            };
            is_beside(double, q) && !makes_five::<R, V>(view, known.windows, q)
        }
    }
}

/// The double point by which the win after this first reply is known to stand, if there is one: the first of these, where it stays no
/// foul. It wins after each reply beside it that leaves neither side a five point.
fn standing_double<R: Rule, V: Seen<R>>(
    view: &V,
    doubles: &[Kept],
    first: Option<Child>,
) -> Option<DoublePoint>
    requires lawful { IsPosition R.KIND (V.position view.now) }
    requires doubles { All (IsKept R.KIND (V.position view.now) (other (mover (V.position view.now)))) doubles.now }
    ensures stands { IfSome result (StandsBy R.KIND (V.position view.now) first) }
{
    let [kept, ..] = doubles else {
        return None;
    };
    if !kept.sure {
        return None;
    }
    if view.board().empties() < 3 {
        return None;
    }
    if !is_met(first, Judged::DoublePoint(kept.double, 2)) {
        return None;
    }
    Some(kept.double)
}

/// The points at which the win after this first reply is not known to win after another reply: where it is by the first of the five points,
/// that alone, and where it stands by this double point, the windows of the defender and the double point's own.
fn unmet_points<R: Rule, V: Seen<R>>(
    view: &V,
    known: BeforeReplies,
    first: Option<Child>,
    standing: Option<DoublePoint>,
) -> PointSet
    requires lawful { IsPosition R.KIND (V.position view.now) }
    requires no_five { has_five_lem R.KIND (V.position view.now) (mover (V.position view.now)) ≡ false }
    requires fives { known.fives.now ≡ five_points_lem R.KIND (V.position view.now) (other (mover (V.position view.now))) }
    requires windows { TellsWindows (V.position view.now) (mover (V.position view.now)) 3 known.windows.now }
    requires stands { IfSome standing (StandsBy R.KIND (V.position view.now) first) }
    ensures unmet { TellsUnmet R.KIND (V.position view.now) first result }
{
    match known.fives.as_slice() {
        [five, ..] => unmet_by_five::<R, V>(view, first, *five),
        [] => match standing {
            Some(double) => unmet_by_double::<R, V>(view, known.windows, first, double),
            None => PointSet::all(),
        },
    }
}

/// The same where this is the first five point of the attacker.
fn unmet_by_five<R: Rule, V: Seen<R>>(view: &V, first: Option<Child>, five: Point) -> PointSet
    requires lawful { IsPosition R.KIND (V.position view.now) }
    requires five { slice_get (five_points_lem R.KIND (V.position view.now) (other (mover (V.position view.now)))) 0 ≡ Some five }
    ensures unmet { TellsUnmet R.KIND (V.position view.now) first result }
{
    if !is_met(first, Judged::Five(five)) {
        return PointSet::all();
    }
    the_point(five)
}

/// The same where the attacker has no five point, and the win stands by this double point.
fn unmet_by_double<R: Rule, V: Seen<R>>(
    view: &V,
    windows: &PointSet,
    first: Option<Child>,
    double: DoublePoint,
) -> PointSet
    requires lawful { IsPosition R.KIND (V.position view.now) }
    requires no_five { has_five_lem R.KIND (V.position view.now) (mover (V.position view.now)) ≡ false }
    requires safe { has_five_lem R.KIND (V.position view.now) (other (mover (V.position view.now))) ≡ false }
    requires windows { TellsWindows (V.position view.now) (mover (V.position view.now)) 3 windows.now }
    requires stands { StandsBy R.KIND (V.position view.now) first double }
    ensures unmet { TellsUnmet R.KIND (V.position view.now) first result }
{
    let mut points = *windows;
    points.add(double.at);
    points.add(double.first);
    points.add(double.second);
    points
}

/// How many positions of the attacker are counted for one that is judged so.
fn counted(judged: Judged) -> u64
    requires few { counted_for judged ≤ 3 }
    ensures counted { result ≡ counted_for judged }
{
    match judged {
        Judged::DoublePoint(_, nodes) => 1 + nodes,
        Judged::Five(_) | Judged::Last(_) | Judged::Open => 1,
    }
}

/// What is judged of the point `q` as a reply, where this is known before it.
fn judge<R: Rule, V: Seen<R>>(
    alloc: Global,
    view: &mut V,
    board: &mut Board,
    known: BeforeReplies,
    q: Point,
    moves: u32,
) -> Result<Judgement, AllocError>
    requires lawful { IsPosition R.KIND (V.position view.old) }
    requires each { IsTrue known.free → EachGoesOn R.KIND (V.position view.old) }
    requires some_moves { 1 ≤ moves }
    requires no_five { has_five_lem R.KIND (V.position view.old) (mover (V.position view.old)) ≡ false }
    requires copy { board.old ≡ V.position view.old }
    requires fives { known.fives.now ≡ five_points_lem R.KIND (V.position view.old) (other (mover (V.position view.old))) }
    requires doubles { AreKept R.KIND (V.position view.old) (other (mover (V.position view.old))) known.doubles.now }
    requires windows { TellsWindows (V.position view.old) (mover (V.position view.old)) 3 known.windows.now }
    ensures judgement { IfOk result (IsJudgement R.KIND moves (V.position view.old) q) }
    ensures early { IfOk result (λ judgement. IfEscape judgement (moves ≤ 2)) }
    ensures same { V.position view.new ≡ V.position view.old }
    ensures same_board { board.new ≡ board.old }
{
    if !goes_on_where::<R, V>(view, known.free, q) {
        return Ok(Judgement::NoReply);
    }
    match five_beside(known.fives, q) {
        Some(five) => Ok(Judgement::Known(Judged::Five(five))),
        None => judge_quiet::<R, V>(alloc, view, board, known, q, moves),
    }
}

/// The same of a reply that goes on and leaves the attacker no five point.
fn judge_quiet<R: Rule, V: Seen<R>>(
    alloc: Global,
    view: &mut V,
    board: &mut Board,
    known: BeforeReplies,
    q: Point,
    moves: u32,
) -> Result<Judgement, AllocError>
    requires some_moves { 1 ≤ moves }
    requires no_five { has_five_lem R.KIND (V.position view.old) (mover (V.position view.old)) ≡ false }
    requires on { outcome_lem R.KIND (V.position view.old) q ≡ Outcome.GoesOn }
    requires none { has_five_lem R.KIND (after (V.position view.old) q) (mover (after (V.position view.old) q)) ≡ false }
    requires copy { board.old ≡ V.position view.old }
    requires doubles { AreKept R.KIND (V.position view.old) (other (mover (V.position view.old))) known.doubles.now }
    requires windows { TellsWindows (V.position view.old) (mover (V.position view.old)) 3 known.windows.now }
    ensures judgement { IfOk result (IsJudgement R.KIND moves (V.position view.old) q) }
    ensures early { IfOk result (λ judgement. IfEscape judgement (moves ≤ 2)) }
    ensures same { V.position view.new ≡ V.position view.old }
    ensures same_board { board.new ≡ board.old }
{
    if moves == 1 {
        return Ok(match last_after::<R, V>(view, board, q) {
            Some(p) => Judgement::Known(Judged::Last(p)),
            None => Judgement::Escape,
        });
    }
    let judged = judge_double::<R, V>(view, q, known.doubles, known.windows);
    if moves == 2 && is_open(judged) && fails_after::<R, V>(alloc, view, board, q)? {
        return Ok(Judgement::Escape);
    }
    Ok(Judgement::Known(judged))
}

/// Whether nothing is known.
fn is_open(judged: Judged) -> bool
    ensures open { result ≡ is_open_lem judged }
{
    matches!(judged, Judged::Open)
}

/// The first of the five points that is not `q`.
pub fn five_beside(fives: &Points, q: Point) -> Option<Point>
    ensures beside { result ≡ find (λ w. not (is_same_point w q)) fives.now }
{
    for five in fives.as_slice() {
        if !five.is(q) {
            return Some(*five);
        }
    }
    None
}

/// A last move after the reply `q`, which goes on, if there is one. The attacker has no five point after it.
pub fn last_after<R: Rule, V: Seen<R>>(view: &mut V, board: &mut Board, q: Point) -> Option<Point>
    requires on { outcome_lem R.KIND (V.position view.old) q ≡ Outcome.GoesOn }
    requires none { has_five_lem R.KIND (after (V.position view.old) q) (mover (after (V.position view.old) q)) ≡ false }
    requires copy { board.old ≡ V.position view.old }
    ensures last { IfSome result (λ p. is_last_move R.KIND (after (V.position view.old) q) p ≡ true) }
    ensures no_win { IfNone result (¬ WinsByThreats R.KIND 1 (after (V.position view.old) q)) }
    ensures same { V.position view.new ≡ V.position view.old }
    ensures same_board { board.new ≡ board.old }
{
    let defender = view.side();
    view.play(q);
    board.put(q, defender);
    let found = last_move::<R, V>(view, board);
    board.lift(q);
    view.undo(q);
    found
}

/// What is known after the reply `q`, which goes on, where the attacker has two more moves or more and no five point after it.
fn judge_double<R: Rule, V: Seen<R>>(
    view: &mut V,
    q: Point,
    doubles: &[Kept],
    windows: &PointSet,
) -> Judged
    requires no_five { has_five_lem R.KIND (V.position view.old) (mover (V.position view.old)) ≡ false }
    requires on { outcome_lem R.KIND (V.position view.old) q ≡ Outcome.GoesOn }
    requires none { has_five_lem R.KIND (after (V.position view.old) q) (mover (after (V.position view.old) q)) ≡ false }
    requires doubles { All (IsKept R.KIND (V.position view.old) (other (mover (V.position view.old)))) doubles.now }
    requires windows { TellsWindows (V.position view.old) (mover (V.position view.old)) 3 windows.now }
    ensures judged { IsJudged R.KIND (after (V.position view.old) q) result }
    ensures enough { moves_for result ≤ 2 }
    ensures stops { is_open_lem result ≡ true → has_five_lem R.KIND (after (V.position view.old) q) (mover (V.position view.old)) ≡ false
        → AreStopped R.KIND (after (V.position view.old) q) q doubles.now }
    ensures same { V.position view.new ≡ V.position view.old }
{
    if doubles.is_empty() {
        return Judged::Open;
    }
    if makes_five::<R, V>(view, windows, q) {
        return Judged::Open;
    }
    view.play(q);
    let found = still_double::<R, V>(view, q, doubles);
    view.undo(q);
    found
}

/// Whether a stone of the side to move on an empty point leaves it a five point, where it has none before it. It does not but in these
/// windows.
fn makes_five<R: Rule, V: Seen<R>>(view: &V, windows: &PointSet, q: Point) -> bool
    requires empty { IsTrue (is_empty (V.position view.now) q) }
    requires no_five { has_five_lem R.KIND (V.position view.now) (mover (V.position view.now)) ≡ false }
    requires windows { TellsWindows (V.position view.now) (mover (V.position view.now)) 3 windows.now }
    ensures five { result ≡ has_five_lem R.KIND (after (V.position view.now) q) (mover (V.position view.now)) }
{
    is_some_point(fives_by::<R, V>(view, windows, q))
}

/// The first of the double points that wins still after the reply `q`, if one does, where the attacker is to move.
fn still_double<R: Rule, V: Seen<R>>(view: &mut V, q: Point, doubles: &[Kept]) -> Judged
    requires none { has_five_lem R.KIND (V.position view.old) (mover (V.position view.old)) ≡ false }
    requires safe { has_five_lem R.KIND (V.position view.old) (other (mover (V.position view.old))) ≡ false }
    requires doubles { All (λ kept. IsBeside kept.double q → IsStillKept R.KIND (V.position view.old) kept) doubles.now }
    ensures judged { IsJudged R.KIND (V.position view.old) result }
    ensures enough { moves_for result ≤ 2 }
    ensures stops { is_open_lem result ≡ true → AreStopped R.KIND (V.position view.old) q doubles.now }
    ensures same { V.position view.new ≡ V.position view.old }
{
    for kept in doubles {
        if is_beside(kept.double, q) && still_goes_on::<R, V>(view, *kept) {
            let nodes = answers_to_win::<R, V>(view, kept.double);
            return Judged::DoublePoint(kept.double, nodes);
        }
    }
    Judged::Open
}

/// Whether the double point still goes on. It leaves two five points, and the attacker, which is to move, has none.
fn still_goes_on<R: Rule, V: Seen<R>>(view: &mut V, kept: Kept) -> bool
    requires none { has_five_lem R.KIND (V.position view.old) (mover (V.position view.old)) ≡ false }
    requires kept { IsStillKept R.KIND (V.position view.old) kept }
    ensures on { result ≡ goes_on_lem (outcome_lem R.KIND (V.position view.old) kept.double.at) }
    ensures same { V.position view.new ≡ V.position view.old }
{
    if kept.sure && view.board().empties() >= 2 {
        return true;
    }
    matches!(view.outcome(kept.double.at), Outcome::GoesOn)
}

/// Whether a stone of the other side on `q` leaves the double point and its two five points empty.
fn is_beside(double: DoublePoint, q: Point) -> bool
    ensures beside { result ≡ is_beside_lem double q }
{
    !double.at.is(q) && !double.first.is(q) && !double.second.is(q)
}

/// Compiles the win after the reply of a child, unless it is open. The view is as before; the nodes of the compiler stay, those
/// added before a refusal too.
pub fn settle_child<R: Rule, V: Seen<R>>(
    alloc: Global,
    view: &mut V,
    child: Child,
    compiler: &mut Compiler,
) -> Result<Option<WrittenWin>, SearchError>
    requires on { outcome_lem R.KIND (V.position view.old) child.at ≡ Outcome.GoesOn }
    requires judged { IsJudged R.KIND (after (V.position view.old) child.at) child.judged }
    ensures win { IfOk result (λ found. IfSome found (λ win. (moves : ℕ) → moves_for child.judged ≤ moves
        → IsThreatWin R.KIND moves (after (V.position view.old) child.at) compiler.new win)) }
    ensures stands { IfOk result (λ found. IfSome found (λ win. (moves : ℕ) (met : Child)
        → stands_for_lem child.judged met.judged ≡ true → IsChild R.KIND moves (V.position view.old) met
        → IsThreatWin R.KIND moves (after (V.position view.old) met.at) compiler.new win)) }
    ensures open { IfOk result (λ found. is_none found ≡ is_open_lem child.judged) }
    ensures grows { GrowsBy compiler.old compiler.new (nodes_for child.judged) }
    ensures full { IsErrOf result SearchError.Full → MAX_NODES < length compiler.old + nodes_for child.judged }
    ensures full_now { IsErrOf result SearchError.Full → length compiler.new ≡ MAX_NODES }
    ensures same { V.position view.new ≡ V.position view.old }
{
    // This tells that the position is lawful.
    view.side();
    match child.judged {
        Judged::Open => Ok(None),
        Judged::Five(five) => Ok(Some(compile_five(compiler, five)?)),
        Judged::Last(attack) => Ok(Some(compile_last(compiler, attack)?)),
        Judged::DoublePoint(double, nodes) => {
            if nodes == 2 {
                let win = compile_standing(alloc, double, compiler)?;
                return Ok(Some(win));
            }
            view.play(child.at);
            let found = compile_double::<R, V>(alloc, view, double, compiler);
            view.undo(child.at);
            Ok(Some(found?))
        }
    }
}

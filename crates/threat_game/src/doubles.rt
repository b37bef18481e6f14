//! Wins by a double point: two moves, where the other side has no five point.
//!
//! After a stone on it there are two five points, so each reply leaves one. The first is played, and the second where the
//! reply took the first.
#![tactic(auto)]

ghost use Rattle.std.specs.Prelude.{◌≡◌, ◌≤◌, ◌+◌, ◌∷◌, [], ◌&&◌, not, ℕ, false, take, length, slice_get, Some, IfOk, IfSome, IfNone, IsTrue};
ghost use Rattle.game_rules.specs.Grid.{Grid, is_empty, put};
ghost use Rattle.game_rules.specs.Shapes.{is_same_point};
ghost use Rattle.game_rules.specs.Play.{IsPosition, outcome as outcome_lem, mover, after, goes_on as goes_on_lem};
ghost use Rattle.game_rules.specs.declared.Outcome.{Outcome};
ghost use Rattle.game_rules.specs.Games.{five_points, has_five as has_five_lem, is_double_point};
ghost use Rattle.strategy_graph.specs.Tables.{IsNode};
ghost use Rattle.strategy_compiler.specs.Growth.{Writes};
ghost use Rattle.threat_game.specs.Attacks.{LeavesBoth, IsDoubleWin};
ghost use Rattle.threat_game.specs.NearDoubles.{makes_two};
ghost use Rattle.threat_game.specs.Replies.{answer_nodes, has_reply_at, has_reply_beside, replies_at, AreKept, IsKeptAt, standing_node as standing_node_lem};
ghost use Rattle.threat_game.specs.Wins.{IsThreatWin};

use crate::attacks::{each_goes_on, goes_on, goes_on_where};
use foul_judge::Seen;
use game_rules::RuleKind;
use open_windows::{five_points, window_points};
use row_shapes::Rule;
use std::alloc::{AllocError, Global};
use stone_board::{Board, Point, Side};
use strategy_compiler::{Compiler, SearchError, WrittenWin};
use strategy_graph::{Node, Replies, Reply, Rest};
use threat_moves::{is_new_double_point, stays_free};

/// So many double points are kept at most to settle replies by.
const MOST_KEPT: usize = 4;

/// A double point, and two five points after a stone on it.
#[derive(Clone, Copy, Debug, PartialEq, Eq)]
pub struct DoublePoint {
    pub at: Point,
    pub first: Point,
    pub second: Point,
}

/// The double point at an empty point whose stone leaves two five points or more, with the first two of them: there is none only where
/// it doesn't. The board is as before.
pub fn double_at<R: Rule>(
    alloc: Global,
    board: &mut Board,
    side: Side,
    at: Point,
) -> Result<Option<DoublePoint>, AllocError>
    requires empty { IsTrue (is_empty board.old at) }
    ensures both { IfOk result (λ found. IfSome found (LeavesBoth R.KIND board.old side)) }
    ensures here { IfOk result (λ found. IfSome found (λ d. d.at ≡ at)) }
    ensures fives { IfOk result (λ found. IfSome found (λ d. take 2 (five_points R.KIND (put board.old side at) side)
        ≡ d.first ∷ d.second ∷ [])) }
    ensures told { IfOk result (λ found. IfNone found (makes_two R.KIND board.old side at ≡ false)) }
    ensures same { board.new ≡ board.old }
{
    board.put(at, side);
    let points = five_points::<R>(alloc, board, side);
    board.lift(at);
    match points?.as_slice() {
        [first, second, ..] => Ok(Some(DoublePoint {
            at,
            first: *first,
            second: *second,
        })),
        _ => Ok(None),
    }
}

/// A double point that is kept to settle replies by.
#[derive(Clone, Copy)]
pub(crate) struct Kept {
    pub(crate) double: DoublePoint,
    /// It stays no foul wherever the other side puts a stone.
    pub(crate) sure: bool,
}

/// The first double points of the side, which has no five point: each lies in an open window with three stones. The board is as before.
pub(crate) fn first_doubles<R: Rule>(
    alloc: Global,
    board: &mut Board,
    side: Side,
) -> Result<Vec<Kept>, AllocError>
    requires none { has_five_lem R.KIND board.old side ≡ false }
    ensures kept { IfOk result (λ found. AreKept R.KIND board.old side found.items) }
    ensures same { board.new ≡ board.old }
{
    let windows = window_points(board, side, 3);
    let mut found = Vec::new(alloc);
    for p in windows.points(board) {
        if found.len() >= MOST_KEPT {
            return Ok(found);
        }
        if let Some(kept) = kept_at::<R>(alloc, board, side, p)? {
            found.push(kept)?;
        }
    }
    Ok(found)
}

/// The point as a double point of the side, which has no five point, if it is one. The board is as before.
fn kept_at<R: Rule>(
    alloc: Global,
    board: &mut Board,
    side: Side,
    p: Point,
) -> Result<Option<Kept>, AllocError>
    requires none { has_five_lem R.KIND board.old side ≡ false }
    ensures kept { IfOk result (λ found. IfSome found (IsKeptAt R.KIND board.old side p)) }
    ensures other { IfOk result (λ found. IfNone found (is_double_point R.KIND board.old side p ≡ false)) }
    ensures same { board.new ≡ board.old }
{
    if !is_new_double_point::<R>(board, side, p) {
        return Ok(None);
    }
    let sure = stays_free::<R>(board, side, p);
    match double_at::<R>(alloc, board, side, p)? {
        Some(double) => Ok(Some(Kept { double, sure })),
        None => Ok(None),
    }
}

/// Which replies go on: the one on the first five point of a double point, and some other.
#[derive(Clone, Copy)]
struct Replied {
    at: bool,
    beside: bool,
}

/// Which replies go on where the other side is to move.
fn replies_by<R: Rule, V: Seen<R>>(view: &mut V, first: Point) -> Replied
    ensures at { result.at ≡ has_reply_at R.KIND (V.position view.old) first }
    ensures beside { result.beside ≡ has_reply_beside R.KIND (V.position view.old) first }
    ensures same { V.position view.new ≡ V.position view.old }
{
    let at = goes_on::<R, V>(view, first);
    let beside = goes_on_beside::<R, V>(view, first);
    Replied { at, beside }
}

/// Whether some reply goes on that isn't on the point.
fn goes_on_beside<R: Rule, V: Seen<R>>(view: &mut V, first: Point) -> bool
    ensures beside { result ≡ has_reply_beside R.KIND (V.position view.old) first }
    ensures same { V.position view.new ≡ V.position view.old }
{
    for q in view.board().points() {
        if is_other_reply::<R, V>(view, first, q) {
            return true;
        }
    }
    false
}

/// Whether the reply `q` goes on, and isn't on the point.
fn is_other_reply<R: Rule, V: Seen<R>>(view: &mut V, first: Point, q: Point) -> bool
    ensures reply { result ≡ (goes_on_lem (outcome_lem R.KIND (V.position view.old) q) && not (is_same_point q first)) }
    ensures same { V.position view.new ≡ V.position view.old }
{
    if q.is(first) {
        return false;
    }
    goes_on::<R, V>(view, q)
}

/// The same after the double point, which goes on.
fn replies_to<R: Rule, V: Seen<R>>(view: &mut V, double: DoublePoint) -> Replied
    requires on { outcome_lem R.KIND (V.position view.old) double.at ≡ Outcome.GoesOn }
    ensures at { result.at ≡ has_reply_at R.KIND (after (V.position view.old) double.at) double.first }
    ensures beside { result.beside ≡ has_reply_beside R.KIND (after (V.position view.old) double.at) double.first }
    ensures lawful { IsPosition R.KIND (V.position view.old) }
    ensures same { V.position view.new ≡ V.position view.old }
{
    view.play(double.at);
    let found = replies_by::<R, V>(view, double.first);
    view.undo(double.at);
    found
}

/// How many winning nodes answer the replies to the double point, which goes on: two at most.
pub fn answers_of<R: Rule, V: Seen<R>>(view: &mut V, double: DoublePoint) -> u64
    requires on { outcome_lem R.KIND (V.position view.old) double.at ≡ Outcome.GoesOn }
    ensures nodes { result ≡ answer_nodes R.KIND (V.position view.old) double }
    ensures few { result ≤ 2 }
    ensures same { V.position view.new ≡ V.position view.old }
{
    let found = replies_to::<R, V>(view, double);
    u64::from(found.at) + u64::from(found.beside)
}

/// The same of a double point that wins. Where the other side has no fouls both replies are there, as the number of empty points
/// tells.
pub(crate) fn answers_to_win<R: Rule, V: Seen<R>>(view: &mut V, double: DoublePoint) -> u64
    requires wins { IsDoubleWin R.KIND (V.position view.old) double }
    ensures nodes { result ≡ answer_nodes R.KIND (V.position view.old) double }
    ensures few { result ≤ 2 }
    ensures same { V.position view.new ≡ V.position view.old }
{
    if !R::has_fouls(view.side().other()) && view.board().empties() >= 3 {
        return 2;
    }
    answers_of::<R, V>(view, double)
}

/// Compiles the win by a double point. The view is as before; the nodes of the compiler stay, those added before a refusal too.
pub fn compile_double<R: Rule, V: Seen<R>>(
    alloc: Global,
    view: &mut V,
    double: DoublePoint,
    compiler: &mut Compiler,
) -> Result<WrittenWin, SearchError>
    requires wins { IsDoubleWin R.KIND (V.position view.old) double }
    ensures win { IfOk result (λ win. (moves : ℕ) → 2 ≤ moves → IsThreatWin R.KIND moves (V.position view.old) compiler.new win) }
    ensures writes { Writes compiler.old compiler.new (1 + answer_nodes R.KIND (V.position view.old) double) result }
    ensures same { V.position view.new ≡ V.position view.old }
{
    // This tells that the position is lawful.
    view.side();
    let replies = all_replies_to::<R, V>(alloc, view, double)?;
    compiler.double(
        alloc,
        double.at,
        double.first,
        double.second,
        replies.as_slice(),
    )
}

/// Compiles the win by a double point as one node that answers the reply on the first five point and all others, so that it wins
/// wherever the double point wins.
pub fn compile_standing(
    alloc: Global,
    double: DoublePoint,
    compiler: &mut Compiler,
) -> Result<WrittenWin, SearchError>
    ensures win { IfOk result (λ win. (rule : RuleKind) (b : Grid) (moves : ℕ) → IsPosition rule b → IsDoubleWin rule b double → 2 ≤ moves
        → IsThreatWin rule moves b compiler.new win) }
    ensures writes { Writes compiler.old compiler.new 3 result }
{
    let at_first = compiler.leaf(double.second)?;
    let beside = compiler.leaf(double.first)?;
    let given = standing_node(alloc, double, at_first, beside)?;
    let node = put_node(compiler, given)?;
    Ok(WrittenWin { node, moves: 2 })
}

/// The node that plays a double point, answers the reply on its first five point by the one node, and each other by the other.
fn standing_node(
    alloc: Global,
    double: DoublePoint,
    at_first: u32,
    beside: u32,
) -> Result<Node, AllocError>
    ensures node { IfOk result (λ node. node ≡ standing_node_lem double at_first beside) }
{
    let mut replies = Replies::new(alloc);
    replies.push(Reply {
        at: double.first,
        next: at_first,
    })?;
    Ok(Node {
        attack: double.at,
        replies,
        rest: Rest::To(beside),
    })
}

/// Puts the node in as it is.
fn put_node(compiler: &mut Compiler, given: Node) -> Result<u32, SearchError>
    requires node { IsNode given (length compiler.old) }
    ensures node { IfOk result (λ i. slice_get compiler.new i ≡ Some given) }
    ensures writes { Writes compiler.old compiler.new 1 result }
{
    Ok(compiler.adopt(given)?)
}

/// All replies to the double point that go on.
fn all_replies_to<R: Rule, V: Seen<R>>(
    alloc: Global,
    view: &mut V,
    double: DoublePoint,
) -> Result<Vec<Point>, AllocError>
    requires on { outcome_lem R.KIND (V.position view.old) double.at ≡ Outcome.GoesOn }
    requires none { has_five_lem R.KIND (after (V.position view.old) double.at) (mover (after (V.position view.old) double.at)) ≡ false }
    ensures all { IfOk result (λ found. found.items ≡ replies_at R.KIND (after (V.position view.old) double.at)) }
    ensures same { V.position view.new ≡ V.position view.old }
{
    view.play(double.at);
    let found = all_replies::<R, V>(alloc, view);
    view.undo(double.at);
    found
}

/// The same where the other side is to move, which has no five point.
fn all_replies<R: Rule, V: Seen<R>>(alloc: Global, view: &mut V) -> Result<Vec<Point>, AllocError>
    requires none { has_five_lem R.KIND (V.position view.old) (mover (V.position view.old)) ≡ false }
    ensures all { IfOk result (λ found. found.items ≡ replies_at R.KIND (V.position view.old)) }
    ensures same { V.position view.new ≡ V.position view.old }
{
    let free = each_goes_on::<R, V>(view);
    let mut found = Vec::new(alloc);
    for q in view.board().points() {
        if goes_on_where::<R, V>(view, free, q) {
            found.push(q)?;
        }
    }
    Ok(found)
}

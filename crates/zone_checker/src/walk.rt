//! The walk: the greatest zone of a node at a board.
//!
//! It recurses once for each attack, so never deeper than the table is, whose depth is bounded. Each pair of a node and a board that it
//! looks at is counted, after a pass too.
#![tactic(auto)]

ghost use Rattle.std.specs.Prelude.{◌≡◌, ◌<◌, ◌+◌, true, IfOk, MatchOption, MatchResult, length};
ghost use Rattle.game_rules.specs.Grid.{IsBoard, points_of};
ghost use Rattle.strategy_graph.specs.Tables.{names_below};
ghost use Rattle.relevance_zone.specs.Zones.{HasZone};
ghost use Rattle.zone_checker.specs.Marks.{IsGreatest};
ghost use Rattle.zone_checker.specs.Pairs.{AnswersHavePairsBy, ComesTo, HasPairs, ReplyHasPairsBy};
ghost use Rattle.zone_checker.specs.Replies.{AreReplied, IsReplied};
ghost use Rattle.zone_checker.specs.Walks.{HasToWalk, IsIdle, IsWithstoodBy, Stopped, Took, asked_of};

use crate::marks::{Mark, blanks, cover, cover_back, enter, harms, opened};
use row_shapes::{Rule, is_five_point};
use std::alloc::Global;
use stone_board::{Board, Point, Side};
use strategy_graph::{Reply, Rest, Table, listed_among};

/// Why a walk ends without a zone.
#[derive(Clone, Copy)]
pub(crate) enum Stop {
    /// There is none.
    Zoneless,
    /// No pair is left.
    Spent,
    /// There is no memory.
    Memory,
}

/// What the walk goes over: the table, all points of the board, and the side that attacks.
#[derive(Clone, Copy)]
pub(crate) struct Ground<'a> {
    pub(crate) alloc: Global,
    pub(crate) table: &'a Table,
    pub(crate) points: &'a [Point],
    pub(crate) side: Side,
}

/// The board, and how many more pairs of a node and a board may be looked at.
#[derive(Drop)]
pub(crate) struct Walk {
    pub(crate) board: Board,
    pub(crate) left: u64,
}

/// The answers that are asked: those listed, and the node of the rest. Each node that they name is below `bound`.
#[derive(Clone, Copy)]
pub(crate) struct Asked<'a> {
    pub(crate) replies: &'a [Reply],
    pub(crate) rest: u32,
    pub(crate) bound: u32,
}

/// The greatest zone of node `i` at the board of the walk, where the side is to move. The board is the same afterwards.
#[cycle(zones)]
pub(crate) fn node_zone<R: Rule>(ground: Ground, i: u32, walk: &mut Walk) -> Result<Vec<Mark>, Stop>
    requires in_table { i < length ground.table.now }
    requires points { ground.points.now ≡ points_of walk.old.board }
    ensures found { let has = HasZone R.KIND ground.entry.table.now ground.entry.side i walk.old.board in
        MatchResult result (λ marks. IsGreatest has walk.old.board marks.items)
        (Stopped has walk.old.left (HasPairs R.KIND ground.entry.table.now ground.entry.side i walk.old.board)) }
    ensures same { walk.new.board ≡ walk.old.board }
    ensures took { let paired = HasPairs R.KIND ground.entry.table.now ground.entry.side i walk.old.board in
        IfOk result (λ _. Took paired walk.old.left walk.new.left) }
{
    if walk.left == 0 {
        return Err(Stop::Spent);
    }
    walk.left -= 1;
    let node = ground.table.node(i);
    if !walk.board.is_empty(node.attack) {
        return Err(Stop::Zoneless);
    }
    if is_five_point::<R>(&walk.board, ground.side, node.attack) {
        let Ok(mut marks) = blanks(ground.alloc, &walk.board) else {
            return Err(Stop::Memory);
        };
        enter(&walk.board, &mut marks, node.attack);
        return Ok(marks);
    }
    let Rest::To(rest) = node.rest else {
        return Err(Stop::Zoneless);
    };
    walk.board.put(node.attack, ground.side);
    let asked = Asked {
        replies: node.replies,
        rest,
        bound: i,
    };
    let withstood = withstand::<R>(ground, asked, walk);
    walk.board.lift(node.attack);
    match withstood {
        Ok(mut marks) => {
            enter(&walk.board, &mut marks, node.attack);
            Ok(marks)
        }
        Err(stop) => Err(stop),
    }
}

/// The greatest zone with which all replies at the board are withstood. The board is the same afterwards.
#[cycle(zones)]
pub(crate) fn withstand<R: Rule>(
    ground: Ground,
    asked: Asked,
    walk: &mut Walk,
) -> Result<Vec<Mark>, Stop>
    requires bound { asked.bound < length ground.table.now + 1 }
    requires below { names_below (asked_of asked.replies.now asked.rest) asked.bound ≡ true }
    requires points { ground.points.now ≡ points_of walk.old.board }
    ensures found { let t = ground.entry.table.now in let s = ground.entry.side in
        let a = asked_of asked.entry.replies.now asked.entry.rest in
        let has = IsWithstoodBy R.KIND t s a walk.old.board in
        MatchResult result (λ marks. IsGreatest has walk.old.board marks.items)
        (Stopped has walk.old.left (AnswersHavePairsBy R.KIND t s a walk.old.board)) }
    ensures same { walk.new.board ≡ walk.old.board }
    ensures took { let t = ground.entry.table.now in let s = ground.entry.side in
        let a = asked_of asked.entry.replies.now asked.entry.rest in
        IfOk result (λ _. Took (AnswersHavePairsBy R.KIND t s a walk.old.board) walk.old.left walk.new.left) }
{
    let mut marks = match opened(ground.alloc, &walk.board, ground.points, ground.side) {
        Err(_) => return Err(Stop::Memory),
        Ok(None) => return Err(Stop::Zoneless),
        Ok(Some(marks)) => marks,
    };
    let passed = node_zone::<R>(ground, asked.rest, walk)?;
    cover_back(&mut marks, &passed);
    reply_all::<R>(ground, asked, &passed, &mut marks, walk)?;
    Ok(marks)
}

/// Goes over all replies, and makes the marks say what they harm. The board is the same afterwards.
#[cycle(zones)]
fn reply_all<R: Rule>(
    ground: Ground,
    asked: Asked,
    passed: &[Mark],
    marks: &mut Vec<Mark>,
    walk: &mut Walk,
) -> Result<(), Stop>
    requires bound { asked.bound < length ground.table.now + 1 }
    requires below { names_below (asked_of asked.replies.now asked.rest) asked.bound ≡ true }
    requires points { ground.points.now ≡ points_of walk.old.board }
    requires size { length marks.old.items ≡ length walk.old.board.cells }
    requires passed { IsGreatest (HasZone R.KIND ground.table.now ground.side asked.rest walk.old.board) walk.old.board passed.now }
    ensures replied { let t = ground.entry.table.now in let s = ground.entry.side in
        let a = asked_of asked.entry.replies.now asked.entry.rest in
        MatchResult result
        (λ _. AreReplied s a (HasZone R.KIND t s) walk.old.board passed.now (points_of walk.old.board) marks.old.items marks.new.items)
        (Stopped (IsWithstoodBy R.KIND t s a walk.old.board) walk.old.left
        (ComesTo (ReplyHasPairsBy R.KIND t s a asked.entry.rest walk.old.board) (points_of walk.old.board))) }
    ensures same { walk.new.board ≡ walk.old.board }
    ensures took { let t = ground.entry.table.now in let s = ground.entry.side in
        let a = asked_of asked.entry.replies.now asked.entry.rest in
        let paired = ComesTo (ReplyHasPairsBy R.KIND t s a asked.entry.rest walk.old.board) (points_of walk.old.board) in
        IfOk result (λ _. Took paired walk.old.left walk.new.left) }
{
    for q in ground.points {
        reply::<R>(ground, asked, passed, *q, marks, walk)?;
    }
    Ok(())
}

/// Asks one reply, if it has to be walked.
#[cycle(zones)]
fn reply<R: Rule>(
    ground: Ground,
    asked: Asked,
    passed: &[Mark],
    q: Point,
    marks: &mut Vec<Mark>,
    walk: &mut Walk,
) -> Result<(), Stop>
    requires bound { asked.bound < length ground.table.now + 1 }
    requires below { names_below (asked_of asked.replies.now asked.rest) asked.bound ≡ true }
    requires points { ground.points.now ≡ points_of walk.old.board }
    requires size { length marks.old.items ≡ length walk.old.board.cells }
    requires passed { IsGreatest (HasZone R.KIND ground.table.now ground.side asked.rest walk.old.board) walk.old.board passed.now }
    ensures replied { let t = ground.entry.table.now in let s = ground.entry.side in
        let a = asked_of asked.entry.replies.now asked.entry.rest in
        MatchResult result
        (λ _. IsReplied s a (HasZone R.KIND t s) walk.old.board passed.now q marks.old.items marks.new.items)
        (Stopped (IsWithstoodBy R.KIND t s a walk.old.board) walk.old.left
        (ReplyHasPairsBy R.KIND t s a asked.entry.rest walk.old.board q)) }
    ensures same { walk.new.board ≡ walk.old.board }
    ensures took { let t = ground.entry.table.now in let s = ground.entry.side in
        let a = asked_of asked.entry.replies.now asked.entry.rest in
        IfOk result (λ _. Took (ReplyHasPairsBy R.KIND t s a asked.entry.rest walk.old.board q) walk.old.left walk.new.left) }
{
    let Some(next) = to_walk(&walk.board, asked, passed, q) else {
        return Ok(());
    };
    walk.board.put(q, ground.side.other());
    let found = node_zone::<R>(ground, next, walk);
    walk.board.lift(q);
    match found {
        Ok(others) => {
            cover(marks, &others);
            Ok(())
        }
        Err(stop) => Err(stop),
    }
}

/// The node from which a reply has to be walked, if it does: it is to an empty point, and is listed or does harm.
fn to_walk(board: &Board, asked: Asked, passed: &[Mark], q: Point) -> Option<u32>
    requires size { length passed.now ≡ length board.now.cells }
    ensures walked { MatchOption result (IsIdle asked.entry.replies.now board.now passed.now q)
        (HasToWalk (asked_of asked.entry.replies.now asked.entry.rest) board.now passed.now q) }
    ensures board { IsBoard board.now }
{
    if !board.is_empty(q) {
        return None;
    }
    let listed = listed_among(asked.replies, q);
    if listed.is_some() {
        return listed;
    }
    if harms(board, passed, q) {
        Some(asked.rest)
    } else {
        None
    }
}

//! The plan of a win by fours, compiled from the bottom up.
//!
//! After a four each reply but the block leaves the attacker a five point, so all of them share one winning node, and only
//! the block has a node of its own. So each move of the win takes two nodes, and the last one at most three.
#![tactic(auto)]

ghost use Rattle.std.specs.Prelude.{◌≡◌, ◌<◌, ◌-◌, ◌*◌, true, false, [], length, Some, IfOk};
ghost use Rattle.game_rules.specs.Grid.{points_of};
ghost use Rattle.game_rules.specs.Play.{IsPosition, outcome as outcome_lem, after, mover, goes_on as goes_on_lem};
ghost use Rattle.game_rules.specs.Games.{wins_by_fours, has_five, five_points, four_move};
ghost use Rattle.threat_moves.specs.Blocks.{fate as fate_lem};
ghost use Rattle.strategy_compiler.specs.Trees.{Branches, Fork, StandsFor, AnswersBranches};
ghost use Rattle.strategy_compiler.specs.Forks.{answer_node as answer_node_lem};
ghost use Rattle.strategy_compiler.specs.Growth.{Writes};
ghost use Rattle.four_search.specs.Searching.{four_line, line_behind};
ghost use Rattle.four_search.specs.Plans.{four_plan, answers_for};

use crate::SearchError;
use crate::search::{Exchange, no_five_outcome};
use foul_judge::{Outcome, Seen};
use row_shapes::Rule;
use std::alloc::{AllocError, Global};
use stone_board::{Point, Points};
use strategy_compiler::{Compiler, answer_node, growth_keeps_trees};
use strategy_graph::Reply;
use threat_moves::{BlockAnswer, fives, forced};

/// Compiles the plan of a win by fours within so many moves, and answers its node. The line is that of the win, as a search
/// within so many moves found it. The view is as before; the compiler's nodes stay, those added before a refusal too.
#[cycle(plan)]
pub(crate) fn compile<R: Rule, V: Seen<R>>(
    alloc: Global,
    view: &mut V,
    moves: u32,
    line: &[Point],
    compiler: &mut Compiler,
) -> Result<u32, SearchError>
    requires wins { wins_by_fours R.KIND moves (V.position view.old) ≡ true }
    requires line { line.now ≡ four_line R.KIND moves (V.position view.old) }
    ensures stands { IfOk result (λ node. StandsFor compiler.new node (four_plan R.KIND moves (V.position view.old))) }
    ensures in_compiler { IfOk result (λ node. node < length compiler.new) }
    ensures same { V.position view.new ≡ V.position view.old }
    ensures writes { Writes compiler.old compiler.new (2 * moves) result }
{
    let attacker = view.side();
    let Ok(points) = fives::<R, V>(alloc, view, attacker) else {
        return Err(SearchError::Memory);
    };
    match points.as_slice() {
        [five, ..] => compiler.leaf(*five),
        [] => match line.split_last() {
            None => unreachable!(),
            Some((attack, inner)) => compile_four::<R, V>(
                alloc, view, *attack, moves, inner, compiler,
            ),
        },
    }
}

/// Compiles the plan that begins with the chosen move `p`, a four, where the attacker has so many moves with this one.
#[cycle(plan)]
fn compile_four<R: Rule, V: Seen<R>>(
    alloc: Global,
    view: &mut V,
    p: Point,
    moves: u32,
    line: &[Point],
    compiler: &mut Compiler,
) -> Result<u32, SearchError>
    requires lawful { IsPosition R.KIND (V.position view.old) }
    requires five { has_five R.KIND (V.position view.old) (mover (V.position view.old)) ≡ false }
    requires chosen { four_move R.KIND moves (V.position view.old) ≡ Some p }
    requires line { line.now ≡ line_behind (four_line R.KIND (moves - 1)) (after (V.position view.old) p) (fate_lem R.KIND (after (V.position view.old) p)) }
    ensures stands { IfOk result (λ node. StandsFor compiler.new node (four_plan R.KIND moves (V.position view.old))) }
    ensures in_compiler { IfOk result (λ node. node < length compiler.new) }
    ensures same { V.position view.new ≡ V.position view.old }
    ensures writes { Writes compiler.old compiler.new (2 * moves) result }
{
    match forced::<R, V>(view, p) {
        BlockAnswer::Lost => unreachable!(),
        BlockAnswer::Draw(_) => unreachable!(),
        BlockAnswer::Won => compile_won::<R, V>(alloc, view, p, moves, compiler),
        BlockAnswer::One(block) => {
            let exchange = Exchange { four: p, block };
            compile_one::<R, V>(alloc, view, exchange, moves, line, compiler)
        }
    }
}

/// The same where the one block goes on.
#[cycle(plan)]
fn compile_one<R: Rule, V: Seen<R>>(
    alloc: Global,
    view: &mut V,
    exchange: Exchange,
    moves: u32,
    line: &[Point],
    compiler: &mut Compiler,
) -> Result<u32, SearchError>
    requires lawful { IsPosition R.KIND (V.position view.old) }
    requires five { has_five R.KIND (V.position view.old) (mover (V.position view.old)) ≡ false }
    requires chosen { four_move R.KIND moves (V.position view.old) ≡ Some exchange.four }
    requires one { fate_lem R.KIND (after (V.position view.old) exchange.four) ≡ BlockAnswer.One exchange.block }
    requires line { line.now ≡ four_line R.KIND (moves - 1) (after (after (V.position view.old) exchange.four) exchange.block) }
    ensures stands { IfOk result (λ node. StandsFor compiler.new node (four_plan R.KIND moves (V.position view.old))) }
    ensures in_compiler { IfOk result (λ node. node < length compiler.new) }
    ensures same { V.position view.new ≡ V.position view.old }
    ensures writes { Writes compiler.old compiler.new (2 * moves) result }
{
    // This law tells that the nodes that are added change no tree.
    growth_keeps_trees();
    let at_block = compile_after::<R, V>(alloc, view, exchange, moves - 1, line, compiler)?;
    let beside = compiler.leaf(exchange.block)?;
    block_node::<R, V>(alloc, view, exchange, at_block, beside, compiler)
}

/// Compiles the plan of the position after a four and its block, both of which go on.
#[cycle(plan)]
fn compile_after<R: Rule, V: Seen<R>>(
    alloc: Global,
    view: &mut V,
    exchange: Exchange,
    moves: u32,
    line: &[Point],
    compiler: &mut Compiler,
) -> Result<u32, SearchError>
    requires goes_on { outcome_lem R.KIND (V.position view.old) exchange.four ≡ Outcome.GoesOn }
    requires block { outcome_lem R.KIND (after (V.position view.old) exchange.four) exchange.block ≡ Outcome.GoesOn }
    requires wins { wins_by_fours R.KIND moves (after (after (V.position view.old) exchange.four) exchange.block) ≡ true }
    requires line { line.now ≡ four_line R.KIND moves (after (after (V.position view.old) exchange.four) exchange.block) }
    ensures stands { IfOk result (λ node. StandsFor compiler.new node
        (four_plan R.KIND moves (after (after (V.position view.old) exchange.four) exchange.block))) }
    ensures in_compiler { IfOk result (λ node. node < length compiler.new) }
    ensures same { V.position view.new ≡ V.position view.old }
    ensures writes { Writes compiler.old compiler.new (2 * moves) result }
{
    view.play(exchange.four);
    view.play(exchange.block);
    let node = compile::<R, V>(alloc, view, moves, line, compiler);
    view.undo(exchange.block);
    view.undo(exchange.four);
    node
}

/// Compiles the plan that begins with the chosen move `p`, a four that has won: after each reply that goes on one of its
/// five points is left.
fn compile_won<R: Rule, V: Seen<R>>(
    alloc: Global,
    view: &mut V,
    p: Point,
    moves: u32,
    compiler: &mut Compiler,
) -> Result<u32, SearchError>
    requires lawful { IsPosition R.KIND (V.position view.old) }
    requires five { has_five R.KIND (V.position view.old) (mover (V.position view.old)) ≡ false }
    requires chosen { four_move R.KIND moves (V.position view.old) ≡ Some p }
    requires won { fate_lem R.KIND (after (V.position view.old) p) ≡ BlockAnswer.Won }
    ensures stands { IfOk result (λ node. StandsFor compiler.new node (four_plan R.KIND moves (V.position view.old))) }
    ensures in_compiler { IfOk result (λ node. node < length compiler.new) }
    ensures same { V.position view.new ≡ V.position view.old }
    ensures writes { Writes compiler.old compiler.new (2 * moves) result }
{
    // This law tells that the nodes that are added change no tree.
    growth_keeps_trees();
    if moves == 1 {
        return compiler.fork(p, &[]);
    }
    let Ok(points) = fives_after::<R, V>(alloc, view, p) else {
        return Err(SearchError::Memory);
    };
    match points.as_slice() {
        [] => unreachable!(),
        [block] => {
            let beside = compiler.leaf(*block)?;
            let exchange = Exchange {
                four: p,
                block: *block,
            };
            block_node::<R, V>(alloc, view, exchange, beside, beside, compiler)
        }
        [first, second, ..] => {
            let beside = compiler.leaf(*first)?;
            let at_first = compiler.leaf(*second)?;
            let exchange = Exchange {
                four: p,
                block: *first,
            };
            block_node::<R, V>(alloc, view, exchange, at_first, beside, compiler)
        }
    }
}

/// The five points of the side to move after its four `p`. The view is as before.
fn fives_after<R: Rule, V: Seen<R>>(
    alloc: Global,
    view: &mut V,
    p: Point,
) -> Result<Points, AllocError>
    requires goes_on { outcome_lem R.KIND (V.position view.old) p ≡ Outcome.GoesOn }
    ensures fives { IfOk result (λ points. points ≡ five_points R.KIND (after (V.position view.old) p) (mover (V.position view.old))) }
    ensures same { V.position view.new ≡ V.position view.old }
{
    let attacker = view.side();
    view.play(p);
    let points = fives::<R, V>(alloc, view, attacker);
    view.undo(p);
    points
}

/// The node that plays the four and has one answer to the block, and another to each other reply that goes on. The defender has no
/// five point after it.
fn block_node<R: Rule, V: Seen<R>>(
    alloc: Global,
    view: &mut V,
    exchange: Exchange,
    at_block: u32,
    beside: u32,
    compiler: &mut Compiler,
) -> Result<u32, SearchError>
    requires goes_on { outcome_lem R.KIND (V.position view.old) exchange.four ≡ Outcome.GoesOn }
    requires safe { has_five R.KIND (after (V.position view.old) exchange.four) (mover (after (V.position view.old) exchange.four)) ≡ false }
    requires at_block_below { at_block < length compiler.old }
    requires beside_below { beside < length compiler.old }
    ensures stands { IfOk result (λ node. (branches : Branches)
        → AnswersBranches compiler.old (answers_for (outcome_lem R.KIND (after (V.position view.old) exchange.four))
        (answer_node_lem exchange.block at_block beside) (points_of (V.position view.old))) branches
        → StandsFor compiler.new node (Fork exchange.four branches)) }
    ensures in_compiler { IfOk result (λ node. node < length compiler.new) }
    ensures same { V.position view.new ≡ V.position view.old }
    ensures writes { Writes compiler.old compiler.new 1 result }
{
    let Exchange { four, block } = exchange;
    view.play(four);
    let found = answers::<R, V>(alloc, view, block, at_block, beside);
    view.undo(four);
    match found {
        Err(_) => Err(SearchError::Memory),
        Ok(answers) => compiler.fork(four, answers.as_slice()),
    }
}

/// The answers at a position where the defender is to move and has no five point: one node to the block, another to each other
/// reply that goes on. The view is as before.
fn answers<R: Rule, V: Seen<R>>(
    alloc: Global,
    view: &mut V,
    block: Point,
    at_block: u32,
    beside: u32,
) -> Result<Vec<Reply>, AllocError>
    requires safe { has_five R.KIND (V.position view.old) (mover (V.position view.old)) ≡ false }
    ensures answers { IfOk result (λ answers. answers.items ≡ answers_for (outcome_lem R.KIND (V.position view.old)) (answer_node_lem block at_block beside) (points_of (V.position view.old))) }
    ensures same { V.position view.new ≡ V.position view.old }
{
    let mut found = Vec::new(alloc);
    for q in view.board().points() {
        if goes_on::<R, V>(view, q) {
            found.push(Reply {
                at: q,
                next: answer_node(q, block, at_block, beside),
            })?;
        }
    }
    Ok(found)
}

/// Whether the reply goes on, where its side has no five point. The view is as before.
fn goes_on<R: Rule, V: Seen<R>>(view: &mut V, q: Point) -> bool
    requires safe { has_five R.KIND (V.position view.old) (mover (V.position view.old)) ≡ false }
    ensures on { result ≡ goes_on_lem (outcome_lem R.KIND (V.position view.old) q) }
    ensures same { V.position view.new ≡ V.position view.old }
{
    if R::has_fouls(view.side()) {
        return matches!(view.outcome(q), Outcome::GoesOn);
    }
    if !view.board().is_empty(q) {
        return false;
    }
    matches!(no_five_outcome::<R, V>(view, q), Outcome::GoesOn)
}

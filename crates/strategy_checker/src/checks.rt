//! Checks of a root: a walk from it, and what comes of the walk.
//!
//! A walk to its end shows that the root is accepted, and what it took of the work is the number of arrivals. A walk that
//! stops at a fault has noted the moves that lead there, the last one first. The depth of the root plays no part in it.
#![tactic(auto)]

ghost use Rattle.std.specs.Prelude.{◌≡◌, ◌≤◌, ◌<◌, ◌-◌, true, length, reverse, IfOk, IfErr, OnOk};
ghost use Rattle.game_rules.specs.Games.{WinsWithin, WinsAfter};
ghost use Rattle.game_rules.specs.Play.{IsPosition};
ghost use Rattle.strategy_graph.specs.Tables.{depth, start_depth, names_below};
ghost use Rattle.strategy_graph.specs.Acceptance.{Accepted, AcceptedStart};
ghost use Rattle.strategy_graph.specs.Arrivals.{arrivals as arrivals_lem, start_arrivals};
ghost use Rattle.strategy_graph.specs.Leads.{Leads, LeadsStart};
ghost use Rattle.strategy_graph.specs.Roots.{AcceptedRoot, LeadsRoot, RootWins, root_arrivals, root_below, root_depth};
ghost use Rattle.strategy_checker.specs.HeldErrors.{IfRootRefused, IfRootSpent};
ghost use Rattle.strategy_checker.specs.Checks.{IsChecked, IsEndOf, IsTold};
ghost use Rattle.strategy_checker.specs.Verdicts.{IsVerdictOf, AcceptsExactly, RefusesRightly, SpendsRightly};
ghost use Rattle.strategy_checker.specs.Verdicts.{IfAccepted, IfRefused};

use crate::walk::{Stop, Walk};
use crate::{HeldError, Verdict};
use foul_judge::{Position, Seen};
use row_shapes::{Rule, RuleKind, under_rule};
use std::alloc::{AllocError, Global};
use stone_board::{Board, Points};
use strategy_graph::{Root, Start, Table};

/// Whether the table wins from the position with the node `root`, whose attack is played first. Each game that the table plays
/// is walked through, whatever the replies, and at most `work` arrivals at nodes are counted.
///
/// - `Accepted` comes exactly where the node is accepted and its arrivals are at most `work`. The side to move then wins
///   within the depth of the node, which is `moves`.
/// - `Refused` comes only where the node is not accepted, and always there if its arrivals are at most `work`.
/// - `Spent` comes only where the arrivals are above `work`, and always there if the node is accepted.
///
/// The position is the same afterwards. `Err` says that memory ran out, for the line of a refusal or for the depth.
pub fn check<R: Rule>(
    alloc: Global,
    table: &Table,
    root: u32,
    position: &mut Position<R>,
    work: u64,
) -> Result<Verdict, AllocError>
    requires in_table { root < length table.now }
    ensures accepted { IfOk result
        (AcceptsExactly (Accepted R.KIND table.now root position.old)
        (arrivals_lem R.KIND table.now root position.old) work) }
    ensures moves { IfOk result (IfAccepted (λ moves count. moves ≡ depth table.now root)) }
    ensures arrivals { IfOk result
        (IfAccepted (λ moves count. count ≡ arrivals_lem R.KIND table.now root position.old)) }
    ensures wins { IfOk result (IfAccepted (λ moves count. WinsWithin R.KIND moves position.old)) }
    ensures refused { IfOk result
        (RefusesRightly (Accepted R.KIND table.now root position.old)
        (arrivals_lem R.KIND table.now root position.old) work) }
    ensures leads { IfOk result
        (IfRefused (λ line why. Leads R.KIND table.now root position.old line why)) }
    ensures spent { IfOk result
        (SpendsRightly (Accepted R.KIND table.now root position.old)
        (arrivals_lem R.KIND table.now root position.old) work) }
    ensures same { position.new ≡ position.old }
{
    // Its contract says that the position is lawful.
    let _mover = position.side();
    let moves = table.depth(root)?;
    let mut walk = Walk::new(alloc, work);
    let walked = walk.visit_node(table, root, position);
    verdict(moves, counted(alloc, walked, &walk, work))
}

/// Whether the table wins from the position with the start, where the opponent moves first. It is walked through as by `check`,
/// and the start counts as the first arrival.
///
/// - `Accepted` comes exactly where the start is accepted and its arrivals are at most `work`. The side that is not to move then
///   wins within the depth of the start, which is `moves`, whatever is played first.
/// - `Refused` comes only where the start is not accepted, and always there if its arrivals are at most `work`. Its line begins
///   with a reply.
/// - `Spent` comes only where the arrivals are above `work`, and always there if the start is accepted.
///
/// The position is the same afterwards. `Err` says that memory ran out, for the line of a refusal or for the depth.
pub fn check_start<R: Rule>(
    alloc: Global,
    table: &Table,
    start: &Start,
    position: &mut Position<R>,
    work: u64,
) -> Result<Verdict, AllocError>
    requires below { names_below start.now (length table.now) ≡ true }
    ensures accepted { IfOk result
        (AcceptsExactly (AcceptedStart R.KIND table.now start.now position.old)
        (start_arrivals R.KIND table.now start.now position.old) work) }
    ensures moves { IfOk result
        (IfAccepted (λ moves count. moves ≡ start_depth table.now start.now)) }
    ensures arrivals { IfOk result
        (IfAccepted
        (λ moves count. count ≡ start_arrivals R.KIND table.now start.now position.old)) }
    ensures wins { IfOk result (IfAccepted (λ moves count. WinsAfter R.KIND moves position.old)) }
    ensures refused { IfOk result
        (RefusesRightly (AcceptedStart R.KIND table.now start.now position.old)
        (start_arrivals R.KIND table.now start.now position.old) work) }
    ensures leads { IfOk result
        (IfRefused (λ line why. LeadsStart R.KIND table.now start.now position.old line why)) }
    ensures spent { IfOk result
        (SpendsRightly (AcceptedStart R.KIND table.now start.now position.old)
        (start_arrivals R.KIND table.now start.now position.old) work) }
    ensures same { position.new ≡ position.old }
{
    // Its contract says that the position is lawful.
    let _mover = position.side();
    let moves = table.start_depth(start)?;
    let mut walk = Walk::new(alloc, work);
    let walked = walk.visit_start(table, start, position);
    verdict(moves, counted(alloc, walked, &walk, work))
}

/// The arrivals from the root at the board under the rule, if the root is accepted there with at most `work` of them, whichever
/// side moves first: from a node as by `check`, and from a start as by `check_start`. The board is as before.
///
/// - `Ok` comes exactly where the root is accepted and its arrivals are at most `work`. The root then wins within its depth.
/// - `Refused` comes only where the root is not accepted, and always there if its arrivals are at most `work`.
/// - `Spent` comes only where the arrivals are above `work`, and always there if the root is accepted.
/// - `Memory` says that memory ran out, for a copy of the board or for the line of a refusal.
pub fn check_root(
    alloc: Global,
    kind: RuleKind,
    board: &Board,
    table: &Table,
    root: &Root,
    work: u64,
) -> Result<u64, HeldError>
    requires lawful { IsPosition kind board.now }
    requires below { root_below root.now (length table.now) ≡ true }
    ensures accepted { OnOk result (AcceptedRoot kind table.now root.now board.now) }
    ensures wins { OnOk result
        (RootWins kind root.now (root_depth table.now root.now) board.now) }
    ensures arrivals { IfOk result (λ n. n ≡ root_arrivals kind table.now root.now board.now) }
    ensures within { OnOk result (root_arrivals kind table.now root.now board.now ≤ work) }
    ensures refused { IfErr result
        (IfRootRefused (λ line why. ¬ AcceptedRoot kind table.now root.now board.now)) }
    ensures leads { IfErr result
        (IfRootRefused (λ line why. LeadsRoot kind table.now root.now board.now line why)) }
    ensures spent { IfErr result
        (IfRootSpent (work < root_arrivals kind table.now root.now board.now)) }
{
    let board = board.copy()?;
    under_rule!(kind, check_under(alloc, board, table, root, work))
}

/// The same under the rule of the type, on a board that is gone afterwards.
fn check_under<R: Rule>(
    alloc: Global,
    board: Board,
    table: &Table,
    root: &Root,
    work: u64,
) -> Result<u64, HeldError>
    requires lawful { IsPosition R.KIND board }
    requires below { root_below root.now (length table.now) ≡ true }
    ensures checked { IsChecked R.KIND table.now root.now board work result }
{
    let mut position = Position::<R>::new(board);
    let mut walk = Walk::new(alloc, work);
    let walked = walk.visit_root(table, root, &mut position);
    counted(alloc, walked, &walk, work)
}

/// The arrivals that a walk with at most `work` of them took, or why it stopped.
fn counted(
    alloc: Global,
    walked: Result<(), Stop>,
    walk: &Walk,
    work: u64,
) -> Result<u64, HeldError>
    requires counted { OnOk walked (walk.now.left ≤ work) }
    ensures end { IsEndOf walked (work - walk.now.left) (reverse walk.now.line) result }
{
    match walked {
        Ok(()) => Ok(work - walk.left),
        Err(stop) => Err(told(alloc, stop, &walk.line)),
    }
}

/// Why a walk stopped, with the moves that led to the fault, which are given the last one first.
fn told(alloc: Global, stop: Stop, line: &Points) -> HeldError
    ensures told { IsTold stop (reverse line.now) result }
{
    match stop {
        Stop::Fault(why) => match reversed(alloc, line) {
            Ok(line) => HeldError::Refused { line, why },
            Err(_) => HeldError::Memory,
        },
        Stop::Spent => HeldError::Spent,
        Stop::Memory => HeldError::Memory,
    }
}

/// The points in the other order.
fn reversed(alloc: Global, points: &Points) -> Result<Points, AllocError>
    ensures reversed { IfOk result (λ ps. ps ≡ reverse points.now) }
{
    let mut others = Points::new(alloc);
    for p in points.as_slice().iter().rev() {
        others.push(*p)?;
    }
    Ok(others)
}

/// The verdict on a root of this depth, by the arrivals that were counted from it.
fn verdict(moves: u32, counted: Result<u64, HeldError>) -> Result<Verdict, AllocError>
    ensures verdict { IfOk result (IsVerdictOf moves counted) }
{
    match counted {
        Ok(arrivals) => Ok(Verdict::Accepted { moves, arrivals }),
        Err(HeldError::Refused { line, why }) => Ok(Verdict::Refused { line, why }),
        Err(HeldError::Spent) => Ok(Verdict::Spent),
        Err(HeldError::Memory) => Err(AllocError),
    }
}

//! Verdicts on starts, and roots that are held. Of nodes and of the longest table the program shows what is said.

use crate::compared::same;
use foul_judge::Position;
use position_files::read_table;
use row_shapes::{Freestyle, RuleKind};
use std::alloc::Global;
use std::process::Abort;
use stone_board::Side;
use strategy_checker::{Held, HeldError, MAX_ROOTS, Verdict, Why, check_start};
use strategy_graph::{Root, Table};
use test_boards::{at, position_of};

/// Three in a row with both ends open: 4,7 makes a straight four. Where 3,7 is not answered by 8,7 it is refused.
const THREE: &str =
    "renju-table 1\nrule freestyle\nsize 15\nblack 5,7 6,7 7,7\nwhite 0,0 2,0 4,0\nmoves 2\nnodes 3\n3,7 wins\n8,7 wins\n4,7 rest 0 3,7>1\n";

const THREE_WITHOUT_THE_BLOCK: &str =
    "renju-table 1\nrule freestyle\nsize 15\nblack 5,7 6,7 7,7\nwhite 0,0 2,0 4,0\nmoves 2\nnodes 3\n3,7 wins\n8,7 wins\n4,7 rest 0\n";

/// A straight four, and White is to move.
const FOUR: &str =
    "renju-table 2\nrule freestyle\nsize 15\nblack 4,7 5,7 6,7 7,7\nwhite 0,0 2,0 4,0\nmoves 1\nnodes 3\n3,7 wins\n8,7 wins\n4,7 rest 0\nstart rest 0 3,7>1\n";

const FOUR_WITHOUT_THE_BLOCK: &str =
    "renju-table 2\nrule freestyle\nsize 15\nblack 4,7 5,7 6,7 7,7\nwhite 0,0 2,0 4,0\nmoves 1\nnodes 3\n3,7 wins\n8,7 wins\n4,7 rest 0\nstart rest 0\n";

/// The moves and the arrivals of a verdict that accepts, or whether it refuses an attack on the block that the opponent took; neither
/// where the work is spent.
fn told_of_verdict(verdict: &Verdict) -> (Option<(u32, u64)>, bool) {
    match verdict {
        Verdict::Accepted { moves, arrivals } => (Some((*moves, *arrivals)), false),
        Verdict::Refused { line, why } => {
            let is_block = line.as_slice() == [at(3, 7), at(3, 7)].as_slice();
            (None, is_block && *why == Why::AttackRefused)
        }
        Verdict::Spent => (None, false),
    }
}

/// The verdict on the start of the table at the position.
fn verdict(
    alloc: Global,
    table: &Table,
    root: &Root,
    position: &mut Position<Freestyle>,
    work: u64,
) -> Option<(Option<(u32, u64)>, bool)> {
    match root {
        Root::Defend(start) if start.names_below(table.len()) => {
            let verdict = check_start(alloc, table, start, position, work).ok()?;
            Some(told_of_verdict(&verdict))
        }
        _ => None,
    }
}

/// The verdict on the start of the text.
fn verdict_on(
    alloc: Global,
    text: &str,
    position: &mut Position<Freestyle>,
    work: u64,
) -> Option<(Option<(u32, u64)>, bool)> {
    let file = read_table(alloc, text.as_bytes()).ok()?;
    verdict(alloc, &file.table, &file.root, position, work)
}

/// Compares the verdicts on the two starts at the position of the straight four.
fn judge_starts(rt: &(impl Abort + AllocGlobal), position: &mut Position<Freestyle>) {
    let told = verdict_on(rt.alloc(), FOUR, position, 219);
    same(rt, told, Some((Some((1, 219)), false)));
    let told = verdict_on(rt.alloc(), FOUR, position, 218);
    same(rt, told, Some((None, false)));
    let told = verdict_on(rt.alloc(), FOUR_WITHOUT_THE_BLOCK, position, 219);
    same(rt, told, Some((None, true)));
}

#[test]
fn starts_are_judged_as_worked_out(rt: HostRuntime) {
    let position = position_of(rt.alloc(), "4,7 5,7 6,7 7,7", "0,0 2,0 4,0");
    judge_starts(&rt, &mut position.expect(&rt, "a position"));
}

/// What holds the table of the text, and no root yet.
fn held_table(alloc: Global, text: &str) -> Option<Held> {
    let file = read_table(alloc, text.as_bytes()).ok()?;
    Some(Held::new(alloc, file.table))
}

/// The number of the root that is added, or the fault for which it is refused; neither where the work is spent.
fn told_of(added: &Result<u32, HeldError>) -> Option<(Option<u32>, Option<Why>)> {
    match added {
        Ok(number) => Some((Some(*number), None)),
        Err(HeldError::Refused { why, .. }) => Some((None, Some(*why))),
        Err(HeldError::Spent) => Some((None, None)),
        Err(HeldError::Memory) => None,
    }
}

/// What adding node 2 at the open three answers, where it may be added.
fn add_three(alloc: Global, held: &mut Held, work: u64) -> Option<(Option<u32>, Option<Why>)> {
    let root = Root::Attack(2);
    if !root.names_below(held.table().len()) || held.len() >= MAX_ROOTS {
        return None;
    }
    let position = position_of::<Freestyle>(alloc, "5,7 6,7 7,7", "0,0 2,0 4,0")?;
    told_of(&held.add(root, position, work))
}

/// Where one root is held: its rule, how many black stones its board has, and its node.
fn held_root(held: &Held) -> Option<(RuleKind, u32, u32)> {
    if held.len() != 1 {
        return None;
    }
    match held.root(0) {
        Root::Attack(node) => Some((held.kind(0), held.board(0).count(Side::Black), *node)),
        Root::Defend(_) => None,
    }
}

#[test]
fn an_accepted_root_is_held(rt: HostRuntime) {
    let mut held = held_table(rt.alloc(), THREE).expect(&rt, "a table");
    let added = add_three(rt.alloc(), &mut held, 219);
    same(&rt, added, Some((Some(2), None)));
    same(&rt, held_root(&held), Some((RuleKind::Freestyle, 3, 2)));
}

#[test]
fn a_root_that_is_not_accepted_is_not_held(rt: HostRuntime) {
    let held = held_table(rt.alloc(), THREE_WITHOUT_THE_BLOCK);
    let mut held = held.expect(&rt, "a table");
    let refused = add_three(rt.alloc(), &mut held, 219);
    same(&rt, refused, Some((None, Some(Why::AttackRefused))));
    let spent = add_three(rt.alloc(), &mut held, 3);
    same(&rt, spent, Some((None, None)));
    same(&rt, held.len(), 0);
}

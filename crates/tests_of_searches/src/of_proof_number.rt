//! Searches on worked positions, and what the tree shows after them.

use crate::compared::same;
use foul_judge::Position;
use proof_number::{MAX_BUDGET, MAX_DEPTH, ProofAnswer, proof_number};
use proof_tree::{INFINITE, Numbers, ProofTree};
use row_shapes::{Rule, RuleKind, under_rule};
use std::process::Abort;
use strategy_compiler::Compiler;
use test_boards::position_of;

/// A search of a position: its moves and its budget; the moves of its win, or that there is none, and nothing where the budget is
/// spent; and how many nodes its tree has then at least and at most.
struct Case {
    name: &'static str,
    rule: RuleKind,
    black: &'static str,
    white: &'static str,
    depth: u32,
    budget: u64,
    moves: Option<Option<u32>>,
    least: u32,
    most: u32,
}

/// The four stones round a point that make a three on two axes: the three in the middle wins within three moves.
const CROSS: &str = "7,6 6,7 8,7 7,8";

const CORNERS: &str = "0,0 14,0 0,14 14,14";

static CASES: [Case; 7] = [
    Case {
        name: "two moves do not win by a quiet three",
        rule: RuleKind::Freestyle,
        black: CROSS,
        white: CORNERS,
        depth: 2,
        budget: 50_000,
        moves: Some(None),
        least: 2,
        most: u32::MAX,
    },
    Case {
        name: "three moves win by a quiet three",
        rule: RuleKind::Freestyle,
        black: CROSS,
        white: CORNERS,
        depth: 3,
        budget: 50_000,
        moves: Some(Some(3)),
        least: 1,
        most: u32::MAX,
    },
    Case {
        name: "a five wins at once",
        rule: RuleKind::Renju,
        black: "7,4 7,5 7,6 3,7 4,7 5,7 6,7 7,8 7,9",
        white: "0,0 4,0 10,0 14,0 2,7 0,14 4,14 10,14 14,14",
        depth: 1,
        budget: 1,
        moves: Some(Some(1)),
        least: 1,
        most: 1,
    },
    Case {
        name: "one position is not enough",
        rule: RuleKind::Freestyle,
        black: CROSS,
        white: CORNERS,
        depth: 3,
        budget: 1,
        moves: None,
        least: 1,
        most: u32::MAX,
    },
    // The board has 217 empty points, so replies that counted one by one would spend the budget on the first three.
    Case {
        name: "one win meets most replies",
        rule: RuleKind::Freestyle,
        black: CROSS,
        white: CORNERS,
        depth: 3,
        budget: 100,
        moves: Some(Some(3)),
        least: 1,
        most: u32::MAX,
    },
    // A stone on either end of the three makes a straight four: two positions are counted behind it, one for the reply on its first
    // five point and one for all others. The root is settled by that, so the tree keeps its one node.
    Case {
        name: "a double point that stands wins at once",
        rule: RuleKind::Freestyle,
        black: "6,7 7,7 8,7",
        white: "14,0 0,14 14,14",
        depth: 2,
        budget: 3,
        moves: Some(Some(2)),
        least: 1,
        most: 1,
    },
    // Of the pair only four stones make a three that leaves a double point, those next to it and those one further. Each is met by
    // a reply after which two moves are left, and these are looked through before a reply gets a node.
    Case {
        name: "replies with two moves left are looked through",
        rule: RuleKind::Freestyle,
        black: "7,7 8,7",
        white: "0,14 14,14",
        depth: 3,
        budget: 50,
        moves: Some(None),
        least: 5,
        most: 5,
    },
];

/// The moves of a win, and that there is none; nothing where the budget is spent.
fn moves_of(answer: ProofAnswer) -> Option<Option<u32>> {
    match answer {
        ProofAnswer::Win(win) => Some(Some(win.moves)),
        ProofAnswer::None => Some(None),
        ProofAnswer::Spent => None,
    }
}

/// The numbers of a root that is proved by a win, or disproved since there is none; nothing where the budget is spent.
fn settled_by(moves: Option<Option<u32>>) -> Option<Numbers> {
    match moves? {
        Some(_) => Some(Numbers {
            proof: 0,
            disproof: INFINITE,
        }),
        None => Some(Numbers {
            proof: INFINITE,
            disproof: 0,
        }),
    }
}

/// The numbers of the root, where it is settled.
fn settled_root(tree: &ProofTree) -> Option<Numbers> {
    if tree.len() == 0 || !tree.numbers(0).is_settled() {
        return None;
    }
    Some(tree.numbers(0))
}

/// Compares what a search answered, and the tree after it.
fn compare(rt: &impl Abort, case: &Case, answer: ProofAnswer, tree: &ProofTree) {
    let told = moves_of(answer);
    same(rt, (case.name, told), (case.name, case.moves));
    let root = settled_by(case.moves);
    same(rt, (case.name, settled_root(tree)), (case.name, root));
    let fits = case.least <= tree.len() && tree.len() <= case.most;
    same(rt, (case.name, fits), (case.name, true));
}

/// Searches the position, and compares what is answered.
fn search_at<R: Rule>(rt: &(impl Abort + AllocGlobal), case: &Case, view: &mut Position<R>) {
    assert!(rt; 1 <= case.depth && case.depth <= MAX_DEPTH);
    assert!(rt; 1 <= case.budget && case.budget <= MAX_BUDGET);
    let mut tree = ProofTree::new(rt.alloc()).expect(rt, "a tree");
    let answer = proof_number::<R, Position<R>>(
        rt.alloc(),
        view,
        case.depth,
        case.budget,
        &mut tree,
        &mut Compiler::new(rt.alloc()),
    );
    compare(rt, case, answer.expect(rt, case.name), &tree);
}

/// The same of the position of the case under its rule.
fn search<R: Rule>(rt: &(impl Abort + AllocGlobal), case: &Case) {
    let view = position_of::<R>(rt.alloc(), case.black, case.white);
    search_at::<R>(rt, case, &mut view.expect(rt, case.name));
}

#[test]
fn searches_answer_and_settle_their_root(rt: HostRuntime) {
    for case in &CASES {
        under_rule!(case.rule, search(&rt, case));
    }
}

//! A tree whose root has two children, and what becomes of it when they are settled.

use crate::compared::same;
use proof_tree::{INFINITE, Numbers, ProofTree};
use std::process::Abort;

fn pair(proof: u32, disproof: u32) -> Numbers {
    Numbers { proof, disproof }
}

/// How many nodes there are, the numbers of the root, which is not settled, and the leaf that proves most.
fn told(tree: &ProofTree) -> Option<(u32, Numbers, u32)> {
    let len = tree.len();
    if len == 0 || tree.numbers(0).is_settled() {
        return None;
    }
    Some((len, tree.numbers(0), tree.most_proving()))
}

/// The numbers of a node.
fn numbers_of(tree: &ProofTree, i: u32) -> Option<Numbers> {
    if i < tree.len() {
        Some(tree.numbers(i))
    } else {
        None
    }
}

/// The numbers of the root once the leaf that proves most is settled.
fn settled(tree: &mut ProofTree, proved: bool) -> Option<Numbers> {
    let len = tree.len();
    if len == 0 || tree.numbers(0).is_settled() {
        return None;
    }
    tree.settle(proved);
    numbers_of(tree, 0)
}

/// Makes a tree whose root has children with the numbers 1 and 3, and 2 and 1, and settles the leaf that proves most, once for each of
/// these: it is proved, or disproved, and the root has these numbers then. Answers the numbers of the second child.
fn settle_each(rt: &(impl Abort + AllocGlobal), answers: &[(bool, Numbers)]) -> Option<Numbers> {
    let children = [
        Numbers {
            proof: 1,
            disproof: 3,
        },
        Numbers {
            proof: 2,
            disproof: 1,
        },
    ];
    let mut tree = ProofTree::new(rt.alloc()).expect(rt, "a tree");
    tree.expand(&children).expect(rt, "memory");
    same(rt, told(&tree), Some((3, pair(1, 4), 1)));
    for (proved, root) in answers {
        same(rt, settled(&mut tree, *proved), Some(*root));
    }
    numbers_of(&tree, 2)
}

#[test]
fn a_root_has_minimum_and_sum_of_its_children(rt: HostRuntime) {
    same(&rt, settle_each(&rt, &[]), Some(pair(2, 1)));
}

#[test]
fn a_proved_child_proves_the_root(rt: HostRuntime) {
    let second = settle_each(&rt, &[(true, pair(0, INFINITE))]);
    same(&rt, second, Some(pair(2, 1)));
}

#[test]
fn children_that_are_disproved_one_by_one_disprove_the_root(rt: HostRuntime) {
    let roots = [(false, pair(2, 1)), (false, pair(INFINITE, 0))];
    same(&rt, settle_each(&rt, &roots), Some(pair(INFINITE, 0)));
}

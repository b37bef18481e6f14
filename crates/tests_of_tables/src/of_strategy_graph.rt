//! What tables, replies and starts answer on small examples, and a table of the greatest length.

use crate::compared::same;
use std::alloc::Global;
use std::hash::{DefaultHasher, Hash, Hasher};
use std::process::Abort;
use strategy_graph::{MAX_NODES, Node, PushError, Replies, Reply, Rest, Root, Start, Table};
use test_boards::{at, points_of};

/// Replies with these points and these nodes that answer them.
fn replies_of(alloc: Global, points: &str, nodes: &[u32]) -> Option<Replies> {
    let points = points_of(alloc, points)?;
    let mut replies = Replies::new(alloc);
    for (p, next) in points.as_slice().iter().zip(nodes) {
        replies
            .push(Reply {
                at: *p,
                next: *next,
            })
            .ok()?;
    }
    Some(replies)
}

/// The number of the replies, whether there are none, whether they rise, and where two points are found.
fn told(replies: &Replies) -> (usize, bool, bool, [Option<u32>; 2]) {
    (
        replies.len(),
        replies.is_empty(),
        replies.is_rising(),
        [replies.find(at(1, 3)), replies.find(at(3, 1))],
    )
}

/// The second of the replies.
fn second(replies: &Replies) -> Option<Reply> {
    if 1 < replies.len() {
        Some(*replies.at(1))
    } else {
        None
    }
}

#[test]
fn replies_keep_their_order(rt: HostRuntime) {
    let replies = replies_of(rt.alloc(), "9,2 1,3", &[4, 0]).expect(&rt, "replies");
    same(&rt, told(&replies), (2, false, true, [Some(0), None]));
    let (first, last) = (
        Reply {
            at: at(9, 2),
            next: 4,
        },
        Reply {
            at: at(1, 3),
            next: 0,
        },
    );
    same(&rt, second(&replies), Some(last));
    same(&rt, replies.as_slice(), [first, last].as_slice());
    same(&rt, Replies::new(rt.alloc()).is_empty(), true);
}

#[test]
fn order_is_by_row_first(rt: HostRuntime) {
    let pairs = [
        ("3,1 3,1", false),
        ("4,1 3,1", false),
        ("3,1 4,1", true),
        ("4,1 3,2", true),
        ("3,2 4,1", false),
    ];
    for (points, rises) in pairs {
        let replies = replies_of(rt.alloc(), points, &[0, 0]).expect(&rt, points);
        same(&rt, (points, replies.is_rising()), (points, rises));
    }
}

/// What the table answers to a node that wins at once.
fn push_win(table: &mut Table, alloc: Global, x: u8, y: u8) -> Result<u32, PushError> {
    table.push(Node {
        attack: at(x, y),
        replies: Replies::new(alloc),
        rest: Rest::Wins,
    })
}

/// What the table answers to a node with these replies and this rest.
fn push_node(
    table: &mut Table,
    alloc: Global,
    points: &str,
    nodes: &[u32],
    rest: Option<u32>,
) -> Option<Result<u32, PushError>> {
    let rest = match rest {
        Some(node) => Rest::To(node),
        None => Rest::Nothing,
    };
    Some(table.push(Node {
        attack: at(8, 7),
        replies: replies_of(alloc, points, nodes)?,
        rest,
    }))
}

fn refuse_in_order(rt: &(impl Abort + AllocGlobal), table: &mut Table) {
    let alloc = rt.alloc();
    let own_number = push_node(table, alloc, "", &[], Some(0));
    same(rt, own_number, Some(Err(PushError::NotBelow)));
    same(rt, push_win(table, alloc, 4, 7), Ok(0));
    same(rt, push_win(table, alloc, 9, 7), Ok(1));
    let not_rising = push_node(table, alloc, "5,5 5,5", &[1, 0], None);
    same(rt, not_rising, Some(Err(PushError::NotRising)));
    let neither = push_node(table, alloc, "5,5 5,5", &[2, 0], None);
    same(rt, neither, Some(Err(PushError::NotBelow)));
}

#[test]
fn a_table_refuses_in_order(rt: HostRuntime) {
    let mut table = Table::new(rt.alloc());
    same(&rt, table.is_empty(), true);
    refuse_in_order(&rt, &mut table);
    same(&rt, table.len(), 2);
}

/// A table of 4,7 wins, 9,7 wins and 8,7, after which 4,7 is answered by 9,7 and any other reply by 4,7.
fn three_nodes(alloc: Global) -> Option<Table> {
    let mut table = Table::new(alloc);
    push_win(&mut table, alloc, 4, 7).ok()?;
    push_win(&mut table, alloc, 9, 7).ok()?;
    push_node(&mut table, alloc, "4,7", &[1], Some(0))?.ok()?;
    Some(table)
}

/// What answers a reply after a node.
fn answer(table: &Table, node: u32, x: u8, y: u8) -> Option<u32> {
    if node < table.len() {
        table.lookup(node, at(x, y))
    } else {
        None
    }
}

/// How many moves a node takes.
fn depth(table: &Table, node: u32) -> Option<u32> {
    if node < table.len() {
        table.depth(node).ok()
    } else {
        None
    }
}

#[test]
fn a_table_answers_replies(rt: HostRuntime) {
    let table = three_nodes(rt.alloc()).expect(&rt, "a table");
    same(&rt, table.len(), 3);
    let answers = [
        answer(&table, 2, 4, 7),
        answer(&table, 2, 9, 7),
        answer(&table, 0, 9, 7),
    ];
    same(&rt, answers, [Some(1), Some(0), None]);
    same(
        &rt,
        [depth(&table, 0), depth(&table, 2)],
        [Some(1), Some(2)],
    );
}

/// A start with one answer, node 2 to 0,0.
fn one_answer(alloc: Global) -> Option<Start> {
    let replies = replies_of(alloc, "0,0", &[2])?;
    if !replies.is_rising() {
        return None;
    }
    Some(Start::new(replies, Rest::Nothing))
}

/// The number of the answers, the rest, and what answers two moves.
fn told_of_start(start: &Start) -> (usize, Rest, [Option<u32>; 2]) {
    (
        start.replies().len(),
        start.rest(),
        [start.lookup(at(0, 0)), start.lookup(at(0, 1))],
    )
}

/// How many moves a start takes, if it names nodes of the table.
pub(crate) fn start_depth(table: &Table, start: &Start) -> Option<u32> {
    if start.names_below(table.len()) {
        table.start_depth(start).ok()
    } else {
        None
    }
}

#[test]
fn a_start_answers_first_moves(rt: HostRuntime) {
    let start = one_answer(rt.alloc()).expect(&rt, "a start");
    let told = told_of_start(&start);
    same(&rt, told, (1, Rest::Nothing, [Some(2), None]));
    same(
        &rt,
        (start.names_below(3), start.names_below(2)),
        (true, false),
    );
    let table = three_nodes(rt.alloc()).expect(&rt, "a table");
    same(&rt, start_depth(&table, &start), Some(2));
}

/// How many moves a root takes.
fn root_depth(table: &Table, root: &Root) -> Option<u32> {
    if root.names_below(table.len()) {
        table.root_depth(root).ok()
    } else {
        None
    }
}

#[test]
fn a_root_is_a_node_or_a_start(rt: HostRuntime) {
    let table = three_nodes(rt.alloc()).expect(&rt, "a table");
    let root = Root::Defend(one_answer(rt.alloc()).expect(&rt, "a start"));
    let node = Root::Attack(1);
    same(
        &rt,
        (root.names_below(3), node.names_below(2)),
        (true, true),
    );
    same(&rt, Root::Attack(2).names_below(2), false);
    same(&rt, root_depth(&table, &root), Some(2));
    same(&rt, root_depth(&table, &node), Some(1));
}

/// Adds nodes, each after the one before it, as long as they get these numbers.
fn push_chain(table: &mut Table, alloc: Global) -> bool {
    for i in 1..MAX_NODES {
        let node = Node {
            attack: at(4, 7),
            replies: Replies::new(alloc),
            rest: Rest::To(i - 1),
        };
        if table.push(node) != Ok(i) {
            return false;
        }
    }
    true
}

#[test]
fn a_chain_of_the_greatest_length(rt: HostRuntime) {
    let mut table = Table::new(rt.alloc());
    same(&rt, push_win(&mut table, rt.alloc(), 4, 7), Ok(0));
    same(&rt, push_chain(&mut table, rt.alloc()), true);
    let full = push_win(&mut table, rt.alloc(), 4, 7);
    same(&rt, full, Err(PushError::Full));
    same(&rt, table.len(), 1_000_000);
    same(&rt, depth(&table, 999_999), Some(1_000_000));
}

/// A node with these replies.
fn node_of(alloc: Global, points: &str) -> Option<Node> {
    Some(Node {
        attack: at(8, 7),
        replies: replies_of(alloc, points, &[1])?,
        rest: Rest::To(0),
    })
}

fn hash_of(node: &Node) -> u64 {
    let mut state = DefaultHasher::new();
    node.hash(&mut state);
    state.finish()
}

/// Whether two nodes are equal, and whether they hash alike.
fn are_alike(node: &Node, other: &Node) -> (bool, bool) {
    (*node == *other, hash_of(node) == hash_of(other))
}

#[test]
fn equal_nodes_hash_alike(rt: HostRuntime) {
    let node = node_of(rt.alloc(), "4,7").expect(&rt, "a node");
    let same_node = node_of(rt.alloc(), "4,7").expect(&rt, "a node");
    let other = node_of(rt.alloc(), "").expect(&rt, "a node");
    same(&rt, are_alike(&node, &same_node), (true, true));
    same(&rt, are_alike(&node, &other), (false, false));
}

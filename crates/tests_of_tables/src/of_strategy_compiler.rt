//! Examples of a compiler: the table of a win by four in two moves, ties, what is left out, and a chain of a million nodes.

ghost use Rattle.std.specs.Prelude.{◌↔◌, ◌<◌, All, IsTrue};

use crate::compared::same;
use crate::of_strategy_graph::start_depth;
use std::alloc::{AllocError, Global};
use std::process::Abort;
use strategy_compiler::{CompileError, Compiler, SearchError, WrittenWin};
use strategy_graph::{MAX_NODES, Node, Replies, Reply, Rest, Start, Table};
use test_boards::at;

fn are_below(answers: &[Reply], len: u32) -> bool
    ensures below { IsTrue result ↔ All (λ r. r.next < len) answers.now }
{
    answers.iter().all(|answer| answer.next < len)
}

/// Puts the node in, where its answers rise and name nodes that are there.
fn put(compiler: &mut Compiler, x: u8, y: u8, answers: &Replies) -> Option<u32> {
    if !answers.is_rising() || !are_below(answers.as_slice(), compiler.len()) {
        return None;
    }
    compiler.node(at(x, y), answers.as_slice()).ok()
}

/// The answers of these numbers to the points of the top row, from left to right.
fn replies_by(alloc: Global, numbers: &[u32]) -> Option<Replies> {
    let mut replies = Replies::new(alloc);
    let mut x = 0u8;
    for number in numbers {
        let reply = Reply {
            at: at(x, 0),
            next: *number,
        };
        replies.push(reply).ok()?;
        x = x.wrapping_add(1);
    }
    Some(replies)
}

/// Puts in the node whose answers to the points of the top row are by these numbers.
fn put_by(alloc: Global, compiler: &mut Compiler, x: u8, y: u8, numbers: &[u32]) -> Option<u32> {
    put(compiler, x, y, &replies_by(alloc, numbers)?)
}

/// Puts in the winning node with this attack.
fn put_win(compiler: &mut Compiler, x: u8, y: u8) -> Option<u32> {
    compiler.winning(at(x, y)).ok()
}

/// Puts a node in whose one answer is this node, if it is there.
fn put_after(compiler: &mut Compiler, next: u32) -> Option<Result<u32, CompileError>> {
    if next >= compiler.len() {
        return None;
    }
    let answers = [Reply { at: at(0, 0), next }];
    Some(compiler.node(at(4, 7), &answers))
}

/// Adopts the winning node with this attack.
fn adopt_win(compiler: &mut Compiler, alloc: Global, x: u8, y: u8) -> Result<u32, CompileError> {
    compiler.adopt(Node {
        attack: at(x, y),
        replies: Replies::new(alloc),
        rest: Rest::Wins,
    })
}

/// Adopts the node that answers every reply by this node, if it is there.
fn adopt_after(compiler: &mut Compiler, alloc: Global, next: u32) -> Option<u32> {
    if next >= compiler.len() {
        return None;
    }
    let node = Node {
        attack: at(4, 7),
        replies: Replies::new(alloc),
        rest: Rest::To(next),
    };
    compiler.adopt(node).ok()
}

/// The table of what the root reaches, if it is there.
fn finished(compiler: Compiler, root: u32) -> Option<Table> {
    if root >= compiler.len() {
        return None;
    }
    compiler.finish(root).ok()
}

/// A compiler with so many winning nodes: node x has its attack on column x.
fn with_wins(alloc: Global, count: u8) -> Option<Compiler> {
    let mut compiler = Compiler::new(alloc);
    for x in 0..count {
        put_win(&mut compiler, x, 9)?;
    }
    Some(compiler)
}

/// The attacks of the nodes of the table, in order, as in `3,7 8,7 `.
fn attacks(alloc: Global, table: &Table) -> Option<String> {
    let mut text = String::new(alloc);
    for i in 0..table.len() {
        let attack = table.node(i).attack;
        let (x, y) = (attack.x, attack.y);
        write!(text, "{x},{y} ").ok()?;
    }
    Some(text)
}

/// Compares the attacks of the nodes of the table.
fn compare_attacks(rt: &(impl Abort + AllocGlobal), table: &Table, wanted: &str) {
    let told = attacks(rt.alloc(), table).expect(rt, "memory");
    same(rt, told.as_str(), wanted);
}

/// The rest of the last node, if there is one.
fn last_rest(table: &Table) -> Option<Rest> {
    let last = table.len().checked_sub(1)?;
    Some(table.node(last).rest)
}

/// The column of the attack of the node that the last node has as its rest, if it has one, and how many replies it lists.
fn rest_and_listed(table: &Table) -> Option<(u8, usize)> {
    let last = table.len().checked_sub(1)?;
    let listed = table.node(last).replies.len();
    let rest = table.node(last).rest.node()?;
    if rest >= table.len() {
        return None;
    }
    Some((table.node(rest).attack.x, listed))
}

/// An answer to each point of a board of 15 by 15: node 1 at 3,7, and else node 0.
fn replies_everywhere(alloc: Global) -> Option<Replies> {
    let mut replies = Replies::new(alloc);
    for y in 0..15 {
        for x in 0..15 {
            let next = if x == 3 && y == 7 { 1 } else { 0 };
            replies.push(Reply { at: at(x, y), next }).ok()?;
        }
    }
    Some(replies)
}

/// Puts in the wins at 3,7 and at 8,7, and node 2, which plays 4,7, answers 3,7 by the second and every other point by the first.
/// The first and the last are put in twice, and keep their numbers.
fn put_two_moves(rt: &impl Abort, compiler: &mut Compiler, answers: &Replies) {
    same(rt, put_win(compiler, 3, 7), Some(0));
    same(rt, put_win(compiler, 8, 7), Some(1));
    same(rt, put_win(compiler, 3, 7), Some(0));
    same(rt, put(compiler, 4, 7, answers), Some(2));
    same(rt, put(compiler, 4, 7, answers), Some(2));
    same(rt, compiler.len(), 3);
}

#[test]
fn compiles_a_win_in_two_moves(rt: HostRuntime) {
    let answers = replies_everywhere(rt.alloc()).expect(&rt, "replies");
    let mut compiler = Compiler::new(rt.alloc());
    put_two_moves(&rt, &mut compiler, &answers);
    let table = finished(compiler, 2).expect(&rt, "a table");
    compare_attacks(&rt, &table, "3,7 8,7 4,7 ");
    same(&rt, rest_and_listed(&table), Some((3, 1)));
}

/// The table of a node whose answers are by these numbers of winning nodes.
fn compiled_by(alloc: Global, numbers: &[u32]) -> Option<Table> {
    let mut compiler = with_wins(alloc, 3)?;
    let root = put_by(alloc, &mut compiler, 7, 7, numbers)?;
    finished(compiler, root)
}

/// Answers by these numbers, and then the column of the attack of the rest and how many replies are listed.
const RESTS: [(&[u32], (u8, usize)); 4] = [
    (&[1, 0], (1, 1)),
    (&[2, 0, 0, 2], (2, 2)),
    (&[2, 0, 1, 0, 1, 0], (0, 3)),
    (&[2, 1, 0, 1, 0, 2, 1], (1, 4)),
];

#[test]
fn the_rest_is_the_commonest_and_the_earliest_on_a_tie(rt: HostRuntime) {
    for (numbers, rest) in &RESTS {
        let table = compiled_by(rt.alloc(), numbers).expect(&rt, "a table");
        same(&rt, rest_and_listed(&table), Some(*rest));
    }
}

#[test]
fn a_node_without_answers_has_no_rest(rt: HostRuntime) {
    let table = compiled_by(rt.alloc(), &[]).expect(&rt, "a table");
    same(&rt, last_rest(&table), Some(Rest::Nothing));
}

/// Puts a node in that answers by the last of four wins, by the second and by the last again.
fn put_inner(alloc: Global, compiler: &mut Compiler) -> Option<u32> {
    put_by(alloc, compiler, 5, 5, &[3, 1, 3])
}

/// The table of a node that answers by the first of four wins, twice by the inner node, and by the second win.
fn compiled_by_inner(alloc: Global) -> Option<Table> {
    let mut compiler = with_wins(alloc, 4)?;
    let inner = put_inner(alloc, &mut compiler)?;
    let root = put_by(alloc, &mut compiler, 6, 6, &[0, inner, inner, 1])?;
    finished(compiler, root)
}

/// The rest of the root comes after its own rest and its own reply, and then the replies of the root.
#[test]
fn finish_visits_the_rest_first_and_leaves_out_what_is_not_reached(rt: HostRuntime) {
    let table = compiled_by_inner(rt.alloc()).expect(&rt, "a table");
    compare_attacks(&rt, &table, "3,9 1,9 5,5 0,9 6,6 ");
    same(&rt, rest_and_listed(&table), Some((5, 2)));
}

/// The table and the start of these answers, where they rise and name nodes that are there.
fn started(compiler: Compiler, answers: &Replies) -> Option<(Table, Start)> {
    if !answers.is_rising() || !are_below(answers.as_slice(), compiler.len()) {
        return None;
    }
    compiler.finish_start(answers.as_slice()).ok()
}

/// The table and the start of answers by the first of four wins, twice by the inner node, and by the second win.
fn started_by_inner(alloc: Global) -> Option<(Table, Start)> {
    let mut compiler = with_wins(alloc, 4)?;
    let inner = put_inner(alloc, &mut compiler)?;
    started(compiler, &replies_by(alloc, &[0, inner, inner, 1])?)
}

/// The rest of the start, and how many replies it lists.
fn in_brief(start: &Start) -> (Rest, usize) {
    (start.rest(), start.replies().len())
}

/// What answers the first three points of the top row.
fn first_answers(start: &Start) -> [Option<u32>; 3] {
    [
        start.lookup(at(0, 0)),
        start.lookup(at(1, 0)),
        start.lookup(at(2, 0)),
    ]
}

#[test]
fn a_start_has_its_answers_in_brief(rt: HostRuntime) {
    let (_table, start) = started_by_inner(rt.alloc()).expect(&rt, "a start");
    same(&rt, in_brief(&start), (Rest::To(2), 2));
    same(&rt, first_answers(&start), [Some(3), Some(2), Some(2)]);
    same(&rt, start.lookup(at(3, 0)), Some(1));
}

/// The node of the rest comes after its own rest and its own reply, and then those that are listed.
#[test]
fn the_table_of_a_start_has_what_its_answers_reach(rt: HostRuntime) {
    let (table, start) = started_by_inner(rt.alloc()).expect(&rt, "a start");
    compare_attacks(&rt, &table, "3,9 1,9 5,5 0,9 ");
    same(&rt, start_depth(&table, &start), Some(2));
}

/// The table and the start of no answers.
fn started_by_none(alloc: Global) -> Option<(Table, Start)> {
    started(with_wins(alloc, 2)?, &Replies::new(alloc))
}

#[test]
fn a_start_without_answers_has_no_nodes(rt: HostRuntime) {
    let (table, start) = started_by_none(rt.alloc()).expect(&rt, "a start");
    same(&rt, table.is_empty(), true);
    same(&rt, in_brief(&start), (Rest::Nothing, 0));
}

/// The table of a win in two moves whose node answers by the third of three wins.
fn table_of_win(alloc: Global) -> Option<Table> {
    let mut compiler = with_wins(alloc, 3)?;
    let node = put_by(alloc, &mut compiler, 5, 5, &[2])?;
    if node >= compiler.len() {
        return None;
    }
    compiler.finish_win(WrittenWin { node, moves: 2 }).ok()
}

#[test]
fn a_written_win_is_the_table_of_its_node(rt: HostRuntime) {
    let table = table_of_win(rt.alloc()).expect(&rt, "a table");
    compare_attacks(&rt, &table, "2,9 5,5 ");
}

#[test]
fn a_search_fails_as_its_compiler(rt: HostRuntime) {
    same(
        &rt,
        SearchError::from(CompileError::Full),
        SearchError::Full,
    );
    same(&rt, SearchError::from(AllocError), SearchError::Memory);
}

/// Adopts a win that is put in before, a win, and twice a node that answers every reply by the second win. Each keeps its number.
fn adopt_each(rt: &(impl Abort + AllocGlobal), compiler: &mut Compiler) {
    same(rt, put_win(compiler, 3, 7), Some(0));
    same(rt, adopt_win(compiler, rt.alloc(), 3, 7), Ok(0));
    same(rt, adopt_win(compiler, rt.alloc(), 8, 7), Ok(1));
    same(rt, adopt_after(compiler, rt.alloc(), 1), Some(2));
    same(rt, adopt_after(compiler, rt.alloc(), 1), Some(2));
}

/// Every node is handed over, also those that the last one does not reach.
#[test]
fn nodes_are_adopted_as_they_are_and_each_once(rt: HostRuntime) {
    let mut compiler = Compiler::new(rt.alloc());
    adopt_each(&rt, &mut compiler);
    let table = compiler.into_table().expect(&rt, "a table");
    compare_attacks(&rt, &table, "3,7 8,7 4,7 ");
    same(&rt, last_rest(&table), Some(Rest::To(1)));
}

/// Fills an empty compiler with one chain of nodes.
fn fill(compiler: &mut Compiler) -> Option<()> {
    let mut last = put_win(compiler, 4, 7)?;
    for _ in 1..MAX_NODES {
        last = put_after(compiler, last)?.ok()?;
    }
    Some(())
}

/// Compares what the compiler of the chain says: it finds the nodes that it has, refuses others, and stays full.
fn compare_full(rt: &(impl Abort + AllocGlobal), compiler: &mut Compiler) {
    let last = MAX_NODES - 1;
    same(rt, put_after(compiler, last - 1), Some(Ok(last)));
    let refused = put_after(compiler, last);
    same(rt, refused, Some(Err(CompileError::Full)));
    same(rt, adopt_win(compiler, rt.alloc(), 4, 7), Ok(0));
    let refused = adopt_win(compiler, rt.alloc(), 0, 0);
    same(rt, refused, Err(CompileError::Full));
    same(rt, compiler.len(), MAX_NODES);
}

/// How many nodes the table has, and how many moves the last takes, if there is one.
fn len_and_depth(table: &Table) -> Option<(u32, u32)> {
    let last = table.len().checked_sub(1)?;
    Some((table.len(), table.depth(last).ok()?))
}

#[test]
fn a_full_compiler_finds_its_nodes_refuses_others_and_is_finished(rt: HostRuntime) {
    let mut compiler = Compiler::new(rt.alloc());
    same(&rt, fill(&mut compiler), Some(()));
    same(&rt, compiler.len(), MAX_NODES);
    compare_full(&rt, &mut compiler);
    let table = finished(compiler, MAX_NODES - 1).expect(&rt, "a table");
    same(&rt, len_and_depth(&table), Some((MAX_NODES, MAX_NODES)));
}

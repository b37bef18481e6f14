//! What keys and tables of positions answer on small examples.

use crate::compared::same;
use position_table::{LateTable, PackedPosition, WholeTable};
use std::alloc::Global;
use std::process::Abort;
use stone_board::Board;
use test_boards::{empty_board, sized_board};

/// A board: its width and its height, and the stones of Black and of White.
type Setting = (u8, u8, &'static str, &'static str);

/// The key of such a board.
fn key_of(alloc: Global, setting: &Setting) -> Option<PackedPosition> {
    let (width, height, black, white) = *setting;
    let board = sized_board(alloc, width, height, black, white)?;
    Some(PackedPosition::of(&board))
}

/// Whether two boards have one key.
fn are_alike(alloc: Global, first: &Setting, second: &Setting) -> Option<bool> {
    Some(key_of(alloc, first)? == key_of(alloc, second)?)
}

/// Two boards, and whether they have one key.
const PAIRS: [(Setting, Setting, bool); 5] = [
    ((7, 9, "6,8", ""), (7, 9, "6,8", ""), true),
    ((7, 9, "6,8", ""), (7, 9, "", "6,8"), false),
    ((7, 9, "6,8", ""), (7, 9, "5,8", ""), false),
    ((7, 9, "", ""), (9, 7, "", ""), false),
    ((32, 32, "", ""), (7, 9, "", ""), false),
];

#[test]
fn keys_tell_stones_and_sizes_apart(rt: HostRuntime) {
    for (first, second, alike) in &PAIRS {
        let told = are_alike(rt.alloc(), first, second);
        same(&rt, told, Some(*alike));
    }
}

/// What is done to a table: a value is kept under a key and a tag, or what is found there is compared.
#[derive(Clone, Copy)]
enum Step {
    Keep(usize, u32, u64),
    Find(usize, u32, Option<u64>),
}

/// The keys of three boards.
fn three_keys(alloc: Global) -> Option<[PackedPosition; 3]> {
    Some([
        key_of(alloc, &(7, 9, "0,0", ""))?,
        key_of(alloc, &(7, 9, "", "0,0"))?,
        key_of(alloc, &(7, 9, "1,0", ""))?,
    ])
}

/// Takes a step, and compares what is found.
fn take(rt: &impl Abort, table: &mut WholeTable<u64>, keys: &[PackedPosition; 3], step: Step) {
    match step {
        Step::Keep(key, tag, value) => {
            assert!(rt; key < 3);
            table.keep(keys[key], tag, value).expect(rt, "memory");
        }
        Step::Find(key, tag, wanted) => {
            assert!(rt; key < 3);
            same(rt, table.find(&keys[key], tag), wanted);
        }
    }
}

/// Takes each step with a table of two entries.
fn take_each(rt: &(impl Abort + AllocGlobal), steps: &[Step]) {
    let keys = three_keys(rt.alloc()).expect(rt, "keys");
    let mut table: WholeTable<u64> = WholeTable::new(rt.alloc(), 2).expect(rt, "a table");
    for step in steps {
        take(rt, &mut table, &keys, *step);
    }
}

/// The third value takes the place of the second, which was not asked for.
const THREE_KEYS: [Step; 7] = [
    Step::Keep(0, 1, 10),
    Step::Keep(1, 1, 20),
    Step::Find(0, 1, Some(10)),
    Step::Keep(2, 1, 30),
    Step::Find(1, 1, None),
    Step::Find(0, 1, Some(10)),
    Step::Find(0, 2, None),
];

#[test]
fn the_longest_unused_entry_goes(rt: HostRuntime) {
    take_each(&rt, &THREE_KEYS);
}

/// The third value is of the first one's key and tag.
const ONE_KEY: [Step; 6] = [
    Step::Keep(0, 1, 10),
    Step::Keep(0, 2, 20),
    Step::Keep(0, 1, 11),
    Step::Find(1, 1, None),
    Step::Find(0, 1, Some(11)),
    Step::Find(0, 2, Some(20)),
];

#[test]
fn a_value_takes_the_place_of_the_one_before(rt: HostRuntime) {
    take_each(&rt, &ONE_KEY);
}

/// Keeps values of the board under these tags.
fn keep_each(rt: &impl Abort, table: &mut LateTable, board: &Board, values: &[(u32, u64)]) {
    for (tag, value) in values {
        table.keep(board, *tag, *value).expect(rt, "memory");
    }
}

/// Two large values have to pass before one is kept, and small ones pass always.
fn compare_late(rt: &impl Abort, table: &mut LateTable, board: &Board) {
    keep_each(rt, table, board, &[(1, 64), (2, 63), (3, 65)]);
    same(rt, table.find(board, 1), None);
    same(rt, table.find(board, 3), None);
    keep_each(rt, table, board, &[(4, 64), (5, 63)]);
    same(rt, table.find(board, 4), Some(64));
    same(rt, table.find(board, 5), None);
}

#[test]
fn large_values_are_kept_once_some_have_passed(rt: HostRuntime) {
    let board = empty_board(rt.alloc(), 7, 9).expect(&rt, "a board");
    let mut table = LateTable::new(rt.alloc(), 2, 64, 2);
    compare_late(&rt, &mut table, &board);
}

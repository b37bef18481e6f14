//! The callers that `docs/CALLING.md` names, each run on a small example.

use crate::compared::same;
use board_symmetry::Symmetry;
use calling::{
    TWO_ENTRIES, accepted_book, fewest_by_fours, has_sequence, image_that_wins, may_play,
    moves_by_threats, moves_that_hold, moves_to_win, number_again, won_at, written_again,
};
use foul_judge::Position;
use position_files::{FileError, read_table};
use row_shapes::{Freestyle, Renju};
use std::alloc::Global;
use std::process::Abort;
use stone_board::{Board, Point, Side};
use table_book::MAX_BOOK_WORK;
use test_boards::{at, board_of, empty_board, points_of, position_of, sized_board};

/// Whether Black may play on a point, where it is empty.
fn allowed(board: &mut Board, p: Point) -> Option<bool> {
    if !board.is_empty(p) {
        return None;
    }
    Some(may_play(board, p))
}

#[test]
fn one_four_is_allowed_and_two_are_not(rt: HostRuntime) {
    let mut board = board_of(rt.alloc(), "2,7 4,7 6,7 8,7", "").expect(&rt, "a board");
    same(&rt, allowed(&mut board, at(3, 7)), Some(true));
    same(&rt, allowed(&mut board, at(5, 7)), Some(false));
}

/// A table of a win in two moves, by a straight four.
const TWO_MOVES: &[u8] =
    b"renju-table 1\nrule freestyle\nsize 15\nblack 5,7 6,7 7,7\nwhite 0,0 2,0 4,0\nmoves 2\nnodes 3\n3,7 wins\n8,7 wins\n4,7 rest 0 3,7>1\n";

/// Within how many moves the side to move wins by node 2 of the table of a text.
fn wins_by_table(alloc: Global, text: &[u8], work: u64) -> Option<Option<u32>> {
    let file = read_table(alloc, text).ok()?;
    let mut position = Position::<Freestyle>::from_board(file.board).ok()?;
    if file.table.len() <= 2 {
        return None;
    }
    moves_to_win(alloc, &file.table, 2, &mut position, work).ok()
}

#[test]
fn a_straight_four_wins_in_two_moves(rt: HostRuntime) {
    let told = wins_by_table(rt.alloc(), TWO_MOVES, 219);
    same(&rt, told, Some(Some(2)));
    let told = wins_by_table(rt.alloc(), TWO_MOVES, 218);
    same(&rt, told, Some(None));
}

#[test]
fn an_open_three_wins_in_two_moves(rt: HostRuntime) {
    let position = position_of::<Freestyle>(rt.alloc(), "5,7 6,7 7,7", "0,0 2,0 4,0");
    let mut position = position.expect(&rt, "a position");
    for (depth, moves) in &[(5, Some(2)), (2, Some(2)), (1, None)] {
        let told = fewest_by_fours(rt.alloc(), &mut position, *depth, 100).ok();
        same(&rt, told, Some(*moves));
    }
}

#[test]
fn white_has_a_double_three(rt: HostRuntime) {
    let board = board_of(rt.alloc(), "", "7,6 6,7 8,7 7,8");
    let mut board = board.expect(&rt, "a board");
    for (side, lists, has) in &[
        (Side::White, 12, Some(true)),
        (Side::White, 11, None),
        (Side::Black, 1, Some(false)),
    ] {
        let told = has_sequence(rt.alloc(), &mut board, *side, 1, *lists).ok();
        same(&rt, told, Some(*has));
    }
}

#[test]
fn two_threes_win_in_three_moves(rt: HostRuntime) {
    let white = "0,0 14,0 0,14 14,14";
    let position = position_of::<Freestyle>(rt.alloc(), "7,6 6,7 8,7 7,8", white);
    let mut position = position.expect(&rt, "a position");
    for (depth, moves) in &[(3, Some(3)), (2, None)] {
        let told = moves_by_threats(rt.alloc(), &mut position, *depth, 50_000).ok();
        same(&rt, told, Some(*moves));
    }
}

#[test]
fn a_text_is_the_one_of_its_position(rt: HostRuntime) {
    let text = b"renju-position 1\nrule renju\nsize 9,5\nblack 0,2 1,2\nwhite 0,0\n";
    let again = written_again(rt.alloc(), text).expect(&rt, "a text");
    same(&rt, again.as_slice(), text.as_slice());
    let other = b"renju-position 1\nrule renju\nsize 9,5\nblack 1,2 0,2\nwhite 0,0\n";
    let refused = written_again(rt.alloc(), other).err();
    same(&rt, refused, Some(FileError::BadLine(4)));
}

/// Whether Black stands on the point in the image of a board that a quarter of a turn fits.
fn turned_holds(alloc: Global, board: &Board, p: Point) -> Option<Option<bool>> {
    let image = image_that_wins(alloc, Symmetry::Quarter, board).ok()?;
    Some(image.map(|image| image.holds(Side::Black, p)))
}

#[test]
fn a_quarter_of_a_turn_wants_a_square(rt: HostRuntime) {
    let board = sized_board(rt.alloc(), 9, 9, "0,0", "").expect(&rt, "a board");
    let told = turned_holds(rt.alloc(), &board, at(8, 0));
    same(&rt, told, Some(Some(true)));
    let long = empty_board(rt.alloc(), 9, 5).expect(&rt, "a board");
    let told = turned_holds(rt.alloc(), &long, at(8, 0));
    same(&rt, told, Some(None));
    let half = image_that_wins(rt.alloc(), Symmetry::Half, &long);
    same(&rt, half.is_ok_and(|image| image.is_some()), true);
}

/// How many moves hold within two moves of the other side.
fn moves_against_two(
    alloc: Global,
    position: &mut Position<Freestyle>,
    budget: u64,
) -> Option<Option<usize>> {
    if budget < 1 {
        return None;
    }
    let moves = moves_that_hold(alloc, position, 2, budget).ok()?;
    Some(moves.map(|moves| moves.len()))
}

#[test]
fn an_open_three_leaves_four_moves(rt: HostRuntime) {
    let position = position_of(rt.alloc(), "5,7 6,7 7,7 14,14", "0,0 2,0 4,0");
    let mut position = position.expect(&rt, "a position");
    let told = moves_against_two(rt.alloc(), &mut position, 4);
    same(&rt, told, Some(Some(4)));
    let told = moves_against_two(rt.alloc(), &mut position, 3);
    same(&rt, told, Some(None));
}

/// How many entries the book of the text has, if each is accepted with so many arrivals at most.
fn entries_accepted(alloc: Global, text: &str, work: u64) -> Option<Option<usize>> {
    if work > MAX_BOOK_WORK {
        return None;
    }
    let book = accepted_book(alloc, text.as_bytes(), work).ok()?;
    Some(book.map(|book| book.entries.len()))
}

#[test]
fn both_entries_of_a_book_are_accepted(rt: HostRuntime) {
    let told = entries_accepted(rt.alloc(), TWO_ENTRIES, 219);
    same(&rt, told, Some(Some(2)));
    let told = entries_accepted(rt.alloc(), TWO_ENTRIES, 218);
    same(&rt, told, Some(None));
}

/// The number of the move by which the side wins the game of these moves from the empty board.
fn won_game(rt: &(impl Abort + AllocGlobal), side: Side, moves: &str) -> Option<u32> {
    let position = position_of::<Renju>(rt.alloc(), "", "");
    let moves = points_of(rt.alloc(), moves).expect(rt, "moves");
    won_at(
        &mut position.expect(rt, "a position"),
        side,
        moves.as_slice(),
    )
}

#[test]
fn a_row_of_five_wins_a_game(rt: HostRuntime) {
    let open = "3,7 0,0 4,7 2,0 5,7 4,0 6,7 6,0";
    same(&rt, won_game(&rt, Side::Black, open), None);
    let won = "3,7 0,0 4,7 2,0 5,7 4,0 6,7 6,0 7,7";
    same(&rt, won_game(&rt, Side::Black, won), Some(9));
    same(&rt, won_game(&rt, Side::White, won), None);
}

/// Whether a text that spells a number comes again.
fn comes_again(alloc: Global, text: &str) -> Option<Option<bool>> {
    let again = number_again(alloc, text.as_bytes()).ok()?;
    Some(again.map(|again| again.as_str() == text))
}

#[test]
fn a_number_has_one_spelling(rt: HostRuntime) {
    same(&rt, comes_again(rt.alloc(), "1000"), Some(Some(true)));
    for other in &["", "1001", "010", "+1", "1 "] {
        same(&rt, comes_again(rt.alloc(), other), Some(None));
    }
}

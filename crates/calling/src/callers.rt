//! Callers of crates that one may want alone: the judge of fouls, the checker of tables, the searches for wins by fours, for
//! sequences of threats and for wins by threats, the readers and writers of texts, the images of boards, the moves that hold against
//! fours, books, the referee, lines and numbers.
//!
//! Each caller is proved from the public contracts of what it calls. `docs/CALLING.md` names them, and the test that runs each.
#![tactic(auto)]

ghost use Rattle.std.specs.Prelude.{◌≡◌, ◌↔◌, ◌≤◌, ◌<◌, [], ℕ, length, is_none, is_some, IsTrue, IfOk, IfSome, string_bytes};
ghost use Rattle.std.specs.List.{AllByRecursion};
ghost use Rattle.game_rules.specs.declared.RuleKind.{RuleKind};
ghost use Rattle.game_rules.specs.Grid.{is_empty};
ghost use Rattle.game_rules.specs.Play.{foul_of};
ghost use Rattle.game_rules.specs.Games.{WinsAfter, WinsWithin};
ghost use Rattle.four_search.specs.Answers.{IsFewestByFours};
ghost use Rattle.four_search.specs.declared.TheConstants.{MAX_DEPTH as MAX_FOUR_DEPTH};
ghost use Rattle.threat_space.specs.Sequences.{first_sequence};
ghost use Rattle.proof_number.specs.declared.TheConstants.{MAX_BUDGET, MAX_DEPTH};
ghost use Rattle.defence_finder.specs.Defences.{defences_of};
ghost use Rattle.table_book.specs.Books.{IsTextOfBook};
ghost use Rattle.table_book.specs.Holding.{IsAccepted};
ghost use Rattle.game_referee.specs.Verdicts.{verdict};
ghost use Rattle.game_referee.specs.declared.GameVerdict.TheVariants.{Won};

use board_symmetry::{Symmetry, image_board, images_keep_wins};
use defence_finder::{DefenceAnswer, defences, no_defence_loses};
use foul_judge::{Position, foul_at};
use four_search::{FourAnswer, four_search};
use game_referee::{GameVerdict, judge};
use game_rules::{Point, Side};
use position_files::{FileError, read_position, write_position};
use proof_number::{MAX_BUDGET, MAX_DEPTH, ProofAnswer, SearchError, proof_number};
use proof_tree::ProofTree;
use row_shapes::{Renju, Rule};
use std::alloc::{AllocError, Global};
use stone_board::{Board, Points};
use strategy_checker::{Verdict, check};
use strategy_compiler::Compiler;
use strategy_graph::Table;
use table_book::{Book, BookError, HoldError, MAX_BOOK_WORK, check_book, read_book};
use text_lines::{number, push_number};
use threat_space::{MAX_LENGTH, SpaceAnswer, threat_space};

/// Whether Black may play on an empty point of the board under renju.
pub fn may_play(board: &mut Board, p: Point) -> bool
    requires empty { IsTrue (is_empty board.old p) }
    ensures allowed { result ≡ is_none (foul_of RuleKind.Renju board.old Side.Black p) }
    ensures same { board.new ≡ board.old }
{
    foul_at::<Renju>(board, p).is_none()
}

/// Within how many moves the side to move wins, if the checker accepts this node of the table with so many arrivals.
pub fn moves_to_win<R: Rule>(
    alloc: Global,
    table: &Table,
    root: u32,
    position: &mut Position<R>,
    work: u64,
) -> Result<Option<u32>, AllocError>
    requires in_table { root < length table.now }
    ensures wins { IfOk result (λ found. IfSome found (λ moves. WinsWithin R.KIND moves position.old)) }
    ensures same { position.new ≡ position.old }
{
    match check(alloc, table, root, position, work)? {
        Verdict::Accepted { moves, arrivals: _ } => Ok(Some(moves)),
        Verdict::Refused { line: _, why: _ } => Ok(None),
        Verdict::Spent => Ok(None),
    }
}

/// The fewest moves within which the side to move wins by continuous fours, if a search with so many positions to look at finds a
/// win within so many moves.
pub fn fewest_by_fours<R: Rule>(
    alloc: Global,
    position: &mut Position<R>,
    depth: u32,
    budget: u64,
) -> Result<Option<u32>, SearchError>
    requires some_depth { 1 ≤ depth }
    requires depth_fits { depth ≤ MAX_FOUR_DEPTH }
    requires some_budget { 1 ≤ budget }
    ensures fewest { IfOk result (λ found. IfSome found (λ moves. IsFewestByFours R.KIND moves position.old)) }
    ensures same { position.new ≡ position.old }
{
    let mut compiler = Compiler::new(alloc);
    let found = four_search::<R, Position<R>>(alloc, position, depth, budget, &mut compiler)?;
    Ok(match found {
        FourAnswer::Win(win) => Some(win.moves),
        FourAnswer::None | FourAnswer::Spent => None,
    })
}

/// Whether the side has a sequence of at most so many threats under renju, where so many lists of them are enough to tell.
pub fn has_sequence(
    alloc: Global,
    board: &mut Board,
    side: Side,
    length: u32,
    lists: u64,
) -> Result<Option<bool>, AllocError>
    requires some_length { 1 ≤ length }
    requires length_fits { length ≤ MAX_LENGTH }
    requires some_lists { 1 ≤ lists }
    ensures told { IfOk result (λ told. IfSome told (λ has. has ≡ is_some (first_sequence RuleKind.Renju side length board.old))) }
    ensures same { board.new ≡ board.old }
{
    match threat_space::<Renju>(alloc, board, side, length, lists)? {
        SpaceAnswer::Sequence(_, _) => Ok(Some(true)),
        SpaceAnswer::None => Ok(Some(false)),
        SpaceAnswer::Spent => Ok(None),
    }
}

/// Within how many moves the side to move wins whatever the replies, if a search by threats finds a win within so many moves, with
/// so many positions to look at.
pub fn moves_by_threats<R: Rule>(
    alloc: Global,
    position: &mut Position<R>,
    depth: u32,
    budget: u64,
) -> Result<Option<u32>, SearchError>
    requires some_depth { 1 ≤ depth }
    requires depth_fits { depth ≤ MAX_DEPTH }
    requires some_budget { 1 ≤ budget }
    requires budget_fits { budget ≤ MAX_BUDGET }
    ensures wins { IfOk result (λ found. IfSome found (λ moves. WinsWithin R.KIND moves position.old)) }
    ensures same { position.new ≡ position.old }
{
    let mut tree = ProofTree::new(alloc)?;
    let mut compiler = Compiler::new(alloc);
    let found = proof_number::<R, Position<R>>(
        alloc,
        position,
        depth,
        budget,
        &mut tree,
        &mut compiler,
    )?;
    Ok(match found {
        ProofAnswer::Win(win) => Some(win.moves),
        ProofAnswer::None | ProofAnswer::Spent => None,
    })
}

/// The bytes once more, if they are the text of a lawful position: each position has one text.
pub fn written_again(alloc: Global, bytes: &[u8]) -> Result<Vec<u8>, FileError>
    ensures same { IfOk result (λ text. text.items ≡ bytes.now) }
{
    let file = read_position(alloc, bytes)?;
    let text = write_position(alloc, file.kind, &file.board)?;
    Ok(text)
}

/// The image of the board, if the symmetry fits it: it is won where the board is, within as many moves.
pub fn image_that_wins(
    alloc: Global,
    s: Symmetry,
    board: &Board,
) -> Result<Option<Board>, AllocError>
    ensures wins { IfOk result (λ found. IfSome found (λ image.
        (rule : RuleKind) (n : ℕ) → WinsWithin rule n image ↔ WinsWithin rule n board.now)) }
{
    if !s.fits(board.width(), board.height()) {
        return Ok(None);
    }
    images_keep_wins();
    Ok(Some(image_board(alloc, s, board)?))
}

/// The moves that hold against continuous fours of the other side within so many moves, if so many positions after each move are
/// enough to tell. Where no move holds, the other side wins whatever is played.
pub fn moves_that_hold<R: Rule>(
    alloc: Global,
    position: &mut Position<R>,
    depth: u32,
    budget: u64,
) -> Result<Option<Points>, SearchError>
    requires some_depth { 1 ≤ depth }
    requires depth_fits { depth ≤ MAX_DEPTH }
    requires some_budget { 1 ≤ budget }
    ensures moves { IfOk result (λ found. IfSome found (λ moves. moves ≡ defences_of R.KIND depth position.old)) }
    ensures lost { IfOk result (λ found. IfSome found (λ moves. moves ≡ [] → WinsAfter R.KIND depth position.old)) }
    ensures same { position.new ≡ position.old }
{
    no_defence_loses();
    let mut compiler = Compiler::new(alloc);
    match defences::<R, Position<R>>(alloc, position, depth, budget, &mut compiler)? {
        DefenceAnswer::Known { good, bad: _ } => Ok(Some(good)),
        DefenceAnswer::Spent { at: _ } => Ok(None),
    }
}

/// The book that the bytes are the text of, if each of its entries is accepted with so many arrivals at most.
pub fn accepted_book(alloc: Global, bytes: &[u8], work: u64) -> Result<Option<Book>, BookError>
    requires work_fits { work ≤ MAX_BOOK_WORK }
    ensures book { IfOk result (λ found. IfSome found (λ book. IsTextOfBook book bytes.now)) }
    ensures accepted { IfOk result (λ found. IfSome found (λ book.
        AllByRecursion (IsAccepted book.table work) book.entries)) }
{
    let book = read_book(alloc, bytes)?;
    match check_book(alloc, &book, work) {
        Ok(_) => Ok(Some(book)),
        Err(HoldError::Memory) => Err(BookError::Memory),
        Err(_) => Ok(None),
    }
}

/// A book of two entries that share two nodes: a win in two moves, and one that begins with the opponent's move.
pub const TWO_ENTRIES: &str =
    "renju-book 1\nnodes 3\n3,7 wins\n8,7 wins\n4,7 rest 0 3,7>1\nentries 2\nrule freestyle\nsize 15\nblack 5,7 6,7 7,7\nwhite 0,0 2,0 4,0\nmoves 2\nroot 2\nrule freestyle\nsize 15\nblack 4,7 5,7 6,7 7,7\nwhite 0,0 2,0 4,0\nmoves 1\nstart rest 1 8,7>0\n";

/// The number of the move by which the side won the game of these moves, if it won by the last of them.
pub fn won_at<R: Rule>(position: &mut Position<R>, side: Side, moves: &[Point]) -> Option<u32>
    ensures won { IfSome result (λ number. verdict R.KIND position.old moves.now ≡ Won side number) }
    ensures same { position.new ≡ position.old }
{
    match judge(position, moves) {
        GameVerdict::Won(winner, number) if winner == side => Some(number),
        _ => None,
    }
}

/// The bytes once more, if they are the decimal digits of a number up to 1,000: each number is spelled in one way.
pub fn number_again(alloc: Global, bytes: &[u8]) -> Result<Option<String>, AllocError>
    ensures same { IfOk result (λ found. IfSome found (λ text. string_bytes text ≡ bytes.now)) }
{
    let Some(found) = number(bytes, 1_000) else {
        return Ok(None);
    };
    let mut text = String::new(alloc);
    push_number(&mut text, found)?;
    Ok(Some(text))
}

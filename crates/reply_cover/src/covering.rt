//! The cover of a position by parts.
//!
//! One walk over the replies finds the first that no part answers. Where there is none, a second one finds for each part whether it
//! answers a reply.
#![tactic(auto)]

ghost use Rattle.std.specs.Prelude.{◌≡◌, ◌≤◌, length};
ghost use Rattle.std.specs.List.{count_by, find, list_any};
ghost use Rattle.game_rules.specs.Grid.{points_of};
ghost use Rattle.game_rules.specs.Play.{goes_on, outcome};
ghost use Rattle.reply_cover.specs.Covers.{answers as answers_lem, cover_of, covers as covers_lem, is_open as is_open_lem};
ghost use Rattle.reply_cover.specs.Covers.{is_used as is_used_lem, most_moves, used_parts};

use crate::images::is_turned;
use crate::{Cover, MAX_PARTS, Part};
use foul_judge::{Outcome, Position, Seen};
use game_rules::RuleKind;
use row_shapes::Rule;
use stone_board::{Board, Point};

/// The parts that answer a reply: how many there are, and the most moves of one.
#[derive(Clone, Copy)]
struct Tally {
    parts: u32,
    moves: u32,
}

/// Whether the parts cover each reply of the side to move that goes on, and no reply wins or draws; else the first reply of which
/// that is not so. The position is the same afterwards.
#[tactic(auto, unfolding(crate::specs::Covers::cover_of))]
pub fn cover_by<R: Rule>(position: &mut Position<R>, parts: &[Part]) -> Cover
    requires few { length parts.now ≤ MAX_PARTS }
    ensures cover { result ≡ cover_of R.KIND parts.now position.old }
    ensures same { position.new ≡ position.old }
{
    match first_open(position, parts) {
        Some(at) => Cover::Open(at),
        None => {
            let tally = count_used(position, parts);
            Cover::Covered {
                moves: tally.moves,
                replies: count_replies(position),
                parts: tally.parts,
            }
        }
    }
}

/// The first reply that no part answers.
fn first_open<R: Rule>(position: &mut Position<R>, parts: &[Part]) -> Option<Point>
    ensures first { result ≡ find (is_open_lem R.KIND parts.now position.old) (points_of position.old) }
    ensures same { position.new ≡ position.old }
{
    for q in position.board().points() {
        if is_open(position, parts, q) {
            return Some(q);
        }
    }
    None
}

/// Whether the reply wins or draws, or goes on and no part answers it.
fn is_open<R: Rule>(position: &mut Position<R>, parts: &[Part], q: Point) -> bool
    ensures open { result ≡ is_open_lem R.KIND parts.now position.old q }
    ensures same { position.new ≡ position.old }
{
    match position.outcome(q) {
        Outcome::Refused | Outcome::Fouls(_) => false,
        Outcome::Wins | Outcome::Draws => true,
        Outcome::GoesOn => !some_answers(position, parts, q),
    }
}

/// Whether one of the parts answers the reply.
fn some_answers<R: Rule>(position: &mut Position<R>, parts: &[Part], q: Point) -> bool
    ensures answers { result ≡ list_any (answers_lem R.KIND position.old q) parts.now }
    ensures same { position.new ≡ position.old }
{
    for part in parts {
        if answers(position, part, q) {
            return true;
        }
    }
    false
}

/// Whether the reply goes on, and the part covers the board after it.
fn answers<R: Rule>(position: &mut Position<R>, part: &Part, q: Point) -> bool
    ensures answers { result ≡ answers_lem R.KIND position.old q part.now }
    ensures same { position.new ≡ position.old }
{
    match position.outcome(q) {
        Outcome::GoesOn => {
            position.play(q);
            let covered = covers(R::KIND, position.board(), part);
            position.undo(q);
            covered
        }
        _ => false,
    }
}

/// Whether the part is of this rule, and its board is an image of the board.
#[tactic(auto, unfolding(crate::specs::Covers::covers))]
fn covers(kind: RuleKind, board: &Board, part: &Part) -> bool
    ensures covers { result ≡ covers_lem kind board.now part.now }
{
    part.kind == kind && is_turned(board, &part.board)
}

/// The parts that answer a reply, counted.
fn count_used<R: Rule>(position: &mut Position<R>, parts: &[Part]) -> Tally
    requires few { length parts.now ≤ MAX_PARTS }
    ensures parts { result.parts ≡ length (used_parts R.KIND parts.now position.old) }
    ensures moves { result.moves ≡ most_moves (used_parts R.KIND parts.now position.old) }
    ensures same { position.new ≡ position.old }
{
    let mut tally = Tally { parts: 0, moves: 0 };
    for part in parts {
        if is_used(position, part) {
            tally.parts += 1;
            tally.moves = tally.moves.max(part.moves);
        }
    }
    tally
}

/// Whether the part answers some reply.
#[tactic(auto, unfolding(crate::specs::Covers::is_used))]
fn is_used<R: Rule>(position: &mut Position<R>, part: &Part) -> bool
    ensures used { result ≡ is_used_lem R.KIND position.old part.now }
    ensures same { position.new ≡ position.old }
{
    for q in position.board().points() {
        if answers(position, part, q) {
            return true;
        }
    }
    false
}

/// How many replies go on.
fn count_replies<R: Rule>(position: &mut Position<R>) -> u32
    ensures replies { result ≡ count_by (λ q. goes_on (outcome R.KIND position.old q)) (points_of position.old) }
    ensures same { position.new ≡ position.old }
{
    let mut replies = 0;
    for q in position.board().points() {
        if let Outcome::GoesOn = position.outcome(q) {
            replies += 1;
        }
    }
    replies
}

//! What the parts are to the position of the input, after an attack of the side to move or at once.
#![tactic(auto)]

ghost use Rattle.std.specs.Prelude.{◌≡◌, ◌≤◌, ℕ, List, length, map, IfOk, string_bytes};
ghost use Rattle.game_rules.specs.Play.{outcome};
ghost use Rattle.reply_cover.specs.declared.TheConstants.{MAX_PARTS};
ghost use Rattle.command_base.specs.Statuses.{status_number};
ghost use Rattle.command_base.specs.Runs.{KeepsDevices, change, program_run};
ghost use Rattle.cover_command.specs.PartFiles.{ArePartNames};
ghost use Rattle.cover_command.specs.Covers.{AttackSays, IsCoverRun, IsToldCover, cover_line, no_table_line};

use crate::parts::Parts;
use command_base::{Answer, AtPosition, OfPosition, Status, deliver, tell};
use file_loading::load_files;
use foul_judge::{Outcome, Position, Seen};
use game_referee::{judge, write_verdict};
use renju_io::{Shelf, Sink, Source};
use reply_cover::{Cover, Part, cover_by};
use row_shapes::Rule;
use std::alloc::{AllocError, Global};
use stone_board::Point;
use text_lines::push_point;

/// `cover WORK ATTACK FILE ..`: the most arrivals of each file, the attack or none, and the names.
#[derive(Clone, Copy)]
pub struct Covering<'a> {
    /// The most arrivals of the table of a file.
    pub work: u64,
    /// The attack of the side to move, or none at a start, where the other side claims the win.
    pub attack: Option<Point>,
    /// The names of the files.
    pub names: &'a [String],
}

/// `cover`, once the tables of the files are accepted.
#[derive(Drop)]
struct CoverBy<'a> {
    attack: Option<Point>,
    parts: &'a [Part],
}

impl<'a> AtPosition for CoverBy<'a> {
    ghost use Rattle.std.specs.Prelude.{◌≤◌, length};
    ghost use Rattle.reply_cover.specs.declared.TheConstants.{MAX_PARTS};
    ghost use Rattle.cover_command.specs.Covers.{CoverSays};

    ghost in_range = { λ c. length c.parts.now ≤ MAX_PARTS };

    ghost says = { λ c. CoverSays c.attack c.parts.now };

    fn say_at<R: Rule>(&self, alloc: Global, position: Position<R>) -> Result<Answer, AllocError> {
        let mut position = position;
        match self.attack {
            None => tell_cover(alloc, cover_by(&mut position, self.parts), 0),
            Some(at) => say_after(alloc, position, at, self.parts),
        }
    }
}

/// `cover`: says what the tables of the files are to the position of the input, once each is accepted, and else writes why the
/// earliest that is not is none.
#[inline(never)]
pub fn cover_with<I: Source, O: Sink, F: Shelf>(
    alloc: Global,
    covering: &Covering,
    input: &mut I,
    output: &mut O,
    shelf: &mut F,
) -> Status
    requires names { ArePartNames (map string_bytes covering.now.names.now) }
    ensures covers { (words : List (List ℕ)) → IsCoverRun covering.now.work covering.now.attack (map string_bytes covering.now.names.now)
        (program_run words (change I.left I.faults I.asked input.old input.new) (change O.written O.faults O.asked output.old output.new)
        (change F.files F.faults F.asked shelf.old shelf.new) (I.last input.new) (status_number result)) }
    ensures devices { (words : List (List ℕ)) → KeepsDevices
        (program_run words (change I.left I.faults I.asked input.old input.new) (change O.written O.faults O.asked output.old output.new)
        (change F.files F.faults F.asked shelf.old shelf.new) (I.last input.new) (status_number result)) }
{
    let mut parts = Parts::new(alloc);
    match load_files(alloc, covering.names, covering.work, &mut parts, shelf) {
        Ok(None) => {
            let command = OfPosition(CoverBy {
                attack: covering.attack,
                parts: parts.items.as_slice(),
            });
            tell(alloc, &command, input, output)
        }
        Ok(Some(answer)) => deliver(answer.status, answer.text.as_slice(), output),
        Err(_) => Status::Memory,
    }
}

/// What is said of the position by its attack: the cover after it, or the verdict on the game of it alone.
fn say_after<R: Rule>(
    alloc: Global,
    position: Position<R>,
    at: Point,
    parts: &[Part],
) -> Result<Answer, AllocError>
    requires few { length parts.now ≤ MAX_PARTS }
    ensures says { IfOk result (λ answer. AttackSays R.KIND parts.now position at (outcome R.KIND position at) answer.status answer.text) }
{
    let mut position = position;
    match position.outcome(at) {
        Outcome::Wins => Ok(Answer::told(Status::Done, covered(alloc, 1, 0, 0)?)),
        Outcome::GoesOn => {
            position.play(at);
            tell_cover(alloc, cover_by(&mut position, parts), 1)
        }
        _ => {
            let verdict = judge(&mut position, &[at]);
            Ok(Answer::written(Status::NotFound, write_verdict(alloc, &verdict)?))
        }
    }
}

/// What is told of a cover, before which the side that wins has so many moves.
fn tell_cover(alloc: Global, cover: Cover, before: u32) -> Result<Answer, AllocError>
    ensures told { IfOk result (λ answer. IsToldCover before cover answer.status answer.text) }
{
    match cover {
        Cover::Covered {
            moves,
            replies,
            parts,
        } => {
            let line = covered(alloc, u64::from(moves) + u64::from(before), replies, parts)?;
            Ok(Answer::told(Status::Done, line))
        }
        Cover::Open(at) => Ok(Answer::told(Status::NotFound, no_table(alloc, at)?)),
    }
}

/// The line of a cover.
fn covered(alloc: Global, moves: u64, replies: u32, parts: u32) -> Result<String, AllocError>
    ensures line { IfOk result (λ text. string_bytes text ≡ cover_line moves replies parts) }
{
    format!(in alloc; "covered in {moves} moves, {replies} replies by {parts} tables\n")
}

/// The line of a reply that no table covers.
fn no_table(alloc: Global, at: Point) -> Result<String, AllocError>
    ensures line { IfOk result (λ text. string_bytes text ≡ no_table_line at) }
{
    let mut text = String::from_str(alloc, "no table ")?;
    push_point(&mut text, at)?;
    text.push_str("\n")?;
    Ok(text)
}

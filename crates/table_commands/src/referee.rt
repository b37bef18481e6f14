//! The command `referee`: how a game ended, and whether it was played by a table.
//!
//! The game is read and judged. With FILE, its table is loaded, read and checked before that, as `brain FILE` does, and the
//! game is asked only once the table is accepted.
#![tactic(auto)]

ghost use Rattle.std.specs.Prelude.{◌≡◌, ◌<◌, ℕ, List, length, IfOk, IsOk};
ghost use Rattle.game_rules.specs.Play.{IsPosition};
ghost use Rattle.position_files.specs.declared.TableFile.{TableFile};
ghost use Rattle.command_base.specs.Statuses.{status_number};
ghost use Rattle.command_base.specs.Runs.{KeepsDevices, change, program_run};
ghost use Rattle.file_loading.specs.HeldFiles.{held_by, of_table};
ghost use Rattle.table_commands.specs.Referees.{IsCompared, IsJudged, IsRefereeWith, TellsTable, of_game, replay_line as replay_line_lem};

use command_base::{Answer, Status, Text, Told, deliver, refused_text, tell};
use file_loading::{Holdable, Loaded, load_file};
use foul_judge::{Position, Seen};
use game_referee::{ReplayAnswer, judge, replay, write_verdict};
use position_files::{FileError, GameError, GameFile, read_game};
use renju_io::{Shelf, Sink, Source};
use row_shapes::{Rule, under_rule};
use std::alloc::{AllocError, Global};
use stone_board::Point;
use strategy_checker::Held;

/// `referee`.
#[derive(Clone, Copy)]
pub struct Referee;

impl Told for Referee {
    ghost use Rattle.table_commands.specs.Referees.{RefereeSays};

    ghost in_range = { λ c. Unit {0} };

    ghost says = { λ c. RefereeSays };

    fn say(&self, alloc: Global, bytes: &[u8]) -> Result<Answer, AllocError> {
        match read_game(alloc, bytes) {
            Ok(game) => judged(alloc, game),
            Err(error) => refused_text(alloc, file_error(error)),
        }
    }
}

/// `referee FILE`, once the table of FILE is held.
#[derive(Drop)]
pub(crate) struct RefereeBy<'a> {
    pub held: &'a Held,
}

impl<'a> Told for RefereeBy<'a> {
    ghost use Rattle.std.specs.Prelude.{◌<◌, length};
    ghost use Rattle.table_commands.specs.Referees.{HeldSays};

    ghost in_range = { λ c. 0 < length c.held.now.roots };

    ghost says = { λ c. HeldSays c.held.now };

    fn say(&self, alloc: Global, bytes: &[u8]) -> Result<Answer, AllocError> {
        match read_game(alloc, bytes) {
            Ok(game) => compared(alloc, self.held, game),
            Err(error) => refused_text(alloc, file_error(error)),
        }
    }
}

/// `referee FILE`: judges the input beside the table of the file, once it is accepted, and else writes why it is not held.
#[inline(never)]
pub fn referee_with<I: Source, O: Sink, F: Shelf>(
    alloc: Global,
    file: &str,
    input: &mut I,
    output: &mut O,
    shelf: &mut F,
) -> Status
    ensures referees { (words : List (List ℕ)) → IsRefereeWith file.now
        (program_run words (change I.left I.faults I.asked input.old input.new) (change O.written O.faults O.asked output.old output.new)
        (change F.files F.faults F.asked shelf.old shelf.new) (I.last input.new) (status_number result)) }
    ensures devices { (words : List (List ℕ)) → KeepsDevices
        (program_run words (change I.left I.faults I.asked input.old input.new) (change O.written O.faults O.asked output.old output.new)
        (change F.files F.faults F.asked shelf.old shelf.new) (I.last input.new) (status_number result)) }
{
    match load_file(alloc, Holdable::Table, file, shelf) {
        Ok(Loaded::Holds(held)) => tell(alloc, &RefereeBy { held: &held }, input, output),
        Ok(Loaded::Tells(answer)) => deliver(answer.status, answer.text.as_slice(), output),
        Err(_) => Status::Memory,
    }
}

/// The fault of a game, said as of any text.
fn file_error(error: GameError) -> FileError
    ensures error { result ≡ of_game error }
{
    match error {
        GameError::BadLine(number) => FileError::BadLine(number),
        GameError::Unlawful(why) => FileError::Unlawful(why),
        GameError::Memory => FileError::Memory,
    }
}

/// The verdict on a game.
fn judged(alloc: Global, game: GameFile) -> Result<Answer, AllocError>
    requires lawful { IsPosition game.kind game.board }
    ensures judged { IfOk result (λ answer. IsJudged game answer.status answer.text) }
{
    under_rule!(game.kind, judged_under(alloc, game))
}

/// The same under the rule of the game.
fn judged_under<R: Rule>(alloc: Global, game: GameFile) -> Result<Answer, AllocError>
    requires kind { game.kind ≡ R.KIND }
    requires lawful { IsPosition game.kind game.board }
    ensures judged { IfOk result (λ answer. IsJudged game answer.status answer.text) }
{
    let GameFile {
        kind: _,
        board,
        moves,
    } = game;
    let mut position = Position::<R>::new(board);
    let verdict = judge(&mut position, moves.as_slice());
    Ok(Answer::written(Status::Done, write_verdict(alloc, &verdict)?))
}

/// The verdict on a game, and what is said of it beside the table that is held.
fn compared(alloc: Global, held: &Held, game: GameFile) -> Result<Answer, AllocError>
    requires lawful { IsPosition game.kind game.board }
    requires root { 0 < length held.now.roots }
    ensures compared { IfOk result (λ answer. (file : TableFile) → held.now ≡ held_by (of_table file)
        → IsCompared file game answer.status answer.text) }
{
    under_rule!(game.kind, compared_under(alloc, held, game))
}

/// The same under the rule of the game.
fn compared_under<R: Rule>(alloc: Global, held: &Held, game: GameFile) -> Result<Answer, AllocError>
    requires kind { game.kind ≡ R.KIND }
    requires lawful { IsPosition game.kind game.board }
    requires root { 0 < length held.now.roots }
    ensures compared { IfOk result (λ answer. (file : TableFile) → held.now ≡ held_by (of_table file)
        → IsCompared file game answer.status answer.text) }
{
    let GameFile {
        kind: _,
        board,
        moves,
    } = game;
    let mut position = Position::<R>::new(board);
    let verdict = judge(&mut position, moves.as_slice());
    let mut text = write_verdict(alloc, &verdict)?;
    let second = table_line(alloc, held, &mut position, moves.as_slice())?;
    text.extend_from_slice(second.as_slice())?;
    Ok(Answer::written(Status::Done, text))
}

/// The line of a game beside the first root that is held.
fn table_line<R: Rule>(
    alloc: Global,
    held: &Held,
    position: &mut Position<R>,
    moves: &[Point],
) -> Result<Text, AllocError>
    requires root { 0 < length held.now.roots }
    ensures line { IfOk result (λ text. (file : TableFile) → held.now ≡ held_by (of_table file)
        → TellsTable file R.KIND position.old moves.now text) }
{
    if held.kind(0) == R::KIND && held.board(0).same(position.board()) {
        replay_line(alloc, replay(held.table(), held.root(0), position, moves))
    } else {
        Ok(Text::fixed("table absent\n"))
    }
}

/// The line of a game that was compared with a table.
fn replay_line(alloc: Global, answer: ReplayAnswer) -> Result<Text, AllocError>
    ensures line { IfOk result (λ text. text ≡ replay_line_lem answer) }
    ensures no_memory { answer ≡ ReplayAnswer.Follows → IsOk result }
{
    match answer {
        ReplayAnswer::Follows => Ok(Text::fixed("table follows\n")),
        ReplayAnswer::Departs(number) => {
            let line = format!(in alloc; "table departs {number}\n")?;
            Ok(Text::built(line.into_bytes()))
        }
    }
}

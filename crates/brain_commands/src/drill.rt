//! The command `drill`: the counts of a drill, printed.
//!
//! `strength_drill` counts what the search, the checker and the brain do at work on positions that are made of a number.
#![tactic(auto)]

ghost use Rattle.std.specs.Prelude.{◌≡◌, ◌≢◌, IfOk, string_bytes};
ghost use Rattle.renju_io.specs.Faults.{HasNotFallen, HasStayed};
ghost use Rattle.command_base.specs.Statuses.{status_number};
ghost use Rattle.command_base.specs.Runs.{change};
ghost use Rattle.brain_commands.specs.Drills.{IsDrillText, EndsDrill, drill_lines, search_line as search_line_lem};
ghost use Rattle.brain_commands.specs.Drills.{game_line as game_line_lem};

use command_base::{Status, deliver};
use renju_io::Sink;
use std::alloc::{AllocError, Global};
use strength_drill::{Counts, POSITIONS, drill_counts};
use text_lines::{number, push_number_line};

/// `drill N`: writes the lines of the drill of the number.
#[inline(never)]
pub fn print_drill<O: Sink>(alloc: Global, number: u32, output: &mut O) -> Status
    ensures ends { EndsDrill number (change O.written O.faults O.asked output.old output.new) (status_number result) }
    ensures output { HasNotFallen (O.faults output.old) (O.faults output.new) }
    ensures writes { status_number result ≢ status_number Status.WriteFault → HasStayed (O.faults output.old) (O.faults output.new) }
{
    match lines_of(alloc, number) {
        Ok(text) => deliver(Status::Done, text.as_bytes(), output),
        Err(_) => Status::Memory,
    }
}

/// The lines of the drill of the number.
fn lines_of(alloc: Global, number: u32) -> Result<String, AllocError>
    ensures lines { IfOk result (λ text. IsDrillText number (string_bytes text)) }
{
    let counts = drill_counts(alloc, number)?;
    counted_lines(alloc, number, counts)
}

/// The lines of the drill of the number, which has these counts.
fn counted_lines(alloc: Global, number: u32, counts: Counts) -> Result<String, AllocError>
    ensures lines { IfOk result (λ text. string_bytes text ≡ drill_lines number counts) }
{
    let searches = search_line(alloc, counts.wins, counts.none, counts.spent)?;
    let games = game_line(alloc, counts.games, counts.moves)?;
    let mut text = format!(in alloc; "drill {number}\n")?;
    push_number_line(&mut text, "positions ", POSITIONS)?;
    text.push_str(searches.as_str())?;
    push_number_line(&mut text, "accepted ", counts.accepted)?;
    text.push_str(games.as_str())?;
    Ok(text)
}

/// The line of the searches.
fn search_line(alloc: Global, wins: u32, none: u32, spent: u32) -> Result<String, AllocError>
    ensures line { IfOk result (λ text. string_bytes text ≡ search_line_lem wins none spent) }
{
    format!(in alloc; "wins {wins} none {none} spent {spent}\n")
}

/// The line of the games.
fn game_line(alloc: Global, games: u32, moves: u32) -> Result<String, AllocError>
    ensures line { IfOk result (λ text. string_bytes text ≡ game_line_lem games moves) }
{
    format!(in alloc; "games {games} moves {moves}\n")
}

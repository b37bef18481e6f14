//! The top call: from words and devices to bytes and a status.
//!
//! `commands` does the work and proves what is due; here stands what that shows: the headlines of the checker, of the searches,
//! of the brain and of the drill, and that each command answers where nothing hinders it.
#![tactic(auto)]

ghost use Rattle.std.specs.Prelude.{map, string_bytes};
ghost use Rattle.command_base.specs.Runs.{change, program_run, KeepsDevices};
ghost use Rattle.table_commands.specs.Checks.{ShowsWin};
ghost use Rattle.position_commands.specs.Fours.{ShowsSearch};
ghost use Rattle.position_commands.specs.Threats.{ShowsSequence};
ghost use Rattle.solve_command.specs.Solves.{ShowsSolution};
ghost use Rattle.quiet_command.specs.Quiets.{ShowsQuietWin};
ghost use Rattle.brain_commands.specs.Games.{ShowsHeldGames, ShowsOwnGames};
ghost use Rattle.brain_commands.specs.Drills.{ShowsDrill};
ghost use Rattle.table_commands.specs.Referees.{ShowsReferee, ShowsVerdict};
ghost use Rattle.renju_cli.specs.Reports.{Report, IsComplete};
ghost use Rattle.table_commands.specs.Images.{ShowsImage};
ghost use Rattle.position_commands.specs.Defends.{ShowsDefence};
ghost use Rattle.table_commands.specs.Books.{ShowsBook};
ghost use Rattle.table_commands.specs.Binds.{ShowsBinding};
ghost use Rattle.cover_command.specs.Covers.{ShowsCover};
ghost use Rattle.join_command.specs.Joins.{ShowsJoin};

use crate::commands::run;
use renju_io::{Shelf, Sink, Source};
use std::alloc::Global;

/// Does all that the program does: reads the words after the program's name, and where they ask for it the input and
/// the shelf, writes to the output, and answers the status to exit with.
///
/// The status and the text that are due are those of `Status` and of the commands. Words without a form get the usage line and status
/// 1, and leave the input unasked, as `drill` and `bind` do. `check`, `foul`, `fours`, `threats`, `solve`, `quiet`, `image`, `referee`,
/// `defend`, `book`, `cover` and `join` speak of an input only once it was read to its end. Only `brain FILE`, `referee FILE`, `cover`
/// and `join`, before the input, and `bind` ask the shelf, and no command changes it. A failing output gives status 8 in place of the
/// status that was due, and the output then has the front of the text; want of memory gives 6 and a failing input 7, and then nothing
/// is written, or by a brain that serves the answers to the lines before.
/// A status other than 7 says that the input counted no fault, one other than 8 that the output did not, and one that is neither 2 nor
/// 8 that the shelf did not.
pub fn run_renju<I: Source, O: Sink, F: Shelf>(
    alloc: Global,
    words: &[String],
    input: &mut I,
    output: &mut O,
    shelf: &mut F,
) -> u8
    // The status and the bytes are those that are due for the words and the devices.
    ensures report { Report (program_run (map string_bytes words.now) (change I.left I.faults I.asked input.old input.new)
        (change O.written O.faults O.asked output.old output.new) (change F.files F.faults F.asked shelf.old shelf.new)
        (I.last input.new) result) }
    // What status 0 of `check` shows: the input is a table that is accepted and wins.
    ensures won { ShowsWin (program_run (map string_bytes words.now) (change I.left I.faults I.asked input.old input.new)
        (change O.written O.faults O.asked output.old output.new) (change F.files F.faults F.asked shelf.old shelf.new)
        (I.last input.new) result) }
    // What statuses 0, 9 and 5 of `fours` show: a win by fours with the fewest moves, that there is none, or too small a budget.
    ensures searched { ShowsSearch (program_run (map string_bytes words.now) (change I.left I.faults I.asked input.old input.new)
        (change O.written O.faults O.asked output.old output.new) (change F.files F.faults F.asked shelf.old shelf.new)
        (I.last input.new) result) }
    // What statuses 0, 9 and 5 of `threats` show: the first sequence of threats, that there is none, or too small a budget.
    ensures sequences { ShowsSequence (program_run (map string_bytes words.now) (change I.left I.faults I.asked input.old input.new)
        (change O.written O.faults O.asked output.old output.new) (change F.files F.faults F.asked shelf.old shelf.new)
        (I.last input.new) result) }
    // What statuses 0, 9, 5 and 12 of `solve` show: an accepted table of a win, that there is none by threats, too small a budget,
    // or no room for a table; and where it is sure to find the win.
    ensures solved { ShowsSolution (program_run (map string_bytes words.now) (change I.left I.faults I.asked input.old input.new)
        (change O.written O.faults O.asked output.old output.new) (change F.files F.faults F.asked shelf.old shelf.new)
        (I.last input.new) result) }
    // What statuses 0, 5 and 12 of `quiet` show: an accepted table of a win, of a way of `solve`, or any other where `solve` may say
    // `none` or `spent`; that `solve` may say so; or no room for its table; and where it is sure to find the win.
    ensures quietly { ShowsQuietWin (program_run (map string_bytes words.now) (change I.left I.faults I.asked input.old input.new)
        (change O.written O.faults O.asked output.old output.new) (change F.files F.faults F.asked shelf.old shelf.new)
        (I.last input.new) result) }
    // What `brain FILE` shows: where FILE is a table that is accepted, or a book of which each entry is, a game by a root of it begins
    // wherever its position is come to, and the games that are played by it are won.
    ensures held_games { ShowsHeldGames (program_run (map string_bytes words.now) (change I.left I.faults I.asked input.old input.new)
        (change O.written O.faults O.asked output.old output.new) (change F.files F.faults F.asked shelf.old shelf.new)
        (I.last input.new) result) }
    // What `brain` and `brain FILE` show of the wins by fours that the brain finds itself: the games that are played by them are won.
    ensures own_games { ShowsOwnGames (program_run (map string_bytes words.now) (change I.left I.faults I.asked input.old input.new)
        (change O.written O.faults O.asked output.old output.new) (change F.files F.faults F.asked shelf.old shelf.new)
        (I.last input.new) result) }
    // What status 0 of `drill` shows: the counts of the number, of which there are no others; each table of a win is accepted, and
    // each game is won.
    ensures drilled { ShowsDrill (program_run (map string_bytes words.now) (change I.left I.faults I.asked input.old input.new)
        (change O.written O.faults O.asked output.old output.new) (change F.files F.faults F.asked shelf.old shelf.new)
        (I.last input.new) result) }
    // What status 0 of `image` shows: the text of the image of a table, which is accepted exactly where the table is, with the same
    // games, and whose board is won exactly where that of the table is.
    ensures imaged { ShowsImage (program_run (map string_bytes words.now) (change I.left I.faults I.asked input.old input.new)
        (change O.written O.faults O.asked output.old output.new) (change F.files F.faults F.asked shelf.old shelf.new)
        (I.last input.new) result) }
    // What the statuses of `referee` without FILE show: the verdict on the game.
    ensures judged { ShowsVerdict (program_run (map string_bytes words.now) (change I.left I.faults I.asked input.old input.new)
        (change O.written O.faults O.asked output.old output.new) (change F.files F.faults F.asked shelf.old shelf.new)
        (I.last input.new) result) }
    // What status 0 of `referee FILE` shows: the verdict on the game, and whether it was played by the table of FILE, which is
    // accepted. Where it was, it went by the table, and the side of the table did not lose it.
    ensures refereed { ShowsReferee (program_run (map string_bytes words.now) (change I.left I.faults I.asked input.old input.new)
        (change O.written O.faults O.asked output.old output.new) (change F.files F.faults F.asked shelf.old shelf.new)
        (I.last input.new) result) }
    // What statuses 0 and 5 of `defend` show: exactly the moves that hold against continuous fours, or the one table of the plans of the
    // wins by fours with the fewest moves, which is accepted, so that the other side wins whatever is played first; or too small a budget
    // after some move.
    ensures defended { ShowsDefence (program_run (map string_bytes words.now) (change I.left I.faults I.asked input.old input.new)
        (change O.written O.faults O.asked output.old output.new) (change F.files F.faults F.asked shelf.old shelf.new)
        (I.last input.new) result) }
    // What status 0 of `book` shows: each entry of the book is accepted and wins.
    ensures booked { ShowsBook (program_run (map string_bytes words.now) (change I.left I.faults I.asked input.old input.new)
        (change O.written O.faults O.asked output.old output.new) (change F.files F.faults F.asked shelf.old shelf.new)
        (I.last input.new) result) }
    // What status 0 of `bind` shows: a book of the tables of its files, which are accepted, each with its rule, position and moves,
    // and with a root that says the same.
    ensures bound { ShowsBinding (program_run (map string_bytes words.now) (change I.left I.faults I.asked input.old input.new)
        (change O.written O.faults O.asked output.old output.new) (change F.files F.faults F.asked shelf.old shelf.new)
        (I.last input.new) result) }
    // What statuses 0 and 9 of `cover` show: the tables of its files are accepted, and they cover the position of the input, whose side
    // wins within the moves told; or the attack does not win or go on, or the reply that is told is the first that no table covers.
    ensures covered { ShowsCover (program_run (map string_bytes words.now) (change I.left I.faults I.asked input.old input.new)
        (change O.written O.faults O.asked output.old output.new) (change F.files F.faults F.asked shelf.old shelf.new)
        (I.last input.new) result) }
    // What statuses 0 and 9 of `join` show: the tables of its files are accepted, and a table is told by which the side to move of the
    // input wins with the attack; or the attack does not go on, or a reply to it is told after which no file is a table.
    ensures joined { ShowsJoin (program_run (map string_bytes words.now) (change I.left I.faults I.asked input.old input.new)
        (change O.written O.faults O.asked output.old output.new) (change F.files F.faults F.asked shelf.old shelf.new)
        (I.last input.new) result) }
    // A command with a lawful input, enough work and devices without a fault answers, unless memory runs out.
    ensures complete { IsComplete (program_run (map string_bytes words.now) (change I.left I.faults I.asked input.old input.new)
        (change O.written O.faults O.asked output.old output.new) (change F.files F.faults F.asked shelf.old shelf.new)
        (I.last input.new) result) }
    // What is left of the devices, and which of them counted no fault.
    ensures devices { KeepsDevices (program_run (map string_bytes words.now) (change I.left I.faults I.asked input.old input.new)
        (change O.written O.faults O.asked output.old output.new) (change F.files F.faults F.asked shelf.old shelf.new)
        (I.last input.new) result) }
{
    run(alloc, words, input, output, shelf).number()
}

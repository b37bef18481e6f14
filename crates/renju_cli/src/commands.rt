//! The commands: their forms of words, told apart by the first word, and what runs each.
//!
//! A command stands in a file of a crate of commands. Here it has a line in each list: the forms, the first words, and the runs.
#![tactic(auto)]

ghost use Rattle.std.specs.Prelude.{MatchOption, map, string_bytes};
ghost use Rattle.command_base.specs.Statuses.{status_number};
ghost use Rattle.command_base.specs.Runs.{change, program_run, KeepsDevices};
ghost use Rattle.renju_cli.specs.Commands.{IsForm, HasForm};
ghost use Rattle.renju_cli.specs.Reports.{Report};

use crate::forms;
use board_symmetry::Symmetry;
use brain_commands::{play, play_with, print_drill};
use command_base::{OfPosition, Status, deliver, tell};
use cover_command::{Covering, cover_with};
use join_command::{Joining, join_with};
use position_commands::{Defend, FindSequence, Fours, ListFouls};
use quiet_command::Quiet;
use renju_io::{Shelf, Sink, Source};
use solve_command::Solve;
use std::alloc::Global;
use stone_board::Point;
use table_commands::{Check, CheckBook, Image, Referee, bind_book, referee_with};

/// The line that words without a form are answered with.
pub const USAGE: &str =
    "usage: renju check WORK, foul, fours DEPTH NODES, threats LENGTH NODES, solve DEPTH NODES, quiet DEPTH NODES, brain [FILE], drill N, image SYMMETRY, referee [FILE], defend DEPTH NODES, bind FILE .., book WORK, cover WORK ATTACK FILE .., join ATTACK FILE ..\n";

/// A form of words: the command and its numbers.
#[derive(Clone, Copy, Debug, PartialEq, Eq)]
pub enum Form {
    /// `check WORK`, with WORK from 1 to `MAX_WORK`.
    Check { work: u64 },
    /// `foul`.
    Foul,
    /// `fours DEPTH NODES`, with DEPTH from 1 to `MAX_DEPTH` and NODES from 1 to `MAX_SEARCHED`.
    Fours { depth: u32, nodes: u64 },
    /// `threats LENGTH NODES`, with LENGTH from 1 to `MAX_LENGTH` and NODES from 1 to `MAX_SEARCHED`.
    Threats { length: u32, nodes: u64 },
    /// `solve DEPTH NODES`, with DEPTH and NODES as those of `fours`.
    Solve { depth: u32, nodes: u64 },
    /// `quiet DEPTH NODES`, with DEPTH and NODES as those of `fours`.
    Quiet { depth: u32, nodes: u64 },
    /// `brain`.
    Brain,
    /// `brain FILE`, with a FILE that is not empty. It is the second word.
    BrainWith,
    /// `drill N`, with N up to `MAX_DRILL`.
    Drill { number: u32 },
    /// `image SYMMETRY`.
    Image { symmetry: Symmetry },
    /// `referee`.
    Referee,
    /// `referee FILE`, with a FILE that is not empty. It is the second word.
    RefereeWith,
    /// `defend DEPTH NODES`, with DEPTH and NODES as those of `fours`.
    Defend { depth: u32, nodes: u64 },
    /// `bind FILE ..`, with 1 to `MAX_FILES` files, none of which is empty. They are the words after the first.
    Bind,
    /// `book WORK`, with WORK as that of `check`.
    Book { work: u64 },
    /// `cover WORK ATTACK FILE ..`, with WORK as that of `check`, ATTACK a point or `-`, and 1 to `MAX_PARTS` files, none of which is
    /// empty. They are the words after the third.
    Cover { work: u64, attack: Option<Point> },
    /// `join ATTACK FILE ..`, with ATTACK a point, and FILE as those of `cover`. They are the words after the second.
    Join { attack: Point },
}

/// The form that the words have, if they have one.
pub(crate) fn form_of(words: &[String]) -> Option<Form>
    ensures form { MatchOption result (¬ HasForm (map string_bytes words.now)) (λ form. IsForm (map string_bytes words.now) form) }
{
    let [name, rest @ ..] = words else {
        return None;
    };
    match name.as_str() {
        "check" => forms::check(rest),
        "foul" => forms::foul(rest),
        "fours" => forms::fours(rest),
        "threats" => forms::threats(rest),
        "solve" => forms::solve(rest),
        "quiet" => forms::quiet(rest),
        "brain" => forms::brain(rest),
        "drill" => forms::drill(rest),
        "image" => forms::image(rest),
        "referee" => forms::referee(rest),
        "defend" => forms::defend(rest),
        "bind" => forms::bind(rest),
        "book" => forms::book(rest),
        "cover" => forms::cover(rest),
        "join" => forms::join(rest),
        _ => None,
    }
}

/// Answers the words: runs the command that they ask for, or writes the usage line.
pub(crate) fn run<I: Source, O: Sink, F: Shelf>(
    alloc: Global,
    words: &[String],
    input: &mut I,
    output: &mut O,
    shelf: &mut F,
) -> Status
    ensures report { Report (program_run (map string_bytes words.now) (change I.left I.faults I.asked input.old input.new)
        (change O.written O.faults O.asked output.old output.new) (change F.files F.faults F.asked shelf.old shelf.new)
        (I.last input.new) (status_number result)) }
    ensures devices { KeepsDevices (program_run (map string_bytes words.now) (change I.left I.faults I.asked input.old input.new)
        (change O.written O.faults O.asked output.old output.new) (change F.files F.faults F.asked shelf.old shelf.new)
        (I.last input.new) (status_number result)) }
{
    match form_of(words) {
        None => deliver(Status::Usage, USAGE.as_bytes(), output),
        Some(Form::Check { work }) => tell(alloc, &Check { work }, input, output),
        Some(Form::Foul) => tell(alloc, &OfPosition(ListFouls), input, output),
        Some(Form::Fours { depth, nodes }) => tell(
            alloc,
            &OfPosition(Fours { depth, nodes }),
            input,
            output,
        ),
        Some(Form::Threats { length, nodes }) => tell(
            alloc,
            &OfPosition(FindSequence { length, nodes }),
            input,
            output,
        ),
        Some(Form::Solve { depth, nodes }) => tell(
            alloc,
            &OfPosition(Solve { depth, nodes }),
            input,
            output,
        ),
        Some(Form::Quiet { depth, nodes }) => tell(
            alloc,
            &OfPosition(Quiet { depth, nodes }),
            input,
            output,
        ),
        Some(Form::Brain) => play(alloc, None, input, output),
        Some(Form::BrainWith) => play_with(alloc, words[1].as_str(), input, output, shelf),
        Some(Form::Drill { number }) => print_drill(alloc, number, output),
        Some(Form::Image { symmetry }) => tell(alloc, &Image { symmetry }, input, output),
        Some(Form::Referee) => tell(alloc, &Referee, input, output),
        Some(Form::RefereeWith) => referee_with(alloc, words[1].as_str(), input, output, shelf),
        Some(Form::Defend { depth, nodes }) => tell(
            alloc,
            &OfPosition(Defend { depth, nodes }),
            input,
            output,
        ),
        Some(Form::Bind) => bind_book(alloc, &words[1..], output, shelf),
        Some(Form::Book { work }) => tell(alloc, &CheckBook { work }, input, output),
        Some(Form::Cover { work, attack }) => {
            let covering = Covering {
                work,
                attack,
                names: &words[3..],
            };
            cover_with(alloc, &covering, input, output, shelf)
        }
        Some(Form::Join { attack }) => {
            let joining = Joining {
                attack,
                names: &words[2..],
            };
            join_with(alloc, &joining, input, output, shelf)
        }
    }
}

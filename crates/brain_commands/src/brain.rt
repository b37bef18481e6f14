//! The command `brain`: a player under the Gomocup protocol, which may hold a table.
//!
//! The text of FILE, of a table or of a book, is loaded, read and checked, and only what is accepted is held. Then the lines of the
//! input are served.
#![tactic(auto)]

ghost use Rattle.std.specs.Prelude.{◌≡◌, ◌≢◌, ℕ, List};
ghost use Rattle.renju_io.specs.Faults.{HasNotFallen, HasStayed};
ghost use Rattle.renju_io.specs.Asked.{GivesByEach};
ghost use Rattle.brain_session.specs.Kept.{held_or_none};
ghost use Rattle.command_base.specs.Statuses.{status_number};
ghost use Rattle.command_base.specs.Runs.{KeepsDevices, change, program_run};
ghost use Rattle.brain_commands.specs.Brains.{EndsBrain, IsBrainWith, session_status};

use brain_session::{Brain, ServeError, serve};
use command_base::{Status, deliver};
use file_loading::{Holdable, Loaded, load_file};
use renju_io::{Shelf, Sink, Source};
use std::alloc::Global;
use strategy_checker::Held;

/// `brain FILE`: serves the input by a brain that holds the table of the file, or a book with all its entries, once it is accepted,
/// and else writes why it is not held. The input is asked only by a brain that holds it.
#[inline(never)]
pub fn play_with<I: Source, O: Sink, F: Shelf>(
    alloc: Global,
    file: &str,
    input: &mut I,
    output: &mut O,
    shelf: &mut F,
) -> Status
    ensures plays { (words : List (List ℕ)) → IsBrainWith file.now
        (program_run words (change I.left I.faults I.asked input.old input.new) (change O.written O.faults O.asked output.old output.new)
        (change F.files F.faults F.asked shelf.old shelf.new) (I.last input.new) (status_number result)) }
    ensures devices { (words : List (List ℕ)) → KeepsDevices
        (program_run words (change I.left I.faults I.asked input.old input.new) (change O.written O.faults O.asked output.old output.new)
        (change F.files F.faults F.asked shelf.old shelf.new) (I.last input.new) (status_number result)) }
{
    match load_file(alloc, Holdable::TableOrBook, file, shelf) {
        Ok(Loaded::Holds(held)) => play(alloc, Some(held), input, output),
        Ok(Loaded::Tells(answer)) => deliver(answer.status, answer.text.as_slice(), output),
        Err(_) => Status::Memory,
    }
}

/// Serves the lines of the input by a brain that holds this, or nothing.
#[inline(never)]
pub fn play<I: Source, O: Sink>(
    alloc: Global,
    held: Option<Held>,
    input: &mut I,
    output: &mut O,
) -> Status
    ensures ends { EndsBrain (held_or_none held) (change I.left I.faults I.asked input.old input.new)
        (change O.written O.faults O.asked output.old output.new) (I.last input.new) (status_number result) }
    ensures taken { GivesByEach (I.left input.old) (I.left input.new) (I.asked input.old) (I.asked input.new) }
    ensures input { HasNotFallen (I.faults input.old) (I.faults input.new) }
    ensures output { HasNotFallen (O.faults output.old) (O.faults output.new) }
    ensures reads { status_number result ≢ status_number Status.ReadFault → HasStayed (I.faults input.old) (I.faults input.new) }
    ensures writes { status_number result ≢ status_number Status.WriteFault → HasStayed (O.faults output.old) (O.faults output.new) }
{
    let Ok(mut brain) = Brain::new(alloc, held) else {
        return Status::Memory;
    };
    status_of(serve(alloc, &mut brain, input, output))
}

/// The status of a session that ended so.
fn status_of(outcome: Result<(), ServeError>) -> Status
    ensures status { result ≡ session_status outcome }
{
    match outcome {
        Ok(()) => Status::Done,
        Err(ServeError::ReadFailed) => Status::ReadFault,
        Err(ServeError::WriteFailed) => Status::WriteFault,
        Err(ServeError::Exhausted) => Status::TooLong,
        Err(ServeError::Memory) => Status::Memory,
    }
}

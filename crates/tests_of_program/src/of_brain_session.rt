//! A brain that is told a command again where memory ran out. What it says to others the program shows, session by session.

use crate::compared::same;
use brain_session::{Brain, Reaction};
use game_rules::Point;
use gomocup_text::{Answer, Command, ErrorText};
use std::alloc::{AllocError, Global};
use std::process::Abort;

const OK: Reaction = Reaction::Says(Answer::Ok);

/// The reaction that plays this point. It is a macro, since a constant calls no function.
macro_rules! moves {
    ($x:literal, $y:literal) => {
        Reaction::Says(Answer::Move(Point { x: $x, y: $y }))
    };
}

/// The reaction that tells this error.
macro_rules! fails {
    ($error:ident) => {
        Reaction::Says(Answer::Error(ErrorText::$error))
    };
}

/// A brain that holds nothing. Where memory runs out there is none, so it is asked for again.
fn new_brain(alloc: Global) -> Result<Brain, AllocError> {
    match Brain::new(alloc, None) {
        Ok(brain) => Ok(brain),
        Err(_) => Brain::new(alloc, None),
    }
}

/// What the brain does at the command. Where memory runs out it is as before, so it is told the command again; but RESTART takes
/// none, so it is told once (`rt try --test --fail-alloc N`). It promises nothing, which keeps the tests quick to prove.
fn step(brain: &mut Brain, command: &Command) -> Result<Reaction, AllocError> {
    match brain.step(command) {
        Ok(said) => Ok(said),
        Err(error) if *command == Command::Restart => Err(error),
        Err(_) => brain.step(command),
    }
}

/// Tells a new brain the commands, one after another.
fn tell(rt: &(impl Abort + AllocGlobal), commands: &[(Command, Reaction)]) {
    let mut brain = new_brain(rt.alloc()).expect(rt, "a brain");
    for (command, wanted) in commands {
        let told = step(&mut brain, command).ok();
        same(rt, (*command, told), (*command, Some(*wanted)));
    }
}

// The middle of a board of 5 is 2,2, and 1,1 is the first point round it. The first allocation is the room for a batch: where it
// fails (`rt try --test --fail-alloc 1`) there is no brain, and the next one that is asked for takes the batch.
const SMALL_BATCH: [(Command, Reaction); 5] = [
    (Command::Board, fails!(NoBoard)),
    (Command::Start(5), OK),
    (Command::Board, Reaction::Silent),
    (Command::Stone(2, 2, 2), Reaction::Silent),
    (Command::Done, moves!(1, 1)),
];

#[test]
fn a_small_board_takes_a_batch(rt: HostRuntime) {
    tell(&rt, &SMALL_BATCH);
}

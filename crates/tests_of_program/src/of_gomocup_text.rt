//! Lines as a manager may write them, row by row of the table of commands, and each answer's line.

use crate::compared::same;
use gomocup_text::{Answer, Command, ErrorText, Point, read_command, write_answer};
use std::alloc::Global;
use std::process::Abort;

/// Lines with numbers.
const NUMBERS: [(&[u8], Command); 25] = [
    (b"1,2,3", Command::Stone(1, 2, 3)),
    (b" 1 ,\t2 , 003\t\r", Command::Stone(1, 2, 3)),
    (b"999999999,0,1", Command::Stone(999_999_999, 0, 1)),
    (b"1000000000,0,1", Command::Unknown),
    (b"1,2", Command::Unknown),
    (b"1,2,3,4", Command::Unknown),
    (b"1,2,", Command::Unknown),
    (b"1,2,+3", Command::Unknown),
    (b"START 15", Command::Start(15)),
    (b"start\t 015 \r", Command::Start(15)),
    (b"START", Command::Malformed),
    (b"START15", Command::Unknown),
    (b"START 15 15", Command::Malformed),
    (b"START -1", Command::Malformed),
    (b"START 1234567890", Command::Malformed),
    (b"START 15\r\r", Command::Malformed),
    (b"RECTSTART 20,10", Command::RectStart(20, 10)),
    (b"rectStart 20 , 10", Command::RectStart(20, 10)),
    (b"RECTSTART 20", Command::Malformed),
    (b"tUrN 7,8", Command::Turn(7, 8)),
    (b"TURN 7,8,9", Command::Malformed),
    (b"TURN 7 8", Command::Malformed),
    (b"TURN,7,8", Command::Unknown),
    (b"TAKEBACK 0,31", Command::Takeback(0, 31)),
    (b"TAKEBACK ,", Command::Malformed),
];

/// Lines with words alone.
const WORDS: [(&[u8], Command); 23] = [
    (b"", Command::Blank),
    (b"\r", Command::Blank),
    (b" \t \r", Command::Blank),
    (b"BEGIN", Command::Begin),
    (b"BEGIN 1", Command::Malformed),
    (b"board", Command::Board),
    (b"DONE \r", Command::Done),
    (b"DONE\r\r", Command::Unknown),
    (b"DONE\r ", Command::Unknown),
    (b"RESTART", Command::Restart),
    (b"RE START", Command::Unknown),
    (b"ABOUT", Command::About),
    (b"END", Command::End),
    (b"END.", Command::Unknown),
    (b"INFO", Command::Info),
    (b"INFO rule 4", Command::Rule(4)),
    (b"info RULE\t04", Command::Rule(4)),
    (b"INFO rule", Command::Info),
    (b"INFO rule 4 4", Command::Info),
    (b"INFO rule4", Command::Info),
    (b"INFO timeout_turn 1000", Command::Info),
    (b"HELLO", Command::Unknown),
    (b"\xff", Command::Unknown),
];

/// Compares what each line is read as.
fn compare(rt: &impl Abort, rows: &[(&[u8], Command)]) {
    for (line, command) in rows {
        same(rt, (*line, read_command(line)), (*line, *command));
    }
}

#[test]
fn lines_with_numbers(rt: HostRuntime) {
    compare(&rt, &NUMBERS);
}

#[test]
fn lines_with_words_alone(rt: HostRuntime) {
    compare(&rt, &WORDS);
}

#[test]
fn a_line_is_too_long_by_one_byte(rt: HostRuntime) {
    let mut line = vec![in rt.alloc(); b' '; 4_095].expect(&rt, "memory");
    line.push(b'x').expect(&rt, "memory");
    same(&rt, read_command(&line), Command::Unknown);
    line.push(b'\r').expect(&rt, "memory");
    same(&rt, read_command(&line), Command::Malformed);
}

const ANSWERS: [(Answer, &[u8]); 7] = [
    (Answer::Ok, b"OK\r\n"),
    (Answer::Move(Point { x: 0, y: 31 }), b"0,31\r\n"),
    (Answer::Move(Point { x: 255, y: 255 }), b"255,255\r\n"),
    (Answer::About, b"name=\"renju\", version=\"1.0\"\r\n"),
    (Answer::Unknown, b"UNKNOWN command\r\n"),
    (
        Answer::Error(ErrorText::UnsupportedSize),
        b"ERROR unsupported size\r\n",
    ),
    (
        Answer::Error(ErrorText::OpponentFoul),
        b"ERROR opponent foul\r\n",
    ),
];

/// Whether the answer is written as this line.
fn is_written_as(alloc: Global, answer: &Answer, line: &[u8]) -> bool {
    write_answer(alloc, answer).as_slice() == line
}

#[test]
fn each_answer_is_a_line(rt: HostRuntime) {
    for (answer, line) in &ANSWERS {
        let told = is_written_as(rt.alloc(), answer, line);
        same(&rt, (*answer, told), (*answer, true));
    }
}

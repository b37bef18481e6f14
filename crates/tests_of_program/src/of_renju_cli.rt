//! Runs of the program over devices in memory: those that fail in the middle of a run, and those that would fail after it.
//!
//! One place calls `run_renju`, and it promises nothing, so that its contract is not proved again for each test. What the built program
//! answers to texts is compared by `.ci/cases.py`, which proves nothing.

use crate::compared::same;
use crate::devices::{Failing, SOUND, shelf_of, sink_of, source_of};
use calling::TWO_ENTRIES;
use renju_cli::{USAGE, run_renju};
use renju_io::{MemoryShelf, MemorySink, MemorySource, read_all};
use std::alloc::{AllocError, Global};
use std::process::Abort;

/// Words, what the file t holds, an input, the devices, and the status and the text that are wanted.
#[derive(Drop)]
struct Run {
    words: &'static str,
    file: &'static str,
    input: &'static str,
    failing: Failing,
    status: u8,
    output: &'static str,
}

/// Runs the program over these devices.
fn status_of(
    alloc: Global,
    words: &[String],
    source: &mut MemorySource,
    sink: &mut MemorySink,
    shelf: &mut MemoryShelf,
) -> u8 {
    run_renju(alloc, words, source, sink, shelf)
}

/// Adds the words of a text, which are separated by spaces.
fn add_words(alloc: Global, text: &str, words: &mut Vec<String>) -> Result<(), AllocError> {
    for word in text.split_whitespace() {
        words.push(String::from_str(alloc, word)?)?;
    }
    Ok(())
}

/// Runs the program with these words.
fn run_words(
    alloc: Global,
    text: &str,
    source: &mut MemorySource,
    sink: &mut MemorySink,
    shelf: &mut MemoryShelf,
) -> Result<u8, AllocError> {
    let mut words = Vec::new(alloc);
    add_words(alloc, text, &mut words)?;
    Ok(status_of(alloc, words.as_slice(), source, sink, shelf))
}

/// Compares what a run of the row answers and writes with what is wanted.
fn compare_told(rt: &impl Abort, row: &Run, status: u8, output: &[u8]) {
    same(rt, (row.words, output), (row.words, row.output.as_bytes()));
    same(rt, (row.words, status), (row.words, row.status));
}

/// Runs the program beside this shelf, and compares what it answers and writes with what is wanted.
fn compare_over(
    rt: &(impl Abort + AllocGlobal),
    row: &Run,
    source: &mut MemorySource,
    shelf: &mut MemoryShelf,
) {
    let mut sink = sink_of(rt.alloc(), &row.failing).expect(rt, "a sink");
    let status = run_words(rt.alloc(), row.words, source, &mut sink, shelf);
    compare_told(rt, row, status.expect(rt, "memory"), sink.bytes());
}

/// Compares the run of the row beside its file, and answers what it leaves of its input.
fn compare(rt: &(impl Abort + AllocGlobal), row: &Run) -> MemorySource {
    let source = source_of(rt.alloc(), row.input.as_bytes(), &row.failing);
    let mut source = source.expect(rt, "a source");
    let shelf = shelf_of(rt.alloc(), "t", row.file.as_bytes(), &row.failing);
    compare_over(rt, row, &mut source, &mut shelf.expect(rt, "a shelf"));
    source
}

/// Compares the run of each row.
fn compare_each(rt: &(impl Abort + AllocGlobal), rows: &[Run]) {
    for row in rows {
        compare(rt, row);
    }
}

/// How many bytes a source has left. It promises nothing, as `status_of`.
fn left_in(alloc: Global, source: &mut MemorySource) -> Option<usize> {
    Some(read_all(alloc, source).ok()?.len())
}

const THREE: &str =
    "renju-position 1\nrule freestyle\nsize 15\nblack 5,7 6,7 7,7\nwhite 0,0 2,0 4,0\n";

const THREE_TABLE: &str =
    "renju-table 1\nrule freestyle\nsize 15\nblack 5,7 6,7 7,7\nwhite 0,0 2,0 4,0\nmoves 2\nnodes 3\n3,7 wins\n8,7 wins\n4,7 rest 0 3,7>1\n";

const THREE_TWICE: &str =
    "renju-book 1\nnodes 3\n3,7 wins\n8,7 wins\n4,7 rest 0 3,7>1\nentries 2\nrule freestyle\nsize 15\nblack 5,7 6,7 7,7\nwhite 0,0 2,0 4,0\nmoves 2\nroot 2\nrule freestyle\nsize 15\nblack 5,7 6,7 7,7\nwhite 0,0 2,0 4,0\nmoves 2\nroot 2\n";

/// An open three of Black. White can take one of its ends, or make a four of its own.
const OPEN_THREE: &str =
    "renju-position 1\nrule freestyle\nsize 15\nblack 5,7 6,7 7,7 14,14\nwhite 0,0 2,0 4,0\n";

/// White wins by 6,3, since Black's only block, 7,3, is an overline; and a session that follows the table.
const BLOCK_FOULS: &str =
    "renju-table 1\nrule renju\nsize 15\nblack 7,0 7,1 7,2 2,3 7,4 7,5\nwhite 3,3 4,3 5,3 12,14 14,14\nmoves 2\nnodes 2\n7,3 wins\n6,3 rest 0\n";

const BLOCK_LINES: &str =
    "START 15\nINFO rule 4\nBOARD\n3,3,1\n4,3,1\n5,3,1\n12,14,1\n14,14,1\n7,0,2\n7,1,2\n7,2,2\n2,3,2\n7,4,2\n7,5,2\nDONE\nTURN 0,14\nTURN 1,14\nEND\n";

/// A game from the position of the table of two moves.
const GAME: &str =
    "renju-game 1\nrule freestyle\nsize 15\nblack 5,7 6,7 7,7\nwhite 0,0 2,0 4,0\nmoves 4,7 3,7 8,7\n";

/// White has two points left, and Black wins with the other; and the win after the first of them, which turned is that after the second.
const TWO_LEFT: &str =
    "renju-position 1\nrule freestyle\nsize 5\nblack 0,0 1,0 2,0 3,0 0,1 4,1 0,2 2,2 0,3 3,3 1,4 4,4\nwhite 1,1 2,1 3,1 1,2 3,2 4,2 1,3 2,3 4,3 2,4 3,4\n";

const ONE_LEFT: &str =
    "renju-table 1\nrule freestyle\nsize 5\nblack 0,0 1,0 2,0 3,0 0,1 4,1 0,2 2,2 0,3 3,3 1,4 4,4\nwhite 4,0 1,1 2,1 3,1 1,2 3,2 4,2 1,3 2,3 4,3 2,4 3,4\nmoves 1\nnodes 1\n0,4 wins\n";

/// The win after 4,7 and 3,7 from the three stones in a row.
const LEFT_BLOCKED: &str =
    "renju-table 1\nrule freestyle\nsize 15\nblack 4,7 5,7 6,7 7,7\nwhite 0,0 2,0 4,0 3,7\nmoves 1\nnodes 1\n8,7 wins\n";

const ACCEPTED: &str = "accepted in 2 moves, 219 arrivals\n";

/// A row of one of the tables below. It is a macro, since a constant calls no function.
macro_rules! run {
    ($words:literal, $file:expr, $input:expr, $status:literal, $output:expr $(, $device:ident: $value:expr)*) => {
        Run {
            words: $words,
            file: $file,
            input: $input,
            failing: Failing { $($device: $value,)* ..SOUND },
            status: $status,
            output: $output,
        }
    };
}

/// Inputs that fail at their first read, in their midst and where the end is told.
static FAILING_READS: [Run; 19] = [
    run!("check 219", "", THREE_TABLE, 7, "", reads: &[1]),
    run!("check 219", "", THREE_TABLE, 7, "", piece: 1, reads: &[11]),
    run!("check 219", "", THREE_TABLE, 7, "", reads: &[2]),
    run!("check 219", "", THREE_TABLE, 7, "", piece: 1, reads: &[THREE_TABLE.len() as u64 + 1]),
    run!("book 219", "", TWO_ENTRIES, 7, "", piece: 7, reads: &[3]),
    run!("book 219", "", TWO_ENTRIES, 7, "", reads: &[2]),
    run!("book 219", "", TWO_ENTRIES, 7, "", piece: 1, reads: &[TWO_ENTRIES.len() as u64 + 1]),
    run!("image half", "", THREE_TABLE, 7, "", piece: 7, reads: &[2]),
    run!("quiet 5 3", "", THREE, 7, "", piece: 7, reads: &[2]),
    run!("defend 2 4", "", OPEN_THREE, 7, "", piece: 7, reads: &[2]),
    run!("referee t", THREE_TABLE, GAME, 7, "", reads: &[1]),
    run!("cover 1 - t", ONE_LEFT, TWO_LEFT, 7, "", piece: 7, reads: &[2]),
    run!("join 4,7 t", LEFT_BLOCKED, THREE, 7, "", piece: 7, reads: &[2]),
    run!("brain t", BLOCK_FOULS, BLOCK_LINES, 7, "", reads: &[1]),
    run!("brain t", BLOCK_FOULS, BLOCK_LINES, 7, "OK\r\n", piece: 1, reads: &[11]),
    run!("brain", "", "START 15\nEND\n", 7, "", reads: &[1]),
    run!("brain", "", "START 15\nEND\n", 7, "OK\r\n", piece: 1, reads: &[13]),
    run!("brain", "", "START 15\n", 7, "OK\r\n", reads: &[2]),
    run!("brain", "", "START 15\n", 7, "OK\r\n", piece: 1, reads: &[10]),
];

/// Inputs that would fail at the read after the one that tells the end, or after that of END.
static READS_AFTER: [Run; 8] = [
    run!("check 219", "", THREE_TABLE, 0, ACCEPTED, reads: &[3]),
    run!("check 219", "", THREE_TABLE, 0, ACCEPTED, piece: 1, reads: &[THREE_TABLE.len() as u64 + 2]),
    run!("book 219", "", TWO_ENTRIES, 0, "accepted 2 entries, 438 arrivals\n", reads: &[3]),
    run!("book 219", "", TWO_ENTRIES, 0, "accepted 2 entries, 438 arrivals\n", piece: 1, reads: &[TWO_ENTRIES.len() as u64 + 2]),
    run!("brain", "", "START 15\nEND\n", 0, "OK\r\n", reads: &[2]),
    run!("brain", "", "START 15\nEND\n", 0, "OK\r\n", piece: 1, reads: &[14]),
    run!("brain", "", "START 15\n", 0, "OK\r\n", reads: &[3]),
    run!("brain", "", "START 15\n", 0, "OK\r\n", piece: 1, reads: &[11]),
];

/// Outputs that fail and keep the front of their piece, of which the drill's has an input that is not asked; and one that would fail
/// after the last piece.
static FAILING_WRITES: [Run; 12] = [
    run!("check 219", "", THREE_TABLE, 8, "acc", piece: 3, writes: &[1], kept: 3),
    run!("check 219", "", THREE_TABLE, 0, ACCEPTED, piece: 3, writes: &[2]),
    run!("book 219", "", TWO_ENTRIES, 8, "accepted", piece: 7, writes: &[1], kept: 8),
    run!("image half", "", THREE_TABLE, 8, "renju", piece: 7, writes: &[1], kept: 5),
    run!("quiet 5 3", "", THREE, 8, "renju-t", piece: 7, writes: &[1], kept: 7),
    run!("defend 2 4", "", OPEN_THREE, 8, "defen", piece: 7, writes: &[1], kept: 5),
    run!("drill 0", "", "", 8, "dri", piece: 1, reads: &[1], writes: &[1], kept: 3),
    run!("bind t t", THREE_TABLE, "input", 8, "renju-b", writes: &[1], kept: 7),
    run!("cover 1 - t", ONE_LEFT, TWO_LEFT, 8, "covered in", writes: &[1], kept: 10),
    run!("join 4,7 t", LEFT_BLOCKED, THREE, 8, "no answer", writes: &[1], kept: 9),
    run!("referee t", THREE_TABLE, GAME, 8, "won ", writes: &[1], kept: 4),
    run!("brain t", BLOCK_FOULS, BLOCK_LINES, 8, "OK\r\n6,", writes: &[2], kept: 2),
];

/// Files that cannot be loaded, each at its load: a table and a book that are held are loaded once.
static FAILING_LOADS: [Run; 12] = [
    run!("bind t t", THREE_TABLE, "input", 2, "file 1 shelf failed\n", loads: &[1]),
    run!("bind t t", THREE_TABLE, "input", 2, "file 2 shelf failed\n", loads: &[2]),
    run!("bind t t", THREE_TABLE, "input", 0, THREE_TWICE, loads: &[3]),
    run!("cover 1 - t t", ONE_LEFT, TWO_LEFT, 2, "file 2 shelf failed\n", loads: &[2]),
    run!("cover 1 - t t", ONE_LEFT, TWO_LEFT, 0, "covered in 1 moves, 2 replies by 2 tables\n", loads: &[3]),
    run!("join 4,7 t t", LEFT_BLOCKED, THREE, 2, "file 2 shelf failed\n", loads: &[2]),
    run!("join 4,7 t t", LEFT_BLOCKED, THREE, 9, "no answer 8,7\n", loads: &[3]),
    run!("referee t", THREE_TABLE, GAME, 2, "shelf failed\n", loads: &[1]),
    run!("brain t", BLOCK_FOULS, BLOCK_LINES, 2, "shelf failed\n", loads: &[1]),
    run!("brain t", BLOCK_FOULS, BLOCK_LINES, 0, "OK\r\n6,3\r\n7,3\r\nERROR game over\r\n", loads: &[2]),
    run!("brain t", TWO_ENTRIES, "ABOUT\n", 2, "shelf failed\n", loads: &[1]),
    run!("brain t", TWO_ENTRIES, "START 33\n", 0, "ERROR unsupported size\r\n", loads: &[2]),
];

/// Runs that leave their input unread, of which one read would fail: words without a form, and files that are none, that hold no
/// accepted table, or that are not there.
static UNREAD: [Run; 13] = [
    run!("", "", "219", 1, USAGE, writes: &[2]),
    run!("check 0", "", THREE_TABLE, 1, USAGE, writes: &[2]),
    run!(
        "drill 0",
        "",
        "no text",
        0,
        "drill 0\npositions 60\nwins 43 none 17 spent 0\naccepted 43\ngames 43 moves 68\n"
    ),
    run!("bind t t", THREE_TABLE, "input", 0, THREE_TWICE),
    run!("bind t u", THREE_TABLE, "input", 2, "file 2 shelf failed\n"),
    run!(
        "cover 1 4,7 t u",
        ONE_LEFT,
        "input",
        2,
        "file 2 shelf failed\n"
    ),
    run!(
        "join 4,7 t u",
        LEFT_BLOCKED,
        "input",
        2,
        "file 2 shelf failed\n"
    ),
    run!(
        "referee t",
        "renju-table 1\nrule gomoku\n",
        "no text",
        3,
        "refused line 2\n"
    ),
    run!("referee u", THREE_TABLE, "no text", 2, "shelf failed\n"),
    run!(
        "brain t",
        "renju-book 1\nnodes 1\n8,7 wins\n",
        BLOCK_LINES,
        3,
        "refused line 4\n"
    ),
    run!(
        "brain t",
        "renju-table 1\nrule gomoku\n",
        BLOCK_LINES,
        3,
        "refused line 2\n"
    ),
    run!(
        "brain t",
        "renju-table 1\nrule renju\nsize 15\nblack 7,0 7,1 7,2 2,3 7,4 7,5\nwhite 3,3 4,3 5,3 12,14 14,14\nmoves 1\nnodes 1\n7,3 wins\n",
        BLOCK_LINES,
        4,
        "refused not-won 7,3\n"
    ),
    run!("brain u", BLOCK_FOULS, BLOCK_LINES, 2, "shelf failed\n"),
];

/// The rows of each test. They stand in one place, since each proof of a function that names them goes through their texts.
fn rows(test: u8) -> &'static [Run] {
    match test {
        0 => &FAILING_READS,
        1 => &READS_AFTER,
        2 => &FAILING_WRITES,
        3 => &FAILING_LOADS,
        _ => &UNREAD,
    }
}

#[test]
fn a_failing_read_is_told(rt: HostRuntime) {
    compare_each(&rt, rows(0));
}

#[test]
fn nothing_is_read_after_the_end(rt: HostRuntime) {
    compare_each(&rt, rows(1));
}

#[test]
fn a_failing_write_leaves_the_front_of_the_text(rt: HostRuntime) {
    compare_each(&rt, rows(2));
}

#[test]
fn a_failing_shelf_is_told(rt: HostRuntime) {
    compare_each(&rt, rows(3));
}

#[test]
fn an_input_that_is_not_asked_is_left(rt: HostRuntime) {
    for row in rows(4) {
        let mut source = compare(&rt, row);
        let left = left_in(rt.alloc(), &mut source);
        same(&rt, (row.words, left), (row.words, Some(row.input.len())));
    }
}

/// An answer is written before the next line is read: of a byte at each read all but the first line is left.
#[test]
fn an_answer_is_written_before_the_next_line_is_read(rt: HostRuntime) {
    let row = run!("brain", "", "START 15\nEND\n", 8, "", piece: 1, writes: &[1]);
    let mut source = compare(&rt, &row);
    same(&rt, left_in(rt.alloc(), &mut source), Some("END\n".len()));
}

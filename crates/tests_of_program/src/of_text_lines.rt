//! Words, numbers, points and lines that are read and written.

use crate::compared::same;
use game_rules::Point;
use std::alloc::{AllocError, Global};
use text_lines::{
    after, cut, is_text, large_number, line, number, number_line, point, prefixed, push_line,
    push_number_line, push_points,
};

#[test]
fn reads_numbers_of_one_spelling(rt: HostRuntime) {
    same(&rt, number(b"0", 9), Some(0));
    same(&rt, number(b"4294967295", u32::MAX), Some(u32::MAX));
    same(&rt, number(b"4294967296", u32::MAX), None);
    let largest = large_number(b"18446744073709551615", u64::MAX);
    same(&rt, largest, Some(u64::MAX));
    same(&rt, large_number(b"18446744073709551616", u64::MAX), None);
}

#[test]
fn reads_no_other_numbers(rt: HostRuntime) {
    for text in [b"00".as_slice(), b"07", b"", b"+1", b"1 ", b"11"] {
        same(&rt, (text, number(text, 10)), (text, None));
    }
}

#[test]
fn reads_points_within_bounds(rt: HostRuntime) {
    same(&rt, point(b"14,0", 15, 1), Some(Point { x: 14, y: 0 }));
    for text in [b"15,0".as_slice(), b"0,1", b"0", b"0,0,0", b" 0,0"] {
        same(&rt, (text, point(text, 15, 1)), (text, None));
    }
    same(&rt, point(b"0,0", 0, 1), None);
}

#[test]
fn reads_words(rt: HostRuntime) {
    same(&rt, is_text(b"only", b"only"), true);
    same(&rt, is_text(b"only ", b"only"), false);
    let words = (b"a".as_slice(), Some(b"b c".as_slice()));
    same(&rt, cut(b"a b c", b' '), words);
    let rule = after(b"rule renju", b"rule ");
    same(&rt, rule, Some(b"renju".as_slice()));
}

#[test]
fn reads_lines(rt: HostRuntime) {
    let first = (b"size 9\r".as_slice(), b"rest".as_slice());
    same(&rt, line(b"size 9\r\nrest"), Some(first));
    same(&rt, line(b"size 9"), None);
    let size = (b"9".as_slice(), b"\n".as_slice());
    same(&rt, prefixed(b"size 9\n\n", b"size "), Some(size));
}

#[test]
fn reads_a_number_within_bounds(rt: HostRuntime) {
    let cases: [(&[u8], Option<(u32, &[u8])>); 3] = [
        (b"moves 7\n", Some((7, b""))),
        (b"moves 0\n", None),
        (b"moves 8\n", None),
    ];
    for (text, found) in cases {
        same(&rt, number_line(text, b"moves ", 1, 7), found);
    }
}

/// A line, a line with a number and points, written one behind another.
fn written(alloc: Global) -> Result<String, AllocError> {
    let mut text = String::new(alloc);
    push_line(&mut text, "renju-game 1")?;
    push_number_line(&mut text, "moves ", 2)?;
    push_points(&mut text, &[Point { x: 4, y: 10 }, Point { x: 0, y: 31 }])?;
    Ok(text)
}

#[test]
fn writes_lines_and_points(rt: HostRuntime) {
    let text = written(rt.alloc()).expect(&rt, "memory");
    same(&rt, text.as_str(), "renju-game 1\nmoves 2\n 4,10 0,31");
}

//! The lines that list moves that hold. Which moves hold on worked positions the program shows.

use crate::compared::same;
use defence_finder::write_defences;
use std::alloc::Global;
use test_boards::points_of;

/// The lines that list these points.
fn written(alloc: Global, list: &str) -> Option<Vec<u8>> {
    write_defences(alloc, &points_of(alloc, list)?).ok()
}

#[test]
fn lists_them_by_lines(rt: HostRuntime) {
    let none = written(rt.alloc(), "").expect(&rt, "lines");
    same(&rt, none.as_slice(), b"defences 0\n".as_slice());
    let some = written(rt.alloc(), "1,0 31,10").expect(&rt, "lines");
    same(&rt, some.as_slice(), b"defences 2\n1,0\n31,10\n".as_slice());
}

//! Verdicts by zones: on an attack and on a start, with and without a reply that has to be met, with just enough work and with less, and
//! of a side that has fouls.

use crate::compared::same;
use position_files::read_table;
use row_shapes::{Freestyle, Renju, Rule};
use std::alloc::Global;
use std::process::Abort;
use test_boards::position_of;
use zone_checker::{ZoneVerdict, check_by_zones};

/// Three in a row with both ends open: 4,7 makes a straight four, and 3,7 is answered by 8,7.
const THREE: &str =
    "renju-table 1\nrule freestyle\nsize 15\nblack 5,7 6,7 7,7\nwhite 0,0 2,0 4,0\nmoves 2\nnodes 3\n3,7 wins\n8,7 wins\n4,7 rest 0 3,7>1\n";

const THREE_WITHOUT_THE_BLOCK: &str =
    "renju-table 1\nrule freestyle\nsize 15\nblack 5,7 6,7 7,7\nwhite 0,0 2,0 4,0\nmoves 2\nnodes 3\n3,7 wins\n8,7 wins\n4,7 rest 0\n";

/// A straight four, and White is to move.
const FOUR: &str =
    "renju-table 2\nrule freestyle\nsize 15\nblack 4,7 5,7 6,7 7,7\nwhite 0,0 2,0 4,0\nmoves 1\nnodes 2\n3,7 wins\n8,7 wins\nstart rest 0 3,7>1\n";

/// What is said of its root by zones.
fn told<R: Rule>(
    alloc: Global,
    text: &str,
    black: &str,
    white: &str,
    work: u64,
) -> Option<ZoneVerdict> {
    let file = read_table(alloc, text.as_bytes()).ok()?;
    let position = position_of::<R>(alloc, black, white)?;
    if !file.root.names_below(file.table.len()) {
        return None;
    }
    check_by_zones(alloc, &file.table, &file.root, &position, work).ok()
}

/// The same of the three, with this work.
fn told_of_three<R: Rule>(alloc: Global, text: &str, work: u64) -> Option<ZoneVerdict> {
    told::<R>(alloc, text, "5,7 6,7 7,7", "0,0 2,0 4,0", work)
}

/// The same of the four.
fn told_of_four(alloc: Global, work: u64) -> Option<ZoneVerdict> {
    told::<Freestyle>(alloc, FOUR, "4,7 5,7 6,7 7,7", "0,0 2,0 4,0", work)
}

/// The attack, the rest after a pass, and the answer to 3,7: of the other replies none harms the five at 3,7.
#[test]
fn a_zone_accepts_where_each_reply_that_harms_is_met(rt: HostRuntime) {
    let accepted = ZoneVerdict::Accepted { moves: 2, pairs: 3 };
    same(
        &rt,
        told_of_three::<Freestyle>(rt.alloc(), THREE, 3),
        Some(accepted),
    );
    let told = told_of_three::<Freestyle>(rt.alloc(), THREE_WITHOUT_THE_BLOCK, 1000);
    same(&rt, told, Some(ZoneVerdict::Refused));
}

#[test]
fn a_zone_is_made_with_work_and_for_a_side_without_fouls(rt: HostRuntime) {
    let told = told_of_three::<Freestyle>(rt.alloc(), THREE, 2);
    same(&rt, told, Some(ZoneVerdict::Spent));
    let told = told_of_three::<Renju>(rt.alloc(), THREE, 1000);
    same(&rt, told, Some(ZoneVerdict::Refused));
}

/// The rest, and the answer to 3,7.
#[test]
fn a_start_is_accepted_by_a_zone(rt: HostRuntime) {
    let accepted = ZoneVerdict::Accepted { moves: 1, pairs: 2 };
    same(&rt, told_of_four(rt.alloc(), 2), Some(accepted));
    same(&rt, told_of_four(rt.alloc(), 1), Some(ZoneVerdict::Spent));
}

//! The shape of a stone, told by the two halves of its line.
//!
//! The stone is one of Black, in the middle. Whether `any` run of five or more wins, or only one of five, is what the rule
//! says of the side.
#![tactic(auto)]

ghost use Rattle.std.specs.Prelude.{◌≡◌, ◌≢◌, ◌≤◌, ◌<◌, ◌+◌, ◌==◌, nat_le, if◌then◌else◌};
ghost use Rattle.std.specs.Option.{ForSome};
ghost use Rattle.game_rules.specs.declared.Point.{Point};
ghost use Rattle.game_rules.specs.declared.Axis.{Axis};
ghost use Rattle.game_rules.specs.declared.Side.{Side};
ghost use Rattle.game_rules.specs.Grid.{Grid};
ghost use Rattle.game_rules.specs.Shapes.{fours_of};
ghost use Rattle.row_shapes.specs.LineShapes.{stone_shape};
ghost use Rattle.row_shapes.specs.Halves.{SeesLine, rule_by, is_open, three_off, nine_places as nine_places_lem, free_place as free_place_lem, wins_window as wins_window_lem, is_four_off, fours_off};
ghost use Rattle.row_shapes.specs.HalfTables.{seen};

use crate::Shape;
use crate::fours::are_stones;
use crate::halves::Half;
use crate::threes::{bit, place_towards};
use stone_board::Way;

/// The shape of the stone in the middle of a line with these halves.
pub(crate) fn shape_of_line(any: bool, ahead: &Half, behind: &Half) -> Shape
    ensures shape { (b : Grid) (p : Point) → SeesLine (seen ahead.now) (seen behind.now) b p →
        result ≡ stone_shape (rule_by any) b Side.Black Axis.Row p }
{
    let run = 1 + ahead.near + behind.near;
    Shape {
        five: is_win(any, run),
        over: run >= 6,
        fours: fours(any, ahead, behind),
        straight: is_open_four(any, ahead, behind, ahead.near, behind.near),
        three: bit(three_place(any, Way::Ahead, ahead, behind))
            | bit(three_place(any, Way::Behind, behind, ahead)),
    }
}

/// Whether a run of this length wins.
#[inline(always)]
fn is_win(any: bool, length: usize) -> bool
    ensures wins { result ≡ (if any then nat_le 5 length else length == 5) }
{
    if any { length >= 5 } else { length == 5 }
}

/// Whether four stones in a row, `fore` of them in the one half and `back` in the other, have two ends that win.
#[inline(always)]
fn is_open_four(any: bool, half: &Half, other: &Half, fore: usize, back: usize) -> bool
    requires fore { fore ≤ 6 }
    requires back { back ≤ 5 }
    ensures open { result ≡ is_open any (seen half.now) (seen other.now) fore back }
{
    fore + back == 3 && half.is_winning(any, 1 + fore) && other.is_winning(any, 1 + back)
}

/// The place of the three point in that way, if there is one: the first that holds no stone of Black. `half` is the one in
/// that way, and the stone is on place 5.
#[inline(always)]
fn three_place(any: bool, way: Way, half: &Half, other: &Half) -> Option<u8>
    ensures place { result ≡ three_off any way (seen half.now) (seen other.now) }
    ensures bound { ForSome result (λ i. i < 11) }
{
    if half.near + other.near <= 2
        && half.is_free(1 + half.near)
        && is_open_four(any, half, other, 1 + half.near + half.beyond, other.near)
    {
        Some(place_towards(way, 1 + half.near as u8))
    } else {
        None
    }
}

/// The number of fours of the stone in the middle. A four has three others within reach: those next to the middle, and those
/// past one empty place.
#[inline(always)]
fn fours(any: bool, ahead: &Half, behind: &Half) -> u8
    ensures fours { (b : Grid) (p : Point) → SeesLine (seen ahead.now) (seen behind.now) b p →
        result ≡ fours_of (rule_by any) b Side.Black Axis.Row p }
{
    if ahead.near + behind.near + ahead.beyond.max(behind.beyond) < 3 {
        return 0;
    }
    let stones = nine_places(ahead, behind);
    fours_from(any, ahead, behind, &stones, 0)
        + fours_from(any, ahead, behind, &stones, 1)
        + fours_from(any, ahead, behind, &stones, 2)
        + fours_from(any, ahead, behind, &stones, 3)
        + fours_from(any, ahead, behind, &stones, 4)
}

/// Which of the nine places around the middle hold stones of Black. Place 4 is the middle.
#[inline(always)]
fn nine_places(ahead: &Half, behind: &Half) -> [bool; 9]
    ensures stones { result ≡ nine_places_lem (seen ahead.now) (seen behind.now) }
{
    [
        behind.owns(4),
        behind.owns(3),
        behind.owns(2),
        behind.owns(1),
        true,
        ahead.owns(1),
        ahead.owns(2),
        ahead.owns(3),
        ahead.owns(4),
    ]
}

/// The number of fours among the five places that begin so many steps behind the middle, but for those without the first of
/// them.
fn fours_from(any: bool, ahead: &Half, behind: &Half, stones: &[bool; 9], first: u8) -> u8
    requires first { first < 5 }
    ensures fours { result ≡ fours_off any (seen ahead.now) (seen behind.now) stones.now first }
    ensures bound { result ≤ 4 }
{
    u8::from(is_four(any, ahead, behind, stones, first, 1))
        + u8::from(is_four(any, ahead, behind, stones, first, 2))
        + u8::from(is_four(any, ahead, behind, stones, first, 3))
        + u8::from(is_four(any, ahead, behind, stones, first, 4))
}

/// Whether these are four stones of a four.
#[inline(always)]
fn is_four(any: bool, ahead: &Half, behind: &Half, stones: &[bool; 9], first: u8, gap: u8) -> bool
    requires first { first < 5 }
    requires gap { gap < 5 }
    ensures four { result ≡ is_four_off any (seen ahead.now) (seen behind.now) stones.now first gap }
{
    first != gap
        && are_stones(stones, first, gap)
        && (wins_window(
            any,
            ahead,
            behind,
            4 - first as usize,
            (gap + 4 - first) as usize,
        ) || gap == 4 && wins_window(any, ahead, behind, 3 - first as usize, 3 - first as usize))
}

/// Whether one of the nine places wins: it is the one that is left out of five in a row, which begin at the place `start`, and
/// the others hold stones of Black.
#[inline(always)]
fn wins_window(any: bool, ahead: &Half, behind: &Half, start: usize, place: usize) -> bool
    requires start { start ≤ 4 }
    requires place { place < 9 }
    requires apart { place ≢ 4 }
    ensures wins { result ≡ wins_window_lem any (seen ahead.now) (seen behind.now) start place }
{
    free_place(ahead, behind, place) && (any || !behind.owns(5 - start) && !ahead.owns(start + 1))
}

/// Whether one of the nine places is empty.
#[inline(always)]
fn free_place(ahead: &Half, behind: &Half, place: usize) -> bool
    requires place { place < 9 }
    requires apart { place ≢ 4 }
    ensures free { result ≡ free_place_lem (seen ahead.now) (seen behind.now) place }
{
    if place > 4 {
        ahead.is_free(place - 4)
    } else {
        behind.is_free(4 - place)
    }
}

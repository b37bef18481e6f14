//! One half of a line: what stands in one way from a stone.
//!
//! What a stone makes is told by the two halves of its line. Each is kept as the bits of two numbers, with what it says alone:
//! how many stones stand next to the middle, and how many past the first place that holds none. A half is seen by Black, and
//! what is past its reach counts as taken by White.
#![tactic(auto)]

ghost use Rattle.std.specs.Prelude.{◌≡◌, ◌≤◌, ◌<◌, ◌+◌, ◌⊎◌, ◌==◌, ◌∷◌, [], if◌then◌else◌};
ghost use Rattle.std.specs.Int.{bit_at};
ghost use Rattle.game_rules.specs.Grid.{is_stone_of, is_empty_cell};
ghost use Rattle.game_rules.specs.declared.Side.{Side};
ghost use Rattle.row_shapes.specs.LineShapes.{cell_of_digit};
ghost use Rattle.row_shapes.specs.Halves.{owns as owns_lem, is_free as is_free_lem, row_past as row_past_lem, row_beyond, wins_off, half_cells, cells_of};

use stone_board::{Cell, Way};

/// One half of a line, and what it says alone.
#[derive(Drop)]
pub(crate) struct Half {
    /// Bit k is set where a stone of Black stands on the place k + 1 steps from the middle.
    own: u32,
    /// Bit k is set where that place is empty.
    free: u32,
    /// How many stones of Black stand in an unbroken row next to the middle.
    pub(crate) near: usize,
    /// How many stand past the first place that holds none, if that is empty.
    pub(crate) beyond: usize,
    ghost near_told: { near ≡ row_past_lem (cells_of own free) 0 },
    ghost beyond_told: { beyond ≡ row_beyond (cells_of own free) },
    ghost few: { near + beyond ≤ 5 },
}

impl Half {
    ghost use Rattle.row_shapes.specs.HalfTables.{seen};

    /// The half of these bits.
    #[inline(always)]
    pub(crate) fn new(own: u32, free: u32) -> Half
        requires own { own < 32 }
        requires free { free < 32 }
        ensures seen { seen result ≡ cells_of own free }
    {
        let near = own.trailing_ones() as usize;
        let beyond = if is_set(free, near) {
            (own >> (1 + near)).trailing_ones() as usize
        } else {
            0
        };
        Half {
            own,
            free,
            near,
            beyond,
        }
    }

    /// The half with these cells, the nearest first.
    pub(crate) fn of(first: Cell, second: Cell, third: Cell, fourth: Cell, fifth: Cell) -> Half
        ensures cells { seen result ≡ first ∷ second ∷ third ∷ fourth ∷ fifth ∷ [] }
    {
        let own = black(first)
            + 2 * black(second)
            + 4 * black(third)
            + 8 * black(fourth)
            + 16 * black(fifth);
        let free = empty(first)
            + 2 * empty(second)
            + 4 * empty(third)
            + 8 * empty(fourth)
            + 16 * empty(fifth);
        Half::new(own, free)
    }

    /// The half in that way of the line that has these digits there, the least first in reading order.
    pub(crate) fn of_digits(way: Way, reach: usize, digits: u32) -> Half
        requires reach { (reach ≡ 4) ⊎ (reach ≡ 5) }
        ensures cells { seen result ≡ half_cells way reach digits }
    {
        let first = cell_of(digits % 3);
        let second = cell_of(digits / 3 % 3);
        let third = cell_of(digits / 3 / 3 % 3);
        let fourth = cell_of(digits / 3 / 3 / 3 % 3);
        let fifth = cell_of(digits / 3 / 3 / 3 / 3 % 3);
        match way {
            Way::Ahead => {
                if reach == 4 {
                    Half::of(first, second, third, fourth, Cell::White)
                } else {
                    Half::of(first, second, third, fourth, fifth)
                }
            }
            Way::Behind => {
                if reach == 4 {
                    Half::of(fourth, third, second, first, Cell::White)
                } else {
                    Half::of(fifth, fourth, third, second, first)
                }
            }
        }
    }

    /// Whether a stone of Black stands so many steps from the middle.
    #[inline(always)]
    pub(crate) fn owns(&self, k: usize) -> bool
        requires near { 1 ≤ k }
        requires far { k ≤ 5 }
        ensures owns { result ≡ owns_lem (seen self.now) k }
    {
        is_set(self.own, k - 1)
    }

    /// Whether the place so many steps from the middle is empty.
    #[inline(always)]
    pub(crate) fn is_free(&self, k: usize) -> bool
        requires near { 1 ≤ k }
        requires far { k ≤ 5 }
        ensures free { result ≡ is_free_lem (seen self.now) k }
    {
        !is_set(self.own, k - 1) && is_set(self.free, k - 1)
    }

    /// Whether the place so many steps from the middle is empty, and wins where it has four stones next to it on the side
    /// of the middle. Where not `any` run of five or more wins, none may stand next to it on the other side.
    #[inline(always)]
    pub(crate) fn is_winning(&self, any: bool, k: usize) -> bool
        requires near { 1 ≤ k }
        requires far { k ≤ 4 }
        ensures wins { result ≡ wins_off any (seen self.now) k }
    {
        self.is_free(k) && (any || !self.owns(1 + k))
    }
}

/// Whether a bit is set.
#[inline(always)]
fn is_set(bits: u32, k: usize) -> bool
    requires bit { k < 32 }
    ensures set { result ≡ (bit_at bits k == 1) }
{
    bits >> k & 1 == 1
}

/// 1 where a cell holds a stone of Black, and else 0.
fn black(cell: Cell) -> u32
    ensures black { result ≡ (if is_stone_of Side.Black cell then 1 else 0) }
    ensures bound { result < 2 }
{
    u32::from(matches!(cell, Cell::Black))
}

/// 1 where a cell is empty, and else 0.
fn empty(cell: Cell) -> u32
    ensures empty { result ≡ (if is_empty_cell cell then 1 else 0) }
    ensures bound { result < 2 }
{
    u32::from(matches!(cell, Cell::Empty))
}

/// What a digit of a code stands for, as Black sees it.
fn cell_of(digit: u32) -> Cell
    ensures cell { result ≡ cell_of_digit digit }
{
    match digit {
        0 => Cell::Empty,
        1 => Cell::Black,
        _ => Cell::White,
    }
}

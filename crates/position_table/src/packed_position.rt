//! A board as a key.
//!
//! The width and the height stand beside 256 bytes with two bits for each cell, in reading order, which hold the cells of
//! the largest board. So a key takes no memory of its own, and two keys are equal exactly where the boards are the same.
#![tactic(auto)]

ghost use Rattle.std.specs.Prelude.{◌≡◌, ◌<◌, ◌≤◌, ◌+◌, ◌*◌, length};
ghost use Rattle.position_table.specs.Remembering.{TestTells};
ghost use Rattle.position_table.specs.Packing.{packed, KeysTellBoards, bytes_of as bytes_of_lem, byte_at as byte_at_lem, code_at as code_at_lem, code_of as code_of_lem};

use game_rules::Cell;
use std::hash::{Hash, Hasher};
use std::marker::Model;
use stone_board::Board;

/// How many bytes hold the cells of the largest board, two bits a cell.
pub const PACKED_BYTES: usize = 256;

/// A board packed, as a key: the width, the height and the cells.
#[derive(Clone, Copy, Debug, PartialEq, Eq)]
pub struct PackedPosition {
    width: u8,
    height: u8,
    bytes: [u8; PACKED_BYTES],
}

impl Model for PackedPosition {
    ghost use Rattle.position_table.specs.Packing.{Packed};

    ghost Value = { Packed };

    ghost view = { λ k. record { width = k.width; height = k.height; bytes = k.bytes } };

    ghost inverse = { λ p. record { width = p.width; height = p.height; bytes = p.bytes } };
}

impl Hash for PackedPosition {
    ghost use Rattle.position_table.specs.Hashing.{hashed, same_hashed};

    ghost hash_input = { hashed };

    ghost respects_eq = { same_hashed };

    // The bytes that hold cells are read at once, and the size is left out: one table mostly has boards of one size.
    fn hash<H: Hasher>(&self, state: &mut H) {
        let used = self.used();
        state.write(&self.bytes[..used]);
    }
}

impl PackedPosition {
    ghost use Rattle.position_table.specs.Hashing.{used as used_lem};

    /// How many bytes hold cells.
    fn used(&self) -> usize
        ensures used { result ≡ used_lem self.now }
        ensures within { result ≤ 256 }
    {
        let cells = self.width as usize * self.height as usize;
        ((cells + 3) / 4).min(PACKED_BYTES)
    }

    /// The key of the board. It takes no memory.
    pub fn of(board: &Board) -> PackedPosition
        ensures packed { result ≡ packed board.now }
    {
        PackedPosition {
            width: board.width(),
            height: board.height(),
            bytes: bytes_of(board.cells()),
        }
    }
}

/// The bytes of a board's cells. Those that have four come first, with no test for the end of the cells, since a key is made for each
/// look at a table.
fn bytes_of(cells: &[Cell]) -> [u8; PACKED_BYTES]
    ensures bytes { result ≡ bytes_of_lem cells.now }
{
    let mut bytes = [0; PACKED_BYTES];
    let whole = (cells.len() / 4).min(PACKED_BYTES);
    for k in 0..whole {
        bytes[k] = whole_byte(cells, k);
    }
    if whole == PACKED_BYTES {
        return bytes;
    }
    bytes[whole] = last_byte(cells, whole);
    bytes
}

/// Byte `k`, which has four cells.
#[inline(always)]
fn whole_byte(cells: &[Cell], k: usize) -> u8
    requires near { k < PACKED_BYTES }
    requires within { 4 * k + 3 < length cells.now }
    ensures byte { result ≡ byte_at_lem cells.now k }
{
    let place = 4 * k;
    byte(
        code_of(cells[place]),
        code_of(cells[place + 1]),
        code_of(cells[place + 2]),
        code_of(cells[place + 3]),
    )
}

/// Byte `k`, where three cells are left at most.
fn last_byte(cells: &[Cell], k: usize) -> u8
    requires near { k < PACKED_BYTES }
    requires end { length cells.now ≤ 4 * k + 3 }
    ensures byte { result ≡ byte_at_lem cells.now k }
{
    let place = 4 * k;
    byte(
        code_at(cells, place),
        code_at(cells, place + 1),
        code_at(cells, place + 2),
        0,
    )
}

/// The byte of four cells, two bits for each, the first of them in the lowest bits.
fn byte(first: u8, second: u8, third: u8, fourth: u8) -> u8
    requires first { first < 3 }
    requires second { second < 3 }
    requires third { third < 3 }
    requires fourth { fourth < 3 }
    ensures byte { result ≡ first + 4 * second + 16 * third + 64 * fourth }
{
    first + 4 * second + 16 * third + 64 * fourth
}

/// The two bits of the cell at a place, or 0 past the last cell.
#[inline(always)]
fn code_at(cells: &[Cell], place: usize) -> u8
    ensures code { result ≡ code_at_lem cells.now place }
    ensures bits { result < 3 }
{
    if place < cells.len() {
        code_of(cells[place])
    } else {
        0
    }
}

/// The two bits of a cell.
fn code_of(cell: Cell) -> u8
    ensures code { result ≡ code_of_lem cell }
    ensures bits { result < 3 }
{
    match cell {
        Cell::Empty => 0,
        Cell::Black => 1,
        Cell::White => 2,
    }
}

/// Two keys are equal, by `==` too, exactly where the boards are the same. So under one rule equal keys mean the same
/// lawful position.
pub fn keys_tell_boards()
    ensures boards { KeysTellBoards }
    ensures test { TestTells }
{}

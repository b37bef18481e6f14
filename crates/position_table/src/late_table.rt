//! A table of bounded size that is made late.
//!
//! A value counts the work that a look saves. A small one is not kept, since its work is done again in about the time of a look,
//! and the table is made only once some others have passed, since the first looks would pay for it. A key is as large as the
//! largest board, so it stays out of the frames of a walk that calls itself.
#![tactic(auto)]

ghost use Rattle.std.specs.Prelude.{◌≡◌, ◌<◌, ◌≤◌, [], IsSome, IsOk, OnOk, OnErr};
ghost use Rattle.position_table.specs.Packing.{packed};
ghost use Rattle.position_table.specs.Remembering.{value_under, looked_up};
ghost use Rattle.position_table.specs.Lateness.{kept_late};

use crate::{PackedPosition, WholeTable};
use std::alloc::{AllocError, Global};
use std::marker::Model;
use stone_board::Board;

/// A table of bounded size that is made late, seen by contracts as the list of its entries, the latest used first, with the least
/// value that is kept and how many of the others are still to pass. There are no entries before it is made, and it is made once none
/// is to pass.
#[derive(Drop)]
pub struct LateTable {
    alloc: Global,
    table: Option<WholeTable<u64>>,
    capacity: u32,
    least: u64,
    to_pass: u32,
}

impl Model for LateTable {
    ghost use Rattle.std.specs.Prelude.{◌<◌, []};
    ghost use Rattle.std.specs.Option.{option_map_or};
    ghost use Rattle.position_table.specs.Lateness.{Late, IsMadeInTime};

    ghost Value = { Late };

    ghost view = { λ t. record {
      table = option_map_or (λ made. made) t.table (record { entries = []; capacity = t.capacity });
      least = t.least;
      to_pass = t.to_pass;
    } };

    ghost invariant = { λ t. (0 < t.capacity) × IsMadeInTime t.table t.to_pass };
}

impl LateTable {
    /// An empty table of this capacity, which is at least 1. Values below `least` are never kept, and neither are the first
    /// `to_pass` of the others, at least 1: the last of these makes the table, and until then it takes no memory.
    pub fn new(alloc: Global, capacity: u32, least: u64, to_pass: u32) -> LateTable
        requires capacity { 0 < capacity }
        requires some_pass { 0 < to_pass }
        ensures empty { result ≡ record {
          table = record { entries = []; capacity = capacity };
          least = least;
          to_pass = to_pass;
        } }
    {
        LateTable {
            alloc,
            table: None,
            capacity,
            least,
            to_pass,
        }
    }

    /// The value of the board under this tag, if it is remembered. Its entry becomes the latest used. The key stays out of the
    /// caller's frame.
    #[inline(never)]
    pub fn find(&mut self, board: &Board, tag: u32) -> Option<u64>
        ensures value { result ≡ value_under (packed board.now, tag) self.old.table }
        ensures entries { self.new ≡ record self.old { table = looked_up (packed board.now, tag) self.old.table } }
    {
        match &mut self.table {
            None => None,
            Some(table) => table.find(&PackedPosition::of(board), tag),
        }
    }

    /// Keeps the value of the board under this tag, if it is not too small and none is to pass; one that is to pass is counted, and
    /// the last of them makes the table. `Err` says that memory ran out, which is not so where a value is too small, where more than
    /// one is to pass or where an entry of this board and tag is held; all is then as it was.
    pub fn keep(&mut self, board: &Board, tag: u32, value: u64) -> Result<(), AllocError>
        ensures kept { OnOk result (self.new ≡ kept_late (packed board.now, tag) value self.old) }
        ensures refused { OnErr result (self.new ≡ self.old) }
        ensures small { value < self.old.least → IsOk result }
        ensures passed { 1 < self.old.to_pass → IsOk result }
        ensures held { IsSome (value_under (packed board.now, tag) self.old.table) → IsOk result }
    {
        if value < self.least {
            return Ok(());
        }
        self.admit(board, tag, value)
    }

    /// The same where the value is not too small. Here too the key stays out of the caller's frame.
    #[inline(never)]
    fn admit(&mut self, board: &Board, tag: u32, value: u64) -> Result<(), AllocError>
        requires enough { self.old.least ≤ value }
        ensures kept { OnOk result (self.new ≡ kept_late (packed board.now, tag) value self.old) }
        ensures refused { OnErr result (self.new ≡ self.old) }
        ensures passed { 1 < self.old.to_pass → IsOk result }
        ensures held { IsSome (value_under (packed board.now, tag) self.old.table) → IsOk result }
    {
        match &mut self.table {
            Some(table) => table.keep(PackedPosition::of(board), tag, value),
            None if self.to_pass > 1 => {
                self.to_pass -= 1;
                Ok(())
            }
            None => {
                self.table = Some(WholeTable::new(self.alloc, self.capacity)?);
                self.to_pass = 0;
                Ok(())
            }
        }
    }
}

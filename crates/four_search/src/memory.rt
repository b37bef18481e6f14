//! What searches remember: positions in which there is no win within some moves, and how many positions this took.
//!
//! Fours that are played in another order lead to the same position, and so may fours after another reply. Where it is remembered
//! its positions are counted and not looked at again. What is remembered is true of the position alone, so one memory serves all
//! searches under its rule. Only a position that took many is kept, and with few moves left none is looked up.
#![tactic(auto)]

ghost use Rattle.std.specs.Prelude.{◌≡◌, ◌<◌, if◌then◌else◌, nat_lt, [], None, IsSome, IfSome, IsOk, OnOk, OnErr};
ghost use Rattle.game_rules.specs.Play.{IsPosition};
ghost use Rattle.position_table.specs.Packing.{packed};
ghost use Rattle.position_table.specs.Remembering.{value_under, looked_up};
ghost use Rattle.position_table.specs.Lateness.{kept_late};
ghost use Rattle.four_search.specs.Remembering.{IsDenied};

use position_table::LateTable;
use row_shapes::Rule;
use std::alloc::{AllocError, Global};
use std::marker::{Model, PhantomData};
use stone_board::Board;

/// How many positions are remembered at most.
const MEMORY_ENTRIES: u32 = 65_536;

/// The least moves within which a position is looked up. With fewer it is searched in about the time of a look.
const LEAST_MOVES: u32 = 3;

/// The least count that is kept.
const LEAST_COUNT: u64 = 64;

/// How many such counts pass before any is kept.
const COUNTS_BEFORE: u32 = 64;

/// What searches under one rule remember, seen by contracts as a table that is made late, of positions with the moves as tag and the
/// count as value. All that stands in it is true at every lawful position with its key, which is an invariant of the type.
#[derive(Drop)]
pub struct FourMemory<R: Rule> {
    alloc: Global,
    table: LateTable,
    rule: PhantomData<R>,
}

impl<R: Rule> Model for FourMemory<R> {
    ghost use Rattle.position_table.specs.Lateness.{Late};
    ghost use Rattle.four_search.specs.Remembering.{IsTrueMemory};

    ghost Value = { Late };

    ghost view = { λ m. m.table };

    ghost invariant = { λ m. IsTrueMemory R.KIND m.table };
}

impl<R: Rule> FourMemory<R> {
    /// Nothing is remembered. It takes no memory.
    pub fn new(alloc: Global) -> FourMemory<R>
        ensures empty { result ≡ record {
          table = record { entries = []; capacity = MEMORY_ENTRIES };
          least = LEAST_COUNT;
          to_pass = COUNTS_BEFORE;
        } }
    {
        FourMemory {
            alloc,
            table: LateTable::new(alloc, MEMORY_ENTRIES, LEAST_COUNT, COUNTS_BEFORE),
            rule: PhantomData,
        }
    }

    /// Where its searches take memory.
    pub(crate) fn alloc(&self) -> Global {
        self.alloc
    }

    /// How many positions it takes to find no win by fours within so many moves, if the board is remembered and a look pays.
    pub fn find(&mut self, board: &Board, moves: u32) -> Option<u64>
        requires lawful { IsPosition R.KIND board.now }
        ensures denied { IfSome result (IsDenied R.KIND board.now moves) }
        ensures value { result ≡ (if nat_lt moves LEAST_MOVES then None else value_under (packed board.now, moves) self.old.table) }
        ensures entries { self.new ≡ (if nat_lt moves LEAST_MOVES then self.old
            else record self.old { table = looked_up (packed board.now, moves) self.old.table }) }
    {
        if moves < LEAST_MOVES {
            return None;
        }
        self.table.find(board, moves)
    }

    /// Keeps how many positions it takes to find no win by fours within so many moves, where that pays. `Err` says that memory ran
    /// out; all is then as it was.
    pub fn keep(&mut self, board: &Board, moves: u32, count: u64) -> Result<(), AllocError>
        requires lawful { IsPosition R.KIND board.now }
        requires denied { IsDenied R.KIND board.now moves count }
        ensures kept { OnOk result (self.new ≡ (if nat_lt moves LEAST_MOVES then self.old
            else kept_late (packed board.now, moves) count self.old)) }
        ensures refused { OnErr result (self.new ≡ self.old) }
        ensures few { moves < LEAST_MOVES → IsOk result }
        ensures small { count < self.old.least → IsOk result }
        ensures passed { 1 < self.old.to_pass → IsOk result }
        ensures held { IsSome (value_under (packed board.now, moves) self.old.table) → IsOk result }
    {
        if moves < LEAST_MOVES {
            return Ok(());
        }
        self.table.keep(board, moves, count)
    }
}

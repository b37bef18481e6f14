//! What a walk remembers: boards from which no list of so many threats has a final point.
//!
//! Threats that have nothing to do with each other lead to one board in each of their orders, and each number of threats is walked
//! anew, so most boards are met often. The last gain of a list is needed by its final point alone, so whether a point can end a list
//! shows in the board after it and in that gain, whatever came before. Where no point can end any list that goes on from a board, none
//! of them is a sequence, wherever the walk came from, and it is enough to know how many there are.
#![tactic(auto)]

ghost use Rattle.std.specs.Prelude.{◌≡◌, [], IfSome, OnOk, OnErr};
ghost use Rattle.position_table.specs.Packing.{packed};
ghost use Rattle.position_table.specs.Remembering.{value_under, looked_up};
ghost use Rattle.position_table.specs.Lateness.{kept_late};
ghost use Rattle.threat_space.specs.Barren.{IsBarren};

use position_table::LateTable;
use row_shapes::Rule;
use std::alloc::{AllocError, Global};
use std::marker::{Model, PhantomData};
use stone_board::{Board, Side};

/// How many boards are remembered at most.
const MEMORY_ENTRIES: u32 = 16_384;

/// How many boards pass before any is kept. A small search takes no memory for them.
const BOARDS_BEFORE: u32 = 64;

/// What a walk under one rule remembers for one side, seen by contracts as a table that is made late, of boards with the number of
/// threats as tag and the number of lists as value. All that stands in it is true, which is an invariant of the type.
#[derive(Drop)]
pub(crate) struct BarrenBoards<R: Rule> {
    side: Side,
    table: LateTable,
    rule: PhantomData<R>,
}

impl<R: Rule> Model for BarrenBoards<R> {
    ghost use Rattle.threat_space.specs.Barren.{BarrenMemory, IsTrueBarrenMemory};

    ghost Value = { BarrenMemory };

    ghost view = { λ m. record { side = m.side; late = m.table } };

    ghost invariant = { λ m. IsTrueBarrenMemory R.KIND (record { side = m.side; late = m.table }) };
}

impl<R: Rule> BarrenBoards<R> {
    /// Nothing is remembered of the side's threats. It takes no memory.
    pub(crate) fn new(alloc: Global, side: Side) -> BarrenBoards<R>
        ensures empty { result ≡ record {
          side = side;
          late = record {
            table = record { entries = []; capacity = MEMORY_ENTRIES };
            least = 0;
            to_pass = BOARDS_BEFORE;
          };
        } }
    {
        BarrenBoards {
            side,
            table: LateTable::new(alloc, MEMORY_ENTRIES, 0, BOARDS_BEFORE),
            rule: PhantomData,
        }
    }

    /// How many lists of exactly so many threats go on from the board, if it is remembered that none of them has a final point.
    pub(crate) fn find(&mut self, board: &Board, more: u32) -> Option<u64>
        ensures barren { IfSome result (IsBarren R.KIND self.old.side board.now more) }
        ensures value { result ≡ value_under (packed board.now, more) self.old.late.table }
        ensures entries { self.new ≡ record self.old {
          late = record self.old.late { table = looked_up (packed board.now, more) self.old.late.table };
        } }
    {
        // This tells that the board is sound.
        let _ = board.width();
        self.table.find(board, more)
    }

    /// Keeps how many lists of exactly so many threats go on from the board, none of which has a final point. `Err` says that memory
    /// ran out; all is then as it was.
    pub(crate) fn keep(&mut self, board: &Board, more: u32, count: u64) -> Result<(), AllocError>
        requires barren { IsBarren R.KIND self.old.side board.now more count }
        ensures kept { OnOk result (self.new ≡ record self.old { late = kept_late (packed board.now, more) count self.old.late }) }
        ensures refused { OnErr result (self.new ≡ self.old) }
    {
        // This tells that the board is sound.
        let _ = board.width();
        self.table.keep(board, more, count)
    }
}

//! A table that is held with roots at which it is accepted.
//!
//! Each root is checked when it is added, and the table never changes, so that whoever has a held table may play by it
//! from any of its roots.
#![tactic(auto)]

ghost use Rattle.std.specs.Prelude.{◌≡◌, ◌≤◌, ◌<◌, ◌++◌, [], ◌∷◌, true, length, slice_get, Some, IfOk, IfErr, OnOk, OnErr};
ghost use Rattle.std.specs.Option.{option_map};
ghost use Rattle.game_rules.specs.Play.{IsPosition};
ghost use Rattle.strategy_graph.specs.Roots.{AcceptedRoot, LeadsRoot, root_arrivals, root_below, root_depth};
ghost use Rattle.strategy_checker.specs.HeldRoots.{IsHeld};
ghost use Rattle.strategy_checker.specs.HeldErrors.{IfRootRefused, IfRootSpent};

use crate::{HeldError, MAX_ROOTS, check_root};
use foul_judge::Position;
use row_shapes::{Rule, RuleKind};
use std::alloc::Global;
use std::marker::Model;
use stone_board::Board;
use strategy_graph::{Root, Table};

/// A root that is held, with its rule and the board of its position.
#[derive(Drop)]
pub struct HeldRoot {
    pub root: Root,
    pub kind: RuleKind,
    pub board: Board,
}

/// A table and at most `MAX_ROOTS` roots of it. Each root is accepted at its position under its rule.
#[derive(Drop)]
pub struct Held {
    table: Table,
    roots: Vec<HeldRoot>,
}

impl Model for Held {
    ghost use Rattle.strategy_checker.specs.HeldRoots.{HeldTable, IsHeld};

    ghost Value = { HeldTable };

    ghost view = { λ h. record { table = h.table; roots = h.roots.items } };

    ghost invariant = { λ h. IsHeld (record { table = h.table; roots = h.roots.items }) };
}

impl Held {
    /// The table with no roots. It takes no memory.
    pub fn new(alloc: Global, table: Table) -> Held
        ensures table { result.table ≡ table }
        ensures no_roots { result.roots ≡ [] }
    {
        Held {
            table,
            roots: Vec::new(alloc),
        }
    }

    /// Checks the root at the board under the rule with at most `work` arrivals, as `check_root` does, adds it last, and answers
    /// its moves, which are its depth. After an `Err` the held table is as before, and the root and the board are gone:
    ///
    /// - `Refused`, only where the root is not accepted at the board;
    /// - `Spent`, only where the arrivals are above `work`;
    /// - `Memory`, where there is no memory to check the root or to keep it.
    pub fn add_at(
        &mut self,
        kind: RuleKind,
        board: Board,
        root: Root,
        work: u64,
    ) -> Result<u32, HeldError>
        requires lawful { IsPosition kind board }
        requires below { root_below root (length self.old.table) ≡ true }
        requires room { length self.old.roots < MAX_ROOTS }
        ensures moves { IfOk result (λ moves. moves ≡ root_depth self.old.table root) }
        ensures accepted { OnOk result (AcceptedRoot kind self.old.table root board) }
        ensures arrivals { OnOk result (root_arrivals kind self.old.table root board ≤ work) }
        ensures table { OnOk result (self.new.table ≡ self.old.table) }
        ensures added { OnOk result
            (self.new.roots
            ≡ self.old.roots ++ record { root = root; kind = kind; board = board } ∷ []) }
        ensures refused { IfErr result
            (IfRootRefused (λ line why. ¬ AcceptedRoot kind self.old.table root board)) }
        ensures leads { IfErr result
            (IfRootRefused (λ line why. LeadsRoot kind self.old.table root board line why)) }
        ensures spent { IfErr result
            (IfRootSpent (work < root_arrivals kind self.old.table root board)) }
        ensures unchanged { OnErr result (self.new ≡ self.old) }
    {
        let alloc = *self.roots.allocator();
        check_root(alloc, kind, &board, &self.table, &root, work)?;
        let moves = self.table.root_depth(&root).unwrap();
        let held = HeldRoot { root, kind, board };
        if self.roots.push(held).is_err() {
            return Err(HeldError::Memory);
        }
        Ok(moves)
    }

    /// Checks the root at the position and adds it, as `add_at` does at the board of the position.
    pub fn add<R: Rule>(
        &mut self,
        root: Root,
        position: Position<R>,
        work: u64,
    ) -> Result<u32, HeldError>
        requires below { root_below root (length self.old.table) ≡ true }
        requires room { length self.old.roots < MAX_ROOTS }
        ensures moves { IfOk result (λ moves. moves ≡ root_depth self.old.table root) }
        ensures accepted { OnOk result (AcceptedRoot R.KIND self.old.table root position) }
        ensures arrivals { OnOk result (root_arrivals R.KIND self.old.table root position ≤ work) }
        ensures table { OnOk result (self.new.table ≡ self.old.table) }
        ensures added { OnOk result
            (self.new.roots
            ≡ self.old.roots ++ record { root = root; kind = R.KIND; board = position } ∷ []) }
        ensures refused { IfErr result
            (IfRootRefused (λ line why. ¬ AcceptedRoot R.KIND self.old.table root position)) }
        ensures leads { IfErr result
            (IfRootRefused (λ line why. LeadsRoot R.KIND self.old.table root position line why)) }
        ensures spent { IfErr result
            (IfRootSpent (work < root_arrivals R.KIND self.old.table root position)) }
        ensures unchanged { OnErr result (self.new ≡ self.old) }
    {
        self.add_at(R::KIND, position.into_board(), root, work)
    }

    /// The table.
    pub fn table(&self) -> &Table
        ensures table { result.now ≡ self.now.table }
        ensures held { IsHeld self.now }
    {
        &self.table
    }

    /// How many roots are held.
    pub fn len(&self) -> u32
        ensures count { result ≡ length self.now.roots }
        ensures held { IsHeld self.now }
    {
        self.roots.len() as u32
    }

    /// Root `i`, counted from 0.
    pub fn root(&self, i: u32) -> &Root
        requires held { i < length self.now.roots }
        ensures root { option_map (λ r. r.root) (slice_get self.now.roots i) ≡ Some result.now }
    {
        &self.roots[i as usize].root
    }

    /// The rule under which root `i` is accepted.
    pub fn kind(&self, i: u32) -> RuleKind
        requires held { i < length self.now.roots }
        ensures kind { option_map (λ r. r.kind) (slice_get self.now.roots i) ≡ Some result }
    {
        self.roots[i as usize].kind
    }

    /// The board of the position at which root `i` is accepted.
    pub fn board(&self, i: u32) -> &Board
        requires held { i < length self.now.roots }
        ensures board { option_map (λ r. r.board) (slice_get self.now.roots i) ≡ Some result.now }
    {
        &self.roots[i as usize].board
    }
}

//! Looks at positions of the defender, and what is remembered of them.
//!
//! Moves in other orders lead to the same positions, and the tree has a node of the defender for each way there. What the replies come to
//! rests on the position alone, so it is looked for once. A position of the attacker mostly has one node with children, so its moves are
//! looked for once without being remembered.
#![tactic(auto)]

ghost use Rattle.std.specs.Prelude.{◌≡◌, ◌⊎◌, ◌≤◌, ◌<◌, ◌+◌, ◌-◌, ℕ, false, true, [], length, IfOk, IfSome, IfNone, IsTrue};
ghost use Rattle.game_rules.specs.Play.{IsPosition, mover};
ghost use Rattle.game_rules.specs.Games.{has_five};
ghost use Rattle.position_table.specs.Packing.{packed};
ghost use Rattle.position_table.specs.Remembering.{looked_up, value_under, kept};
ghost use Rattle.threat_game.specs.ThreatGame.{LosesToThreats};
ghost use Rattle.threat_game.specs.Attacks.{has_reply};
ghost use Rattle.threat_game.specs.Replies.{AreReplies, AreChildren};
ghost use Rattle.proof_number.specs.Denials.{WinsByFewFours};
ghost use Rattle.proof_number.specs.Looks.{IsTrueLook, part_of, table_in};

use crate::denials::is_denied;
use crate::spans::{Span, add_list, list_at};
use foul_judge::Seen;
use position_table::{PackedPosition, WholeTable};
use row_shapes::Rule;
use std::alloc::{AllocError, Global};
use std::marker::{Model, PhantomData};
use stone_board::Board;
use threat_game::{Child, Children, judge_replies};

/// So many looks are remembered at most.
const LOOKS: u32 = 16_384;

/// So many looks that could be kept pass before any is. A small search seldom comes to a position again.
const LOOKS_BEFORE: u32 = 1_024;

/// What a look at a position came to.
#[derive(Clone, Copy)]
pub(crate) enum Look {
    /// The side to move wins by its own fours.
    Denied,
    /// After a reply there is no win.
    Escape,
    /// The children stand there, and so many positions are counted for them.
    Replies(Span, u64),
}

/// What is remembered under one rule of looks at positions. All that stands in it is true, which is an invariant of the type.
#[derive(Drop)]
pub(crate) struct Looks<R: Rule> {
    alloc: Global,
    table: Option<WholeTable<Look>>,
    children: Vec<Child>,
    to_pass: u32,
    rule: PhantomData<R>,
}

impl<R: Rule> Model for Looks<R> {
    ghost use Rattle.proof_number.specs.Looks.{LookMemory, IsTrueLookMemory, table_in};

    ghost Value = { LookMemory };

    ghost view = { λ m. record {
      table = table_in m.table;
      children = m.children.items;
      to_pass = m.to_pass;
    } };

    ghost invariant = { λ m. IsTrueLookMemory R.KIND (record {
      table = table_in m.table;
      children = m.children.items;
      to_pass = m.to_pass;
    }) };
}

impl<R: Rule> Looks<R> {
    /// Nothing is remembered. It takes no memory.
    pub(crate) fn new(alloc: Global) -> Looks<R>
        ensures empty { result ≡ record {
          table = record { entries = []; capacity = LOOKS };
          children = [];
          to_pass = LOOKS_BEFORE;
        } }
    {
        Looks {
            alloc,
            table: None,
            children: Vec::new(alloc),
            to_pass: LOOKS_BEFORE,
            rule: PhantomData,
        }
    }

    /// What is remembered of the position, where the attacker has so many more moves.
    fn find(&mut self, board: &Board, moves: u32) -> Option<Look>
        requires lawful { IsPosition R.KIND board.now }
        ensures look { IfSome result (IsTrueLook R.KIND self.old.children board.now moves) }
        ensures value { result ≡ value_under (packed board.now, moves) self.old.table }
        ensures table { self.new ≡ record self.old { table = looked_up (packed board.now, moves) self.old.table } }
    {
        find_in(&mut self.table, board, moves)
    }

    /// Whether a look is kept: the first ones pass and are counted, and then there is a table, if there is memory for one.
    fn is_ready(&mut self) -> bool
        ensures rest { self.new ≡ record self.old { to_pass = self.old.to_pass - 1 } }
        ensures passed { 0 < self.old.to_pass → result ≡ false }
    {
        if self.to_pass > 0 {
            self.to_pass -= 1;
            return false;
        }
        if self.table.is_some() {
            return true;
        }
        match WholeTable::new(self.alloc, LOOKS) {
            Ok(table) => {
                self.table = Some(table);
                true
            }
            Err(_) => false,
        }
    }

    /// Keeps what a look at the position came to, if there is a table and memory.
    fn keep(&mut self, board: &Board, moves: u32, look: Look)
        requires lawful { IsPosition R.KIND board.now }
        requires look { IsTrueLook R.KIND self.old.children board.now moves look }
        ensures kept { (self.new ≡ record self.old { table = kept (packed board.now, moves) look self.old.table })
            ⊎ (self.new ≡ self.old) }
    {
        keep_in(&mut self.table, board, moves, look);
    }

    /// Remembers a look that speaks of no list, unless it passes.
    fn remember(&mut self, board: &Board, moves: u32, look: Look)
        requires lawful { IsPosition R.KIND board.now }
        requires look { IsTrueLook R.KIND self.old.children board.now moves look }
    {
        if self.is_ready() {
            self.keep(board, moves, look);
        }
    }

    /// Forgets all, so that there is room again.
    fn clear(&mut self)
        ensures empty { self.new ≡ record {
          table = record { entries = []; capacity = LOOKS };
          children = [];
          to_pass = self.old.to_pass;
        } }
    {
        self.table = None;
        self.children.clear();
    }

    /// Whether the side to move is seen to win by continuous fours, where the other side, which has so many more moves, has no five
    /// point. The view is as before, also where memory ran out.
    pub(crate) fn is_denied<V: Seen<R>>(
        &mut self,
        view: &mut V,
        moves: u32,
    ) -> Result<bool, AllocError>
        requires no_five { has_five R.KIND (V.position view.old) (mover (V.position view.old)) ≡ false }
        ensures denied { IfOk result (λ found. IsTrue found → (n : ℕ) → ¬ LosesToThreats R.KIND n (V.position view.old)) }
        ensures fours { IfOk result (λ found. IsTrue found → WinsByFewFours R.KIND (V.position view.old)) }
        ensures same { V.position view.new ≡ V.position view.old }
    {
        // This tells that the position is lawful.
        view.side();
        match self.find(view.board(), moves) {
            Some(Look::Denied) => Ok(true),
            Some(_) => Ok(false),
            None => {
                let denied = is_denied::<R, V>(self.alloc, view)?;
                if denied {
                    self.remember(view.board(), moves, Look::Denied);
                }
                Ok(denied)
            }
        }
    }

    /// The replies of the side to move, as `judge_replies` of the game of threats tells them. The view is as before, also where memory
    /// ran out, and so is the board, a copy of its own.
    pub(crate) fn judge_replies<V: Seen<R>>(
        &mut self,
        view: &mut V,
        board: &mut Board,
        moves: u32,
    ) -> Result<Option<Children>, AllocError>
        requires some_moves { 1 ≤ moves }
        requires no_five { has_five R.KIND (V.position view.old) (mover (V.position view.old)) ≡ false }
        requires reply { has_reply R.KIND (V.position view.old) ≡ true }
        requires copy { board.old ≡ V.position view.old }
        ensures replies { IfOk result (λ found. AreReplies R.KIND moves (V.position view.old) found) }
        ensures early { IfOk result (λ found. IfNone found (moves ≤ 2)) }
        ensures same { V.position view.new ≡ V.position view.old }
        ensures same_board { board.new ≡ board.old }
    {
        // This tells that the position is lawful.
        view.side();
        match self.find(board, moves) {
            Some(Look::Escape) => Ok(None),
            Some(Look::Replies(span, count)) => Ok(Some(self.known_children(span, count)?)),
            _ => self.judge_anew::<V>(view, board, moves),
        }
    }

    /// The same where no replies are remembered.
    fn judge_anew<V: Seen<R>>(
        &mut self,
        view: &mut V,
        board: &mut Board,
        moves: u32,
    ) -> Result<Option<Children>, AllocError>
        requires some_moves { 1 ≤ moves }
        requires no_five { has_five R.KIND (V.position view.old) (mover (V.position view.old)) ≡ false }
        requires reply { has_reply R.KIND (V.position view.old) ≡ true }
        requires copy { board.old ≡ V.position view.old }
        requires lawful { IsPosition R.KIND (V.position view.old) }
        ensures replies { IfOk result (λ found. AreReplies R.KIND moves (V.position view.old) found) }
        ensures early { IfOk result (λ found. IfNone found (moves ≤ 2)) }
        ensures same { V.position view.new ≡ V.position view.old }
        ensures same_board { board.new ≡ board.old }
    {
        let found = judge_replies::<R, V>(self.alloc, view, board, moves)?;
        match &found {
            None => self.remember(board, moves, Look::Escape),
            Some(children) => self.keep_replies(board, moves, children),
        }
        Ok(found)
    }

    /// The children that are remembered.
    fn known_children(&self, span: Span, count: u64) -> Result<Children, AllocError>
        requires within { span.first + span.count ≤ length self.now.children }
        ensures all { IfOk result (λ children. children.all.items ≡ part_of span self.now.children) }
        ensures count { IfOk result (λ children. children.count ≡ count) }
    {
        let mut all = Vec::new(self.alloc);
        all.extend_from_slice(list_at(self.children.as_slice(), span))?;
        Ok(Children { all, count })
    }

    /// Remembers the children, unless they pass. Where there is no room for them, all is forgotten.
    fn keep_replies(&mut self, board: &Board, moves: u32, children: &Children)
        requires lawful { IsPosition R.KIND board.now }
        requires children { AreChildren R.KIND moves board.now children.now }
    {
        if !self.is_ready() {
            return;
        }
        match add_list(&mut self.children, children.all.as_slice()) {
            Some(span) => self.keep(board, moves, Look::Replies(span, children.count)),
            None => self.clear(),
        }
    }
}

/// What is remembered of the board with so many moves left, in a table that is made late.
fn find_in(table: &mut Option<WholeTable<Look>>, board: &Board, moves: u32) -> Option<Look>
    ensures value { result ≡ value_under (packed board.now, moves) (table_in table.old) }
    ensures table { table_in table.new ≡ looked_up (packed board.now, moves) (table_in table.old) }
{
    match table {
        None => None,
        Some(table) => table.find(&PackedPosition::of(board), moves),
    }
}

/// Keeps the look in the table, if there is one and there is memory.
fn keep_in(table: &mut Option<WholeTable<Look>>, board: &Board, moves: u32, look: Look)
    ensures kept { (table_in table.new ≡ kept (packed board.now, moves) look (table_in table.old))
        ⊎ (table_in table.new ≡ table_in table.old) }
{
    if let Some(table) = table {
        let _ = table.keep(PackedPosition::of(board), moves, look);
    }
}

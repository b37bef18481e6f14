//! Positions of the attacker that are settled: they are compiled, if they are won, and remembered.
//!
//! On the way back from a leaf each node of the attacker that its numbers prove gets its win: the proved attack, with the
//! answers to all replies, whose wins are compiled already. A reply without a node is answered by the win of the first that has
//! one, as each other point of the board is. So a win of the root is a table as soon as it is proved. What is
//! settled, won or not, is remembered under its position and the moves that were left.
#![tactic(auto)]

ghost use Rattle.std.specs.Prelude.{◌≡◌, ◌⊎◌, ◌↔◌, IsTrue, All, ◌<◌, ◌≤◌, ◌+◌, true, map, take, drop, length, IfOk, IfSome};
ghost use Rattle.game_rules.specs.Grid.{points_of};
ghost use Rattle.position_table.specs.Packing.{packed};
ghost use Rattle.position_table.specs.Remembering.{kept};
ghost use Rattle.strategy_graph.specs.Tables.{greatest};
ghost use Rattle.strategy_compiler.specs.Growth.{Writes};
ghost use Rattle.strategy_compiler.specs.Forks.{WinsByAnswers};
ghost use Rattle.strategy_compiler.specs.Wins.{IsWrittenWin};
ghost use Rattle.proof_tree.specs.Combining.{settled_numbers};
ghost use Rattle.proof_tree.specs.Trees.{IsChild, IsOnWayUp, link_at, numbers_at};
ghost use Rattle.proof_tree.specs.declared.Kind.{Kind as AnyKind};
ghost use Rattle.proof_number.specs.Notes.{note_at, all_notes, answer_of, noted_for as noted_for_lem};
ghost use Rattle.proof_number.specs.GameTrees.{board_at, left_at};
ghost use Rattle.proof_number.specs.Remembered.{IsTrueOf};
ghost use Rattle.proof_number.specs.Searches.{Searches, IsPassed, game_of, noted_won};

use crate::notes::{Note, Settled};
use crate::search::Search;
use foul_judge::Seen;
use position_table::PackedPosition;
use proof_tree::{Kind, Link, ProofTree};
use row_shapes::Rule;
use std::alloc::{AllocError, Global};
use stone_board::{Board, Point};
use strategy_compiler::{Compiler, SearchError, WrittenWin};
use strategy_graph::Reply;

impl Search {
    /// Compiles and remembers the position of a node, if it is an attacker's and settled. The view is at the node.
    pub(crate) fn record<R: Rule, V: Seen<R>>(
        &mut self,
        view: &V,
        tree: &ProofTree,
        compiler: &mut Compiler,
        node: u32,
    ) -> Result<(), SearchError>
        requires in_tree { node < length tree.now.links }
        requires searching { Searches R.KIND self.old tree.now compiler.old (IsOnWayUp tree.now.links node) }
        requires view { V.position view.now ≡ board_at (game_of R.KIND self.old tree.now) node }
        ensures passed { IsPassed R.KIND self.old self.new tree.now compiler.old compiler.new node result }
    {
        match self.value_at::<R>(tree, compiler, node) {
            Err(error) => Err(error),
            Ok(None) => Ok(()),
            Ok(Some(value)) => {
                let moves = self.notes[node as usize].left as u32;
                self.remember::<R, V>(view, moves, value);
                Ok(())
            }
        }
    }

    /// What is known of a node of the attacker that is settled; the win is compiled.
    fn value_at<R: Rule>(
        &mut self,
        tree: &ProofTree,
        compiler: &mut Compiler,
        node: u32,
    ) -> Result<Option<Settled>, SearchError>
        requires in_tree { node < length tree.now.links }
        requires searching { Searches R.KIND self.old tree.now compiler.old (IsOnWayUp tree.now.links node) }
        ensures value { IfOk result (λ found. IfSome found (IsTrueOf R.KIND compiler.new (game_of R.KIND self.old tree.now)
            (board_at (game_of R.KIND self.old tree.now) node) (left_at (game_of R.KIND self.old tree.now).left node))) }
        ensures passed { IsPassed R.KIND self.old self.new tree.now compiler.old compiler.new node result }
    {
        match tree.link(node).kind {
            Kind::Defend => Ok(None),
            Kind::Attack => {
                let numbers = tree.numbers(node);
                if !numbers.is_settled() {
                    if !is_newest(tree, node) {
                        return Ok(None);
                    }
                    return Ok(Some(Settled::Open(node)));
                }
                if numbers.proof != 0 {
                    return Ok(Some(Settled::Lost));
                }
                match self.compiled::<R>(tree, compiler, node) {
                    Err(error) => Err(error),
                    Ok(win) => Ok(Some(Settled::Won(win))),
                }
            }
        }
    }

    /// The win of a proved node of the attacker, compiled if it is not yet.
    fn compiled<R: Rule>(
        &mut self,
        tree: &ProofTree,
        compiler: &mut Compiler,
        node: u32,
    ) -> Result<WrittenWin, SearchError>
        requires in_tree { node < length tree.now.links }
        requires searching { Searches R.KIND self.old tree.now compiler.old (IsOnWayUp tree.now.links node) }
        requires attack { (link_at tree.now.links node).kind ≡ AnyKind.Attack }
        requires proved { numbers_at tree.now.numbers node ≡ settled_numbers true }
        ensures win { IfOk result (IsWrittenWin R.KIND (left_at (game_of R.KIND self.old tree.now).left node)
            (board_at (game_of R.KIND self.old tree.now) node) compiler.new) }
        ensures passed { IsPassed R.KIND self.old self.new tree.now compiler.old compiler.new node result }
    {
        match self.notes[node as usize].win() {
            Some(win) => Ok(win),
            None => self.compile::<R>(tree, compiler, node),
        }
    }

    /// Compiles the win of a proved node of the attacker of the wins after the replies to the first move that is proved.
    fn compile<R: Rule>(
        &mut self,
        tree: &ProofTree,
        compiler: &mut Compiler,
        node: u32,
    ) -> Result<WrittenWin, SearchError>
        requires in_tree { node < length tree.now.links }
        requires searching { Searches R.KIND self.old tree.now compiler.old (IsOnWayUp tree.now.links node) }
        requires attack { (link_at tree.now.links node).kind ≡ AnyKind.Attack }
        requires proved { numbers_at tree.now.numbers node ≡ settled_numbers true }
        requires unwritten { (note_at self.old.notes.items node).moves ≡ 0 }
        ensures win { IfOk result (IsWrittenWin R.KIND (left_at (game_of R.KIND self.old tree.now).left node)
            (board_at (game_of R.KIND self.old tree.now) node) compiler.new) }
        ensures passed { IsPassed R.KIND self.old self.new tree.now compiler.old compiler.new node result }
    {
        let proved = first_proved(tree, node);
        let link = tree.link(proved);
        let attack = self.notes[proved as usize].at;
        let notes = kids(self.notes.as_slice(), link);
        match compile_answers(self.alloc, compiler, &self.root, attack, notes) {
            Err(error) => Err(error),
            Ok(win) => {
                self.note_win(node, win);
                Ok(win)
            }
        }
    }

    /// Notes the win of a node.
    pub(crate) fn note_win(&mut self, node: u32, win: WrittenWin)
        requires noted { node < length self.old.notes.items }
        requires few { win.moves < 256 }
        ensures notes { self.new.notes.items ≡ noted_won self.old.notes.items node win }
        ensures rest { self.new ≡ record self.old { notes = self.new.notes } }
    {
        self.notes[node as usize] = self.notes[node as usize].won(win);
    }

    /// Remembers what is known of the position of the view within so many moves.
    fn remember<R: Rule, V: Seen<R>>(&mut self, view: &V, moves: u32, value: Settled)
        ensures settled { (self.new.settled ≡ kept (packed (V.position view.now), moves) value self.old.settled)
            ⊎ (self.new.settled ≡ self.old.settled) }
        ensures rest { self.new ≡ record self.old { settled = self.new.settled } }
    {
        // Without memory the position is not remembered, and nothing else changes.
        let _ = self
            .settled
            .keep(PackedPosition::of(view.board()), moves, value);
    }
}

/// Whether the node is the one that was given children last.
fn is_newest(tree: &ProofTree, node: u32) -> bool
    requires in_tree { node < length tree.now.links }
    ensures newest { IsTrue result ↔ (0 < (link_at tree.now.links node).count)
        × ((link_at tree.now.links node).first + (link_at tree.now.links node).count ≡ length tree.now.links) }
{
    // This tells what holds of every tree.
    let len = tree.len();
    let link = tree.link(node);
    link.count > 0 && link.first + link.count == len
}

/// Compiles the node that plays this attack and answers each point of the board with the node of the note for it.
fn compile_answers(
    alloc: Global,
    compiler: &mut Compiler,
    board: &Board,
    attack: Point,
    notes: &[Note],
) -> Result<WrittenWin, SearchError>
    requires some { 0 < length notes.now }
    requires below { All (λ n. n.node < length compiler.old) notes.now }
    ensures wins { IfOk result (λ win. WinsByAnswers compiler.old attack
        (map answer_of (all_notes notes.now (points_of board.now))) compiler.new win.node) }
    ensures moves { IfOk result (λ win. win.moves ≡ greatest (map (λ n. n.moves) (all_notes notes.now (points_of board.now))) + 1) }
    ensures writes { Writes compiler.old compiler.new 1 result }
{
    let all = notes_for(alloc, board, notes)?;
    let answers = answers_of(alloc, all.as_slice())?;
    let most = most_moves(all.as_slice());
    let node = compiler.fork(attack, answers.as_slice())?;
    Ok(WrittenWin {
        node,
        moves: most + 1,
    })
}

/// The notes of the children of a node with this link.
fn kids(notes: &[Note], link: Link) -> &[Note]
    requires fits { link.first + link.count ≤ length notes.now }
    ensures kids { result.now ≡ take link.count (drop link.first notes.now) }
{
    let first = link.first as usize;
    &notes[first..first + link.count as usize]
}

/// The note for each point of the board: the first of these whose move it is, or else the first of all, whose win wins after each
/// reply without a node.
fn notes_for(alloc: Global, board: &Board, notes: &[Note]) -> Result<Vec<Note>, AllocError>
    requires some { 0 < length notes.now }
    ensures notes { IfOk result (λ all. all.items ≡ all_notes notes.now (points_of board.now)) }
{
    let mut all = Vec::new(alloc);
    for q in board.points() {
        all.push(Note {
            at: q,
            ..noted_for(notes, q)
        })?;
    }
    Ok(all)
}

/// The first of the notes whose move this is, or else the first of all.
fn noted_for(notes: &[Note], q: Point) -> Note
    requires some { 0 < length notes.now }
    ensures noted { result ≡ noted_for_lem notes.now q }
{
    for note in notes {
        if q.is(note.at) {
            return *note;
        }
    }
    notes[0]
}

/// The answers to the replies that lead to the nodes with these notes.
fn answers_of(alloc: Global, notes: &[Note]) -> Result<Vec<Reply>, AllocError>
    ensures all { IfOk result (λ all. all.items ≡ map answer_of notes.now) }
{
    notes
        .iter()
        .map(|note| Reply {
            at: note.at,
            next: note.node,
        })
        .collect(alloc)
}

/// The most moves that the wins of the nodes with these notes take.
fn most_moves(notes: &[Note]) -> u32
    ensures most { result ≡ greatest (map (λ n. n.moves) notes.now) }
    ensures few { result < 256 }
{
    let mut most: u32 = 0;
    for note in notes {
        most = most.max(u32::from(note.moves));
    }
    most
}

/// The first child of a proved node of the attacker that is proved.
fn first_proved(tree: &ProofTree, node: u32) -> u32
    requires in_tree { node < length tree.now.links }
    requires some { 0 < (link_at tree.now.links node).count }
    requires attack { (link_at tree.now.links node).kind ≡ AnyKind.Attack }
    requires proved { numbers_at tree.now.numbers node ≡ settled_numbers true }
    ensures child { IsChild (link_at tree.now.links node) result }
    ensures proved { (numbers_at tree.now.numbers result).proof ≡ 0 }
{
    // This tells what holds of every tree.
    let _len = tree.len();
    let link = tree.link(node);
    for i in link.first..link.first + link.count {
        if tree.numbers(i).proof == 0 {
            return i;
        }
    }
    unreachable!()
}

//! The search: the most-proving leaf is settled or gets its children, until the root is settled or the budget is spent.
//!
//! An attacker's leaf that is not won at once gets a child for each move that is to be tried, a defender's one for each reply but
//! for those that are met by the win after the first of them.
//! Positions of the attacker are counted when they get a node, or a win is compiled for them, and those of the defender
//! when they get a node; neither count passes the budget.
#![tactic(auto)]

ghost use Rattle.std.specs.Prelude.{◌≡◌, ◌<◌, ◌≤◌, ◌+◌, true, false, ◌++◌, map, All, length, replicate, IfOk, IfSome, OnOk, OnErr, [], ◌∷◌, ◌^◌};
ghost use Rattle.std.specs.List.{sum_by};
ghost use Rattle.position_table.specs.Packing.{packed};
ghost use Rattle.position_table.specs.Remembering.{value_under, looked_up};
ghost use Rattle.proof_tree.specs.Combining.{AreNumbers, is_settled};
ghost use Rattle.proof_tree.specs.declared.TheConstants.{INFINITE};
ghost use Rattle.proof_tree.specs.Trees.{grown_links, leaf_sum, link_at, numbers_at};
ghost use Rattle.proof_tree.specs.declared.Kind.{Kind as AnyKind};
ghost use Rattle.threat_game.specs.Attacks.{IsDoubleWin, OthersFail, is_last_move, tried_moves};
ghost use Rattle.strategy_compiler.specs.Growth.{Writes};
ghost use Rattle.threat_game.specs.Replies.{IsChild, nodes_for};
ghost use Rattle.proof_number.specs.Children.{AreSettled, child_note, child_numbers};
ghost use Rattle.proof_number.specs.Notes.{note_at};
ghost use Rattle.proof_number.specs.Searches.{HasEnded, IsOverBudget, Searches, StandsAt, IsTried, IsStep, IsSettledAt, IsExpandedAt};
ghost use Rattle.proof_number.specs.Searches.{IsNew, noted_won};

use crate::REMEMBERED;
use crate::looks::Looks;
use crate::notes::{Note, Settled};
use foul_judge::Seen;
use position_table::{PackedPosition, WholeTable};
use proof_tree::{Kind, Numbers, ProofTree};
use row_shapes::Rule;
use std::alloc::{AllocError, Global};
use stone_board::{Board, Point};
use strategy_compiler::{Compiler, SearchError, WrittenWin};
use threat_game::{
    Attacks, Child, DoublePoint, answers_of, compile_double, compile_five, compile_last,
    find_attacks, last_move, settle_child,
};

/// What a step of the search did.
#[derive(Clone, Copy)]
pub(crate) enum Step {
    /// The leaf was settled or has children.
    Done,
    /// More positions would be counted than the budget.
    Spent,
}

/// The search beside its tree: what it is for, what stands on the board, what is known of each node, and what was counted.
#[derive(Drop)]
pub(crate) struct Search {
    pub(crate) alloc: Global,
    pub(crate) depth: u32,
    pub(crate) budget: u64,
    /// How many nodes the compiler had before the search.
    pub(crate) before: u32,
    /// The board of the root, from which contracts tell the boards of the other nodes.
    pub(crate) root: Board,
    pub(crate) board: Board,
    pub(crate) notes: Vec<Note>,
    pub(crate) settled: WholeTable<Settled>,
    /// By so much the numbers of leaves may still rise.
    pub(crate) spare: Numbers,
    pub(crate) attacked: u64,
    pub(crate) defended: u64,
}

impl Search {
    /// A search from the position of this board, where the compiler has so many nodes.
    pub(crate) fn new(
        alloc: Global,
        board: &Board,
        depth: u8,
        budget: u64,
        before: u32,
    ) -> Result<Search, AllocError>
        ensures begins { IfOk result (IsNew depth budget before board.now) }
    {
        let mut notes = Vec::new(alloc);
        notes.push(Note::open(Point { x: 0, y: 0 }, depth))?;
        Ok(Search {
            alloc,
            depth: u32::from(depth),
            budget,
            before,
            root: board.copy()?,
            board: board.copy()?,
            notes,
            settled: WholeTable::new(alloc, REMEMBERED)?,
            spare: Numbers {
                proof: 0,
                disproof: 0,
            },
            attacked: 1,
            defended: 0,
        })
    }

    /// Goes to the most-proving leaf, or to one below the node that it stands for, settles it or gives it its children, and comes back.
    /// Only the most-proving leaf itself ends the search where the budget is spent.
    pub(crate) fn step<R: Rule, V: Seen<R>>(
        &mut self,
        looks: &mut Looks<R>,
        view: &mut V,
        tree: &mut ProofTree,
        compiler: &mut Compiler,
    ) -> Result<Step, SearchError>
        requires searching { Searches R.KIND self.old tree.old compiler.old (λ i. ⊥) }
        requires open { is_settled (numbers_at tree.old.numbers 0) ≡ false }
        requires view { V.position view.old ≡ self.old.root }
        requires board { self.old.board ≡ self.old.root }
        ensures step { IsStep R.KIND self.old self.new tree.old tree.new compiler.old compiler.new
            (HasEnded R.KIND self.old self.new tree.new compiler.new) result }
        ensures view { V.position view.new ≡ self.old.root }
    {
        let leaf = tree.most_proving();
        let there = self.go_on::<R, V>(view, tree, compiler, leaf, self.depth);
        match self.try_leaf::<R, V>(looks, view, tree, compiler, there) {
            Ok(Step::Done) => Ok(Step::Done),
            Ok(Step::Spent) => self.try_most_proving::<R, V>(looks, view, tree, compiler),
            Err(error) => Err(error),
        }
    }

    /// Goes to the most-proving leaf, settles it or gives it its children, and comes back.
    fn try_most_proving<R: Rule, V: Seen<R>>(
        &mut self,
        looks: &mut Looks<R>,
        view: &mut V,
        tree: &mut ProofTree,
        compiler: &mut Compiler,
    ) -> Result<Step, SearchError>
        requires searching { Searches R.KIND self.old tree.old compiler.old (λ i. ⊥) }
        requires open { is_settled (numbers_at tree.old.numbers 0) ≡ false }
        requires view { V.position view.old ≡ self.old.root }
        requires board { self.old.board ≡ self.old.root }
        ensures step { IsStep R.KIND self.old self.new tree.old tree.new compiler.old compiler.new
            (HasEnded R.KIND self.old self.new tree.new compiler.new) result }
        ensures view { V.position view.new ≡ self.old.root }
    {
        let leaf = tree.most_proving();
        self.go_to::<R, V>(view, tree, leaf);
        self.try_leaf::<R, V>(looks, view, tree, compiler, leaf)
    }

    /// Settles the leaf at which the view is or gives it its children, and comes back to the root.
    fn try_leaf<R: Rule, V: Seen<R>>(
        &mut self,
        looks: &mut Looks<R>,
        view: &mut V,
        tree: &mut ProofTree,
        compiler: &mut Compiler,
        leaf: u32,
    ) -> Result<Step, SearchError>
        requires at_leaf { StandsAt R.KIND self.old tree.old compiler.old leaf (V.position view.old) }
        ensures step { IsStep R.KIND self.old self.new tree.old tree.new compiler.old compiler.new
            (IsOverBudget R.KIND self.old self.new tree.old tree.new compiler.new leaf) result }
        ensures view { V.position view.new ≡ self.old.root }
    {
        match self.grow::<R, V>(looks, view, tree, compiler, leaf) {
            Ok(Step::Done) => {
                self.spare.proof += 1;
                self.spare.disproof += 1;
                self.go_back::<R, V>(view, tree, compiler, leaf)?;
                Ok(Step::Done)
            }
            Ok(Step::Spent) => {
                self.take_back::<R, V>(view, tree, leaf);
                Ok(Step::Spent)
            }
            Err(error) => {
                self.take_back::<R, V>(view, tree, leaf);
                Err(error)
            }
        }
    }

    /// Settles an open leaf or gives it its children.
    fn grow<R: Rule, V: Seen<R>>(
        &mut self,
        looks: &mut Looks<R>,
        view: &mut V,
        tree: &mut ProofTree,
        compiler: &mut Compiler,
        leaf: u32,
    ) -> Result<Step, SearchError>
        requires at_leaf { StandsAt R.KIND self.old tree.old compiler.old leaf (V.position view.old) }
        ensures tried { IsTried R.KIND self.old self.new tree.old tree.new compiler.old compiler.new leaf result }
        ensures same { V.position view.new ≡ V.position view.old }
    {
        match tree.link(leaf).kind {
            Kind::Attack => self.attack::<R, V>(view, tree, compiler, leaf),
            Kind::Defend => self.defend::<R, V>(looks, view, tree, compiler, leaf),
        }
    }

    /// Settles a leaf of the attacker as won.
    pub(crate) fn settle_won(&mut self, tree: &mut ProofTree, leaf: u32, win: WrittenWin)
        requires in_tree { leaf < length tree.old.links }
        requires childless { (link_at tree.old.links leaf).count ≡ 0 }
        requires noted { leaf < length self.old.notes.items }
        requires few { win.moves < 256 }
        ensures settled { IsSettledAt tree.old tree.new leaf true }
        ensures notes { self.new.notes.items ≡ noted_won self.old.notes.items leaf win }
        ensures rest { self.new ≡ record self.old { notes = self.new.notes } }
    {
        self.note_win(leaf, win);
        tree.settle_at(leaf, true);
    }

    /// Settles a leaf of the attacker, who has no five point and two moves or more, or gives it its children.
    fn attack<R: Rule, V: Seen<R>>(
        &mut self,
        view: &mut V,
        tree: &mut ProofTree,
        compiler: &mut Compiler,
        leaf: u32,
    ) -> Result<Step, SearchError>
        requires at_leaf { StandsAt R.KIND self.old tree.old compiler.old leaf (V.position view.old) }
        requires attack { (link_at tree.old.links leaf).kind ≡ AnyKind.Attack }
        ensures tried { IsTried R.KIND self.old self.new tree.old tree.new compiler.old compiler.new leaf result }
        ensures same { V.position view.new ≡ V.position view.old }
    {
        if leaf == 0 {
            // Nothing is remembered before the root is looked at.
            return self.try_attacks::<R, V>(view, tree, compiler, leaf);
        }
        match self.recall::<R, V>(view, leaf) {
            Some(Settled::Won(win)) => {
                self.settle_won(tree, leaf, win);
                Ok(Step::Done)
            }
            Some(Settled::Lost) => {
                tree.settle_at(leaf, false);
                Ok(Step::Done)
            }
            _ => self.try_attacks::<R, V>(view, tree, compiler, leaf),
        }
    }

    /// What is remembered of the position of the view within the moves that are left at the leaf.
    pub(crate) fn recall<R: Rule, V: Seen<R>>(&mut self, view: &V, leaf: u32) -> Option<Settled>
        requires noted { leaf < length self.old.notes.items }
        ensures found { result ≡ value_under (packed (V.position view.now), (note_at self.old.notes.items leaf).left) self.old.settled }
        ensures entries { self.new.settled ≡ looked_up (packed (V.position view.now), (note_at self.old.notes.items leaf).left) self.old.settled }
        ensures rest { self.new ≡ record self.old { settled = self.new.settled } }
    {
        let moves = self.notes[leaf as usize].left as u32;
        self.settled.find(&PackedPosition::of(view.board()), moves)
    }

    /// The same where nothing is remembered of the position.
    fn try_attacks<R: Rule, V: Seen<R>>(
        &mut self,
        view: &mut V,
        tree: &mut ProofTree,
        compiler: &mut Compiler,
        leaf: u32,
    ) -> Result<Step, SearchError>
        requires at_leaf { StandsAt R.KIND self.old tree.old compiler.old leaf (V.position view.old) }
        requires attack { (link_at tree.old.links leaf).kind ≡ AnyKind.Attack }
        ensures tried { IsTried R.KIND self.old self.new tree.old tree.new compiler.old compiler.new leaf result }
        ensures same { V.position view.new ≡ V.position view.old }
    {
        match find_attacks::<R, V>(self.alloc, view, &mut self.board)? {
            Attacks::DoublePoint(double) => {
                self.win_double::<R, V>(view, tree, compiler, leaf, double)
            }
            Attacks::NoReply(p) => self.win_last::<R>(tree, compiler, leaf, p),
            Attacks::Moves(moves) => {
                self.expand_attack::<R>(tree, compiler, leaf, moves.as_slice())
            }
        }
    }

    /// Settles a leaf of the attacker by a move to which each reply fouls.
    fn win_last<R: Rule>(
        &mut self,
        tree: &mut ProofTree,
        compiler: &mut Compiler,
        leaf: u32,
        p: Point,
    ) -> Result<Step, SearchError>
        requires at_leaf { StandsAt R.KIND self.old tree.old compiler.old leaf self.old.board }
        requires attack { (link_at tree.old.links leaf).kind ≡ AnyKind.Attack }
        requires last { is_last_move R.KIND self.old.board p ≡ true }
        ensures tried { IsTried R.KIND self.old self.new tree.old tree.new compiler.old compiler.new leaf result }
    {
        let win = compile_last(compiler, p)?;
        self.settle_won(tree, leaf, win);
        Ok(Step::Done)
    }

    /// Settles a leaf of the attacker by a double point.
    fn win_double<R: Rule, V: Seen<R>>(
        &mut self,
        view: &mut V,
        tree: &mut ProofTree,
        compiler: &mut Compiler,
        leaf: u32,
        double: DoublePoint,
    ) -> Result<Step, SearchError>
        requires at_leaf { StandsAt R.KIND self.old tree.old compiler.old leaf (V.position view.old) }
        requires attack { (link_at tree.old.links leaf).kind ≡ AnyKind.Attack }
        requires double { IsDoubleWin R.KIND (V.position view.old) double }
        ensures tried { IsTried R.KIND self.old self.new tree.old tree.new compiler.old compiler.new leaf result }
        ensures same { V.position view.new ≡ V.position view.old }
    {
        let count = self.attacked + answers_of::<R, V>(view, double);
        if count > self.budget {
            return Ok(Step::Spent);
        }
        let win = compile_double::<R, V>(self.alloc, view, double, compiler)?;
        self.attacked = count;
        self.settle_won(tree, leaf, win);
        Ok(Step::Done)
    }

    /// Gives a leaf of the attacker a child for each of the moves to be tried, or settles it if there is none.
    fn expand_attack<R: Rule>(
        &mut self,
        tree: &mut ProofTree,
        compiler: &Compiler,
        leaf: u32,
        moves: &[Point],
    ) -> Result<Step, SearchError>
        requires at_leaf { StandsAt R.KIND self.old tree.old compiler.now leaf self.old.board }
        requires attack { (link_at tree.old.links leaf).kind ≡ AnyKind.Attack }
        requires moves { moves.now ≡ tried_moves R.KIND self.old.board }
        requires others { OthersFail R.KIND self.old.board }
        ensures tried { IsTried R.KIND self.old self.new tree.old tree.new compiler.now compiler.now leaf result }
    {
        if moves.len() == 0 {
            tree.settle_at(leaf, false);
            return Ok(Step::Done);
        }
        let count = self.defended + moves.len() as u64;
        if count > self.budget {
            return Ok(Step::Spent);
        }
        let left = self.notes[leaf as usize].left - 1;
        let numbers = open_numbers(self.alloc, moves.len())?;
        let notes = open_notes(self.alloc, moves, left)?;
        self.expand(tree, leaf, numbers.as_slice(), notes.as_slice())?;
        self.defended = count;
        Ok(Step::Done)
    }

    /// Gives a leaf children with these numbers and notes. After an `Err` the tree and the notes are as before.
    fn expand(
        &mut self,
        tree: &mut ProofTree,
        leaf: u32,
        numbers: &[Numbers],
        notes: &[Note],
    ) -> Result<(), AllocError>
        requires in_tree { leaf < length tree.old.links }
        requires childless { (link_at tree.old.links leaf).count ≡ 0 }
        requires some { 0 < length numbers.now }
        requires each { All AreNumbers numbers.now }
        requires short { length tree.old.links + length numbers.now ≤ INFINITE }
        requires sums { (kind : AnyKind) → leaf_sum kind
            (grown_links tree.old.links leaf (length numbers.now)) (tree.old.numbers ++ numbers.now) < INFINITE }
        ensures tree { OnOk result (IsExpandedAt tree.old tree.new leaf numbers.now) }
        ensures notes { OnOk result (self.new.notes.items ≡ self.old.notes.items ++ notes.now) }
        ensures rest { self.new ≡ record self.old { notes = self.new.notes } }
        ensures same_tree { OnErr result (tree.new ≡ tree.old) }
        ensures same_notes { OnErr result (self.new.notes.items ≡ self.old.notes.items) }
    {
        let len = self.notes.len();
        self.notes.extend_from_slice(notes)?;
        if tree.expand_at(leaf, numbers).is_err() {
            self.notes.truncate(len);
            return Err(AllocError);
        }
        Ok(())
    }

    /// Settles a leaf of the other side that wins by its own fours, and looks at the replies at any other.
    fn defend<R: Rule, V: Seen<R>>(
        &mut self,
        looks: &mut Looks<R>,
        view: &mut V,
        tree: &mut ProofTree,
        compiler: &mut Compiler,
        leaf: u32,
    ) -> Result<Step, SearchError>
        requires at_leaf { StandsAt R.KIND self.old tree.old compiler.old leaf (V.position view.old) }
        requires defend { (link_at tree.old.links leaf).kind ≡ AnyKind.Defend }
        ensures tried { IsTried R.KIND self.old self.new tree.old tree.new compiler.old compiler.new leaf result }
        ensures same { V.position view.new ≡ V.position view.old }
    {
        let left = self.notes[leaf as usize].left;
        let denied = looks.is_denied::<V>(view, u32::from(left))?;
        if denied {
            tree.settle_at(leaf, false);
            return Ok(Step::Done);
        }
        self.answer_replies::<R, V>(looks, view, tree, compiler, leaf)
    }

    /// Gives a leaf of the other side its children, or settles it if a reply leaves no win.
    fn answer_replies<R: Rule, V: Seen<R>>(
        &mut self,
        looks: &mut Looks<R>,
        view: &mut V,
        tree: &mut ProofTree,
        compiler: &mut Compiler,
        leaf: u32,
    ) -> Result<Step, SearchError>
        requires at_leaf { StandsAt R.KIND self.old tree.old compiler.old leaf (V.position view.old) }
        requires defend { (link_at tree.old.links leaf).kind ≡ AnyKind.Defend }
        ensures tried { IsTried R.KIND self.old self.new tree.old tree.new compiler.old compiler.new leaf result }
        ensures same { V.position view.new ≡ V.position view.old }
    {
        let left = self.notes[leaf as usize].left;
        match looks.judge_replies::<V>(view, &mut self.board, u32::from(left))? {
            None => {
                tree.settle_at(leaf, false);
                Ok(Step::Done)
            }
            Some(children) => {
                let count = self.attacked + children.count;
                if count > self.budget {
                    return Ok(Step::Spent);
                }
                let settled = settle_children::<R, V>(
                    self.alloc,
                    view,
                    children.all.as_slice(),
                    left,
                    compiler,
                )?;
                self.expand(
                    tree,
                    leaf,
                    settled.numbers.as_slice(),
                    settled.notes.as_slice(),
                )?;
                self.attacked = count;
                Ok(Step::Done)
            }
        }
    }
}

/// The numbers and the notes of the children of a node.
#[derive(Drop)]
struct NewNodes {
    numbers: Vec<Numbers>,
    notes: Vec<Note>,
}

/// The numbers and notes of the children that are judged so, after the replies to be compiled.
fn settle_children<R: Rule, V: Seen<R>>(
    alloc: Global,
    view: &mut V,
    children: &[Child],
    left: u8,
    compiler: &mut Compiler,
) -> Result<NewNodes, SearchError>
    requires each { All (IsChild R.KIND left (V.position view.old)) children.now }
    ensures settled { IfOk result (λ new. AreSettled R.KIND left (V.position view.old) compiler.new
        children.now (length children.now) new.numbers.items new.notes.items) }
    ensures writes { Writes compiler.old compiler.new (sum_by (λ child. nodes_for child.judged) children.now) result }
    ensures same { V.position view.new ≡ V.position view.old }
{
    let mut numbers = Vec::new(alloc);
    let mut notes = Vec::new(alloc);
    // This tells what holds of every compiler.
    compiler.len();
    for child in children {
        let win = settle_child::<R, V>(alloc, view, *child, compiler)?;
        compiler.len();
        add_child(&mut numbers, &mut notes, Note::open(child.at, left), win)?;
    }
    Ok(NewNodes { numbers, notes })
}

/// Adds the numbers and the note of one more child, which is won or open.
fn add_child(
    numbers: &mut Vec<Numbers>,
    notes: &mut Vec<Note>,
    note: Note,
    win: Option<WrittenWin>,
) -> Result<(), AllocError>
    requires few { IfSome win (λ found. found.moves < 2 ^ 8) }
    ensures numbers { OnOk result (numbers.new.items ≡ numbers.old.items ++ child_numbers win ∷ []) }
    ensures notes { OnOk result (notes.new.items ≡ notes.old.items ++ child_note note win ∷ []) }
{
    match win {
        Some(win) => {
            numbers.push(Numbers::settled(true))?;
            notes.push(note.won(win))?;
        }
        None => {
            numbers.push(OPEN)?;
            notes.push(note)?;
        }
    }
    Ok(())
}

/// The numbers of a node of which nothing is known.
const OPEN: Numbers = Numbers {
    proof: 1,
    disproof: 1,
};

/// The numbers of so many nodes of which nothing is known.
fn open_numbers(alloc: Global, count: usize) -> Result<Vec<Numbers>, AllocError>
    ensures numbers { IfOk result (λ v. v.items ≡ replicate count (record { proof = 1; disproof = 1 })) }
{
    let mut numbers = Vec::new(alloc);
    numbers.resize(count, OPEN)?;
    Ok(numbers)
}

/// The notes of the nodes after these moves, with so many moves left.
fn open_notes(alloc: Global, moves: &[Point], left: u8) -> Result<Vec<Note>, AllocError>
    ensures notes { IfOk result (λ v. v.items
        ≡ map (λ p. record { at = p; left = left; moves = 0; node = 0 }) moves.now) }
{
    moves
        .iter()
        .map(|at| Note {
            at: *at,
            left,
            moves: 0,
            node: 0,
        })
        .collect(alloc)
}

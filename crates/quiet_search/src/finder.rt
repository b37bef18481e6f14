//! The finder: what the search keeps beside its tree, and the calls of the searches that it stands on.
#![tactic(auto)]

use crate::LOOKED_A_NODE;
use crate::known::{Known, Memory};
use foul_judge::{Outcome, Position, Seen};
use four_search::{FourAnswer, finds_fours, four_search};
use proof_number::{ProofAnswer, proof_number};
use proof_tree::ProofTree;
use quiet_tree::Notes;
use quiet_zones::Zones;
use row_shapes::Rule;
use std::alloc::{AllocError, Global};
use stone_board::{Board, Point, Side};
use strategy_compiler::{Compiler, SearchError};
use strategy_graph::{Node, answer_among};

/// So many positions are looked at for fours at one position.
const FOUR_POSITIONS: u64 = 200;

/// Within so many moves fours are looked for, and the defender's.
const FOUR_MOVES: u32 = 20;

const DENIAL_MOVES: u32 = 12;

/// Within so many moves threats are looked for.
const THREAT_MOVES: u32 = 15;

/// How wide a round searches: its number from 1 on, the budget of threats at a leaf of the attacker and after a pass, and how many moves
/// are tried.
#[derive(Clone, Copy)]
pub(crate) struct Width {
    pub(crate) round: u32,
    pub(crate) budget: u64,
    pub(crate) moves: u32,
}

/// What a search for fours and threats comes to.
#[derive(Clone, Copy)]
enum Forced {
    /// This node wins.
    Won(u32),
    /// No win by threats is there.
    Denied,
    /// None was found.
    Open,
}

impl Forced {
    /// The node that wins, if one does.
    fn node(self) -> Option<u32> {
        match self {
            Forced::Won(node) => Some(node),
            Forced::Denied | Forced::Open => None,
        }
    }
}

/// Remembers what a search for fours and threats with this budget came to on the board.
fn keep_forced(
    memory: &mut Memory,
    board: &Board,
    found: Forced,
    budget: u64,
) -> Result<(), AllocError> {
    match found {
        Forced::Won(node) => memory.keep_won(board, node),
        Forced::Denied => memory.keep_tried(board, u64::MAX),
        Forced::Open => memory.keep_tried(board, budget.saturating_add(1)),
    }
}

/// What the search keeps beside its tree.
#[derive(Drop)]
pub(crate) struct Finder<R: Rule> {
    pub(crate) alloc: Global,
    pub(crate) root: Position<R>,
    pub(crate) attacker: Side,
    pub(crate) depth: u32,
    pub(crate) width: Width,
    pub(crate) memory: Memory,
    pub(crate) zones: Zones<R>,
    pub(crate) notes: Notes,
    /// So many positions the searches for threats have listed.
    pub(crate) looked: u64,
}

/// The nodes of the compiler.
pub(crate) fn nodes_of(compiler: &Compiler) -> &[Node] {
    compiler.nodes()
}

/// The node's attack, if the compiler has the node.
pub(crate) fn attack_of(compiler: &Compiler, node: u32) -> Option<Point> {
    let nodes = nodes_of(compiler);
    let place = node as usize;
    if place < nodes.len() {
        Some(nodes[place].attack)
    } else {
        None
    }
}

/// The node that answers the reply after this node, if there is one.
pub(crate) fn answer_of(compiler: &Compiler, node: Option<u32>, q: Point) -> Option<u32> {
    let place = node? as usize;
    let nodes = nodes_of(compiler);
    if place < nodes.len() {
        answer_among(nodes[place].replies.as_slice(), nodes[place].rest, q)
    } else {
        None
    }
}

/// The node that answers what is not listed after this node, if there is one.
pub(crate) fn rest_of(compiler: &Compiler, node: Option<u32>) -> Option<u32> {
    let place = node? as usize;
    let nodes = nodes_of(compiler);
    if place < nodes.len() {
        nodes[place].rest.node()
    } else {
        None
    }
}

/// Whether the move goes on.
pub(crate) fn is_on<R: Rule>(view: &mut Position<R>, p: Point) -> bool {
    matches!(view.outcome(p), Outcome::GoesOn)
}

/// Plays a move, if it goes on, and tells whether it does.
pub(crate) fn plays<R: Rule>(view: &mut Position<R>, p: Point) -> bool {
    match view.outcome(p) {
        Outcome::GoesOn => {
            view.play(p);
            true
        }
        _ => false,
    }
}

/// The position after a move, if the move goes on.
pub(crate) fn after_move<R: Rule>(
    view: &Position<R>,
    p: Point,
) -> Result<Option<Position<R>>, AllocError> {
    let mut next = view.copy()?;
    if plays::<R>(&mut next, p) {
        Ok(Some(next))
    } else {
        Ok(None)
    }
}

impl<R: Rule> Finder<R> {
    /// The number of the zone of a node of the compiler at a board where the attacker is to move, if it has one.
    pub(crate) fn zone_at(
        &mut self,
        compiler: &Compiler,
        node: u32,
        board: &Board,
    ) -> Result<Option<u32>, AllocError> {
        self.zones.zone_of(nodes_of(compiler), node, board)
    }

    /// Whether a node, if there is one, has a zone at the board: then it wins there.
    pub(crate) fn serves(
        &mut self,
        compiler: &Compiler,
        node: Option<u32>,
        board: &Board,
    ) -> Result<bool, AllocError> {
        match node {
            None => Ok(false),
            Some(number) => {
                let zone = self.zone_at(compiler, number, board)?;
                Ok(zone.is_some())
            }
        }
    }

    /// The node of a win by fours or threats for the side to move, if one is known or found with this budget.
    pub(crate) fn force(
        &mut self,
        view: &mut Position<R>,
        budget: u64,
        left: u32,
        compiler: &mut Compiler,
    ) -> Result<Option<u32>, SearchError> {
        let known = self.memory.find(view.board());
        if known.won.is_some() {
            return Ok(known.won);
        }
        if known.lost == self.width.round || left == 0 || known.tried > budget {
            return Ok(None);
        }
        let found = self.search_forced(view, known, budget, left, compiler)?;
        keep_forced(&mut self.memory, view.board(), found, budget)?;
        Ok(found.node())
    }

    /// The same where nothing is known: first fours, where they were not searched, then threats.
    fn search_forced(
        &mut self,
        view: &mut Position<R>,
        known: Known,
        budget: u64,
        left: u32,
        compiler: &mut Compiler,
    ) -> Result<Forced, SearchError> {
        if known.tried == 0 {
            let fours = find_fours_win::<R>(self.alloc, view, left, compiler)?;
            if let Some(node) = fours {
                return Ok(Forced::Won(node));
            }
        }
        if budget == 0 {
            return Ok(Forced::Open);
        }
        find_threats_win::<R>(self.alloc, view, budget, left, compiler, &mut self.looked)
    }

    /// Whether the searches for threats have listed as many positions as there are for so many nodes.
    pub(crate) fn has_looked_enough(&self, nodes: u32) -> bool {
        self.looked >= u64::from(nodes) * LOOKED_A_NODE
    }

    /// Whether the defender, to move, is seen to win by fours.
    pub(crate) fn is_denied(&self, view: &mut Position<R>) -> Result<bool, AllocError> {
        finds_fours::<R, Position<R>>(self.alloc, view, DENIAL_MOVES, FOUR_POSITIONS)
    }
}

/// The node of a win by continuous fours within the moves left, if one is found.
fn find_fours_win<R: Rule>(
    alloc: Global,
    view: &mut Position<R>,
    left: u32,
    compiler: &mut Compiler,
) -> Result<Option<u32>, SearchError> {
    let depth = left.min(FOUR_MOVES).max(1);
    match four_search::<R, Position<R>>(alloc, view, depth, FOUR_POSITIONS, compiler)? {
        FourAnswer::Win(win) => Ok(Some(win.node)),
        FourAnswer::None | FourAnswer::Spent => Ok(None),
    }
}

/// The node of a win by threats within the moves left, if one is found with the budget. What was listed is counted.
fn find_threats_win<R: Rule>(
    alloc: Global,
    view: &mut Position<R>,
    budget: u64,
    left: u32,
    compiler: &mut Compiler,
    looked: &mut u64,
) -> Result<Forced, SearchError> {
    let depth = left.min(THREAT_MOVES).max(1);
    let positions = budget.min(1_000_000).max(1);
    let mut tree = ProofTree::new(alloc)?;
    let found = proof_number::<R, Position<R>>(alloc, view, depth, positions, &mut tree, compiler)?;
    *looked = looked.saturating_add(u64::from(tree.len()));
    match found {
        ProofAnswer::Win(win) => Ok(Forced::Won(win.node)),
        ProofAnswer::None => Ok(Forced::Denied),
        ProofAnswer::Spent => Ok(Forced::Open),
    }
}

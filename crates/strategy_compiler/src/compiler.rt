//! The compiler: a set of nodes in the order in which they were put in.
//!
//! A node that is equal to one that is there is not put in again, so what a search comes upon twice has one number. A
//! table is finished from one root, from the node of a written win, or from the answers of a start, by one and the same
//! walk.
#![tactic(auto)]

ghost use Rattle.std.specs.Prelude.{◌≡◌, ◌↔◌, ◌<◌, ◌≤◌, [], true, ℕ, List, map, All, Contains, length, slice_get, Some, IfOk, OnOk, OnErr, IsErr, IsErrOf};
ghost use Rattle.game_rules.specs.Grid.{Grid};
ghost use Rattle.game_rules.specs.declared.RuleKind.{RuleKind};
ghost use Rattle.strategy_graph.specs.declared.Node.{Node};
ghost use Rattle.strategy_graph.specs.Tables.{IsNode, answer_at, is_rising, is_winning};
ghost use Rattle.strategy_graph.specs.Leads.{AtNode};
ghost use Rattle.strategy_graph.specs.Laws.{SaysSame};
ghost use Rattle.strategy_compiler.specs.Trees.{Tree, Branches, Leaf, Fork, StandsFor, AnswersBranches};
ghost use Rattle.strategy_compiler.specs.Walks.{AreDifferent, IsNumberedByWalk, IsTableOf, NamesPointsReached, Reaches, Renumbers, completed, last};
ghost use Rattle.strategy_compiler.specs.Starts.{IsMadeOfAnswers, IsStartOfBranches};
ghost use Rattle.strategy_compiler.specs.Wins.{IsWinTable, IsWrittenWin};
ghost use Rattle.strategy_compiler.specs.Forks.{WinsAtOnce, WinsByAnswers};
ghost use Rattle.strategy_compiler.specs.Nodes.{IsCompiled, NamesOnly, PutsIn, answering_node, winning_node};

use crate::WrittenWin;
use crate::renumbering::made_from;
use crate::rests::answering;
use crate::starts::start_from;
use game_rules::Point;
use indexmap::IndexSet;
use std::alloc::{AllocError, Global};
use std::marker::Model;
use strategy_graph::{MAX_NODES, Node, Replies, Reply, Rest, Start, Table};
use thiserror::Error;

/// The nodes that were put in, each once, which contracts see as their list. They are numbered from 0 in the order in
/// which they came, and a number stays that of its node. They are a table: each names only lower ones, its replies rise
/// strictly in reading order, a winning node lists none, and there are at most `MAX_NODES`. No two are equal.
#[derive(Drop)]
pub struct Compiler {
    nodes: IndexSet<Node>,
}

impl Model for Compiler {
    ghost use Rattle.std.specs.Prelude.{List};
    ghost use Rattle.strategy_graph.specs.declared.Node.{Node};
    ghost use Rattle.strategy_compiler.specs.Nodes.{IsCompiled};

    ghost Value = { List Node };

    ghost view = { λ c. c.nodes.keys };

    ghost invariant = { λ c. IsCompiled c.nodes.keys };
}

/// Why a node is not put in.
#[derive(Debug, Drop, PartialEq, Eq, Error)]
pub enum CompileError {
    /// The node is new, and the compiler has `MAX_NODES` nodes.
    #[error("the compiler is full")]
    Full,
    /// There is no memory for the node.
    #[error("out of memory")]
    Memory,
}

impl Compiler {
    /// A compiler with no nodes. It takes no memory.
    pub fn new(alloc: Global) -> Self
        ensures empty { result ≡ [] }
    {
        Compiler {
            nodes: IndexSet::new(alloc),
        }
    }

    /// How many nodes there are.
    pub fn len(&self) -> u32
        ensures count { result ≡ length self.now }
        ensures compiled { IsCompiled self.now }
    {
        self.nodes.len() as u32
    }

    /// All nodes, each at its number: no two are equal, and each names lower ones alone.
    pub fn nodes(&self) -> &[Node]
        ensures nodes { result.now ≡ self.now }
        ensures compiled { IsCompiled self.now }
    {
        self.nodes.as_slice()
    }

    /// Puts the winning node with this attack in, and answers its number: that of the node that is there already, or that of
    /// the new one, which is the last. It wins wherever the attack wins at once. After an `Err` the nodes are as they were:
    ///
    /// - `Full`, exactly where the node is new and the compiler has `MAX_NODES` nodes;
    /// - `Memory`, where there is no memory for it.
    pub fn winning(&mut self, attack: Point) -> Result<u32, CompileError>
        ensures node { IfOk result (λ i. slice_get self.new i ≡ Some (winning_node attack)) }
        ensures stands { IfOk result (λ i. StandsFor self.new i (Leaf attack)) }
        ensures wins { IfOk result (λ i. WinsAtOnce attack self.new i) }
        ensures put_in { OnOk result (PutsIn self.old (winning_node attack) self.new) }
        ensures full { IsErrOf result CompileError.Full
            ↔ ((¬ Contains self.old (winning_node attack)) × (length self.old ≡ MAX_NODES)) }
        ensures unchanged { OnErr result (self.new ≡ self.old) }
        ensures compiled { IsCompiled self.new }
    {
        let replies = Replies::new(*self.nodes.allocator());
        put_in(
            &mut self.nodes,
            Node {
                attack,
                replies,
                rest: Rest::Wins,
            },
        )
    }

    /// Puts the node in that plays this attack and answers each of these replies with its node, and answers its number: that
    /// of the node that is there already, or that of the new one, which is the last. The answers rise strictly in
    /// reading order, and each names a node of the compiler. The rest is the node that answers the most of the
    /// replies, and on a tie the one that answers the earliest; only the answers that differ from it are listed. Without
    /// answers the rest is `Nothing`. It wins wherever the attack goes on and the answers win after it. After an `Err` the nodes
    /// are as they were:
    ///
    /// - `Full`, exactly where the node is new and the compiler has `MAX_NODES` nodes, unless memory ends first;
    /// - `Memory`, where there is no memory for it.
    pub fn node(&mut self, attack: Point, answers: &[Reply]) -> Result<u32, CompileError>
        requires rising { is_rising answers.now ≡ true }
        requires below { All (λ r. r.next < length self.old) answers.now }
        ensures node { IfOk result
            (λ i. slice_get self.new i ≡ Some (answering_node attack answers.now)) }
        ensures answers { IfOk result
            (λ i. All (λ r. answer_at self.new i r.at ≡ Some r.next) answers.now) }
        ensures points { IfOk result
            (λ i. AtNode (slice_get self.new i) (NamesOnly attack (map (λ r. r.at) answers.now))) }
        ensures stands { IfOk result
            (λ i. (branches : Branches) → AnswersBranches self.old answers.now branches
            → StandsFor self.new i (Fork attack branches)) }
        ensures wins { IfOk result (λ i. WinsByAnswers self.old attack answers.now self.new i) }
        ensures put_in { OnOk result
            (PutsIn self.old (answering_node attack answers.now) self.new) }
        ensures full_only { IsErrOf result CompileError.Full
            → (¬ Contains self.old (answering_node attack answers.now))
            × (length self.old ≡ MAX_NODES) }
        ensures full { (¬ Contains self.old (answering_node attack answers.now))
            × (length self.old ≡ MAX_NODES) → IsErr result }
        ensures unchanged { OnErr result (self.new ≡ self.old) }
        ensures compiled { IsCompiled self.new }
    {
        let Ok(node) = answering(*self.nodes.allocator(), attack, answers) else {
            return Err(CompileError::Memory);
        };
        put_in(&mut self.nodes, node)
    }

    /// Puts the node in as it is, and answers its number: that of the equal node that is there already, or that of the new one,
    /// which is the last. It is a node of a table: it names only nodes of the compiler, its replies rise strictly in reading
    /// order, and a winning node lists none. After an `Err` the node is gone, and the nodes are as they were:
    ///
    /// - `Full`, exactly where the node is new and the compiler has `MAX_NODES` nodes;
    /// - `Memory`, where there is no memory for it.
    pub fn adopt(&mut self, given: Node) -> Result<u32, CompileError>
        requires node { IsNode given (length self.old) }
        ensures node { IfOk result (λ i. slice_get self.new i ≡ Some given) }
        ensures put_in { OnOk result (PutsIn self.old given self.new) }
        ensures full { IsErrOf result CompileError.Full
            ↔ ((¬ Contains self.old given) × (length self.old ≡ MAX_NODES)) }
        ensures unchanged { OnErr result (self.new ≡ self.old) }
        ensures compiled { IsCompiled self.new }
    {
        put_in(&mut self.nodes, given)
    }

    /// The table of all nodes, with their numbers: no two are equal. After an `Err` the compiler is gone.
    pub fn into_table(self) -> Result<Table, AllocError>
        ensures nodes { IfOk result (λ t. t ≡ self) }
        ensures compiled { IfOk result IsCompiled }
    {
        let Compiler { nodes } = self;
        let mut table = Table::new(*nodes.allocator());
        for node in nodes {
            table.push_node(node)?;
        }
        Ok(table)
    }

    /// The table of the nodes that the root reaches, numbered as each is completed in a walk from the root, which visits at each
    /// node that of the rest first and then those listed, in order. The root is the last. Each tree for which the root
    /// stands has this table, which is no longer than the compiler. It does not recurse, however long the chain of nodes. After
    /// an `Err` the compiler is gone.
    pub fn finish(self, root: u32) -> Result<Table, AllocError>
        requires in_compiler { root < length self }
        ensures nodes { IfOk result (λ t. Renumbers self (completed self root) t) }
        ensures trees { IfOk result
            (λ t. (tree : Tree) → StandsFor self root tree → IsTableOf tree t) }

        // Of every root, whether or not it stands for a tree.
        ensures some { IfOk result (λ t. 0 < length t) }
        ensures few { IfOk result (λ t. length t ≤ length self) }
        ensures different { IfOk result AreDifferent }
        ensures reached { IfOk result (λ t. (i : ℕ) → i < length t → Reaches t (last t) i) }
        ensures numbered { IfOk result IsNumberedByWalk }
        ensures same { IfOk result (λ t. SaysSame self root t (last t)) }
        ensures points { IfOk result (λ t. All (NamesPointsReached self root) t) }
    {
        let made = made_from(*self.nodes.allocator(), self.nodes.as_slice(), &[root])?;
        Ok(made.table)
    }

    /// The table of the nodes that the answers reach, and the start that has these answers to the first move of the opponent.
    /// The answers rise strictly in reading order, and each names a node of the compiler. The rest is chosen as by `node`: it
    /// answers the most of the replies, and only the answers that differ are listed; without answers the table is empty,
    /// and the rest is `Nothing`. The nodes are numbered as by `finish`, from the node of the rest first and then from those
    /// listed, in order, and are no more than the compiler has. Branches that the answers stand for have this table and this start.
    /// After an `Err` the compiler is gone.
    pub fn finish_start(self, answers: &[Reply]) -> Result<(Table, Start), AllocError>
        requires rising { is_rising answers.now ≡ true }
        requires below { All (λ r. r.next < length self) answers.now }
        ensures made { IfOk result (λ made. IsMadeOfAnswers self answers.now made.0 made.1) }
        ensures branches { IfOk result (λ made. (branches : Branches) → AnswersBranches self answers.now branches
            → IsStartOfBranches branches made.0 made.1) }
        ensures few { IfOk result (λ made. length made.0 ≤ length self) }
    {
        start_from(*self.nodes.allocator(), self.nodes.as_slice(), answers)
    }

    /// The table of a win that a search wrote: that of the node of the win, by `finish`. Where the win is one at a position, the
    /// last node is accepted there, wins within the moves of the win, and the table names points of that board alone. It is no
    /// longer than the compiler. After an `Err` the compiler is gone.
    pub fn finish_win(self, win: WrittenWin) -> Result<Table, AllocError>
        requires in_compiler { win.node < length self }
        ensures win { IfOk result (λ t. (rule : RuleKind) (limit : ℕ) (b : Grid)
            → IsWrittenWin rule limit b self win → IsWinTable rule b win t) }
        ensures same { IfOk result (λ t. SaysSame self win.node t (last t)) }
        ensures trees { IfOk result
            (λ t. (tree : Tree) → StandsFor self win.node tree → IsTableOf tree t) }
        ensures some { IfOk result (λ t. 0 < length t) }
        ensures few { IfOk result (λ t. length t ≤ length self) }
        ensures different { IfOk result AreDifferent }
        ensures reached { IfOk result (λ t. (i : ℕ) → i < length t → Reaches t (last t) i) }
        ensures numbered { IfOk result IsNumberedByWalk }
    {
        self.finish(win.node)
    }
}

/// Puts the node into the set, and answers its place there.
fn put_in(nodes: &mut IndexSet<Node>, node: Node) -> Result<u32, CompileError>
    requires compiled { IsCompiled nodes.old.keys }
    requires node { IsNode node (length nodes.old.keys) }
    ensures node { IfOk result (λ i. slice_get nodes.new.keys i ≡ Some node) }
    ensures put_in { OnOk result (PutsIn nodes.old.keys node nodes.new.keys) }
    ensures full { IsErrOf result CompileError.Full
        ↔ ((¬ Contains nodes.old.keys node) × (length nodes.old.keys ≡ MAX_NODES)) }
    ensures unchanged { OnErr result (nodes.new.keys ≡ nodes.old.keys) }
    ensures compiled { IsCompiled nodes.new.keys }
{
    if nodes.len() == MAX_NODES as usize {
        let Some(place) = nodes.get_index_of(&node) else {
            return Err(CompileError::Full);
        };
        return Ok(place as u32);
    }
    let Ok((place, _)) = nodes.insert_full(node) else {
        return Err(CompileError::Memory);
    };
    Ok(place as u32)
}

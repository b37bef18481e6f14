//! A compiler of tables: it takes nodes from the bottom up, keeps each once, and gives the table of the nodes that one
//! of them reaches.
//!
//! What it is given are attacks and the nodes that answer the replies to them; it finds the rest, which answers the most
//! of them, and lists the others. So trees of moves that are equal share their nodes, whatever the order in which a
//! search comes upon them, as in the hash-consing of Ershov and of Goto. `finish` numbers the nodes as a walk completes
//! them, so the table of a tree is one and the same, however it was compiled. A search that writes a win into a compiler
//! tells it as a `WrittenWin`, and `finish_win` gives the table of it.
//!
//! `specs/` says which nodes stand for a tree of moves, what the table of a tree is, and what a written win is.
#![tactic(auto)]

mod adopting;
mod compiler;
mod error;
mod laws;
mod renumbering;
mod rests;
mod starts;
mod walk;
mod win_nodes;
mod wins;

pub use compiler::{CompileError, Compiler};
pub use error::SearchError;
pub use laws::{
    branches_have_one_start, different_nodes_are_apart, growth_keeps_reach, growth_keeps_trees,
    growth_keeps_wins, tree_has_one_table,
};
pub use starts::renumbered_start;
pub use win_nodes::answer_node;
pub use wins::WrittenWin;

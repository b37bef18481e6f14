//! The nodes of whole tables, put into a compiler.
//!
//! They are adopted in the order of their numbers, and the number that each got stands in a list, by which the numbers in the nodes
//! after it are replaced. So nodes that are the same come once, whatever the tables they come from.
#![tactic(auto)]

ghost use Rattle.std.specs.Prelude.{◌≡◌, ◌∷◌, [], length, IfOk, IsErr, IsErrOf};
ghost use Rattle.strategy_graph.specs.declared.TheConstants.{MAX_NODES};
ghost use Rattle.strategy_compiler.specs.Adopting.{Adopts, AreNumbers};
ghost use Rattle.strategy_compiler.specs.Unfolded.{HoldMore};

use crate::renumbering::renumbered;
use crate::{CompileError, Compiler};
use std::alloc::Global;
use strategy_graph::Table;

impl Compiler {
    /// Adopts the nodes of the table in order, each with the numbers that those it names got, and answers the number of each. After an
    /// `Err` the nodes that were adopted stay:
    ///
    /// - `Full`, exactly where the nodes that were there and those of the table are together more than `MAX_NODES` different nodes,
    ///   unless memory ends first; the compiler is full then;
    /// - `Memory`, where there is no memory for a node or for the numbers.
    pub fn adopt_table(&mut self, alloc: Global, table: &Table) -> Result<Vec<u32>, CompileError>
        ensures numbers { IfOk result (λ numbers. AreNumbers self.old table.now self.new numbers.items) }
        ensures full { IsErrOf result CompileError.Full → HoldMore (self.old ∷ table.now ∷ []) MAX_NODES }
        ensures full_now { IsErrOf result CompileError.Full → length self.new ≡ MAX_NODES }
        ensures few { HoldMore (self.old ∷ table.now ∷ []) MAX_NODES → IsErr result }
        ensures adopts { Adopts self.old table.now self.new }
    {
        // For what is known of its nodes.
        self.len();
        let mut numbers = Vec::new(alloc);
        for i in 0..table.len() {
            let Ok(node) = renumbered(alloc, table.node(i), numbers.as_slice()) else {
                return Err(CompileError::Memory);
            };
            let number = self.adopt(node)?;
            if numbers.push(number).is_err() {
                return Err(CompileError::Memory);
            }
        }
        Ok(numbers)
    }
}

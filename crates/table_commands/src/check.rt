//! The command `check`: whether a table wins as it claims.
//!
//! The text is read, its root is checked at its position under its rule, and the verdict is told in one line.
#![tactic(auto)]

ghost use Rattle.std.specs.Prelude.{◌≡◌, true, length, IfOk, string_bytes};
ghost use Rattle.game_rules.specs.Play.{IsPosition};
ghost use Rattle.strategy_graph.specs.Roots.{root_below, root_depth};
ghost use Rattle.table_commands.specs.Checks.{CheckSays, TableSays, accepted_line};

use command_base::{Answer, Status, Told, refused_text};
use file_loading::{MAX_WORK, refused_root};
use position_files::{TableFile, read_table};
use std::alloc::{AllocError, Global};
use strategy_checker::check_root;

/// `check WORK`.
#[derive(Clone, Copy)]
pub struct Check {
    /// The most arrivals, from 1 to `MAX_WORK`.
    pub work: u64,
}

impl Told for Check {
    ghost use Rattle.std.specs.Prelude.{◌≤◌};
    ghost use Rattle.file_loading.specs.declared.TheConstants.{MAX_WORK};
    ghost use Rattle.table_commands.specs.Checks.{CheckSays};

    ghost in_range = { λ c. (1 ≤ c.work) × (c.work ≤ MAX_WORK) };

    ghost says = { λ c. CheckSays c.work };

    fn say(&self, alloc: Global, bytes: &[u8]) -> Result<Answer, AllocError> {
        match read_table(alloc, bytes) {
            Ok(file) => check_file(alloc, &file, self.work),
            Err(error) => refused_text(alloc, error),
        }
    }
}

/// What is said of a text that was read.
fn check_file(alloc: Global, file: &TableFile, work: u64) -> Result<Answer, AllocError>
    requires lawful { IsPosition file.now.kind file.now.board }
    requires root { root_below file.now.root (length file.now.table) ≡ true }
    requires moves { file.now.moves ≡ root_depth file.now.table file.now.root }
    ensures says { IfOk result (λ answer. TableSays work file.now answer.status answer.text) }
{
    match check_root(alloc, file.kind, &file.board, &file.table, &file.root, work) {
        Ok(arrivals) => {
            let text = accepted(alloc, file.moves, arrivals)?;
            Ok(Answer::told(Status::Done, text))
        }
        Err(error) => refused_root(alloc, error),
    }
}

/// The line of an accepted table.
fn accepted(alloc: Global, moves: u32, arrivals: u64) -> Result<String, AllocError>
    ensures line { IfOk result (λ text. string_bytes text ≡ accepted_line moves arrivals) }
{
    format!(in alloc; "accepted in {moves} moves, {arrivals} arrivals\n")
}
